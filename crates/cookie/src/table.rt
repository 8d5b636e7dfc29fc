//! The tables of a jar.
ghost use Rattle.std.specs.Prelude.{◌≡◌, ◌<◌, ◌≤◌, ◌^◌, [], length, position, vec_len, IfOk, OnOk, OnErr};
ghost use Rattle.std.specs.FinMap as map;
ghost use Rattle.std.specs.List.{IsDistinct};
ghost use Rattle.std.specs.Map.{keys_of, values_of};
ghost use Rattle.std.specs.Option.{option_map};
ghost use Rattle.std.specs.Str.{bytes_eq};
ghost use Rattle.indexmap.specs.IndexMap.{hasher_of, spare};
ghost use Rattle.cookie.specs.Table.{by_name, key_eq, key_name, with_first, IsKeyedByName};

use crate::entries::Entries;
use crate::entry::Entry;
use crate::name_hash::NameHash;
use crate::name_key::{NameKey, last_byte};
use indexmap::IndexMap;
use std::alloc::{AllocError, Global};
use std::marker::Model;
use std::{fmt, mem};

// A table keeps up to this many entries in a row, and compares each name. That costs less than to hash one with drawn keys.
const FEW: usize = 32;

// For how many entries a table that hashes has room at first.
const FIRST_ROOM: usize = 36;

// Entries by the names of their cookies. It is seen as an `IndexMap` is: its entries, and how it hashes names.
#[derive(Drop)]
pub(crate) struct Table<X: Entry> {
    // All entries, while they are few.
    few: Vec<(NameKey, X)>,
    // All entries, once there were more.
    many: IndexMap<NameKey, X, NameHash>,
}

impl<X: Entry> Model for Table<X> {
    ghost use Rattle.std.specs.Prelude.{◌≡◌, ◌⊎◌, ◌++◌, List, []};
    ghost use Rattle.std.specs.List.{IsDistinct};
    ghost use Rattle.std.specs.Map.{keys_of};
    ghost use Rattle.indexmap.specs.IndexMap.{hasher_of};
    ghost use Rattle.cookie.specs.Table.{TableState, key_eq};

    ghost Value = { TableState X };

    ghost view = { λ t. record {
      entries = t.few.items ++ t.many.entries;
      hash = hasher_of t.many;
    } };

    ghost invariant = { λ t. IsDistinct key_eq (keys_of t.few.items)
        × ((t.few.items ≡ []) ⊎ (t.many.entries ≡ [])) };
}

impl<X: Entry> Table<X> {
    // A table without entries. It doesn't allocate.
    pub(crate) fn hashing(alloc: Global, hash: NameHash) -> Table<X>
        ensures entries { result.entries ≡ [] }
        ensures hash { result.hash ≡ hash }
    {
        Table {
            few: Vec::new(alloc),
            many: IndexMap::with_hasher(alloc, hash),
        }
    }

    pub(crate) fn allocator(&self) -> Global {
        *self.many.allocator()
    }

    // The number of entries.
    pub(crate) fn len(&self) -> usize
        ensures len { result ≡ length self.now.entries }
        ensures small { result < 2 ^ 63 }
        ensures unique { IsDistinct key_eq (keys_of self.now.entries) }
    {
        if self.many.is_empty() {
            self.few.len()
        } else {
            self.many.len()
        }
    }

    // The entries, in their order.
    pub(crate) fn values(&self) -> Entries<'_, X>
        ensures { result ≡ values_of self.now.entries }
    {
        Entries::new(self.few.iter(), self.many.values())
    }

    // The entry at a name.
    pub(crate) fn find(&self, name: &str) -> Option<&X>
        ensures { option_map (λ x. X.shows x.now) result
            ≡ map.get (by_name X.shows self.now.entries) name.now }
    {
        if self.many.is_empty() {
            return match place_of(&self.few, name) {
                Some(place) => Some(&self.few[place].1),
                None => None,
            };
        }
        self.many.get(name)
    }

    // Puts an entry at its name. On an error the table stays as it was. It hashes names as before, in both cases.
    pub(crate) fn put(&mut self, entry: X) -> Result<(), AllocError>
        ensures ok { OnOk result (by_name X.shows self.new.entries
            ≡ map.insert (by_name X.shows self.old.entries)
            (X.name_of (X.shows entry)) (X.shows entry)) }
        ensures err { OnErr result (by_name X.shows self.new.entries
            ≡ by_name X.shows self.old.entries) }
        ensures named { IsKeyedByName X.name_of (by_name X.shows self.old.entries)
            → IsKeyedByName X.name_of (by_name X.shows self.new.entries) }
        ensures hash { self.new.hash ≡ self.old.hash }
    {
        let key = entry.key()?;
        self.spread()?;
        self.set(key, entry)?;
        Ok(())
    }

    // Puts an entry at its name, if there is none. On an error the table stays as it was. It hashes names as before, in
    // both cases.
    pub(crate) fn put_first(&mut self, entry: X) -> Result<(), AllocError>
        ensures ok { OnOk result (by_name X.shows self.new.entries
            ≡ with_first (by_name X.shows self.old.entries)
            (X.name_of (X.shows entry)) (X.shows entry)) }
        ensures err { OnErr result (by_name X.shows self.new.entries
            ≡ by_name X.shows self.old.entries) }
        ensures named { IsKeyedByName X.name_of (by_name X.shows self.old.entries)
            → IsKeyedByName X.name_of (by_name X.shows self.new.entries) }
        ensures hash { self.new.hash ≡ self.old.hash }
    {
        let key = entry.key()?;
        self.spread()?;
        self.set_first(key, entry)?;
        Ok(())
    }

    // Moves the entries to where each is hashed, if they are no longer few. On an error the table stays as it was.
    fn spread(&mut self) -> Result<(), AllocError>
        ensures same { self.new.entries ≡ self.old.entries }
        ensures hash { self.new.hash ≡ self.old.hash }
    {
        if self.few.len() >= FEW {
            self.many.reserve(self.few.len().max(FIRST_ROOM))?;
            let none = Vec::new(self.allocator());
            move_all(mem::replace(&mut self.few, none), &mut self.many);
        }
        Ok(())
    }

    // Puts an entry at a key. On an error the table stays as it was.
    fn set(&mut self, key: NameKey, entry: X) -> Result<(), AllocError>
        ensures ok { OnOk result (by_name X.shows self.new.entries
            ≡ map.insert (by_name X.shows self.old.entries) (key_name key) (X.shows entry)) }
        ensures err { OnErr result (by_name X.shows self.new.entries
            ≡ by_name X.shows self.old.entries) }
        ensures hash { self.new.hash ≡ self.old.hash }
    {
        if self.many.is_empty() {
            set_few(&mut self.few, key, entry)
        } else {
            set_many(&mut self.many, key, entry)
        }
    }

    // Puts an entry at a key, if there is none. On an error the table stays as it was.
    fn set_first(&mut self, key: NameKey, entry: X) -> Result<(), AllocError>
        ensures ok { OnOk result (by_name X.shows self.new.entries
            ≡ with_first (by_name X.shows self.old.entries) (key_name key) (X.shows entry)) }
        ensures err { OnErr result (by_name X.shows self.new.entries
            ≡ by_name X.shows self.old.entries) }
        ensures hash { self.new.hash ≡ self.old.hash }
    {
        if self.many.is_empty() {
            set_first_few(&mut self.few, key, entry)
        } else {
            set_first_many(&mut self.many, key, entry)
        }
    }

    // Drops the entry at a name. An empty table isn't hashed for.
    pub(crate) fn discard(&mut self, name: &str)
        ensures removed { by_name X.shows self.new.entries
            ≡ map.remove (by_name X.shows self.old.entries) name.now }
        ensures named { IsKeyedByName X.name_of (by_name X.shows self.old.entries)
            → IsKeyedByName X.name_of (by_name X.shows self.new.entries) }
        ensures hash { self.new.hash ≡ self.old.hash }
    {
        if self.many.is_empty() {
            discard_few(&mut self.few, name);
        } else {
            discard_many(&mut self.many, name);
        }
    }

    // Drops all entries.
    pub(crate) fn clear(&mut self)
        ensures entries { self.new.entries ≡ [] }
        ensures hash { self.new.hash ≡ self.old.hash }
    {
        self.few.clear();
        self.many.truncate(0);
    }
}

impl<X: Entry> Table<X> {
    // A table that shows the same, and hashes names alike.
    pub(crate) fn copy(&self, alloc: Global) -> Result<Table<X>, AllocError>
        ensures shows { IfOk result (λ made.
            by_name X.shows made.entries ≡ by_name X.shows self.now.entries) }
        ensures hash { IfOk result (λ made. made.hash ≡ self.now.hash) }
    {
        if self.many.is_empty() {
            return Ok(Table {
                few: copy_few(&self.few, alloc)?,
                many: IndexMap::with_hasher(alloc, *self.many.hasher()),
            });
        }
        Ok(Table {
            few: Vec::new(alloc),
            many: copy_many(&self.many, alloc)?,
        })
    }
}

// The place of the entry at a name.
fn place_of<X: Entry>(pairs: &[(NameKey, X)], name: &str) -> Option<usize>
    ensures { result ≡ position (λ key. bytes_eq name.now (key_name key)) (keys_of pairs.now) }
{
    let last = last_byte(name);
    for i in 0..pairs.len() {
        if pairs[i].0.is(name, last) {
            return Some(i);
        }
    }
    None
}

// Puts an entry at a key. On an error the entries stay as they were.
fn set_few<X: Entry>(
    pairs: &mut Vec<(NameKey, X)>,
    key: NameKey,
    entry: X,
) -> Result<(), AllocError>
    ensures ok { OnOk result (by_name X.shows pairs.new.items
        ≡ map.insert (by_name X.shows pairs.old.items) (key_name key) (X.shows entry)) }
    ensures err { OnErr result (pairs.new.items ≡ pairs.old.items) }
    ensures unique { IsDistinct key_eq (keys_of pairs.old.items)
        → IsDistinct key_eq (keys_of pairs.new.items) }
{
    match place_of(pairs, key.as_str()) {
        Some(place) => pairs[place].1 = entry,
        None => pairs.push((key, entry))?,
    }
    Ok(())
}

// Puts an entry at a key, if there is none. On an error the entries stay as they were.
fn set_first_few<X: Entry>(
    pairs: &mut Vec<(NameKey, X)>,
    key: NameKey,
    entry: X,
) -> Result<(), AllocError>
    ensures ok { OnOk result (by_name X.shows pairs.new.items
        ≡ with_first (by_name X.shows pairs.old.items) (key_name key) (X.shows entry)) }
    ensures err { OnErr result (pairs.new.items ≡ pairs.old.items) }
    ensures unique { IsDistinct key_eq (keys_of pairs.old.items)
        → IsDistinct key_eq (keys_of pairs.new.items) }
{
    if place_of(pairs, key.as_str()).is_none() {
        pairs.push((key, entry))?;
    }
    Ok(())
}

// Drops the entry at a name.
fn discard_few<X: Entry>(pairs: &mut Vec<(NameKey, X)>, name: &str)
    requires { IsDistinct key_eq (keys_of pairs.old.items) }
    ensures removed { by_name X.shows pairs.new.items
        ≡ map.remove (by_name X.shows pairs.old.items) name.now }
    ensures unique { IsDistinct key_eq (keys_of pairs.new.items) }
{
    if let Some(place) = place_of(pairs, name) {
        pairs.swap_remove(place);
    }
}

// Entries that show the same.
fn copy_few<X: Entry>(
    pairs: &[(NameKey, X)],
    alloc: Global,
) -> Result<Vec<(NameKey, X)>, AllocError>
    requires { IsDistinct key_eq (keys_of pairs.now) }
    ensures shows { IfOk result (λ made.
        by_name X.shows made.items ≡ by_name X.shows pairs.now) }
    ensures unique { IfOk result (λ made. IsDistinct key_eq (keys_of made.items)) }
{
    let mut made = Vec::with_capacity(alloc, pairs.len())?;
    for pair in pairs {
        set_few(&mut made, pair.0.copy()?, pair.1.copy()?)?;
    }
    Ok(made)
}

// Moves the entries into an empty table that has room for them.
fn move_all<X: Entry>(pairs: Vec<(NameKey, X)>, table: &mut IndexMap<NameKey, X, NameHash>)
    requires empty { table.old.entries ≡ [] }
    requires room { vec_len pairs ≤ spare table.old }
    requires unique { IsDistinct key_eq (keys_of pairs.items) }
    ensures entries { table.new.entries ≡ pairs.items }
    ensures hash { hasher_of table.new ≡ hasher_of table.old }
{
    for (key, entry) in pairs {
        table.insert(key, entry).unwrap();
    }
}

// Puts an entry at a key. On an error the table stays as it was.
fn set_many<X: Entry>(
    table: &mut IndexMap<NameKey, X, NameHash>,
    key: NameKey,
    entry: X,
) -> Result<(), AllocError>
    ensures ok { OnOk result (by_name X.shows table.new.entries
        ≡ map.insert (by_name X.shows table.old.entries) (key_name key) (X.shows entry)) }
    ensures err { OnErr result (by_name X.shows table.new.entries
        ≡ by_name X.shows table.old.entries) }
    ensures hash { hasher_of table.new ≡ hasher_of table.old }
{
    make_room(table)?;
    table.insert(key, entry)?;
    Ok(())
}

// Puts an entry at a key, if there is none. On an error the table stays as it was.
fn set_first_many<X: Entry>(
    table: &mut IndexMap<NameKey, X, NameHash>,
    key: NameKey,
    entry: X,
) -> Result<(), AllocError>
    ensures ok { OnOk result (by_name X.shows table.new.entries
        ≡ with_first (by_name X.shows table.old.entries) (key_name key) (X.shows entry)) }
    ensures err { OnErr result (by_name X.shows table.new.entries
        ≡ by_name X.shows table.old.entries) }
    ensures hash { hasher_of table.new ≡ hasher_of table.old }
{
    make_room(table)?;
    table.entry(key)?.or_insert(entry);
    Ok(())
}

// Makes room in a full table for four times the number of entries, since each step moves them all.
fn make_room<X: Entry>(table: &mut IndexMap<NameKey, X, NameHash>) -> Result<(), AllocError>
    ensures same { by_name X.shows table.new.entries ≡ by_name X.shows table.old.entries }
    ensures hash { hasher_of table.new ≡ hasher_of table.old }
{
    if table.len() == table.capacity() {
        table.reserve(table.len().saturating_mul(3).max(FIRST_ROOM))?;
    }
    Ok(())
}

// Drops the entry at a name.
fn discard_many<X: Entry>(table: &mut IndexMap<NameKey, X, NameHash>, name: &str)
    ensures removed { by_name X.shows table.new.entries
        ≡ map.remove (by_name X.shows table.old.entries) name.now }
    ensures hash { hasher_of table.new ≡ hasher_of table.old }
{
    table.swap_remove(name);
}

// A table that shows the same, and hashes names alike.
fn copy_many<X: Entry>(
    table: &IndexMap<NameKey, X, NameHash>,
    alloc: Global,
) -> Result<IndexMap<NameKey, X, NameHash>, AllocError>
    ensures shows { IfOk result (λ made.
        by_name X.shows made.entries ≡ by_name X.shows table.now.entries) }
    ensures hash { IfOk result (λ made. hasher_of made ≡ hasher_of table.now) }
{
    let hash = *table.hasher();
    let mut made = IndexMap::with_capacity_and_hasher(alloc, table.len(), hash)?;
    for (key, entry) in table {
        set_many(&mut made, key.copy()?, entry.copy()?)?;
    }
    Ok(made)
}

impl<X: Entry + fmt::Debug> fmt::Debug for Table<X> {
    fn fmt<W: fmt::Write>(&self, f: &mut fmt::Formatter<W>) -> fmt::Result {
        let mut map = f.debug_map();
        for pair in &self.few {
            map.entry(&pair.0, &pair.1);
        }
        for (key, entry) in &self.many {
            map.entry(key, entry);
        }
        map.finish()
    }
}
