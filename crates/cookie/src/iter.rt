//! The walks over a jar's cookies.
ghost use Rattle.std.specs.Prelude.{◌≡◌, ◌++◌, map};
ghost use Rattle.std.specs.Map.{values_of};
ghost use Rattle.std.specs.Map.Iter.{TakesFirst};
ghost use Rattle.cookie.specs.Shown.{additions, uncovered};
ghost use Rattle.cookie.specs.Table.{by_name, delta_mark, original_fields};

use crate::delta::DeltaCookie;
use crate::entries::Entries;
use crate::original::Original;
use crate::table::Table;
use cookie_core::Cookie;
use std::marker::Model;

/// The cookies that were changed, seen as the list of the records of those that are left.
#[derive(Drop)]
pub struct Delta<'a> {
    entries: Entries<'a, DeltaCookie>,
}

impl<'a> Model for Delta<'a> {
    ghost use Rattle.std.specs.Prelude.{List, map};
    ghost use Rattle.cookie.specs.Table.{delta_mark};
    ghost use Rattle.cookie_core.specs.Record.{Record};

    ghost Value = { List Record };

    ghost view = { λ a. map (λ d. (delta_mark d).cookie) a.entries };
}

impl<'a> Delta<'a> {
    pub(crate) fn new(entries: Entries<'a, DeltaCookie>) -> Delta<'a>
        ensures { result ≡ map (λ d. (delta_mark d).cookie) entries.entry }
    {
        Delta { entries }
    }
}

impl<'a> Iterator for Delta<'a> {
    ghost use Rattle.std.specs.Prelude.{length};
    ghost use Rattle.std.specs.Iterator.{at_most};
    ghost use Rattle.std.specs.Map.Iter.{TakesFirst};

    type Item = &'a Cookie<'static>;

    ghost next_gives = { TakesFirst (λ c. c.now.fields) };

    ghost remaining = { λ s. at_most (length s) };

    fn next(&mut self) -> Option<&'a Cookie<'static>> {
        let entry = self.entries.next()?;
        Some(&*entry.cookie)
    }
}

/// The cookies that a jar shows, seen as the list of the records of those that are left.
#[derive(Drop)]
pub struct Iter<'a> {
    delta: &'a Table<DeltaCookie>,
    changes: Entries<'a, DeltaCookie>,
    originals: Entries<'a, Original>,
}

impl<'a> Model for Iter<'a> {
    ghost use Rattle.std.specs.Prelude.{List, ◌++◌, map};
    ghost use Rattle.cookie.specs.Shown.{additions, uncovered};
    ghost use Rattle.cookie.specs.Table.{by_name, delta_mark, original_fields};
    ghost use Rattle.cookie_core.specs.Record.{Record};

    ghost Value = { List Record };

    ghost view = { λ a. additions (map delta_mark a.changes)
        ++ uncovered (by_name delta_mark a.delta.now.entries) (map original_fields a.originals) };
}

impl<'a> Iter<'a> {
    // The cookies that were added, and then the originals under whose names nothing was added or removed.
    pub(crate) fn new(delta: &'a Table<DeltaCookie>, originals: &'a Table<Original>) -> Iter<'a>
        ensures { result ≡ additions (map delta_mark (values_of delta.now.entries))
            ++ uncovered (by_name delta_mark delta.now.entries)
            (map original_fields (values_of originals.now.entries)) }
    {
        Iter {
            delta,
            changes: delta.values(),
            originals: originals.values(),
        }
    }
}

impl<'a> Iterator for Iter<'a> {
    ghost use Rattle.std.specs.Prelude.{length};
    ghost use Rattle.std.specs.Iterator.{at_most};
    ghost use Rattle.std.specs.Map.Iter.{TakesFirst};

    type Item = &'a Cookie<'static>;

    ghost next_gives = { TakesFirst (λ c. c.now.fields) };

    ghost remaining = { λ s. at_most (length s) };

    fn next(&mut self) -> Option<&'a Cookie<'static>> {
        match next_added(&mut self.changes) {
            Some(cookie) => Some(cookie),
            None => next_uncovered(self.delta, &mut self.originals),
        }
    }
}

// The next cookie that was added.
fn next_added<'a>(changes: &mut Entries<'a, DeltaCookie>) -> Option<&'a Cookie<'static>>
    ensures { TakesFirst (λ c. c.now.fields) (additions (map delta_mark changes.old))
        result (additions (map delta_mark changes.new)) }
{
    while let Some(entry) = changes.next() {
        if !entry.removed {
            return Some(&*entry.cookie);
        }
    }
    None
}

// The next original under whose name the delta has nothing.
fn next_uncovered<'a>(
    delta: &Table<DeltaCookie>,
    originals: &mut Entries<'a, Original>,
) -> Option<&'a Cookie<'static>>
    ensures { TakesFirst (λ c. c.now.fields)
        (uncovered (by_name delta_mark delta.now.entries) (map original_fields originals.old))
        result
        (uncovered (by_name delta_mark delta.now.entries) (map original_fields originals.new)) }
{
    while let Some(original) = originals.next() {
        if delta.find(original.cookie.name()).is_none() {
            return Some(&*original.cookie);
        }
    }
    None
}
