//! The jar: original cookies, and the changes since.
ghost use Rattle.std.specs.Prelude.{◌≡◌, ◌<◌, ◌^◌, List, None, OnOk, OnErr, IsOk, length, reverse};
ghost use Rattle.std.specs.FinMap.{get};
ghost use Rattle.std.specs.Option.{option_map};
ghost use Rattle.cookie_core.specs.Memory.{Gives};
ghost use Rattle.cookie.specs.History.{LooksBack, after_all};
ghost use Rattle.cookie.specs.Jar.{Add, AddOriginal, Change, ForceRemove, Name, Remove, ResetDelta, after, empty_jar, view};
ghost use Rattle.cookie.specs.Originals.{with_original};
ghost use Rattle.cookie.specs.Walk.{Walks};
ghost use Rattle.cookie.specs.declared.jar_error.JarError.TheVariants as refusal;

use crate::delta::DeltaCookie;
use crate::iter::{Delta, Iter};
use crate::jar_error::JarError;
use crate::name_hash::NameHash;
use crate::original::Original;
use crate::table::Table;
use cookie_core::Cookie;
use jiff::civil::DateTime;
use std::alloc::{AllocError, Global};
use std::fmt;
use std::hash::RandomState;
use std::marker::Model;

/// Cookies by their names, and which of them were changed since they came (RFC 6265 5.3).
#[derive(Drop)]
pub struct CookieJar {
    originals: Table<Original>,
    delta: Table<DeltaCookie>,
}

// Contracts see the jar as two finite maps from names to the records of cookies.
impl Model for CookieJar {
    ghost use Rattle.std.specs.Prelude.{◌≡◌};
    ghost use Rattle.cookie.specs.Jar.{JarState, jar_code};
    ghost use Rattle.cookie.specs.Table.{AreNamed, by_name, delta_mark, original_fields};

    ghost Value = { JarState };

    ghost coded = { jar_code };

    ghost view = { λ a. record {
      originals = by_name original_fields a.originals.entries;
      delta = by_name delta_mark a.delta.entries;
    } };

    // Each key is its cookie's name, and both tables hash names alike.
    ghost invariant = { λ a. AreNamed (record {
      originals = by_name original_fields a.originals.entries;
      delta = by_name delta_mark a.delta.entries;
    }) × (a.originals.hash ≡ a.delta.hash) };
}

impl CookieJar {
    /// Makes a jar with no cookie. It doesn't allocate. Its hash is fixed: if strangers choose the names, use
    /// `with_hasher`.
    ///
    /// After any changes, each of its two maps has under each name what looking back through the changes finds.
    /// Example: `print` in crates/cookie_examples/src/session.rt.
    pub fn new(alloc: Global) -> CookieJar
        ensures empty { result ≡ empty_jar }
        ensures history { (changes : List Change)
            → LooksBack (reverse changes) (after_all changes result) }
    {
        CookieJar::hashing(alloc, NameHash::Fixed)
    }

    /// Makes a jar with no cookie, for names that strangers choose. The jar and its copies hash the names with the keys
    /// of `state`. It doesn't allocate.
    ///
    /// After any changes, each of its two maps has under each name what looking back through the changes finds.
    /// Example: `answer` in crates/cookie_examples/src/main.rt.
    pub fn with_hasher(alloc: Global, state: RandomState) -> CookieJar
        ensures empty { result ≡ empty_jar }
        ensures history { (changes : List Change)
            → LooksBack (reverse changes) (after_all changes result) }
    {
        CookieJar::hashing(alloc, NameHash::Keyed(state))
    }

    // Makes a jar with no cookie, which hashes names this way.
    fn hashing(alloc: Global, hash: NameHash) -> CookieJar
        ensures empty { result ≡ empty_jar }
        ensures history { (changes : List Change)
            → LooksBack (reverse changes) (after_all changes result) }
    {
        CookieJar {
            originals: Table::hashing(alloc, hash),
            delta: Table::hashing(alloc, hash),
        }
    }

    /// Returns the cookie under `name`: the one that was added, or else the original. Returns `None` if there is
    /// neither, or if it was removed.
    /// Example: `print` in crates/cookie_examples/src/headers.rt.
    pub fn get(&self, name: &str) -> Option<&Cookie<'static>>
        ensures { option_map (λ c. c.now.fields) result ≡ view self.now name.now }
    {
        match self.delta.find(name) {
            Some(entry) if entry.removed => None,
            Some(entry) => Some(&*entry.cookie),
            None => self.original(name),
        }
    }

    /// Returns the original cookie under `name`, whatever the delta has there. It doesn't allocate.
    pub fn original(&self, name: &str) -> Option<&Cookie<'static>>
        ensures { option_map (λ c. c.now.fields) result ≡ get self.now.originals name.now }
    {
        let entry = self.originals.find(name)?;
        Some(&*entry.cookie)
    }

    /// Adds an original cookie, in place of the original of its name. This isn't a change: the delta stays as it is.
    ///
    /// Fails only with `JarError::OutOfMemory`, and then leaves the jar as it was.
    pub fn add_original(&mut self, cookie: Cookie<'static>) -> Result<(), JarError>
        ensures gives { Gives refusal.OutOfMemory result (λ _.
            self.new ≡ after (AddOriginal cookie.entry.fields) self.old) }
        ensures err { OnErr result (self.new ≡ self.old) }
    {
        let original = Original::new(self.allocator(), cookie)?;
        self.originals.put(original)?;
        Ok(())
    }

    // Puts a cookie among the originals, if there is none of its name. On an error the jar stays as it was.
    pub(crate) fn put_first(&mut self, cookie: Cookie<'static>) -> Result<(), AllocError>
        ensures ok { OnOk result (self.new ≡ with_original cookie.entry.fields self.old) }
        ensures err { OnErr result (self.new ≡ self.old) }
    {
        let original = Original::new(self.allocator(), cookie)?;
        self.originals.put_first(original)
    }

    /// Adds a cookie, in place of the one that the jar shows under its name.
    ///
    /// Fails only with `JarError::OutOfMemory`, and then leaves the jar as it was.
    /// Example: `answer` in crates/cookie_examples/src/main.rt.
    pub fn add(&mut self, cookie: Cookie<'static>) -> Result<(), JarError>
        ensures gives { Gives refusal.OutOfMemory result (λ _.
            self.new ≡ after (Add cookie.entry.fields) self.old) }
        ensures err { OnErr result (self.new ≡ self.old) }
    {
        let addition = DeltaCookie::addition(self.allocator(), cookie)?;
        self.delta.put(addition)?;
        Ok(())
    }

    /// Removes the cookie of that name, at the date and time `now` in UTC. If there is an original of that name, the
    /// delta gets a cookie that tells the client to drop it, with this cookie's path and domain.
    ///
    /// Fails only with `JarError::OutOfMemory`, and only if there is such an original. It then leaves the jar as it
    /// was.
    /// Example: `answer` in crates/cookie_examples/src/main.rt.
    pub fn remove(&mut self, cookie: Cookie<'static>, now: DateTime) -> Result<(), JarError>
        ensures gives { Gives refusal.OutOfMemory result (λ _.
            self.new ≡ after (Remove cookie.entry.fields now) self.old) }
        ensures err { OnErr result (self.new ≡ self.old) }
        ensures certain { get self.old.originals cookie.entry.fields.name ≡ None → IsOk result }
    {
        if self.originals.find(cookie.name()).is_some() {
            let removal = DeltaCookie::removal(self.allocator(), cookie, now)?;
            self.delta.put(removal)?;
        } else {
            self.delta.discard(cookie.name());
        }
        Ok(())
    }

    /// Removes what the jar has under that name, original and change alike. The delta gets no cookie that would tell
    /// the client to drop it. It doesn't allocate.
    pub fn force_remove(&mut self, name: &str)
        ensures { self.new ≡ after (ForceRemove name.now) self.old }
    {
        self.originals.discard(name);
        self.delta.discard(name);
    }

    /// Forgets all changes: the delta is empty, and the jar shows its originals again. It doesn't allocate.
    pub fn reset_delta(&mut self)
        ensures change { self.new ≡ after ResetDelta self.old }
        ensures originals { (name : Name) → view self.new name ≡ get self.old.originals name }
    {
        self.delta.clear();
    }

    // The allocator of the jar and of its child jars.
    pub(crate) fn allocator(&self) -> Global {
        self.delta.allocator()
    }

    /// Copies the jar, with its originals and changes.
    ///
    /// Fails only with `JarError::OutOfMemory`.
    pub fn clone(&self) -> Result<CookieJar, JarError>
        ensures { Gives refusal.OutOfMemory result (λ made. made ≡ self.now) }
    {
        let alloc = self.allocator();
        let made = CookieJar {
            originals: self.originals.copy(alloc)?,
            delta: self.delta.copy(alloc)?,
        };
        Ok(made)
    }

    /// Iterates over the cookies that the jar shows, each name once: those that were added, and the originals under
    /// whose names nothing was added or removed. It doesn't allocate.
    ///
    /// ```
    /// for cookie in jar.iter() {
    ///     println!(rt; "{}", cookie.stripped())?;
    /// }
    /// ```
    pub fn iter(&self) -> Iter<'_>
        ensures walks { Walks (view self.now) result }

        // They can be counted.
        ensures fits { length result < 2 ^ 64 }
    {
        // `len` is called for its clause that the keys differ, which the proof cites.
        let _changes = self.delta.len();
        let _originals = self.originals.len();
        Iter::new(&self.delta, &self.originals)
    }

    /// Iterates over the cookies that were changed, each name once: those that were added, and those that tell the
    /// client to drop an original. It doesn't allocate.
    pub fn delta(&self) -> Delta<'_>
        ensures walks { Walks (λ n. option_map (λ m. m.cookie) (get self.now.delta n)) result }

        // They can be counted.
        ensures fits { length result < 2 ^ 64 }
    {
        // `len` is called for its clause that the keys differ, which the proof cites.
        let _len = self.delta.len();
        let entries = self.delta.values();
        Delta::new(entries)
    }
}

/// Prints the originals and the changes by name, with their values, for `{:?}` and derives. No contract says more of
/// the text. A jar holds no key.
impl fmt::Debug for CookieJar {
    fn fmt<W: fmt::Write>(&self, f: &mut fmt::Formatter<W>) -> fmt::Result {
        f.debug_struct("CookieJar")
            .field("originals", &self.originals)
            .field("delta", &self.delta)
            .finish()
    }
}
