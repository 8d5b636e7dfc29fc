//! Child jars that change a jar: each stores cookies in a way of its own.
ghost use Rattle.std.specs.Prelude.{◌≡◌, None, IfOk, IsOk, OnErr, alloc_error};
ghost use Rattle.std.specs.FinMap.{get};
ghost use Rattle.cookie_core.specs.Memory.{Gives};
ghost use Rattle.cookie_core.specs.Record.{Record};
ghost use Rattle.cookie.specs.ChildJars.{ChangesSame, jar_of, storing_of};
ghost use Rattle.cookie.specs.Jar.{Add, AddOriginal, JarState, Remove, after};
ghost use Rattle.cookie.specs.declared.jar_error.JarError.TheVariants as refusal;

use crate::jar::CookieJar;
use crate::jar_error::JarError;
use cookie_core::Cookie;
use jiff::civil::DateTime;
use std::alloc::{AllocError, Global};

/// How a child jar stores the cookies that are passed to it.
pub trait Storing: Drop {
    // The cookie as an addition stores it.
    ghost stored: { Self → Record → Record };

    // The cookie whose name a removal drops.
    ghost dropped: { Self → Record → Record };

    // Making that cookie doesn't allocate.
    ghost DropsFreely: { Type 0 };

    // A look-up through the child jar returns the name and the value of this cookie.
    ghost ShowsPair: { Self → JarState → Record → Type 0 };

    /// Returns the cookie that the jar is to add. Fails only with `AllocError`, if out of memory.
    fn to_add(&self, alloc: Global, cookie: Cookie<'static>) -> Result<Cookie<'static>, AllocError>
        ensures gives { Gives alloc_error result (λ c.
            c.fields ≡ stored self.now cookie.entry.fields) }

        // Any jar that it was added to shows it.
        ensures shown { (jar : JarState)
            → ShowsPair self.now (after (Add (stored self.now cookie.entry.fields)) jar)
            cookie.entry.fields };

    /// Returns the cookie that the jar is to remove. Fails only with `AllocError`, if out of memory.
    fn to_remove(
        &self,
        alloc: Global,
        cookie: Cookie<'static>,
    ) -> Result<Cookie<'static>, AllocError>
        ensures gives { Gives alloc_error result (λ c.
            c.fields ≡ dropped self.now cookie.entry.fields) }
        ensures certain { DropsFreely → IsOk result };
}

/// A jar, seen and changed through a child jar.
#[derive(Drop)]
pub struct ChildJar<'a, S> {
    pub(crate) jar: &'a mut CookieJar,
    pub(crate) storing: S,
}

impl<'a, S: Storing> ChildJar<'a, S> {
    /// Adds an original cookie, as the child jar stores it.
    ///
    /// Fails only with `JarError::OutOfMemory`, and then leaves the jar as it was.
    pub fn add_original(&mut self, cookie: Cookie<'static>) -> Result<(), JarError>
        ensures gives { Gives refusal.OutOfMemory result (λ _.
            jar_of self.new ≡ after
            (AddOriginal (S.stored (storing_of self.old) cookie.entry.fields)) (jar_of self.old)) }
        ensures err { OnErr result (jar_of self.new ≡ jar_of self.old) }
        ensures same { ChangesSame self.new self.old }
    {
        let original = self.storing.to_add(self.jar.allocator(), cookie)?;
        self.jar.add_original(original)
    }

    /// Adds a cookie, as the child jar stores it. A `get` of its name then returns its name and value.
    ///
    /// Fails only with `JarError::OutOfMemory`, and then leaves the jar as it was.
    /// Example: `sign_in` in crates/cookie_examples/src/session.rt.
    pub fn add(&mut self, cookie: Cookie<'static>) -> Result<(), JarError>
        ensures gives { Gives refusal.OutOfMemory result (λ _.
            jar_of self.new ≡ after
            (Add (S.stored (storing_of self.old) cookie.entry.fields)) (jar_of self.old)) }
        ensures err { OnErr result (jar_of self.new ≡ jar_of self.old) }
        ensures shown { IfOk result (λ _.
            S.ShowsPair (storing_of self.new) (jar_of self.new) cookie.entry.fields) }
        ensures same { ChangesSame self.new self.old }
    {
        let added = self.storing.to_add(self.jar.allocator(), cookie)?;
        self.jar.add(added)
    }

    /// Removes the cookie of that name, at the date and time `now` in UTC. Through the child jar of a prefix, it
    /// removes the one that has this name after the prefix. If there is an original of that name, the delta gets a
    /// cookie that tells the client to drop it, with this cookie's path and domain as the child jar stores them.
    ///
    /// Fails only with `JarError::OutOfMemory`, and then leaves the jar as it was. Through a signed child jar it never
    /// fails if there is no such original.
    pub fn remove(&mut self, cookie: Cookie<'static>, now: DateTime) -> Result<(), JarError>
        ensures gives { Gives refusal.OutOfMemory result (λ _.
            jar_of self.new ≡ after
            (Remove (S.dropped (storing_of self.old) cookie.entry.fields) now) (jar_of self.old)) }
        ensures err { OnErr result (jar_of self.new ≡ jar_of self.old) }
        ensures certain { S.DropsFreely
            → get (jar_of self.old).originals
            (S.dropped (storing_of self.old) cookie.entry.fields).name ≡ None
            → IsOk result }
        ensures same { ChangesSame self.new self.old }
    {
        let removed = self.storing.to_remove(self.jar.allocator(), cookie)?;
        self.jar.remove(removed, now)
    }
}
