//! Child jars whose cookies have sealed values.
ghost use Rattle.std.specs.Prelude.{◌≡◌, None, Some, IfOk, IfSome, IsOk, OnErr, option_map};
ghost use Rattle.std.specs.FinMap.{get};
ghost use Rattle.cookie_core.specs.Memory.{Gives};
ghost use Rattle.cookie.specs.AnswersExactly.{AnswersExactly, AnswersPair};
ghost use Rattle.cookie.specs.Jar.{Add, AddOriginal, Remove, after, view};
ghost use Rattle.cookie.specs.Keys.{encryption_half};
ghost use Rattle.cookie.specs.ChildJars.{Changes, ChangesSame, jar_of, key_of};
ghost use Rattle.cookie.specs.SealedAdditions.{IsDrawnAddition, IsSealedAddition};
ghost use Rattle.cookie.specs.SealingCalls.{IsDrawnCall, IsNoncedCall, IsSealedAs};
ghost use Rattle.cookie.specs.Sealing.{CanSeal, IsSealingOf};
ghost use Rattle.cookie.specs.declared.jar_error.JarError.TheVariants as refusal;

use crate::child::ChildJar;
use crate::jar::CookieJar;
use crate::jar_error::JarError;
use crate::secure::key::Key;
use crate::secure::reading::read;
use crate::secure::sealer::Sealer;
use cookie_core::Cookie;
use jiff::civil::DateTime;
use rand_core::TryRng;
use std::marker::Model;

/// A jar, seen through a key that encrypts. Contracts see it as that jar and the key's second half.
#[derive(Drop)]
pub struct PrivateJar<'a> {
    jar: &'a CookieJar,
    sealer: Sealer,
}

impl<'a> Model for PrivateJar<'a> {
    ghost use Rattle.cookie.specs.KeyedJars.{KeyedJar, keyed_code};

    ghost Value = { KeyedJar };

    ghost coded = { keyed_code };

    ghost view = { λ a. record { jar = a.jar.now; key = a.sealer } };
}

/// A jar, seen and changed through a key that encrypts.
pub type PrivateJarMut<'a> = ChildJar<'a, Sealer>;

impl CookieJar {
    /// Views the jar through a key that encrypts, to look cookies up. It doesn't allocate. The key must be random.
    /// Example: `user_of` in crates/cookie_examples/src/session.rt.
    pub fn private<'a>(&'a self, key: &Key) -> PrivateJar<'a>
        ensures { result ≡ record { jar = self.now; key = encryption_half key.now } }
    {
        PrivateJar {
            jar: self,
            sealer: key.sealer().copy(),
        }
    }

    /// Views the jar through a key that encrypts, to look cookies up and to change it. It doesn't allocate. The key
    /// must be random.
    /// Example: `sign_in` in crates/cookie_examples/src/session.rt.
    pub fn private_mut<'a>(&'a mut self, key: &Key) -> PrivateJarMut<'a>
        ensures same { Changes result self.entry }
        ensures value { jar_of result ≡ self.old }
        ensures key { key_of result ≡ encryption_half key.now }
    {
        ChildJar {
            jar: self,
            storing: key.sealer().copy(),
        }
    }
}

impl<'a> PrivateJar<'a> {
    /// Returns a copy of the cookie that the jar shows under `name`, with the value that was sealed. Returns `None` if
    /// there is no such cookie, or its value isn't sealed under the key and the name.
    ///
    /// Fails only with `JarError::OutOfMemory`.
    /// Example: `user_of` in crates/cookie_examples/src/session.rt.
    pub fn get(&self, name: &str) -> Result<Option<Cookie<'static>>, JarError>
        ensures answers { Gives refusal.OutOfMemory result (λ answer.
            AnswersExactly (IsSealingOf self.now.key) (view self.now.jar name.now)
            (option_map (λ c. c.fields) answer)) }

        // The value is an owned string.
        ensures raw { Gives refusal.OutOfMemory result (λ answer.
            IfSome answer (λ c. c.raw.value ≡ None)) }
    {
        Ok(self.jar.get_read(&self.sealer, name)?)
    }

    /// Returns the cookie with the value that was sealed, or `None` if its value isn't sealed under the key and its
    /// name.
    ///
    /// Fails only with `JarError::OutOfMemory`.
    pub fn decrypt(&self, cookie: Cookie<'static>) -> Result<Option<Cookie<'static>>, JarError>
        ensures answers { Gives refusal.OutOfMemory result (λ answer.
            AnswersExactly (IsSealingOf self.now.key) (Some cookie.entry.fields)
            (option_map (λ c. c.fields) answer)) }

        // Of what the cookie borrows, only the value changes: it is an owned string.
        ensures raw { Gives refusal.OutOfMemory result (λ answer.
            IfSome answer (λ c. c.raw ≡ record cookie.entry.raw { value = None })) }
    {
        Ok(read(self.jar.allocator(), &self.sealer, cookie)?)
    }

    /// Returns the cookie with its value encrypted under the key and its name, as `PrivateJarMut::add` stores it. The
    /// jar isn't changed. The nonce is one draw of twelve bytes from `rng`. `rng` must be a cryptographic generator,
    /// and under one key at most 2^32 nonces may be drawn (SP 800-38D 8.3).
    ///
    /// Fails with `TooLong` if the name has more than 2^61 - 1 bytes or the value more than 2^36 - 32, and then draws
    /// nothing. Else fails with `Generator` if the draw failed, and with `OutOfMemory`.
    pub fn encrypt<R: TryRng>(
        &self,
        cookie: Cookie<'static>,
        rng: &mut R,
    ) -> Result<Cookie<'static>, JarError>
        ensures { IsDrawnCall (CanSeal cookie.entry.fields) (IsSealedAs self.now.key cookie.entry)
            (λ nonce. R.may_fill rng.old nonce rng.new) (rng.new ≡ rng.old) R.Error result }
    {
        self.sealer.encrypt(self.jar.allocator(), cookie, rng)
    }

    /// Returns the cookie with its value encrypted under the key, its name and the nonce. The jar isn't changed. No two
    /// values may be encrypted under one key and one nonce, and under one key at most 2^32 random nonces may be drawn
    /// (SP 800-38D 8.3).
    ///
    /// Fails with `TooLong` if the name has more than 2^61 - 1 bytes or the value more than 2^36 - 32, else only with
    /// `OutOfMemory`.
    pub fn encrypt_with_nonce(
        &self,
        cookie: Cookie<'static>,
        nonce: [u8; 12],
    ) -> Result<Cookie<'static>, JarError>
        ensures { IsNoncedCall (CanSeal cookie.entry.fields) (IsSealedAs self.now.key cookie.entry)
            nonce result }
    {
        self.sealer
            .encrypt_with_nonce(self.jar.allocator(), cookie, nonce)
    }
}

impl<'a> PrivateJarMut<'a> {
    /// Returns a copy of the cookie that the jar shows under `name`, with the value that was sealed. Returns `None` if
    /// there is no such cookie, or its value isn't sealed under the key and the name.
    ///
    /// Fails only with `JarError::OutOfMemory`.
    pub fn get(&self, name: &str) -> Result<Option<Cookie<'static>>, JarError>
        ensures answers { Gives refusal.OutOfMemory result (λ answer.
            AnswersExactly (IsSealingOf (key_of self.now)) (view (jar_of self.now) name.now)
            (option_map (λ c. c.fields) answer)) }

        // The value is an owned string.
        ensures raw { Gives refusal.OutOfMemory result (λ answer.
            IfSome answer (λ c. c.raw.value ≡ None)) }
    {
        Ok(self.jar.get_read(&self.storing, name)?)
    }

    /// Returns the cookie with the value that was sealed, or `None` if its value isn't sealed under the key and its
    /// name.
    ///
    /// Fails only with `JarError::OutOfMemory`.
    pub fn decrypt(&self, cookie: Cookie<'static>) -> Result<Option<Cookie<'static>>, JarError>
        ensures answers { Gives refusal.OutOfMemory result (λ answer.
            AnswersExactly (IsSealingOf (key_of self.now)) (Some cookie.entry.fields)
            (option_map (λ c. c.fields) answer)) }

        // Of what the cookie borrows, only the value changes: it is an owned string.
        ensures raw { Gives refusal.OutOfMemory result (λ answer.
            IfSome answer (λ c. c.raw ≡ record cookie.entry.raw { value = None })) }
    {
        Ok(read(self.jar.allocator(), &self.storing, cookie)?)
    }

    /// Adds an original cookie, with its value sealed under its name and a nonce. The nonce is one draw of twelve bytes
    /// from `rng`. `rng` must be a cryptographic generator, and under one key at most 2^32 nonces may be drawn (SP
    /// 800-38D 8.3).
    ///
    /// Fails with `TooLong` if the name has more than 2^61 - 1 bytes or the value more than 2^36 - 32, and then draws
    /// nothing. Else fails with `Generator` if the draw failed, and with `OutOfMemory`. The jar is then as it was.
    pub fn add_original<R: TryRng>(
        &mut self,
        cookie: Cookie<'static>,
        rng: &mut R,
    ) -> Result<(), JarError>
        ensures { IsDrawnAddition AddOriginal (λ nonce. R.may_fill rng.old nonce rng.new)
            (rng.new ≡ rng.old) R.Error cookie.entry.fields self.old self.new result }
    {
        let original = self.storing.encrypt(self.jar.allocator(), cookie, rng)?;
        self.jar.add_original(original)
    }

    /// Adds a cookie, with its value sealed under its name and a nonce. A `get` of its name then returns its name and
    /// value. The nonce is one draw of twelve bytes from `rng`. `rng` must be a cryptographic generator, and under one
    /// key at most 2^32 nonces may be drawn (SP 800-38D 8.3).
    ///
    /// Fails with `TooLong` if the name has more than 2^61 - 1 bytes or the value more than 2^36 - 32, and then draws
    /// nothing. Else fails with `Generator` if the draw failed, and with `OutOfMemory`. The jar is then as it was.
    /// Example: `sign_in` in crates/cookie_examples/src/session.rt.
    pub fn add<R: TryRng>(&mut self, cookie: Cookie<'static>, rng: &mut R) -> Result<(), JarError>
        ensures outcome { IsDrawnAddition Add (λ nonce. R.may_fill rng.old nonce rng.new)
            (rng.new ≡ rng.old) R.Error cookie.entry.fields self.old self.new result }

        // A look-up now returns the name and the value.
        ensures shown { IfOk result (λ _.
            AnswersPair (IsSealingOf (key_of self.new))
            (view (jar_of self.new) cookie.entry.fields.name) cookie.entry.fields) }
    {
        let added = self.storing.encrypt(self.jar.allocator(), cookie, rng)?;
        self.jar.add(added)
    }

    /// Adds an original cookie, with its value sealed under its name and the nonce. No two values may be sealed
    /// under one key and one nonce, and under one key at most 2^32 random nonces may be drawn (SP 800-38D 8.3).
    ///
    /// Fails with `TooLong` if the name has more than 2^61 - 1 bytes or the value more than 2^36 - 32, else only with
    /// `OutOfMemory`. The jar is then as it was.
    pub fn add_original_with_nonce(
        &mut self,
        cookie: Cookie<'static>,
        nonce: [u8; 12],
    ) -> Result<(), JarError>
        ensures { IsSealedAddition AddOriginal nonce cookie.entry.fields self.old self.new result }
    {
        let alloc = self.jar.allocator();
        let original = self.storing.encrypt_with_nonce(alloc, cookie, nonce)?;
        self.jar.add_original(original)
    }

    /// Adds a cookie, with its value sealed under its name and the nonce. A `get` of its name then returns its name and
    /// value. No two values may be sealed under one key and one nonce, and under one key at most 2^32 random nonces may
    /// be drawn (SP 800-38D 8.3).
    ///
    /// Fails with `TooLong` if the name has more than 2^61 - 1 bytes or the value more than 2^36 - 32, else only with
    /// `OutOfMemory`. The jar is then as it was.
    pub fn add_with_nonce(
        &mut self,
        cookie: Cookie<'static>,
        nonce: [u8; 12],
    ) -> Result<(), JarError>
        ensures outcome { IsSealedAddition Add nonce cookie.entry.fields self.old self.new result }

        // A look-up now returns the name and the value.
        ensures shown { IfOk result (λ _.
            AnswersPair (IsSealingOf (key_of self.new))
            (view (jar_of self.new) cookie.entry.fields.name) cookie.entry.fields) }
    {
        let alloc = self.jar.allocator();
        let added = self.storing.encrypt_with_nonce(alloc, cookie, nonce)?;
        self.jar.add(added)
    }

    /// Removes the cookie of that name, at the date and time `now` in UTC. If there is an original of that name, the
    /// delta gets a cookie that tells the client to drop it, with this cookie's path and domain.
    ///
    /// Fails only with `JarError::OutOfMemory`, and only if there is such an original. It then leaves the jar as it
    /// was.
    pub fn remove(&mut self, cookie: Cookie<'static>, now: DateTime) -> Result<(), JarError>
        ensures gives { Gives refusal.OutOfMemory result (λ _.
            jar_of self.new ≡ after (Remove cookie.entry.fields now) (jar_of self.old)) }
        ensures err { OnErr result (jar_of self.new ≡ jar_of self.old) }
        ensures certain { get (jar_of self.old).originals cookie.entry.fields.name ≡ None
            → IsOk result }
        ensures same { ChangesSame self.new self.old }
    {
        self.jar.remove(cookie, now)
    }
}
