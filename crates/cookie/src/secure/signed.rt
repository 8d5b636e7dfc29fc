//! Child jars whose cookies have signed values.
ghost use Rattle.std.specs.Prelude.{◌≡◌, None, Some, IfSome, option_map};
ghost use Rattle.cookie_core.specs.Memory.{Gives};
ghost use Rattle.cookie.specs.AnswersExactly.{AnswersExactly};
ghost use Rattle.cookie.specs.Jar.{view};
ghost use Rattle.cookie.specs.Keys.{signing_half};
ghost use Rattle.cookie.specs.ChildJars.{Changes, jar_of, key_of};
ghost use Rattle.cookie.specs.Signing.{CoversOnePair, IsSigningOf};
ghost use Rattle.cookie.specs.declared.jar_error.JarError.TheVariants as refusal;

use crate::child::ChildJar;
use crate::jar::CookieJar;
use crate::jar_error::JarError;
use crate::secure::key::Key;
use crate::secure::reading::read;
use crate::secure::signer::Signer;
use cookie_core::Cookie;
use std::marker::Model;

/// A jar, seen through a key that signs. Contracts see it as that jar and the key's first half.
///
/// A signature covers the name of the cookie, so that a signed value can't be moved to another name. It hides
/// nothing: the client can read the value.
#[derive(Drop)]
pub struct SignedJar<'a> {
    jar: &'a CookieJar,
    signer: Signer,
}

impl<'a> Model for SignedJar<'a> {
    ghost use Rattle.cookie.specs.KeyedJars.{KeyedJar, keyed_code};

    ghost Value = { KeyedJar };

    ghost coded = { keyed_code };

    ghost view = { λ a. record { jar = a.jar.now; key = a.signer } };
}

/// A jar, seen and changed through a key that signs.
pub type SignedJarMut<'a> = ChildJar<'a, Signer>;

impl CookieJar {
    /// Views the jar through a key that signs, to look cookies up. It doesn't allocate. The key must be random.
    pub fn signed<'a>(&'a self, key: &Key) -> SignedJar<'a>
        ensures { result ≡ record { jar = self.now; key = signing_half key.now } }
    {
        SignedJar {
            jar: self,
            signer: key.signer().copy(),
        }
    }

    /// Views the jar through a key that signs, to look cookies up and to change it. It doesn't allocate. The key must
    /// be random.
    pub fn signed_mut<'a>(&'a mut self, key: &Key) -> SignedJarMut<'a>
        ensures same { Changes result self.entry }
        ensures value { jar_of result ≡ self.old }
        ensures key { key_of result ≡ signing_half key.now }
    {
        ChildJar {
            jar: self,
            storing: key.signer().copy(),
        }
    }
}

impl<'a> SignedJar<'a> {
    /// Returns a copy of the cookie that the jar shows under `name`, with the value that was signed. Returns `None` if
    /// there is no such cookie, or its value isn't signed under the key and the name.
    ///
    /// Fails only with `JarError::OutOfMemory`.
    pub fn get(&self, name: &str) -> Result<Option<Cookie<'static>>, JarError>
        ensures answers { Gives refusal.OutOfMemory result (λ answer.
            AnswersExactly (IsSigningOf self.now.key) (view self.now.jar name.now)
            (option_map (λ c. c.fields) answer)) }

        // The value is an owned string.
        ensures raw { Gives refusal.OutOfMemory result (λ answer.
            IfSome answer (λ c. c.raw.value ≡ None)) }
    {
        Ok(self.jar.get_read(&self.signer, name)?)
    }

    /// Returns the cookie with the value that was signed, or `None` if its value isn't signed under the key and its
    /// name.
    ///
    /// Fails only with `JarError::OutOfMemory`.
    pub fn verify(&self, cookie: Cookie<'static>) -> Result<Option<Cookie<'static>>, JarError>
        ensures answers { Gives refusal.OutOfMemory result (λ answer.
            AnswersExactly (IsSigningOf self.now.key) (Some cookie.entry.fields)
            (option_map (λ c. c.fields) answer)) }

        // Of what the cookie borrows, only the value changes: it is an owned string.
        ensures raw { Gives refusal.OutOfMemory result (λ answer.
            IfSome answer (λ c. c.raw ≡ record cookie.entry.raw { value = None })) }

        // What a signature covers says where the name ends and the value begins.
        ensures one_pair { CoversOnePair }
    {
        Ok(read(self.jar.allocator(), &self.signer, cookie)?)
    }
}

impl<'a> SignedJarMut<'a> {
    /// Returns a copy of the cookie that the jar shows under `name`, with the value that was signed. Returns `None` if
    /// there is no such cookie, or its value isn't signed under the key and the name.
    ///
    /// Fails only with `JarError::OutOfMemory`.
    pub fn get(&self, name: &str) -> Result<Option<Cookie<'static>>, JarError>
        ensures answers { Gives refusal.OutOfMemory result (λ answer.
            AnswersExactly (IsSigningOf (key_of self.now)) (view (jar_of self.now) name.now)
            (option_map (λ c. c.fields) answer)) }

        // The value is an owned string.
        ensures raw { Gives refusal.OutOfMemory result (λ answer.
            IfSome answer (λ c. c.raw.value ≡ None)) }
    {
        Ok(self.jar.get_read(&self.storing, name)?)
    }

    /// Returns the cookie with the value that was signed, or `None` if its value isn't signed under the key and its
    /// name.
    ///
    /// Fails only with `JarError::OutOfMemory`.
    pub fn verify(&self, cookie: Cookie<'static>) -> Result<Option<Cookie<'static>>, JarError>
        ensures answers { Gives refusal.OutOfMemory result (λ answer.
            AnswersExactly (IsSigningOf (key_of self.now)) (Some cookie.entry.fields)
            (option_map (λ c. c.fields) answer)) }

        // Of what the cookie borrows, only the value changes: it is an owned string.
        ensures raw { Gives refusal.OutOfMemory result (λ answer.
            IfSome answer (λ c. c.raw ≡ record cookie.entry.raw { value = None })) }

        // What a signature covers says where the name ends and the value begins.
        ensures one_pair { CoversOnePair }
    {
        Ok(read(self.jar.allocator(), &self.storing, cookie)?)
    }
}
