//! The keys of a site.
ghost use Rattle.std.specs.Prelude.{◌≡◌, ◌≢◌, ◌↔◌, ◌<◌, ◌++◌, [], ◌∷◌, ℕ, List, None, Some, Err, IfNone, IfOk, IfSome, OnErr, OnOk, alloc_error, length, option_map, slice_get, string_bytes};
ghost use Rattle.std.specs.Option.{option_copied};
ghost use Rattle.cookie.specs.Jar.{Add, after, view};
ghost use Rattle.cookie.specs.Keys.{encryption_half};
ghost use Rattle.cookie.specs.Memory.{Gives};
ghost use Rattle.cookie.specs.Sealing.{CanSeal, IsNonce, sealed_cookie};
ghost use Rattle.cookie.specs.declared.jar_error.JarError.TheVariants as refusal;
ghost use Rattle.cookie_session.specs.KeyRing.{IsSignedBy, KeepsOpening, LeavesOpening, OpensExactly, OpensNewest, OpensTextAt, newest};
ghost use Rattle.cookie_session.specs.OpenedText.{purpose_of, text_of, text_opened_at};

use crate::decoded_text::DecodedText;
use crate::opened_text::OpenedText;
use crate::opening::Opening;
use cookie::{Cookie, CookieJar, JarError, Key};
use rand_core::TryRng;
use std::alloc::{AllocError, Global};
use std::marker::Model;

/// The keys of a site, the newest first. The newest encrypts, and each of them decrypts. Contracts see the list of
/// keys.
///
/// ```
/// let mut keys = KeyRing::new(alloc, old)?;
/// keys.rotate(new)?;       // `new` encrypts from now on, and `old` still decrypts
/// keys.retire();           // `old` is gone
/// ```
#[derive(Drop)]
pub struct KeyRing {
    keys: Vec<Key>,
}

impl Model for KeyRing {
    ghost use Rattle.std.specs.Prelude.{◌<◌, List, length, ℕ};

    ghost Value = { List (List ℕ) };

    ghost view = { λ r. r.keys.items };

    // There is a newest key.
    ghost invariant = { λ r. 0 < length r.keys.items };
}

impl KeyRing {
    /// A ring with one key. Fails only if out of memory.
    pub fn new(alloc: Global, key: Key) -> Result<KeyRing, AllocError>
        ensures { IfOk result (λ ring. ring ≡ key ∷ []) }
    {
        let mut keys = Vec::new(alloc);
        keys.push(key)?;
        Ok(KeyRing { keys })
    }

    /// A ring of these keys, the newest first, or `None` if there are none. It doesn't allocate.
    ///
    /// ```
    /// let keys = KeyRing::from_keys(keys).context("no key")?;
    /// ```
    pub fn from_keys(keys: Vec<Key>) -> Option<KeyRing>
        ensures some { keys.items ≢ [] → result ≡ Some keys.items }
        ensures none { keys.items ≡ [] → result ≡ None }
    {
        if keys.is_empty() {
            return None;
        }
        Some(KeyRing { keys })
    }

    /// Puts a new key in front. It encrypts from now on, and the others still decrypt.
    ///
    /// Fails only if out of memory, and then leaves the ring as it was.
    pub fn rotate(&mut self, key: Key) -> Result<(), AllocError>
        ensures ok { OnOk result (self.new ≡ key ∷ self.old) }
        ensures err { OnErr result (self.new ≡ self.old) }

        // What a key opened, it opens one place further back, unless the new key opens it too.
        ensures keeps { OnOk result (KeepsOpening self.old self.new) }
    {
        self.keys.insert(0, key)?;
        Ok(())
    }

    /// Puts a key at the end. It decrypts, and the newest key still encrypts. So a list of keys is read in order, the
    /// newest first: `new` takes the first, and `add_older` each of the others.
    ///
    /// Fails only if out of memory, and then leaves the ring as it was.
    pub fn add_older(&mut self, key: Key) -> Result<(), AllocError>
        ensures ok { OnOk result (self.new ≡ self.old ++ key ∷ []) }
        ensures err { OnErr result (self.new ≡ self.old) }

        // Each earlier key opens exactly what it opened, at the same place.
        ensures keeps { OnOk result (LeavesOpening self.new self.old) }
    {
        self.keys.push(key)?;
        Ok(())
    }

    /// Drops the oldest key and returns it, unless it is the only one. What only that key opened isn't opened any more.
    pub fn retire(&mut self) -> Option<Key>
        ensures some { IfSome result (λ key. self.old ≡ self.new ++ key ∷ []) }
        ensures none { IfNone result ((self.new ≡ self.old) × (length self.old ≡ 1)) }

        // What another key opened is still opened, and nothing else is.
        ensures leaves { IfSome result (λ key. LeavesOpening self.old self.new) }
    {
        if self.keys.len() < 2 {
            return None;
        }
        self.keys.pop()
    }

    /// The number of keys.
    pub fn len(&self) -> usize
        ensures value { result ≡ length self.now }
        ensures some { 0 < result }
    {
        self.keys.len()
    }

    /// The newest key.
    pub fn newest(&self) -> &Key
        ensures value { result.now ≡ newest self.now }
        ensures some { 0 < length self.now }
    {
        &self.keys[0]
    }

    /// Returns a copy of the cookie that `jar` has under `name`, with the value that was encrypted, and the place of
    /// the key that opened it: the newest that does. Returns `None` if no key opens it.
    ///
    /// Fails only if out of memory.
    pub fn get(&self, jar: &CookieJar, name: &str) -> Result<Option<Opening>, AllocError>
        ensures { Gives alloc_error result (λ answer.
            OpensExactly None self.now (view jar.now name.now) answer) }
    {
        match jar.get(name) {
            Some(cookie) => self.open(cookie),
            None => Ok(None),
        }
    }

    // A copy of the cookie, opened by the newest key that opens it.
    fn open(&self, cookie: &Cookie<'static>) -> Result<Option<Opening>, AllocError>
        ensures { Gives alloc_error result (λ answer.
            OpensExactly None self.now (Some cookie.now.fields) answer) }
    {
        let alloc = *self.keys.allocator();
        let Some(opened) = self.open_text(None, cookie.name(), cookie.value())? else {
            return Ok(None);
        };
        let mut cookie = cookie.clone(alloc)?;
        cookie.set_value_owned(opened.value);
        Ok(Some(Opening {
            cookie,
            place: opened.place,
        }))
    }

    /// Returns the value that is sealed in the text under the name, and the place of the key that opened it: the newest
    /// that does. The text is sealed as by `Sealer::seal`, or for the purpose, if there is one, as by `Sealer::seal_for`.
    /// Returns `None` if no key opens it.
    ///
    /// Fails only if out of memory.
    pub fn open_text(
        &self,
        purpose: Option<&str>,
        name: &str,
        text: &str,
    ) -> Result<Option<OpenedText>, AllocError>
        ensures { Gives alloc_error result (λ answer. (place : ℕ) (value : List ℕ)
            → (option_map text_opened_at answer ≡ Some (place, value))
            ↔ OpensTextAt (option_copied purpose.entry) self.now place name.now text.now value) }
    {
        let sealed = DecodedText::of(*self.keys.allocator(), purpose, text)?;
        self.open_decoded(&sealed, name)
    }

    // The same of a text that was decoded.
    fn open_decoded(
        &self,
        sealed: &DecodedText<'_>,
        name: &str,
    ) -> Result<Option<OpenedText>, AllocError>
        ensures { Gives alloc_error result (λ answer. (place : ℕ) (value : List ℕ)
            → (option_map text_opened_at answer ≡ Some (place, value))
            ↔ OpensTextAt (purpose_of sealed.now) self.now place name.now
            (text_of sealed.now) value) }
    {
        let alloc = *self.keys.allocator();
        for place in 0..self.len() {
            if let Some(value) = sealed.open(alloc, self.at(place).sealer(), name)? {
                return Ok(Some(OpenedText { value, place }));
            }
        }
        Ok(None)
    }

    /// Adds a cookie to the jar, with its value encrypted under the newest key and its name. `get` finds it as long as
    /// the ring has this key. The nonce is one draw of twelve bytes from `rng`. `rng` must be a cryptographic
    /// generator, and under one key at most 2^32 nonces may be drawn (SP 800-38D 8.3).
    ///
    /// Fails with `TooLong` if the name has more than 2^61 - 1 bytes or the value more than 2^36 - 32, and then draws
    /// nothing. Else fails with `Generator` if the draw failed, and with `OutOfMemory`. The jar is then as it was.
    pub fn add<R: TryRng>(
        &self,
        jar: &mut CookieJar,
        cookie: Cookie<'static>,
        rng: &mut R,
    ) -> Result<(), JarError>
        ensures ok { OnOk result ((nonce : List ℕ) × IsNonce nonce
            × R.may_fill rng.old nonce rng.new
            × (jar.new ≡ after (Add (sealed_cookie (encryption_half (newest self.now)) nonce
            cookie.entry.fields)) jar.old)) }

        // The newest key opens it in each request with this name and value.
        ensures opens { OnOk result (OpensNewest self.now (view jar.new cookie.entry.fields.name)
            cookie.entry.fields.value) }

        // What is refused, and why. Out of memory comes only after the draw.
        ensures too_long { (¬ (CanSeal cookie.entry.fields)) ↔ (result ≡ Err refusal.TooLong) }
        ensures within { OnOk result (CanSeal cookie.entry.fields) }
        ensures undrawn { ¬ (CanSeal cookie.entry.fields) → rng.new ≡ rng.old }
        ensures failed { result ≡ Err refusal.Generator → R.Error }
        ensures drawn { result ≡ Err refusal.OutOfMemory
            → (nonce : List ℕ) × IsNonce nonce × R.may_fill rng.old nonce rng.new }

        // After any refusal the jar is as it was.
        ensures err { OnErr result (jar.new ≡ jar.old) }
    {
        let alloc = *self.keys.allocator();
        let sealed = self.newest().sealer().encrypt(alloc, cookie, rng)?;
        jar.add(sealed)?;
        Ok(())
    }

    /// The value that a key of the ring signed under this name, if the text is such a value as a signed jar stores it
    /// (RFC 2104). It doesn't allocate.
    pub fn verify_text<'t>(&self, name: &str, text: &'t str) -> Option<&'t str>
        ensures some { IfSome result (λ value.
            IsSignedBy self.now name.now text.now value.now) }
        ensures none { result ≡ None
            → (value : List ℕ) → ¬ IsSignedBy self.now name.now text.now value }
    {
        for place in 0..self.len() {
            if let Some(value) = self.at(place).signer().verify(name, text) {
                return Some(value);
            }
        }
        None
    }

    // The key at a place: 0 is the newest.
    fn at(&self, place: usize) -> &Key
        requires { place < length self.now }
        ensures { slice_get self.now place ≡ Some result.now }
    {
        &self.keys[place]
    }
}
