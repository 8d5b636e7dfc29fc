//! What seals values with AES-256-GCM, and opens them (SP 800-38D 7, RFC 4648 4).
ghost use Rattle.std.specs.Prelude.{◌≡◌, ◌↔◌, ℕ, List, Some, Err, IfOk, OnOk, alloc_error, option_map, string_bytes};
ghost use Rattle.cookie_core.specs.Memory.{Gives};
ghost use Rattle.cookie.specs.Sealing.{CanSeal, IsSealable, IsSealed};
ghost use Rattle.cookie.specs.SealingCalls.{IsDrawnCall, IsNoncedCall, IsSealedAs, IsSealedText};
ghost use Rattle.cookie.specs.declared.jar_error.JarError.TheVariants as refusal;

use crate::jar_error::JarError;
use crate::secure::nonce::draw_nonce;
use crate::secure::reading::Reading;
use crate::secure::sealed_text::SealedText;
use crate::secure::sealing::{is_sealable, open_text, sealed_bytes};
use base64::engine::general_purpose::STANDARD;
use cookie_core::Cookie;
use cookie_crypt::PreparedGcm;
use rand_core::TryRng;
use std::alloc::{AllocError, Global};
use std::marker::Model;

/// The half of a key that encrypts, of `Key::sealer`. It makes the text that a private jar stores for a name and a
/// value, and opens it again. Contracts see the list of its bytes.
///
/// The text is the base64 of the nonce, the encrypted value and the tag. The tag covers the name, so that a sealed value
/// can't be moved to another name.
///
/// ```
/// let text = key.sealer().seal(alloc, "user", "ann", &mut rng)?;
/// let user = key.sealer().open(alloc, "user", &text)?; // Some("ann")
/// ```
#[derive(Drop)]
pub struct Sealer {
    pub(super) cipher: PreparedGcm,
}

impl Model for Sealer {
    ghost use Rattle.std.specs.Prelude.{List, ℕ};
    ghost use Rattle.cookie_crypt.specs.Gcm.{SealsToBytes};

    ghost Value = { List ℕ };

    ghost view = { λ a. a.cipher };

    ghost invariant = { λ a. SealsToBytes a.cipher };
}

impl Sealer {
    // What seals under this half of a key.
    pub(crate) fn of(half: &[u8; 32]) -> Sealer
        ensures { result ≡ half.now }
    {
        Sealer {
            cipher: PreparedGcm::new(half),
        }
    }

    // It doesn't allocate.
    pub(crate) fn copy(&self) -> Sealer
        ensures { result ≡ self.now }
    {
        let Ok(cipher) = self.cipher.clone() else {
            unreachable!();
        };
        Sealer { cipher }
    }

    /// Returns the sealing of the value under the key, the name and a nonce. The nonce is one draw of twelve bytes from
    /// `rng`. `rng` must be a cryptographic generator, and under one key at most 2^32 nonces may be drawn (SP 800-38D
    /// 8.3).
    ///
    /// Fails with `TooLong` if the name has more than 2^61 - 1 bytes or the value more than 2^36 - 32, and then draws
    /// nothing. Else fails with `Generator` if the draw failed, and with `OutOfMemory`.
    pub fn seal<R: TryRng>(
        &self,
        alloc: Global,
        name: &str,
        value: &str,
        rng: &mut R,
    ) -> Result<String, JarError>
        ensures { IsDrawnCall (IsSealable name.now value.now)
            (λ nonce text. IsSealedText self.now name.now value.now nonce (string_bytes text))
            (λ nonce. R.may_fill rng.old nonce rng.new) (rng.new ≡ rng.old) R.Error result }
    {
        let nonce = nonce_for(name, value, rng)?;
        self.seal_with_nonce(alloc, name, value, nonce)
    }

    /// Returns the sealing of the value under the key, the name and the nonce. No two values may be sealed under one
    /// key and one nonce, and under one key at most 2^32 random nonces may be drawn (SP 800-38D 8.3).
    ///
    /// Fails with `TooLong` if the name has more than 2^61 - 1 bytes or the value more than 2^36 - 32, else only with
    /// `OutOfMemory`.
    pub fn seal_with_nonce(
        &self,
        alloc: Global,
        name: &str,
        value: &str,
        nonce: [u8; 12],
    ) -> Result<String, JarError>
        ensures { IsNoncedCall (IsSealable name.now value.now)
            (λ nonce text. IsSealedText self.now name.now value.now nonce (string_bytes text))
            nonce result }
    {
        if !is_sealable(name, value) {
            return Err(JarError::TooLong);
        }
        Ok(self.sealed_text(alloc, name, &nonce, value)?)
    }

    /// Returns the value that was sealed, or `None` if the text isn't sealed under the key and the name. Fails only if
    /// out of memory.
    pub fn open(&self, alloc: Global, name: &str, text: &str) -> Result<Option<String>, AllocError>
        ensures { Gives alloc_error result (λ answer. (v : List ℕ)
            → (option_map string_bytes answer ≡ Some v) ↔ IsSealed self.now name.now text.now v) }
    {
        let sealed = SealedText::of(alloc, text)?;
        self.open_decoded(alloc, name, &sealed)
    }

    /// Opens a text, as `open` does, that was decoded already: to try several keys, or several names.
    ///
    /// ```
    /// let sealed = SealedText::of(alloc, text)?;
    /// for key in keys {
    ///     if let Some(value) = key.sealer().open_decoded(alloc, "user", &sealed)? {
    ///         return Ok(Some(value));
    ///     }
    /// }
    /// ```
    pub fn open_decoded(
        &self,
        alloc: Global,
        name: &str,
        text: &SealedText<'_>,
    ) -> Result<Option<String>, AllocError>
        ensures { Gives alloc_error result (λ answer. (v : List ℕ)
            → (option_map string_bytes answer ≡ Some v) ↔ IsSealed self.now name.now text.now v) }
    {
        match text.bytes() {
            Some(bytes) => open_text(alloc, &self.cipher, name.as_bytes(), bytes),
            None => Ok(None),
        }
    }

    // The base64 of the nonce, the encrypted value and the tag.
    fn sealed_text(
        &self,
        alloc: Global,
        name: &str,
        nonce: &[u8; 12],
        value: &str,
    ) -> Result<String, AllocError>
        requires { IsSealable name.now value.now }
        ensures { IfOk result (λ text.
            IsSealedText self.now name.now value.now nonce.now (string_bytes text)) }
    {
        let bytes = sealed_bytes(alloc, &self.cipher, name.as_bytes(), nonce, value)?;
        STANDARD.encode(alloc, bytes.as_slice())
    }

    /// Returns the cookie with its value sealed, as by `seal`, under its name. It is what a private jar of the key
    /// stores.
    ///
    /// Fails with `TooLong` if the name has more than 2^61 - 1 bytes or the value more than 2^36 - 32, and then draws
    /// nothing. Else fails with `Generator` if the draw failed, and with `OutOfMemory`.
    pub fn encrypt<R: TryRng>(
        &self,
        alloc: Global,
        mut cookie: Cookie<'static>,
        rng: &mut R,
    ) -> Result<Cookie<'static>, JarError>
        ensures { IsDrawnCall (CanSeal cookie.entry.fields) (IsSealedAs self.now cookie.entry)
            (λ nonce. R.may_fill rng.old nonce rng.new) (rng.new ≡ rng.old) R.Error result }
    {
        let value = self.seal(alloc, cookie.name(), cookie.value(), rng)?;
        cookie.set_value_owned(value);
        Ok(cookie)
    }

    /// Returns the cookie with its value sealed, as by `seal_with_nonce`, under its name.
    ///
    /// Fails with `TooLong` if the name has more than 2^61 - 1 bytes or the value more than 2^36 - 32, else only with
    /// `OutOfMemory`.
    pub fn encrypt_with_nonce(
        &self,
        alloc: Global,
        mut cookie: Cookie<'static>,
        nonce: [u8; 12],
    ) -> Result<Cookie<'static>, JarError>
        ensures { IsNoncedCall (CanSeal cookie.entry.fields) (IsSealedAs self.now cookie.entry)
            nonce result }
    {
        let value = self.seal_with_nonce(alloc, cookie.name(), cookie.value(), nonce)?;
        cookie.set_value_owned(value);
        Ok(cookie)
    }
}

impl Reading for Sealer {
    ghost StandsFor = { IsSealed };

    fn value_of(
        &self,
        alloc: Global,
        name: &str,
        text: &str,
    ) -> Result<Option<String>, AllocError> {
        self.open(alloc, name, text)
    }
}

// Twelve bytes from one draw, to seal the value with.
fn nonce_for<R: TryRng>(name: &str, value: &str, rng: &mut R) -> Result<[u8; 12], JarError>
    ensures drawn { IfOk result (λ nonce. R.may_fill rng.old nonce rng.new) }
    ensures within { OnOk result (IsSealable name.now value.now) }
    ensures too_long { (¬ IsSealable name.now value.now) ↔ (result ≡ Err refusal.TooLong) }
    ensures undrawn { ¬ IsSealable name.now value.now → rng.new ≡ rng.old }
    ensures no_memory { ¬ (result ≡ Err refusal.OutOfMemory) }
    ensures failed { result ≡ Err refusal.Generator → R.Error }
{
    if !is_sealable(name, value) {
        return Err(JarError::TooLong);
    }
    draw_nonce(rng)
}
