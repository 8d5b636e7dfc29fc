//! What seals texts for a purpose, and opens them (SP 800-38D 7, RFC 4648 5).
ghost use Rattle.std.specs.Prelude.{◌≡◌, ◌↔◌, ℕ, List, Some, IfOk, IsTrue, alloc_error, option_map, string_bytes};
ghost use Rattle.cookie_core.specs.Memory.{Gives};
ghost use Rattle.cookie.specs.Purposes.{IsApart, IsSealableFor, IsSealedFor, IsTextFor, purpose_data};
ghost use Rattle.cookie.specs.SealingCalls.{IsDrawnCall};

use crate::jar_error::JarError;
use crate::secure::nonce::draw_nonce;
use crate::secure::sealed_url_text::SealedUrlText;
use crate::secure::sealer::Sealer;
use crate::secure::sealing::{open_text, sealed_bytes};
use base64::engine::general_purpose::URL_SAFE_NO_PAD;
use cookie_crypt::{LONGEST_DATA, LONGEST_TEXT};
use rand_core::TryRng;
use std::alloc::{AllocError, Global};

// The byte before the purpose and before the name. No text has it.
const MARK: u8 = 0xff;

impl Sealer {
    /// Returns the sealing of the value under the key, for a purpose and a name, as base64url without padding, which no
    /// cookie escapes. `open_for` opens it for this purpose and this name: no name is its associated data, and no other
    /// purpose or name has it. The nonce is one draw of twelve bytes from `rng`. `rng` must be a cryptographic generator,
    /// and under one key at most 2^32 nonces may be drawn (SP 800-38D 8.3).
    ///
    /// Fails with `TooLong` if the purpose and the name have together more than 2^61 - 3 bytes or the value more than
    /// 2^36 - 32, and then draws nothing. Else fails with `Generator` if the draw failed, and with `OutOfMemory`.
    ///
    /// ```
    /// let link = key.sealer().seal_for(alloc, "invitation", "", "ann", &mut rng)?;
    /// let guest = key.sealer().open_for(alloc, "invitation", "", &link)?; // Some("ann")
    /// ```
    pub fn seal_for<R: TryRng>(
        &self,
        alloc: Global,
        purpose: &str,
        name: &str,
        value: &str,
        rng: &mut R,
    ) -> Result<String, JarError>
        ensures outcome { IsDrawnCall (IsSealableFor purpose.now name.now value.now)
            (λ nonce text. IsTextFor self.now purpose.now name.now value.now nonce
            (string_bytes text))
            (λ nonce. R.may_fill rng.old nonce rng.new) (rng.new ≡ rng.old) R.Error result }

        // No name is its associated data, and no other purpose or name has it.
        ensures apart { IsApart purpose.now name.now }
    {
        if !is_sealable_for(purpose, name, value) {
            return Err(JarError::TooLong);
        }
        let nonce = draw_nonce(rng)?;
        Ok(self.text_for(alloc, purpose, name, &nonce, value)?)
    }

    /// Returns the value that was sealed, or `None` if the text isn't sealed under the key, for the purpose and the
    /// name. Fails only if out of memory.
    pub fn open_for(
        &self,
        alloc: Global,
        purpose: &str,
        name: &str,
        text: &str,
    ) -> Result<Option<String>, AllocError>
        ensures answers { Gives alloc_error result (λ answer. (v : List ℕ)
            → (option_map string_bytes answer ≡ Some v)
            ↔ IsSealedFor self.now purpose.now name.now text.now v) }

        // No name is its associated data, and no other purpose or name has it.
        ensures apart { IsApart purpose.now name.now }
    {
        let sealed = SealedUrlText::of(alloc, text)?;
        self.open_decoded_for(alloc, purpose, name, &sealed)
    }

    /// Opens a text, as `open_for` does, that was decoded already: to try several keys, purposes or names.
    ///
    /// ```
    /// let sealed = SealedUrlText::of(alloc, link)?;
    /// for key in keys {
    ///     if let Some(guest) = key.sealer().open_decoded_for(alloc, "invitation", "", &sealed)? {
    ///         return Ok(Some(guest));
    ///     }
    /// }
    /// ```
    pub fn open_decoded_for(
        &self,
        alloc: Global,
        purpose: &str,
        name: &str,
        text: &SealedUrlText<'_>,
    ) -> Result<Option<String>, AllocError>
        ensures answers { Gives alloc_error result (λ answer. (v : List ℕ)
            → (option_map string_bytes answer ≡ Some v)
            ↔ IsSealedFor self.now purpose.now name.now text.now v) }

        // No name is its associated data, and no other purpose or name has it.
        ensures apart { IsApart purpose.now name.now }
    {
        let cipher = &self.cipher;
        let Some(bytes) = text.bytes() else {
            return Ok(None);
        };
        let bound = purpose_data(alloc, purpose, name)?;
        open_text(alloc, cipher, bound.as_slice(), bytes)
    }

    // The base64url of the nonce, the encrypted value and the tag.
    fn text_for(
        &self,
        alloc: Global,
        purpose: &str,
        name: &str,
        nonce: &[u8; 12],
        value: &str,
    ) -> Result<String, AllocError>
        requires { IsSealableFor purpose.now name.now value.now }
        ensures { IfOk result (λ text.
            IsTextFor self.now purpose.now name.now value.now nonce.now (string_bytes text)) }
    {
        let bound = purpose_data(alloc, purpose, name)?;
        let bytes = sealed_bytes(alloc, &self.cipher, bound.as_slice(), nonce, value)?;
        URL_SAFE_NO_PAD.encode(alloc, bytes.as_slice())
    }
}

// Whether the associated data and the value are within the limits of the cipher.
fn is_sealable_for(purpose: &str, name: &str, value: &str) -> bool
    ensures { IsTrue result ↔ IsSealableFor purpose.now name.now value.now }
{
    purpose.len() <= LONGEST_DATA - 2
        && name.len() <= LONGEST_DATA - 2 - purpose.len()
        && value.len() <= LONGEST_TEXT
}

// The associated data for a purpose and a name.
fn purpose_data(alloc: Global, purpose: &str, name: &str) -> Result<Vec<u8>, AllocError>
    ensures { IfOk result (λ bound. bound.items ≡ purpose_data purpose.now name.now) }
{
    let mut bound = Vec::new(alloc);
    bound.push(MARK)?;
    bound.extend_from_slice(purpose.as_bytes())?;
    bound.push(MARK)?;
    bound.extend_from_slice(name.as_bytes())?;
    Ok(bound)
}
