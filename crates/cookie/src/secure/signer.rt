//! What signs values with HMAC-SHA256 (RFC 2104).
ghost use Rattle.std.specs.Prelude.{◌≡◌, ◌↔◌, List, ℕ, Some, ⊤, alloc_error, string_bytes};
ghost use Rattle.std.specs.Option.{option_copied};
ghost use Rattle.cookie_core.specs.Memory.{Gives};
ghost use Rattle.cookie.specs.AnswersExactly.{AnswersPair};
ghost use Rattle.cookie.specs.Jar.{view};
ghost use Rattle.cookie.specs.Signing.{CoversOnePair, IsSigned, IsSigningOf, signature, signed_cookie, signing};

use crate::child::Storing;
use crate::secure::reading::Reading;
use base64::engine::general_purpose::STANDARD;
use cookie_core::Cookie;
use cookie_crypt::{Mac, are_equal};
use std::alloc::{AllocError, Global};
use std::marker::Model;

const SIGNATURE_LENGTH: usize = 44;

/// The half of a key that signs, of `Key::signer`. It makes the text that a signed jar stores for a name and a value,
/// and reads it again. Contracts see the list of its bytes.
///
/// A signature covers the name, so that a signed value can't be moved to another name. It hides nothing.
///
/// ```
/// let text = key.signer().sign(alloc, "user", "ann")?;
/// let user = key.signer().verify("user", &text);       // Some("ann")
/// ```
#[derive(Drop)]
pub struct Signer {
    mac: Mac,
}

impl Model for Signer {
    ghost use Rattle.std.specs.Prelude.{List, ℕ};

    ghost Value = { List ℕ };

    ghost view = { λ a. a.mac };
}

impl Signer {
    // What signs under this half of a key.
    pub(crate) fn of(half: &[u8; 32]) -> Signer
        ensures { result ≡ half.now }
    {
        Signer {
            mac: Mac::new(half),
        }
    }

    // It doesn't allocate.
    pub(crate) fn copy(&self) -> Signer
        ensures { result ≡ self.now }
    {
        let Ok(mac) = self.mac.clone() else {
            unreachable!();
        };
        Signer { mac }
    }

    /// Returns the signature of the value under the key and the name, 44 characters, and then the value. Fails only
    /// if out of memory.
    pub fn sign(&self, alloc: Global, name: &str, value: &str) -> Result<String, AllocError>
        ensures { Gives alloc_error result (λ text.
            string_bytes text ≡ signing self.now name.now value.now) }
    {
        let signature = self.signature(name, value);
        let Ok(signature) = str::from_utf8(&signature) else {
            unreachable!();
        };
        let mut text = String::from_str(alloc, signature)?;
        text.push_str(value)?;
        Ok(text)
    }

    /// Returns the value that was signed, or `None` if the text isn't signed under the key and the name. The signatures
    /// are compared to their last byte, wherever they differ.
    pub fn verify<'t>(&self, name: &str, text: &'t str) -> Option<&'t str>
        ensures exact { (v : List ℕ)
            → (option_copied result ≡ Some v) ↔ IsSigned self.now name.now text.now v }

        // What a signature covers says where the name ends and the value begins.
        ensures one_pair { CoversOnePair }
    {
        let Some((front, value)) = text.split_at_checked(SIGNATURE_LENGTH) else {
            return None;
        };
        if are_equal(front.as_bytes(), &self.signature(name, value)) {
            Some(value)
        } else {
            None
        }
    }

    // The signature of a value, for a cookie of that name: of the length of the name, the name and the value.
    fn signature(&self, name: &str, value: &str) -> [u8; 44]
        ensures { result ≡ signature self.now name.now value.now }
    {
        let length = (name.len() as u64).to_be_bytes();
        let digest = self.mac.code(&[&length, name.as_bytes(), value.as_bytes()]);
        let mut text = [0; SIGNATURE_LENGTH];
        let _ = STANDARD.encode_slice(&digest, &mut text);
        text
    }
}

impl Storing for Signer {
    ghost stored = { signed_cookie };

    ghost dropped = { λ _ cookie. cookie };

    ghost DropsFreely = { ⊤ };

    ghost ShowsPair = { λ key jar cookie.
        AnswersPair (IsSigningOf key) (view jar cookie.name) cookie };

    fn to_add(
        &self,
        alloc: Global,
        mut cookie: Cookie<'static>,
    ) -> Result<Cookie<'static>, AllocError> {
        let value = self.sign(alloc, cookie.name(), cookie.value())?;
        cookie.set_value_owned(value);
        Ok(cookie)
    }

    fn to_remove(
        &self,
        _alloc: Global,
        cookie: Cookie<'static>,
    ) -> Result<Cookie<'static>, AllocError> {
        Ok(cookie)
    }
}

impl Reading for Signer {
    ghost StandsFor = { IsSigned };

    fn value_of(
        &self,
        alloc: Global,
        name: &str,
        text: &str,
    ) -> Result<Option<String>, AllocError> {
        match self.verify(name, text) {
            Some(value) => Ok(Some(String::from_str(alloc, value)?)),
            None => Ok(None),
        }
    }
}
