//! A text that may be sealed for a purpose.
ghost use Rattle.std.specs.Prelude.{◌≡◌, ◌↔◌, ℕ, List, Some, IfOk, IfSome, option_map};
ghost use Rattle.base64.specs.Engines.{url_safe_no_pad};
ghost use Rattle.base64.specs.GeneralPurpose.{encode_of};
ghost use Rattle.cookie_crypt.specs.Bytes.{IsBytes};
ghost use Rattle.cookie.specs.Opening.{DecodesTo};

use base64::DecodeAllocError;
use base64::engine::general_purpose::URL_SAFE_NO_PAD;
use std::alloc::{AllocError, Global};
use std::marker::Model;

/// A text that may be sealed for a purpose, decoded from base64url without padding once (RFC 4648 5), so that it can be
/// opened under each of several keys. Contracts see the text.
#[derive(Drop)]
pub struct SealedUrlText<'t> {
    text: &'t str,
    bytes: Option<Vec<u8>>,
}

impl<'t> Model for SealedUrlText<'t> {
    ghost use Rattle.std.specs.Prelude.{List, ℕ};
    ghost use Rattle.std.specs.Option.{option_map};
    ghost use Rattle.base64.specs.Engines.{url_safe_no_pad};
    ghost use Rattle.cookie.specs.Opening.{DecodesTo};

    ghost Value = { List ℕ };

    ghost view = { λ s. s.text.now };

    ghost invariant = { λ s.
        DecodesTo url_safe_no_pad s.text.now (option_map (λ b. b.items) s.bytes) };
}

impl<'t> SealedUrlText<'t> {
    /// Decodes a text, which may be any. Fails only if out of memory.
    pub fn of(alloc: Global, text: &'t str) -> Result<SealedUrlText<'t>, AllocError>
        ensures { IfOk result (λ sealed. sealed ≡ text.now) }
    {
        let bytes = match URL_SAFE_NO_PAD.decode(alloc, text.as_bytes()) {
            Ok(bytes) => Some(bytes),
            Err(DecodeAllocError::DecodeError(_)) => None,
            Err(DecodeAllocError::OutOfMemory) => return Err(AllocError),
        };
        Ok(SealedUrlText { text, bytes })
    }

    // The bytes whose base64url without padding is the text, or `None` if there are none.
    pub(crate) fn bytes(&self) -> Option<&[u8]>
        ensures { DecodesTo url_safe_no_pad self.now (option_map (λ b. b.now) result) }
    {
        match &self.bytes {
            Some(bytes) => Some(bytes.as_slice()),
            None => None,
        }
    }
}
