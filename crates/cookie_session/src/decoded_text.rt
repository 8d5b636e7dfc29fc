//! A text that may be sealed, decoded once for all keys of a ring.
ghost use Rattle.std.specs.Prelude.{◌≡◌, ◌↔◌, ℕ, List, Some, IfOk, alloc_error, option_map, string_bytes};
ghost use Rattle.std.specs.Option.{option_copied};
ghost use Rattle.cookie.specs.Memory.{Gives};
ghost use Rattle.cookie_session.specs.KeyRing.{IsSealedUnder};
ghost use Rattle.cookie_session.specs.OpenedText.{purpose_of, text_of};

use cookie::{SealedText, SealedUrlText, Sealer};
use std::alloc::{AllocError, Global};

// A text that may be sealed, decoded once for all keys of a ring.
#[derive(Drop)]
pub(crate) enum DecodedText<'t> {
    // Under a name, as in a private jar.
    Named(SealedText<'t>),
    // For a purpose too.
    For(&'t str, SealedUrlText<'t>),
}

impl<'t> DecodedText<'t> {
    // Decodes a text, which may be any.
    pub(crate) fn of(
        alloc: Global,
        purpose: Option<&'t str>,
        text: &'t str,
    ) -> Result<DecodedText<'t>, AllocError>
        ensures purpose { IfOk result (λ sealed. purpose_of sealed ≡ option_copied purpose.entry) }
        ensures text { IfOk result (λ sealed. text_of sealed ≡ text.now) }
    {
        Ok(match purpose {
            Some(purpose) => DecodedText::For(purpose, SealedUrlText::of(alloc, text)?),
            None => DecodedText::Named(SealedText::of(alloc, text)?),
        })
    }

    // The value that is sealed in the text under the key and the name, and for the purpose if there is one.
    pub(crate) fn open(
        &self,
        alloc: Global,
        sealer: &Sealer,
        name: &str,
    ) -> Result<Option<String>, AllocError>
        ensures { Gives alloc_error result (λ answer. (v : List ℕ)
            → (option_map string_bytes answer ≡ Some v)
            ↔ IsSealedUnder (purpose_of self.now) sealer.now name.now (text_of self.now) v) }
    {
        match self {
            DecodedText::Named(text) => sealer.open_decoded(alloc, name, text),
            DecodedText::For(purpose, text) => sealer.open_decoded_for(alloc, purpose, name, text),
        }
    }
}
