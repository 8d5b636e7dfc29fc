//! AES-256-GCM under a key whose hash subkey is made once.
ghost use Rattle.std.specs.Prelude.{◌≡◌, ◌↔◌, ⊤, ℕ, List, length, IsSome, IfSome, IfNone, OnSome};
ghost use Rattle.std.specs.Bool.{OnTrue, OnFalse};
ghost use Rattle.cookie_crypt.specs.Gcm.{IsWithin, IsSealing, IsCountedSealing, SealsToBytes};
ghost use Rattle.cookie_crypt.specs.Steps.{with_blocks, no_steps, prepared_tag_steps, prepared_sealing_steps};

use crate::aes::Aes256;
use crate::multiples::Multiples;
use crate::sealing::{is_within, open, seal, subkey_multiples};
use crate::steps::Steps;
use std::alloc::AllocError;
use std::marker::Model;

/// AES-256-GCM under a key, for many texts. Contracts see the key. It keeps the multiples of the hash subkey H, which a
/// `Gcm` makes in each call: so it returns the same text and tag for one block less.
#[derive(Drop)]
pub struct PreparedGcm {
    cipher: Aes256,
    multiples: Multiples,
}

impl Model for PreparedGcm {
    ghost use Rattle.std.specs.Prelude.{◌≡◌, ℕ, List};
    ghost use Rattle.cookie_crypt.specs.Gcm.{hash_subkey};

    ghost Value = { List ℕ };

    ghost view = { λ g. g.cipher };

    ghost invariant = { λ g. g.multiples ≡ hash_subkey g.cipher };
}

impl PreparedGcm {
    /// AES-256-GCM under `key`, which must be random. It isn't wiped from memory.
    /// Example: `both_come_back` in crates/cookie_examples/src/sealing.rt.
    pub fn new(key: &[u8; 32]) -> PreparedGcm
        ensures value { result ≡ key.now }
        ensures bytes { SealsToBytes key.now }
    {
        let cipher = Aes256::new(key);
        let multiples = subkey_multiples(&cipher, &mut Steps::new());
        PreparedGcm { cipher, multiples }
    }

    /// Encrypts the text in place, and returns the tag of the text and of the associated data `aad` (SP 800-38D 7.1).
    /// No two texts may be sealed under one key and one nonce, and under one key at most 2^32 random nonces may be
    /// drawn (8.3).
    ///
    /// Returns `None` if the text has more than 2^36 - 32 bytes or the data more than 2^61 - 1. `steps` is set to what
    /// was done, whatever it held.
    /// Example: `is_back` in crates/cookie_examples/src/sealing.rt.
    pub fn seal_in_place(
        &self,
        nonce: &[u8; 12],
        aad: &[u8],
        text: &mut [u8],
        steps: &mut Steps,
    ) -> Option<[u8; 16]>
        ensures limits { IsSome result ↔ IsWithin (length aad.now) (length text.old) }
        ensures sealed { IfSome result (λ tag.
            IsSealing self.now nonce.now aad.now text.old text.new tag) }
        ensures counted { OnSome result (steps.new
            ≡ prepared_sealing_steps (length aad.now) (length text.old)) }
        ensures unchanged { IfNone result (text.new ≡ text.old) }
        ensures uncounted { IfNone result (steps.new ≡ no_steps) }

        // A `Gcm` under the key makes the same text and tag, with one block more.
        ensures one_block_less { IfSome result (λ tag. IsCountedSealing
            self.now nonce.now aad.now text.old text.new tag (with_blocks 1 steps.new)) }
    {
        let PreparedGcm { cipher, multiples } = self;
        *steps = Steps::new();
        if !is_within(aad, text) {
            return None;
        }
        Some(seal(cipher, multiples, nonce, aad, text, steps))
    }

    /// Decrypts the text in place and returns true if text and tag are a sealing (SP 800-38D 7.2). Else it returns
    /// false and leaves the text as it was. The tags are compared to their last byte, wherever they differ.
    ///
    /// `steps` is set to what was done, whatever it held.
    /// Example: `is_back` in crates/cookie_examples/src/sealing.rt.
    pub fn open_in_place(
        &self,
        nonce: &[u8; 12],
        aad: &[u8],
        text: &mut [u8],
        tag: &[u8; 16],
        steps: &mut Steps,
    ) -> bool
        ensures opened { OnTrue result
            (IsSealing self.now nonce.now aad.now text.new text.old tag.now) }
        ensures only { OnTrue result ((plain : List ℕ)
            → IsSealing self.now nonce.now aad.now plain text.old tag.now → text.new ≡ plain) }
        ensures refused { OnFalse result ((plain : List ℕ)
            → ¬ IsSealing self.now nonce.now aad.now plain text.old tag.now) }
        ensures unchanged { OnFalse result (text.new ≡ text.old) }
        ensures counted { OnTrue result (steps.new
            ≡ prepared_sealing_steps (length aad.now) (length text.old)) }
        ensures counted_if_refused { OnFalse result (IsWithin (length aad.now) (length text.old)
            → steps.new ≡ prepared_tag_steps (length aad.now) (length text.old)) }
        ensures uncounted { ¬ IsWithin (length aad.now) (length text.old) → steps.new ≡ no_steps }
    {
        let PreparedGcm { cipher, multiples } = self;
        *steps = Steps::new();
        if !is_within(aad, text) {
            return false;
        }
        open(cipher, multiples, nonce, aad, text, tag, steps)
    }
}

/// It doesn't allocate, so it never fails.
impl Clone for PreparedGcm {
    ghost is_clone = { λ gcm copy. copy ≡ gcm };

    ghost is_infallible = { λ _. ⊤ };

    fn clone(&self) -> Result<PreparedGcm, AllocError> {
        Ok(PreparedGcm {
            cipher: self.cipher.copy(),
            multiples: self.multiples.copy(),
        })
    }
}
