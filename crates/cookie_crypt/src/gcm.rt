//! AES-256-GCM under a key.
ghost use Rattle.std.specs.Prelude.{◌≡◌, ◌↔◌, ⊤, ℕ, List, length, IsSome, IfSome, IfNone, OnSome};
ghost use Rattle.std.specs.Bool.{OnTrue, OnFalse};
ghost use Rattle.cookie_crypt.specs.Gcm.{tag_by_steps, hash_subkey, IsWithin, IsSealing, SealsToBytes};
ghost use Rattle.cookie_crypt.specs.Ghash.{HasSum, HasPowersFirst};
ghost use Rattle.cookie_crypt.specs.Steps.{no_steps, tag_steps, sealing_steps};

use crate::aes::Aes256;
use crate::sealing::{is_within, open, seal, subkey_multiples};
use crate::steps::Steps;
use std::alloc::AllocError;
use std::marker::Model;

/// AES-256-GCM under a key. Contracts see the key. Each call makes the hash subkey H and its multiples anew; for many
/// texts under one key, a `PreparedGcm` keeps them.
#[derive(Drop)]
pub struct Gcm {
    cipher: Aes256,
}

impl Model for Gcm {
    ghost use Rattle.std.specs.Prelude.{ℕ, List};
    ghost use Rattle.cookie_crypt.specs.Bytes.{IsBytes};

    ghost Value = { List ℕ };

    ghost view = { λ g. g.cipher };

    ghost invariant = { λ g. IsBytes g.cipher };
}

impl Gcm {
    /// AES-256-GCM under `key`, which must be random. It isn't wiped from memory.
    /// Example: `comes_back` in crates/cookie_examples/src/sealing.rt.
    pub fn new(key: &[u8; 32]) -> Gcm
        ensures value { result ≡ key.now }
        ensures bytes { SealsToBytes key.now }
    {
        Gcm {
            cipher: Aes256::new(key),
        }
    }

    /// Encrypts the text in place, and returns the tag of the text and of the associated data `aad` (SP 800-38D 7.1).
    /// No two texts may be sealed under one key and one nonce, and under one key at most 2^32 random nonces may be
    /// drawn (8.3).
    ///
    /// Returns `None` if the text has more than 2^36 - 32 bytes or the data more than 2^61 - 1. `steps` is set to what
    /// was done, whatever it held.
    /// Example: `comes_back` in crates/cookie_examples/src/sealing.rt.
    pub fn seal_in_place(
        &self,
        nonce: &[u8; 12],
        aad: &[u8],
        text: &mut [u8],
        steps: &mut Steps,
    ) -> Option<[u8; 16]>
        ensures limits { IsSome result ↔ IsWithin (length aad.now) (length text.old) }
        ensures sealed { IfSome result (λ tag.
            IsSealing self.now nonce.now aad.now text.old text.new tag) }
        ensures counted { OnSome result (steps.new
            ≡ sealing_steps (length aad.now) (length text.old)) }
        ensures unchanged { IfNone result (text.new ≡ text.old) }
        ensures uncounted { IfNone result (steps.new ≡ no_steps) }

        // The hash in the tag is a sum of blocks times powers. The standard's steps over all blocks compute the same
        // hash, and a block times a power is one product.
        ensures by_steps { IfSome result (λ tag.
            tag ≡ tag_by_steps self.now nonce.now aad.now text.new) }
        ensures steps_are_the_sum { HasSum (hash_subkey self.now) }
        ensures powers_first { OnSome result (HasPowersFirst (hash_subkey self.now)) }

        ensures bytes { SealsToBytes self.now }
    {
        let cipher = &self.cipher;
        *steps = Steps::new();
        if !is_within(aad, text) {
            return None;
        }
        let multiples = subkey_multiples(cipher, steps);
        Some(seal(cipher, &multiples, nonce, aad, text, steps))
    }

    /// Decrypts the text in place and returns true if text and tag are a sealing (SP 800-38D 7.2). Else it returns
    /// false and leaves the text as it was. The tags are compared to their last byte, wherever they differ.
    ///
    /// `steps` is set to what was done, whatever it held.
    /// Example: `comes_back` in crates/cookie_examples/src/sealing.rt.
    pub fn open_in_place(
        &self,
        nonce: &[u8; 12],
        aad: &[u8],
        text: &mut [u8],
        tag: &[u8; 16],
        steps: &mut Steps,
    ) -> bool
        ensures opened { OnTrue result
            (IsSealing self.now nonce.now aad.now text.new text.old tag.now) }
        ensures only { OnTrue result ((plain : List ℕ)
            → IsSealing self.now nonce.now aad.now plain text.old tag.now → text.new ≡ plain) }
        ensures refused { OnFalse result ((plain : List ℕ)
            → ¬ IsSealing self.now nonce.now aad.now plain text.old tag.now) }
        ensures unchanged { OnFalse result (text.new ≡ text.old) }
        ensures counted { OnTrue result (steps.new
            ≡ sealing_steps (length aad.now) (length text.old)) }
        ensures counted_if_refused { OnFalse result (IsWithin (length aad.now) (length text.old)
            → steps.new ≡ tag_steps (length aad.now) (length text.old)) }
        ensures uncounted { ¬ IsWithin (length aad.now) (length text.old) → steps.new ≡ no_steps }
        ensures bytes { SealsToBytes self.now }
    {
        let cipher = &self.cipher;
        *steps = Steps::new();
        if !is_within(aad, text) {
            return false;
        }
        let multiples = subkey_multiples(cipher, steps);
        open(cipher, &multiples, nonce, aad, text, tag, steps)
    }
}

/// It doesn't allocate, so it never fails.
impl Clone for Gcm {
    ghost is_clone = { λ gcm copy. copy ≡ gcm };

    ghost is_infallible = { λ _. ⊤ };

    fn clone(&self) -> Result<Gcm, AllocError> {
        Ok(Gcm {
            cipher: self.cipher.copy(),
        })
    }
}
