//! AES-256-GCM with a nonce of twelve bytes (SP 800-38D), by a cipher and the multiples of its hash subkey.
ghost use Rattle.std.specs.Prelude.{◌≡◌, ◌<◌, ◌≤◌, ◌+◌, ◌-◌, ◌^◌, ◌↔◌, ℕ, List, length, IsTrue};
ghost use Rattle.std.specs.Bool.{OnTrue, OnFalse};
ghost use Rattle.cookie_crypt.specs.Gcm.{gctr, tag_of, tag_by_steps, hash_subkey, longest_text, IsWithin, IsSealing};
ghost use Rattle.cookie_crypt.specs.Ghash.{HasPowersFirst};
ghost use Rattle.cookie_crypt.specs.Steps.{block_count, with_blocks, prepared_tag_steps, prepared_sealing_steps};

use crate::aes::Aes256;
use crate::block::{add_block, bytes_of, counter_block, number_of};
use crate::equal::are_equal;
use crate::ghash::hash_from;
use crate::multiples::Multiples;
use crate::steps::Steps;

/// The most bytes of a text: 2^36 - 32 (SP 800-38D 5.2.1.1).
pub const LONGEST_TEXT: usize = (1 << 36) - 32;

/// The most bytes of associated data: 2^61 - 1 (SP 800-38D 5.2.1.1).
pub const LONGEST_DATA: usize = (1 << 61) - 1;

/// Whether the lengths of data and text are within the limits.
pub(crate) fn is_within(aad: &[u8], text: &[u8]) -> bool
    ensures { IsTrue result ↔ IsWithin (length aad.now) (length text.now) }
{
    text.len() <= LONGEST_TEXT && aad.len() <= LONGEST_DATA
}

/// The multiples of the hash subkey H, which is one encrypted block (SP 800-38D 7.1, step 1).
pub(crate) fn subkey_multiples(cipher: &Aes256, steps: &mut Steps) -> Multiples
    requires { steps.old.blocks + 1 < 2 ^ 64 }
    ensures made { result ≡ hash_subkey cipher.now }
    ensures powers_first { HasPowersFirst (hash_subkey cipher.now) }
    ensures counted { steps.new ≡ with_blocks 1 steps.old }
{
    let subkey = number_of(steps.encrypt_block(cipher, [0; 16]));
    Multiples::new(subkey)
}

// Adds the stream under the nonce to the text (SP 800-38D 6.5).
fn add_key_stream(cipher: &Aes256, nonce: &[u8; 12], text: &mut [u8], steps: &mut Steps)
    requires within { length text.old ≤ longest_text }
    requires room { steps.old.blocks + block_count (length text.old) < 2 ^ 64 }
    ensures made { text.new ≡ gctr cipher.now nonce.now text.old }
    ensures counted { steps.new ≡ with_blocks (block_count (length text.old)) steps.old }
{
    for i in 0..text.len().div_ceil(16) {
        let counter = i as u32 + 2;
        let stream = steps.encrypt_block(cipher, counter_block(nonce, counter));
        add_block(text, 16 * i, &stream);
    }
}

// The tag of an encrypted text (SP 800-38D 7.1, steps 4 to 6).
fn tag_of(
    cipher: &Aes256,
    multiples: &Multiples,
    nonce: &[u8; 12],
    aad: &[u8],
    text: &[u8],
    steps: &mut Steps,
) -> [u8; 16]
    requires subkey { multiples.now ≡ hash_subkey cipher.now }
    requires within { IsWithin (length aad.now) (length text.now) }
    requires room { steps.old.blocks < 2 ^ 40 }
    requires no_products { steps.old.products ≡ 0 }
    requires no_table_steps { steps.old.table_steps ≡ 0 }
    ensures made { result ≡ tag_of cipher.now nonce.now aad.now text.now }
    ensures by_steps { result ≡ tag_by_steps cipher.now nonce.now aad.now text.now }
    ensures counted { steps.new
        ≡ with_blocks steps.old.blocks (prepared_tag_steps (length aad.now) (length text.now)) }
{
    let hash = hash_from(0, multiples, aad, steps);
    let hash = hash_from(hash, multiples, text, steps);
    let lengths = ((8 * aad.len() as u128) << 64) + 8 * text.len() as u128;
    let hash = steps.product(multiples, hash ^ lengths);
    let mask = number_of(steps.encrypt_block(cipher, counter_block(nonce, 1)));
    bytes_of(hash ^ mask)
}

/// Encrypts the text in place, and returns its tag (SP 800-38D 7.1, from step 2 on).
pub(crate) fn seal(
    cipher: &Aes256,
    multiples: &Multiples,
    nonce: &[u8; 12],
    aad: &[u8],
    text: &mut [u8],
    steps: &mut Steps,
) -> [u8; 16]
    requires subkey { multiples.now ≡ hash_subkey cipher.now }
    requires within { IsWithin (length aad.now) (length text.old) }
    requires room { steps.old.blocks < 2 ^ 32 }
    requires no_products { steps.old.products ≡ 0 }
    requires no_table_steps { steps.old.table_steps ≡ 0 }
    ensures sealed { IsSealing cipher.now nonce.now aad.now text.old text.new result }
    ensures by_steps { result ≡ tag_by_steps cipher.now nonce.now aad.now text.new }
    ensures counted { steps.new
        ≡ with_blocks steps.old.blocks (prepared_sealing_steps (length aad.now) (length text.old)) }
{
    add_key_stream(cipher, nonce, text, steps);
    tag_of(cipher, multiples, nonce, aad, text, steps)
}

/// Decrypts the text in place and returns true if text and tag are a sealing (SP 800-38D 7.2). Else it returns false and
/// leaves the text as it was.
pub(crate) fn open(
    cipher: &Aes256,
    multiples: &Multiples,
    nonce: &[u8; 12],
    aad: &[u8],
    text: &mut [u8],
    tag: &[u8; 16],
    steps: &mut Steps,
) -> bool
    requires subkey { multiples.now ≡ hash_subkey cipher.now }
    requires within { IsWithin (length aad.now) (length text.old) }
    requires room { steps.old.blocks < 2 ^ 32 }
    requires no_products { steps.old.products ≡ 0 }
    requires no_table_steps { steps.old.table_steps ≡ 0 }
    ensures opened { OnTrue result
        (IsSealing cipher.now nonce.now aad.now text.new text.old tag.now) }
    ensures refused { OnFalse result ((plain : List ℕ)
        → ¬ IsSealing cipher.now nonce.now aad.now plain text.old tag.now) }
    ensures unchanged { OnFalse result (text.new ≡ text.old) }
    ensures counted { OnTrue result (steps.new
        ≡ with_blocks steps.old.blocks (prepared_sealing_steps (length aad.now) (length text.old))) }
    ensures counted_if_refused { OnFalse result (steps.new
        ≡ with_blocks steps.old.blocks (prepared_tag_steps (length aad.now) (length text.old))) }
{
    if !are_equal(&tag_of(cipher, multiples, nonce, aad, text, steps), tag) {
        return false;
    }
    add_key_stream(cipher, nonce, text, steps);
    true
}
