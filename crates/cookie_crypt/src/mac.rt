//! HMAC-SHA256 (RFC 2104).
ghost use Rattle.std.specs.Prelude.{◌≡◌, ◌≤◌, ℕ, List, ⊤, length, map};
ghost use Rattle.std.specs.List.{concat};
ghost use Rattle.sha2.specs.Hashers.{Holds256};
ghost use Rattle.cookie_crypt.specs.Hmac.{masked, hmac_short, hmac};

use sha2::{Digest, Sha256};
use std::alloc::AllocError;
use std::marker::Model;

const INNER_MASK: u8 = 0x36;

const OUTER_MASK: u8 = 0x5c;

// The key padded with zeros, with the mask added to each byte.
fn mask_key(key: &[u8], mask: u8) -> [u8; 64]
    requires { length key.now ≤ 64 }
    ensures { result ≡ masked key.now mask }
{
    let mut bytes = [0; 64];
    for i in 0..64usize {
        bytes[i] = if i < key.len() { key[i] ^ mask } else { mask };
    }
    bytes
}

// A hasher that has taken in the masked key.
fn hasher_of(key: &[u8], mask: u8) -> Sha256
    requires { length key.now ≤ 64 }
    ensures { Holds256 result (masked key.now mask) }
{
    let mut hasher = Sha256::new();
    hasher.update(&mask_key(key, mask));
    hasher
}

// HMAC, of hashers that have taken in the masked keys.
fn code(mut inner: Sha256, mut outer: Sha256, pieces: &[&[u8]]) -> [u8; 32]
    ensures { (key : List ℕ) → Holds256 inner (masked key 0x36) → Holds256 outer (masked key 0x5c)
        → result ≡ hmac_short key (concat (map (λ piece. piece.now) pieces.now)) }
{
    for piece in pieces {
        inner.update(*piece);
    }
    outer.update(&inner.finalize());
    outer.finalize()
}

// HMAC under a key of at most a block.
fn hmac_short(key: &[u8], pieces: &[&[u8]]) -> [u8; 32]
    requires { length key.now ≤ 64 }
    ensures { result ≡ hmac_short key.now (concat (map (λ piece. piece.now) pieces.now)) }
{
    code(
        hasher_of(key, INNER_MASK),
        hasher_of(key, OUTER_MASK),
        pieces,
    )
}

/// HMAC-SHA256 of the joined pieces under the key (RFC 2104). The key must be random.
pub fn hmac(key: &[u8], pieces: &[&[u8]]) -> [u8; 32]
    ensures { result ≡ hmac key.now (concat (map (λ piece. piece.now) pieces.now)) }
{
    if key.len() > 64 {
        hmac_short(&Sha256::digest(key), pieces)
    } else {
        hmac_short(key, pieces)
    }
}

// The hasher as it is, to go on with.
fn copy_of(hasher: &Sha256) -> Sha256
    ensures { result ≡ hasher.now }
{
    let Ok(copy) = hasher.clone() else {
        unreachable!();
    };
    copy
}

/// HMAC-SHA256 under a key of 32 bytes. Contracts see the key. It keeps the two hashes of the masked key, so that each
/// code costs two blocks less than by `hmac`.
#[derive(Drop)]
pub struct Mac {
    key: [u8; 32],
    inner: Sha256,
    outer: Sha256,
}

impl Model for Mac {
    ghost Value = { List ℕ };

    ghost view = { λ m. m.key };

    ghost invariant = { λ m. Holds256 m.inner (masked m.key 0x36)
        × Holds256 m.outer (masked m.key 0x5c) };
}

impl Mac {
    /// HMAC-SHA256 under `key`, which must be random. It isn't wiped from memory.
    pub fn new(key: &[u8; 32]) -> Mac
        ensures { result ≡ key.now }
    {
        Mac {
            key: *key,
            inner: hasher_of(key, INNER_MASK),
            outer: hasher_of(key, OUTER_MASK),
        }
    }

    /// HMAC-SHA256 of the joined pieces (RFC 2104).
    pub fn code(&self, pieces: &[&[u8]]) -> [u8; 32]
        ensures { result ≡ hmac self.now (concat (map (λ piece. piece.now) pieces.now)) }
    {
        code(copy_of(&self.inner), copy_of(&self.outer), pieces)
    }
}

/// It doesn't allocate, so it never fails.
impl Clone for Mac {
    ghost is_clone = { λ mac copy. copy ≡ mac };

    ghost is_infallible = { λ _. ⊤ };

    fn clone(&self) -> Result<Mac, AllocError> {
        Ok(Mac {
            key: self.key,
            inner: copy_of(&self.inner),
            outer: copy_of(&self.outer),
        })
    }
}
