//! The keys of a site in a text.
ghost use Rattle.std.specs.Prelude.{◌≡◌, ◌⊎◌, Err, IfOk, MatchResult, Ok, map};
ghost use Rattle.cookie_session.specs.KeyText.{is_between, key_in, key_texts, keys_in, ring_in};
ghost use Rattle.cookie_session.specs.declared.key_text_error.KeyTextError.TheVariants as refusal;

use crate::key_ring::KeyRing;
use crate::key_text_error::KeyTextError;
use base64::DecodeAllocError;
use base64::engine::general_purpose::STANDARD;
use cookie::Key;
use std::alloc::{AllocError, Global};

impl KeyRing {
    /// A ring of the keys in a text, the newest first, as a variable of the environment or a file holds them. Between
    /// two keys stand commas or white space. Each is the padded base64 (RFC 4648 4) of 64 random bytes, as
    /// `openssl rand -base64 64 | tr -d '\n'` prints them. Of more bytes the first 64 count.
    ///
    /// Fails with `Missing` if the text has no key. Else fails with `NotBase64` or `TooShort` for the first key that is
    /// bad, and with `OutOfMemory`.
    ///
    /// ```
    /// let text = env::var(rt, "SESSION_KEYS").context("SESSION_KEYS")?;
    /// let keys = KeyRing::from_text(alloc, text.as_str())?;
    /// ```
    pub fn from_text(alloc: Global, text: &str) -> Result<KeyRing, KeyTextError>
        ensures { (result ≡ Err refusal.OutOfMemory) ⊎ (result ≡ ring_in text.now) }
    {
        let keys = keys_of(alloc, &parts_of(alloc, text)?)?;
        KeyRing::from_keys(keys).ok_or(KeyTextError::Missing)
    }
}

// The texts between commas and white space.
fn parts_of(alloc: Global, text: &str) -> Result<Vec<&[u8]>, AllocError>
    ensures { IfOk result (λ parts. map (λ part. part.now) parts.items ≡ key_texts text.now) }
{
    text.as_bytes()
        .split(|byte| is_between(*byte))
        .collect(alloc)
}

// Whether the byte stands between two keys.
fn is_between(byte: u8) -> bool
    ensures { result ≡ is_between byte }
{
    byte == b',' || byte.is_ascii_whitespace()
}

// The keys in these texts, or the first refusal. An empty text has none.
fn keys_of(alloc: Global, texts: &[&[u8]]) -> Result<Vec<Key>, KeyTextError>
    ensures { MatchResult result
        (λ keys. keys_in 0 (map (λ text. text.now) texts.now) ≡ Ok keys.items)
        (λ why. (why ≡ refusal.OutOfMemory)
        ⊎ (keys_in 0 (map (λ text. text.now) texts.now) ≡ Err why)) }
{
    let mut keys = Vec::new(alloc);
    for text in texts {
        if !text.is_empty() {
            keys.push(key_of(alloc, keys.len(), text)?)?;
        }
    }
    Ok(keys)
}

// The key in the text at this place.
fn key_of(alloc: Global, place: usize, text: &[u8]) -> Result<Key, KeyTextError>
    ensures { (result ≡ Err refusal.OutOfMemory) ⊎ (result ≡ key_in place text.now) }
{
    let bytes = match STANDARD.decode(alloc, text) {
        Ok(bytes) => bytes,
        Err(DecodeAllocError::DecodeError(_)) => return Err(KeyTextError::NotBase64(place)),
        Err(DecodeAllocError::OutOfMemory) => return Err(KeyTextError::OutOfMemory),
    };
    match Key::try_from(bytes.as_slice()) {
        Ok(key) => Ok(key),
        Err(_) => Err(KeyTextError::TooShort(place, bytes.len())),
    }
}
