//! The bytes of sealed values: AES-256-GCM over associated data and a value (SP 800-38D 7).
ghost use Rattle.std.specs.Prelude.{◌≡◌, ◌↔◌, ℕ, List, Some, IfOk, IsTrue, option_map, string_bytes};
ghost use Rattle.cookie.specs.Opening.{IsSealedBytes, IsSealedTextBytes};
ghost use Rattle.cookie.specs.Sealing.{IsSealable, sealed_bytes};

use cookie_crypt::{LONGEST_DATA, LONGEST_TEXT, PreparedGcm, Steps};
use std::alloc::{AllocError, Global};

const NONCE_LENGTH: usize = 12;

const TAG_LENGTH: usize = 16;

// Whether the name and the value are within the limits of the cipher.
pub(crate) fn is_sealable(name: &str, value: &str) -> bool
    ensures { IsTrue result ↔ IsSealable name.now value.now }
{
    name.len() <= LONGEST_DATA && value.len() <= LONGEST_TEXT
}

// The nonce, the encrypted value and the tag.
pub(crate) fn sealed_bytes(
    alloc: Global,
    cipher: &PreparedGcm,
    bound: &[u8],
    nonce: &[u8; 12],
    value: &str,
) -> Result<Vec<u8>, AllocError>
    requires { IsSealable bound.now value.now }
    ensures { IfOk result (λ bytes.
        bytes.items ≡ sealed_bytes cipher.now bound.now nonce.now value.now) }
{
    let mut bytes = Vec::from_slice(alloc, nonce)?;
    bytes.extend_from_slice(value.as_bytes())?;
    let text = &mut bytes[NONCE_LENGTH..];
    let Some(tag) = cipher.seal_in_place(nonce, bound, text, &mut Steps::new()) else {
        unreachable!();
    };
    bytes.extend_from_slice(&tag)?;
    Ok(bytes)
}

// The text that the bytes are a sealing of with this associated data, if they are one.
pub(crate) fn open_text(
    alloc: Global,
    cipher: &PreparedGcm,
    bound: &[u8],
    bytes: &[u8],
) -> Result<Option<String>, AllocError>
    ensures { IfOk result (λ answer. (v : List ℕ)
        → (option_map string_bytes answer ≡ Some v)
        ↔ IsSealedTextBytes cipher.now bound.now bytes.now v) }
{
    let Some(plain) = open(alloc, cipher, bound, bytes)? else {
        return Ok(None);
    };
    match String::from_utf8(plain) {
        Ok(value) => Ok(Some(value)),
        Err(_) => Ok(None),
    }
}

// The same of bytes that may be no text.
fn open(
    alloc: Global,
    cipher: &PreparedGcm,
    bound: &[u8],
    bytes: &[u8],
) -> Result<Option<Vec<u8>>, AllocError>
    ensures { IfOk result (λ answer.
        (v : List ℕ)
        → (option_map (λ p. p.items) answer ≡ Some v)
        ↔ IsSealedBytes cipher.now bound.now bytes.now v) }
{
    let Some((nonce, rest)) = bytes.split_first_chunk::<NONCE_LENGTH>() else {
        return Ok(None);
    };
    let Some((text, tag)) = rest.split_last_chunk::<TAG_LENGTH>() else {
        return Ok(None);
    };
    let mut plain = Vec::from_slice(alloc, text)?;
    if cipher.open_in_place(nonce, bound, plain.as_mut_slice(), tag, &mut Steps::new()) {
        Ok(Some(plain))
    } else {
        Ok(None)
    }
}
