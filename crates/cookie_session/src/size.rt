//! The size of a cookie as a browser counts it.
ghost use Rattle.std.specs.Prelude.{◌≡◌, ◌<◌, ◌^◌, IfOk, IsTrue, false, length};
ghost use Rattle.cookie.specs.Escapes.{escape, is_escaped};
ghost use Rattle.cookie.specs.Record.{IsCookie};
ghost use Rattle.cookie.specs.Size.{browser_length};

use cookie::{Cookie, MOST_BYTES, encode, is_escaped};
use std::alloc::{AllocError, Global};

// The bytes of the name and the value as they are printed, escaped (RFC 6265bis 5.7).
pub(crate) fn browser_length(alloc: Global, cookie: &Cookie<'_>) -> Result<usize, AllocError>
    ensures length { IfOk result (λ length. length ≡ browser_length cookie.now.fields) }
    ensures cookie { IsCookie cookie.now.fields }
{
    let (name, value) = cookie.name_value();
    let name = printed_length(alloc, name)?;
    let value = printed_length(alloc, value)?;
    Ok(name + value)
}

// The bytes of the text as it is printed. A text that is longer than a browser takes is printed to count them, since
// they may be more than a number holds.
fn printed_length(alloc: Global, text: &str) -> Result<usize, AllocError>
    ensures length { IfOk result (λ count. count ≡ length (escape text.now)) }
    ensures small { IfOk result (λ count. count < 2 ^ 63) }
{
    if text.len() > MOST_BYTES {
        return Ok(encode(text).to_string(alloc)?.len());
    }
    if has_plain_bytes(text) {
        return Ok(text.len());
    }
    let mut count = 0;
    for byte in text.as_bytes() {
        count += if is_escaped(*byte) { 3 } else { 1 };
    }
    Ok(count)
}

// Whether each byte is plain. Such a text has no escapes.
fn has_plain_bytes(text: &str) -> bool
    ensures { IsTrue result → length (escape text.now) ≡ length text.now }
{
    let mut are_plain = true;
    for byte in text.as_bytes() {
        are_plain &= is_plain(*byte);
    }
    are_plain
}

// Whether the byte is a letter, a digit, `-` or `_`, as in base64url. None of them is escaped.
fn is_plain(byte: u8) -> bool
    ensures { IsTrue result → is_escaped byte ≡ false }
{
    byte.is_ascii_alphanumeric() || byte == b'-' || byte == b'_'
}
