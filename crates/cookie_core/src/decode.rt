//! Texts without their escapes (RFC 3986 2.1).
ghost use Rattle.std.specs.Prelude.{◌≡◌, IfOk, IfErr, IfSome, IsUtf8, string_bytes};
ghost use Rattle.cookie_core.specs.DecodingCode.{IsRefusedFor, IsJoined};
ghost use Rattle.cookie_core.specs.Escapes.{unescape};

use crate::escaped_text::EscapedText;
use crate::parse_error::ParseError;
use std::alloc::{AllocError, Global};

// Percent-decodes the text.
pub(crate) fn decode_text(alloc: Global, text: &str) -> Result<String, ParseError>
    ensures bytes { IfOk result (λ t. string_bytes t ≡ unescape text.now) }
    ensures utf8 { IfOk result (λ t. IsUtf8 (string_bytes t)) }
    ensures refused { IfErr result (IsRefusedFor text.now) }
{
    let bytes = match unescape_bytes(alloc, EscapedText::of(text)) {
        Ok(bytes) => bytes,
        Err(_) => return Err(ParseError::OutOfMemory),
    };
    match String::from_utf8(bytes) {
        Ok(text) => Ok(text),
        Err(error) => Err(ParseError::Utf8Error(error.utf8_error())),
    }
}

// Percent-decodes the name and the value into one text, the value right after the name. Returns the text, and where the
// value begins, or nothing if one of the two isn't UTF-8 then.
pub(crate) fn decode_both(
    alloc: Global,
    name: EscapedText<'_>,
    value: EscapedText<'_>,
) -> Result<Option<(String, usize)>, AllocError>
    ensures { IfOk result (λ found. IfSome found (λ both.
        IsJoined name.entry.text.now value.entry.text.now (string_bytes both.0) both.1)) }
{
    let mut bytes = Vec::with_capacity(alloc, name.text.len() + value.text.len())?;
    name.push_decoded(&mut bytes)?;
    let middle = bytes.len();
    value.push_decoded(&mut bytes)?;
    let Ok(text) = String::from_utf8(bytes) else {
        return Ok(None);
    };
    if text.is_char_boundary(middle) {
        Ok(Some((text, middle)))
    } else {
        Ok(None)
    }
}

// Percent-decodes the text. The result isn't longer than it is.
fn unescape_bytes(alloc: Global, text: EscapedText<'_>) -> Result<Vec<u8>, AllocError>
    ensures { IfOk result (λ bytes. bytes.items ≡ unescape text.entry.text.now) }
{
    let mut bytes = Vec::with_capacity(alloc, text.text.len())?;
    text.push_decoded(&mut bytes)?;
    Ok(bytes)
}
