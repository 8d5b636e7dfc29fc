//! The escapes of names and values (RFC 3986 2.1).
ghost use Rattle.std.specs.Prelude.{◌≡◌, ◌≤◌, ◌==◌, ◌++◌, Some, length, take, drop, nat_lt};
ghost use Rattle.std.specs.List.{list_any};
ghost use Rattle.cookie_core.specs.EscapeTest.{starts_with_escape, has_escape};
ghost use Rattle.cookie_core.specs.Escapes.{escape, is_escaped, unescape};

use memchr::memchr;
use percent_encoding::{AsciiSet, CONTROLS, ascii_set, utf8_percent_encode};
use std::fmt;
use std::marker::Model;

/// The ASCII bytes that are escaped in names and values.
const ESCAPED: AsciiSet = ascii_set!(
    CONTROLS
        .add(b' ')
        .add(b'"')
        .add(b'#')
        .add(b'%')
        .add(b'(')
        .add(b')')
        .add(b',')
        .add(b'/')
        .add(b':')
        .add(b';')
        .add(b'<')
        .add(b'=')
        .add(b'>')
        .add(b'?')
        .add(b'@')
        .add(b'[')
        .add(b'\\')
        .add(b']')
        .add(b'^')
        .add(b'`')
        .add(b'{')
        .add(b'|')
        .add(b'}')
);

// 1 at each byte that is escaped.
const ARE_ESCAPED: [u8; 256] = [
    1, 1, 1, 1, 1, 1, 1, 1, 1, 1, 1, 1, 1, 1, 1, 1, 1, 1, 1, 1, 1, 1, 1, 1, 1, 1, 1, 1, 1, 1, 1, 1,
    1, 0, 1, 1, 0, 1, 0, 0, 1, 1, 0, 0, 1, 0, 0, 1, 0, 0, 0, 0, 0, 0, 0, 0, 0, 0, 1, 1, 1, 1, 1, 1,
    1, 0, 0, 0, 0, 0, 0, 0, 0, 0, 0, 0, 0, 0, 0, 0, 0, 0, 0, 0, 0, 0, 0, 0, 0, 0, 0, 1, 1, 1, 1, 0,
    1, 0, 0, 0, 0, 0, 0, 0, 0, 0, 0, 0, 0, 0, 0, 0, 0, 0, 0, 0, 0, 0, 0, 0, 0, 0, 0, 1, 1, 1, 0, 1,
    1, 1, 1, 1, 1, 1, 1, 1, 1, 1, 1, 1, 1, 1, 1, 1, 1, 1, 1, 1, 1, 1, 1, 1, 1, 1, 1, 1, 1, 1, 1, 1,
    1, 1, 1, 1, 1, 1, 1, 1, 1, 1, 1, 1, 1, 1, 1, 1, 1, 1, 1, 1, 1, 1, 1, 1, 1, 1, 1, 1, 1, 1, 1, 1,
    1, 1, 1, 1, 1, 1, 1, 1, 1, 1, 1, 1, 1, 1, 1, 1, 1, 1, 1, 1, 1, 1, 1, 1, 1, 1, 1, 1, 1, 1, 1, 1,
    1, 1, 1, 1, 1, 1, 1, 1, 1, 1, 1, 1, 1, 1, 1, 1, 1, 1, 1, 1, 1, 1, 1, 1, 1, 1, 1, 1, 1, 1, 1, 1,
];

/// Whether [`encode`] escapes the byte: a control, the space, a byte past ASCII, or a mark that a header or a URL gives a
/// meaning (RFC 3986 2.1).
pub fn is_escaped(byte: u8) -> bool
    ensures { result ≡ is_escaped byte }
{
    ARE_ESCAPED[byte as usize] == 1
}

/// A text that is printed with its escapes.
#[derive(Drop)]
pub struct EncodedText<'a> {
    text: &'a str,
}

// Contracts see it as the text before its escapes.
impl<'a> Model for EncodedText<'a> {
    ghost use Rattle.std.specs.Prelude.{ℕ, List};

    ghost Value = { List ℕ };

    ghost view = { λ e. e.text.now };
}

/// The text, escaped when it is printed (RFC 3986 2.1). It doesn't allocate.
pub fn encode(text: &str) -> EncodedText<'_>
    ensures { result ≡ text.now }
{
    EncodedText { text }
}

/// Prints each control, each space, each byte past ASCII and each of "#%(),/:;<=>?@[\]^`{|} as `%` and two upper-case
/// hexadecimal digits, and each other byte as it is.
impl<'a> fmt::Display for EncodedText<'a> {
    ghost output = { λ text. Some (escape text) };

    fn fmt<W: fmt::Write>(&self, f: &mut fmt::Formatter<W>) -> fmt::Result {
        if !has_escaped_byte(self.text) {
            return f.write_str(self.text);
        }
        let encoded = utf8_percent_encode(self.text, ESCAPED);
        fmt::Display::fmt(&encoded, f)
    }
}

// Whether a byte of the text is escaped. Most texts have none.
fn has_escaped_byte(text: &str) -> bool
    ensures { result ≡ list_any is_escaped text.now }
{
    text.as_bytes().iter().any(|byte| is_escaped(*byte))
}

// Whether the text holds a `%`. Most texts hold none.
pub(crate) fn has_percent(text: &str) -> bool
    ensures { result ≡ list_any (λ byte. byte == 37) text.now }
{
    text.as_bytes().contains(&b'%')
}

// Whether the text holds a `%` with two hexadecimal digits.
pub(crate) fn has_escape(text: &str) -> bool
    ensures { result ≡ has_escape text.now }
{
    let bytes = text.as_bytes();
    if !bytes.contains(&b'%') {
        return false;
    }
    plain_length(bytes) < bytes.len()
}

// The number of bytes before the first `%` with two hexadecimal digits.
pub(crate) fn plain_length(text: &[u8]) -> usize
    ensures bound { result ≤ length text.now }
    ensures kept { unescape text.now
        ≡ take result text.now ++ unescape (drop result text.now) }
    ensures escape { has_escape text.now ≡ nat_lt result (length text.now) }
{
    let mut at = 0;
    while let Some(passed) = memchr(b'%', &text[at..]) {
        at += passed;
        if starts_with_escape(&text[at..]) {
            return at;
        }
        at += 1;
    }
    text.len()
}

fn starts_with_escape(text: &[u8]) -> bool
    ensures { result ≡ starts_with_escape text.now }
{
    match text {
        [b'%', high, low, ..] => high.is_ascii_hexdigit() && low.is_ascii_hexdigit(),
        _ => false,
    }
}
