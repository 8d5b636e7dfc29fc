//! Bytes as readable text: `\n`, `\r`, `\t`, `\xNN` for one byte, `\u{NN}` for a character, and `\{ab*40}` for 40 times
//! `ab`. A backslash is `\x5c`.
use std::alloc::Global;
use std::fmt::{self, Display, Formatter, Write};

/// The bytes that the text stands for, or `None` if it has another escape.
pub fn unescaped(alloc: Global, text: &str) -> Option<Vec<u8>> {
    let mut parts = text.split('\\');
    let mut bytes = Vec::new(alloc);
    bytes.extend_from_slice(parts.next()?.as_bytes()).ok()?;
    for part in parts {
        let rest = push_escape(&mut bytes, part)?;
        bytes.extend_from_slice(rest.as_bytes()).ok()?;
    }
    Some(bytes)
}

// Appends what an escape stands for, whose text begins after the backslash. Returns the text after it.
fn push_escape<'t>(bytes: &mut Vec<u8>, text: &'t str) -> Option<&'t str> {
    let (letter, rest) = text.split_at_checked(1)?;
    match letter {
        "n" => bytes.push(b'\n').ok()?,
        "r" => bytes.push(b'\r').ok()?,
        "t" => bytes.push(b'\t').ok()?,
        "x" => {
            let (digits, rest) = rest.split_at_checked(2)?;
            bytes.push(u8::from_str_radix(digits, 16).ok()?).ok()?;
            return Some(rest);
        }
        _ => {
            let (inner, rest) = text.split_once('}')?;
            push_bracket(bytes, inner)?;
            return Some(rest);
        }
    }
    Some(rest)
}

// Appends a character, as `u{e9`, or a text a number of times, as `{ab*40`.
fn push_bracket(bytes: &mut Vec<u8>, inner: &str) -> Option<()> {
    if let Some(digits) = inner.strip_prefix("u{") {
        let character = char::from_u32(u32::from_str_radix(digits, 16).ok()?)?;
        let mut room = [0; 4];
        let encoded = character.encode_utf8(&mut room);
        return bytes.extend_from_slice(encoded.as_bytes()).ok();
    }
    let (piece, count) = inner.strip_prefix('{')?.split_once('*')?;
    let pieces = piece.repeat(*bytes.allocator(), count.parse().ok()?).ok()?;
    bytes.extend_from_slice(pieces.as_bytes()).ok()
}

/// Bytes as answers have them. Control characters, blanks beyond ASCII, and bytes that aren't UTF-8 are escaped.
#[derive(Clone, Copy)]
pub struct Escaped<'b>(pub &'b [u8]);

impl Display for Escaped<'_> {
    fn fmt<W: Write>(&self, f: &mut Formatter<W>) -> fmt::Result {
        if let Ok(text) = str::from_utf8(self.0) {
            for letter in text.chars() {
                write_letter(f, letter)?;
            }
            return Ok(());
        }
        for &byte in self.0 {
            match byte.is_ascii() {
                true => write_letter(f, byte as char)?,
                false => write!(f, "\\x{byte:02x}")?,
            }
        }
        Ok(())
    }
}

fn write_letter<W: Write>(f: &mut Formatter<W>, letter: char) -> fmt::Result {
    match letter {
        '\\' | '\0'..'\u{20}' | '\u{7f}' => write!(f, "\\x{:02x}", letter as u32),
        '\u{80}'..'\u{a1}' | '\u{2000}'..'\u{2030}' | '\u{3000}' => {
            write!(f, "\\u{{{:x}}}", letter as u32)
        }
        _ => write!(f, "{letter}"),
    }
}
