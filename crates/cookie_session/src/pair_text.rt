//! Pairs, written with no more escapes than the reader of a form needs (URL Standard 5.1).
ghost use Rattle.std.specs.Prelude.{◌≡◌, ◌++◌, OnOk, encode_utf8, string_bytes};
ghost use Rattle.std.specs.List.{list_any};
ghost use Rattle.cookie_session.specs.Form.{escape_marks, is_mark, with_pair};

use percent_encoding::percent_encode_byte;
use std::alloc::AllocError;

// 1 at each mark: `%`, `&`, `+` and `=`, which the reader of a form gives a meaning.
const MARKS: [u8; 256] = [
    0, 0, 0, 0, 0, 0, 0, 0, 0, 0, 0, 0, 0, 0, 0, 0, 0, 0, 0, 0, 0, 0, 0, 0, 0, 0, 0, 0, 0, 0, 0, 0,
    0, 0, 0, 0, 0, 1, 1, 0, 0, 0, 0, 1, 0, 0, 0, 0, 0, 0, 0, 0, 0, 0, 0, 0, 0, 0, 0, 0, 0, 1, 0, 0,
    0, 0, 0, 0, 0, 0, 0, 0, 0, 0, 0, 0, 0, 0, 0, 0, 0, 0, 0, 0, 0, 0, 0, 0, 0, 0, 0, 0, 0, 0, 0, 0,
    0, 0, 0, 0, 0, 0, 0, 0, 0, 0, 0, 0, 0, 0, 0, 0, 0, 0, 0, 0, 0, 0, 0, 0, 0, 0, 0, 0, 0, 0, 0, 0,
    0, 0, 0, 0, 0, 0, 0, 0, 0, 0, 0, 0, 0, 0, 0, 0, 0, 0, 0, 0, 0, 0, 0, 0, 0, 0, 0, 0, 0, 0, 0, 0,
    0, 0, 0, 0, 0, 0, 0, 0, 0, 0, 0, 0, 0, 0, 0, 0, 0, 0, 0, 0, 0, 0, 0, 0, 0, 0, 0, 0, 0, 0, 0, 0,
    0, 0, 0, 0, 0, 0, 0, 0, 0, 0, 0, 0, 0, 0, 0, 0, 0, 0, 0, 0, 0, 0, 0, 0, 0, 0, 0, 0, 0, 0, 0, 0,
    0, 0, 0, 0, 0, 0, 0, 0, 0, 0, 0, 0, 0, 0, 0, 0, 0, 0, 0, 0, 0, 0, 0, 0, 0, 0, 0, 0, 0, 0, 0, 0,
];

// Appends `name=text`, after an `&` if it isn't the first pair.
pub(crate) fn push_pair(form: &mut String, name: &str, text: &str) -> Result<(), AllocError>
    ensures { OnOk result (string_bytes form.new
        ≡ with_pair (string_bytes form.old) (name.now, text.now)) }
{
    if !form.is_empty() {
        form.push('&')?;
    }
    push_escaped(form, name)?;
    form.push('=')?;
    push_escaped(form, text)
}

// Appends the text, with its marks escaped.
fn push_escaped(form: &mut String, text: &str) -> Result<(), AllocError>
    ensures { OnOk result (string_bytes form.new ≡ string_bytes form.old ++ escape_marks text.now) }
{
    if has_mark(text) {
        push_marked(form, text)
    } else {
        form.push_str(text)
    }
}

// The same, character by character. It is apart so that texts without marks cost less.
#[inline(never)]
fn push_marked(form: &mut String, text: &str) -> Result<(), AllocError>
    ensures { OnOk result (string_bytes form.new ≡ string_bytes form.old ++ escape_marks text.now) }
{
    for character in text.chars() {
        push_character(form, character)?;
    }
    Ok(())
}

// Whether a byte of the text is a mark.
pub(crate) fn has_mark(text: &str) -> bool
    ensures { result ≡ list_any is_mark text.now }
{
    text.as_bytes().iter().any(|byte| is_mark(*byte))
}

// Appends the character, escaped if it is a mark.
fn push_character(form: &mut String, character: char) -> Result<(), AllocError>
    ensures { OnOk result (string_bytes form.new
        ≡ string_bytes form.old ++ escape_marks (encode_utf8 character)) }
{
    if character.is_ascii() && is_mark(character as u8) {
        form.push_str(percent_encode_byte(character as u8))
    } else {
        form.push(character)
    }
}

// Whether the byte is a mark.
fn is_mark(byte: u8) -> bool
    ensures { result ≡ is_mark byte }
{
    MARKS[byte as usize] == 1
}
