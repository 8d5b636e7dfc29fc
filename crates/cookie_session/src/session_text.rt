//! The text of a session, read back.
ghost use Rattle.std.specs.Prelude.{◌≡◌, ◌↔◌, ◌<◌, ◌^◌, ◌∷◌, ℕ, List, Some, IfOk, length};
ghost use Rattle.std.specs.Cow.{cow_str_bytes};
ghost use Rattle.std.specs.FinMap.{empty};
ghost use Rattle.std.specs.Fmt.{decimal};
ghost use Rattle.form_urlencoded.specs.Parse.{raw_pairs_left};
ghost use Rattle.cookie.specs.TextMap.{AreTexts};
ghost use Rattle.cookie_session.specs.Form.{decoded_pairs, escape_marks, filled, form_text};
ghost use Rattle.cookie_session.specs.Reading.{pairs_text};
ghost use Rattle.cookie_session.specs.Session.{IsSessionText, SessionState};

use crate::id::id_of;
use crate::pair_text::has_mark;
use crate::session::Session;
use crate::times::Times;
use cookie::TextMap;
use form_urlencoded::{RawPairs, decode};
use itoa::Buffer;
use std::alloc::{AllocError, Global};
use std::borrow::CowStr;

// The session that has this text, if there is one.
pub(crate) fn read_session(alloc: Global, text: &str) -> Result<Option<Session>, AllocError>
    ensures { IfOk result (λ answer. (s : SessionState)
        → (answer ≡ Some s) ↔ IsSessionText text.now s) }
{
    let session = parse_session(alloc, text)?;
    // Other texts are read alike, so the session is written again.
    let again = session.text_at(alloc, session.seen())?;
    if again.as_str() == text {
        Ok(Some(session))
    } else {
        Ok(None)
    }
}

// The session that has this text, if there is one, else any.
fn parse_session(alloc: Global, text: &str) -> Result<Session, AllocError>
    ensures { IfOk result (λ session. (s : SessionState) → IsSessionText text.now s → session ≡ s) }
{
    let (_, _, rest) = first_pair(text);
    let (_, id, rest) = first_pair(rest);
    let (_, started, rest) = first_pair(rest);
    let (_, end, rest) = first_pair(rest);
    let (_, idle, rest) = first_pair(rest);
    let (_, seen, rest) = first_pair(rest);
    let texts = written_texts(alloc, rest)?;
    let times = Times {
        started: number_of(started.as_bytes()),
        end: number_of(end.as_bytes()),
        idle: number_of(idle.as_bytes()),
        seen: number_of(seen.as_bytes()),
    };
    Ok(Session::of(id_of(id.as_bytes()), times, texts))
}

// The name and the value of the first pair, with their escapes, and the text after it.
fn first_pair(text: &str) -> (&str, &str, &str)
    ensures parts { (pair : List ℕ × List ℕ) (pairs : List (List ℕ × List ℕ))
        → text.now ≡ pairs_text (pair ∷ pairs)
        → (result.0.now ≡ escape_marks pair.0) × (result.1.now ≡ escape_marks pair.1)
        × (result.2.now ≡ pairs_text pairs) }
    ensures shorter { 0 < length text.now → length result.2.now < length text.now }
{
    let (name, after) = text.split_once('=').unwrap_or((text, ""));
    let (value, rest) = after.split_once('&').unwrap_or((after, ""));
    (name, value, rest)
}

// The texts of the pairs that were written.
fn written_texts(alloc: Global, text: &str) -> Result<TextMap, AllocError>
    ensures { IfOk result (λ texts. (pairs : List (List ℕ × List ℕ)) → AreTexts pairs
        → text.now ≡ pairs_text pairs → texts ≡ filled pairs empty) }
{
    let mut texts = TextMap::new(alloc);
    let mut rest = text;
    while !rest.is_empty() {
        let (name, value, after) = first_pair(rest);
        let name = form_text(alloc, name)?;
        let value = form_text(alloc, value)?;
        texts.put(&name, value.into_owned(alloc)?)?;
        rest = after;
    }
    Ok(texts)
}

// The text that a name or a value of a form stands for. Without marks it is itself.
fn form_text(alloc: Global, text: &str) -> Result<CowStr<'_>, AllocError>
    ensures { IfOk result (λ read. cow_str_bytes read ≡ form_text text.now) }
{
    if has_mark(text) {
        marked_text(alloc, text)
    } else {
        Ok(CowStr::Borrowed(text))
    }
}

// The same of any text. It is apart so that texts without marks cost less.
#[inline(never)]
fn marked_text(alloc: Global, text: &str) -> Result<CowStr<'_>, AllocError>
    ensures { IfOk result (λ read. cow_str_bytes read ≡ form_text text.now) }
{
    decode(alloc, text.as_bytes())
}

// The number that has this text, else any. The low half of a digit's byte is its value.
fn number_of(text: &[u8]) -> u64
    ensures { (number : ℕ) → number < 2 ^ 64 → text.now ≡ decimal number → result ≡ number }
{
    let mut number = 0u64;
    for digit in text {
        number = number.wrapping_mul(10).wrapping_add(u64::from(*digit % 16));
    }
    number
}

// The number whose text this is, if there is one.
pub(crate) fn exact_number(text: &str) -> Option<u64>
    ensures { (number : ℕ) → (result ≡ Some number)
        ↔ ((number < 2 ^ 64) × (text.now ≡ decimal number)) }
{
    let number = number_of(text.as_bytes());
    if Buffer::new().format(number) == text {
        Some(number)
    } else {
        None
    }
}

// The texts of the pairs of any form. The last one of a name counts.
pub(crate) fn texts_of(alloc: Global, pairs: RawPairs<'_>) -> Result<TextMap, AllocError>
    ensures { IfOk result (λ texts.
        texts ≡ filled (decoded_pairs (raw_pairs_left pairs.entry)) empty) }
{
    let mut texts = TextMap::new(alloc);
    for (name, value) in pairs {
        let name = decode(alloc, name)?;
        let value = decode(alloc, value)?;
        texts.put(&name, value.into_owned(alloc)?)?;
    }
    Ok(texts)
}
