//! Reading with decoding for C: names and values without their escapes (RFC 6265 5.2, RFC 3986 2.1).
ghost use Rattle.std.specs.Prelude.{◌≡◌, ◌++◌, Some, None, false, IsUtf8};
ghost use Rattle.std.specs.Str.{trim};
ghost use Rattle.cookie.specs.CookieOf.{cookie_of};
ghost use Rattle.cookie.specs.Layout.{layout_record, IsLayoutIn};
ghost use Rattle.cookie_c.specs.Answers.{IsGiven};
ghost use Rattle.cookie_c.specs.Decoded.{AreGiven, IsRefusedPair, IsRefusedReading, IsDecodedReadingOf, IsDecodedPairOf};
ghost use Rattle.cookie_c.specs.Pairs.{HeaderPiece, next_piece, rest_after};
ghost use Rattle.cookie_c.specs.declared.status.Status.TheVariants as status;

use crate::answer::Answer;
use crate::next_piece::NextPiece;
use crate::pair::Pair;
use crate::reading::Reading;
use crate::span::Span;
use crate::status::Status;
use cookie::{Cookie, Layout};
use std::alloc::Global;

/// Reads the text of a `Set-Cookie` header as a cookie and decodes its name and value, as `Cookie::parse_encoded` does.
/// It writes the name to the buffer, and the value right after it; their spans are in the buffer. The spans of the
/// path and the domain are in the text. If the buffer is too short for both, nothing is written, and the status is
/// `Status::BufferTooShort`; all else is as it would be with room for both.
///
/// Refuses as `cookie_read` does, and then a name or a value whose bytes, decoded, aren't UTF-8. It allocates, and may
/// run out of memory, only if the name or the value has an escape.
#[unsafe(no_mangle)]
pub extern "C" fn cookie_read_decoded(alloc: Global, text: &[u8], out: &mut [u8]) -> Reading
    ensures not_utf8 { ¬ IsUtf8 text.now
        → IsRefusedReading status.NotUtf8 result out.old out.new }
    ensures read { IsUtf8 text.now → IsDecodedReadingOf text.now result out.old out.new }
{
    let Ok(text) = str::from_utf8(text) else {
        return Reading::refusal(Status::NotUtf8);
    };
    match Layout::of(text) {
        Ok(layout) => give_cookie(alloc, text, layout, out),
        Err(error) => Reading::refusal(Status::of(error)),
    }
}

/// Reads the next pair of a header, from the offset `from` on, as `cookie_next_pair` does, and decodes it. It writes
/// the name to the buffer, and the value right after it; their spans are in the buffer. If the buffer is too short for
/// both, nothing is written, and the status is `Status::BufferTooShort`; all else is as it would be with room for both.
///
/// Refuses as `cookie_next_pair` does, and then a name or a value whose bytes, decoded, aren't UTF-8. It allocates, and
/// may run out of memory, only if the name or the value has an escape.
#[unsafe(no_mangle)]
pub extern "C" fn cookie_next_pair_decoded(
    alloc: Global,
    header: &[u8],
    from: usize,
    out: &mut [u8],
) -> Pair
    ensures no_pair { next_piece header.now from ≡ None
        → IsRefusedPair status.NoPair 0 result out.old out.new }
    ensures not_utf8 { (piece : HeaderPiece) → next_piece header.now from ≡ Some piece
        → ¬ IsUtf8 piece.bytes
        → IsRefusedPair status.NotUtf8 (rest_after piece) result out.old out.new }
    ensures read { (piece : HeaderPiece) → next_piece header.now from ≡ Some piece
        → IsUtf8 piece.bytes → IsDecodedPairOf piece result out.old out.new }
{
    match NextPiece::of(header, from) {
        NextPiece::End => Pair::refusal(Status::NoPair, 0),
        NextPiece::Other { next } => Pair::refusal(Status::NotUtf8, next),
        NextPiece::Text { text, next, .. } => give_next(alloc, text, next, out),
    }
}

// The cookie in the text, which has this layout, decoded.
fn give_cookie(alloc: Global, text: &str, layout: Layout, out: &mut [u8]) -> Reading
    requires layout { IsLayoutIn text.now layout }
    requires value { cookie_of false text.now ≡ Some (layout_record text.now layout) }
    ensures { IsDecodedReadingOf text.now result out.old out.new }
{
    match Cookie::parse_encoded(alloc, text) {
        Ok(cookie) => {
            let pair = give_pair(cookie.name(), cookie.value(), 0, out);
            Reading {
                status: pair.status,
                name: pair.name,
                value: pair.value,
                ..Reading::of(text, layout)
            }
        }
        Err(error) => Reading::refusal(Status::of(error)),
    }
}

// The pair in a piece's text, decoded.
fn give_next(alloc: Global, text: &str, next: usize, out: &mut [u8]) -> Pair
    ensures { (piece : HeaderPiece) → text.now ≡ trim piece.bytes → next ≡ rest_after piece
        → IsDecodedPairOf piece result out.old out.new }
{
    match Cookie::parse_encoded(alloc, text) {
        Ok(cookie) => give_pair(cookie.name(), cookie.value(), next, out),
        Err(error) => Pair::refusal(Status::of(error), next),
    }
}

// A name and a value for the buffer, with their spans there.
pub(crate) fn give_pair(name: &str, value: &str, next: usize, out: &mut [u8]) -> Pair
    ensures texts { AreGiven name.now value.now result.status result.name result.value
        out.old out.new }
    ensures next { result.next ≡ next }
{
    let answer = give_both(name.as_bytes(), value.as_bytes(), out);
    Pair {
        status: answer.status,
        name: Span {
            start: 0,
            length: name.len(),
        },
        value: Span {
            start: name.len(),
            length: value.len(),
        },
        next,
    }
}

// The first text and right after it the second, for the buffer.
pub(crate) fn give_both(first: &[u8], second: &[u8], out: &mut [u8]) -> Answer
    ensures { IsGiven (first.now ++ second.now) result out.old out.new }
{
    let length = first.len() + second.len();
    if out.len() < length {
        return Answer::of(Status::BufferTooShort, length);
    }
    out[..first.len()].copy_from_slice(first);
    out[first.len()..length].copy_from_slice(second);
    Answer::of(Status::Done, length)
}
