//! The pairs of a `Cookie` header for C (RFC 6265 4.2.1, 5.4).
ghost use Rattle.std.specs.Prelude.{◌≡◌, ◌+◌, ◌^◌, ◌<◌, ℕ, List, Some, None, IsUtf8, length};
ghost use Rattle.cookie_c.specs.NextPiece.{IsTextOf};
ghost use Rattle.cookie_c.specs.Pairs.{HeaderPiece, IsPairOf, next_piece, refused_pair, rest_after};
ghost use Rattle.cookie_c.specs.declared.status.Status.TheVariants as status;

use crate::next_piece::NextPiece;
use crate::span::Span;
use crate::status::Status;
use cookie::Layout;

/// A name and its value in a header or, decoded, in a buffer.
#[repr(C)]
#[derive(Clone, Copy, Default)]
pub struct Pair {
    /// The number of a `Status`. If it is neither `Status::Done` nor `Status::BufferTooShort`, the spans are 0.
    pub status: u32,
    /// Where the name is.
    pub name: Span,
    /// Where the value is.
    pub value: Span,
    /// Where the rest of the header begins; 0 at `Status::NoPair`.
    pub next: usize,
}

impl Pair {
    pub(crate) fn refusal(why: Status, next: usize) -> Pair
        ensures { result ≡ refused_pair why next }
    {
        Pair {
            status: why.code(),
            next,
            ..Pair::default()
        }
    }

    // The pair of a piece's text, which begins at this offset of a header.
    fn of(text: &str, start: usize, next: usize) -> Pair
        requires { start + length text.now < 2 ^ 64 }
        ensures { (header : List ℕ) → (piece : HeaderPiece)
            → IsTextOf header piece text.now start next → IsPairOf header piece result }
    {
        match Layout::of(text) {
            Ok(layout) => Pair {
                status: Status::Done.code(),
                name: Span::after(start, layout.name),
                value: Span::after(start, layout.value),
                next,
            },
            Err(error) => Pair::refusal(Status::of(error), next),
        }
    }
}

/// Reads the next pair of a header, from the offset `from` on (RFC 6265 4.2.1). It is cut as by `Cookie::split_parse`.
/// It doesn't allocate.
///
/// A piece that is UTF-8 is skipped if it is white space only, or if it isn't read under the name that was sent
/// (`is_named_as_sent` of `cookie`), as a jar skips it: another host of the domain can set a cookie `%5F_Host-a`, but
/// no cookie `__Host-a`.
///
/// Refuses a piece that isn't UTF-8, one with no `=`, and one with an empty name. `next` is the offset after the piece
/// and its semicolon, even if the piece is refused. If there is no further piece, the status is `Status::NoPair`.
#[unsafe(no_mangle)]
pub extern "C" fn cookie_next_pair(header: &[u8], from: usize) -> Pair
    ensures no_pair { next_piece header.now from ≡ None → result ≡ refused_pair status.NoPair 0 }
    ensures not_utf8 { (piece : HeaderPiece) → next_piece header.now from ≡ Some piece
        → ¬ IsUtf8 piece.bytes → result ≡ refused_pair status.NotUtf8 (rest_after piece) }
    ensures read { (piece : HeaderPiece) → next_piece header.now from ≡ Some piece
        → IsUtf8 piece.bytes → IsPairOf header.now piece result }
{
    match NextPiece::of(header, from) {
        NextPiece::End => Pair::refusal(Status::NoPair, 0),
        NextPiece::Other { next } => Pair::refusal(Status::NotUtf8, next),
        NextPiece::Text { text, start, next } => Pair::of(text, start, next),
    }
}
