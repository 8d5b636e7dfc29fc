//! What comes next in a `Cookie` header (RFC 6265 4.2.1, 5.4).
ghost use Rattle.std.specs.Prelude.{◌≡◌, ◌≢◌, ◌≤◌, ◌<◌, ℕ, length, get_or};
ghost use Rattle.cookie_c.specs.NextPiece.{IsNextPiece};

use cookie::{Span, is_named_as_sent};

/// The next piece of a header and where the rest begins. Skipped are blank pieces, and those that aren't read under the
/// name that was sent.
#[derive(Clone, Copy)]
pub(crate) enum NextPiece<'h> {
    /// There is none.
    End,
    /// It isn't UTF-8.
    Other {
        next: usize,
    },
    /// Its text without white space at its ends, and the number of bytes before that text.
    Text {
        text: &'h str,
        start: usize,
        next: usize,
    },
}

impl<'h> NextPiece<'h> {
    // What comes next from this offset on.
    pub(crate) fn of(header: &'h [u8], from: usize) -> NextPiece<'h>
        ensures { IsNextPiece header.now from result }
    {
        let mut start = from;
        while start <= header.len() {
            let end = piece_end(header, start);
            let next = end + 1;
            let Ok(piece) = str::from_utf8(&header[start..end]) else {
                return NextPiece::Other { next };
            };
            let span = Span::trim(piece);
            if span.start < span.end && is_named_as_sent(piece) {
                let text = &piece[span.start..span.end];
                let start = start + span.start;
                return NextPiece::Text { text, start, next };
            }
            start = next;
        }
        NextPiece::End
    }
}

// Where the piece ends that begins here: at a `;`, or with the header.
fn piece_end(header: &[u8], start: usize) -> usize
    requires { start ≤ length header.now }
    ensures forward { start ≤ result }
    ensures within { result ≤ length header.now }
    ensures apart { (i : ℕ) → start ≤ i → i < result → get_or header.now i 0 ≢ 59 }
    ensures mark { result < length header.now → get_or header.now result 0 ≡ 59 }
{
    let mut end = start;
    while end < header.len() && header[end] != b';' {
        end += 1;
    }
    end
}
