//! What a browser makes of a cookie, for C: why it refuses it, or what it stores (RFC 6265bis).
ghost use Rattle.std.specs.Prelude.{◌≡◌};
ghost use Rattle.cookie_c.specs.Explanations.{IsExplained, IsExplainedBy, suffixes_of, unexplained};

mod draft;
mod request;
mod stored;

use crate::handle::with_content;
use crate::sessions::time::time_at;
use crate::span::Span;
use crate::status::Status;
use cookie_browser::Suffixes;
pub(crate) use draft::{Draft, code_of};
pub use request::Request;
use std::alloc::Global;
pub use stored::Stored;

/// What a browser makes of a cookie.
#[repr(C)]
#[derive(Clone, Copy, Default)]
pub struct Explanation {
    /// The number of a `Status`. If it is neither `Status::Done` nor `Status::BufferTooShort`, all else is 0.
    pub status: u32,
    /// 0 if the browser stores the cookie, and else the number of the step that refuses it: of `Refusal`, from 1 on.
    pub refusal: u32,
    /// Where the sentence of the refusal is in the buffer.
    pub sentence: Span,
    /// Where the title of its section of RFC 6265bis is in the buffer, right after the sentence.
    pub section: Span,
    /// The cookie that is stored; all its fields are 0 if it is refused.
    pub stored: Stored,
}

/// Explains what a browser that stores no cookie yet makes of the value of a `Set-Cookie` header (RFC 6265bis). If a
/// step refuses it, one sentence on that is for the buffer, and right after it the title of the step's section. Else
/// the name, the value, the domain and the path of the stored cookie are for the buffer. If the buffer is too short for
/// all, nothing is written, and the status is `Status::BufferTooShort`; all else is as it would be with room for all.
/// `now` is the time in seconds since 1970 in UTC. The rules are as before.
///
/// Refuses a handle without rules, and then a time after 9999-12-30 22:00:00. It may also run out of memory.
#[unsafe(no_mangle)]
pub extern "C" fn cookie_explain(
    alloc: Global,
    suffixes: &mut crate::suffixes::Suffixes,
    request: &Request<'_>,
    text: &[u8],
    now: u64,
    out: &mut [u8],
) -> Explanation
    ensures kept { suffixes_of suffixes.new ≡ suffixes_of suffixes.old }
    ensures explained { IsExplainedBy (suffixes_of suffixes.old) request.now text.now now
        result out.old out.new }
{
    with_content!(alloc, suffixes.handle,
        Suffixes(rules) => explain(alloc, rules, request, text, now, out),
        _ => Explanation::none(Status::NoSuffixes),
    )
}

fn explain(
    alloc: Global,
    suffixes: &Suffixes,
    request: &Request<'_>,
    text: &[u8],
    now: u64,
    out: &mut [u8],
) -> Explanation
    ensures { IsExplained request.now text.now now suffixes.now result out.old out.new }
{
    let Some(now) = time_at(now) else {
        return Explanation::none(Status::NoDate);
    };
    match Draft::of(alloc, suffixes, request.as_seen(), text, now) {
        Ok(draft) => draft.give(out),
        Err(_) => Explanation::none(Status::OutOfMemory),
    }
}

impl Explanation {
    // What a refused call returns: it explains nothing.
    pub(crate) fn none(why: Status) -> Explanation
        ensures { result ≡ unexplained why }
    {
        Explanation {
            status: why.code(),
            ..Explanation::default()
        }
    }
}
