//! Spans of a text, or of a buffer, of the caller's.
ghost use Rattle.std.specs.Prelude.{◌≡◌, ◌≤◌, ◌<◌, ◌+◌, ◌^◌};
ghost use Rattle.cookie_c.specs.Spans.{span_after};

/// Where a text is in another one.
#[repr(C)]
#[derive(Clone, Copy, Default)]
pub struct Span {
    /// The number of bytes before it.
    pub start: usize,
    /// The number of its bytes.
    pub length: usize,
}

impl Span {
    // The span of a part of a text that begins at the offset `start`.
    pub(crate) fn after(start: usize, part: cookie::Span) -> Span
        requires forward { part.start ≤ part.end }
        requires fits { start + part.end < 2 ^ 64 }
        ensures { result ≡ span_after start part }
    {
        Span {
            start: start + part.start,
            length: part.end - part.start,
        }
    }
}
