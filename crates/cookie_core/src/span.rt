//! Where a part of a text is.
ghost use Rattle.std.specs.Prelude.{◌≡◌, ◌≤◌, true, List, ℕ, length, take};
ghost use Rattle.std.specs.Char.{is_not_whitespace};
ghost use Rattle.std.specs.Str.{NoCharPasses, trim};
ghost use Rattle.cookie_core.specs.Spans.{StandsIn, span_text};
ghost use Rattle.cookie_core.specs.Graphic.{HasGraphicEnds};
ghost use Rattle.cookie_core.specs.Trim.{IsTrimmed, IsBarePart};

/// Where a part of a text begins and ends, in bytes.
#[derive(Clone, Copy)]
pub struct Span {
    /// Its first byte.
    pub start: usize,
    /// The byte after its last.
    pub end: usize,
}

impl Span {
    /// The span of the text without the white space at its ends (RFC 6265 5.2, and here Unicode White_Space).
    pub fn trim(text: &str) -> Span
        ensures stands { StandsIn text.now result }
        ensures text { span_text text.now result ≡ trim text.now }
        ensures before { NoCharPasses is_not_whitespace (take result.start text.now) }
        ensures trimmed { IsTrimmed text.now (span_text text.now result) }
        ensures only { (part : List ℕ) → IsTrimmed text.now part
            → part ≡ span_text text.now result }
        ensures longest { (part : List ℕ) → IsBarePart text.now part
            → length part ≤ length (span_text text.now result) }
    {
        if is_trimmed(text.as_bytes()) {
            return Span {
                start: 0,
                end: text.len(),
            };
        }
        let kept = text.trim_start();
        let start = text.len() - kept.len();
        Span {
            start,
            end: start + kept.trim_end().len(),
        }
    }
}

// Whether the text begins and ends with graphic ASCII, as most do. Then there is nothing to trim.
fn is_trimmed(text: &[u8]) -> bool
    ensures { result ≡ true → HasGraphicEnds text.now }
{
    match text {
        [first, .., last] => first.is_ascii_graphic() && last.is_ascii_graphic(),
        _ => false,
    }
}
