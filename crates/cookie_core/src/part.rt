//! Parts of a text.
ghost use Rattle.std.specs.Prelude.{◌≡◌, ◌<◌, ◌≤◌, ◌+◌, ◌++◌, ◌∷◌, List, ℕ, length, MatchOption, option_map};
ghost use Rattle.std.specs.Str.{trim};
ghost use Rattle.cookie_core.specs.Pieces.{Lacks};
ghost use Rattle.cookie_core.specs.Spans.{StandsIn, span_text};
ghost use Rattle.cookie_core.specs.Trim.{IsTrimmed};

use crate::span::Span;
use memchr::memchr;

/// A part of a text. A ghost field says that the span is in the text.
#[derive(Clone, Copy)]
pub(crate) struct Part<'t> {
    pub(crate) whole: &'t str,
    pub(crate) span: Span,
    pub(crate) ghost stands: { StandsIn whole.now span },
}

impl<'t> Part<'t> {
    ghost use Rattle.cookie_core.specs.Parts.{part_text, IsCut, IsPartOf, IsOptionalPartOf};

    // All of the text.
    pub(crate) fn all(text: &'t str) -> Part<'t>
        ensures place { IsPartOf text.now result }
        ensures text { part_text result ≡ text.now }
        ensures span { (result.span.start ≡ 0) × (result.span.end ≡ length text.now) }
    {
        let span = Span {
            start: 0,
            end: text.len(),
        };
        Part { whole: text, span }
    }

    // The part of the text at the span.
    pub(crate) fn at(text: &'t str, span: Span) -> Part<'t>
        requires { StandsIn text.now span }
        ensures place { IsPartOf text.now result }
        ensures text { part_text result ≡ span_text text.now span }
    {
        Part { whole: text, span }
    }

    // The span of the part, if there is one.
    pub(crate) fn span_of(part: Option<Part<'_>>) -> Option<Span>
        ensures { result ≡ option_map (λ p. p.span) part.entry }
    {
        part.map(|part| part.span)
    }

    pub(crate) fn text(self) -> &'t str
        ensures { result.now ≡ part_text self.entry }
    {
        &self.whole[self.span.start..self.span.end]
    }

    // The part at the span within this one.
    fn inner(self, span: Span) -> Part<'t>
        requires { StandsIn (part_text self) span }
        ensures place { IsPartOf self.entry.whole.now result }
        ensures text { part_text result ≡ span_text (part_text self.entry) span }
        ensures start { result.span.start ≡ self.entry.span.start + span.start }
        ensures end { result.span.end ≡ self.entry.span.start + span.end }
    {
        let start = self.span.start;
        let span = Span {
            start: start + span.start,
            end: start + span.end,
        };
        Part {
            whole: self.whole,
            span,
        }
    }

    // The parts before and after the first `mark`, which is an ASCII character.
    pub(crate) fn cut(self, mark: u8) -> (Part<'t>, Option<Part<'t>>)
        requires { mark < 128 }
        ensures cut { MatchOption result.1 (part_text result.0 ≡ part_text self.entry)
            (λ after. part_text self.entry ≡ part_text result.0 ++ mark ∷ part_text after) }
        ensures before { Lacks mark (part_text result.0) }
        ensures spans { IsCut self.entry.span result.0.span result.1 }
        ensures place { IsPartOf self.entry.whole.now result.0 }
        ensures after_place { IsOptionalPartOf self.entry.whole.now result.1 }
    {
        let text = self.text();
        let Some(at) = memchr(mark, text.as_bytes()) else {
            return (self, None);
        };
        let before = Span { start: 0, end: at };
        let after = Span {
            start: at + 1,
            end: text.len(),
        };
        (self.inner(before), Some(self.inner(after)))
    }

    // The part without white space at its ends.
    pub(crate) fn trim(self) -> Part<'t>
        ensures text { part_text result ≡ trim (part_text self.entry) }
        ensures trimmed { IsTrimmed (part_text self.entry) (part_text result) }
        ensures start { self.entry.span.start ≤ result.span.start }
        ensures end { result.span.end ≤ self.entry.span.end }
        ensures place { IsPartOf self.entry.whole.now result }
    {
        self.inner(Span::trim(self.text()))
    }
}
