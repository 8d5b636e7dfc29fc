//! Where the parts of one cookie's text are (RFC 6265 5.2).
ghost use Rattle.std.specs.Prelude.{◌≡◌, ◌++◌, List, ℕ, None, false, IfOk, option_map};
ghost use Rattle.std.specs.Result.{result_ok};
ghost use Rattle.cookie_core.specs.CookieOf.{cookie_of};
ghost use Rattle.cookie_core.specs.Layout.{laid_out, pair_laid_out, IsLayoutIn};
ghost use Rattle.cookie_core.specs.Parts.{part_text, IsOptionalPartOf};
ghost use Rattle.cookie_core.specs.Pieces.{Lacks, offset_of};
ghost use Rattle.cookie_core.specs.Reads.{Reads};
ghost use Rattle.cookie_core.specs.Settings.{no_attributes};
ghost use Rattle.cookie_core.specs.Spans.{StandsIn};
ghost use Rattle.cookie_core.specs.Walk.{behind};

use crate::attributes::Attributes;
use crate::parse_error::ParseError;
use crate::part::Part;
use crate::span::Span;

/// Where the parts of a cookie's text are, which aren't decoded, and what its attributes are (RFC 6265 5.2).
#[derive(Clone, Copy)]
pub struct Layout {
    /// Where the name is. It isn't empty.
    pub name: Span,
    /// Where the value is.
    pub value: Span,
    /// The attributes.
    pub attributes: Attributes,
}

impl Layout {
    /// Finds where the parts of a cookie's text are (RFC 6265 5.2). It doesn't allocate, and fails as `Cookie::parse`
    /// does.
    pub fn of(text: &str) -> Result<Layout, ParseError>
        ensures reads { Reads false text.now (laid_out text.now result) }
        ensures value { result_ok (laid_out text.now result) ≡ cookie_of false text.now }
        ensures place { IfOk result (IsLayoutIn text.now) }
    {
        let (first, later) = Part::all(text).cut(b';');
        Layout::of_pieces(first, later)
    }

    // The layout of a text without a `;`.
    #[inline(always)]
    pub(crate) fn of_pair(text: &str) -> Result<Layout, ParseError>
        requires { Lacks 59 text.now }
        ensures reads { Reads false text.now (laid_out text.now result) }
        ensures place { IfOk result (IsLayoutIn text.now) }
        ensures unset { IfOk result (λ layout. layout.attributes ≡ no_attributes) }
    {
        Layout::of_pieces(Part::all(text), None)
    }

    // Where the name and the value of a text without a `;` are.
    #[inline(always)]
    pub(crate) fn pair_spans(text: &str) -> Result<(Span, Span), ParseError>
        requires { Lacks 59 text.now }
        ensures reads { Reads false text.now (pair_laid_out text.now result) }
        ensures place { IfOk result (λ spans.
            StandsIn text.now spans.0 × StandsIn text.now spans.1) }
    {
        match Layout::of_pair(text) {
            Ok(layout) => Ok((layout.name, layout.value)),
            Err(error) => Err(error),
        }
    }

    // The layout of a first piece, and of the text after its `;`.
    #[inline(always)]
    fn of_pieces(first: Part<'_>, later: Option<Part<'_>>) -> Result<Layout, ParseError>
        requires apart { Lacks 59 (part_text first) }
        requires start { first.span.start ≡ 0 }
        requires end { first.span.end ≡ offset_of 59 first.whole.now }
        requires place { IsOptionalPartOf first.whole.now later }
        ensures reads { (t : List ℕ)
            → t ≡ part_text first.entry ++ behind (option_map part_text later.entry)
            → Reads false t (laid_out first.entry.whole.now result) }
        ensures place { IfOk result (IsLayoutIn first.entry.whole.now) }
        ensures unset { later.entry ≡ None
            → IfOk result (λ layout. layout.attributes ≡ no_attributes) }
    {
        let (name, value) = first.cut(b'=');
        let Some(value) = value else {
            return Err(ParseError::MissingPair);
        };
        let name = name.trim();
        if name.text().is_empty() {
            return Err(ParseError::EmptyName);
        }
        Ok(Layout {
            name: name.span,
            value: value.trim().span,
            attributes: Attributes::read(first.whole, Part::span_of(later)),
        })
    }
}
