//! Where a cookie's texts are kept.
ghost use Rattle.std.specs.Prelude.{◌≡◌, IfOk, option_map};
ghost use Rattle.cookie_core.specs.CookieStr.{source_bytes, text_bytes, raw_bytes, Fits, IsSameText, IsSameOptionalText};

use crate::source::Source;
use crate::span::Span;
use std::alloc::{AllocError, Global};

/// A text of a cookie: a span of its source, a borrowed string, or an owned string.
#[derive(Drop)]
pub(crate) enum CookieStr<'c> {
    Span(Span),
    Borrowed(&'c str),
    Owned(String),
}

impl<'c> CookieStr<'c> {
    pub(crate) fn as_str<'s>(&'s self, source: &'s Source<'c>) -> &'s str
        requires { Fits (source_bytes source.now) self.now }
        ensures { result.now ≡ text_bytes (source_bytes source.now) self.now }
    {
        match self {
            CookieStr::Span(span) => &source.as_str()[span.start..span.end],
            CookieStr::Borrowed(text) => text,
            CookieStr::Owned(text) => text.as_str(),
        }
    }

    pub(crate) fn raw(&self, source: &Source<'c>) -> Option<&'c str>
        requires { Fits (source_bytes source.now) self.now }
        ensures { option_map (λ r. r.now) result ≡ raw_bytes source.now self.now }
    {
        match (self, source) {
            (CookieStr::Span(span), Source::Borrowed(text)) => Some(&text[span.start..span.end]),
            _ => None,
        }
    }

    pub(crate) fn into_owned(self, alloc: Global) -> Result<CookieStr<'static>, AllocError>
        ensures { IfOk result (IsSameText self.entry) }
    {
        match self {
            CookieStr::Span(span) => Ok(CookieStr::Span(span)),
            CookieStr::Borrowed(text) => Ok(CookieStr::Owned(String::from_str(alloc, text)?)),
            CookieStr::Owned(text) => Ok(CookieStr::Owned(text)),
        }
    }

    pub(crate) fn clone(&self, alloc: Global) -> Result<CookieStr<'c>, AllocError>
        ensures { IfOk result (IsSameText self.now) }
    {
        match self {
            CookieStr::Span(span) => Ok(CookieStr::Span(*span)),
            CookieStr::Borrowed(text) => Ok(CookieStr::Borrowed(text)),
            CookieStr::Owned(text) => Ok(CookieStr::Owned(String::from_str(alloc, text.as_str())?)),
        }
    }
}

// The same text, if there is one, with no borrow.
pub(crate) fn into_owned<'c>(
    text: Option<CookieStr<'c>>,
    alloc: Global,
) -> Result<Option<CookieStr<'static>>, AllocError>
    ensures { IfOk result (IsSameOptionalText text.entry) }
{
    match text {
        Some(text) => Ok(Some(text.into_owned(alloc)?)),
        None => Ok(None),
    }
}

// A copy of the text, if there is one.
pub(crate) fn clone<'c>(
    text: &Option<CookieStr<'c>>,
    alloc: Global,
) -> Result<Option<CookieStr<'c>>, AllocError>
    ensures { IfOk result (IsSameOptionalText text.now) }
{
    match text {
        Some(text) => Ok(Some(text.clone(alloc)?)),
        None => Ok(None),
    }
}

// The text at the span, if there is one.
pub(crate) fn span<'c>(span: Option<Span>) -> Option<CookieStr<'c>>
    ensures { result ≡ option_map (λ p. CookieStr.Span p) span }
{
    Some(CookieStr::Span(span?))
}
