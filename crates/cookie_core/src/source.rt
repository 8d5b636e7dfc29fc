//! What a cookie was read from.
ghost use Rattle.std.specs.Prelude.{◌≡◌, IfOk, string_bytes};
ghost use Rattle.std.specs.Arc.{arc_value};
ghost use Rattle.cookie_core.specs.CookieStr.{source_bytes, IsNotLent, IsSameSource};
ghost use Rattle.cookie_core.specs.Spans.{StandsIn, span_text};

use crate::shared_text::SharedText;
use crate::span::Span;
use std::alloc::{AllocError, Global};
use std::sync::Arc;

/// What a cookie was read from.
#[derive(Drop)]
pub(crate) enum Source<'c> {
    None,
    Borrowed(&'c str),
    Owned(String),
    Shared(SharedText),
}

impl<'c> Source<'c> {
    pub(crate) fn as_str(&self) -> &str
        ensures { result.now ≡ source_bytes self.now }
    {
        match self {
            Source::None => "",
            Source::Borrowed(text) => text,
            Source::Owned(text) => text.as_str(),
            Source::Shared(text) => text.as_str(),
        }
    }

    // The piece of the text, shared, or copied if there is no memory to share it.
    #[inline(always)]
    pub(crate) fn shared(
        alloc: Global,
        whole: &Arc<String, Global>,
        piece: Span,
    ) -> Result<Source<'c>, AllocError>
        requires { StandsIn (string_bytes (arc_value whole.now)) piece }
        ensures bytes { IfOk result (λ s.
            source_bytes s ≡ span_text (string_bytes (arc_value whole.now)) piece) }
        ensures own { IfOk result IsNotLent }
    {
        match SharedText::at(whole, piece) {
            Ok(text) => Ok(Source::Shared(text)),
            Err(_) => {
                let text = &whole.as_str()[piece.start..piece.end];
                Ok(Source::Owned(String::from_str(alloc, text)?))
            }
        }
    }

    pub(crate) fn into_owned(self, alloc: Global) -> Result<Source<'static>, AllocError>
        ensures bytes { IfOk result (λ s. source_bytes s ≡ source_bytes self.entry) }
        ensures own { IfOk result IsNotLent }
    {
        match self {
            Source::None => Ok(Source::None),
            Source::Borrowed(text) => Ok(Source::Owned(String::from_str(alloc, text)?)),
            Source::Owned(text) => Ok(Source::Owned(text)),
            Source::Shared(text) => Ok(Source::Shared(text)),
        }
    }

    pub(crate) fn clone(&self, alloc: Global) -> Result<Source<'c>, AllocError>
        ensures { IfOk result (IsSameSource self.now) }
    {
        match self {
            Source::None => Ok(Source::None),
            Source::Borrowed(text) => Ok(Source::Borrowed(text)),
            Source::Owned(text) => Ok(Source::Owned(String::from_str(alloc, text.as_str())?)),
            Source::Shared(text) => Ok(Source::Shared(text.clone()?)),
        }
    }
}
