//! Texts that cookies share.
ghost use Rattle.std.specs.Prelude.{◌≡◌, IfOk, string_bytes};
ghost use Rattle.std.specs.Arc.{arc_value};
ghost use Rattle.cookie_core.specs.Spans.{StandsIn, span_text};

use crate::span::Span;
use std::alloc::{AllocError, Global};
use std::marker::Model;
use std::sync::Arc;

/// A part of a text that others share. The text is dropped with the last of them.
#[derive(Drop)]
pub(crate) struct SharedText {
    whole: Arc<String, Global>,
    span: Span,
}

// Contracts see the bytes of the part.
impl Model for SharedText {
    ghost use Rattle.std.specs.Prelude.{ℕ, List, string_bytes};
    ghost use Rattle.std.specs.Arc.{arc_value};
    ghost use Rattle.cookie_core.specs.Spans.{StandsIn, span_text};

    ghost Value = { List ℕ };

    ghost view = { λ a. span_text (string_bytes (arc_value a.whole)) a.span };

    ghost invariant = { λ a. StandsIn (string_bytes (arc_value a.whole)) a.span };
}

impl SharedText {
    // The part of the text at the span.
    pub(crate) fn at(whole: &Arc<String, Global>, span: Span) -> Result<SharedText, AllocError>
        requires { StandsIn (string_bytes (arc_value whole.now)) span }
        ensures { IfOk result (λ part.
            part ≡ span_text (string_bytes (arc_value whole.now)) span) }
    {
        let whole = Arc::try_clone(whole)?;
        Ok(SharedText { whole, span })
    }

    pub(crate) fn as_str(&self) -> &str
        ensures { result.now ≡ self.now }
    {
        &self.whole.as_str()[self.span.start..self.span.end]
    }

    // The same part of the same text.
    pub(crate) fn clone(&self) -> Result<SharedText, AllocError>
        ensures { IfOk result (λ part. part ≡ self.now) }
    {
        SharedText::at(&self.whole, self.span)
    }
}
