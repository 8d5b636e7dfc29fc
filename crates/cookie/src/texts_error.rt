//! Why the texts of a jar's changes are refused.
ghost use Rattle.std.specs.Prelude.{◌≡◌};
ghost use Rattle.cookie.specs.declared.texts_error.TextsError.TheVariants as refusal;

use std::alloc::{AllocError, AllocFailed};
use std::error::Error;
use std::fmt;

/// Why the texts of a jar's changes are refused.
#[derive(Clone, Copy, Debug, PartialEq, Eq)]
pub enum TextsError {
    /// Memory ran out.
    OutOfMemory,
    /// A cookie's path or domain holds a control character, such as a line break, or a `;` (RFC 6265 4.1.1).
    InvalidValue,
}

impl fmt::Display for TextsError {
    ghost use Rattle.std.specs.Prelude.{Some};
    ghost use Rattle.cookie.specs.TextsError.{texts_refusal_text};

    ghost output = { λ e. Some (texts_refusal_text e) };

    ghost styled_output = { λ e _. Some (texts_refusal_text e) };

    fn fmt<W: fmt::Write>(&self, f: &mut fmt::Formatter<W>) -> fmt::Result {
        f.write_str(match self {
            TextsError::OutOfMemory => "out of memory",
            TextsError::InvalidValue => "a cookie's path or domain is no attribute value",
        })
    }
}

impl Error for TextsError {}

impl From<AllocError> for TextsError {
    ghost from_gives = { λ _ e. e ≡ refusal.OutOfMemory };

    fn from(_error: AllocError) -> TextsError {
        TextsError::OutOfMemory
    }
}

impl<T: Drop> From<AllocFailed<T>> for TextsError {
    ghost from_gives = { λ _ e. e ≡ refusal.OutOfMemory };

    fn from(_error: AllocFailed<T>) -> TextsError {
        TextsError::OutOfMemory
    }
}
