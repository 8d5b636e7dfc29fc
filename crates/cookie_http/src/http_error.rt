//! Why cookies can't be carried to or from a header map.
ghost use Rattle.std.specs.Prelude.{◌≡◌};
ghost use Rattle.cookie_http.specs.declared.http_error.HttpError.TheVariants as refusal;

use http_header::HeaderMapError;
use std::alloc::{AllocError, AllocFailed};
use std::error::Error;
use std::fmt;

/// Why cookies can't be carried to or from a header map.
#[derive(Clone, Copy, Debug, PartialEq, Eq)]
pub enum HttpError {
    /// Memory ran out.
    OutOfMemory,
    /// A cookie's path or domain holds a control character, such as a line break, or a `;` (RFC 6265 4.1.1).
    InvalidValue,
    /// The map has no room: it has 24,576 names, none of them `Set-Cookie`, or it can't count the values.
    TooManyFields,
}

impl fmt::Display for HttpError {
    ghost use Rattle.std.specs.Prelude.{Some};
    ghost use Rattle.cookie_http.specs.HttpError.{http_refusal_text};

    ghost output = { λ e. Some (http_refusal_text e) };

    ghost styled_output = { λ e _. Some (http_refusal_text e) };

    fn fmt<W: fmt::Write>(&self, f: &mut fmt::Formatter<W>) -> fmt::Result {
        f.write_str(match self {
            HttpError::OutOfMemory => "out of memory",
            HttpError::InvalidValue => "a cookie's path or domain is no attribute value",
            HttpError::TooManyFields => "too many header fields",
        })
    }
}

impl Error for HttpError {}

impl From<AllocError> for HttpError {
    ghost from_gives = { λ _ e. e ≡ refusal.OutOfMemory };

    fn from(_error: AllocError) -> HttpError {
        HttpError::OutOfMemory
    }
}

impl<T: Drop> From<AllocFailed<T>> for HttpError {
    ghost from_gives = { λ _ e. e ≡ refusal.OutOfMemory };

    fn from(_error: AllocFailed<T>) -> HttpError {
        HttpError::OutOfMemory
    }
}

impl From<HeaderMapError> for HttpError {
    ghost use Rattle.cookie_http.specs.HttpError.{refusal_of};

    ghost from_gives = { λ error e. e ≡ refusal_of error };

    fn from(error: HeaderMapError) -> HttpError {
        match error {
            HeaderMapError::MaxSizeReached => HttpError::TooManyFields,
            HeaderMapError::OutOfMemory => HttpError::OutOfMemory,
        }
    }
}
