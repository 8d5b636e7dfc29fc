//! Why a text is no cookie.
ghost use Rattle.std.specs.Prelude.{◌≡◌};
ghost use Rattle.cookie_core.specs.ParseError.{error_text};
ghost use Rattle.cookie_core.specs.declared.parse_error.ParseError.TheVariants as refusal;

use std::alloc::{AllocError, AllocFailed};
use std::error::Error;
use std::fmt;
use std::str::Utf8Error;

/// Why a text is no cookie.
#[derive(Clone, Copy, Debug, PartialEq, Eq)]
pub enum ParseError {
    /// The first piece holds no `=`.
    MissingPair,
    /// The name is empty.
    EmptyName,
    /// The decoded name, or else the decoded value, isn't UTF-8. The fault's place counts decoded bytes.
    Utf8Error(Utf8Error),
    /// There was no memory for an owned string.
    OutOfMemory,
}

impl ParseError {
    /// The text of the error.
    pub fn as_str(&self) -> &'static str
        ensures { result.now ≡ error_text self.now }
    {
        match self {
            ParseError::MissingPair => "the cookie is missing a name/value pair",
            ParseError::EmptyName => "the cookie's name is empty",
            ParseError::Utf8Error(_) => {
                "decoding the cookie's name or value resulted in invalid UTF-8"
            }
            ParseError::OutOfMemory => "memory ran out while reading the cookie",
        }
    }
}

impl fmt::Display for ParseError {
    ghost use Rattle.std.specs.Prelude.{Some};
    ghost use Rattle.cookie_core.specs.ParseError.{error_text};

    ghost output = { λ e. Some (error_text e) };

    ghost styled_output = { λ e _. Some (error_text e) };

    fn fmt<W: fmt::Write>(&self, f: &mut fmt::Formatter<W>) -> fmt::Result {
        f.write_str(self.as_str())
    }
}

impl Error for ParseError {}

impl From<Utf8Error> for ParseError {
    ghost from_gives = { λ error e. e ≡ refusal.Utf8Error error };

    fn from(error: Utf8Error) -> ParseError {
        ParseError::Utf8Error(error)
    }
}

impl From<AllocError> for ParseError {
    ghost from_gives = { λ _ error. error ≡ refusal.OutOfMemory };

    fn from(_error: AllocError) -> ParseError {
        ParseError::OutOfMemory
    }
}

impl<T: Drop> From<AllocFailed<T>> for ParseError {
    ghost from_gives = { λ _ error. error ≡ refusal.OutOfMemory };

    fn from(_error: AllocFailed<T>) -> ParseError {
        ParseError::OutOfMemory
    }
}
