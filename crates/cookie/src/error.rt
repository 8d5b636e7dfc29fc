//! One error for the calls of one cookie, of keys and of jars.
ghost use Rattle.std.specs.Prelude.{◌≡◌};
ghost use Rattle.cookie.specs.declared.error.Error.TheVariants as failure;

use crate::jar_error::JarError;
use crate::secure::KeyError;
use crate::texts_error::TextsError;
use cookie_core::ParseError;
use std::alloc::{AllocError, AllocFailed};
use std::{error, fmt};

/// Why a call failed, for a function that reads texts, makes keys and changes jars: `?` converts their errors to it.
///
/// Out of memory is one case, whichever call ran out of it.
#[derive(Clone, Copy, Debug, PartialEq, Eq)]
pub enum Error {
    /// Memory ran out.
    OutOfMemory,
    /// A text is no cookie (RFC 6265 5.2).
    Parse(ParseError),
    /// Bytes make no key.
    Key(KeyError),
    /// A private jar sealed nothing: `TooLong` or `Generator`.
    Jar(JarError),
    /// A path or a domain is no attribute value: `set_cookie_texts` refuses it.
    InvalidValue,
}

impl fmt::Display for Error {
    ghost use Rattle.std.specs.Prelude.{Some};
    ghost use Rattle.cookie.specs.Error.{failure_text};

    ghost output = { λ e. Some (failure_text e) };

    fn fmt<W: fmt::Write>(&self, f: &mut fmt::Formatter<W>) -> fmt::Result {
        match self {
            Error::OutOfMemory => f.write_str("out of memory"),
            Error::Parse(error) => write!(f, "{error}"),
            Error::Key(error) => write!(f, "{error}"),
            Error::Jar(error) => write!(f, "{error}"),
            Error::InvalidValue => {
                f.write_str("a cookie's path or domain is no attribute value")
            }
        }
    }
}

impl error::Error for Error {}

impl From<AllocError> for Error {
    ghost from_gives = { λ _ e. e ≡ failure.OutOfMemory };

    fn from(_error: AllocError) -> Error {
        Error::OutOfMemory
    }
}

impl<T: Drop> From<AllocFailed<T>> for Error {
    ghost from_gives = { λ _ e. e ≡ failure.OutOfMemory };

    fn from(_error: AllocFailed<T>) -> Error {
        Error::OutOfMemory
    }
}

impl From<ParseError> for Error {
    ghost use Rattle.cookie.specs.Error.{parse_failure};

    ghost from_gives = { λ error e. e ≡ parse_failure error };

    fn from(error: ParseError) -> Error {
        match error {
            ParseError::OutOfMemory => Error::OutOfMemory,
            ParseError::MissingPair | ParseError::EmptyName | ParseError::Utf8Error(_) => {
                Error::Parse(error)
            }
        }
    }
}

impl From<KeyError> for Error {
    ghost from_gives = { λ error e. e ≡ failure.Key error };

    fn from(error: KeyError) -> Error {
        Error::Key(error)
    }
}

impl From<JarError> for Error {
    ghost use Rattle.cookie.specs.Error.{jar_failure};

    ghost from_gives = { λ error e. e ≡ jar_failure error };

    fn from(error: JarError) -> Error {
        match error {
            JarError::OutOfMemory => Error::OutOfMemory,
            JarError::TooLong | JarError::Generator => Error::Jar(error),
        }
    }
}

impl From<TextsError> for Error {
    ghost use Rattle.cookie.specs.Error.{texts_failure};

    ghost from_gives = { λ error e. e ≡ texts_failure error };

    fn from(error: TextsError) -> Error {
        match error {
            TextsError::OutOfMemory => Error::OutOfMemory,
            TextsError::InvalidValue => Error::InvalidValue,
        }
    }
}
