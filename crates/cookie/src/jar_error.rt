//! Why a jar refuses a call.
ghost use Rattle.std.specs.Prelude.{◌≡◌};
ghost use Rattle.cookie.specs.declared.jar_error.JarError.TheVariants as refusal;

use std::alloc::{AllocError, AllocFailed};
use std::error::Error;
use std::fmt;

/// Why a jar refuses a call. The jar is then as it was.
#[derive(Clone, Copy, Debug, PartialEq, Eq)]
pub enum JarError {
    /// Memory ran out: for the cookie's place, or for a copy of it.
    OutOfMemory,
    /// The value, or the name, is longer than what can be sealed.
    TooLong,
    /// The generator of random bytes failed.
    Generator,
}

impl fmt::Display for JarError {
    ghost use Rattle.std.specs.Prelude.{Some};
    ghost use Rattle.cookie.specs.JarError.{refusal_text};

    ghost output = { λ e. Some (refusal_text e) };

    ghost styled_output = { λ e _. Some (refusal_text e) };

    fn fmt<W: fmt::Write>(&self, f: &mut fmt::Formatter<W>) -> fmt::Result {
        f.write_str(match self {
            JarError::OutOfMemory => "out of memory",
            JarError::TooLong => "the value or name is too long to seal",
            JarError::Generator => "the generator failed",
        })
    }
}

impl Error for JarError {}

impl From<AllocError> for JarError {
    ghost from_gives = { λ _ e. e ≡ refusal.OutOfMemory };

    fn from(_e: AllocError) -> JarError {
        JarError::OutOfMemory
    }
}

impl<T: Drop> From<AllocFailed<T>> for JarError {
    ghost from_gives = { λ _ e. e ≡ refusal.OutOfMemory };

    fn from(_e: AllocFailed<T>) -> JarError {
        JarError::OutOfMemory
    }
}
