//! Why a text has no keys.
ghost use Rattle.std.specs.Prelude.{◌≡◌};
ghost use Rattle.cookie_session.specs.declared.key_text_error.KeyTextError.TheVariants as refusal;

use std::alloc::{AllocError, AllocFailed};
use std::error::Error;
use std::fmt;

/// Why `KeyRing::from_text` made no ring. A place is the number of a key in the text: the first has 0.
#[derive(Clone, Copy, Debug, PartialEq, Eq)]
pub enum KeyTextError {
    /// Memory ran out.
    OutOfMemory,
    /// The text has no key.
    Missing,
    /// The key at this place isn't padded base64 (RFC 4648 4).
    NotBase64(usize),
    /// The key at this place has this many bytes, fewer than 64.
    TooShort(usize, usize),
}

impl fmt::Display for KeyTextError {
    ghost use Rattle.std.specs.Prelude.{Some};
    ghost use Rattle.cookie_session.specs.KeyText.{key_refusal_text};

    ghost output = { λ e. Some (key_refusal_text e) };

    fn fmt<W: fmt::Write>(&self, f: &mut fmt::Formatter<W>) -> fmt::Result {
        match self {
            KeyTextError::OutOfMemory => f.write_str("out of memory"),
            KeyTextError::Missing => f.write_str("no key"),
            KeyTextError::NotBase64(place) => write!(f, "key {place} is no padded base64"),
            KeyTextError::TooShort(place, _) => {
                write!(f, "key {place} is too short: expected >= 64 bytes")
            }
        }
    }
}

impl Error for KeyTextError {}

impl From<AllocError> for KeyTextError {
    ghost from_gives = { λ _ e. e ≡ refusal.OutOfMemory };

    fn from(_error: AllocError) -> KeyTextError {
        KeyTextError::OutOfMemory
    }
}

impl<T: Drop> From<AllocFailed<T>> for KeyTextError {
    ghost from_gives = { λ _ e. e ≡ refusal.OutOfMemory };

    fn from(_error: AllocFailed<T>) -> KeyTextError {
        KeyTextError::OutOfMemory
    }
}
