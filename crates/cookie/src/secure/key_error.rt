//! Why there is no key.
use std::error::Error;
use std::fmt;

/// Why bytes make no key.
#[derive(Clone, Copy, Debug, PartialEq, Eq)]
pub enum KeyError {
    /// The key has this many bytes, fewer than 64.
    TooShort(usize),
    /// The master key has this many bytes, fewer than 32.
    MasterTooShort(usize),
}

impl fmt::Display for KeyError {
    ghost use Rattle.std.specs.Prelude.{Some};
    ghost use Rattle.cookie.specs.KeyError.{key_refusal_text};

    ghost output = { λ e. Some (key_refusal_text e) };

    fn fmt<W: fmt::Write>(&self, f: &mut fmt::Formatter<W>) -> fmt::Result {
        match self {
            KeyError::TooShort(count) => write!(
                f,
                "key material is too short: expected >= 64 bytes, got {count} bytes"
            ),
            KeyError::MasterTooShort(count) => write!(
                f,
                "master key is too short: expected >= 32 bytes, got {count} bytes"
            ),
        }
    }
}

impl Error for KeyError {}
