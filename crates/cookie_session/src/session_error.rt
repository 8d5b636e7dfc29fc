//! Why a session isn't saved.
ghost use Rattle.std.specs.Prelude.{◌≡◌};
ghost use Rattle.cookie_session.specs.declared.session_error.SessionError.TheVariants as refusal;

use cookie::JarError;
use itoa::Buffer;
use std::alloc::{AllocError, AllocFailed};
use std::error::Error;
use std::fmt;

/// Why a session isn't saved. The jar is then as it was.
#[derive(Clone, Copy, Debug, PartialEq, Eq)]
pub enum SessionError {
    /// Memory ran out.
    OutOfMemory,
    /// The name of the site's cookie begins with `__Host-` or `__Secure-`, and the cookie lacks what a browser requires
    /// of such a name (RFC 6265bis 4.1.3). `Secure` must be set itself, though `Partitioned` and `SameSite=None` print
    /// it too.
    Prefix,
    /// Saved now, the session wouldn't live: its lifetime is over, it starts after now, or the site's `idle` is 0.
    Over,
    /// The cookie's name and value have this many bytes as they are printed: more than the 4,096 that a browser takes
    /// (RFC 6265bis 5.7).
    TooLarge(usize),
    /// The session's text is longer than what can be encrypted.
    TooLong,
    /// The generator of random bytes failed.
    Generator,
}

impl fmt::Display for SessionError {
    ghost use Rattle.std.specs.Prelude.{Some};
    ghost use Rattle.cookie_session.specs.SessionError.{session_refusal_text};

    ghost output = { λ e. Some (session_refusal_text e) };

    ghost styled_output = { λ e _. Some (session_refusal_text e) };

    fn fmt<W: fmt::Write>(&self, f: &mut fmt::Formatter<W>) -> fmt::Result {
        match self {
            SessionError::OutOfMemory => f.write_str("out of memory"),
            SessionError::Prefix => {
                f.write_str("the cookie lacks what a browser asks of the prefix of its name")
            }
            SessionError::Over => f.write_str("the session is over"),
            SessionError::TooLarge(count) => {
                f.write_str("the cookie is too large: expected <= 4096 bytes, got ")?;
                f.write_str(Buffer::new().format(*count))?;
                f.write_str(" bytes")
            }
            SessionError::TooLong => f.write_str("the value or name is too long to seal"),
            SessionError::Generator => f.write_str("the generator failed"),
        }
    }
}

impl Error for SessionError {}

impl From<AllocError> for SessionError {
    ghost from_gives = { λ _ e. e ≡ refusal.OutOfMemory };

    fn from(_error: AllocError) -> SessionError {
        SessionError::OutOfMemory
    }
}

impl<T: Drop> From<AllocFailed<T>> for SessionError {
    ghost from_gives = { λ _ e. e ≡ refusal.OutOfMemory };

    fn from(_error: AllocFailed<T>) -> SessionError {
        SessionError::OutOfMemory
    }
}

impl From<JarError> for SessionError {
    ghost use Rattle.cookie_session.specs.SessionError.{refusal_of};

    ghost from_gives = { λ error e. e ≡ refusal_of error };

    fn from(error: JarError) -> SessionError {
        match error {
            JarError::OutOfMemory => SessionError::OutOfMemory,
            JarError::TooLong => SessionError::TooLong,
            JarError::Generator => SessionError::Generator,
        }
    }
}
