//! Why a session doesn't return.
ghost use Rattle.std.specs.Prelude.{◌≡◌};
ghost use Rattle.cookie_session.specs.declared.session_error.SessionError.TheVariants as refusal;
ghost use Rattle.cookie_theorems.specs.declared.return_error.ReturnError.TheVariants as failure;

use cookie::JarError;
use cookie_http::HttpError;
use cookie_session::SessionError;
use std::alloc::AllocError;
use std::error::Error;
use std::fmt;

/// Why a session doesn't return over header maps.
#[derive(Clone, Copy, Debug, PartialEq, Eq)]
pub enum ReturnError {
    /// The session isn't saved, or memory ran out before or after that.
    Session(SessionError),
    /// A cookie of the response doesn't fit a field, or memory ran out for a header map.
    Http(HttpError),
}

impl fmt::Display for ReturnError {
    ghost use Rattle.std.specs.Prelude.{Some};
    ghost use Rattle.cookie_theorems.specs.ReturnError.{return_refusal_text};

    ghost output = { λ e. Some (return_refusal_text e) };

    ghost styled_output = { λ e _. Some (return_refusal_text e) };

    fn fmt<W: fmt::Write>(&self, f: &mut fmt::Formatter<W>) -> fmt::Result {
        match self {
            ReturnError::Session(error) => fmt::Display::fmt(error, f),
            ReturnError::Http(error) => fmt::Display::fmt(error, f),
        }
    }
}

impl Error for ReturnError {}

impl From<AllocError> for ReturnError {
    ghost from_gives = { λ _ e. e ≡ failure.Session refusal.OutOfMemory };

    fn from(_error: AllocError) -> ReturnError {
        ReturnError::Session(SessionError::OutOfMemory)
    }
}

impl From<SessionError> for ReturnError {
    ghost from_gives = { λ error e. e ≡ failure.Session error };

    fn from(error: SessionError) -> ReturnError {
        ReturnError::Session(error)
    }
}

impl From<HttpError> for ReturnError {
    ghost from_gives = { λ error e. e ≡ failure.Http error };

    fn from(error: HttpError) -> ReturnError {
        ReturnError::Http(error)
    }
}

impl From<JarError> for ReturnError {
    ghost use Rattle.cookie_session.specs.SessionError.{refusal_of};

    ghost from_gives = { λ error e. e ≡ failure.Session (refusal_of error) };

    fn from(error: JarError) -> ReturnError {
        ReturnError::Session(SessionError::from(error))
    }
}
