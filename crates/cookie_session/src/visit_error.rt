//! Why the session of a request isn't opened, saved or ended.
ghost use Rattle.std.specs.Prelude.{◌≡◌};
ghost use Rattle.cookie_session.specs.declared.session_error.SessionError.TheVariants as refusal;
ghost use Rattle.cookie_session.specs.declared.visit_error.VisitError.TheVariants as failure;

use crate::open_error::OpenError;
use crate::session_error::SessionError;
use cookie::JarError;
use std::alloc::{AllocError, AllocFailed};
use std::error::Error;
use std::fmt;

/// Why the session of a request isn't opened, saved or ended.
#[derive(Clone, Debug, Drop, PartialEq, Eq)]
pub enum VisitError<E> {
    /// The session isn't started or saved, or memory ran out.
    Session(SessionError),
    /// What the session replaces was over, or revoked already: another request has renewed it since, or logged out. Answer
    /// with 409 (RFC 9110 15.5.10), and set no cookie.
    Gone,
    /// What is revoked couldn't be looked up or kept. Answer with 503 (RFC 9110 15.6.4), and never as if the visitor had
    /// no session.
    Revocations(E),
}

impl<E: fmt::Display> fmt::Display for VisitError<E> {
    fn fmt<W: fmt::Write>(&self, f: &mut fmt::Formatter<W>) -> fmt::Result {
        match self {
            VisitError::Session(error) => write!(f, "{error}"),
            VisitError::Gone => f.write_str("the session was renewed or ended by another request"),
            VisitError::Revocations(error) => {
                write!(f, "whether the session is revoked isn't known: {error}")
            }
        }
    }
}

impl<E: Error> Error for VisitError<E> {}

impl<E> From<SessionError> for VisitError<E> {
    ghost from_gives = { λ error e. e ≡ failure.Session error };

    fn from(error: SessionError) -> VisitError<E> {
        VisitError::Session(error)
    }
}

impl<E> From<OpenError<E>> for VisitError<E> {
    ghost use Rattle.cookie_session.specs.VisitError.{failure_of};

    ghost from_gives = { λ error e. e ≡ failure_of error };

    fn from(error: OpenError<E>) -> VisitError<E> {
        match error {
            OpenError::OutOfMemory => VisitError::Session(SessionError::OutOfMemory),
            OpenError::Revocations(error) => VisitError::Revocations(error),
        }
    }
}

impl<E> From<JarError> for VisitError<E> {
    ghost use Rattle.cookie_session.specs.SessionError.{refusal_of};

    ghost from_gives = { λ error e. e ≡ failure.Session (refusal_of error) };

    fn from(error: JarError) -> VisitError<E> {
        VisitError::Session(SessionError::from(error))
    }
}

impl<E> From<AllocError> for VisitError<E> {
    ghost from_gives = { λ _ e. e ≡ failure.Session refusal.OutOfMemory };

    fn from(_error: AllocError) -> VisitError<E> {
        VisitError::Session(SessionError::OutOfMemory)
    }
}

impl<T: Drop, E> From<AllocFailed<T>> for VisitError<E> {
    ghost from_gives = { λ _ e. e ≡ failure.Session refusal.OutOfMemory };

    fn from(_error: AllocFailed<T>) -> VisitError<E> {
        VisitError::Session(SessionError::OutOfMemory)
    }
}
