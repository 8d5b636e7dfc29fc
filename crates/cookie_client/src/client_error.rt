//! Why a client's call fails.
ghost use Rattle.std.specs.Prelude.{◌≡◌};
ghost use Rattle.cookie.specs.declared.error.Error.TheVariants as failure;
ghost use Rattle.cookie_client.specs.declared.client_error.ClientError.TheVariants as refusal;

use std::alloc::{AllocError, AllocFailed};
use std::error::Error;
use std::fmt;

/// Why a client's call fails.
#[derive(Clone, Copy, Debug, PartialEq, Eq)]
pub enum ClientError {
    /// Memory ran out.
    OutOfMemory,
}

impl fmt::Display for ClientError {
    ghost use Rattle.std.specs.Prelude.{Some, codes};

    ghost output = { λ _. Some (codes "out of memory") };

    fn fmt<W: fmt::Write>(&self, f: &mut fmt::Formatter<W>) -> fmt::Result {
        f.write_str("out of memory")
    }
}

impl Error for ClientError {}

impl From<AllocError> for ClientError {
    ghost from_gives = { λ _ e. e ≡ refusal.OutOfMemory };

    fn from(_error: AllocError) -> ClientError {
        ClientError::OutOfMemory
    }
}

impl<T: Drop> From<AllocFailed<T>> for ClientError {
    ghost from_gives = { λ _ e. e ≡ refusal.OutOfMemory };

    fn from(_error: AllocFailed<T>) -> ClientError {
        ClientError::OutOfMemory
    }
}

impl From<ClientError> for AllocError {
    fn from(_error: ClientError) -> AllocError {
        AllocError
    }
}

impl From<ClientError> for cookie::Error {
    ghost from_gives = { λ _ e. e ≡ failure.OutOfMemory };

    fn from(_error: ClientError) -> cookie::Error {
        cookie::Error::OutOfMemory
    }
}
