//! Why a run has no text.
ghost use Rattle.std.specs.Prelude.{◌≡◌};
ghost use Rattle.cookie_client.specs.declared.run_error.RunError.TheVariants as refusal;
ghost use Rattle.cookie_client.specs.RunError.{status_of};

use crate::client_error::ClientError;
use std::alloc::{AllocError, AllocFailed};
use thiserror::Error;

/// Why a run of the program fails, with the text that the program prints for it.
#[derive(Debug, Drop, Error)]
pub enum RunError {
    /// The argument is no date of the year 100 or later.
    #[error("cookiejar: bad moment")]
    BadMoment,
    /// The input isn't UTF-8.
    #[error("cookiejar: bad input")]
    BadInput,
    /// The first bad line, counted from 1.
    #[error("cookiejar: bad line {0}")]
    BadLine(usize),
    /// Memory ran out.
    #[error("cookiejar: out of memory")]
    OutOfMemory,
    /// A read failed.
    #[error("cookiejar: input or output failed")]
    Input,
    /// A write failed, or took no byte.
    #[error("cookiejar: input or output failed")]
    Output,
}

impl RunError {
    /// The status that the program ends with: 2 if its argument or its input is bad, 1 if something failed.
    pub fn status(&self) -> u8
        ensures { result ≡ status_of self.now }
    {
        match self {
            RunError::BadMoment | RunError::BadInput | RunError::BadLine(_) => 2,
            RunError::OutOfMemory | RunError::Input | RunError::Output => 1,
        }
    }
}

impl From<AllocError> for RunError {
    ghost from_gives = { λ _ e. e ≡ refusal.OutOfMemory };

    fn from(_error: AllocError) -> RunError {
        RunError::OutOfMemory
    }
}

impl<T: Drop> From<AllocFailed<T>> for RunError {
    ghost from_gives = { λ _ e. e ≡ refusal.OutOfMemory };

    fn from(_error: AllocFailed<T>) -> RunError {
        RunError::OutOfMemory
    }
}

impl From<ClientError> for RunError {
    ghost from_gives = { λ _ e. e ≡ refusal.OutOfMemory };

    fn from(error: ClientError) -> RunError {
        match error {
            ClientError::OutOfMemory => RunError::OutOfMemory,
        }
    }
}
