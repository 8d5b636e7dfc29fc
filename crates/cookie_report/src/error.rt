//! Why there is no report.
ghost use Rattle.std.specs.Prelude.{◌≡◌};
ghost use Rattle.cookie_report.specs.declared.error.ReportError.TheVariants as errors;

use std::alloc::{AllocError, AllocFailed};
use thiserror::Error;

/// Why there is no report.
#[derive(Clone, Copy, Debug, PartialEq, Eq, Drop, Error)]
pub enum ReportError {
    /// The address is no URL of `https` or `http` with a host.
    #[error("the address is no URL of https or http with a host")]
    NoUrl,
    /// After the address of a line is another word than `cross-site` or `cross-site-link`.
    #[error("after the address only cross-site or cross-site-link may follow")]
    NoContext,
    /// The time of a line is no date of the years 1970 to 9998.
    #[error("no date of the years 1970 to 9998")]
    NoDate,
    /// Memory ran out.
    #[error("out of memory")]
    OutOfMemory,
}

impl From<AllocError> for ReportError {
    ghost from_gives = { λ _ error. error ≡ errors.OutOfMemory };

    fn from(_error: AllocError) -> ReportError {
        ReportError::OutOfMemory
    }
}

impl<T: Drop> From<AllocFailed<T>> for ReportError {
    ghost from_gives = { λ _ error. error ≡ errors.OutOfMemory };

    fn from(_error: AllocFailed<T>) -> ReportError {
        ReportError::OutOfMemory
    }
}
