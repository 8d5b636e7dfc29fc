//! Cookies in the header maps of requests and responses.
#![tactic(auto)]

mod http_error;
mod removal;
mod request;
mod response;

pub use http_error::HttpError;
pub use removal::remove_as_set;
pub use request::{jar_from_headers, with_headers};
pub use response::append_delta;
