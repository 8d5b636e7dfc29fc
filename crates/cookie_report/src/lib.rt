//! What a browser makes of `Set-Cookie` lines, as a text that says it (RFC 6265bis).
#![tactic(auto)]

mod address;
mod bytes;
mod error;
mod paste;
mod session;
mod target;
mod text;
mod time;
mod verdict;

pub use address::Address;
pub use error::ReportError;
pub use text::report;
pub use time::moment;
