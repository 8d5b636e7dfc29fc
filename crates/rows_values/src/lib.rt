//! What plays the rows on values: dates and cookies.
#![tactic(auto)]

pub mod cookies;
mod dates;

pub use dates::Dates;
