//! What plays the rows on sessions and tokens.
#![tactic(auto)]

mod acts;
mod browser;
mod requests;
mod sessions;

pub use sessions::Visitors;
