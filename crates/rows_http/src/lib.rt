//! What plays the rows on header maps, and on the texts of refusals.
#![tactic(auto)]

mod http;
mod refusals;

pub use http::Headers;
pub use refusals::Refusals;
