//! Visits to the sites of the rows on sessions: a site's keys and limits, what it keeps as revoked, and its tokens.
#![tactic(auto)]

mod revoked;
mod site;
mod tokens;
mod visitor;
mod visits;

pub use visitor::{Visitor, done_or_why, told};
