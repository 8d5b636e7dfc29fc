//! What plays the rows on jars.
#![tactic(auto)]

mod jars;

pub use jars::Jars;
