//! What plays the rows on user agents.
#![tactic(auto)]

mod agent;

pub use agent::Agents;
