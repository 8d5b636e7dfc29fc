//! What plays the rows on browsers, on what they do beyond the standard, and on public suffixes. Players of user agents
//! share with it URLs, requests and refusals in the words of the rows.
#![tactic(auto)]

mod browser;
mod browsing;
mod choices;

pub use browser::{Browser, SuffixList};
pub use browsing::{context_of, limits, outcome, site_of};
pub use choices::Choosers;
