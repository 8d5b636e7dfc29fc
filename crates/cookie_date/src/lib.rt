//! The dates of cookies: reading them in their four forms, printing them in one, and adding days.
#![tactic(auto)]

mod browser_date;
mod days;
mod fields;
mod forms;
mod found;
mod reader;
mod text;
mod tokens;

pub use browser_date::read_cookie_date;
pub use days::days_after;
pub use forms::read_date;
pub use text::DateText;
