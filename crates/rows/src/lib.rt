//! Rows of tests: their steps, the words of cookies and answers, and what plays them.
#![tactic(auto)]

mod answers;
pub mod cookie_words;
mod escapes;
mod flags;
mod row;
mod step;
mod times;

pub use escapes::Escaped;
pub use flags::{debugged, printed};
pub use row::{Row, Wrong, read_rows};
pub use step::{Answer, Player, Step};
pub use times::{after, moment};
