//! Cookies for C, Python and Rust: each export is a call of the crates below over the caller's own buffers.
#![tactic(auto)]

mod agent;
mod all_pairs;
mod answer;
mod attributes;
mod date;
mod decoded;
mod explanation;
mod handle;
mod jar;
mod key;
mod keys;
mod listed;
mod next_piece;
mod pair;
mod print;
mod reading;
mod report;
mod run;
mod sealing;
mod sessions;
mod signing;
mod span;
mod status;
mod suffixes;
mod tokens;
mod url;
mod version;
