//! What child jars return in the words of the rows, and the keys and sources of random bytes that rows are played with.
#![tactic(auto)]

mod calls;
mod children;
mod given;
mod sources;

pub use children::{prefixed, secret};
pub use given::{key_of, test_key};
pub use sources::{Sevens, hash_keys};
