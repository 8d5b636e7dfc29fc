//! What plays the rows on the cipher.
#![tactic(auto)]

mod cipher;

pub use cipher::Cipher;
