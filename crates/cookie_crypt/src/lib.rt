//! HMAC-SHA256, its expansion, and AES-256-GCM, for the signed and private values of cookies.
#![tactic(auto)]

mod aes;
mod block;
mod block_field;
mod equal;
mod expand;
mod gcm;
mod ghash;
mod lanes;
mod mac;
mod multiples;
mod prepared_gcm;
mod sealing;
mod steps;

pub use aes::Aes256;
pub use equal::are_equal;
pub use expand::expand64;
pub use gcm::Gcm;
pub use mac::{Mac, hmac};
pub use prepared_gcm::PreparedGcm;
pub use sealing::{LONGEST_DATA, LONGEST_TEXT};
pub use steps::Steps;
