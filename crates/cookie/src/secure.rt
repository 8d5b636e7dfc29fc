//! Keys, what signs and seals under them, and the jars that need one.

mod key;
mod key_error;
mod nonce;
mod private;
mod purpose;
mod reading;
mod sealed_text;
mod sealed_url_text;
mod sealer;
mod sealing;
mod signed;
mod signer;

pub use key::Key;
pub use key_error::KeyError;
pub use private::{PrivateJar, PrivateJarMut};
pub use sealed_text::SealedText;
pub use sealed_url_text::SealedUrlText;
pub use sealer::Sealer;
pub use signed::{SignedJar, SignedJarMut};
pub use signer::Signer;
