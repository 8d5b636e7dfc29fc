//! What a browser makes of a `Set-Cookie` text: how it is read, and which step refuses it (RFC 6265bis).
#![tactic(auto)]

mod attributes;
mod beyond;
mod browser_choices;
mod bytes;
mod domain;
mod enforcement;
mod expiry;
mod kept_cookie;
mod received;
mod refusal;
mod refused;
mod request;
mod suffixes;

pub use attributes::ReceivedAttributes;
pub use beyond::{Beyond, is_partitioned, refused_beyond};
pub use browser_choices::BrowserChoices;
pub use domain::ascii_domain;
pub use enforcement::Enforcement;
pub use expiry::Expiry;
pub use kept_cookie::{KeptCookie, allows};
pub use received::Received;
pub use refusal::Refusal;
pub use refused::{refused_by, refused_with};
pub use request::{BrowserRequest, folder_of, is_in_domain, is_under_path};
pub use suffixes::Suffixes;
