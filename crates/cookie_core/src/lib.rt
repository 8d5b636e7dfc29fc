//! Cookies: their record, how a text is read as one, and how they are printed (RFC 6265).
#![tactic(auto)]

mod attributes;
mod builder;
mod cookie;
mod cookie_str;
mod debug;
mod decode;
mod display;
mod encoding;
mod enforced_prefix;
mod escaped_text;
mod expiration;
mod guards;
mod layout;
mod parse_error;
mod part;
mod prefix;
mod quotes;
mod same;
mod same_site;
mod sent_name;
mod shared_text;
mod size;
mod source;
mod span;
mod split;
mod wsp;

pub use attributes::{Attributes, seconds_of_digits};
pub use builder::{Builder, CookieBuilder};
pub use cookie::Cookie;
pub use cookie_date::{DateText, days_after, read_date};
pub use display::Display;
pub use encoding::{EncodedText, encode, is_escaped};
pub use enforced_prefix::EnforcedPrefix;
pub use expiration::Expiration;
pub use guards::Guards;
pub use layout::Layout;
pub use parse_error::ParseError;
pub use prefix::begins_in_any_case;
pub use same_site::SameSite;
pub use sent_name::is_named_as_sent;
pub use size::MOST_BYTES;
pub use span::Span;
pub use split::SplitCookies;
pub use wsp::trim_wsp;
