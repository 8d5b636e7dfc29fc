//! Cookies and the jar that keeps them: original cookies, and the changes since (RFC 6265).
#![tactic(auto)]

mod attribute_value;
mod child;
mod delta;
mod delta_texts;
mod entries;
mod entry;
mod error;
mod field;
mod header;
mod iter;
mod jar;
mod jar_error;
mod name_hash;
mod name_key;
mod original;
pub mod prefix;
mod secure;
mod table;
mod text_map;
mod texts_error;

pub use attribute_value::{fits_field, is_attribute_value};
pub use child::{ChildJar, Storing};
pub use cookie_core::{
    Attributes, Builder, Cookie, CookieBuilder, DateText, Display, EncodedText, EnforcedPrefix,
    Expiration, Guards, Layout, MOST_BYTES, ParseError, SameSite, Span, SplitCookies,
    begins_in_any_case, days_after, encode, is_escaped, is_named_as_sent, read_date, trim_wsp,
};
pub use cookie_crypt::are_equal;
pub use error::Error;
pub use field::field_cookies;
pub use iter::{Delta, Iter};
pub use jar::CookieJar;
pub use jar_error::JarError;
pub use secure::{
    Key, KeyError, PrivateJar, PrivateJarMut, SealedText, SealedUrlText, Sealer, SignedJar,
    SignedJarMut, Signer,
};
pub use text_map::{Pairs, TextMap};
pub use texts_error::TextsError;
