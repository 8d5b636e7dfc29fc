//! The attributes of a `Set-Cookie` text, as a browser reads them.
ghost use Rattle.std.specs.Prelude.{◌≡◌, min, option_copied, option_map};
ghost use Rattle.std.specs.Str.{str_to_ascii_lowercase};
ghost use Rattle.cookie_core.specs.Attributes.{seconds_of_digits};
ghost use Rattle.cookie_core.specs.Record.{without_leading_dot};
ghost use Rattle.cookie_browser.specs.Received as spec;
ghost use Rattle.cookie_browser.specs.ReceivedCode.{attributes_view};

use crate::bytes::cut;
use crate::enforcement::Enforcement;
use cookie_core::{seconds_of_digits, trim_wsp};
use cookie_date::read_cookie_date;
use jiff::civil::DateTime;

/// 400 days in seconds (RFC 6265bis, Cookie Lifetime Limits).
pub(crate) const AGE_LIMIT: u32 = 34_560_000;

/// The attributes of a received cookie (RFC 6265bis, The Set-Cookie Header Field). The last attribute of a name counts,
/// but an `Expires` or a `Max-Age` that can't be read is passed over, and so is a value of more than 1024 bytes.
#[derive(Clone, Copy)]
pub struct ReceivedAttributes<'t> {
    /// The age in seconds, from 0 to 400 days.
    pub max_age: Option<u32>,
    /// The date-time of `Expires`, in UTC.
    pub expires: Option<DateTime>,
    /// The value of `Domain`, empty if there is none.
    pub domain: &'t [u8],
    /// The value of `Path`, empty if there is none.
    pub path: &'t [u8],
    /// Whether there is a `Path`.
    pub has_path: bool,
    /// Whether there is a `Secure`.
    pub secure: bool,
    /// Whether there is an `HttpOnly`.
    pub http_only: bool,
    /// The enforcement that `SameSite` names.
    pub same_site: Enforcement,
}

// Whether the text is the word, in any ASCII case.
pub(crate) fn spells(text: &[u8], word: &[u8]) -> bool
    requires { str_to_ascii_lowercase word.now ≡ word.now }
    ensures { result ≡ spec.spells text.now word.now }
{
    text.eq_ignore_ascii_case(word)
}

fn enforcement_of(value: &[u8]) -> Enforcement
    ensures { result ≡ spec.enforcement_of value.now }
{
    if spells(value, b"none") {
        return Enforcement::None;
    }
    if spells(value, b"strict") {
        return Enforcement::Strict;
    }
    if spells(value, b"lax") {
        return Enforcement::Lax;
    }
    Enforcement::Default
}

// The number of the digits, at most 400 days in seconds. `None` if there is no digit, or another byte.
fn seconds(digits: &[u8]) -> Option<u32>
    ensures { result ≡ option_map (λ n. min n spec.age_limit) (seconds_of_digits digits.now) }
{
    let digits = str::from_utf8(digits).ok()?;
    let seconds = seconds_of_digits(digits)?;
    if seconds < i64::from(AGE_LIMIT) {
        Some(seconds as u32)
    } else {
        Some(AGE_LIMIT)
    }
}

// The age of a `Max-Age` value, if it is valid.
fn age_of(value: &[u8]) -> Option<u32>
    ensures { result ≡ spec.age_of value.now }
{
    match value {
        [b'-', digits @ ..] => {
            let _seconds = seconds(digits)?;
            Some(0)
        }
        _ => seconds(value),
    }
}

impl<'t> ReceivedAttributes<'t> {
    /// The value of `Domain` without one leading dot (RFC 6265bis, The Domain Attribute).
    pub fn bare_domain(&self) -> &'t [u8]
        ensures { result.now ≡ without_leading_dot self.now.domain.now }
    {
        match self.domain {
            [b'.', rest @ ..] => rest,
            _ => self.domain,
        }
    }

    fn none() -> ReceivedAttributes<'t>
        ensures { attributes_view result ≡ spec.without_attributes }
    {
        ReceivedAttributes {
            max_age: None,
            expires: None,
            domain: &[],
            path: &[],
            has_path: false,
            secure: false,
            http_only: false,
            same_site: Enforcement::Default,
        }
    }

    // Takes in an attribute of this name and value.
    #[tactic(auto, unfolding(crate::specs::Received::with_attribute))]
    fn take(&mut self, name: &[u8], value: &'t [u8])
        ensures { attributes_view self.new
            ≡ spec.with_attribute (attributes_view self.old) name.now value.now }
    {
        if spells(name, b"expires") {
            self.expires = read_cookie_date(value).or(self.expires);
        } else if spells(name, b"max-age") {
            self.max_age = age_of(value).or(self.max_age);
        } else if spells(name, b"domain") {
            self.domain = value;
        } else if spells(name, b"path") {
            self.path = value;
            self.has_path = true;
        } else if spells(name, b"secure") {
            self.secure = true;
        } else if spells(name, b"httponly") {
            self.http_only = true;
        } else if spells(name, b"samesite") {
            self.same_site = enforcement_of(value);
        }
    }

    // Takes in a piece. One whose value has more than 1024 bytes is passed over.
    #[tactic(auto, unfolding(crate::specs::Received::with_piece))]
    fn take_piece(&mut self, piece: &'t [u8])
        ensures { attributes_view self.new
            ≡ spec.with_piece (attributes_view self.old) piece.now }
    {
        let (name, value) = cut(piece, b'=');
        let value = value_of(value);
        if value.len() <= 1024 {
            self.take(trim_wsp(name), value);
        }
    }

    // The attributes of the text after the first semicolon, if there is one.
    pub(crate) fn read(rest: Option<&'t [u8]>) -> ReceivedAttributes<'t>
        ensures { attributes_view result ≡ spec.attributes_of (option_copied rest.entry) }
    {
        let mut attributes = ReceivedAttributes::none();
        let mut rest = rest;
        while let Some(text) = rest {
            let (piece, after) = cut(text, b';');
            attributes.take_piece(piece);
            rest = after;
        }
        attributes
    }
}

// The value of an attribute, empty if there is no `=`.
pub(crate) fn value_of(value: Option<&[u8]>) -> &[u8]
    ensures { result.now ≡ spec.value_after (option_copied value.entry) }
{
    match value {
        Some(value) => trim_wsp(value),
        None => &[],
    }
}
