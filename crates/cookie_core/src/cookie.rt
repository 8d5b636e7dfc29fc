//! The cookie: its fields, and a copy of it (RFC 6265 5.3).
ghost use Rattle.std.specs.Prelude.{◌≡◌, pos, int_div, [], option_map, alloc_error, OnOk};
ghost use Rattle.cookie_core.specs.Memory.{Gives};
ghost use Rattle.std.specs.Option.{option_and_then};
ghost use Rattle.jiff.specs.Words.{signed_nanos};
ghost use Rattle.cookie_core.specs.Expiration.{datetime_of};
ghost use Rattle.cookie_core.specs.Quotes.{trimmed_value};
ghost use Rattle.cookie_core.specs.Record.{IsCookie, no_raw_forms, plain, without_leading_dot};

pub(crate) mod owned;
mod parse;
mod raw;
mod setters;

use crate::cookie_str::{self, CookieStr};
use crate::expiration::Expiration;
use crate::quotes;
use crate::same_site::SameSite;
use crate::source::Source;
use jiff::SignedDuration;
use jiff::civil::DateTime;
use std::alloc::{AllocError, Global};
use std::marker::Model;

/// A cookie: its name, its value and its attributes (RFC 6265 5.3).
///
/// A cookie that was read from a borrowed text keeps its parts as spans of the text.
#[derive(Drop)]
pub struct Cookie<'c> {
    source: Source<'c>,
    name: CookieStr<'c>,
    value: CookieStr<'c>,
    http_only: Option<bool>,
    secure: Option<bool>,
    partitioned: Option<bool>,
    same_site: Option<SameSite>,
    path: Option<CookieStr<'c>>,
    domain: Option<CookieStr<'c>>,
    max_age: Option<SignedDuration>,
    expires: Option<Expiration>,
}

// Contracts see a cookie as the record of its ten fields, with the parts of a borrowed source that it borrows.
impl<'c> Model for Cookie<'c> {
    ghost use Rattle.cookie_core.specs.Record.{CookieView};

    ghost Value = { CookieView };

    ghost use Rattle.cookie_core.specs.Cookie.{cookie_view, HasFittingTexts};

    ghost view = { cookie_view };

    ghost invariant = { HasFittingTexts };
}

impl<'c> Cookie<'c> {
    /// A cookie with this name and value, and no attribute set.
    /// Example: `respond` in crates/cookie_examples/src/headers.rt.
    pub fn new(name: &'c str, value: &'c str) -> Cookie<'c>
        ensures { result ≡ record { fields = plain name.now value.now; raw = no_raw_forms } }
    {
        Cookie {
            source: Source::None,
            name: CookieStr::Borrowed(name),
            value: CookieStr::Borrowed(value),
            http_only: None,
            secure: None,
            partitioned: None,
            same_site: None,
            path: None,
            domain: None,
            max_age: None,
            expires: None,
        }
    }

    /// A cookie with this name and the empty value.
    pub fn named(name: &'c str) -> Cookie<'c>
        ensures { result ≡ record { fields = plain name.now []; raw = no_raw_forms } }
    {
        Cookie::new(name, "")
    }

    /// A copy, with the same raw forms. Fails only with `AllocError`, if out of memory.
    pub fn clone(&self, alloc: Global) -> Result<Cookie<'c>, AllocError>
        ensures gives { Gives alloc_error result (λ c. c ≡ self.now) }

        // The texts of every cookie are UTF-8, and its age is one that a duration can have.
        ensures cookie { OnOk result (IsCookie self.now.fields) }
    {
        Ok(Cookie {
            source: self.source.clone(alloc)?,
            name: self.name.clone(alloc)?,
            value: self.value.clone(alloc)?,
            http_only: self.http_only,
            secure: self.secure,
            partitioned: self.partitioned,
            same_site: self.same_site,
            path: cookie_str::clone(&self.path, alloc)?,
            domain: cookie_str::clone(&self.domain, alloc)?,
            max_age: self.max_age,
            expires: self.expires,
        })
    }

    /// The name.
    pub fn name(&self) -> &str
        ensures { result.now ≡ self.now.fields.name }
    {
        self.name.as_str(&self.source)
    }

    /// The value.
    /// Example: `user_of` in crates/cookie_examples/src/session.rt.
    pub fn value(&self) -> &str
        ensures { result.now ≡ self.now.fields.value }
    {
        self.value.as_str(&self.source)
    }

    /// The name and the value.
    pub fn name_value(&self) -> (&str, &str)
        ensures name { result.0.now ≡ self.now.fields.name }
        ensures value { result.1.now ≡ self.now.fields.value }

        // The texts of every cookie are UTF-8, and its age is one that a duration can have.
        ensures cookie { IsCookie self.now.fields }
    {
        (
            self.name.as_str(&self.source),
            self.value.as_str(&self.source),
        )
    }

    /// The value without a `"` at both ends if it has both, else the whole value.
    pub fn value_trimmed(&self) -> &str
        ensures { result.now ≡ trimmed_value self.now.fields.value }
    {
        quotes::trim_quotes(self.value())
    }

    /// The name, and the value without a `"` at both ends if it has both.
    pub fn name_value_trimmed(&self) -> (&str, &str)
        ensures name { result.0.now ≡ self.now.fields.name }
        ensures value { result.1.now ≡ trimmed_value self.now.fields.value }
    {
        (self.name(), self.value_trimmed())
    }

    /// Whether scripts are kept from the cookie, if that is set (RFC 6265 4.1.2.6).
    pub fn http_only(&self) -> Option<bool>
        ensures { result ≡ self.now.fields.http_only }
    {
        self.http_only
    }

    /// Whether the cookie is for secure connections only, if that is set (RFC 6265 4.1.2.5).
    pub fn secure(&self) -> Option<bool>
        ensures { result ≡ self.now.fields.secure }
    {
        self.secure
    }

    /// Whether the cookie is kept apart for each top-level site, if that is set.
    pub fn partitioned(&self) -> Option<bool>
        ensures { result ≡ self.now.fields.partitioned }
    {
        self.partitioned
    }

    /// To which requests from other sites the cookie is sent, if that is set (RFC 6265bis 4.1.2.7).
    pub fn same_site(&self) -> Option<SameSite>
        ensures { result ≡ self.now.fields.same_site }
    {
        self.same_site
    }

    /// The path, if it is set (RFC 6265 4.1.2.4).
    pub fn path(&self) -> Option<&str>
        ensures { option_map (λ p. p.now) result ≡ self.now.fields.path }
    {
        Some(self.path.as_ref()?.as_str(&self.source))
    }

    /// The domain, if it is set, without one leading dot (RFC 6265 4.1.2.3, 5.2.3).
    pub fn domain(&self) -> Option<&str>
        ensures { option_map (λ d. d.now) result ≡ self.now.fields.domain }
    {
        let domain = self.domain.as_ref()?;
        Some(after_dot(domain.as_str(&self.source)))
    }

    /// The age from now on after which the cookie expires, if it is set (RFC 6265 5.2.2). An age that was read is in
    /// whole seconds, from zero to `i64::MAX`. Of an age that was set, the whole seconds count, truncated toward zero.
    pub fn max_age(&self) -> Option<SignedDuration>
        ensures { option_map signed_nanos result ≡ self.now.fields.max_age }
    {
        self.max_age
    }

    // The age in whole seconds, truncated toward zero.
    pub(crate) fn whole_seconds(&self) -> Option<i64>
        ensures { result ≡ option_map (λ n. int_div n (pos 1000000000)) self.now.fields.max_age }
    {
        Some(self.max_age()?.as_secs())
    }

    /// The expiry, in UTC, if it is set (RFC 6265 4.1.2.1).
    pub fn expires(&self) -> Option<Expiration>
        ensures { result ≡ self.now.fields.expires }
    {
        self.expires
    }

    /// The date and time in UTC at which the cookie expires, if that is set and isn't the end of the session.
    pub fn expires_datetime(&self) -> Option<DateTime>
        ensures { result ≡ option_and_then datetime_of self.now.fields.expires }
    {
        self.expires?.datetime()
    }
}

fn after_dot(domain: &str) -> &str
    ensures { result.now ≡ without_leading_dot domain.now }
{
    match domain.strip_prefix('.') {
        Some(rest) => rest,
        None => domain,
    }
}
