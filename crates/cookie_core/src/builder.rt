//! The builder of a cookie.
ghost use Rattle.std.specs.Prelude.{◌≡◌, Some, None, alloc_error, string_bytes};
ghost use Rattle.std.specs.Borrow.{sem};
ghost use Rattle.jiff.specs.Words.{signed_nanos};
ghost use Rattle.cookie_core.specs.Expiration.{capped_expiry};
ghost use Rattle.cookie_core.specs.Lending.{LendsInner};
ghost use Rattle.cookie_core.specs.Memory.{Gives};
ghost use Rattle.cookie_core.specs.Permanent.{permanent};
ghost use Rattle.cookie_core.specs.Record.{plain, no_raw_forms, without_leading_dot};
ghost use Rattle.cookie_core.specs.Removal.{removal};

use crate::cookie::Cookie;
use crate::expiration::Expiration;
use crate::same_site::SameSite;
use jiff::SignedDuration;
use jiff::civil::DateTime;
use std::alloc::{AllocError, Global};
use std::fmt;
use std::marker::Model;

/// A builder of a value. Contracts see it as the value.
// It is generic so that `inner_mut` returns a value whose type names no lifetime.
#[derive(Debug, Drop)]
pub struct Builder<C> {
    inner: C,
}

impl<C> Model for Builder<C> {
    ghost use Rattle.std.specs.Prelude.{◌≡◌};

    ghost Value = { C };

    ghost view = { λ b. b.inner };
}

impl<C> Builder<C> {
    /// The value as built so far.
    pub fn inner(&self) -> &C
        ensures { result.now ≡ self.now }
    {
        &self.inner
    }

    /// The value as built so far, to change it.
    pub fn inner_mut(&mut self) -> &mut C
        ensures* writes_back { sem 𝓛 (LendsInner C.row self.entry result) }
        ensures value { result.now ≡ self.old }
    {
        &mut self.inner
    }

    /// Returns the built value.
    /// Example: `sign_in` in crates/cookie_examples/src/session.rt.
    pub fn build(self) -> C
        ensures { result ≡ self }
    {
        self.inner
    }

    /// Returns the built value, as [`Builder::build`] does.
    pub fn finish(self) -> C
        ensures { result ≡ self }
    {
        self.build()
    }
}

/// A builder of a cookie. Each call sets one field, as the setter of that name does.
pub type CookieBuilder<'c> = Builder<Cookie<'c>>;

impl<'c> Builder<Cookie<'c>> {
    /// A builder of a cookie with this name and value, and no attribute.
    /// Example: `sign_in` in crates/cookie_examples/src/session.rt.
    pub fn new(name: &'c str, value: &'c str) -> CookieBuilder<'c>
        ensures { result ≡ record { fields = plain name.now value.now; raw = no_raw_forms } }
    {
        Cookie::build(Cookie::new(name, value))
    }

    /// Sets the expiry, whose date and time is in UTC (RFC 6265 4.1.2.1). A time after 9999-12-31 23:59:59.999999
    /// counts as that time. Whole seconds are printed.
    pub fn expires(mut self, when: Expiration) -> CookieBuilder<'c>
        ensures fields { result.fields
            ≡ record self.entry.fields { expires = Some (capped_expiry when) } }
        ensures raw { result.raw ≡ self.entry.raw }
    {
        self.inner.set_expires(when);
        self
    }

    /// Sets the age from now on after which the cookie expires (RFC 6265 5.2.2). Its whole seconds are printed and
    /// looked at, truncated toward zero.
    pub fn max_age(mut self, age: SignedDuration) -> CookieBuilder<'c>
        ensures fields { result.fields
            ≡ record self.entry.fields { max_age = Some (signed_nanos age) } }
        ensures raw { result.raw ≡ self.entry.raw }
    {
        self.inner.set_max_age(Some(age));
        self
    }

    /// Sets the domain, without one leading dot (RFC 6265 4.1.2.3, 5.2.3).
    pub fn domain(mut self, domain: &'c str) -> CookieBuilder<'c>
        ensures fields { result.fields
            ≡ record self.entry.fields { domain = Some (without_leading_dot domain.now) } }
        ensures raw { result.raw ≡ record self.entry.raw { domain = None } }
    {
        self.inner.set_domain(domain);
        self
    }

    /// Sets the path (RFC 6265 4.1.2.4).
    /// Example: `sign_in` in crates/cookie_examples/src/session.rt.
    pub fn path(mut self, path: &'c str) -> CookieBuilder<'c>
        ensures fields { result.fields ≡ record self.entry.fields { path = Some path.now } }
        ensures raw { result.raw ≡ record self.entry.raw { path = None } }
    {
        self.inner.set_path(path);
        self
    }

    /// Sets the domain to an owned string, without one leading dot (RFC 6265 4.1.2.3, 5.2.3). It doesn't allocate.
    pub fn domain_owned(mut self, domain: String) -> CookieBuilder<'c>
        ensures fields { result.fields ≡ record self.entry.fields {
          domain = Some (without_leading_dot (string_bytes domain));
        } }
        ensures raw { result.raw ≡ record self.entry.raw { domain = None } }
    {
        self.inner.set_domain_owned(domain);
        self
    }

    /// Sets the path to an owned string (RFC 6265 4.1.2.4). It doesn't allocate.
    pub fn path_owned(mut self, path: String) -> CookieBuilder<'c>
        ensures fields { result.fields
            ≡ record self.entry.fields { path = Some (string_bytes path) } }
        ensures raw { result.raw ≡ record self.entry.raw { path = None } }
    {
        self.inner.set_path_owned(path);
        self
    }

    /// Sets whether the cookie is for secure connections only (RFC 6265 4.1.2.5).
    pub fn secure(mut self, value: bool) -> CookieBuilder<'c>
        ensures fields { result.fields ≡ record self.entry.fields { secure = Some value } }
        ensures raw { result.raw ≡ self.entry.raw }
    {
        self.inner.set_secure(Some(value));
        self
    }

    /// Sets whether scripts are kept from the cookie (RFC 6265 4.1.2.6).
    pub fn http_only(mut self, value: bool) -> CookieBuilder<'c>
        ensures fields { result.fields ≡ record self.entry.fields { http_only = Some value } }
        ensures raw { result.raw ≡ self.entry.raw }
    {
        self.inner.set_http_only(Some(value));
        self
    }

    /// Sets to which requests from other sites the cookie is sent (RFC 6265bis 4.1.2.7).
    pub fn same_site(mut self, value: SameSite) -> CookieBuilder<'c>
        ensures fields { result.fields ≡ record self.entry.fields { same_site = Some value } }
        ensures raw { result.raw ≡ self.entry.raw }
    {
        self.inner.set_same_site(Some(value));
        self
    }

    /// Sets whether the cookie is kept apart for each top-level site.
    pub fn partitioned(mut self, value: bool) -> CookieBuilder<'c>
        ensures fields { result.fields ≡ record self.entry.fields { partitioned = Some value } }
        ensures raw { result.raw ≡ self.entry.raw }
    {
        self.inner.set_partitioned(Some(value));
        self
    }

    /// Makes it a cookie that a client keeps for twenty years from `now`, which is in UTC, as
    /// [`Cookie::make_permanent`] does.
    pub fn permanent(mut self, now: DateTime) -> CookieBuilder<'c>
        ensures fields { result.fields ≡ permanent now self.entry.fields }
        ensures raw { result.raw ≡ self.entry.raw }
    {
        self.inner.make_permanent(now);
        self
    }

    /// Makes it a cookie that tells a client to drop the cookie with its name, path and domain, as
    /// [`Cookie::make_removal`] does (RFC 6265 3.1). `now` is in UTC.
    pub fn removal(mut self, now: DateTime) -> CookieBuilder<'c>
        ensures fields { result.fields ≡ removal now self.entry.fields }
        ensures raw { result.raw ≡ record self.entry.raw { value = None } }
    {
        self.inner.make_removal(now);
        self
    }

    /// A copy, with the same raw forms. Fails only with `AllocError`, if out of memory.
    pub fn clone(&self, alloc: Global) -> Result<CookieBuilder<'c>, AllocError>
        ensures { Gives alloc_error result (λ b. b ≡ self.now) }
    {
        Ok(Cookie::build(self.inner.clone(alloc)?))
    }
}

impl<'c> Cookie<'c> {
    /// A builder around the cookie.
    pub fn build(base: Cookie<'c>) -> CookieBuilder<'c>
        ensures { result ≡ base.entry }
    {
        Builder { inner: base }
    }
}

/// Equal if the cookies are.
impl<'c> PartialEq for Builder<Cookie<'c>> {
    ghost use Rattle.cookie_core.specs.Same.{same_cookie, same_cookie-laws};

    ghost eq = { same_cookie };

    ghost laws = { same_cookie-laws };

    fn eq(&self, other: &CookieBuilder<'c>) -> bool {
        self.inner == other.inner
    }
}

/// Prints the cookie.
impl<'c> fmt::Display for Builder<Cookie<'c>> {
    ghost use Rattle.std.specs.Prelude.{true, false};
    ghost use Rattle.cookie_core.specs.Text.{cookie_text};

    ghost output = { λ c. Some (cookie_text false false c.fields) };

    fn fmt<W: fmt::Write>(&self, f: &mut fmt::Formatter<W>) -> fmt::Result {
        let cookie = self.inner();
        write!(f, "{cookie}")
    }
}
