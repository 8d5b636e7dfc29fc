//! The setters of a cookie's fields (RFC 6265 5.3).
ghost use Rattle.std.specs.Prelude.{◌≡◌, Some, None, option_map};
ghost use Rattle.jiff.specs.Words.{signed_nanos};
ghost use Rattle.cookie_core.specs.Expiration.{capped_expiry};
ghost use Rattle.cookie_core.specs.Permanent.{permanent};
ghost use Rattle.cookie_core.specs.Record.{without_leading_dot};
ghost use Rattle.cookie_core.specs.Removal.{removal};

use super::Cookie;
use crate::cookie_str::CookieStr;
use crate::expiration::Expiration;
use crate::same_site::SameSite;
use cookie_date::days_after;
use jiff::SignedDuration;
use jiff::civil::DateTime;

impl<'c> Cookie<'c> {
    /// Sets the name.
    pub fn set_name(&mut self, name: &'c str)
        ensures fields { self.new.fields ≡ record self.old.fields { name = name.now } }
        ensures raw { self.new.raw ≡ record self.old.raw { name = None } }
    {
        self.name = CookieStr::Borrowed(name);
    }

    /// Sets the value.
    pub fn set_value(&mut self, value: &'c str)
        ensures fields { self.new.fields ≡ record self.old.fields { value = value.now } }
        ensures raw { self.new.raw ≡ record self.old.raw { value = None } }
    {
        self.value = CookieStr::Borrowed(value);
    }

    /// Sets whether scripts are kept from the cookie; `None` unsets that (RFC 6265 4.1.2.6).
    pub fn set_http_only(&mut self, value: Option<bool>)
        ensures fields { self.new.fields ≡ record self.old.fields { http_only = value } }
        ensures raw { self.new.raw ≡ self.old.raw }
    {
        self.http_only = value;
    }

    /// Sets whether the cookie is for secure connections only; `None` unsets that (RFC 6265 4.1.2.5).
    pub fn set_secure(&mut self, value: Option<bool>)
        ensures fields { self.new.fields ≡ record self.old.fields { secure = value } }
        ensures raw { self.new.raw ≡ self.old.raw }
    {
        self.secure = value;
    }

    /// Sets whether the cookie is kept apart for each top-level site; `None` unsets that.
    pub fn set_partitioned(&mut self, value: Option<bool>)
        ensures fields { self.new.fields ≡ record self.old.fields { partitioned = value } }
        ensures raw { self.new.raw ≡ self.old.raw }
    {
        self.partitioned = value;
    }

    /// Sets to which requests from other sites the cookie is sent (RFC 6265bis 4.1.2.7). `None` unsets that, in
    /// contrast to `Some(SameSite::None)`.
    pub fn set_same_site(&mut self, value: Option<SameSite>)
        ensures fields { self.new.fields ≡ record self.old.fields { same_site = value } }
        ensures raw { self.new.raw ≡ self.old.raw }
    {
        self.same_site = value;
    }

    /// Sets the path (RFC 6265 4.1.2.4).
    pub fn set_path(&mut self, path: &'c str)
        ensures fields { self.new.fields ≡ record self.old.fields { path = Some path.now } }
        ensures raw { self.new.raw ≡ record self.old.raw { path = None } }
    {
        self.path = Some(CookieStr::Borrowed(path));
    }

    /// Unsets the path.
    pub fn unset_path(&mut self)
        ensures fields { self.new.fields ≡ record self.old.fields { path = None } }
        ensures raw { self.new.raw ≡ record self.old.raw { path = None } }
    {
        self.path = None;
    }

    /// Sets the domain, without one leading dot (RFC 6265 4.1.2.3, 5.2.3).
    pub fn set_domain(&mut self, domain: &'c str)
        ensures fields { self.new.fields
            ≡ record self.old.fields { domain = Some (without_leading_dot domain.now) } }
        ensures raw { self.new.raw ≡ record self.old.raw { domain = None } }
    {
        self.domain = Some(CookieStr::Borrowed(domain));
    }

    /// Unsets the domain.
    pub fn unset_domain(&mut self)
        ensures fields { self.new.fields ≡ record self.old.fields { domain = None } }
        ensures raw { self.new.raw ≡ record self.old.raw { domain = None } }
    {
        self.domain = None;
    }

    /// Sets the age from now on after which the cookie expires; `None` unsets that (RFC 6265 5.2.2). Its whole seconds
    /// are printed and looked at, truncated toward zero.
    pub fn set_max_age(&mut self, value: Option<SignedDuration>)
        ensures fields { self.new.fields
            ≡ record self.old.fields { max_age = option_map signed_nanos value } }
        ensures raw { self.new.raw ≡ self.old.raw }
    {
        self.max_age = value;
    }

    /// Sets the expiry, whose date and time is in UTC (RFC 6265 4.1.2.1). A time after 9999-12-31 23:59:59.999999
    /// counts as that time. Whole seconds are printed.
    pub fn set_expires(&mut self, when: Expiration)
        ensures fields { self.new.fields
            ≡ record self.old.fields { expires = Some (capped_expiry when) } }
        ensures raw { self.new.raw ≡ self.old.raw }
    {
        self.expires = Some(when.cap());
    }

    /// Unsets the expiry. This doesn't set it to the end of the session.
    pub fn unset_expires(&mut self)
        ensures fields { self.new.fields ≡ record self.old.fields { expires = None } }
        ensures raw { self.new.raw ≡ self.old.raw }
    {
        self.expires = None;
    }

    /// Makes it a cookie that a client is to keep for twenty years: its age is 7,300 days, and its expiry is 7,300 days
    /// after `now`, which is in UTC, or the calendar's end. Browsers keep it for 400 days (RFC 6265bis 5.5).
    pub fn make_permanent(&mut self, now: DateTime)
        ensures fields { self.new.fields ≡ permanent now self.old.fields }
        ensures raw { self.new.raw ≡ self.old.raw }
    {
        self.set_max_age(Some(SignedDuration::from_secs(630_720_000)));
        self.set_expires(Expiration::DateTime(days_after(now, 7300)));
    }

    /// Makes it a cookie that tells a client to drop the cookie with its name, path and domain (RFC 6265 3.1). It has
    /// the empty value, the age zero, and an expiry 365 days before `now`, which is in UTC.
    /// Example: `removal_text` in crates/cookie_examples/src/reading.rt.
    pub fn make_removal(&mut self, now: DateTime)
        ensures fields { self.new.fields ≡ removal now self.old.fields }
        ensures raw { self.new.raw ≡ record self.old.raw { value = None } }
    {
        self.value = CookieStr::Borrowed("");
        self.max_age = Some(SignedDuration::ZERO);
        self.expires = Some(Expiration::DateTime(days_after(now, -365)));
    }
}
