//! Cookies with owned strings.
ghost use Rattle.std.specs.Prelude.{◌≡◌, Some, None, alloc_error, string_bytes, IsUtf8};
ghost use Rattle.cookie_core.specs.CookieStr.{source_bytes, IsSameIn};
ghost use Rattle.cookie_core.specs.Memory.{Gives};
ghost use Rattle.cookie_core.specs.OwnedCode.{IsMadeOwn};
ghost use Rattle.cookie_core.specs.Record.{no_raw_forms, plain, without_leading_dot};

use super::Cookie;
use crate::cookie_str::{self, CookieStr};
use crate::parse_error::ParseError;
use crate::source::Source;
use std::alloc::{AllocError, Global};

impl<'c> Cookie<'c> {
    /// A cookie with this owned name and value, and no attribute set.
    pub fn new_owned(name: String, value: String) -> Cookie<'c>
        ensures { result ≡ record {
          fields = plain (string_bytes name) (string_bytes value);
          raw = no_raw_forms;
        } }
    {
        let mut cookie = Cookie::new("", "");
        cookie.name = CookieStr::Owned(name);
        cookie.value = CookieStr::Owned(value);
        cookie
    }

    /// The same cookie with owned strings, so that it can go into a jar. Fails only with `AllocError`, if out of
    /// memory, and then the cookie is dropped.
    /// Example: `sign_in` in crates/cookie_examples/src/session.rt.
    pub fn into_owned(self, alloc: Global) -> Result<Cookie<'static>, AllocError>
        ensures { Gives alloc_error result
            (λ c. c ≡ record { fields = self.entry.fields; raw = no_raw_forms }) }
    {
        let Cookie {
            source,
            name,
            value,
            http_only,
            secure,
            partitioned,
            same_site,
            path,
            domain,
            max_age,
            expires,
        } = self;
        let source = kept_source(source, &name, &value, &path, &domain);
        Ok(Cookie {
            source: source.into_owned(alloc)?,
            name: name.into_owned(alloc)?,
            value: value.into_owned(alloc)?,
            http_only,
            secure,
            partitioned,
            same_site,
            path: cookie_str::into_owned(path, alloc)?,
            domain: cookie_str::into_owned(domain, alloc)?,
            max_age,
            expires,
        })
    }

    /// Sets the name to an owned string. It is then no longer borrowed.
    pub fn set_name_owned(&mut self, name: String)
        ensures fields { self.new.fields ≡ record self.old.fields { name = string_bytes name } }
        ensures raw { self.new.raw ≡ record self.old.raw { name = None } }
    {
        self.name = CookieStr::Owned(name);
    }

    /// Sets the value to an owned string. It is then no longer borrowed.
    pub fn set_value_owned(&mut self, value: String)
        ensures fields { self.new.fields ≡ record self.old.fields { value = string_bytes value } }
        ensures raw { self.new.raw ≡ record self.old.raw { value = None } }
    {
        self.value = CookieStr::Owned(value);
    }

    /// Sets the path to an owned string (RFC 6265 4.1.2.4). It is then no longer borrowed.
    pub fn set_path_owned(&mut self, path: String)
        ensures fields { self.new.fields
            ≡ record self.old.fields { path = Some (string_bytes path) } }
        ensures raw { self.new.raw ≡ record self.old.raw { path = None } }
    {
        self.path = Some(CookieStr::Owned(path));
    }

    /// Sets the domain to an owned string, without one leading dot (RFC 6265 4.1.2.3, 5.2.3). It is then no longer
    /// borrowed.
    pub fn set_domain_owned(&mut self, domain: String)
        ensures fields { self.new.fields
            ≡ record self.old.fields { domain = Some (without_leading_dot (string_bytes domain)) } }
        ensures raw { self.new.raw ≡ record self.old.raw { domain = None } }
    {
        self.domain = Some(CookieStr::Owned(domain));
    }
}

// The source, if one of the texts is in it.
fn kept_source<'c>(
    source: Source<'c>,
    name: &CookieStr<'c>,
    value: &CookieStr<'c>,
    path: &Option<CookieStr<'c>>,
    domain: &Option<CookieStr<'c>>,
) -> Source<'c>
    ensures utf8 { IsUtf8 (source_bytes source.entry) → IsUtf8 (source_bytes result) }
    ensures name { IsSameIn source.entry result (Some name.now) }
    ensures value { IsSameIn source.entry result (Some value.now) }
    ensures path { IsSameIn source.entry result path.now }
    ensures domain { IsSameIn source.entry result domain.now }
{
    match (name, value, path, domain) {
        (CookieStr::Owned(_), CookieStr::Owned(_), None, None) => Source::None,
        _ => source,
    }
}

// The same outcome, with owned strings.
pub(crate) fn make_own(
    alloc: Global,
    outcome: Result<Cookie<'_>, ParseError>,
) -> Result<Cookie<'static>, ParseError>
    ensures { IsMadeOwn outcome.entry result }
{
    Ok(outcome?.into_owned(alloc)?)
}
