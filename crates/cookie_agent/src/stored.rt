//! A stored cookie.
ghost use Rattle.std.specs.Prelude.{◌≡◌, ◌++◌, true, None, pos, IfOk, OnOk};
ghost use Rattle.jiff.specs.Words.{civil_nanos};
ghost use Rattle.cookie_browser.specs.ExpiryCode.{expiry_time};
ghost use Rattle.cookie_browser.specs.RefusedCode.{kept_view};
ghost use Rattle.cookie_browser.specs.Storage.{is_same_cookie, is_sent, lasts};
ghost use Rattle.cookie_agent.specs.Sent.{accessed, path_length, sent_pair};
ghost use Rattle.cookie_agent.specs.Stored.{is_named_in, is_of_domain};
ghost use Rattle.cookie_agent.specs.StoredCode.{key_view};

use crate::bytes::copied;
use crate::key::Key;
use crate::nanos::expiry_nanos;
use crate::scope::Scope;
use crate::site::Site;
use cookie_browser::{Enforcement, Expiry, KeptCookie, is_in_domain};
use jiff::civil::DateTime;
use std::alloc::{AllocError, Global};
use std::marker::Model;

/// A cookie that a user agent stores (RFC 6265bis, Storage Model). Contracts see it as `cookie_browser` does.
#[derive(Drop)]
pub struct StoredCookie {
    key: Key,
    value: Vec<u8>,
    is_secure_only: bool,
    is_http_only: bool,
    same_site: Enforcement,
    expiry: Expiry,
    last_access: DateTime,
}

impl Model for StoredCookie {
    ghost use Rattle.jiff.specs.Words.{civil_nanos};
    ghost use Rattle.cookie_browser.specs.ExpiryCode.{expiry_time};
    ghost use Rattle.cookie_browser.specs.Storage.{KeptView};

    ghost Value = { KeptView };

    ghost view = { λ c. record {
      name = c.key.name.items;
      value = c.value.items;
      domain = c.key.domain.items;
      is_host_only = c.key.is_host_only;
      path = c.key.path.items;
      is_secure_only = c.is_secure_only;
      is_http_only = c.is_http_only;
      same_site = c.same_site;
      expiry = expiry_time c.expiry;
      last_access = civil_nanos c.last_access;
    } };
}

impl StoredCookie {
    /// A stored cookie of these fields, with copies of the texts: for those who load cookies that were stored elsewhere.
    /// Each value is taken as it is. `last_access` is in UTC. Fails only if out of memory.
    pub fn of(
        alloc: Global,
        kept: &KeptCookie<'_>,
        expiry: Expiry,
        last_access: DateTime,
    ) -> Result<StoredCookie, AllocError>
        ensures { IfOk result (λ made. made ≡ record (kept_view kept.now) {
          expiry = expiry_time expiry;
          last_access = civil_nanos last_access;
        }) }
    {
        Ok(StoredCookie {
            key: Key {
                name: copied(alloc, kept.name)?,
                domain: copied(alloc, kept.domain)?,
                is_host_only: kept.is_host_only,
                path: copied(alloc, kept.path)?,
            },
            value: copied(alloc, kept.value)?,
            is_secure_only: kept.is_secure_only,
            is_http_only: kept.is_http_only,
            same_site: kept.same_site,
            expiry,
            last_access,
        })
    }

    /// All but its expiry and its last access, for the calls of `cookie_browser`: the name, the value, and what its
    /// attributes came to.
    pub fn as_kept(&self) -> KeptCookie<'_>
        ensures { kept_view result ≡ record self.now { expiry = None; last_access = pos 0 } }
    {
        KeptCookie {
            name: self.key.name.as_slice(),
            value: self.value.as_slice(),
            domain: self.domain(),
            is_host_only: self.key.is_host_only,
            path: self.key.path.as_slice(),
            is_secure_only: self.is_secure_only,
            is_http_only: self.is_http_only,
            same_site: self.same_site,
        }
    }

    /// When it expires.
    pub fn expiry(&self) -> Expiry
        ensures { expiry_time result ≡ self.now.expiry }
    {
        self.expiry
    }

    /// When it was last stored, or sent by [`retrieve`](crate::Agent::retrieve), in UTC.
    pub fn last_access(&self) -> DateTime
        ensures { civil_nanos result ≡ self.now.last_access }
    {
        self.last_access
    }

    /// A copy of it. Fails only if out of memory.
    pub fn clone(&self, alloc: Global) -> Result<StoredCookie, AllocError>
        ensures { IfOk result (λ made. made ≡ self.now) }
    {
        StoredCookie::of(alloc, &self.as_kept(), self.expiry, self.last_access)
    }

    // Whether it isn't expired at the time `now`.
    pub(crate) fn lasts(&self, now: DateTime) -> bool
        ensures { result ≡ lasts self.now.expiry now }
    {
        self.expiry.lasts(now)
    }

    // Its expiry in nanoseconds since 1970, if it has one.
    pub(crate) fn expiry_nanos(&self) -> Option<i128>
        ensures { result ≡ self.now.expiry }
    {
        expiry_nanos(self.expiry)
    }

    // Whether it has the same name, domain, host-only flag and path.
    pub(crate) fn is_same(&self, kept: &KeptCookie<'_>) -> bool
        ensures { result ≡ is_same_cookie self.now (kept_view kept.now) }
    {
        self.as_kept().is_same(kept)
    }

    /// Whether it is sent to the site at the time `now` in UTC (RFC 6265bis, Retrieval Algorithm).
    pub fn is_sent(&self, site: &Site, now: DateTime) -> bool
        ensures { result ≡ is_sent site.now now self.now }
    {
        self.as_kept().suits(&site.request()) && self.lasts(now)
    }

    // What it is known by.
    pub(crate) fn key(&self) -> &Key
        ensures { is_same_cookie self.now (key_view result.now) ≡ true }
    {
        &self.key
    }

    // Whether it has this name and this scope.
    pub(crate) fn is_named_in(&self, name: &[u8], scope: &Scope) -> bool
        ensures { result ≡ is_named_in name.now scope.now self.now }
    {
        self.key.name.as_slice() == name
            && self.domain() == scope.domain()
            && self.key.is_host_only == scope.is_host_only()
            && self.key.path.as_slice() == scope.path()
    }

    // Whether its domain is this one, or below it.
    pub(crate) fn is_of_domain(&self, domain: &[u8]) -> bool
        ensures { result ≡ is_of_domain domain.now self.now }
    {
        is_in_domain(self.domain(), false, domain)
    }

    // Its domain.
    pub(crate) fn domain(&self) -> &[u8]
        ensures { result.now ≡ self.now.domain }
    {
        self.key.domain.as_slice()
    }

    // Sets its last access, if it is sent.
    pub(crate) fn access(&mut self, site: &Site, now: DateTime)
        ensures { self.new ≡ accessed site.now now self.old }
    {
        if self.is_sent(site, now) {
            self.touch(now);
        }
    }

    // Makes the time its last access.
    pub(crate) fn touch(&mut self, now: DateTime)
        ensures { self.new ≡ record self.old { last_access = civil_nanos now } }
    {
        self.last_access = now;
    }

    // The length of its path, in bytes.
    pub(crate) fn path_length(&self) -> usize
        ensures { result ≡ path_length self.now }
    {
        self.key.path.len()
    }

    // Writes its name and its value after the text.
    pub(crate) fn push_pair(&self, header: &mut Vec<u8>) -> Result<(), AllocError>
        ensures { OnOk result (header.new.items ≡ header.old.items ++ sent_pair self.now) }
    {
        if !self.key.name.is_empty() {
            header.extend_from_slice(&self.key.name)?;
            header.extend_from_slice(b"=")?;
        }
        header.extend_from_slice(&self.value)
    }
}
