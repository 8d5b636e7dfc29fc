//! A stored cookie, with what browsers know of it beyond the standard.
ghost use Rattle.std.specs.Prelude.{◌≡◌, IfOk};
ghost use Rattle.jiff.specs.Words.{civil_nanos};
ghost use Rattle.cookie_browser.specs.RefusedCode.{kept_view, request_view};
ghost use Rattle.cookie_browser.specs.Request.{RequestView};
ghost use Rattle.cookie_browser.specs.Storage.{is_same_cookie, lasts};
ghost use Rattle.cookie_agent.specs.Beyond.{accessed_beyond, allows_unsafe, is_at_site, is_changed_by, is_default, is_in_partition, is_same_dated, is_sent_beyond, is_young};
ghost use Rattle.cookie_agent.specs.BeyondCode.{is_overlaid_dated, is_plain};

use crate::bytes::copied;
use crate::nanos::nanos_of;
use crate::site::Site;
use crate::stored::StoredCookie;
use cookie_browser::{BrowserChoices, BrowserRequest, Enforcement, KeptCookie, Suffixes};
use jiff::civil::DateTime;
use std::alloc::{AllocError, Global};
use std::marker::Model;

/// A stored cookie, when it was created, and the top-level site that it is kept by.
#[derive(Drop)]
pub struct BrowserCookie {
    cookie: StoredCookie,
    created: DateTime,
    partition: Vec<u8>,
}

impl Model for BrowserCookie {
    ghost use Rattle.jiff.specs.Words.{civil_nanos};
    ghost use Rattle.cookie_agent.specs.Beyond.{DatedView};

    ghost Value = { DatedView };

    ghost view = { λ c. record {
      kept = c.cookie;
      created = civil_nanos c.created;
      partition = c.partition.items;
    } };
}

impl BrowserCookie {
    // A cookie that is created now, in this partition.
    pub(crate) fn new(
        alloc: Global,
        cookie: StoredCookie,
        now: DateTime,
        partition: &[u8],
    ) -> Result<BrowserCookie, AllocError>
        ensures { IfOk result (λ made. made ≡ record {
          kept = cookie;
          created = civil_nanos now;
          partition = partition.now;
        }) }
    {
        Ok(BrowserCookie {
            cookie,
            created: now,
            partition: copied(alloc, partition)?,
        })
    }

    /// The cookie, as the standard has it.
    pub fn stored(&self) -> &StoredCookie
        ensures { result.now ≡ self.now.kept }
    {
        &self.cookie
    }

    /// When it was created, in UTC.
    pub fn created(&self) -> DateTime
        ensures { civil_nanos result ≡ self.now.created }
    {
        self.created
    }

    /// The top-level site that it is kept by, empty if it isn't partitioned.
    pub fn partition(&self) -> &[u8]
        ensures { result.now ≡ self.now.partition }
    {
        self.partition.as_slice()
    }

    /// Whether it is sent at the time `now` in UTC to the site, with a request of a page of the top-level site.
    pub fn is_sent(&self, choices: BrowserChoices, site: &Site, top: &[u8], now: DateTime) -> bool
        ensures { result ≡ is_sent_beyond choices site.now top.now now self.now }
    {
        let mut request = site.request();
        if self.allows_unsafe(choices, request.is_top_level, now) {
            request.is_same_site = true;
        }
        self.lasts(now) && self.cookie.as_kept().suits(&request) && self.is_in_partition(top)
    }

    // Whether an unsafe navigation has it as one of its own site has.
    fn allows_unsafe(&self, choices: BrowserChoices, is_top_level: bool, now: DateTime) -> bool
        ensures { (request : RequestView) → request.is_top_level ≡ is_top_level
            → result ≡ allows_unsafe choices request now self.now }
    {
        choices.sends_unsafe_for_two_minutes
            && matches!(self.cookie.as_kept().same_site, Enforcement::Default)
            && is_top_level
            && self.is_young(now)
    }

    // Whether it was created at most two minutes ago.
    fn is_young(&self, now: DateTime) -> bool
        ensures { result ≡ is_young now self.now }
    {
        nanos_of(now) <= nanos_of(self.created) + 120_000_000_000
    }

    fn is_in_partition(&self, top: &[u8]) -> bool
        ensures { result ≡ is_in_partition top.now self.now }
    {
        self.partition.is_empty() || self.partition.as_slice() == top
    }

    // Whether it isn't expired at the time `now`.
    pub(crate) fn lasts(&self, now: DateTime) -> bool
        ensures { result ≡ lasts self.now.kept.expiry now }
    {
        self.cookie.lasts(now)
    }

    // Whether it isn't partitioned, and is of the site that the host is in.
    pub(crate) fn is_at_site(&self, suffixes: &Suffixes, host: &[u8]) -> bool
        ensures { result ≡ is_at_site suffixes.now host.now self.now }
    {
        self.partition.is_empty() && suffixes.site(self.cookie.domain()) == suffixes.site(host)
    }

    // Whether the stored one is the same cookie.
    pub(crate) fn is_one_with(&self, stored: &StoredCookie) -> bool
        ensures { result ≡ is_same_cookie stored.now self.now.kept }
    {
        stored.as_kept().is_same(&self.cookie.as_kept())
    }

    // Whether both are one cookie of one partition.
    pub(crate) fn is_same(&self, other: &BrowserCookie) -> bool
        ensures { result ≡ is_same_dated self.now other.now }
    {
        self.cookie.as_kept().is_same(&other.cookie.as_kept())
            && self.partition.as_slice() == other.partition.as_slice()
    }

    // Whether it is neither partitioned nor expired, and the new one would overlay it.
    pub(crate) fn is_overlaid_by(
        &self,
        request: &BrowserRequest<'_>,
        new: &KeptCookie<'_>,
        now: DateTime,
    ) -> bool
        ensures { result ≡ is_overlaid_dated (request_view request.now) (kept_view new.now) now
            self.now }
    {
        self.is_plain(now) && self.cookie.as_kept().is_overlaid_by(new, request)
    }

    // Whether it is neither partitioned nor expired.
    fn is_plain(&self, now: DateTime) -> bool
        ensures { result ≡ is_plain now self.now }
    {
        self.partition.is_empty() && self.lasts(now)
    }

    // Whether both are one cookie of one partition, and their values differ.
    pub(crate) fn is_changed_by(&self, new: &BrowserCookie) -> bool
        ensures { result ≡ is_changed_by new.now self.now }
    {
        self.is_same(new) && self.cookie.as_kept().value != new.cookie.as_kept().value
    }

    // The cookie, created when the other one was.
    pub(crate) fn created_as(mut self, other: &BrowserCookie) -> BrowserCookie
        ensures { result ≡ record self { created = other.now.created } }
    {
        self.created = other.created;
        self
    }

    // Sets its last access, if it is sent.
    pub(crate) fn access(&mut self, choices: BrowserChoices, site: &Site, top: &[u8], now: DateTime)
        ensures { self.new ≡ accessed_beyond choices site.now top.now now self.old }
    {
        if self.is_sent(choices, site, top, now) {
            self.cookie.touch(now);
        }
    }
}
