//! A user agent that does what browsers do beyond the standard, as the caller chooses.
ghost use Rattle.std.specs.Prelude.{◌≡◌, [], Ok, map, IfOk, OnOk, OnErr};
ghost use Rattle.std.specs.List.{list_any};
ghost use Rattle.cookie_browser.specs.ReceivedCode.{received_view};
ghost use Rattle.cookie_browser.specs.RefusedCode.{kept_view, request_view};
ghost use Rattle.cookie_browser.specs.Storage.{lasting, overlays, verdict_on};
ghost use Rattle.cookie_agent.specs.Beyond.{IsHeaderOf, accessed_beyond, browser_after_text, browser_refusal_of, browser_verdict, browser_verdict_of, browser_verdict_on, cookies_at_site, dated_lasting, dated_with, is_among, is_changed_by, partition_of, placed, renewed, site_limits, staying_at_site, undated, unpartitioned, visible_beyond, without_excess, without_expired};
ghost use Rattle.cookie_agent.specs.BeyondCode.{is_overlaid_dated};
ghost use Rattle.cookie_agent.specs.Limits.{trimmed};
ghost use Rattle.cookie_agent.specs.SentCode.{targets};
ghost use Rattle.cookie_agent.specs.StandardChoices.{ReadsStandard, SendsStandard};
ghost use Rattle.cookie_agent.specs.Stored.{kept_with_each};
ghost use Rattle.cookie_agent.specs.VerdictCode.{verdict_result};

use crate::browser_cookie::BrowserCookie;
use crate::browser_refusal::BrowserRefusal;
use crate::header::{by_path, joined_pairs};
use crate::limits::Limits;
use crate::site::Site;
use crate::store::Store;
use crate::stored::StoredCookie;
use crate::verdict::Verdict;
use cookie_browser::{
    BrowserChoices, BrowserRequest, Expiry, KeptCookie, Received, ReceivedAttributes, Suffixes,
    ascii_domain, is_partitioned, refused_beyond, refused_with,
};
use jiff::civil::DateTime;
use std::alloc::{AllocError, Global};
use std::marker::Model;

/// A user agent with choices: it does as an [`Agent`](crate::Agent) does, and beyond that what the choices say. Contracts
/// see the rules of public suffixes, the choices, and the stored cookies in the order of their creation.
#[derive(Drop)]
pub struct BrowserAgent<'r> {
    alloc: Global,
    suffixes: &'r Suffixes,
    choices: BrowserChoices,
    cookies: Vec<BrowserCookie>,
}

impl<'r> Model for BrowserAgent<'r> {
    ghost use Rattle.cookie_agent.specs.Beyond.{BrowserAgentView};

    ghost Value = { BrowserAgentView };

    ghost view = { λ a. record {
      rules = a.suffixes.now;
      choices = a.choices;
      cookies = a.cookies.items;
    } };
}

impl<'r> BrowserAgent<'r> {
    /// A user agent that stores nothing. Without rules, each domain of one label is a public suffix, and no other.
    pub fn new(alloc: Global, suffixes: &'r Suffixes, choices: BrowserChoices) -> BrowserAgent<'r>
        ensures { result ≡ record { rules = suffixes.now; choices = choices; cookies = [] } }
    {
        BrowserAgent {
            alloc,
            suffixes,
            choices,
            cookies: Vec::new(alloc),
        }
    }

    /// The cookies that it stores, in the order of their creation. Some may be expired.
    pub fn cookies(&self) -> &[BrowserCookie]
        ensures { result.now ≡ self.now.cookies }
    {
        self.cookies.as_slice()
    }

    /// Drops the cookies that are expired at the time `now` in UTC.
    pub fn evict(&mut self, now: DateTime)
        ensures { self.new ≡ without_expired now self.old }
    {
        drop_expired(&mut self.cookies, now);
    }

    /// Reads the text of a `Set-Cookie` header of the site's response at the time `now` in UTC. Returns the refusal, or
    /// `None` if the cookie is stored. The page that made the request is below the top-level page of the site `top`,
    /// which the caller names as it likes but always the same way, as `https://example.com`. With an empty `top` no
    /// cookie is partitioned. What is expired is dropped. Fails only if out of memory, and then the agent is as before,
    /// but for what is expired.
    pub fn read(
        &mut self,
        site: &Site,
        top: &[u8],
        text: &[u8],
        now: DateTime,
    ) -> Result<Option<BrowserRefusal>, AllocError>
        ensures ok { IfOk result (λ refusal.
            (self.new ≡ browser_after_text site.now top.now now text.now self.old)
            × (refusal ≡ browser_refusal_of
            (browser_verdict (without_expired now self.old) site.now top.now now text.now))) }
        ensures err { OnErr result (self.new ≡ without_expired now self.old) }

        // With the standard's choices it does what `Agent` does.
        ensures standard { ReadsStandard }
    {
        self.evict(now);
        match self.verdict(site, top, text, now)? {
            Ok(cookie) => {
                self.put(cookie)?;
                self.evict(now);
                Ok(None)
            }
            Err(refusal) => Ok(Some(refusal)),
        }
    }

    // What it makes of a text: the cookie that it would store, or the refusal.
    fn verdict(
        &self,
        site: &Site,
        top: &[u8],
        text: &[u8],
        now: DateTime,
    ) -> Result<Result<BrowserCookie, BrowserRefusal>, AllocError>
        ensures { IfOk result (λ verdict. verdict
            ≡ browser_verdict self.now site.now top.now now text.now) }
    {
        match Received::of(text) {
            Ok(received) => self.verdict_on(site, top, text, &received, now),
            Err(refusal) => Ok(Err(BrowserRefusal::Standard(refusal))),
        }
    }

    // The verdict on what a text is received as.
    fn verdict_on(
        &self,
        site: &Site,
        top: &[u8],
        text: &[u8],
        received: &Received<'_>,
        now: DateTime,
    ) -> Result<Result<BrowserCookie, BrowserRefusal>, AllocError>
        ensures { IfOk result (λ verdict. verdict
            ≡ browser_verdict_on self.now site.now top.now now text.now
            (Ok (received_view received.now))) }
    {
        let ascii = ascii_domain(self.alloc, self.choices, received.attributes.domain)?;
        let domain = match &ascii {
            Some(domain) => domain.as_bytes(),
            None => received.attributes.domain,
        };
        self.verdict_of(site, top, text, &with_domain(received, domain), now)
    }

    // The same, where the domain is as the choices read it.
    fn verdict_of(
        &self,
        site: &Site,
        top: &[u8],
        text: &[u8],
        received: &Received<'_>,
        now: DateTime,
    ) -> Result<Result<BrowserCookie, BrowserRefusal>, AllocError>
        ensures { IfOk result (λ verdict. verdict
            ≡ browser_verdict_of self.now site.now top.now now text.now
            (received_view received.now)) }
    {
        if let Some(why) = refused_beyond(self.choices, text, received) {
            return Ok(Err(BrowserRefusal::Beyond(why)));
        }
        let verdict = standard_verdict(
            self.alloc,
            self.suffixes,
            &self.cookies,
            site,
            received,
            now,
        )?;
        match verdict {
            Verdict::Stored(cookie) => {
                let partition = self.partition_of(top, text);
                let cookie = BrowserCookie::new(self.alloc, cookie, now, partition)?;
                Ok(Ok(cookie))
            }
            Verdict::Refused(refusal) => Ok(Err(BrowserRefusal::Standard(refusal))),
        }
    }

    // The top-level site that the text's cookie is kept by.
    fn partition_of<'t>(&self, top: &'t [u8], text: &[u8]) -> &'t [u8]
        ensures { result.now ≡ partition_of self.now.choices top.now text.now }
    {
        if self.choices.partitions && is_partitioned(text) {
            top
        } else {
            b"".as_slice()
        }
    }

    // Stores a cookie, in the place of the same one or last.
    fn put(&mut self, cookie: BrowserCookie) -> Result<(), AllocError>
        ensures ok { OnOk result (self.new ≡ record self.old {
          cookies = dated_with self.old.choices cookie self.old.cookies;
        }) }
        ensures err { OnErr result (self.new ≡ self.old) }
    {
        if self.choices.renews_changed && is_any_changed(&self.cookies, &cookie) {
            renew(&mut self.cookies, cookie)
        } else {
            place(&mut self.cookies, cookie)
        }
    }

    /// The value of the `Cookie` header of an http request to the site at the time `now` in UTC, by a page below the
    /// top-level page of the site `top`: longer paths first, and the earlier creation first among equals. Fails only if
    /// out of memory.
    pub fn header(&self, site: &Site, top: &[u8], now: DateTime) -> Result<Vec<u8>, AllocError>
        ensures value { IfOk result (λ header. IsHeaderOf
            (visible_beyond self.now.choices site.now top.now now self.now.cookies)
            header.items) }

        // With the standard's choices it sends what `Agent` does.
        ensures standard { SendsStandard }
    {
        let sent = visible(self.alloc, &self.cookies, self.choices, site, top, now)?;
        let sent = by_path(sent)?;
        joined_pairs(self.alloc, &sent)
    }

    /// Does what [`header`](BrowserAgent::header) says, for a request that is made: `now` becomes the last access of
    /// each cookie that is sent. Fails only if out of memory, and then the agent is as before.
    pub fn retrieve(
        &mut self,
        site: &Site,
        top: &[u8],
        now: DateTime,
    ) -> Result<Vec<u8>, AllocError>
        ensures value { IfOk result (λ header. IsHeaderOf
            (visible_beyond self.old.choices site.now top.now now self.old.cookies)
            header.items) }
        ensures ok { OnOk result (self.new ≡ record self.old {
          cookies = map (accessed_beyond self.old.choices site.now top.now now)
              self.old.cookies;
        }) }
        ensures err { OnErr result (self.new ≡ self.old) }
    {
        let header = self.header(site, top, now)?;
        access(&mut self.cookies, self.choices, site, top, now);
        Ok(header)
    }

    /// Does what Chromium does after it stored a cookie of the site: if more than 180 cookies of the registrable domain
    /// that the site's host is in aren't partitioned, it leaves 150 of them. Those that aren't secure-only go first, and
    /// then those with the earliest last access (RFC 6265bis, Storage Model, which has no limit of a site). Fails only if
    /// out of memory, and then the agent is as before.
    pub fn trim_site(&mut self, site: &Site, now: DateTime) -> Result<(), AllocError>
        ensures ok { OnOk result (self.new ≡ record self.old {
          cookies = without_excess self.old.rules site.now.host now self.old.cookies;
        }) }
        ensures err { OnErr result (self.new ≡ self.old) }
    {
        trim_site(
            self.alloc,
            self.suffixes,
            &mut self.cookies,
            site.request().host,
            now,
        )
    }
}

// Leaves 150 of the cookies at the host's site, if they are more than 180. After an error all are as before.
fn trim_site(
    alloc: Global,
    suffixes: &Suffixes,
    cookies: &mut Vec<BrowserCookie>,
    host: &[u8],
    now: DateTime,
) -> Result<(), AllocError>
    ensures ok { OnOk result (cookies.new.items
        ≡ without_excess suffixes.now host.now now cookies.old.items) }
    ensures err { OnErr result (cookies.new.items ≡ cookies.old.items) }
{
    let found = cookies_at_site(alloc, suffixes, cookies, host)?;
    if found.len() <= 180 {
        return Ok(());
    }
    let left = left_at_site(alloc, suffixes, found, now)?;
    stay(cookies, suffixes, host, &left);
    Ok(())
}

// Copies of the cookies at the host's site.
fn cookies_at_site(
    alloc: Global,
    suffixes: &Suffixes,
    cookies: &[BrowserCookie],
    host: &[u8],
) -> Result<Vec<StoredCookie>, AllocError>
    ensures { IfOk result (λ found.
        found.items ≡ cookies_at_site suffixes.now host.now cookies.now) }
{
    let mut found = Vec::new(alloc);
    for cookie in cookies {
        if cookie.is_at_site(suffixes, host) {
            let copy = cookie.stored().clone(alloc)?;
            found.push(copy)?;
        }
    }
    Ok(found)
}

// What is left of a site's cookies, if 150 may stay.
fn left_at_site(
    alloc: Global,
    suffixes: &Suffixes,
    cookies: Vec<StoredCookie>,
    now: DateTime,
) -> Result<Store, AllocError>
    ensures { IfOk result (λ left.
        left ≡ trimmed suffixes.now site_limits now (kept_with_each cookies.items [])) }
{
    let mut store = Store::of(alloc, cookies)?;
    let limits = Limits {
        per_domain: 1_000_000,
        per_site: 150,
        total: 1_000_000,
    };
    store.trim(suffixes, limits, now)?;
    Ok(store)
}

// Keeps the cookies of other sites, and those at the host's site that are left.
fn stay(cookies: &mut Vec<BrowserCookie>, suffixes: &Suffixes, host: &[u8], left: &Store)
    ensures { cookies.new.items
        ≡ staying_at_site suffixes.now host.now left.now cookies.old.items }
{
    cookies.retain(|cookie| !cookie.is_at_site(suffixes, host) || is_among(left, cookie));
}

fn is_among(left: &Store, cookie: &BrowserCookie) -> bool
    ensures { result ≡ is_among left.now cookie.now }
{
    left.cookies().any(|stored| cookie.is_one_with(stored))
}

// The received cookie, with another domain.
fn with_domain<'t, 'r: 't>(received: &Received<'r>, domain: &'t [u8]) -> Received<'t>
    ensures { received_view result ≡ record (received_view received.now) {
      attributes = record (received_view received.now).attributes { domain = domain.now };
    } }
{
    Received {
        name: received.name,
        value: received.value,
        attributes: ReceivedAttributes {
            domain,
            ..received.attributes
        },
    }
}

// The standard's verdict on a received cookie, beside these stored ones.
fn standard_verdict(
    alloc: Global,
    suffixes: &Suffixes,
    cookies: &[BrowserCookie],
    site: &Site,
    received: &Received<'_>,
    now: DateTime,
) -> Result<Verdict, AllocError>
    ensures { IfOk result (λ verdict. verdict_result verdict
        ≡ verdict_on suffixes.now site.now now (lasting now (undated (unpartitioned cookies.now)))
        (Ok (received_view received.now))) }
{
    let domain = received.attributes.bare_domain().to_ascii_lowercase(alloc)?;
    let request = site.request();
    let new = KeptCookie::of(suffixes, &request, received, domain.as_slice());
    let overlays = overlays(cookies, &request, &new, now);
    if let Some(refusal) = refused_with(
        suffixes,
        &request,
        overlays,
        received,
        domain.as_slice(),
        &new,
    ) {
        return Ok(Verdict::Refused(refusal));
    }
    let expiry = Expiry::of(&received.attributes, now);
    Ok(Verdict::Stored(StoredCookie::of(alloc, &new, expiry, now)?))
}

// Whether the new cookie would overlay one that isn't expired and isn't partitioned.
#[tactic(auto, using(crate::proofs::BeyondLemmas::any_unpartitioned))]
fn overlays(
    cookies: &[BrowserCookie],
    request: &BrowserRequest<'_>,
    new: &KeptCookie<'_>,
    now: DateTime,
) -> bool
    ensures { result ≡ overlays (request_view request.now)
        (lasting now (undated (unpartitioned cookies.now))) (kept_view new.now) }
{
    !new.is_secure_only && !request.is_secure && any_overlaid(cookies, request, new, now)
}

fn any_overlaid(
    cookies: &[BrowserCookie],
    request: &BrowserRequest<'_>,
    new: &KeptCookie<'_>,
    now: DateTime,
) -> bool
    ensures { result
        ≡ list_any (is_overlaid_dated (request_view request.now) (kept_view new.now) now)
        cookies.now }
{
    cookies
        .iter()
        .any(|old| old.is_overlaid_by(request, new, now))
}

// Drops the cookies that are expired.
fn drop_expired(cookies: &mut Vec<BrowserCookie>, now: DateTime)
    ensures { cookies.new.items ≡ dated_lasting now cookies.old.items }
{
    cookies.retain(|cookie| cookie.lasts(now));
}

fn is_any_changed(cookies: &[BrowserCookie], new: &BrowserCookie) -> bool
    ensures { result ≡ list_any (is_changed_by new.now) cookies.now }
{
    cookies.iter().any(|old| old.is_changed_by(new))
}

// Puts the cookie last, and removes the same one. After an error the cookies are as before.
fn renew(cookies: &mut Vec<BrowserCookie>, cookie: BrowserCookie) -> Result<(), AllocError>
    ensures ok { OnOk result (cookies.new.items ≡ renewed cookie cookies.old.items) }
    ensures err { OnErr result (cookies.new.items ≡ cookies.old.items) }
{
    cookies.reserve(1)?;
    cookies.retain(|old| !old.is_same(&cookie));
    cookies.push(cookie)?;
    Ok(())
}

// Puts the cookie in the place of the same one, or last. After an error the cookies are as before.
fn place(cookies: &mut Vec<BrowserCookie>, cookie: BrowserCookie) -> Result<(), AllocError>
    ensures ok { OnOk result (cookies.new.items ≡ placed cookie cookies.old.items) }
    ensures err { OnErr result (cookies.new.items ≡ cookies.old.items) }
{
    for index in 0..cookies.len() {
        if cookies[index].is_same(&cookie) {
            let cookie = cookie.created_as(&cookies[index]);
            cookies[index] = cookie;
            return Ok(());
        }
    }
    cookies.push(cookie)?;
    Ok(())
}

// The cookies that are sent, in the order of their creation.
fn visible<'a>(
    alloc: Global,
    cookies: &'a [BrowserCookie],
    choices: BrowserChoices,
    site: &Site,
    top: &[u8],
    now: DateTime,
) -> Result<Vec<&'a StoredCookie>, AllocError>
    ensures { IfOk result (λ sent.
        targets sent.items ≡ visible_beyond choices site.now top.now now cookies.now) }
{
    let mut sent = Vec::new(alloc);
    for cookie in cookies {
        if cookie.is_sent(choices, site, top, now) {
            sent.push(cookie.stored())?;
        }
    }
    Ok(sent)
}

// Sets the last access of each cookie that is sent.
fn access(
    cookies: &mut Vec<BrowserCookie>,
    choices: BrowserChoices,
    site: &Site,
    top: &[u8],
    now: DateTime,
)
    ensures { cookies.new.items
        ≡ map (accessed_beyond choices site.now top.now now) cookies.old.items }
{
    for cookie in cookies.iter_mut() {
        cookie.access(choices, site, top, now);
    }
}
