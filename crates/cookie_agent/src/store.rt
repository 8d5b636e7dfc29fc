//! A store of cookies (RFC 6265bis, Storage Model).
ghost use Rattle.std.specs.Prelude.{◌≡◌, ◌++◌, not, true, false, [], filter, length, map, option_copied, slice_get, IfOk, OnOk, OnErr};
ghost use Rattle.std.specs.List.{list_any};
ghost use Rattle.cookie_browser.specs.RefusedCode.{kept_view, request_view};
ghost use Rattle.cookie_browser.specs.Storage.{is_overlaid, kept_with, lasting};
ghost use Rattle.cookie_agent.specs.Limits.{IsWithin, trimmed};
ghost use Rattle.cookie_agent.specs.Sent.{IsOrderedHeader, accessed};
ghost use Rattle.cookie_agent.specs.SentCode.{targets};
ghost use Rattle.cookie_agent.specs.Sites.{TrimsApart};
ghost use Rattle.cookie_agent.specs.Stored.{IsApart, is_named_in, is_of_domain, kept_with_each};
ghost use Rattle.cookie_agent.specs.RowsCode.{held};
ghost use Rattle.cookie_agent.specs.StoredCode.{AreStored};

use crate::cookies::Cookies;
use crate::header::header_of;
use crate::in_turn::stored_in_turn;
use crate::limits::Limits;
use crate::overlaid::any_overlaid;
use crate::rows::Rows;
use crate::scope::Scope;
use crate::site::Site;
use crate::stored::StoredCookie;
use crate::trim::{borrowed, kept_within, places_within};
use cookie_browser::{BrowserRequest, KeptCookie, Suffixes};
use jiff::civil::DateTime;
use std::alloc::{AllocError, Global};
use std::marker::Model;

/// A store of cookies, in the order of their creation. No two have the same name, domain, host-only flag and path. An
/// [`Agent`](crate::Agent) is a store with rules of public suffixes.
#[derive(Drop)]
pub struct Store {
    alloc: Global,
    rows: Rows,
}

impl Model for Store {
    ghost use Rattle.cookie_browser.specs.Storage.{CookieStore};
    ghost use Rattle.cookie_agent.specs.RowsCode.{held};
    ghost use Rattle.cookie_agent.specs.StoredCode.{AreStored};

    ghost Value = { CookieStore };

    ghost view = { λ s. held s.rows.slots.items };

    ghost invariant = { λ s. AreStored s.rows };
}

impl Store {
    /// A store without cookies. It doesn't allocate.
    pub fn new(alloc: Global) -> Store
        ensures { result ≡ [] }
    {
        Store {
            alloc,
            rows: Rows::new(alloc),
        }
    }

    /// A store of these cookies, as if each was stored in turn: of two with the same name, domain, host-only flag and
    /// path the later one counts, at the place of the first. Expired ones are taken too. For n cookies it makes about
    /// n log n comparisons. Fails only if out of memory.
    pub fn of(alloc: Global, cookies: Vec<StoredCookie>) -> Result<Store, AllocError>
        ensures in_turn { IfOk result (λ store. store ≡ kept_with_each cookies.items []) }
        ensures same { IsApart cookies.items → IfOk result (λ store. store ≡ cookies.items) }
    {
        let cookies: Vec<&StoredCookie> = cookies.iter().collect(alloc)?;
        Store::of_different(alloc, &stored_in_turn(alloc, &cookies)?)
    }

    // A store of copies of different cookies.
    fn of_different(alloc: Global, cookies: &[&StoredCookie]) -> Result<Store, AllocError>
        requires { IsApart (targets cookies.now) }
        ensures { IfOk result (λ store. store ≡ targets cookies.now) }
    {
        let rows = Rows::of(alloc, cookies)?;
        Ok(Store { alloc, rows })
    }

    /// Stores each of these cookies in turn, but for those that are expired at the time `now` in UTC: it takes the place
    /// of the one with its name, domain, host-only flag and path, or comes last. So a program loads what it saved. For n
    /// cookies it makes about n log n comparisons. Fails only if out of memory, and then the store is as before.
    pub fn load(&mut self, cookies: Vec<StoredCookie>, now: DateTime) -> Result<(), AllocError>
        ensures ok { OnOk result (self.new ≡ kept_with_each (lasting now cookies.items) self.old) }
        ensures err { OnErr result (self.new ≡ self.old) }
    {
        *self = self.loaded(&cookies, now)?;
        Ok(())
    }

    /// Does what [`load`](Store::load) and then [`trim`](Store::trim) say. With many cookies it is faster than the two,
    /// since it stores only those that stay. Fails only if out of memory, and then the store is as before.
    pub fn load_within(
        &mut self,
        cookies: Vec<StoredCookie>,
        suffixes: &Suffixes,
        limits: Limits,
        now: DateTime,
    ) -> Result<(), AllocError>
        ensures ok { OnOk result (self.new ≡ trimmed suffixes.now limits now
            (kept_with_each (lasting now cookies.items) self.old)) }
        ensures err { OnErr result (self.new ≡ self.old) }
    {
        *self = self.loaded_within(&cookies, suffixes, limits, now)?;
        Ok(())
    }

    /// The cookies, in the order of their creation. Some may be expired.
    pub fn cookies(&self) -> Cookies<'_>
        ensures value { result ≡ self.now }
        ensures apart { IsApart self.now }
    {
        self.rows.cookies()
    }

    /// How many cookies there are. Some may be expired.
    pub fn len(&self) -> usize
        ensures { result ≡ length self.now }
    {
        self.rows.len()
    }

    /// The cookie at this place in [`cookies`](Store::cookies), or `None` if there are no more. It takes constant time
    /// after [`pack`](Store::pack), and else as long as a walk to the place.
    pub fn cookie_at(&self, place: usize) -> Option<&StoredCookie>
        ensures { option_copied result ≡ slice_get self.now place }
    {
        self.rows.cookie_at(place)
    }

    /// Moves the cookies together, which removals leave apart, so that [`cookie_at`](Store::cookie_at) takes constant
    /// time. Out of memory it does nothing.
    pub fn pack(&mut self)
        ensures { self.new ≡ self.old }
    {
        let _ = self.rows.pack(self.alloc);
    }

    /// Removes the cookie of this name and this scope, expired or not, and returns whether there was one.
    pub fn remove(&mut self, name: &[u8], scope: &Scope) -> bool
        ensures value { self.new
            ≡ filter (λ cookie. not (is_named_in name.now scope.now cookie)) self.old }
        ensures found { result ≡ list_any (is_named_in name.now scope.now) self.old }
    {
        match self.rows.find_named(self.alloc, name, scope) {
            Some(place) => {
                self.rows.remove(place);
                true
            }
            None => false,
        }
    }

    /// Removes the cookies of this domain and of the domains below it, expired or not: what a browser clears for a site,
    /// if `domain` is the site's registrable domain (Clear Site Data, Clear Cookies For Origin). `domain` is in lower
    /// case. A cookie of a domain above it stays, though hosts in `domain` may get it.
    pub fn clear_domain(&mut self, domain: &[u8])
        ensures { self.new ≡ filter (λ cookie. not (is_of_domain domain.now cookie)) self.old }
    {
        self.rows.clear_domain(domain);
    }

    /// Removes all cookies.
    pub fn clear(&mut self)
        ensures { self.new ≡ [] }
    {
        self.rows = Rows::new(self.alloc);
    }

    /// Drops the cookies that are expired at the time `now` in UTC.
    pub fn evict(&mut self, now: DateTime)
        ensures { self.new ≡ lasting now self.old }
    {
        self.rows.evict(now);
    }

    /// Drops what is expired at the time `now` in UTC, and then the cookies above the limits, as RFC 6265bis orders
    /// them (Storage Model). First, of each domain with too many cookies, those that aren't secure-only go before the
    /// others. Then they go so of each site with too many, which RFC 6265bis doesn't have. Then, if there are too many
    /// cookies in all, cookies of any domain go. If the order leaves a choice, the cookie with the earliest last access
    /// goes.
    ///
    /// The last access is when a cookie was last stored, or sent by [`retrieve`](crate::Agent::retrieve). Of cookies
    /// with the same last access, the one that was created first goes.
    ///
    /// For n cookies it makes about n log n comparisons. Fails only if out of memory, and then the store is as before.
    pub fn trim(
        &mut self,
        suffixes: &Suffixes,
        limits: Limits,
        now: DateTime,
    ) -> Result<(), AllocError>
        ensures value { OnOk result (self.new ≡ trimmed suffixes.now limits now self.old) }
        ensures within { OnOk result (IsWithin suffixes.now limits self.new) }
        ensures needed { OnOk result (IsWithin suffixes.now limits (lasting now self.old)
            → self.new ≡ lasting now self.old) }

        // No site's cookies push out another's, if all sites leave room.
        ensures apart { OnOk result (TrimsApart suffixes.now limits now self.old self.new) }
        ensures err { OnErr result (self.new ≡ self.old) }
    {
        let places = places_within(self.alloc, suffixes, self.cookies(), limits, now)?;
        self.rows.keep(&places);
        Ok(())
    }

    /// An equal store. Fails only if out of memory.
    pub fn clone(&self) -> Result<Store, AllocError>
        ensures { IfOk result (λ made. made ≡ self.now) }
    {
        Store::of_different(self.alloc, &borrowed(self.alloc, self.cookies())?)
    }

    // A store of what `load` leaves.
    fn loaded(&self, cookies: &[StoredCookie], now: DateTime) -> Result<Store, AllocError>
        ensures { IfOk result (λ store.
            store ≡ kept_with_each (lasting now cookies.now) self.now) }
    {
        Store::of_different(self.alloc, &self.with_each(cookies, now)?)
    }

    // A store of what `load_within` leaves.
    fn loaded_within(
        &self,
        cookies: &[StoredCookie],
        suffixes: &Suffixes,
        limits: Limits,
        now: DateTime,
    ) -> Result<Store, AllocError>
        ensures { IfOk result (λ store. store ≡ trimmed suffixes.now limits now
            (kept_with_each (lasting now cookies.now) self.now)) }
    {
        let all = self.with_each(cookies, now)?;
        let kept = kept_within(self.alloc, suffixes, &all, limits, now)?;
        Store::of_different(self.alloc, &kept)
    }

    // The cookies after each of these was stored in turn, but for those that are expired at the time `now`.
    fn with_each<'a>(
        &'a self,
        cookies: &'a [StoredCookie],
        now: DateTime,
    ) -> Result<Vec<&'a StoredCookie>, AllocError>
        ensures value { IfOk result (λ all.
            targets all.items ≡ kept_with_each (lasting now cookies.now) self.now) }
        ensures apart { IfOk result (λ all. IsApart (targets all.items)) }
    {
        let mut all = borrowed(self.alloc, self.cookies())?;
        push_lasting(&mut all, cookies, now)?;
        stored_in_turn(self.alloc, &all)
    }

    // Where it allocates.
    pub(crate) fn alloc(&self) -> Global {
        self.alloc
    }

    // Puts a cookie in the place of the one with its key that isn't expired, or last, and drops what is expired.
    pub(crate) fn put(&mut self, cookie: StoredCookie, now: DateTime) -> Result<(), AllocError>
        ensures ok { OnOk result (self.new
            ≡ lasting now (kept_with cookie (lasting now self.old))) }
        ensures err { OnErr result (self.new ≡ self.old) }
    {
        self.rows.put(self.alloc, cookie, now)?;
        self.rows.evict(now);
        Ok(())
    }

    // Whether the new cookie would overlay one that isn't expired, if it comes over an insecure connection.
    pub(crate) fn overlays(
        &self,
        request: &BrowserRequest<'_>,
        new: &KeptCookie<'_>,
        now: DateTime,
    ) -> Result<bool, AllocError>
        ensures { IfOk result (λ found. found ≡ list_any
            (is_overlaid (request_view request.now) (kept_view new.now)) (lasting now self.now)) }
    {
        let places = self.rows.places_around(self.alloc, new.domain)?;
        Ok(any_overlaid(&self.rows.slots, &places, request, new, now))
    }

    // The header of the cookies that are sent.
    pub(crate) fn header(&self, site: &Site, now: DateTime) -> Result<Vec<u8>, AllocError>
        ensures { IfOk result (λ header. IsOrderedHeader site.now now self.now header.items) }
    {
        let places = self.rows.places(self.alloc, site)?;
        header_of(self.alloc, &self.rows.slots, &places, site, now)
    }

    // The header of the cookies that are sent, whose last access it sets. After an error the store is as before.
    pub(crate) fn retrieve(&mut self, site: &Site, now: DateTime) -> Result<Vec<u8>, AllocError>
        ensures value { IfOk result (λ header.
            IsOrderedHeader site.now now self.old header.items) }
        ensures ok { OnOk result (self.new ≡ map (accessed site.now now) self.old) }
        ensures err { OnErr result (self.new ≡ self.old) }
    {
        let places = self.rows.places(self.alloc, site)?;
        let header = header_of(self.alloc, &self.rows.slots, &places, site, now)?;
        self.rows.access(&places, site, now);
        Ok(header)
    }
}

// Puts the cookies that aren't expired after the others.
fn push_lasting<'a>(
    stored: &mut Vec<&'a StoredCookie>,
    cookies: &'a [StoredCookie],
    now: DateTime,
) -> Result<(), AllocError>
    ensures { OnOk result (targets stored.new.items
        ≡ targets stored.old.items ++ lasting now cookies.now) }
{
    for cookie in cookies {
        if cookie.lasts(now) {
            stored.push(cookie)?;
        }
    }
    Ok(())
}
