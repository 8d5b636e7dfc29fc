//! Stored cookies, which are found by their domain.
ghost use Rattle.std.specs.Prelude.{◌≡◌, ◌&&◌, ◌++◌, ℕ, not, true, false, [], ◌∷◌, None, All, Contains, filter, is_some, length, map, nat_eq, nat_lt, option_copied, option_map, reverse, slice_get, slice_index, slice_set, IfOk, OnOk, OnErr, MatchOption};
ghost use Rattle.jiff.specs.Types.{DateTime};
ghost use Rattle.cookie_browser.specs.RefusedCode.{kept_view};
ghost use Rattle.cookie_browser.specs.Storage.{is_same_cookie, is_sent, kept_with, lasting};
ghost use Rattle.cookie_agent.specs.IndexCode.{is_around};
ghost use Rattle.cookie_agent.specs.LimitsCode.{Ascends, IsInOrder, picked};
ghost use Rattle.cookie_agent.specs.RowsCode.{AreListed, AreRows, AreTimed, has, held, slot_at};
ghost use Rattle.cookie_agent.specs.Sent.{accessed};
ghost use Rattle.cookie_agent.specs.SentCode.{targets};
ghost use Rattle.cookie_agent.specs.Stored.{IsApart, is_named_in, is_of_domain};
ghost use Rattle.cookie_agent.specs.StoredCode.{gives_place};

use crate::cookies::Cookies;
use crate::domain_index::{DomainIndex, reversed};
use crate::expiries::Expiries;
use crate::nanos::nanos_of;
use crate::scope::Scope;
use crate::site::Site;
use crate::slots::{cookie_in, expiry_in, is_expired_in, is_full, lasts_in, make_room};
use crate::stored::StoredCookie;
use cookie_browser::{Enforcement, KeptCookie};
use jiff::civil::DateTime;
use std::alloc::{AllocError, Global};

// How many slots may be empty, beside half as many as there are cookies.
const SPARE: usize = 64;

// Cookies in the order of their creation, each in a slot. A removal empties the slot, so no other cookie moves.
#[derive(Drop)]
pub(crate) struct Rows {
    pub(crate) slots: Vec<Option<StoredCookie>>,
    // The slots of the cookies by domain, and others.
    index: DomainIndex,
    // The slots of the cookies by expiry, and others.
    expiries: Expiries,
    // How many slots are empty.
    empty: usize,
}

impl Rows {
    pub(crate) fn new(alloc: Global) -> Rows
        ensures cookies { held result.slots.items ≡ [] }
        ensures rows { AreRows result }
    {
        Rows {
            slots: Vec::new(alloc),
            index: DomainIndex::new(alloc),
            expiries: Expiries::new(alloc),
            empty: 0,
        }
    }

    // Copies of these cookies, each in the slot of its place.
    pub(crate) fn of(alloc: Global, cookies: &[&StoredCookie]) -> Result<Rows, AllocError>
        ensures cookies { IfOk result (λ rows. held rows.slots.items ≡ targets cookies.now) }
        ensures rows { IfOk result AreRows }
    {
        let mut rows = Rows::new(alloc);
        for &cookie in cookies {
            let key = reversed(alloc, cookie.domain())?;
            rows.append(alloc, key, cookie.clone(alloc)?)?;
        }
        Ok(rows)
    }

    // The cookies, in the order of their creation.
    pub(crate) fn cookies(&self) -> Cookies<'_>
        ensures { result ≡ held self.now.slots.items }
    {
        Cookies::of(&self.slots)
    }

    // How many cookies there are.
    pub(crate) fn len(&self) -> usize
        requires { AreRows self.now }
        ensures { result ≡ length (held self.now.slots.items) }
    {
        self.slots.len() - self.empty
    }

    // The cookie at this place in the list of all.
    pub(crate) fn cookie_at(&self, place: usize) -> Option<&StoredCookie>
        requires { AreRows self.now }
        ensures { option_copied result ≡ slice_get (held self.now.slots.items) place }
    {
        if self.empty == 0 {
            return cookie_in(&self.slots, place);
        }
        self.cookies().nth(place)
    }

    // The slot of a cookie with this name, domain, host-only flag and path. `key` is the domain's reverse.
    pub(crate) fn find(&self, key: &[u8], kept: &KeptCookie<'_>) -> Option<usize>
        requires rows { AreRows self.now }
        requires key { key.now ≡ reverse (kept_view kept.now).domain }
        ensures { MatchOption result
            (All (λ c. is_same_cookie c (kept_view kept.now) ≡ false) (held self.now.slots.items))
            (λ place. has (λ c. is_same_cookie c (kept_view kept.now))
            (slot_at self.now.slots.items place) ≡ true) }
    {
        same_among(&self.slots, self.index.at(key), kept)
    }

    // The slot of the cookie of this name and this scope.
    pub(crate) fn find_named(&self, alloc: Global, name: &[u8], scope: &Scope) -> Option<usize>
        requires { AreRows self.now }
        ensures { MatchOption result
            (All (λ c. is_named_in name.now scope.now c ≡ false) (held self.now.slots.items))
            (λ place. has (is_named_in name.now scope.now)
            (slot_at self.now.slots.items place) ≡ true) }
    {
        // Without memory for the key it looks at each cookie.
        let Ok(key) = reversed(alloc, scope.domain()) else {
            return named_among(&self.slots, name, scope);
        };
        self.find(
            &key,
            &KeptCookie {
                name,
                value: b"",
                domain: scope.domain(),
                is_host_only: scope.is_host_only(),
                path: scope.path(),
                is_secure_only: false,
                is_http_only: false,
                same_site: Enforcement::None,
            },
        )
    }

    // Puts a cookie in the slot of the same one that isn't expired, or last. After an error the cookies are as before.
    pub(crate) fn put(
        &mut self,
        alloc: Global,
        cookie: StoredCookie,
        now: DateTime,
    ) -> Result<(), AllocError>
        requires rows { AreRows self.old }
        requires apart { IsApart (held self.old.slots.items) }
        ensures ok { OnOk result (lasting now (held self.new.slots.items)
            ≡ lasting now (kept_with cookie (lasting now (held self.old.slots.items)))) }
        ensures err { OnErr result (held self.new.slots.items ≡ held self.old.slots.items) }
        ensures rows { AreRows self.new }
    {
        let key = reversed(alloc, cookie.domain())?;
        match self.find_lasting(&key, &cookie.as_kept(), now) {
            Some(place) => {
                let old = expiry_in(&self.slots, place);
                self.expiries.replace(place, old, cookie.expiry_nanos())?;
                self.slots[place] = Some(cookie);
                Ok(())
            }
            None => self.push(alloc, key, cookie),
        }
    }

    // The slot of such a cookie, if it isn't expired.
    fn find_lasting(&self, key: &[u8], kept: &KeptCookie<'_>, now: DateTime) -> Option<usize>
        requires rows { AreRows self.now }
        requires apart { IsApart (held self.now.slots.items) }
        requires key { key.now ≡ reverse (kept_view kept.now).domain }
        ensures { MatchOption result
            (All (λ c. gives_place (kept_view kept.now) now c ≡ false) (held self.now.slots.items))
            (λ place. has (gives_place (kept_view kept.now) now)
            (slot_at self.now.slots.items place) ≡ true) }
    {
        let place = self.find(key, kept)?;
        if lasts_in(&self.slots, place, now) {
            Some(place)
        } else {
            None
        }
    }

    // Puts a cookie last. `key` is its domain's reverse. After an error the cookies are as before.
    fn push(&mut self, alloc: Global, key: Vec<u8>, cookie: StoredCookie) -> Result<(), AllocError>
        requires rows { AreRows self.old }
        requires key { key.items ≡ reverse cookie.domain }
        ensures ok { OnOk result
            (held self.new.slots.items ≡ held self.old.slots.items ++ cookie ∷ []) }
        ensures err { OnErr result (held self.new.slots.items ≡ held self.old.slots.items) }
        ensures rows { AreRows self.new }
    {
        if self.empty > self.len() / 2 + SPARE {
            self.pack(alloc)?;
        }
        self.index.prune(&key, &self.slots);
        self.append(alloc, key, cookie)
    }

    // Puts a cookie in a new slot. `key` is its domain's reverse. After an error the cookies are as before.
    fn append(
        &mut self,
        alloc: Global,
        key: Vec<u8>,
        cookie: StoredCookie,
    ) -> Result<(), AllocError>
        requires rows { AreRows self.old }
        requires key { key.items ≡ reverse cookie.domain }
        ensures ok { OnOk result
            (held self.new.slots.items ≡ held self.old.slots.items ++ cookie ∷ []) }
        ensures err { OnErr result (held self.new.slots.items ≡ held self.old.slots.items) }
        ensures rows { AreRows self.new }
    {
        make_room(&mut self.slots)?;
        let number = self.slots.len();
        self.index.add(alloc, key, number)?;
        self.expiries.add(number, cookie.expiry_nanos())?;
        self.slots.push(Some(cookie))?;
        Ok(())
    }

    // Drops the empty slots. After an error all is as before.
    pub(crate) fn pack(&mut self, alloc: Global) -> Result<(), AllocError>
        requires { AreRows self.old }
        ensures cookies { held self.new.slots.items ≡ held self.old.slots.items }
        ensures rows { AreRows self.new }
    {
        if self.empty > 0 {
            let (index, expiries) = packed(alloc, &self.slots)?;
            self.index = index;
            self.expiries = expiries;
            self.slots.retain(|slot| slot.is_some());
            self.empty = 0;
        }
        Ok(())
    }

    // Removes the cookie of this slot.
    pub(crate) fn remove(&mut self, place: usize)
        requires rows { AreRows self.old }
        requires full { is_some (slot_at self.old.slots.items place) ≡ true }
        ensures slots { self.new.slots.items ≡ slice_set self.old.slots.items place None }
        ensures rows { AreRows self.new }
    {
        self.expiries.remove(place, expiry_in(&self.slots, place));
        self.slots[place] = None;
        self.empty += 1;
    }

    // Removes the cookies that are expired.
    pub(crate) fn evict(&mut self, now: DateTime)
        requires { AreRows self.old }
        ensures cookies { held self.new.slots.items ≡ lasting now (held self.old.slots.items) }
        ensures rows { AreRows self.new }
    {
        let time = nanos_of(now);
        while let Some(place) = self.expiries.pop_due(time) {
            if is_expired_in(&self.slots, place, now) {
                self.slots[place] = None;
                self.empty += 1;
            }
        }
    }

    // Removes the cookies of this domain and of the domains below it.
    pub(crate) fn clear_domain(&mut self, domain: &[u8])
        requires { AreRows self.old }
        ensures cookies { held self.new.slots.items
            ≡ filter (λ c. not (is_of_domain domain.now c)) (held self.old.slots.items) }
        ensures rows { AreRows self.new }
    {
        for place in 0..self.slots.len() {
            if let Some(cookie) = cookie_in(&self.slots, place) {
                if cookie.is_of_domain(domain) {
                    self.remove(place);
                }
            }
        }
    }

    // Keeps the cookies at these places in their list only.
    pub(crate) fn keep(&mut self, places: &[usize])
        requires rows { AreRows self.old }
        requires places { IsInOrder (length (held self.old.slots.items)) places.now }
        ensures cookies { held self.new.slots.items
            ≡ picked (held self.old.slots.items) places.now }
        ensures rows { AreRows self.new }
    {
        let mut place = 0;
        let mut kept = 0;
        for slot in 0..self.slots.len() {
            if is_full(&self.slots, slot) {
                if is_at(places, kept, place) {
                    kept += 1;
                } else {
                    self.remove(slot);
                }
                place += 1;
            }
        }
    }

    // The slots of the cookies that may be sent to the site, and others.
    pub(crate) fn places(&self, alloc: Global, site: &Site) -> Result<Vec<usize>, AllocError>
        requires { AreRows self.now }
        ensures ascend { IfOk result (λ places. Ascends 0 places.items) }
        ensures sent { IfOk result (λ places. (now : DateTime) (place : ℕ)
            → has (is_sent site.now now) (slot_at self.now.slots.items place) ≡ true
            → Contains places.items place) }
    {
        let mut places = self.index.above(alloc, site.host())?;
        places.sort_unstable();
        places.dedup();
        Ok(places)
    }

    // The slots of the cookies of a domain and of the domains above and below it, and others.
    pub(crate) fn places_around(
        &self,
        alloc: Global,
        domain: &[u8],
    ) -> Result<Vec<usize>, AllocError>
        requires { AreRows self.now }
        ensures { IfOk result (λ places. (place : ℕ)
            → has (λ c. is_around domain.now c.domain) (slot_at self.now.slots.items place) ≡ true
            → Contains places.items place) }
    {
        self.index.around(alloc, domain)
    }

    // Sets the last access of each cookie that is sent. These are in some of the slots.
    pub(crate) fn access(&mut self, places: &[usize], site: &Site, now: DateTime)
        requires rows { AreRows self.old }
        requires sent { (place : ℕ)
            → has (is_sent site.now now) (slot_at self.old.slots.items place) ≡ true
            → Contains places.now place }
        ensures cookies { held self.new.slots.items
            ≡ map (accessed site.now now) (held self.old.slots.items) }
        ensures rows { AreRows self.new }
    {
        for &place in places {
            access(&mut self.slots, place, site, now);
        }
    }
}

// The slot of a cookie with this name, domain, host-only flag and path, if it is one of these.
fn same_among(
    slots: &[Option<StoredCookie>],
    these: &[usize],
    kept: &KeptCookie<'_>,
) -> Option<usize>
    ensures { MatchOption result
        ((place : ℕ) → Contains these.now place
        → has (λ c. is_same_cookie c (kept_view kept.now)) (slot_at slots.now place) ≡ false)
        (λ place. has (λ c. is_same_cookie c (kept_view kept.now)) (slot_at slots.now place)
        ≡ true) }
{
    for &place in these {
        if let Some(cookie) = cookie_in(slots, place) {
            if cookie.is_same(kept) {
                return Some(place);
            }
        }
    }
    None
}

// Whether the number at this index is this one.
fn is_at(numbers: &[usize], index: usize, number: usize) -> bool
    ensures { result ≡ (nat_lt index (length numbers.now)
        && nat_eq (slice_index numbers.now index) number) }
{
    index < numbers.len() && numbers[index] == number
}

// The slot of the cookie of this name and this scope.
fn named_among(slots: &[Option<StoredCookie>], name: &[u8], scope: &Scope) -> Option<usize>
    ensures { MatchOption result
        (All (λ c. is_named_in name.now scope.now c ≡ false) (held slots.now))
        (λ place. has (is_named_in name.now scope.now) (slot_at slots.now place) ≡ true) }
{
    for place in 0..slots.len() {
        if let Some(cookie) = cookie_in(slots, place) {
            if cookie.is_named_in(name, scope) {
                return Some(place);
            }
        }
    }
    None
}

// What finds the cookies in the slots without those that are empty.
fn packed(
    alloc: Global,
    slots: &[Option<StoredCookie>],
) -> Result<(DomainIndex, Expiries), AllocError>
    ensures listed { IfOk result (λ made. AreListed made.0 (filter is_some slots.now)) }
    ensures timed { IfOk result (λ made. AreTimed made.1 (filter is_some slots.now)) }
{
    let mut index = DomainIndex::new(alloc);
    let mut expiries = Expiries::new(alloc);
    let mut number = 0;
    for slot in slots {
        if let Some(cookie) = slot {
            let key = reversed(alloc, cookie.domain())?;
            index.add(alloc, key, number)?;
            expiries.add(number, cookie.expiry_nanos())?;
            number += 1;
        }
    }
    Ok((index, expiries))
}

// Sets the last access of the cookie in this slot, if there is one that is sent.
fn access(slots: &mut Vec<Option<StoredCookie>>, place: usize, site: &Site, now: DateTime)
    ensures { slots.new.items ≡ slice_set slots.old.items place
        (option_map (accessed site.now now) (slot_at slots.old.items place)) }
{
    if place < slots.len() {
        if let Some(cookie) = &mut slots[place] {
            cookie.access(site, now);
        }
    }
}
