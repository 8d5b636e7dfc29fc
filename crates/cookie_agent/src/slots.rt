//! Slots of stored cookies.
ghost use Rattle.std.specs.Prelude.{◌≡◌, not, None, Some, count_by, is_some, MatchOption};
ghost use Rattle.cookie_browser.specs.Storage.{lasts};
ghost use Rattle.cookie_agent.specs.RowsCode.{expiry_at, has, slot_at};

use crate::stored::StoredCookie;
use jiff::civil::DateTime;
use std::alloc::AllocError;

// The cookie in this slot, if there is such a slot and it isn't empty.
pub(crate) fn cookie_in(slots: &[Option<StoredCookie>], place: usize) -> Option<&StoredCookie>
    ensures { MatchOption result
        (slot_at slots.now place ≡ None)
        (λ cookie. slot_at slots.now place ≡ Some cookie.now) }
{
    slots.get(place)?.as_ref()
}

// Whether there is such a slot and it isn't empty.
pub(crate) fn is_full(slots: &[Option<StoredCookie>], place: usize) -> bool
    ensures { result ≡ is_some (slot_at slots.now place) }
{
    cookie_in(slots, place).is_some()
}

// Whether the slot has a cookie that isn't expired.
pub(crate) fn lasts_in(slots: &[Option<StoredCookie>], place: usize, now: DateTime) -> bool
    ensures { result ≡ has (λ c. lasts c.expiry now) (slot_at slots.now place) }
{
    match cookie_in(slots, place) {
        Some(cookie) => cookie.lasts(now),
        None => false,
    }
}

// How many slots aren't empty.
pub(crate) fn count_full(slots: &[Option<StoredCookie>]) -> usize
    ensures { result ≡ count_by is_some slots.now }
{
    slots.iter().filter(|slot| slot.is_some()).count()
}

// Whether the slot has a cookie that is expired.
pub(crate) fn is_expired_in(slots: &[Option<StoredCookie>], place: usize, now: DateTime) -> bool
    ensures { result ≡ has (λ c. not (lasts c.expiry now)) (slot_at slots.now place) }
{
    match cookie_in(slots, place) {
        Some(cookie) => !cookie.lasts(now),
        None => false,
    }
}

// The expiry of the slot's cookie, in nanoseconds since 1970, if it has one.
pub(crate) fn expiry_in(slots: &[Option<StoredCookie>], place: usize) -> Option<i128>
    ensures { result ≡ expiry_at (slot_at slots.now place) }
{
    match cookie_in(slots, place) {
        Some(cookie) => cookie.expiry_nanos(),
        None => None,
    }
}

// Makes room for one more slot. The slots grow by a quarter, since a slot is large.
pub(crate) fn make_room(slots: &mut Vec<Option<StoredCookie>>) -> Result<(), AllocError>
    ensures { slots.new.items ≡ slots.old.items }
{
    let len = slots.len();
    if len == slots.capacity() {
        slots.reserve_exact(len / 4 + 4)?;
    }
    Ok(())
}
