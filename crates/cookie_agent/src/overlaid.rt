//! What a new cookie would overlay (RFC 6265bis, Storage Model).
ghost use Rattle.std.specs.Prelude.{◌≡◌, ◌&&◌, ℕ, true, Contains};
ghost use Rattle.std.specs.List.{list_any};
ghost use Rattle.cookie_browser.specs.RefusedCode.{kept_view, request_view};
ghost use Rattle.cookie_browser.specs.Storage.{is_overlaid, lasting, lasts};
ghost use Rattle.cookie_agent.specs.IndexCode.{is_around};
ghost use Rattle.cookie_agent.specs.RowsCode.{has, held, slot_at};

use crate::slots::cookie_in;
use crate::stored::StoredCookie;
use cookie_browser::{BrowserRequest, KeptCookie};
use jiff::civil::DateTime;

// Whether the new cookie would overlay one that isn't expired. Those whose domain is near its own are in some of these
// slots.
pub(crate) fn any_overlaid(
    slots: &[Option<StoredCookie>],
    places: &[usize],
    request: &BrowserRequest<'_>,
    new: &KeptCookie<'_>,
    now: DateTime,
) -> bool
    requires { (place : ℕ)
        → has (λ c. is_around (kept_view new.now).domain c.domain) (slot_at slots.now place) ≡ true
        → Contains places.now place }
    ensures { result ≡ list_any (is_overlaid (request_view request.now) (kept_view new.now))
        (lasting now (held slots.now)) }
{
    for &place in places {
        if is_overlaid_in(slots, place, request, new, now) {
            return true;
        }
    }
    false
}

// Whether the new cookie would overlay the one in this slot, and that isn't expired.
fn is_overlaid_in(
    slots: &[Option<StoredCookie>],
    place: usize,
    request: &BrowserRequest<'_>,
    new: &KeptCookie<'_>,
    now: DateTime,
) -> bool
    ensures { result ≡ has (λ c. lasts c.expiry now
        && is_overlaid (request_view request.now) (kept_view new.now) c)
        (slot_at slots.now place) }
{
    match cookie_in(slots, place) {
        Some(old) => old.as_kept().is_overlaid_by(new, request) && old.lasts(now),
        None => false,
    }
}
