//! The session that a user agent's request opens.
ghost use Rattle.std.specs.Prelude.{◌≡◌, ◌↔◌, ℕ, IfOk, Some, alloc_error};
ghost use Rattle.cookie.specs.Memory.{Gives};
ghost use Rattle.cookie.specs.Originals.{field_cookies};
ghost use Rattle.cookie_session.specs.Session.{SessionState};
ghost use Rattle.cookie_session.specs.Sessions.{HoldsOne, OpensFirst};
ghost use Rattle.cookie_theorems.specs.OwnSessions.{IsRequestOpened, KeepsLastSave, OpensOnlyOwn, OpensOwnSet};

use cookie::field_cookies;
use cookie_agent::{Agent, Site};
use cookie_session::{Opened, Sessions};
use jiff::civil::DateTime;
use std::alloc::{AllocError, Global};

/// Has a user agent make a request to a site, at the time `now` in UTC, and opens the session of its `Cookie` header as
/// the site's server does, by [`Sessions::open`].
///
/// If the session's cookie has a name that begins with `__Host-`, the session comes from a cookie that one of the site's
/// own secure responses set, whatever happened to the agent. What other hosts and insecure connections send plants none,
/// whatever their texts are. If no byte of the name is escaped, and no time goes back, the session comes from the last
/// such cookie. It stays, unless [`Agent::remove`], [`Agent::clear_domain`] or [`Agent::trim`] drops it, or a load
/// brings an older one.
///
/// Fails only if out of memory.
pub fn open_for_agent(
    alloc: Global,
    sessions: &Sessions<'_>,
    agent: &Agent<'_>,
    site: &Site,
    now: DateTime,
) -> Result<Option<Opened>, AllocError>
    ensures opened { Gives alloc_error result
        (IsRequestOpened sessions.now agent.now site.now now) }

    // The site's own secure responses decide, if the cookie's name begins with `__Host-`.
    ensures own_set { IfOk result (OpensOwnSet sessions.now agent.now site.now now) }
    ensures own { IfOk result (OpensOnlyOwn sessions.now agent.now site.now now) }
    ensures saved { IfOk result (KeepsLastSave sessions.now agent.now site.now now) }
{
    let header = agent.header(site, now)?;
    open_field(alloc, sessions, &header, now)
}

// Opens the session of a `Cookie` field.
fn open_field(
    alloc: Global,
    sessions: &Sessions<'_>,
    field: &[u8],
    now: DateTime,
) -> Result<Option<Opened>, AllocError>
    ensures answers { Gives alloc_error result (λ answer. (place : ℕ) (s : SessionState)
        → (answer ≡ Some (record { session = s; place = place }))
        ↔ OpensFirst sessions.now (field_cookies field.now) now place s) }
    ensures once { IfOk result (λ _. (place : ℕ) (s : SessionState)
        → (first : OpensFirst sessions.now (field_cookies field.now) now place s)
        → HoldsOne sessions.now (Some first.cookie)) }
{
    let cookies = field_cookies(alloc, field)?;
    sessions.open(alloc, &cookies, now)
}
