//! Dropping cookies of a user agent for C.
ghost use Rattle.std.specs.Prelude.{◌≡◌};
ghost use Rattle.cookie_c.specs.Agents.{ChangesBy, ChangesStore, Clears, Evicts, Removes, Trims};
ghost use Rattle.cookie_c.specs.Explanations.{suffixes_of};

use super::Agent;
use crate::handle::with_content;
use crate::sessions::time::time_at;
use crate::status::Status;
use cookie_agent::{Limits, Scope, Store};
use cookie_browser::Suffixes;
use std::alloc::Global;

/// Drops what is expired. `now` is the time in seconds since 1970 in UTC.
///
/// Refuses a handle without an agent, and then a time after 9999-12-30 22:00:00. It doesn't allocate.
#[unsafe(no_mangle)]
pub extern "C" fn cookie_agent_evict(alloc: Global, agent: &mut Agent, now: u64) -> u32
    ensures { ChangesStore (Evicts now) result agent.old agent.new }
{
    with_content!(alloc, agent.handle,
        Store(store) => evict(store, now).code(),
        _ => Status::NoAgent.code(),
    )
}

/// Drops what is expired, and then the cookies above the limits: of a domain, of a site, and of all (RFC 6265bis, Storage
/// Model). A site is a registrable domain with all hosts below it, by the rules; a host that has none is its own site. Of
/// a domain's and of a site's cookies those that aren't secure-only go first, and then those with the earliest last
/// access. Of all cookies those with the earliest last access go. RFC 6265bis requires at least 50 of a domain and 3,000
/// in all, and has no limit of a site: with `total` in its place there is none. `now` is the time in seconds since 1970
/// in UTC. The rules are as before.
///
/// As long as the cookies that the limits leave of each site are at most `total`, no site's cookies push out those of
/// another.
///
/// Refuses a handle without rules, then a handle without an agent, and then a time after 9999-12-30 22:00:00. It may also
/// run out of memory. After a refusal the agent is as before.
#[unsafe(no_mangle)]
pub extern "C" fn cookie_agent_trim(
    alloc: Global,
    agent: &mut Agent,
    suffixes: &mut crate::suffixes::Suffixes,
    per_domain: usize,
    per_site: usize,
    total: usize,
    now: u64,
) -> u32
    ensures kept { suffixes_of suffixes.new ≡ suffixes_of suffixes.old }
    ensures trimmed { ChangesBy (suffixes_of suffixes.old)
        (Trims (record { per_domain = per_domain; per_site = per_site; total = total }) now)
        result agent.old agent.new }
{
    let limits = Limits {
        per_domain,
        per_site,
        total,
    };
    with_content!(alloc, suffixes.handle,
        Suffixes(rules) => trim_by(alloc, agent, rules, limits, now),
        _ => Status::NoSuffixes.code(),
    )
}

// Trims the agent by these rules.
fn trim_by(alloc: Global, agent: &mut Agent, rules: &Suffixes, limits: Limits, now: u64) -> u32
    ensures { ChangesStore (Trims limits now rules.now) result agent.old agent.new }
{
    with_content!(alloc, agent.handle,
        Store(store) => trim(store, rules, limits, now).code(),
        _ => Status::NoAgent.code(),
    )
}

/// Removes the cookie of this name, domain, host-only flag and path, expired or not. `domain` is in lower case.
///
/// Refuses a handle without an agent. It may run out of memory, and then the agent is as before. If there is no such
/// cookie, the status is `Status::NotFound`.
#[unsafe(no_mangle)]
pub extern "C" fn cookie_agent_remove(
    alloc: Global,
    agent: &mut Agent,
    name: &[u8],
    domain: &[u8],
    is_host_only: bool,
    path: &[u8],
) -> u32
    ensures { ChangesStore (Removes name.now
        (record { domain = domain.now; is_host_only = is_host_only; path = path.now }))
        result agent.old agent.new }
{
    with_content!(alloc, agent.handle,
        Store(store) => remove(alloc, store, name, domain, is_host_only, path).code(),
        _ => Status::NoAgent.code(),
    )
}

/// Removes the cookies of this domain and of the domains below it, expired or not: what a browser clears for a site, if
/// `domain` is the site's registrable domain (Clear Site Data, Clear Cookies For Origin). `domain` is in lower case.
///
/// Refuses a handle without an agent. It doesn't allocate.
#[unsafe(no_mangle)]
pub extern "C" fn cookie_agent_clear(alloc: Global, agent: &mut Agent, domain: &[u8]) -> u32
    ensures { ChangesStore (Clears domain.now) result agent.old agent.new }
{
    with_content!(alloc, agent.handle,
        Store(store) => clear(store, domain).code(),
        _ => Status::NoAgent.code(),
    )
}

fn evict(store: &mut Store, now: u64) -> Status
    ensures { Evicts now result store.old store.new }
{
    let Some(now) = time_at(now) else {
        return Status::NoDate;
    };
    store.evict(now);
    Status::Done
}

fn trim(store: &mut Store, rules: &Suffixes, limits: Limits, now: u64) -> Status
    ensures { Trims limits now rules.now result store.old store.new }
{
    let Some(now) = time_at(now) else {
        return Status::NoDate;
    };
    match store.trim(rules, limits, now) {
        Ok(()) => Status::Done,
        Err(_) => Status::OutOfMemory,
    }
}

fn remove(
    alloc: Global,
    store: &mut Store,
    name: &[u8],
    domain: &[u8],
    is_host_only: bool,
    path: &[u8],
) -> Status
    ensures { Removes name.now
        (record { domain = domain.now; is_host_only = is_host_only; path = path.now })
        result store.old store.new }
{
    match Scope::new(alloc, domain, is_host_only, path) {
        Ok(scope) => remove_in(store, name, &scope),
        Err(_) => Status::OutOfMemory,
    }
}

fn remove_in(store: &mut Store, name: &[u8], scope: &Scope) -> Status
    ensures { Removes name.now scope.now result store.old store.new }
{
    if store.remove(name, scope) {
        Status::Done
    } else {
        Status::NotFound
    }
}

fn clear(store: &mut Store, domain: &[u8]) -> Status
    ensures { Clears domain.now result store.old store.new }
{
    store.clear_domain(domain);
    Status::Done
}
