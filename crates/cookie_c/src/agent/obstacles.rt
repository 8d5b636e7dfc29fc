//! Why a request doesn't send a stored cookie, for C (RFC 6265bis, Retrieval Algorithm).
ghost use Rattle.std.specs.Prelude.{◌≡◌, ◌≤◌, slice_get, if◌then◌else◌};
ghost use Rattle.cookie_agent.specs.Obstacles.{keeps};
ghost use Rattle.cookie_c.specs.Agents.{store_of};
ghost use Rattle.cookie_c.specs.Obstacles.{TellsObstacles, TellsObstaclesAt, TellsObstaclesIn, no_obstacles, obstacle_number, obstacles_number};

use super::Agent;
use super::site::seen;
use crate::explanation::Request;
use crate::handle::with_content;
use crate::sessions::time::time_at;
use crate::status::Status;
use cookie_agent::{Obstacle, Site, Store, StoredCookie};
use jiff::civil::DateTime;
use std::alloc::Global;

/// Why a request doesn't send a stored cookie.
#[repr(C)]
#[derive(Clone, Copy)]
pub struct Obstacles {
    /// The number of a `Status`.
    pub status: u32,
    /// The sum of the numbers of the conditions that the cookie fails: 1 it is expired, 2 the request goes to another
    /// host, 4 to another path, 8 the connection is insecure and the cookie secure-only, 16 the request comes from
    /// another site, and the cookie's enforcement forbids it. It is 0 if the request sends the cookie, and after a
    /// refusal.
    pub obstacles: u32,
}

/// Why a request doesn't send the stored cookie at this index, in the order of creation (RFC 6265bis, Retrieval
/// Algorithm): each condition that the cookie fails. `now` is the time in seconds since 1970 in UTC. The agent is as
/// before.
///
/// Refuses a handle without an agent, then a time after 9999-12-30 22:00:00, then a host or a path that isn't UTF-8,
/// and then an index past the last cookie, with `Status::NotFound`. It may run out of memory.
#[unsafe(no_mangle)]
pub extern "C" fn cookie_agent_obstacles(
    alloc: Global,
    agent: &mut Agent,
    index: usize,
    request: &Request<'_>,
    now: u64,
) -> Obstacles
    ensures kept { store_of agent.new ≡ store_of agent.old }
    ensures told { TellsObstaclesAt index request.now now (store_of agent.old) result }
{
    with_content!(alloc, agent.handle,
        Store(store) => {
            store.pack();
            tell(alloc, store, index, request, now)
        },
        _ => Obstacles::none(Status::NoAgent),
    )
}

fn tell(alloc: Global, store: &Store, index: usize, request: &Request<'_>, now: u64) -> Obstacles
    ensures { TellsObstaclesIn index request.now now store.now result }
{
    let Some(now) = time_at(now) else {
        return Obstacles::none(Status::NoDate);
    };
    match seen(alloc, request) {
        Ok(site) => tell_found(store, index, &site, now),
        Err(why) => Obstacles::none(why),
    }
}

fn tell_found(store: &Store, index: usize, site: &Site, now: DateTime) -> Obstacles
    ensures { TellsObstacles site.now now (slice_get store.now index) result }
{
    match store.cookie_at(index) {
        Some(cookie) => Obstacles {
            status: Status::Done.code(),
            obstacles: obstacles_number(cookie, site, now),
        },
        None => Obstacles::none(Status::NotFound),
    }
}

// The sum of the numbers of the obstacles that keep the cookie from the site.
fn obstacles_number(cookie: &StoredCookie, site: &Site, now: DateTime) -> u32
    ensures { result ≡ obstacles_number site.now now cookie.now }
{
    let expired = number_if(Obstacle::Expired, cookie, site, now);
    let host = number_if(Obstacle::Host, cookie, site, now);
    let path = number_if(Obstacle::Path, cookie, site, now);
    let connection = number_if(Obstacle::Connection, cookie, site, now);
    let same_site = number_if(Obstacle::SameSite, cookie, site, now);
    expired + host + path + connection + same_site
}

// The number of the obstacle, if it keeps the cookie from the site, and else 0.
fn number_if(obstacle: Obstacle, cookie: &StoredCookie, site: &Site, now: DateTime) -> u32
    ensures value { result
        ≡ (if keeps obstacle site.now now cookie.now then obstacle_number obstacle else 0) }
    ensures small { result ≤ 16 }
{
    if obstacle.keeps(cookie, site, now) {
        obstacle_number(obstacle)
    } else {
        0
    }
}

fn obstacle_number(obstacle: Obstacle) -> u32
    ensures value { result ≡ obstacle_number obstacle }
    ensures small { result ≤ 16 }
{
    match obstacle {
        Obstacle::Expired => 1,
        Obstacle::Host => 2,
        Obstacle::Path => 4,
        Obstacle::Connection => 8,
        Obstacle::SameSite => 16,
    }
}

impl Obstacles {
    // What a refused call returns.
    fn none(why: Status) -> Obstacles
        ensures { result ≡ no_obstacles why }
    {
        Obstacles {
            status: why.code(),
            obstacles: 0,
        }
    }
}
