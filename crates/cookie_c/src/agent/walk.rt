//! What a user agent stores, cookie by cookie, for C.
ghost use Rattle.std.specs.Prelude.{◌≡◌, slice_get};
ghost use Rattle.cookie_c.specs.Agents.{TellsAt, TellsCookie, TellsCount, TellsFound, TellsIn, store_of};

use super::Agent;
use crate::answer::Answer;
use crate::explanation::{Draft, Explanation};
use crate::handle::with_content;
use crate::sessions::time::time_at;
use crate::status::Status;
use cookie_agent::{Store, StoredCookie};
use jiff::civil::DateTime;
use std::alloc::Global;

/// How many cookies the agent stores, expired ones too: the length is their number. `cookie_agent_cookie` tells one at
/// each index below it. The agent is as before.
///
/// Refuses a handle without an agent. It doesn't allocate.
#[unsafe(no_mangle)]
pub extern "C" fn cookie_agent_count(alloc: Global, agent: &mut Agent) -> Answer
    ensures kept { store_of agent.new ≡ store_of agent.old }
    ensures told { TellsCount (store_of agent.old) result }
{
    with_content!(alloc, agent.handle,
        Store(store) => Answer::of(Status::Done, store.len()),
        _ => Answer::refusal(Status::NoAgent),
    )
}

/// The stored cookie at this index, in the order of creation, told as `cookie_explain` tells of a cookie that is stored:
/// its name, value, domain and path are for the buffer. 0 is the index of the first. It may be expired, and has no whole
/// second left then. `now` is the time in seconds since 1970 in UTC. The agent is as before.
///
/// Refuses a handle without an agent, then a time after 9999-12-30 22:00:00, and then an index past the last cookie,
/// with `Status::NotFound`. It also refuses a cookie whose expiry is more than 2^63 seconds off, with `Status::NoDate`.
/// It may run out of memory.
#[unsafe(no_mangle)]
pub extern "C" fn cookie_agent_cookie(
    alloc: Global,
    agent: &mut Agent,
    index: usize,
    now: u64,
    out: &mut [u8],
) -> Explanation
    ensures kept { store_of agent.new ≡ store_of agent.old }
    ensures told { TellsAt index now (store_of agent.old) result out.old out.new }
{
    with_content!(alloc, agent.handle,
        Store(store) => {
            store.pack();
            tell(alloc, store, index, now, out)
        },
        _ => Explanation::none(Status::NoAgent),
    )
}

fn tell(alloc: Global, store: &Store, index: usize, now: u64, out: &mut [u8]) -> Explanation
    ensures { TellsIn index now store.now result out.old out.new }
{
    match time_at(now) {
        Some(now) => tell_found(alloc, store, index, now, out),
        None => Explanation::none(Status::NoDate),
    }
}

fn tell_found(
    alloc: Global,
    store: &Store,
    index: usize,
    now: DateTime,
    out: &mut [u8],
) -> Explanation
    ensures { TellsFound now (slice_get store.now index) result out.old out.new }
{
    match store.cookie_at(index) {
        Some(cookie) => tell_cookie(alloc, cookie, now, out),
        None => Explanation::none(Status::NotFound),
    }
}

fn tell_cookie(alloc: Global, cookie: &StoredCookie, now: DateTime, out: &mut [u8]) -> Explanation
    ensures { TellsCookie now cookie.now result out.old out.new }
{
    match Draft::of_kept(alloc, cookie, now) {
        Ok(draft) => draft.give(out),
        Err(why) => Explanation::none(why),
    }
}
