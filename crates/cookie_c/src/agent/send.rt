//! The `Cookie` header of a request for C.
ghost use Rattle.std.specs.Prelude.{◌≡◌, ◌⊎◌, true, false, Some, IfOk, OnErr, OnOk};
ghost use Rattle.cookie_agent.specs.HostJars.{AreOwnSet};
ghost use Rattle.cookie_agent.specs.Sent.{IsOrderedHeader};
ghost use Rattle.cookie_c.specs.Agents.{GivesHeader, SendsAt, SendsRequest, after_request, store_of};
ghost use Rattle.cookie_c.specs.Answers.{IsRefused};
ghost use Rattle.cookie_c.specs.declared.status.Status.TheVariants as status;

use super::Agent;
use super::site::seen;
use crate::answer::Answer;
use crate::explanation::Request;
use crate::handle::with_content;
use crate::sessions::time::time_at;
use crate::status::Status;
use cookie_agent::{Site, Store};
use cookie_browser::Suffixes;
use jiff::civil::DateTime;
use std::alloc::{AllocError, Global};
use std::mem::replace;

/// The value of the `Cookie` header of a request, for the buffer (RFC 6265bis, Retrieval Algorithm): longer paths first,
/// and the earlier creation first among equals. It is empty if no cookie is sent. `now` is the time in seconds since
/// 1970 in UTC. The agent is as before.
///
/// Under names with the prefix `__Host-`, in any case, a server reads of it only what the site's own secure responses
/// set, whatever else happened to an agent that began without cookies, and loaded only what was saved of such agents.
///
/// Refuses a handle without an agent, then a time after 9999-12-30 22:00:00, and then a host or a path that isn't UTF-8.
/// It may also run out of memory.
#[unsafe(no_mangle)]
pub extern "C" fn cookie_agent_header(
    alloc: Global,
    agent: &mut Agent,
    request: &Request<'_>,
    now: u64,
    out: &mut [u8],
) -> Answer
    ensures sent { SendsAt false request.now now result out.old out.new
        (store_of agent.old) (store_of agent.new) }
    ensures own_set { AreOwnSet }
{
    send_at(alloc, agent, false, request, now, out)
}

/// Does what [`cookie_agent_header`] says, for a request that is made: `now` becomes the last access of each cookie that
/// is sent (RFC 6265bis, Retrieval Algorithm), also if the buffer is too short.
#[unsafe(no_mangle)]
pub extern "C" fn cookie_agent_retrieve(
    alloc: Global,
    agent: &mut Agent,
    request: &Request<'_>,
    now: u64,
    out: &mut [u8],
) -> Answer
    ensures { SendsAt true request.now now result out.old out.new
        (store_of agent.old) (store_of agent.new) }
{
    send_at(alloc, agent, true, request, now, out)
}

fn send_at(
    alloc: Global,
    agent: &mut Agent,
    is_made: bool,
    request: &Request<'_>,
    now: u64,
    out: &mut [u8],
) -> Answer
    ensures { SendsAt is_made request.now now result out.old out.new
        (store_of agent.old) (store_of agent.new) }
{
    with_content!(alloc, agent.handle,
        Store(store) => send(alloc, store, is_made, request, now, out),
        _ => Answer::refusal(Status::NoAgent),
    )
}

fn send(
    alloc: Global,
    store: &mut Store,
    is_made: bool,
    request: &Request<'_>,
    now: u64,
    out: &mut [u8],
) -> Answer
    ensures { SendsRequest is_made request.now now result out.old out.new store.old store.new }
{
    let Some(now) = time_at(now) else {
        return Answer::refusal(Status::NoDate);
    };
    match seen(alloc, request) {
        Ok(site) => give_header(alloc, store, is_made, &site, now, out),
        Err(why) => Answer::refusal(why),
    }
}

// The header, for the buffer, by an agent of these cookies. Rules don't count for it.
fn give_header(
    alloc: Global,
    store: &mut Store,
    is_made: bool,
    site: &Site,
    now: DateTime,
    out: &mut [u8],
) -> Answer
    ensures { GivesHeader is_made site.now now result store.old store.new out.old out.new
        ⊎ (IsRefused status.OutOfMemory result out.old out.new × (store.new ≡ store.old)) }
{
    let rules = Suffixes::empty(alloc);
    let had = replace(store, Store::new(alloc));
    let mut agent = cookie_agent::Agent::with_store(&rules, had);
    let header = header_of(&mut agent, is_made, site, now);
    *store = agent.into_store();
    match header {
        Ok(header) => Answer::give(header.as_slice(), out),
        Err(_) => Answer::refusal(Status::OutOfMemory),
    }
}

fn header_of(
    agent: &mut cookie_agent::Agent<'_>,
    is_made: bool,
    site: &Site,
    now: DateTime,
) -> Result<Vec<u8>, AllocError>
    ensures value { IfOk result (λ header.
        IsOrderedHeader site.now now agent.old.cookies header.items) }
    ensures ok { OnOk result
        (agent.new.cookies ≡ after_request is_made site.now now agent.old.cookies) }
    ensures err { OnErr result (agent.new ≡ agent.old) }
{
    if is_made {
        agent.retrieve(site, now)
    } else {
        agent.header(site, now)
    }
}
