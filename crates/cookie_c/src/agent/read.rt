//! Reading a response's cookies for C.
ghost use Rattle.std.specs.Prelude.{◌≡◌, ◌⊎◌, Some};
ghost use Rattle.cookie_c.specs.Agents.{ReadsAt, ReadsBy, ReadsResponse, ReadsText, refusal_number, store_of, unread};
ghost use Rattle.cookie_c.specs.Explanations.{suffixes_of};
ghost use Rattle.cookie_c.specs.declared.status.Status.TheVariants as status;

use super::Agent;
use super::site::seen;
use crate::explanation::{Request, code_of};
use crate::handle::with_content;
use crate::sessions::time::time_at;
use crate::status::Status;
use cookie_agent::{Site, Store};
use cookie_browser::{Refusal, Suffixes};
use jiff::civil::DateTime;
use std::alloc::Global;
use std::mem::replace;

/// What a user agent makes of the text of a `Set-Cookie` header.
#[repr(C)]
#[derive(Clone, Copy)]
pub struct AgentReading {
    /// The number of a `Status`.
    pub status: u32,
    /// 0 if the agent stores the cookie, or the text isn't read, and else the number of the step that refuses it: of
    /// `Refusal`, from 1 on.
    pub refusal: u32,
}

/// Reads the value of a `Set-Cookie` header of the response to a request (RFC 6265bis, Storage Model). The cookie takes
/// the place of the one with its name, domain, host-only flag and path, or comes last. What is expired is dropped, so a
/// cookie that is expired drops the one whose place it takes. `now` is the time in seconds since 1970 in UTC. The rules
/// are as before.
///
/// Refuses a handle without rules, then a handle without an agent, then a time after 9999-12-30 22:00:00, and then a
/// host or a path that isn't UTF-8. It may also run out of memory. After each of these the agent is as before.
#[unsafe(no_mangle)]
pub extern "C" fn cookie_agent_read(
    alloc: Global,
    agent: &mut Agent,
    suffixes: &mut crate::suffixes::Suffixes,
    request: &Request<'_>,
    text: &[u8],
    now: u64,
) -> AgentReading
    ensures kept { suffixes_of suffixes.new ≡ suffixes_of suffixes.old }
    ensures read { ReadsBy (suffixes_of suffixes.old) request.now text.now now
        result (store_of agent.old) (store_of agent.new) }
{
    with_content!(alloc, suffixes.handle,
        Suffixes(rules) => read_by(alloc, agent, rules, request, text, now),
        _ => AgentReading::none(Status::NoSuffixes),
    )
}

// Reads the text by these rules.
fn read_by(
    alloc: Global,
    agent: &mut Agent,
    rules: &Suffixes,
    request: &Request<'_>,
    text: &[u8],
    now: u64,
) -> AgentReading
    ensures { ReadsAt rules.now request.now text.now now
        result (store_of agent.old) (store_of agent.new) }
{
    with_content!(alloc, agent.handle,
        Store(store) => read_response(alloc, store, rules, request, text, now),
        _ => AgentReading::none(Status::NoAgent),
    )
}

fn read_response(
    alloc: Global,
    store: &mut Store,
    rules: &Suffixes,
    request: &Request<'_>,
    text: &[u8],
    now: u64,
) -> AgentReading
    ensures { ReadsResponse rules.now request.now text.now now result store.old store.new }
{
    let Some(now) = time_at(now) else {
        return AgentReading::none(Status::NoDate);
    };
    match seen(alloc, request) {
        Ok(site) => read(alloc, store, rules, &site, text, now),
        Err(why) => AgentReading::none(why),
    }
}

fn read(
    alloc: Global,
    store: &mut Store,
    rules: &Suffixes,
    site: &Site,
    text: &[u8],
    now: DateTime,
) -> AgentReading
    ensures { ReadsText (record { rules = rules.now; cookies = store.old }) site.now
        now text.now result store.new
        ⊎ ((result ≡ unread status.OutOfMemory) × (store.new ≡ store.old)) }
{
    let had = replace(store, Store::new(alloc));
    let mut agent = cookie_agent::Agent::with_store(rules, had);
    let read = agent.read(site, text, now);
    *store = agent.into_store();
    match read {
        Ok(refusal) => AgentReading {
            status: Status::Done.code(),
            refusal: number_of(refusal),
        },
        Err(_) => AgentReading::none(Status::OutOfMemory),
    }
}

// The number of the step that refuses a cookie, and 0 if none does.
fn number_of(refusal: Option<Refusal>) -> u32
    ensures { result ≡ refusal_number refusal }
{
    match refusal {
        Some(why) => code_of(why),
        None => 0,
    }
}

impl AgentReading {
    // What a refused call returns: the text isn't read.
    fn none(why: Status) -> AgentReading
        ensures { result ≡ unread why }
    {
        AgentReading {
            status: why.code(),
            refusal: 0,
        }
    }
}
