//! Loading a user agent's saved cookies for C.
ghost use Rattle.std.specs.Prelude.{◌≡◌};
ghost use Rattle.cookie_c.specs.Agents.{store_of};
ghost use Rattle.cookie_c.specs.Explanations.{suffixes_of};
ghost use Rattle.cookie_c.specs.SavedAgents.{Loads, LoadsAt, LoadsBy, loaded_with, unloaded, with_head};
ghost use Rattle.cookie_c.specs.declared.status.Status.TheVariants as status;

use super::Agent;
use super::form::form_of;
use crate::handle::with_content;
use crate::sessions::time::time_at;
use crate::status::Status;
use cookie_agent::{Limits, LoadedCookies, Store};
use cookie_browser::Suffixes;
use std::alloc::Global;

/// The return value of a call that loads saved cookies.
#[repr(C)]
#[derive(Clone, Copy, Default)]
pub struct AgentLoading {
    /// The number of a `Status`. If it isn't `Status::Done`, all else is 0.
    pub status: u32,
    /// How many lines are bad. The others are loaded.
    pub bad_lines: usize,
}

/// Adds the cookies of a saved text to the agent's, as if each was stored in turn: it takes the place of the one with
/// its name, domain, host-only flag and path, or comes last. Then drops what is expired, and the cookies above the
/// limits, as `cookie_agent_trim` does. `form` is 0 for Netscape's `cookies.txt`, and 1 for a JSON object a line. `now`
/// is the time in seconds since 1970 in UTC. The rules are as before.
///
/// A line is bad if it isn't a cookie that a user agent could have stored: it is skipped, and counted. So is a cookie
/// for a public suffix and the hosts below it. The array `bad_lines` gets the numbers of the bad lines, counted from 1,
/// in their order: as many of the first as have room. The rest of the array is as before. Any bytes can be read. A cookie
/// that expires more than 400 days after `now` expires then.
///
/// Refuses a handle without rules, then a handle without an agent, then a number that isn't a form's, with
/// `Status::BadAttribute`, and then a time after 9999-12-30 22:00:00. It may also run out of memory. After a refusal the
/// agent and the array are as before.
#[unsafe(no_mangle)]
pub extern "C" fn cookie_agent_load(
    alloc: Global,
    agent: &mut Agent,
    suffixes: &mut crate::suffixes::Suffixes,
    form: u32,
    text: &[u8],
    per_domain: usize,
    per_site: usize,
    total: usize,
    now: u64,
    bad_lines: &mut [usize],
) -> AgentLoading
    ensures kept { suffixes_of suffixes.new ≡ suffixes_of suffixes.old }
    ensures loaded { LoadsBy (suffixes_of suffixes.old)
        (record { per_domain = per_domain; per_site = per_site; total = total }) form now text.now
        result bad_lines.old bad_lines.new (store_of agent.old) (store_of agent.new) }
{
    let limits = Limits {
        per_domain,
        per_site,
        total,
    };
    with_content!(alloc, suffixes.handle,
        Suffixes(rules) => load_by(alloc, agent, rules, limits, form, text, now, bad_lines),
        _ => AgentLoading::none(Status::NoSuffixes),
    )
}

// Loads the text by these rules.
fn load_by(
    alloc: Global,
    agent: &mut Agent,
    rules: &Suffixes,
    limits: Limits,
    form: u32,
    text: &[u8],
    now: u64,
    bad_lines: &mut [usize],
) -> AgentLoading
    ensures { LoadsAt rules.now limits form now text.now result bad_lines.old bad_lines.new
        (store_of agent.old) (store_of agent.new) }
{
    with_content!(alloc, agent.handle,
        Store(store) => load(alloc, store, rules, limits, form, text, now, bad_lines),
        _ => AgentLoading::none(Status::NoAgent),
    )
}

fn load(
    alloc: Global,
    store: &mut Store,
    rules: &Suffixes,
    limits: Limits,
    form: u32,
    text: &[u8],
    now: u64,
    bad_lines: &mut [usize],
) -> AgentLoading
    ensures { Loads rules.now limits form now text.now result
        bad_lines.old bad_lines.new store.old store.new }
{
    let Some(form) = form_of(form) else {
        return AgentLoading::none(Status::BadAttribute);
    };
    let Some(now) = time_at(now) else {
        return AgentLoading::none(Status::NoDate);
    };
    let Ok(
        LoadedCookies {
            cookies,
            bad_lines: bad,
        },
    ) = form.read(alloc, rules, text, now)
    else {
        return AgentLoading::none(Status::OutOfMemory);
    };
    match store.load_within(cookies, rules, limits, now) {
        Ok(()) => AgentLoading::give(&bad, bad_lines),
        Err(_) => AgentLoading::none(Status::OutOfMemory),
    }
}

impl AgentLoading {
    // What a refused call returns: nothing is loaded.
    fn none(why: Status) -> AgentLoading
        ensures { result ≡ unloaded why }
    {
        AgentLoading {
            status: why.code(),
            ..AgentLoading::default()
        }
    }
    // What a text with these bad lines returns. The numbers are at the head of the array, as many as have room.
    fn give(lines: &[usize], array: &mut [usize]) -> AgentLoading
        ensures told { result ≡ loaded_with lines.now }
        ensures listed { array.new ≡ with_head lines.now array.old }
    {
        let count = lines.len().min(array.len());
        array[..count].copy_from_slice(&lines[..count]);
        AgentLoading {
            status: Status::Done.code(),
            bad_lines: lines.len(),
        }
    }
}
