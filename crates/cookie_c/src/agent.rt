//! A user agent in a handle of C (RFC 6265bis).
ghost use Rattle.std.specs.Prelude.{◌≡◌, [], None};
ghost use Rattle.cookie_c.specs.Agents.{store_of};
ghost use Rattle.cookie_c.specs.Handles.{IsPut, Tells};

mod change;
mod form;
mod load;
mod obstacles;
mod read;
mod refusal;
mod save;
mod send;
mod site;
mod walk;

use crate::handle::Handle;
use crate::handle::content::Content;
use cookie_agent::Store;
use std::alloc::Global;

/// A handle of a user agent: what it stores, without the rules of public suffixes.
#[repr(C)]
#[derive(Drop)]
pub struct Agent {
    /// What has the cookies.
    pub handle: Handle,
}

/// Puts a user agent that stores nothing into the handle, and frees the one that it had, if it had one.
///
/// It fails only when memory runs out, and then the handle is as before.
#[unsafe(no_mangle)]
pub extern "C" fn cookie_agent_new(alloc: Global, agent: &mut Agent) -> u32
    ensures { Tells (λ answer. IsPut [] answer (store_of agent.old) (store_of agent.new)) result }
{
    let store = Content::Store(Store::new(alloc));
    agent.handle.set(alloc, store).code()
}

/// Frees the handle's user agent, if it has one. The handle has none then.
#[unsafe(no_mangle)]
pub extern "C" fn cookie_agent_free(alloc: Global, agent: &mut Agent)
    ensures { agent.new.handle.held.content ≡ None }
{
    agent.handle.free(alloc);
}
