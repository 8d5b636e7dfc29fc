//! The sessions of a site for C.
ghost use Rattle.std.specs.Prelude.{◌≡◌, None};
ghost use Rattle.cookie_c.specs.Handles.{Tells};
ghost use Rattle.cookie_c.specs.Sites.{MakesSite, site_of};

pub(crate) mod ending;
pub(crate) mod facts;
pub(crate) mod generation;
pub(crate) mod given;
pub(crate) mod lasting;
pub(crate) mod list;
pub(crate) mod logout;
pub(crate) mod need;
pub(crate) mod open;
pub(crate) mod open_all;
pub(crate) mod opened_sessions;
pub(crate) mod pass;
pub(crate) mod save;
pub(crate) mod site;
pub(crate) mod start;
pub(crate) mod take;
pub(crate) mod texts;
pub(crate) mod time;

use crate::handle::Handle;
use crate::handle::content::Content;
use site::Site;
use std::alloc::Global;

/// How a site keeps its sessions: one encrypted cookie holds a session.
#[repr(C)]
#[derive(Clone, Copy)]
pub struct SessionSettings<'a> {
    /// The keys of 64 random bytes each, one after the other, the newest first. The newest encrypts, and each of them
    /// decrypts.
    pub keys: &'a [u8],
    /// The site's cookie as the value of a `Set-Cookie` header. Its value, `Max-Age` and `Expires` don't count.
    pub cookie: &'a [u8],
    /// The seconds that a session lives after its start, however it is used. A session keeps the lifetime that it
    /// started with, so a longer one here is for sessions that start later, and a shorter one for all.
    pub lifetime: u32,
    /// The seconds that a session lives after it was last saved. A session keeps the idle time that it started with, as
    /// its lifetime.
    pub idle: u32,
}

/// A handle of a site's sessions.
#[repr(C)]
#[derive(Drop)]
pub struct Sessions {
    /// What has them.
    pub handle: Handle,
}

/// A handle of the sessions that a request has open.
#[repr(C)]
#[derive(Drop)]
pub struct Opened {
    /// What has them.
    pub handle: Handle,
}

/// A handle of a session.
#[repr(C)]
#[derive(Drop)]
pub struct Session {
    /// What has it.
    pub handle: Handle,
}

/// Puts the sessions of a site into the handle, and frees those that it had, if it had some.
///
/// Refuses unusable settings (`IsUnusable`). It may also run out of memory. After a refusal the handle is as before.
#[unsafe(no_mangle)]
pub extern "C" fn cookie_sessions_new(
    alloc: Global,
    settings: &SessionSettings<'_>,
    sessions: &mut Sessions,
) -> u32
    ensures { Tells (λ answer. MakesSite settings.now answer
        (site_of sessions.old) (site_of sessions.new)) result }
{
    match Site::of(alloc, settings) {
        Ok(site) => sessions.handle.set(alloc, Content::Sessions(site)).code(),
        Err(why) => why.code(),
    }
}

/// Frees the handle's sessions, if it has some. The handle has none then.
#[unsafe(no_mangle)]
pub extern "C" fn cookie_sessions_free(alloc: Global, sessions: &mut Sessions)
    ensures { sessions.new.handle.held.content ≡ None }
{
    sessions.handle.free(alloc);
}

/// Frees the handle's opened sessions, if it has some. The handle has none then.
#[unsafe(no_mangle)]
pub extern "C" fn cookie_opened_free(alloc: Global, opened: &mut Opened)
    ensures { opened.new.handle.held.content ≡ None }
{
    opened.handle.free(alloc);
}

/// Frees the handle's session, if it has one. The handle has none then.
#[unsafe(no_mangle)]
pub extern "C" fn cookie_session_free(alloc: Global, session: &mut Session)
    ensures { session.new.handle.held.content ≡ None }
{
    session.handle.free(alloc);
}
