//! The generation of a user's sessions, for C.
ghost use Rattle.std.specs.Prelude.{◌≡◌, ◌↔◌, IsTrue};
ghost use Rattle.cookie_c.specs.OpenedSessions.{session_of};
ghost use Rattle.cookie_c.specs.SessionCalls.{AtSession, HasGeneration, HeldIsSince};

use super::Session;
use crate::handle::with_content;
use crate::status::Status;
use cookie_session::Visit;
use std::alloc::Global;

/// Puts the number of the user's generation into the handle's session, as the text `generation` in decimal digits. A
/// site keeps one number a user, and adds one where all sessions of the user are to end, as after a password change.
///
/// Refuses a handle without a session. Else it fails only when memory runs out. After a refusal the session is as
/// before.
#[unsafe(no_mangle)]
pub extern "C" fn cookie_session_set_generation(
    alloc: Global,
    session: &mut Session,
    generation: u64,
) -> u32
    ensures { AtSession (HasGeneration generation) result session.old session.new }
{
    with_content!(alloc, session.handle,
        Session(visit) => set(alloc, visit, generation).code(),
        _ => Status::NoSession.code(),
    )
}

/// Whether the handle's session keeps this generation or a later one. Treat its visitor as nobody if it doesn't, once
/// the user is known. A handle without a session keeps none. The session is as before. It doesn't allocate.
#[unsafe(no_mangle)]
pub extern "C" fn cookie_session_is_since(
    alloc: Global,
    session: &mut Session,
    generation: u64,
) -> bool
    ensures kept { session_of session.new ≡ session_of session.old }
    ensures told { IsTrue result ↔ HeldIsSince generation (session_of session.old) }
{
    with_content!(alloc, session.handle,
        Session(visit) => visit.session().is_since(generation),
        _ => false,
    )
}

fn set(alloc: Global, visit: &mut Visit, generation: u64) -> Status
    ensures { HasGeneration generation result visit.old visit.new }
{
    let Ok(text) = generation.to_string(alloc) else {
        return Status::OutOfMemory;
    };
    match visit.set("generation", text.as_str()) {
        Ok(()) => Status::Done,
        Err(_) => Status::OutOfMemory,
    }
}
