//! The texts of a session in a handle as they are, each after its length.
ghost use Rattle.std.specs.Prelude.{◌≡◌, IfOk};
ghost use Rattle.cookie_c.specs.Answers.{IsGivenInMemory};
ghost use Rattle.cookie_c.specs.Handles.{Reads};
ghost use Rattle.cookie_c.specs.OpenedSessions.{session_of};
ghost use Rattle.cookie_c.specs.TextLists.{list_of_texts};
ghost use Rattle.cookie_c.specs.declared.status.Status.TheVariants as status;

use super::Session;
use crate::answer::Answer;
use crate::handle::with_content;
use crate::listed::push_listed;
use crate::status::Status;
use cookie_session::Visit;
use std::alloc::{AllocError, Global};

/// The texts of the handle's session as they are, in byte order of the names, for the buffer. Of each there is the
/// number of bytes of its name, and that of its own, each as eight bytes of which the lowest is the first, and then the
/// name and the text. The session is as before.
///
/// Refuses a handle without a session. Else it fails only when memory runs out.
#[unsafe(no_mangle)]
pub extern "C" fn cookie_session_list(
    alloc: Global,
    session: &mut Session,
    out: &mut [u8],
) -> Answer
    ensures kept { session_of session.new ≡ session_of session.old }
    ensures given { Reads status.NoSession
        (λ had. IsGivenInMemory (list_of_texts had.session.texts)) (session_of session.old)
        result out.old out.new }
{
    with_content!(alloc, session.handle,
        Session(visit) => give_list(alloc, visit, out),
        _ => Answer::refusal(Status::NoSession),
    )
}

fn give_list(alloc: Global, visit: &Visit, out: &mut [u8]) -> Answer
    ensures { IsGivenInMemory (list_of_texts visit.now.session.texts) result out.old out.new }
{
    match list(alloc, visit) {
        Ok(list) => Answer::give(list.as_slice(), out),
        Err(_) => Answer::refusal(Status::OutOfMemory),
    }
}

fn list(alloc: Global, visit: &Visit) -> Result<Vec<u8>, AllocError>
    ensures { IfOk result (λ list. list.items ≡ list_of_texts visit.now.session.texts) }
{
    let mut list = Vec::new(alloc);
    for (name, text) in visit.session().iter() {
        push_listed(&mut list, name, text)?;
    }
    Ok(list)
}
