//! The texts of a session in a handle.
ghost use Rattle.std.specs.Prelude.{◌≡◌};
ghost use Rattle.cookie_session.specs.Form.{form_of_texts};
ghost use Rattle.cookie_c.specs.Answers.{IsGivenInMemory};
ghost use Rattle.cookie_c.specs.Handles.{Reads};
ghost use Rattle.cookie_c.specs.OpenedSessions.{session_of};
ghost use Rattle.cookie_c.specs.SessionCalls.{AtSession, HasForm, IsSet, IsTextGiven, IsUnset};
ghost use Rattle.cookie_c.specs.declared.status.Status.TheVariants as status;

use super::Session;
use crate::answer::Answer;
use crate::handle::with_content;
use crate::status::Status;
use cookie_session::Visit;
use std::alloc::Global;

/// The text at this name in the handle's session, for the buffer. The session is as before.
///
/// Refuses a handle without a session, then a name that isn't UTF-8, and then a name at which the session has no text.
/// It doesn't allocate.
#[unsafe(no_mangle)]
pub extern "C" fn cookie_session_get(
    alloc: Global,
    session: &mut Session,
    name: &[u8],
    out: &mut [u8],
) -> Answer
    ensures kept { session_of session.new ≡ session_of session.old }
    ensures given { Reads status.NoSession (IsTextGiven name.now) (session_of session.old)
        result out.old out.new }
{
    with_content!(alloc, session.handle,
        Session(visit) => get(visit, name, out),
        _ => Answer::refusal(Status::NoSession),
    )
}

/// The texts of the handle's session as a form, `name=value&name=value`, in byte order of the names (URL Standard 5.2),
/// for the buffer. The session is as before.
///
/// Refuses a handle without a session. Else it fails only when memory runs out.
#[unsafe(no_mangle)]
pub extern "C" fn cookie_session_texts(
    alloc: Global,
    session: &mut Session,
    out: &mut [u8],
) -> Answer
    ensures kept { session_of session.new ≡ session_of session.old }
    ensures given { Reads status.NoSession
        (λ had. IsGivenInMemory (form_of_texts had.session.texts)) (session_of session.old)
        result out.old out.new }
{
    with_content!(alloc, session.handle,
        Session(visit) => give_texts(alloc, visit, out),
        _ => Answer::refusal(Status::NoSession),
    )
}

/// Puts the text at this name in the handle's session.
///
/// Refuses a handle without a session, and then a name or a text that isn't UTF-8. Else it fails only when memory runs
/// out. After a refusal the session is as before.
#[unsafe(no_mangle)]
pub extern "C" fn cookie_session_set(
    alloc: Global,
    session: &mut Session,
    name: &[u8],
    text: &[u8],
) -> u32
    ensures { AtSession (IsSet name.now text.now) result session.old session.new }
{
    with_content!(alloc, session.handle,
        Session(visit) => set(visit, name, text).code(),
        _ => Status::NoSession.code(),
    )
}

/// Drops the text at this name in the handle's session, if there is one.
///
/// Refuses a handle without a session, and then a name that isn't UTF-8. After a refusal the session is as before. It
/// doesn't allocate.
#[unsafe(no_mangle)]
pub extern "C" fn cookie_session_remove(alloc: Global, session: &mut Session, name: &[u8]) -> u32
    ensures { AtSession (IsUnset name.now) result session.old session.new }
{
    with_content!(alloc, session.handle,
        Session(visit) => remove(visit, name).code(),
        _ => Status::NoSession.code(),
    )
}

/// Puts the texts of a form in place of those of the handle's session (URL Standard 5.1). Of two texts with one name the
/// last counts. Bytes that aren't UTF-8 are replaced by U+FFFD.
///
/// Refuses a handle without a session. Else it fails only when memory runs out. After a refusal the session is as
/// before.
#[unsafe(no_mangle)]
pub extern "C" fn cookie_session_set_texts(alloc: Global, session: &mut Session, form: &[u8]) -> u32
    ensures { AtSession (HasForm form.now) result session.old session.new }
{
    with_content!(alloc, session.handle,
        Session(visit) => set_form(alloc, visit, form).code(),
        _ => Status::NoSession.code(),
    )
}

fn get(visit: &Visit, name: &[u8], out: &mut [u8]) -> Answer
    ensures { IsTextGiven name.now visit.now result out.old out.new }
{
    let Ok(name) = str::from_utf8(name) else {
        return Answer::refusal(Status::NotUtf8);
    };
    match visit.session().get(name) {
        Some(text) => Answer::give(text.as_bytes(), out),
        None => Answer::refusal(Status::NotFound),
    }
}

fn give_texts(alloc: Global, visit: &Visit, out: &mut [u8]) -> Answer
    ensures { IsGivenInMemory (form_of_texts visit.now.session.texts) result out.old out.new }
{
    match visit.session().to_form(alloc) {
        Ok(form) => Answer::give(form.as_bytes(), out),
        Err(_) => Answer::refusal(Status::OutOfMemory),
    }
}

fn set(visit: &mut Visit, name: &[u8], text: &[u8]) -> Status
    ensures { IsSet name.now text.now result visit.old visit.new }
{
    let (Ok(name), Ok(text)) = (str::from_utf8(name), str::from_utf8(text)) else {
        return Status::NotUtf8;
    };
    match visit.set(name, text) {
        Ok(()) => Status::Done,
        Err(_) => Status::OutOfMemory,
    }
}

fn remove(visit: &mut Visit, name: &[u8]) -> Status
    ensures { IsUnset name.now result visit.old visit.new }
{
    let Ok(name) = str::from_utf8(name) else {
        return Status::NotUtf8;
    };
    visit.remove(name);
    Status::Done
}

fn set_form(alloc: Global, visit: &mut Visit, form: &[u8]) -> Status
    ensures { HasForm form.now result visit.old visit.new }
{
    match visit.set_form(alloc, form) {
        Ok(()) => Status::Done,
        Err(_) => Status::OutOfMemory,
    }
}
