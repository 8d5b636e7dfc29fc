//! Saving a user agent's cookies for C.
ghost use Rattle.std.specs.Prelude.{◌≡◌, Some, length};
ghost use Rattle.cookie_c.specs.Agents.{store_of};
ghost use Rattle.cookie_c.specs.Answers.{IsGiven};
ghost use Rattle.cookie_c.specs.SavedAgents.{Saves, SavesAt, answer_of, first_of, unsaved};
ghost use Rattle.cookie_c.specs.declared.status.Status.TheVariants as status;

use super::Agent;
use super::form::form_of;
use crate::answer::Answer;
use crate::handle::with_content;
use crate::sessions::time::time_at;
use crate::status::Status;
use cookie_agent::{SavedCookies, SavedForm, Store};
use std::alloc::Global;

/// The return value of a call that saves a user agent's cookies.
#[repr(C)]
#[derive(Clone, Copy, Default)]
pub struct AgentSaving {
    /// The number of a `Status`. If it is neither `Status::Done` nor `Status::BufferTooShort`, all else is 0.
    pub status: u32,
    /// The number of bytes of the text, whether they had room or not.
    pub length: usize,
    /// How many persistent cookies the text lacks, since its form can't carry them.
    pub left_out: usize,
    /// The index of the first of these, for `cookie_agent_cookie`; 0 if there is none.
    pub first_left_out: usize,
}

/// The text of the persistent cookies that aren't expired, for the buffer: in the form of this number.
/// 0 is Netscape's `cookies.txt`, and 1 a JSON object a line. `now` is the time in seconds since 1970 in UTC. The agent
/// is as before. `SavedForm` of `cookie_agent` says which cookies a form can't carry: a `cookies.txt` none with a tab or
/// another control character.
///
/// A caller writes the text to a new file beside the old one, and renames it: then a crash leaves one of the two. Only
/// the owner should be able to read it, since cookies are credentials.
///
/// Refuses a handle without an agent, then a number that isn't a form's, with `Status::BadAttribute`, and then a time
/// after 9999-12-30 22:00:00. It may also run out of memory.
#[unsafe(no_mangle)]
pub extern "C" fn cookie_agent_save(
    alloc: Global,
    agent: &mut Agent,
    form: u32,
    now: u64,
    out: &mut [u8],
) -> AgentSaving
    ensures kept { store_of agent.new ≡ store_of agent.old }
    ensures saved { SavesAt form now (store_of agent.old) result out.old out.new }
{
    with_content!(alloc, agent.handle,
        Store(store) => save(alloc, store, form, now, out),
        _ => AgentSaving::none(Status::NoAgent),
    )
}

fn save(alloc: Global, store: &Store, form: u32, now: u64, out: &mut [u8]) -> AgentSaving
    ensures { Saves form now store.now result out.old out.new }
{
    let Some(form) = form_of(form) else {
        return AgentSaving::none(Status::BadAttribute);
    };
    let Some(now) = time_at(now) else {
        return AgentSaving::none(Status::NoDate);
    };
    match form.write(alloc, store.cookies(), now) {
        Ok(saved) => AgentSaving::give(&saved, out),
        Err(_) => AgentSaving::none(Status::OutOfMemory),
    }
}

// The first of the numbers, and 0 if there is none.
fn first_of(numbers: &[usize]) -> usize
    ensures { result ≡ first_of numbers.now }
{
    match numbers {
        [first, ..] => *first,
        [] => 0,
    }
}

impl AgentSaving {
    // What a refused call returns: nothing is saved.
    fn none(why: Status) -> AgentSaving
        ensures { result ≡ unsaved why }
    {
        AgentSaving {
            status: why.code(),
            ..AgentSaving::default()
        }
    }

    // The text, for the buffer, and which cookies it lacks.
    fn give(saved: &SavedCookies, out: &mut [u8]) -> AgentSaving
        ensures given { IsGiven saved.now.text.items (answer_of result) out.old out.new }
        ensures left_out { result.left_out ≡ length saved.now.left_out.items }
        ensures first { result.first_left_out ≡ first_of saved.now.left_out.items }
    {
        let answer = Answer::give(saved.text.as_slice(), out);
        AgentSaving {
            status: answer.status,
            length: answer.length,
            left_out: saved.left_out.len(),
            first_left_out: first_of(&saved.left_out),
        }
    }
}
