//! The jar's main job in one call for C: a session as the program `cookiejar` plays it.
ghost use Rattle.std.specs.Prelude.{IsUtf8, MatchResult, None, Ok, Err, ◌≡◌};
ghost use Rattle.cookie_client.specs.Session.{moment_of, session};
ghost use Rattle.cookie_client.specs.declared.run_error.RunError.TheVariants as errors;
ghost use Rattle.cookie_c.specs.Answers.{IsRefused};
ghost use Rattle.cookie_c.specs.Played.{IsPlayedFor, IsSession};
ghost use Rattle.cookie_c.specs.declared.status.Status.TheVariants as status;

use crate::answer::Answer;
use crate::status::Status;
use cookie_client::{RunError, moment_of, run_with_hasher};
use std::alloc::Global;
use std::hash::RandomState;
use std::io;
use std::random::RandomSource;

/// Sixteen bytes that the hash of names is keyed with.
#[derive(Drop)]
pub(crate) struct Seed {
    bytes: [u8; 16],
}

impl RandomSource for Seed {
    fn fill_bytes(&self, buf: &mut [u8]) -> io::Result<()> {
        let count = buf.len().min(16);
        buf[..count].copy_from_slice(&self.bytes[..count]);
        Ok(())
    }
}

/// Runs a session. It writes to the buffer what the program `cookiejar` writes for the time and the input: for each
/// cookie of the jar's delta a line `Set-Cookie: ..`, and then the line `Cookie: ..` of a client that read them. The
/// first line of the input is the value of a `Cookie` header. Each later line that isn't empty begins with `add `,
/// `remove ` or `force `, or is `reset`. `moment` is a date in UTC of the year 100 or later. The two seeds are random;
/// the jar hashes names with them.
///
/// Refuses a `moment` that isn't such a date, whatever memory there is. Then it refuses an input that isn't UTF-8, and
/// then the first bad line: the length is the line's number, counted from 1. Else it fails only when memory runs out,
/// which it may also report in place of these two refusals.
#[unsafe(no_mangle)]
pub extern "C" fn cookie_run(
    alloc: Global,
    seed: u64,
    other_seed: u64,
    moment: &[u8],
    input: &[u8],
    out: &mut [u8],
) -> Answer
    ensures not_utf8 { ¬ IsUtf8 moment.now → IsRefused status.BadMoment result out.old out.new }
    ensures bad_moment { IsUtf8 moment.now → moment_of moment.now ≡ None
        → IsRefused status.BadMoment result out.old out.new }
    ensures played { IsUtf8 moment.now
        → IsSession (session moment.now input.now) result out.old out.new }
{
    let Ok(moment) = str::from_utf8(moment) else {
        return Answer::refusal(Status::BadMoment);
    };
    match session_text(alloc, &Seed::of(seed, other_seed), moment, input) {
        Ok(text) => Answer::give(text.as_slice(), out),
        Err(RunError::BadMoment) => Answer::refusal(Status::BadMoment),
        Err(RunError::BadInput) => Answer::refusal(Status::NotUtf8),
        Err(RunError::BadLine(line)) => Answer::of(Status::BadLine, line),
        Err(RunError::OutOfMemory | RunError::Input | RunError::Output) => {
            Answer::refusal(Status::OutOfMemory)
        }
    }
}

// The session's text.
fn session_text(alloc: Global, seed: &Seed, moment: &str, input: &[u8]) -> Result<Vec<u8>, RunError>
    ensures bad_moment { moment_of moment.now ≡ None → result ≡ Err errors.BadMoment }
    ensures played { MatchResult result
        (λ text. session moment.now input.now ≡ Ok text.items)
        (IsPlayedFor (session moment.now input.now)) }
{
    if moment_of(moment).is_none() {
        return Err(RunError::BadMoment);
    }
    let mut text = Vec::new(alloc);
    let mut input = input;
    match RandomState::new(seed) {
        Ok(state) => run_with_hasher(alloc, state, moment, &mut input, &mut text)?,
        Err(_) => return Err(RunError::OutOfMemory),
    }
    Ok(text)
}

impl Seed {
    pub(crate) fn of(seed: u64, other_seed: u64) -> Seed {
        let mut bytes = [0; 16];
        bytes[..8].copy_from_slice(&seed.to_le_bytes());
        bytes[8..].copy_from_slice(&other_seed.to_le_bytes());
        Seed { bytes }
    }
}
