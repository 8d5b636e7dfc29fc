//! Sessions of the program: over bytes in memory, and with a hash that has keys over streams that take a little at a
//! time.
mod streams;

use cookie_client::{RunError, moment_of, run, run_with_hasher};
use rows::{Answer, Player, Step};
use rows_children::hash_keys;
use streams::{ByteReader, ShortWriter};

/// What plays the rows on sessions of the program.
#[derive(Clone, Copy)]
pub struct Runs;

impl Player for Runs {
    fn answer(&mut self, step: Step<'_>) -> Answer {
        let (moment, input) = step.halves();
        match step.call {
            "run" => outcome(step, "Wed, 21 Oct 2015 07:28:00 GMT", &step.bytes()?),
            "run-at" => outcome(step, moment.words, &input.bytes()?),
            "moment" => step.optional(moment_of(step.words)),
            _ => None,
        }
    }
}

// What comes of the session, in both ways.
fn outcome(step: Step<'_>, moment: &str, input: &[u8]) -> Answer {
    let (mut bytes, mut written) = (input, Vec::new(step.alloc));
    let plain = run(step.alloc, moment, &mut bytes, &mut written);
    let (mut reader, mut writer) = (ByteReader(input), ShortWriter(Vec::new(step.alloc)));
    let keyed = run_with_hasher(step.alloc, hash_keys()?, moment, &mut reader, &mut writer);
    let plain = told(step, plain, &written);
    step.same(plain, told(step, keyed, &writer.0))
}

// The lines that were written and what follows the last newline, or the status and the sentence of a refusal before
// which nothing was.
fn told(step: Step<'_>, outcome: Result<(), RunError>, written: &[u8]) -> Answer {
    if let Err(fault) = outcome {
        written.is_empty().then_some(())?;
        return format!(in step.alloc; "status {}: {fault}", fault.status()).ok();
    }
    let mut parts = Vec::new(step.alloc);
    for line in str::from_utf8(written).ok()?.split('\n') {
        parts.push(step.shown(line.as_bytes())?).ok()?;
    }
    step.list(&parts)
}
