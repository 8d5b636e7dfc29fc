//! Visits: what a handler calls at the beginning and at the end of a request.
use cookie::{CookieJar, field_cookies};
use cookie_session::{Ending, Pass, Revocations, Sessions, Visit, VisitError};
use hex::encode;
use jiff::civil::DateTime;
use rand_core::TryRng;
use rows::{Answer, Step};
use std::fmt::Display;
use std::mem::replace;

/// Opens a visit in the words' `Cookie` field, saves the visit if needed, or logs out by it. After the logout the visit is
/// `next`.
pub fn visit_answer<G: TryRng, R: Revocations>(
    step: Step<'_>,
    sessions: &Sessions<'_>,
    jar: &mut CookieJar,
    visit: &mut Visit,
    next: Visit,
    now: DateTime,
    rng: &mut G,
    revocations: &mut R,
) -> Answer {
    let alloc = step.alloc;
    match step.call {
        "visit" => {
            let cookies = field_cookies(alloc, &step.bytes()?).ok()?;
            match sessions.visit(alloc, &cookies, now, rng, revocations) {
                Ok(opened) => {
                    *visit = opened;
                    step.optional(visit.place())
                }
                Err(error) => failed(step, error),
            }
        }
        "save_if_needed" => {
            match sessions.save_if_needed(alloc, jar, visit, now, rng, revocations) {
                Ok(true) => step.said("saved"),
                Ok(false) => step.said("skipped"),
                Err(error) => failed(step, error),
            }
        }
        _ => {
            let visit = replace(visit, next);
            match sessions.log_out(alloc, jar, visit, now, revocations) {
                Ok(ending) => ended(step, ending),
                Err(error) => failed(step, error),
            }
        }
    }
}

/// What a logout came to.
pub fn ended(step: Step<'_>, ending: Ending) -> Answer {
    step.said(match ending {
        Ending::Ended => "ended",
        Ending::Nobody => "nobody",
        Ending::Gone => "gone",
    })
}

/// The id of a pass, and its end, so many seconds after that second.
pub fn pass_text(step: Step<'_>, pass: Option<Pass>, first: u64) -> Answer {
    let Some(pass) = pass else {
        return step.said("-");
    };
    let id = encode(step.alloc, &pass.id).ok()?;
    format!(in step.alloc; "{id} {}", pass.end.saturating_sub(first)).ok()
}

// Why a call failed: `gone`, `unsure` if the store failed, or the sentence of the refusal.
fn failed<E: Display + Drop>(step: Step<'_>, error: VisitError<E>) -> Answer {
    match error {
        VisitError::Gone => step.said("gone"),
        VisitError::Revocations(_) => step.said("unsure"),
        VisitError::Session(refusal) => step.printed(refusal),
    }
}
