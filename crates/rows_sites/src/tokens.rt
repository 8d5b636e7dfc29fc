//! Calls on tokens.
use crate::revoked::Revoked;
use cookie_session::{Sessions, Token, Tokens};
use jiff::civil::DateTime;
use rows::{Answer, Step};
use rows_children::Sevens;

/// Makes a token for a purpose, or reads one, as `invitation | ann`. It has the site's keys and its lifetime. Its times are
/// counted from the second `first`.
pub fn token_answer(
    step: Step<'_>,
    site: Sessions<'_>,
    now: DateTime,
    first: u64,
    rng: &mut Sevens,
    revoked: &mut Option<Revoked>,
) -> Answer {
    let (alloc, (purpose, text)) = (step.alloc, step.halves());
    let (purpose, text) = (purpose.text()?, text.text()?);
    let tokens = Tokens {
        keys: site.keys,
        purpose: &purpose,
        lifetime: site.lifetime,
    };
    match step.call {
        "make_token" => step.printed(tokens.make(alloc, &text, now, rng).ok()?),
        "token_times" => times(step, tokens.read(alloc, &text, now).ok()?, first),
        "read_token" => value(step, &purpose, tokens.read(alloc, &text, now).ok()?),
        _ => match tokens.read_once(alloc, &text, now, revoked.as_mut()?) {
            Ok(token) => value(step, &purpose, token),
            Err(refusal) => step.refused(&refusal),
        },
    }
}

// The purpose and the token's value.
fn value(step: Step<'_>, purpose: &str, token: Option<Token>) -> Answer {
    match token {
        Some(token) => step.pair(purpose, &token.value),
        None => step.said("-"),
    }
}

// The seconds from the first one to the token's making, and to its end.
fn times(step: Step<'_>, token: Option<Token>, first: u64) -> Answer {
    let Some(token) = token else {
        return step.said("-");
    };
    let (made, end) = (
        token.made.saturating_sub(first),
        token.end.saturating_sub(first),
    );
    format!(in step.alloc; "{made} {end}").ok()
}
