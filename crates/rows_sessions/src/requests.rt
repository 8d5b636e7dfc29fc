//! Requests to a site that can revoke sessions, one after the other.
use cookie_session::{Opened, Revocations, Session, Sessions};
use cookie_theorems::SiteRequest;
use cookie_theorems::revoke_and_open::{open_each, revoke_and_open};
use jiff::civil::DateTime;
use rows::{Answer, Step, after};

// The `Cookie` field of words such as `599 b=2`.
fn field_of(words: &str) -> &[u8] {
    let (_, field) = words.split_once(' ').unwrap_or(("", ""));
    field.as_bytes()
}

// The time of such words. Without words it is any.
fn time_of(words: &str) -> Option<DateTime> {
    let (seconds, _) = words.split_once(' ').unwrap_or((words, ""));
    after(if seconds.is_empty() { "0" } else { seconds })
}

/// Opens the sessions of at most four requests, one after the other, each of words such as `599 b=2`. `revoke_and_open`
/// revokes the session first. Returns for each request the place of the key, or `-`.
pub fn open_requests<'a, R: Revocations>(
    step: Step<'a>,
    sessions: Sessions<'a>,
    session: &Session,
    revocations: &mut R,
) -> Answer {
    let (one, rest) = step.halves();
    let (two, rest) = rest.halves();
    let (three, four) = rest.halves();
    let (first, second) = (time_of(one.words)?, time_of(two.words)?);
    let (third, fourth) = (time_of(three.words)?, time_of(four.words)?);
    let requests = [
        SiteRequest {
            sessions,
            field: field_of(one.words),
            time: first,
        },
        SiteRequest {
            sessions,
            field: field_of(two.words),
            time: second,
        },
        SiteRequest {
            sessions,
            field: field_of(three.words),
            time: third,
        },
        SiteRequest {
            sessions,
            field: field_of(four.words),
            time: fourth,
        },
    ];
    let requests = requests.get(..step.words.split(" | ").count())?;
    open_all(step, &sessions, session, requests, revocations)
}

fn open_all<R: Revocations>(
    step: Step<'_>,
    sessions: &Sessions<'_>,
    session: &Session,
    requests: &[SiteRequest<'_>],
    revocations: &mut R,
) -> Answer {
    let opened = match step.call {
        "open_each" => open_each(step.alloc, requests, revocations),
        _ => revoke_and_open(step.alloc, sessions, session, requests, revocations),
    };
    match opened {
        Ok(opened) => places(step, &opened),
        Err(refusal) => step.refused(&refusal),
    }
}

fn places(step: Step<'_>, opened: &[Option<Opened>]) -> Answer {
    let mut places = Vec::new(step.alloc);
    for one in opened {
        let place = one.as_ref().map(|one| one.place);
        places.push(step.optional(place)?).ok()?;
    }
    step.list(&places)
}
