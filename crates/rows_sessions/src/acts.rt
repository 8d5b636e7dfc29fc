//! What the handlers of a site do, one act after the other.
use cookie_session::{Revocations, Sessions, second_of};
use cookie_theorems::serve::serve;
use cookie_theorems::{Act, Event, SiteRequest};
use jiff::civil::DateTime;
use rand_core::TryRng;
use rows::{Answer, Step, after};

// The words of the act at this place, as `save`, `0` and `9`. Without words it is `forget 0`.
fn words_at(step: Step<'_>, place: usize) -> (&str, &str, &str) {
    let words = step.words.split(", ").nth(place).unwrap_or("forget 0");
    let (word, rest) = words.split_once(' ').unwrap_or((words, ""));
    let (first, rest) = rest.split_once(' ').unwrap_or((rest, ""));
    (word, first, rest)
}

// The act at this place, as `open 0 b=2`, `forget 9`, `write 0 text` or `save 0 9`. Any other word forgets.
fn act_at<'a>(step: Step<'a>, place: usize, sessions: &Sessions<'a>) -> Act<'a> {
    let (word, first, rest) = words_at(step, place);
    let visit = first.parse().unwrap_or(0);
    let (time, now) = (second(first), second(rest));
    match word {
        "open" => Act::Open(SiteRequest {
            sessions: *sessions,
            field: rest.as_bytes(),
            time,
        }),
        "write" => Act::Write(visit, "a", rest),
        "renew" => Act::Renew(visit, *sessions, now),
        "restart" => Act::Restart(visit, *sessions, now),
        "save" => Act::Save(visit, *sessions, now),
        "log_out" => Act::LogOut(visit, *sessions, now),
        _ => Act::Forget(second_of(time)),
    }
}

// This number of seconds after the first one.
fn second(text: &str) -> DateTime {
    after(text).unwrap_or(DateTime::MIN)
}

// The event in a word.
fn told(step: Step<'_>, event: &Event) -> Answer {
    step.said(match event {
        Event::Replaced(_, _) => "replaced",
        Event::Ended(_) => "ended",
        Event::Unsure(_) => "unsure",
        Event::Gone(_) => "gone",
        Event::Nobody => "nobody",
        Event::Refused(why) => return step.refused(why),
        Event::Failed => "failed",
        Event::Forgotten => "forgotten",
        Event::Plain => "plain",
    })
}

/// Does the acts of the step's words, at most eight, and returns what came of each.
pub fn do_acts<'a, G: TryRng, R: Revocations>(
    step: Step<'a>,
    sessions: Sessions<'a>,
    rng: &mut G,
    revocations: &mut R,
) -> Answer {
    let acts = [
        act_at(step, 0, &sessions),
        act_at(step, 1, &sessions),
        act_at(step, 2, &sessions),
        act_at(step, 3, &sessions),
        act_at(step, 4, &sessions),
        act_at(step, 5, &sessions),
        act_at(step, 6, &sessions),
        act_at(step, 7, &sessions),
    ];
    let acts = acts.get(..step.words.split(", ").count())?;
    let mut words = Vec::new(step.alloc);
    for event in &serve(step.alloc, acts, rng, revocations).ok()? {
        words.push(told(step, event)?).ok()?;
    }
    step.list(&words)
}
