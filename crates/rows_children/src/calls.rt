//! Calls on child jars: `original`, `add` and `remove` with a cookie.
use cookie::{ChildJar, PrivateJarMut, Storing};
use rand_core::TryRng;
use rows::{Answer, Step, moment};

/// Makes the step's call on a child jar that draws nothing.
pub fn make_on<S: Storing>(jar: &mut ChildJar<'_, S>, step: Step<'_>) -> Answer {
    let cookie = step.cookie()?;
    match step.call {
        "original" => step.outcome(jar.add_original(cookie)),
        "add" => step.outcome(jar.add(cookie)),
        "remove" => step.outcome(jar.remove(cookie, moment())),
        _ => None,
    }
}

/// Makes it on a private child jar, with a nonce whose bytes are all `byte`, or else with a nonce that is drawn.
pub fn make_private<R: TryRng>(
    jar: &mut PrivateJarMut<'_>,
    step: Step<'_>,
    byte: Option<u8>,
    rng: &mut R,
) -> Answer {
    let cookie = step.cookie()?;
    step.outcome(match (step.call, byte) {
        ("original", Some(byte)) => jar.add_original_with_nonce(cookie, [byte; 12]),
        ("original", None) => jar.add_original(cookie, rng),
        ("add", Some(byte)) => jar.add_with_nonce(cookie, [byte; 12]),
        ("add", None) => jar.add(cookie, rng),
        ("remove", _) => jar.remove(cookie, moment()),
        _ => return None,
    })
}
