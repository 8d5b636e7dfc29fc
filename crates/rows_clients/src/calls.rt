//! Calls on jars as values: `original`, `add` and `remove` with a cookie, `force` with a name, and `reset`. Before the
//! first three may be the word of a child jar: `host`, `secure`, `signed`, `private`, or `private7` with the byte of
//! its nonces.
use cookie::Key;
use cookie_client::{ChildCall, JarCall, PrefixKind};
use jiff::civil::DateTime;
use rows::{Step, moment};

/// The step's call. `earlier a=1` is a removal at the earliest time.
pub fn call_of<'k>(key: &'k Key, step: Step<'_>) -> Option<JarCall<'k>> {
    Some(match step.call {
        "original" => JarCall::AddOriginal(step.cookie()?),
        "add" => JarCall::Add(step.cookie()?),
        "remove" => JarCall::Remove(step.cookie()?, moment()),
        "earlier" => JarCall::Remove(step.cookie()?, DateTime::MIN),
        "force" => JarCall::ForceRemove(step.text()?),
        "reset" => JarCall::ResetDelta,
        child => return on_child(key, child, child_call(step.inner())?),
    })
}

fn child_call(step: Step<'_>) -> Option<ChildCall> {
    Some(match step.call {
        "original" => ChildCall::AddOriginal(step.cookie()?),
        "add" => ChildCall::Add(step.cookie()?),
        "remove" => ChildCall::Remove(step.cookie()?, moment()),
        _ => return None,
    })
}

// The call on that child jar of the key. Without a nonce in its word its nonce is of zeros.
fn on_child<'k>(key: &'k Key, child: &str, call: ChildCall) -> Option<JarCall<'k>> {
    Some(match child {
        "host" => JarCall::Prefixed(PrefixKind::Host, call),
        "secure" => JarCall::Prefixed(PrefixKind::Secure, call),
        "signed" => JarCall::Signed(key, call),
        _ => {
            let byte = child.strip_prefix("private")?.parse().unwrap_or(0);
            JarCall::Private(key, [byte; 12], call)
        }
    })
}

/// The calls of the words, such as `add a=1 | remove b`. No words, and `-`, have no calls.
pub fn calls_of<'k>(key: &'k Key, step: Step<'_>) -> Option<Vec<JarCall<'k>>> {
    let mut calls = Vec::new(step.alloc);
    for words in step.words.split(" | ") {
        if !words.is_empty() && words != "-" {
            let call = call_of(key, step.with_words(words).inner())?;
            calls.push(call).ok()?;
        }
    }
    Some(calls)
}
