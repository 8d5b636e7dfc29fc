//! What a client holds of the originals that calls add.
ghost use Rattle.std.specs.Prelude.{◌≡◌, ◌∷◌, [], IfOk, OnOk};
ghost use Rattle.std.specs.FinMap.{get};
ghost use Rattle.std.specs.List.{AllZip};
ghost use Rattle.std.specs.Option.{option_to_list};
ghost use Rattle.cookie.specs.History.{after_all, originals_of};
ghost use Rattle.cookie.specs.Record.{Record};
ghost use Rattle.cookie_client.specs.Calls.{IsOutcome, Handling, asked_of_child, change_of, changes_of, prefixed_by, stored_by};
ghost use Rattle.cookie_client.specs.Originals.{holding};
ghost use Rattle.cookie_client.specs.ExchangeCode.{HoldsAdded};

use crate::call::JarCall;
use crate::child_call::ChildCall;
use crate::client::Client;
use crate::client_error::ClientError;
use crate::history::is_accepted;
use crate::prefix_kind::PrefixKind;
use cookie::CookieJar;
use std::alloc::Global;

/// Makes the calls as `replay` does, and has the client hold the value of each original that an accepted call adds, as
/// the jar stores it. So if the client held nothing before, it now holds, for each name, the value of the last original
/// that an accepted call added.
///
/// It reads nothing of the jar's delta. A call that is refused is an outcome and no failure. Fails only with
/// `ClientError::OutOfMemory`. Then some of the calls may have been made, so discard the jar and the client.
pub fn replay_told(
    alloc: Global,
    jar: &mut CookieJar,
    client: &mut Client,
    calls: &[JarCall<'_>],
) -> Result<Vec<bool>, ClientError>
    ensures outcomes { IfOk result (λ outcomes. AllZip IsOutcome calls.now outcomes.items) }
    ensures jar { IfOk result (λ outcomes.
        jar.new ≡ after_all (changes_of outcomes.items calls.now) jar.old) }
    ensures client { IfOk result (λ outcomes. client.new
        ≡ holding (originals_of (changes_of outcomes.items calls.now)) client.old) }
{
    let mut outcomes = Vec::with_capacity(alloc, calls.len())?;
    for call in calls {
        let outcome = play_told(alloc, jar, client, call)?;
        outcomes.push(outcome).unwrap();
    }
    Ok(outcomes)
}

// Makes one call, and returns whether it was accepted. If so, the client holds what it added as an original.
fn play_told(
    alloc: Global,
    jar: &mut CookieJar,
    client: &mut Client,
    call: &JarCall<'_>,
) -> Result<bool, ClientError>
    ensures jar { IfOk result (λ outcome.
        jar.new ≡ after_all (changes_of (outcome ∷ []) (call.now ∷ [])) jar.old) }
    ensures client { IfOk result (λ outcome. client.new
        ≡ holding (originals_of (changes_of (outcome ∷ []) (call.now ∷ []))) client.old) }
    ensures outcome { IfOk result (IsOutcome call.now) }
{
    let outcome = is_accepted(alloc, jar, call);
    if outcome {
        hold_added(alloc, client, jar, call)?;
    }
    Ok(outcome)
}

// Has the client hold what the call added to the jar as an original, if it added one.
fn hold_added(
    alloc: Global,
    client: &mut Client,
    jar: &CookieJar,
    call: &JarCall<'_>,
) -> Result<(), ClientError>
    ensures { HoldsAdded (change_of call.now) jar.now client.old client.new result }
{
    match call {
        JarCall::AddOriginal(cookie) => hold_original(client, jar, cookie.name()),
        JarCall::Prefixed(kind, call) => hold_prefixed(alloc, client, jar, *kind, call),
        JarCall::Signed(_, call) => hold_named(client, jar, call),
        JarCall::Private(_, _, call) => hold_named(client, jar, call),
        _ => Ok(()),
    }
}

// Has the client hold what a call on the child jar of a prefix added as an original, if it added one.
fn hold_prefixed(
    alloc: Global,
    client: &mut Client,
    jar: &CookieJar,
    kind: PrefixKind,
    call: &ChildCall,
) -> Result<(), ClientError>
    ensures { HoldsAdded (stored_by (prefixed_by kind) (asked_of_child call.now))
        jar.now client.old client.new result }
{
    match call {
        ChildCall::AddOriginal(cookie) => {
            let name = kind.prefixed_name(alloc, cookie.name())?;
            hold_original(client, jar, name.as_str())
        }
        _ => Ok(()),
    }
}

// Has the client hold what a call on a child jar that keeps names added as an original, if it added one.
fn hold_named(client: &mut Client, jar: &CookieJar, call: &ChildCall) -> Result<(), ClientError>
    ensures { (handling : Handling)
        → ((cookie : Record) → (handling.stored cookie).name ≡ cookie.name)
        → HoldsAdded (stored_by handling (asked_of_child call.now))
        jar.now client.old client.new result }
{
    match call {
        ChildCall::AddOriginal(cookie) => hold_original(client, jar, cookie.name()),
        _ => Ok(()),
    }
}

// Has the client hold the value of the jar's original of that name, if there is one.
fn hold_original(client: &mut Client, jar: &CookieJar, name: &str) -> Result<(), ClientError>
    ensures { OnOk result (
        client.new ≡ holding (option_to_list (get jar.now.originals name.now)) client.old) }
{
    match jar.original(name) {
        Some(cookie) => client.hold(cookie.name(), cookie.value()),
        None => Ok(()),
    }
}
