//! Calls made on a jar in order.
ghost use Rattle.std.specs.Prelude.{◌≡◌, ◌∷◌, [], true, length, IsOk, IfOk, OnOk, OnErr, IsErr};
ghost use Rattle.std.specs.List.{AllZip};
ghost use Rattle.cookie.specs.History.{after_all};
ghost use Rattle.cookie.specs.Jar.{after};
ghost use Rattle.cookie.specs.Prefixes.{conforming_cookie};
ghost use Rattle.cookie_client.specs.Calls.{IsKnownChange, IsOutcome, IsTooLong, IsUnsealable, asked_of, asked_of_child, change_of, changes_of, is_certain, sealed_by, signed_by, stored_by, handling};

use crate::call::JarCall;
use crate::child_call::ChildCall;
use crate::client_error::ClientError;
use crate::prefix_kind::PrefixKind;
use cookie::prefix::{Host, Prefix, Secure};
use cookie::{CookieJar, JarError, Key};
use std::alloc::Global;

// Makes one call.
fn play(alloc: Global, jar: &mut CookieJar, call: &JarCall<'_>) -> Result<(), JarError>
    ensures ok { OnOk result (jar.new ≡ after (change_of call.now) jar.old) }
    ensures err { OnErr result (jar.new ≡ jar.old) }
    ensures certain { is_certain (change_of call.now) ≡ true → IsOk result }
    ensures refused { IsUnsealable call.now → IsErr result }
    ensures known { OnOk result (IsKnownChange (asked_of call.now)) }
{
    match call {
        JarCall::AddOriginal(cookie) => jar.add_original(cookie.clone(alloc)?),
        JarCall::Add(cookie) => jar.add(cookie.clone(alloc)?),
        JarCall::Remove(cookie, now) => jar.remove(cookie.clone(alloc)?, *now),
        JarCall::ForceRemove(name) => {
            jar.force_remove(name.as_str());
            Ok(())
        }
        JarCall::ResetDelta => {
            jar.reset_delta();
            Ok(())
        }
        JarCall::Prefixed(PrefixKind::Host, call) => play_prefixed(alloc, jar, Host, call),
        JarCall::Prefixed(PrefixKind::Secure, call) => play_prefixed(alloc, jar, Secure, call),
        JarCall::Signed(key, call) => play_signed(alloc, jar, key, call),
        JarCall::Private(key, nonce, call) => play_private(alloc, jar, key, *nonce, call),
    }
}

// Makes one call on the child jar of a prefix.
fn play_prefixed<P: Prefix>(
    alloc: Global,
    jar: &mut CookieJar,
    prefix: P,
    call: &ChildCall,
) -> Result<(), JarError>
    ensures ok { OnOk result (let stored = conforming_cookie P.PREFIX P.conformed in jar.new ≡ after
        (stored_by (handling stored stored) (asked_of_child call.now)) jar.old) }
    ensures err { OnErr result (jar.new ≡ jar.old) }
    ensures known { OnOk result (IsKnownChange (asked_of_child call.now)) }
{
    let mut child = jar.prefixed_mut(prefix);
    match call {
        ChildCall::AddOriginal(cookie) => child.add_original(cookie.clone(alloc)?),
        ChildCall::Add(cookie) => child.add(cookie.clone(alloc)?),
        ChildCall::Remove(cookie, now) => child.remove(cookie.clone(alloc)?, *now),
    }
}

// Makes one call on the signed child jar of a key.
fn play_signed(
    alloc: Global,
    jar: &mut CookieJar,
    key: &Key,
    call: &ChildCall,
) -> Result<(), JarError>
    ensures ok { OnOk result (jar.new ≡ after
        (stored_by (signed_by key.now) (asked_of_child call.now)) jar.old) }
    ensures err { OnErr result (jar.new ≡ jar.old) }
    ensures known { OnOk result (IsKnownChange (asked_of_child call.now)) }
{
    let mut signer = jar.signed_mut(key);
    match call {
        ChildCall::AddOriginal(cookie) => signer.add_original(cookie.clone(alloc)?),
        ChildCall::Add(cookie) => signer.add(cookie.clone(alloc)?),
        ChildCall::Remove(cookie, now) => signer.remove(cookie.clone(alloc)?, *now),
    }
}

// Makes one call on the private child jar of a key, and seals under this nonce.
fn play_private(
    alloc: Global,
    jar: &mut CookieJar,
    key: &Key,
    nonce: [u8; 12],
    call: &ChildCall,
) -> Result<(), JarError>
    ensures ok { OnOk result (jar.new ≡ after
        (stored_by (sealed_by key.now nonce) (asked_of_child call.now)) jar.old) }
    ensures err { OnErr result (jar.new ≡ jar.old) }
    ensures refused { IsTooLong (asked_of_child call.now) → IsErr result }
    ensures known { OnOk result (IsKnownChange (asked_of_child call.now)) }
{
    let mut sealer = jar.private_mut(key);
    match call {
        ChildCall::AddOriginal(cookie) => sealer.add_original_with_nonce(
            cookie.clone(alloc)?,
            nonce,
        ),
        ChildCall::Add(cookie) => sealer.add_with_nonce(cookie.clone(alloc)?, nonce),
        ChildCall::Remove(cookie, now) => sealer.remove(cookie.clone(alloc)?, *now),
    }
}

// Makes one call, and returns whether it was accepted.
pub(crate) fn is_accepted(alloc: Global, jar: &mut CookieJar, call: &JarCall<'_>) -> bool
    ensures jar { jar.new ≡ after_all (changes_of (result ∷ []) (call.now ∷ [])) jar.old }
    ensures outcome { IsOutcome call.now result }
{
    play(alloc, jar, call).is_ok()
}

/// Makes the calls in order, and returns which were accepted: one outcome for each call, `true` if it was accepted.
///
/// A call that is refused, or that runs out of memory for a copy of its cookie, has the outcome `false` and changes
/// nothing. Forced removals and resets are always accepted. An addition through a private jar that is too long to be
/// sealed never is.
///
/// Fails only with `ClientError::OutOfMemory`, if out of memory for the list of outcomes. No call was made then, and
/// the jar is as before.
pub fn replay(
    alloc: Global,
    jar: &mut CookieJar,
    calls: &[JarCall<'_>],
) -> Result<Vec<bool>, ClientError>
    ensures count { IfOk result (λ outcomes. length outcomes.items ≡ length calls.now) }
    ensures jar { IfOk result (λ outcomes.
        jar.new ≡ after_all (changes_of outcomes.items calls.now) jar.old) }
    ensures outcomes { IfOk result (λ outcomes. AllZip IsOutcome calls.now outcomes.items) }
    ensures err { OnErr result (jar.new ≡ jar.old) }
{
    let mut outcomes = Vec::with_capacity(alloc, calls.len())?;
    for call in calls {
        let outcome = is_accepted(alloc, jar, call);
        outcomes.push(outcome).unwrap();
    }
    Ok(outcomes)
}
