//! Calls as values, and a client that follows them.
ghost use Rattle.std.specs.Prelude.{◌≡◌, ◌↔◌, false, IsTrue, IfOk, IfSome, IsNone, All};
ghost use Rattle.std.specs.FinMap.{get};
ghost use Rattle.cookie.specs.History.{is_forced};
ghost use Rattle.cookie.specs.Jar.{Name, view};
ghost use Rattle.cookie_client.specs.Agreement.{value_of};
ghost use Rattle.cookie_client.specs.Calls.{IsFitCall, changes_of};

use crate::{carrying, generator};
use anyhow::{Context, Result};
use cookie::{Cookie, Key};
use cookie_client::{ChildCall, ClientError, JarCall, Played, mirror};
use jiff::civil::DateTime;
use std::alloc::Global;

// Whether a client can follow all the calls at the time `now` in UTC.
pub(crate) fn are_fit(calls: &[JarCall<'_>], now: DateTime) -> bool
    ensures { IsTrue result ↔ All (IsFitCall now) calls.now }
{
    calls.iter().all(|call| call.is_fit(now))
}

/// Makes calls on a new jar, and has a client follow it. At each name that no call removes by force the client then
/// holds the value that the jar shows. Returns `None` if one of the calls is unfit. `now` is in UTC.
pub fn follow(
    alloc: Global,
    calls: &[JarCall<'_>],
    now: DateTime,
) -> Result<Option<Played>, ClientError>
    ensures agrees { IfOk result (λ answer. IfSome answer (λ played. (name : Name)
        → is_forced name (changes_of played.outcomes.items calls.now) ≡ false
        → get played.client name ≡ value_of (view played.jar name))) }
    ensures unfit { IfOk result (λ answer.
        IsNone answer ↔ ¬ (All (IsFitCall now) calls.now)) }
{
    if are_fit(calls, now) {
        Ok(Some(mirror(alloc, calls, &[], now)?))
    } else {
        Ok(None)
    }
}

pub fn print(rt: &HostRuntime, now: DateTime) -> Result<()> {
    let key = Key::generate(&mut generator());
    let calls = [
        JarCall::Signed(&key, ChildCall::Add(Cookie::new("cart", "3"))),
        JarCall::Private(&key, [0; 12], ChildCall::Add(Cookie::new("user", "ann"))),
    ];
    let client = follow(rt.alloc(), &calls, now)?.context("unfit")?.client;
    println!(rt; "client: {}", client.header()?)?;
    for (name, value) in client.iter() {
        println!(rt; "{name}: {value}")?;
    }
    carrying::print(rt, &calls, now)
}
