//! Calls on a jar, carried over header maps to the jar of the client's next request.
ghost use Rattle.std.specs.Prelude.{◌≡◌, ◌↔◌, false, IfOk, IfSome, IsNone, All};
ghost use Rattle.cookie.specs.History.{is_forced};
ghost use Rattle.cookie.specs.Jar.{Name, view};
ghost use Rattle.cookie_client.specs.Agreement.{value_of};
ghost use Rattle.cookie_client.specs.Calls.{IsFitCall};
ghost use Rattle.cookie_client.specs.Exchange.{changes_by};

use crate::following::are_fit;
use anyhow::{Context, Result};
use cookie_client::JarCall;
use cookie_http::HttpError;
use cookie_theorems::Exchanged;
use cookie_theorems::exchange::exchange;
use jiff::civil::DateTime;
use std::alloc::Global;

/// Makes calls on a new jar, and carries its response to a client and the client's next request back. At each name that
/// no call removes by force that request's jar shows the value that the first jar shows. Returns `None` if one of the
/// calls is unfit. `now` is in UTC.
pub fn carry(
    alloc: Global,
    calls: &[JarCall<'_>],
    now: DateTime,
) -> Result<Option<Exchanged>, HttpError>
    ensures same { IfOk result (λ answer. IfSome answer (λ carried. (name : Name)
        → is_forced name (changes_by calls.now carried.played) ≡ false
        → value_of (view carried.next name) ≡ value_of (view carried.played.jar name))) }
    ensures unfit { IfOk result (λ answer.
        IsNone answer ↔ ¬ (All (IsFitCall now) calls.now)) }
{
    if are_fit(calls, now) {
        Ok(Some(exchange(alloc, calls, now)?))
    } else {
        Ok(None)
    }
}

pub fn print(rt: &HostRuntime, calls: &[JarCall<'_>], now: DateTime) -> Result<()> {
    let carried = carry(rt.alloc(), calls, now)?.context("unfit")?;
    for value in carried.request.get_all("cookie") {
        println!(rt; "next request: {}", str::from_utf8(value.as_bytes())?)?;
    }
    Ok(())
}
