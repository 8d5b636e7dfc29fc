//! A jar's response, and the request of the client that read it.
ghost use Rattle.std.specs.Prelude.{IfOk, IsErrOf};
ghost use Rattle.cookie_http.specs.declared.http_error.HttpError.TheVariants as refusal;
ghost use Rattle.cookie_theorems.specs.Exchanges.{HasUnfitDelta, IsCarried};

use crate::carried::Carried;
use crate::carrying::carry;
use crate::exchanged::Exchanged;
use cookie::CookieJar;
use cookie_client::{Client, JarCall, Played, replay_told};
use cookie_http::HttpError;
use jiff::civil::DateTime;
use std::alloc::Global;

/// Makes the calls on a new jar, as `mirror` does, and carries them over header maps: the delta to the `Set-Cookie`
/// fields of a response; these fields to a client that held each name's last original, which reads them
/// (`read_response`); and what the client then sends to the jar of its next request. `now` is in UTC.
///
/// Fails with `InvalidValue` if a cookie of the delta doesn't fit a field (`append_delta`), else only with
/// `OutOfMemory`.
pub fn exchange(alloc: Global, calls: &[JarCall<'_>], now: DateTime) -> Result<Exchanged, HttpError>
    ensures carried { IfOk result (IsCarried now calls.now) }
    ensures invalid { IsErrOf result refusal.InvalidValue → HasUnfitDelta now calls.now }
    ensures room { ¬ (IsErrOf result refusal.TooManyFields) }
{
    let mut jar = CookieJar::new(alloc);
    let mut client = Client::new(alloc);
    let Ok(outcomes) = replay_told(alloc, &mut jar, &mut client, calls) else {
        return Err(HttpError::OutOfMemory);
    };
    let Carried {
        response,
        request,
        next,
    } = carry(alloc, &jar, &mut client, now)?;
    Ok(Exchanged {
        played: Played {
            jar,
            client,
            outcomes,
        },
        response,
        request,
        next,
    })
}
