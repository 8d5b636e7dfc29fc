//! A request that saves a session, and the client's next one, over header maps.
ghost use Rattle.std.specs.Prelude.{◌≡◌, ◌<◌, true, ℕ, List, Some, Err, IfOk, OnOk};
ghost use Rattle.cookie.specs.AttributeValues.{AllFitFields};
ghost use Rattle.cookie.specs.Sealing.{IsNonce};
ghost use Rattle.cookie_http.specs.declared.http_error.HttpError.TheVariants as http_refusal;
ghost use Rattle.cookie_session.specs.Seconds.{second_of};
ghost use Rattle.cookie_session.specs.Session.{seen_at};
ghost use Rattle.cookie_session.specs.Sessions.{CanSave, CanSealSession, bare_cookie, meets_prefix, saved_cookie};
ghost use Rattle.cookie_session.specs.Size.{browser_length, most_bytes};
ghost use Rattle.cookie_session.specs.declared.session_error.SessionError.TheVariants as refusal;
ghost use Rattle.cookie_theorems.specs.Carrying.{CarriesDelta};
ghost use Rattle.cookie_theorems.specs.Returning.{CanReturn, IsHandled, IsOpened};
ghost use Rattle.cookie_theorems.specs.declared.return_error.ReturnError.TheVariants as failure;

use crate::carrying::carry;
use crate::return_error::ReturnError;
use crate::returned::Returned;
use crate::save_and_return::play;
use cookie::CookieJar;
use cookie_client::{Client, JarCall};
use cookie_session::{Session, Sessions};
use jiff::civil::DateTime;
use rand_core::TryRng;
use std::alloc::Global;

/// Makes a handler's calls on the jar of a request, and saves a session, at the time `now`. The response goes out as a
/// header map, which a client reads (`append_delta` of `cookie_http`, `read_response`). The client's next request comes
/// in as a header map, whose session is opened at the time `later`. Both times are in UTC.
///
/// The next request opens the session that was saved, with the newest key, whatever the calls, as long as it lives.
/// This requires `CanReturn`, as `save_and_return` does.
///
/// Fails with `Session` and the error of [`Sessions::save`], with `Http(InvalidValue)` if a cookie of the response
/// doesn't fit a field, and out of memory with either. The jar and the client may then have changed.
pub fn save_over_headers<R: TryRng>(
    alloc: Global,
    sessions: &Sessions<'_>,
    jar: &mut CookieJar,
    calls: &[JarCall<'_>],
    session: &Session,
    client: &mut Client,
    now: DateTime,
    later: DateTime,
    rng: &mut R,
) -> Result<Returned, ReturnError>
    ensures returns { CanReturn sessions.now jar.old calls.now client.old now later
        (seen_at (second_of now) session.now)
        → IfOk result (λ answer. answer.opened
        ≡ Some (record { session = seen_at (second_of now) session.now; place = 0 })) }

    // The calls and the save made the jar.
    ensures handled { OnOk result (IsHandled (λ nonce. R.may_fill rng.old nonce rng.new)
        sessions.now calls.now session.now now jar.old jar.new) }

    // The rest goes by the header maps.
    ensures carried { IfOk result (λ answer.
        CarriesDelta now jar.new.delta client.old client.new answer.carried) }
    ensures opens { IfOk result (λ answer.
        IsOpened sessions.now answer.carried.next later answer.opened) }

    // Out of memory aside, it fails only for the reasons for which `save` does, or if a cookie doesn't fit a field.
    ensures prefix { result ≡ Err (failure.Session refusal.Prefix)
        → ¬ (meets_prefix sessions.now.cookie.now.fields ≡ true) }
    ensures over { meets_prefix sessions.now.cookie.now.fields ≡ true
        → result ≡ Err (failure.Session refusal.Over)
        → ¬ (CanSave sessions.now now session.now) }
    ensures too_long { CanSave sessions.now now session.now
        → result ≡ Err (failure.Session refusal.TooLong)
        → ¬ (CanSealSession (bare_cookie sessions.now now session.now)) }
    ensures too_large { (size : ℕ) → result ≡ Err (failure.Session (refusal.TooLarge size))
        → (most_bytes < size) × (nonce : List ℕ) × IsNonce nonce
        × R.may_fill rng.old nonce rng.new
        × (size ≡ browser_length (saved_cookie sessions.now nonce now session.now)) }
    ensures failed { result ≡ Err (failure.Session refusal.Generator) → R.Error }
    ensures invalid { result ≡ Err (failure.Http http_refusal.InvalidValue)
        → ¬ (AllFitFields jar.new.delta) }
    ensures room { ¬ (result ≡ Err (failure.Http http_refusal.TooManyFields)) }
{
    play(alloc, jar, calls)?;
    sessions.save(alloc, jar, session, now, rng)?;
    let carried = carry(alloc, jar, client, now)?;
    let opened = sessions.open_jar(alloc, &carried.next, later)?;
    Ok(Returned { carried, opened })
}
