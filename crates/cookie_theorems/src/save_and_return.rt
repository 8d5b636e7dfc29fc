//! A request that saves a session, and the client's next one.
ghost use Rattle.std.specs.Prelude.{◌≡◌, ◌<◌, true, Bool, List, [], ℕ, None, Some, Err, IfOk, OnOk, option_map};
ghost use Rattle.std.specs.FinMap.{get};
ghost use Rattle.std.specs.List.{AllZip};
ghost use Rattle.cookie.specs.DeltaTexts.{AreDeltaTexts};
ghost use Rattle.cookie.specs.History.{after_all};
ghost use Rattle.cookie.specs.Jar.{Name, view};
ghost use Rattle.cookie.specs.Originals.{jar_for};
ghost use Rattle.cookie.specs.Record.{plain};
ghost use Rattle.cookie.specs.Sealing.{IsNonce};
ghost use Rattle.cookie_client.specs.Calls.{IsOutcome, changes_of};
ghost use Rattle.cookie_client.specs.Client.{after_texts, header_text};
ghost use Rattle.cookie_session.specs.Seconds.{second_of};
ghost use Rattle.cookie_session.specs.Session.{seen_at};
ghost use Rattle.cookie_session.specs.Sessions.{CanSave, CanSealSession, bare_cookie, meets_prefix, saved_cookie};
ghost use Rattle.cookie_session.specs.Size.{browser_length, most_bytes};
ghost use Rattle.cookie_session.specs.declared.session_error.SessionError.TheVariants as refusal;
ghost use Rattle.cookie_theorems.specs.Returning.{CanReturn, IsReturned};

use cookie::CookieJar;
use cookie_client::{Client, JarCall, read_delta, replay};
use cookie_session::{Opened, Session, SessionError, Sessions};
use jiff::civil::DateTime;
use rand_core::TryRng;
use std::alloc::{AllocError, Global};

/// Makes a handler's calls on the jar of a request, and saves a session, at the time `now`. Then a client reads the
/// response, in the order of `pick` as in `mirror`, and the session of its next request is opened, at the time `later`.
/// Both times are in UTC.
///
/// The next request opens the session that was saved, with the newest key, whatever the calls and the order, as long as
/// it lives. This requires `CanReturn`: the jar has no changes before, each call is fit (`JarCall::is_fit`), the site's
/// cookie has a name and no `;` in its path and its domain, and the client holds nothing under the empty name.
///
/// Fails as [`Sessions::save`] does. The jar and the client may then have changed.
pub fn save_and_return<R: TryRng>(
    alloc: Global,
    sessions: &Sessions<'_>,
    jar: &mut CookieJar,
    calls: &[JarCall<'_>],
    session: &Session,
    client: &mut Client,
    pick: &[usize],
    now: DateTime,
    later: DateTime,
    rng: &mut R,
) -> Result<Option<Opened>, SessionError>
    ensures returns { CanReturn sessions.now jar.old calls.now client.old now later
        (seen_at (second_of now) session.now)
        → IfOk result (λ answer. answer
        ≡ Some (record { session = seen_at (second_of now) session.now; place = 0 })) }

    // Whatever was passed in: the calls and the save made the jar, the client read its delta, and the session is opened
    // in the jar of the client's next header.
    ensures came { IfOk result (IsReturned (λ nonce. R.may_fill rng.old nonce rng.new)
        sessions.now calls.now session.now now later jar.old jar.new client.old client.new) }

    // Out of memory aside, it fails only for the reasons for which `save` does.
    ensures prefix { result ≡ Err refusal.Prefix
        → ¬ (meets_prefix sessions.now.cookie.now.fields ≡ true) }
    ensures over { meets_prefix sessions.now.cookie.now.fields ≡ true
        → result ≡ Err refusal.Over → ¬ (CanSave sessions.now now session.now) }
    ensures too_long { CanSave sessions.now now session.now → result ≡ Err refusal.TooLong
        → ¬ (CanSealSession (bare_cookie sessions.now now session.now)) }
    ensures too_large { (size : ℕ) → result ≡ Err (refusal.TooLarge size)
        → (most_bytes < size) × (nonce : List ℕ) × IsNonce nonce
        × R.may_fill rng.old nonce rng.new
        × (size ≡ browser_length (saved_cookie sessions.now nonce now session.now)) }
    ensures failed { result ≡ Err refusal.Generator → R.Error }
{
    play(alloc, jar, calls)?;
    sessions.save(alloc, jar, session, now, rng)?;
    let next = next_jar(alloc, client, jar, pick, now)?;
    let answer = sessions.open_jar(alloc, &next, later)?;
    Ok(answer)
}

// Makes the calls in order.
pub(crate) fn play(
    alloc: Global,
    jar: &mut CookieJar,
    calls: &[JarCall<'_>],
) -> Result<(), AllocError>
    ensures { OnOk result ((outcomes : List Bool) × AllZip IsOutcome calls.now outcomes
        × (jar.new ≡ after_all (changes_of outcomes calls.now) jar.old)) }
{
    replay(alloc, jar, calls)?;
    Ok(())
}

// Has the client read the response, and returns the jar of its next request.
fn next_jar(
    alloc: Global,
    client: &mut Client,
    jar: &CookieJar,
    pick: &[usize],
    now: DateTime,
) -> Result<CookieJar, AllocError>
    ensures read { OnOk result ((texts : List (List ℕ)) × AreDeltaTexts jar.now.delta texts
        × (client.new ≡ after_texts now texts client.old)) }
    ensures next { IfOk result (λ next. next ≡ jar_for (header_text client.new)) }
    ensures shows { IfOk result (λ next. get client.new [] ≡ None → (name : Name)
        → view next name ≡ option_map (plain name) (get client.new name)) }
{
    read_delta(alloc, client, jar, pick, now)?;
    let next = client.next_jar()?;
    Ok(next)
}
