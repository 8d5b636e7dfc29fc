//! A site's handlers, whose acts may come between one another.
ghost use Rattle.std.specs.Prelude.{◌≡◌, ◌≢◌, ◌⊎◌, ℕ, [], List, Option, None, Some, Err, IfErr, IfOk, OnOk, slice_set};
ghost use Rattle.std.specs.FinMap.{empty};
ghost use Rattle.cookie_session.specs.Revocations.{AreSame};
ghost use Rattle.cookie_session.specs.Seconds.{second_of};
ghost use Rattle.cookie_session.specs.Visit.{Replaces};
ghost use Rattle.cookie_session.specs.declared.pass.Pass.{Pass as PassValue};
ghost use Rattle.cookie_session.specs.declared.session_error.SessionError.{SessionError as Refusal};
ghost use Rattle.cookie_session.specs.declared.visit_error.VisitError.TheVariants as failure;
ghost use Rattle.cookie_theorems.specs.Acts.{AreActed, AreTimely, IsActed, IsAnew, IsLoggedOut, IsNoStart, IsOffVisit, IsOnVisit, StartsVisit, IsSavedIfNeeded, IsVisit, IsWritten, Leaves, visit_at};
ghost use Rattle.cookie_theorems.specs.Line.{IsOneLogin, OpensAsBefore};
ghost use Rattle.cookie_theorems.specs.declared.event.Event.TheVariants as events;
ghost use Rattle.cookie_theorems.specs.declared.handling.Handling.{Handling as HandlingValue};

use crate::act::Act;
use crate::event::Event;
use crate::handling::Handling;
use crate::site_request::SiteRequest;
use cookie::{CookieJar, field_cookies};
use cookie_session::{Ending, Pass, Revocations, SessionError, Sessions, Visit, VisitError};
use jiff::civil::DateTime;
use rand_core::TryRng;
use std::alloc::{AllocError, Global};

/// Has the handlers of a site do these acts, one after the other, and returns what came of each.
///
/// One login is one line: a save that replaces a session by its renewal puts the two on one line. At any time at most
/// one session of a line opens, whoever sends whichever cookies, and whichever keys and limits the site has then. Once
/// a logout has returned `Ended` for one of them, none opens any more. This requires that what is revoked is kept, and
/// that no save, no logout and no request comes before a second up to which was forgotten.
///
/// Fails only if out of memory for the visits or the events.
pub fn serve<G: TryRng, R: Revocations>(
    alloc: Global,
    acts: &[Act<'_>],
    rng: &mut G,
    revocations: &mut R,
) -> Result<Vec<Event>, AllocError>
    // What came of each act, and why.
    ensures acted { R.is_intact revocations.new → R.can_revoke → IfOk result (λ events.
        (visits : List (Option HandlingValue)) × AreActed R.Error G.Error R.revoked_until acts.now
        ([], revocations.old) events.items (visits, revocations.new)) }

    // One login is one line, of which at most one session opens, and after its logout none.
    ensures line { R.is_intact revocations.new → R.can_revoke → (now : ℕ)
        → AreTimely 0 acts.now now
        → IfOk result (λ events. IsOneLogin (R.revoked_until revocations.new) now events.items) }

    // Nobody else is logged out.
    ensures others { R.is_intact revocations.new → R.can_revoke → IfOk result (λ events.
        OpensAsBefore events.items (R.revoked_until revocations.old)
        (R.revoked_until revocations.new)) }
    ensures kept { R.is_intact revocations.new → R.is_intact revocations.old }
{
    let mut visits = Vec::new(alloc);
    let mut events = Vec::new(alloc);
    for act in acts {
        let event = take_act(alloc, &mut visits, act, rng, revocations)?;
        events.push(event)?;
    }
    Ok(events)
}

// Does one act.
fn take_act<G: TryRng, R: Revocations>(
    alloc: Global,
    visits: &mut Vec<Option<Handling>>,
    act: &Act<'_>,
    rng: &mut G,
    revocations: &mut R,
) -> Result<Event, AllocError>
    ensures acted { R.is_intact revocations.new → R.can_revoke → IfOk result (λ event.
        IsActed R.Error G.Error act.now visits.old.items (R.revoked_until revocations.old)
        event visits.new.items (R.revoked_until revocations.new)) }
    ensures kept { R.is_intact revocations.new → R.is_intact revocations.old }
{
    match act {
        Act::Open(request) => open(alloc, visits, request, rng, revocations),
        Act::Renew(place, sessions, now) => Ok(renew(visits, *place, sessions, *now, rng)),
        Act::Restart(place, sessions, now) => {
            Ok(restart(alloc, visits, *place, sessions, *now, rng))
        }
        Act::Write(place, name, text) => Ok(write(visits, *place, name, text)),
        Act::Save(place, sessions, now) => {
            Ok(save(alloc, visits, *place, sessions, *now, rng, revocations))
        }
        Act::LogOut(place, sessions, now) => {
            Ok(log_out(alloc, visits, *place, sessions, *now, revocations))
        }
        Act::Forget(now) => Ok(forget(*now, revocations)),
    }
}

// Opens a request.
fn open<G: TryRng, R: Revocations>(
    alloc: Global,
    visits: &mut Vec<Option<Handling>>,
    request: &SiteRequest<'_>,
    rng: &mut G,
    revocations: &mut R,
) -> Result<Event, AllocError>
    ensures opened { R.is_intact revocations.new → IfOk result (λ event.
        StartsVisit R.Error G.Error (R.revoked_until revocations.old) request.now
        visits.old.items event visits.new.items) }
    ensures leaves { R.is_intact revocations.new → IfOk result (λ event. Leaves
        (second_of request.now.time) event
        (R.revoked_until revocations.old) (R.revoked_until revocations.new)) }
    ensures kept { R.is_intact revocations.new → R.is_intact revocations.old }
{
    match visit_of(alloc, request, rng, revocations) {
        Ok(visit) => {
            let jar = CookieJar::new(alloc);
            visits.push(Some(Handling { visit, jar }))?;
            Ok(Event::Plain)
        }
        Err(error) => Ok(unchanged(&error)),
    }
}

// The visit of the request.
fn visit_of<G: TryRng, R: Revocations>(
    alloc: Global,
    request: &SiteRequest<'_>,
    rng: &mut G,
    revocations: &mut R,
) -> Result<Visit, VisitError<R::Error>>
    ensures visit { R.is_intact revocations.new → IfOk result
        (IsVisit (R.revoked_until revocations.old) request.now) }
    ensures fails { (why : Refusal) → result ≡ Err (failure.Session why) → IsNoStart G.Error why }
    ensures never { result ≢ Err failure.Gone }
    ensures same { R.is_intact revocations.new
        → AreSame (R.revoked_until revocations.old) (R.revoked_until revocations.new) }
    ensures kept { R.is_intact revocations.new → R.is_intact revocations.old }
{
    let cookies = field_cookies(alloc, request.field)?;
    let sessions = &request.sessions;
    sessions.visit(alloc, &cookies, request.time, rng, revocations)
}

// Takes the visit at this place out, if there is one.
fn take_at(visits: &mut Vec<Option<Handling>>, place: usize) -> Option<Handling>
    ensures found { result ≡ visit_at visits.old.items place }
    ensures taken { visits.new.items ≡ slice_set visits.old.items place None }
{
    if place >= visits.len() {
        return None;
    }
    visits[place].take()
}

// Puts a visit back to its place.
fn put_at(visits: &mut Vec<Option<Handling>>, place: usize, handling: Handling)
    ensures { visits.new.items ≡ slice_set visits.old.items place (Some handling) }
{
    if place >= visits.len() {
        return;
    }
    visits[place] = Some(handling);
}

// Renews the session of the visit at this place.
fn renew<G: TryRng>(
    visits: &mut Vec<Option<Handling>>,
    place: usize,
    sessions: &Sessions<'_>,
    now: DateTime,
    rng: &mut G,
) -> Event
    ensures { IsOnVisit place (λ visit. IsAnew G.Error sessions.now now visit.session.texts visit)
        visits.old.items result visits.new.items }
{
    let Some(mut handling) = take_at(visits, place) else {
        return Event::Plain;
    };
    let event = told(handling.visit.renew(sessions, now, rng));
    put_at(visits, place, handling);
    event
}

// Starts the session of the visit at this place anew, without texts.
fn restart<G: TryRng>(
    alloc: Global,
    visits: &mut Vec<Option<Handling>>,
    place: usize,
    sessions: &Sessions<'_>,
    now: DateTime,
    rng: &mut G,
) -> Event
    ensures { IsOnVisit place (IsAnew G.Error sessions.now now empty)
        visits.old.items result visits.new.items }
{
    let Some(mut handling) = take_at(visits, place) else {
        return Event::Plain;
    };
    let event = told(handling.visit.restart(alloc, sessions, now, rng));
    put_at(visits, place, handling);
    event
}

// Puts a text into the session of the visit at this place.
fn write(visits: &mut Vec<Option<Handling>>, place: usize, name: &str, text: &str) -> Event
    ensures { IsOnVisit place (IsWritten name.now text.now)
        visits.old.items result visits.new.items }
{
    let Some(mut handling) = take_at(visits, place) else {
        return Event::Plain;
    };
    let event = match handling.visit.set(name, text) {
        Ok(()) => Event::Plain,
        Err(_) => Event::Refused(SessionError::OutOfMemory),
    };
    put_at(visits, place, handling);
    event
}

// What came of a change that revokes nothing.
fn told(changed: Result<(), SessionError>) -> Event
    ensures plain { OnOk changed (result ≡ events.Plain) }
    ensures refused { IfErr changed (λ why. result ≡ events.Refused why) }
{
    match changed {
        Ok(()) => Event::Plain,
        Err(why) => Event::Refused(why),
    }
}

// Saves the session of the visit at this place, if it must be saved.
fn save<G: TryRng, R: Revocations>(
    alloc: Global,
    visits: &mut Vec<Option<Handling>>,
    place: usize,
    sessions: &Sessions<'_>,
    now: DateTime,
    rng: &mut G,
    revocations: &mut R,
) -> Event
    ensures saved { R.is_intact revocations.new → R.can_revoke → IsOnVisit place
        (IsSavedIfNeeded R.Error G.Error sessions.now now)
        visits.old.items result visits.new.items }
    ensures leaves { R.is_intact revocations.new → R.can_revoke → Leaves (second_of now) result
        (R.revoked_until revocations.old) (R.revoked_until revocations.new) }
    ensures kept { R.is_intact revocations.new → R.is_intact revocations.old }
{
    let Some(mut handling) = take_at(visits, place) else {
        return Event::Plain;
    };
    let event = save_visit(alloc, &mut handling, sessions, now, rng, revocations);
    put_at(visits, place, handling);
    event
}

// Saves the session of a visit, if it must be saved.
fn save_visit<G: TryRng, R: Revocations>(
    alloc: Global,
    handling: &mut Handling,
    sessions: &Sessions<'_>,
    now: DateTime,
    rng: &mut G,
    revocations: &mut R,
) -> Event
    ensures saved { R.is_intact revocations.new → R.can_revoke → IsSavedIfNeeded R.Error G.Error
        sessions.now now handling.old.visit result handling.new.visit }
    ensures leaves { R.is_intact revocations.new → R.can_revoke → Leaves (second_of now) result
        (R.revoked_until revocations.old) (R.revoked_until revocations.new) }
    ensures kept { R.is_intact revocations.new → R.is_intact revocations.old }
{
    match handling.visit.replaced() {
        Some(from) => replace(alloc, handling, from, sessions, now, rng, revocations),
        None => save_own(alloc, handling, sessions, now, rng, revocations),
    }
}

// Saves the session of a visit, which replaces this pass.
fn replace<G: TryRng, R: Revocations>(
    alloc: Global,
    handling: &mut Handling,
    from: Pass,
    sessions: &Sessions<'_>,
    now: DateTime,
    rng: &mut G,
    revocations: &mut R,
) -> Event
    requires { Replaces handling.old.visit from }
    ensures saved { R.is_intact revocations.new → R.can_revoke → IsSavedIfNeeded R.Error G.Error
        sessions.now now handling.old.visit result handling.new.visit }
    ensures leaves { R.is_intact revocations.new → R.can_revoke → Leaves (second_of now) result
        (R.revoked_until revocations.old) (R.revoked_until revocations.new) }
    ensures kept { R.is_intact revocations.new → R.is_intact revocations.old }
{
    let Handling { visit, jar } = handling;
    let to = visit.session().pass();
    match sessions.save_if_needed(alloc, jar, visit, now, rng, revocations) {
        Ok(true) => Event::Replaced(from, to),
        Ok(false) => Event::Plain,
        Err(error) => failed(&error, from),
    }
}

// Saves the session of a visit, which replaces none.
fn save_own<G: TryRng, R: Revocations>(
    alloc: Global,
    handling: &mut Handling,
    sessions: &Sessions<'_>,
    now: DateTime,
    rng: &mut G,
    revocations: &mut R,
) -> Event
    requires { (pass : PassValue) → ¬ Replaces handling.old.visit pass }
    ensures saved { R.is_intact revocations.new → R.can_revoke → IsSavedIfNeeded R.Error G.Error
        sessions.now now handling.old.visit result handling.new.visit }
    ensures leaves { R.is_intact revocations.new → R.can_revoke → Leaves (second_of now) result
        (R.revoked_until revocations.old) (R.revoked_until revocations.new) }
    ensures kept { R.is_intact revocations.new → R.is_intact revocations.old }
{
    let Handling { visit, jar } = handling;
    match sessions.save_if_needed(alloc, jar, visit, now, rng, revocations) {
        Ok(_) => Event::Plain,
        Err(error) => unchanged(&error),
    }
}

// What came of a call that failed so, and revoked nothing.
fn unchanged<E>(error: &VisitError<E>) -> Event
    ensures refused { (why : Refusal) → error.now ≡ failure.Session why
        → result ≡ events.Refused why }
    ensures failed { (why : E) → error.now ≡ failure.Revocations why → result ≡ events.Failed }
{
    match error {
        VisitError::Session(why) => Event::Refused(*why),
        VisitError::Gone => Event::Failed,
        VisitError::Revocations(_) => Event::Failed,
    }
}

// What came of a save or a logout that failed so, which was to revoke this pass.
fn failed<E>(error: &VisitError<E>, pass: Pass) -> Event
    ensures refused { (why : Refusal) → error.now ≡ failure.Session why
        → result ≡ events.Refused why }
    ensures gone { error.now ≡ failure.Gone → result ≡ events.Gone pass }
    ensures unsure { (why : E) → error.now ≡ failure.Revocations why
        → result ≡ events.Unsure pass }
{
    match error {
        VisitError::Session(why) => Event::Refused(*why),
        VisitError::Gone => Event::Gone(pass),
        VisitError::Revocations(_) => Event::Unsure(pass),
    }
}

// Logs the visitor out whose visit is at this place.
fn log_out<R: Revocations>(
    alloc: Global,
    visits: &mut Vec<Option<Handling>>,
    place: usize,
    sessions: &Sessions<'_>,
    now: DateTime,
    revocations: &mut R,
) -> Event
    ensures logged_out { R.is_intact revocations.new → R.can_revoke → IsOffVisit place
        (IsLoggedOut R.Error) visits.old.items result visits.new.items }
    ensures leaves { R.is_intact revocations.new → R.can_revoke → Leaves (second_of now) result
        (R.revoked_until revocations.old) (R.revoked_until revocations.new) }
    ensures kept { R.is_intact revocations.new → R.is_intact revocations.old }
{
    let Some(handling) = take_at(visits, place) else {
        return Event::Plain;
    };
    end_visit(alloc, handling, sessions, now, revocations)
}

// Logs the visitor out.
fn end_visit<R: Revocations>(
    alloc: Global,
    handling: Handling,
    sessions: &Sessions<'_>,
    now: DateTime,
    revocations: &mut R,
) -> Event
    ensures logged_out { R.is_intact revocations.new → R.can_revoke
        → IsLoggedOut R.Error handling.visit result }
    ensures leaves { R.is_intact revocations.new → R.can_revoke → Leaves (second_of now) result
        (R.revoked_until revocations.old) (R.revoked_until revocations.new) }
    ensures kept { R.is_intact revocations.new → R.is_intact revocations.old }
{
    let Handling { visit, mut jar } = handling;
    let Some(pass) = visit.given() else {
        return Event::Nobody;
    };
    match sessions.log_out(alloc, &mut jar, visit, now, revocations) {
        Ok(Ending::Ended) => Event::Ended(pass),
        Ok(Ending::Nobody) => Event::Nobody,
        Ok(Ending::Gone) => Event::Gone(pass),
        Err(error) => failed(&error, pass),
    }
}

// Forgets what is over.
fn forget<R: Revocations>(now: u64, revocations: &mut R) -> Event
    ensures forgotten { R.is_intact revocations.new
        → (result ≡ events.Forgotten) ⊎ ((result ≡ events.Failed) × R.Error) }
    ensures leaves { R.is_intact revocations.new → Leaves now result
        (R.revoked_until revocations.old) (R.revoked_until revocations.new) }
    ensures kept { R.is_intact revocations.new → R.is_intact revocations.old }
{
    match revocations.forget(now) {
        Ok(()) => Event::Forgotten,
        Err(_) => Event::Failed,
    }
}
