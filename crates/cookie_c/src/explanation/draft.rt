//! An explanation before it is given to C: what a browser makes of a text, or of a cookie.
ghost use Rattle.std.specs.Prelude.{Result as ResultOf, Option, ℤ, ◌≡◌, ◌++◌, [], IfOk, IsNone, IsSomeAnd, MatchResult, OnOk, None, Some, Ok, Err, length, int_div, option_map, pos};
ghost use Rattle.jiff.specs.Types.{DateTime as CivilDateTime};
ghost use Rattle.jiff.specs.Words.{signed_nanos};
ghost use Rattle.cookie_browser.specs.ExpiryCode.{expiry_time};
ghost use Rattle.cookie_browser.specs.ReceivedCode.{received_view};
ghost use Rattle.cookie_browser.specs.RefusedCode.{kept_view, request_view};
ghost use Rattle.cookie_browser.specs.Storage.{KeptView, asked_domain, kept_until, verdict, verdict_on};
ghost use Rattle.cookie_browser.specs.declared.refusal.Refusal.{Refusal as RefusalValue};
ghost use Rattle.cookie_session.specs.Seconds.{from_zero};
ghost use Rattle.cookie_c.specs.Agents.{IsTooFar, IsUntold};
ghost use Rattle.cookie_c.specs.ExplanationParts.{IsDraftOf};
ghost use Rattle.cookie_c.specs.Explanations.{Explains, enforcement_code, span_at, refusal_code, seconds_until};
ghost use Rattle.cookie_c.specs.declared.status.Status.TheVariants as status;

use crate::answer::Answer;
use crate::explanation::{Explanation, Stored};
use crate::span::Span;
use crate::status::Status;
use cookie_agent::StoredCookie;
use cookie_browser::{
    BrowserRequest, Enforcement, Expiry, KeptCookie, Received, ReceivedAttributes, Refusal,
    Suffixes, refused_by,
};
use jiff::SignedDuration;
use jiff::civil::DateTime;
use std::alloc::{AllocError, Global};

/// An explanation, with the texts that are for the buffer.
#[derive(Drop)]
pub(crate) struct Draft {
    answer: Explanation,
    texts: Vec<u8>,
}

impl Draft {
    // What a browser without cookies makes of the text at that time.
    pub(super) fn of<'x>(
        alloc: Global,
        suffixes: &Suffixes,
        request: BrowserRequest<'x>,
        text: &'x [u8],
        now: DateTime,
    ) -> Result<Draft, AllocError>
        ensures { IfOk result (IsDraftOf now
            (verdict suffixes.now (request_view request.entry) now [] text.now)) }
    {
        match Received::of(text) {
            Ok(received) => {
                let domain = received.attributes.bare_domain().to_ascii_lowercase(alloc)?;
                let seen = request;
                Draft::of_received(alloc, suffixes, &seen, &received, domain.as_slice(), now)
            }
            Err(refusal) => Draft::of_refusal(alloc, refusal),
        }
    }

    // What a browser without cookies makes of a received cookie, given its domain in lower case.
    fn of_received<'x>(
        alloc: Global,
        suffixes: &Suffixes,
        request: &BrowserRequest<'x>,
        received: &Received<'x>,
        domain: &'x [u8],
        now: DateTime,
    ) -> Result<Draft, AllocError>
        requires { domain.now ≡ asked_domain (received_view received.now).attributes }
        ensures { IfOk result (IsDraftOf now
            (verdict_on suffixes.now (request_view request.now) now []
            (Ok (received_view received.now)))) }
    {
        let new = KeptCookie::of(suffixes, request, received, domain);
        match refused_by(suffixes, request, &[], received, domain, &new) {
            Some(refusal) => Draft::of_refusal(alloc, refusal),
            None => Draft::of_cookie(alloc, &new, lifetime(&received.attributes, now)),
        }
    }

    // The explanation, with its texts for the buffer.
    pub(crate) fn give(self, out: &mut [u8]) -> Explanation
        ensures { (time : CivilDateTime) (outcome : ResultOf KeptView RefusalValue)
            → IsDraftOf time outcome self → Explains time outcome result out.old out.new }
    {
        let answer = Answer::give(&self.texts, out);
        Explanation {
            status: answer.status,
            ..self.answer
        }
    }

    // The draft of a refusal.
    fn of_refusal(alloc: Global, why: Refusal) -> Result<Draft, AllocError>
        ensures { (time : CivilDateTime) → IfOk result (IsDraftOf time (Err why)) }
    {
        let mut texts = Vec::new(alloc);
        let answer = Explanation {
            refusal: code_of(why),
            sentence: push(&mut texts, why.as_str().as_bytes())?,
            section: push(&mut texts, why.section().as_bytes())?,
            ..Explanation::none(Status::Done)
        };
        Ok(Draft { answer, texts })
    }

    // The draft of a cookie that a user agent stores, or why there is none.
    pub(crate) fn of_kept(
        alloc: Global,
        cookie: &StoredCookie,
        now: DateTime,
    ) -> Result<Draft, Status>
        ensures { MatchResult result (IsDraftOf now (Ok cookie.now)) (IsUntold now cookie.now) }
    {
        let lifetime = seconds_left(cookie.expiry(), now)?;
        match Draft::of_cookie(alloc, &cookie.as_kept(), lifetime) {
            Ok(draft) => Ok(draft),
            Err(_) => Err(Status::OutOfMemory),
        }
    }

    // The draft of a stored cookie with this lifetime, if it has one.
    fn of_cookie(
        alloc: Global,
        cookie: &KeptCookie<'_>,
        lifetime: Option<u64>,
    ) -> Result<Draft, AllocError>
        ensures { (time : CivilDateTime) (expiry : Option ℤ) (last_access : ℤ)
            → lifetime ≡ option_map (seconds_until time) expiry
            → IfOk result (IsDraftOf time (Ok (record (kept_view cookie.now) {
              expiry = expiry;
              last_access = last_access;
            }))) }
    {
        let mut texts = Vec::new(alloc);
        let stored = Stored {
            name: push(&mut texts, cookie.name)?,
            value: push(&mut texts, cookie.value)?,
            domain: push(&mut texts, cookie.domain)?,
            path: push(&mut texts, cookie.path)?,
            lifetime: lifetime.unwrap_or(0),
            same_site: enforcement_code(cookie.same_site),
            is_persistent: lifetime.is_some(),
            is_host_only: cookie.is_host_only,
            is_secure: cookie.is_secure_only,
            is_http_only: cookie.is_http_only,
        };
        let answer = Explanation {
            stored,
            ..Explanation::none(Status::Done)
        };
        Ok(Draft { answer, texts })
    }
}

// Appends the text, and returns its span in the longer text.
fn push(texts: &mut Vec<u8>, text: &[u8]) -> Result<Span, AllocError>
    ensures span { IfOk result (λ span. span ≡ span_at (length texts.old.items) text.now) }
    ensures text { OnOk result (texts.new.items ≡ texts.old.items ++ text.now) }
{
    let span = Span {
        start: texts.len(),
        length: text.len(),
    };
    texts.extend_from_slice(text)?;
    Ok(span)
}

// The number of the step that refuses a cookie.
pub(crate) fn code_of(refusal: Refusal) -> u32
    ensures { result ≡ refusal_code refusal }
{
    match refusal {
        Refusal::ControlCharacter => 1,
        Refusal::TooLong => 2,
        Refusal::Empty => 3,
        Refusal::NonAsciiDomain => 4,
        Refusal::PublicSuffix => 5,
        Refusal::ForeignDomain => 6,
        Refusal::InsecureConnection => 7,
        Refusal::OverlaysSecure => 8,
        Refusal::CrossSite => 9,
        Refusal::NoneWithoutSecure => 10,
        Refusal::SecurePrefix => 11,
        Refusal::HostPrefix => 12,
        Refusal::NamelessPrefix => 13,
        Refusal::HttpPrefix => 14,
    }
}

fn enforcement_code(enforcement: Enforcement) -> u32
    ensures { result ≡ enforcement_code enforcement }
{
    match enforcement {
        Enforcement::Default => 0,
        Enforcement::Strict => 1,
        Enforcement::Lax => 2,
        Enforcement::None => 3,
    }
}

// The whole seconds from now on until a cookie with these attributes expires, if it does.
fn lifetime(attributes: &ReceivedAttributes<'_>, now: DateTime) -> Option<u64>
    ensures { result ≡ option_map (seconds_until now)
        (kept_until now attributes.now.max_age attributes.now.expires) }
{
    if let Some(age) = attributes.max_age {
        return Some(u64::from(age));
    }
    match Expiry::of(attributes, now) {
        Expiry::Session => None,
        Expiry::At(moment) => Some(whole_seconds(moment.duration_since(now))),
        Expiry::After(moment, age) => Some(whole_seconds(age - now.duration_since(moment))),
    }
}

// The whole seconds from now on until the expiry, if there is one. Refuses an expiry that is too far off.
fn seconds_left(expiry: Expiry, now: DateTime) -> Result<Option<u64>, Status>
    ensures { MatchResult result
        (λ left. left ≡ option_map (seconds_until now) (expiry_time expiry))
        (λ why. (why ≡ status.NoDate) × IsTooFar now (expiry_time expiry)) }
{
    match expiry {
        Expiry::Session => Ok(None),
        Expiry::At(moment) => Ok(Some(whole_seconds(moment.duration_since(now)))),
        Expiry::After(moment, age) => seconds_of(age.checked_sub(now.duration_since(moment))),
    }
}

// The whole seconds of a time that is still left, if a duration has it.
fn seconds_of(left: Option<SignedDuration>) -> Result<Option<u64>, Status>
    ensures { MatchResult result
        (λ seconds. IsSomeAnd left (λ time. seconds
        ≡ Some (from_zero (int_div (signed_nanos time) (pos 1000000000)))))
        (λ why. (why ≡ status.NoDate) × IsNone left) }
{
    match left {
        Some(left) => Ok(Some(whole_seconds(left))),
        None => Err(Status::NoDate),
    }
}

// The whole seconds of a time that is still left, and 0 if none is.
fn whole_seconds(left: SignedDuration) -> u64
    ensures { result ≡ from_zero (int_div (signed_nanos left) (pos 1000000000)) }
{
    let seconds = left.as_secs();
    if seconds < 0 { 0 } else { seconds as u64 }
}
