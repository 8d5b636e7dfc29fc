//! The attributes of a cookie, read from the pieces after its pair (RFC 6265 5.2).
ghost use Rattle.std.specs.Prelude.{◌≡◌, ◌≢◌, ◌++◌, ◌∷◌, ◌↔◌, [], List, ℕ, pos, eqb, Option, Some, None, Ok, IfSome, IfOk, IsTrue, MatchOption, map, option_map, codes};
ghost use Rattle.std.specs.List.{list_all, starts_with};
ghost use Rattle.std.specs.Char.{is_ascii_digit, to_ascii_lowercase};
ghost use Rattle.jiff.specs.Words.{signed_nanos};
ghost use Rattle.cookie_core.specs.declared.expiration.Expiration.{Expiration};
ghost use Rattle.cookie_core.specs.Parts.{part_text, IsOptionalPartOf};
ghost use Rattle.cookie_core.specs.Record.{plain};
ghost use Rattle.cookie_core.specs.Spans.{StandsIn, span_text};
ghost use Rattle.cookie_core.specs.Walk.{HasRead};
ghost use Rattle.cookie_core.specs.Layout.{attributes_of, AreIn};
ghost use Rattle.cookie_core.specs.Settings.{no_attributes, either, SetsOneField};
ghost use Rattle.cookie_core.specs.Attributes.{IsAttribute, IsWord, word_of, SetsAttributes, GivesExpiry, seconds_of_digits, max_age_seconds, nanos_of_seconds, same_site_key};

use crate::expiration::Expiration;
use crate::part::Part;
use crate::same_site::SameSite;
use crate::span::Span;
use cookie_date::read_date;
use jiff::SignedDuration;

/// The attributes of a cookie that the pieces after its pair set, each if it is set (RFC 6265 5.2.1 to 5.2.6).
#[derive(Clone, Copy)]
pub struct Attributes {
    /// Whether scripts are kept from the cookie.
    pub http_only: Option<bool>,
    /// Whether the cookie is for secure connections only.
    pub secure: Option<bool>,
    /// Whether the cookie is kept apart for each top-level site.
    pub partitioned: Option<bool>,
    /// To which requests from other sites the cookie is sent.
    pub same_site: Option<SameSite>,
    /// Where the path is in the text.
    pub path: Option<Span>,
    /// Where the domain is in the text, with its leading dot if it has one.
    pub domain: Option<Span>,
    /// The age after which the cookie expires, in whole seconds from zero to `i64::MAX`.
    pub max_age: Option<SignedDuration>,
    /// The date and time in UTC at which the cookie expires.
    pub expires: Option<Expiration>,
}

// The key of a piece, and its value if there is a `=`.
fn attribute<'t>(piece: Part<'t>) -> (&'t str, Option<Part<'t>>)
    ensures attribute { IsAttribute (part_text piece.entry) result.0.now
        (option_map part_text result.1) }
    ensures place { IsOptionalPartOf piece.entry.whole.now result.1 }
{
    match piece.cut(b'=') {
        (key, Some(value)) => (key.trim().text(), Some(value.trim())),
        (key, None) => (key.trim().text(), None),
    }
}

fn is_key(key: &str, word: &str) -> bool
    ensures { IsTrue result ↔ (IsWord key.now (map to_ascii_lowercase word.now)) }
{
    key.eq_ignore_ascii_case(word)
}

fn are_digits(text: &str) -> bool
    ensures { result ≡ list_all is_ascii_digit text.now }
{
    text.as_bytes().iter().all(|byte| byte.is_ascii_digit())
}

/// The number of seconds that the digits write, at most `i64::MAX`. `None` if there is no digit, or another character
/// (RFC 6265 5.2.2).
pub fn seconds_of_digits(digits: &str) -> Option<i64>
    ensures { result ≡ option_map pos (seconds_of_digits digits.now) }
{
    if digits.is_empty() || !are_digits(digits) {
        return None;
    }
    match digits.parse::<i64>() {
        Ok(number) => Some(number),
        Err(_) => Some(i64::MAX),
    }
}

// The age in the value of `Max-Age`. A negative age counts as zero (RFC 6265 5.2.2).
fn max_age(value: &str) -> Option<SignedDuration>
    ensures { option_map signed_nanos result
        ≡ option_map nanos_of_seconds (max_age_seconds value.now) }
{
    if value.starts_with("-") {
        let _seconds = seconds_of_digits(&value[1..])?;
        return Some(SignedDuration::ZERO);
    }
    Some(SignedDuration::from_secs(seconds_of_digits(value)?))
}

/// The key of an attribute.
#[derive(Clone, Copy)]
pub(crate) enum Key {
    HttpOnly,
    Secure,
    Partitioned,
    SameSite,
    Path,
    Domain,
    MaxAge,
    Expires,
}

impl Key {
    // The key that the text is, in any ASCII case.
    fn of(text: &str) -> Option<Key>
        ensures { MatchOption result ((k : Key) → ¬ (IsWord text.now (word_of k)))
            (λ k. IsWord text.now (word_of k)) }
    {
        if is_key(text, "httponly") {
            return Some(Key::HttpOnly);
        }
        if is_key(text, "secure") {
            return Some(Key::Secure);
        }
        if is_key(text, "partitioned") {
            return Some(Key::Partitioned);
        }
        if is_key(text, "samesite") {
            return Some(Key::SameSite);
        }
        if is_key(text, "path") {
            return Some(Key::Path);
        }
        if is_key(text, "domain") {
            return Some(Key::Domain);
        }
        if is_key(text, "max-age") {
            return Some(Key::MaxAge);
        }
        if is_key(text, "expires") {
            return Some(Key::Expires);
        }
        None
    }
}

// The part, if it is not empty.
fn unless_empty(part: Part<'_>) -> Option<Span>
    ensures { MatchOption result (part_text part.entry ≡ [])
        (λ p. (p ≡ part.entry.span) × (part_text part.entry ≢ [])) }
{
    if part.text().is_empty() {
        None
    } else {
        Some(part.span)
    }
}

// The rule for requests from other sites that the text names, in any ASCII case.
fn same_site(text: &str) -> Option<SameSite>
    ensures { MatchOption result ((x : SameSite) → ¬ (IsWord text.now (same_site_key x)))
        (λ x. IsWord text.now (same_site_key x)) }
{
    if is_key(text, "strict") {
        return Some(SameSite::Strict);
    }
    if is_key(text, "lax") {
        return Some(SameSite::Lax);
    }
    if is_key(text, "none") {
        return Some(SameSite::None);
    }
    None
}

// The expiry in the text, if the text is a date.
fn expiration(text: &str) -> Option<Expiration>
    ensures { MatchOption result ((x : Expiration) → ¬ (GivesExpiry text.now x))
        (GivesExpiry text.now) }
{
    let moment = read_date(text)?;
    Some(Expiration::DateTime(moment))
}

impl Attributes {
    fn unset() -> Attributes
        ensures { result ≡ no_attributes }
    {
        Attributes {
            http_only: None,
            secure: None,
            partitioned: None,
            same_site: None,
            path: None,
            domain: None,
            max_age: None,
            expires: None,
        }
    }

    // What an attribute with this key and without a value sets: a flag, or nothing.
    fn without_value(key: Key) -> Attributes
        ensures gives { (s : List ℕ) → SetsOneField key None (attributes_of s result) }
        ensures place { (s : List ℕ) → AreIn s result }
    {
        let unset = Attributes::unset();
        match key {
            Key::HttpOnly => Attributes {
                http_only: Some(true),
                ..unset
            },
            Key::Secure => Attributes {
                secure: Some(true),
                ..unset
            },
            Key::Partitioned => Attributes {
                partitioned: Some(true),
                ..unset
            },
            Key::SameSite | Key::Path | Key::Domain | Key::MaxAge | Key::Expires => unset,
        }
    }

    // What an attribute with this key and value sets. A flag doesn't look at its value.
    fn with_value(key: Key, value: Part<'_>) -> Attributes
        ensures gives { SetsOneField key (Some (part_text value.entry))
            (attributes_of value.entry.whole.now result) }
        ensures place { AreIn value.entry.whole.now result }
    {
        let unset = Attributes::unset();
        match key {
            Key::HttpOnly | Key::Secure | Key::Partitioned => Attributes::without_value(key),
            Key::SameSite => Attributes {
                same_site: same_site(value.text()),
                ..unset
            },
            Key::Path => Attributes {
                path: Some(value.span),
                ..unset
            },
            Key::Domain => Attributes {
                domain: unless_empty(value),
                ..unset
            },
            Key::MaxAge => Attributes {
                max_age: max_age(value.text()),
                ..unset
            },
            Key::Expires => Attributes {
                expires: expiration(value.text()),
                ..unset
            },
        }
    }

    // What the piece sets.
    fn of(piece: Part<'_>) -> Attributes
        ensures sets { SetsAttributes (part_text piece.entry ∷ [])
            (attributes_of piece.entry.whole.now result) }
        ensures place { AreIn piece.entry.whole.now result }
    {
        let (key, value) = attribute(piece);
        match Key::of(key) {
            Some(key) => match value {
                Some(value) => Attributes::with_value(key, value),
                None => Attributes::without_value(key),
            },
            None => Attributes::unset(),
        }
    }

    // Sets each attribute that `later` sets.
    fn update(&mut self, later: Attributes)
        ensures or { (s : List ℕ)
            → attributes_of s self.new ≡ either (attributes_of s later) (attributes_of s self.old) }
        ensures place { (s : List ℕ) → AreIn s later → AreIn s self.old → AreIn s self.new }
    {
        self.http_only = later.http_only.or(self.http_only);
        self.secure = later.secure.or(self.secure);
        self.partitioned = later.partitioned.or(self.partitioned);
        self.same_site = later.same_site.or(self.same_site);
        self.path = later.path.or(self.path);
        self.domain = later.domain.or(self.domain);
        self.max_age = later.max_age.or(self.max_age);
        self.expires = later.expires.or(self.expires);
    }

    // The attributes that the pieces of `later` in the text set. Always inlined, so that nothing is left of it if there
    // are none.
    #[inline(always)]
    pub(crate) fn read(text: &str, later: Option<Span>) -> Attributes
        requires { IfSome later (StandsIn text.now) }
        ensures read { HasRead (option_map (span_text text.now) later)
            (attributes_of text.now result) None }
        ensures place { AreIn text.now result }
        ensures unset { later ≡ None → result ≡ no_attributes }
    {
        let mut attributes = Attributes::unset();
        let mut rest = later;
        while let Some(span) = rest {
            let (piece, after) = Part::at(text, span).cut(b';');
            attributes.update(Attributes::of(piece));
            rest = Part::span_of(after);
        }
        attributes
    }
}
