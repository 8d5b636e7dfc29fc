//! Calls on a jar, as values.
ghost use Rattle.std.specs.Prelude.{◌≡◌, ◌≢◌, ◌↔◌, [], IsTrue, IfSome, option_map};
ghost use Rattle.cookie.specs.Pieces.{Lacks};
ghost use Rattle.cookie_client.specs.Calls.{IsFit, IsFitAddition, IsFitCall, asked_of_child, change_of, is_change};

use crate::child_call::ChildCall;
use crate::live::is_live;
use crate::prefix_kind::PrefixKind;
use cookie::{Cookie, Key};
use jiff::civil::DateTime;

/// A call on a jar.
#[derive(Drop)]
pub enum JarCall<'k> {
    /// Adds an original cookie.
    AddOriginal(Cookie<'static>),
    /// Adds a cookie.
    Add(Cookie<'static>),
    /// Removes the cookie's name at a time in UTC (RFC 6265 3.1).
    Remove(Cookie<'static>, DateTime),
    /// Removes a name from originals and changes alike.
    ForceRemove(String),
    /// Forgets all changes.
    ResetDelta,
    /// A call through the child jar of a prefix.
    Prefixed(PrefixKind, ChildCall),
    /// A call through the signed child jar of the key. The key must be random.
    Signed(&'k Key, ChildCall),
    /// A call through the private child jar of the key. An addition is sealed under the nonce of twelve bytes, which a
    /// removal doesn't use. The key must be random, and nothing else may ever be sealed with it under the same nonce
    /// (SP 800-38D 8): no contract checks that. At most 2^32 random nonces may be used with one key (8.3).
    Private(&'k Key, [u8; 12], ChildCall),
}

impl<'k> JarCall<'k> {
    /// Whether a client can follow the call at the time `now` in UTC. A cookie in it must have a name. If it is added
    /// and isn't an original, it must also be live at that time ([`is_live`]), and its path and its domain must hold no
    /// semicolon. The cookie is checked as it was passed in.
    /// Example: `are_fit` in crates/cookie_examples/src/following.rt.
    pub fn is_fit(&self, now: DateTime) -> bool
        ensures { IsTrue result ↔ IsFitCall now self.now }
    {
        match self {
            JarCall::AddOriginal(cookie) | JarCall::Remove(cookie, _) => has_name(cookie),
            JarCall::Add(cookie) => is_fit_addition(cookie, now),
            JarCall::ForceRemove(_) | JarCall::ResetDelta => true,
            JarCall::Prefixed(_, call) | JarCall::Signed(_, call) | JarCall::Private(_, _, call) =>
                { call.is_fit(now) }
        }
    }

    /// Whether the call is an addition that isn't an original, or a removal.
    pub fn is_change(&self) -> bool
        ensures { result ≡ is_change (change_of self.now) }
    {
        match self {
            JarCall::AddOriginal(_) | JarCall::ForceRemove(_) | JarCall::ResetDelta => false,
            JarCall::Add(_) | JarCall::Remove(_, _) => true,
            JarCall::Prefixed(_, call) | JarCall::Signed(_, call) | JarCall::Private(_, _, call) =>
                { call.is_change() }
        }
    }
}

impl ChildCall {
    fn is_fit(&self, now: DateTime) -> bool
        ensures { IsTrue result ↔ IsFit now (asked_of_child self.now) }
    {
        match self {
            ChildCall::AddOriginal(cookie) | ChildCall::Remove(cookie, _) => has_name(cookie),
            ChildCall::Add(cookie) => is_fit_addition(cookie, now),
        }
    }

    fn is_change(&self) -> bool
        ensures { result ≡ is_change (asked_of_child self.now) }
    {
        matches!(self, ChildCall::Add(_) | ChildCall::Remove(_, _))
    }
}

fn has_name(cookie: &Cookie<'_>) -> bool
    ensures { IsTrue result ↔ (cookie.now.fields.name ≢ []) }
{
    !cookie.name().is_empty()
}

fn is_fit_addition(cookie: &Cookie<'_>, now: DateTime) -> bool
    ensures { IsTrue result ↔ IsFitAddition now cookie.now.fields }
{
    has_name(cookie)
        && is_live(cookie, now)
        && lacks_semicolons(cookie.path())
        && lacks_semicolons(cookie.domain())
}

// Whether the text, if there is one, holds no semicolon.
fn lacks_semicolons(text: Option<&str>) -> bool
    ensures { IsTrue result ↔ IfSome (option_map (λ t. t.now) text.entry) (Lacks 59) }
{
    match text {
        Some(text) => !text.contains(';'),
        None => true,
    }
}
