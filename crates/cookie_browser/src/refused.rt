//! Which step of a browser refuses a cookie (RFC 6265bis, Storage Model).
ghost use Rattle.std.specs.Prelude.{◌≡◌, ◌&&◌, not, [], codes, map};
ghost use Rattle.std.specs.List.{list_any};
ghost use Rattle.std.specs.Str.{bytes_eq};
ghost use Rattle.cookie_core.specs.NamePrefixes.{has_any_prefix};
ghost use Rattle.cookie_browser.specs.PrintedStored.{IsPrintedSent, IsPrintedStored};
ghost use Rattle.cookie_browser.specs.Storage as spec;
ghost use Rattle.cookie_browser.specs.Storage.{CookieStore};
ghost use Rattle.cookie_browser.specs.ReceivedCode.{received_view};
ghost use Rattle.cookie_browser.specs.RefusedCode.{kept_view, request_view};

use crate::bytes::is_ascii;
use crate::enforcement::Enforcement;
use crate::kept_cookie::KeptCookie;
use crate::received::Received;
use crate::refusal::Refusal;
use crate::request::{BrowserRequest, is_in_domain};
use crate::suffixes::Suffixes;
use cookie_core::{EnforcedPrefix, Guards};

pub(crate) fn is_site_bound(enforcement: Enforcement) -> bool
    ensures { result ≡ spec.is_site_bound enforcement }
{
    !matches!(enforcement, Enforcement::None)
}

// Whether the domain is a public suffix, and the host is a name.
pub(crate) fn is_suffix_at(suffixes: &Suffixes, request: &BrowserRequest<'_>, domain: &[u8]) -> bool
    ensures { result ≡ spec.is_suffix_at suffixes.now (request_view request.now) domain.now }
{
    !request.is_address && suffixes.is_public(domain)
}

fn is_suffix_of_others(suffixes: &Suffixes, request: &BrowserRequest<'_>, domain: &[u8]) -> bool
    ensures { result ≡ spec.is_suffix_of_others suffixes.now (request_view request.now)
        domain.now }
{
    !domain.is_empty() && domain != request.host && is_suffix_at(suffixes, request, domain)
}

// What the cookie has of that which prefixes require.
fn guards_of(received: &Received<'_>, new: &KeptCookie<'_>) -> Guards
    ensures { result ≡ spec.guards_of (received_view received.now) (kept_view new.now) }
{
    Guards {
        is_secure: new.is_secure_only,
        is_http_only: new.is_http_only,
        is_host_bound: new.is_host_only
            && received.attributes.has_path
            && new.path == b"/".as_slice(),
    }
}

fn prefix_refusal(prefix: EnforcedPrefix) -> Refusal
    ensures { result ≡ spec.prefix_refusal prefix }
{
    let required = prefix.required();
    if required.is_http_only {
        Refusal::HttpPrefix
    } else if required.is_host_bound {
        Refusal::HostPrefix
    } else {
        Refusal::SecurePrefix
    }
}

// The steps from an empty pair to a domain that the host isn't in.
#[tactic(auto, unfolding(crate::specs::Storage::refusal_by_domain))]
fn refused_by_domain(
    suffixes: &Suffixes,
    request: &BrowserRequest<'_>,
    received: &Received<'_>,
    domain: &[u8],
) -> Option<Refusal>
    requires { domain.now ≡ spec.asked_domain (received_view received.now).attributes }
    ensures { result ≡ spec.refusal_by_domain suffixes.now (request_view request.now)
        (received_view received.now) }
{
    if received.name.is_empty() && received.value.is_empty() {
        return Some(Refusal::Empty);
    }
    if !is_ascii(domain) {
        return Some(Refusal::NonAsciiDomain);
    }
    if is_suffix_of_others(suffixes, request, domain) {
        return Some(Refusal::PublicSuffix);
    }
    if !domain.is_empty() && !is_in_domain(request.host, request.is_address, domain) {
        return Some(Refusal::ForeignDomain);
    }
    None
}

fn any_overlaid(
    request: &BrowserRequest<'_>,
    store: &[KeptCookie<'_>],
    new: &KeptCookie<'_>,
) -> bool
    ensures { result ≡ list_any (spec.is_overlaid (request_view request.now) (kept_view new.now))
        (map kept_view store.now) }
{
    any_kept(request, store, new)
}

fn any_kept(request: &BrowserRequest<'_>, store: &[KeptCookie<'_>], new: &KeptCookie<'_>) -> bool
    ensures { result ≡ list_any (λ k. spec.is_overlaid (request_view request.now)
        (kept_view new.now) (kept_view k)) store.now }
{
    store.iter().any(|old| old.is_overlaid_by(new, request))
}

fn overlays(request: &BrowserRequest<'_>, store: &[KeptCookie<'_>], new: &KeptCookie<'_>) -> bool
    ensures { result ≡ spec.overlays (request_view request.now) (map kept_view store.now)
        (kept_view new.now) }
{
    !new.is_secure_only && !request.is_secure && any_overlaid(request, store, new)
}

// The steps on `Secure` and `SameSite`.
#[tactic(auto, unfolding(crate::specs::Storage::refusal_by_connection))]
fn refused_by_connection(
    request: &BrowserRequest<'_>,
    overlays: bool,
    new: &KeptCookie<'_>,
) -> Option<Refusal>
    ensures { (store : CookieStore)
        → overlays ≡ spec.overlays (request_view request.now) store (kept_view new.now)
        → result ≡ spec.refusal_by_connection (request_view request.now) store (kept_view new.now) }
{
    if new.is_secure_only && !request.is_secure {
        return Some(Refusal::InsecureConnection);
    }
    if overlays {
        return Some(Refusal::OverlaysSecure);
    }
    if is_site_bound(new.same_site) && !request.is_same_site && !request.is_top_level {
        return Some(Refusal::CrossSite);
    }
    if !is_site_bound(new.same_site) && !new.is_secure_only {
        return Some(Refusal::NoneWithoutSecure);
    }
    None
}

// The steps on prefixes.
#[tactic(auto, unfolding(crate::specs::Storage::refusal_by_prefix))]
fn refused_by_prefix(received: &Received<'_>, new: &KeptCookie<'_>) -> Option<Refusal>
    ensures { result ≡ spec.refusal_by_prefix (received_view received.now) (kept_view new.now) }
{
    if let Some(prefix) = EnforcedPrefix::unmet(received.name, guards_of(received, new)) {
        return Some(prefix_refusal(prefix));
    }
    if received.name.is_empty() && EnforcedPrefix::any_begins(received.value) {
        return Some(Refusal::NamelessPrefix);
    }
    None
}

/// Returns the first step that refuses a received cookie, or `None` if none does (RFC 6265bis, Storage Model). An
/// expired cookie that isn't refused, as with `Max-Age=0`, removes the stored one.
///
/// `store` has the cookies that the browser holds and that aren't expired. `domain` is the result of
/// `received.attributes.bare_domain()` in lower case. `new` is the cookie as the browser would store it.
pub fn refused_by(
    suffixes: &Suffixes,
    request: &BrowserRequest<'_>,
    store: &[KeptCookie<'_>],
    received: &Received<'_>,
    domain: &[u8],
    new: &KeptCookie<'_>,
) -> Option<Refusal>
    requires { domain.now ≡ spec.asked_domain (received_view received.now).attributes }
    ensures value { result ≡ spec.first_refusal suffixes.now (request_view request.now)
        (map kept_view store.now) (received_view received.now) (kept_view new.now) }

    // A text that `cookie_core` prints is stored, if an empty store doesn't refuse it and it overlays no secure cookie.
    // A live one is then sent with the next request in its scope, and one of age zero is expired.
    ensures printed { IsPrintedStored }
    ensures sent { IsPrintedSent }
{
    let overlays = overlays(request, store, new);
    refused_with(suffixes, request, overlays, received, domain, new)
}

/// Returns what [`refused_by`] does, without a list of the stored cookies. `overlays` is whether the cookie would overlay
/// one: it isn't secure-only, comes over an insecure connection, and [`KeptCookie::is_overlaid_by`] holds of a stored
/// cookie that isn't expired (RFC 6265bis, Storage Model).
pub fn refused_with(
    suffixes: &Suffixes,
    request: &BrowserRequest<'_>,
    overlays: bool,
    received: &Received<'_>,
    domain: &[u8],
    new: &KeptCookie<'_>,
) -> Option<Refusal>
    requires { domain.now ≡ spec.asked_domain (received_view received.now).attributes }
    ensures { (store : CookieStore)
        → overlays ≡ spec.overlays (request_view request.now) store (kept_view new.now)
        → result ≡ spec.first_refusal suffixes.now (request_view request.now) store
        (received_view received.now) (kept_view new.now) }
{
    if let Some(refusal) = refused_by_domain(suffixes, request, received, domain) {
        return Some(refusal);
    }
    if let Some(refusal) = refused_by_connection(request, overlays, new) {
        return Some(refusal);
    }
    refused_by_prefix(received, new)
}
