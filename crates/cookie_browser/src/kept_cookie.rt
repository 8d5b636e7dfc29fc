//! A cookie, as a browser keeps it.
ghost use Rattle.std.specs.Prelude.{◌≡◌, None, map, pos};
ghost use Rattle.jiff.specs.Types.{DateTime};
ghost use Rattle.cookie_browser.specs.Storage as spec;
ghost use Rattle.cookie_browser.specs.ReceivedCode.{received_view};
ghost use Rattle.cookie_browser.specs.RefusedCode.{kept_view, request_view};

use crate::enforcement::Enforcement;
use crate::received::Received;
use crate::refused::{is_site_bound, is_suffix_at};
use crate::request::{BrowserRequest, folder_of, is_in_domain, is_under_path};
use crate::suffixes::Suffixes;

/// The fields of a cookie in a browser's store that a refusal depends on (RFC 6265bis, Storage Model).
#[derive(Clone, Copy)]
pub struct KeptCookie<'s> {
    /// The name as the text has it, empty if the text has none.
    pub name: &'s [u8],
    /// The value as the text has it.
    pub value: &'s [u8],
    /// The domain, in lower case and without a leading dot. It is the host if the cookie is host-only.
    pub domain: &'s [u8],
    /// Whether only that host gets the cookie.
    pub is_host_only: bool,
    /// The path.
    pub path: &'s [u8],
    /// Whether the cookie is sent over secure connections only.
    pub is_secure_only: bool,
    /// Whether the cookie is hidden from scripts.
    pub is_http_only: bool,
    /// To which requests of other sites the cookie is sent.
    pub same_site: Enforcement,
}

// Whether only the host gets a cookie with this domain.
fn is_host_only(suffixes: &Suffixes, request: &BrowserRequest<'_>, domain: &[u8]) -> bool
    ensures { result ≡ spec.is_host_only suffixes.now (request_view request.now) domain.now }
{
    domain.is_empty() || is_suffix_at(suffixes, request, domain)
}

// The path, if it begins with `/`, and else the folder of the request's path.
fn asked_path<'s>(request: &'s [u8], path: &'s [u8]) -> &'s [u8]
    ensures { result.now ≡ spec.path_or_folder request.now path.now }
{
    if path.starts_with(b"/") {
        path
    } else {
        folder_of(request)
    }
}

/// Whether the enforcement allows a cookie to be sent with the request (RFC 6265bis, Retrieval Algorithm).
pub fn allows(request: &BrowserRequest<'_>, enforcement: Enforcement) -> bool
    ensures { result ≡ spec.allows (request_view request.now) enforcement }
{
    !is_site_bound(enforcement)
        || request.is_same_site
        || (matches!(enforcement, Enforcement::Lax | Enforcement::Default)
            && request.is_safe
            && request.is_top_level)
}

impl<'s> KeptCookie<'s> {
    /// The received cookie as the browser would store it (RFC 6265bis, Storage Model). `domain` is the result of
    /// `received.attributes.bare_domain()` in lower case. [`Expiry::of`](crate::Expiry::of) says when it expires.
    pub fn of(
        suffixes: &Suffixes,
        request: &BrowserRequest<'s>,
        received: &Received<'s>,
        domain: &'s [u8],
    ) -> KeptCookie<'s>
        requires { domain.now ≡ spec.asked_domain (received_view received.now).attributes }
        ensures { (now : DateTime) → kept_view result
            ≡ record (spec.kept_as suffixes.now (request_view request.now) now
            (received_view received.now)) { expiry = None; last_access = pos 0 } }
    {
        let is_host_only = is_host_only(suffixes, request, domain);
        KeptCookie {
            name: received.name,
            value: received.value,
            domain: if is_host_only { request.host } else { domain },
            is_host_only,
            path: asked_path(request.path, received.attributes.path),
            is_secure_only: received.attributes.secure,
            is_http_only: received.attributes.http_only,
            same_site: received.attributes.same_site,
        }
    }

    /// Whether a browser counts both as one cookie, and replaces one by the other: they have the same name, domain,
    /// host-only flag and path (RFC 6265bis, Storage Model).
    pub fn is_same(&self, other: &KeptCookie<'_>) -> bool
        ensures { result ≡ spec.is_same_cookie (kept_view self.now) (kept_view other.now) }
    {
        self.name == other.name
            && self.domain == other.domain
            && self.is_host_only == other.is_host_only
            && self.path == other.path
    }

    /// Whether a new cookie would overlay this stored one, if the new one isn't secure-only and comes over an insecure
    /// connection: this one is secure-only and has the new one's name, its domain is the new one's, above it or below it,
    /// and its path is the new one's or above it (RFC 6265bis, Storage Model).
    pub fn is_overlaid_by(&self, new: &KeptCookie<'_>, request: &BrowserRequest<'_>) -> bool
        ensures { result ≡ spec.is_overlaid (request_view request.now) (kept_view new.now)
            (kept_view self.now) }
    {
        self.name == new.name
            && self.is_secure_only
            && (is_in_domain(self.domain, request.is_address, new.domain)
                || is_in_domain(new.domain, request.is_address, self.domain))
            && is_under_path(new.path, self.path)
    }

    fn is_meant_for(&self, request: &BrowserRequest<'_>) -> bool
        ensures { result ≡ spec.is_meant_for (request_view request.now) (kept_view self.now) }
    {
        let has_host = if self.is_host_only {
            request.host == self.domain
        } else {
            is_in_domain(request.host, request.is_address, self.domain)
        };
        has_host && is_under_path(request.path, self.path)
    }

    /// Whether an http request is sent with the cookie, if it isn't expired (RFC 6265bis, Retrieval Algorithm).
    pub fn suits(&self, request: &BrowserRequest<'_>) -> bool
        ensures { result ≡ spec.suits (request_view request.now) (kept_view self.now) }
    {
        self.is_meant_for(request)
            && (request.is_secure || !self.is_secure_only)
            && allows(request, self.same_site)
    }
}
