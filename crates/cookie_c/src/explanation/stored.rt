//! A cookie that a browser stores, for C.

use crate::span::Span;

/// A cookie as a browser stores it. Its texts are in the buffer, one right after the other.
#[repr(C)]
#[derive(Clone, Copy, Default)]
pub struct Stored {
    /// Where the name is, empty if the text has none.
    pub name: Span,
    /// Where the value is.
    pub value: Span,
    /// Where the domain is: the host, if the cookie is host-only.
    pub domain: Span,
    /// Where the path is.
    pub path: Span,
    /// The whole seconds that it lives from now on, at most 400 days, and 0 if it isn't persistent. A persistent cookie
    /// with 0 has no whole second left.
    pub lifetime: u64,
    /// To which requests of other sites it is sent: 0 if nothing is set, 1 `Strict`, 2 `Lax`, 3 `None`.
    pub same_site: u32,
    /// Whether it has an expiry, and doesn't last for the browser's session.
    pub is_persistent: bool,
    /// Whether only its domain itself gets it, and no host below.
    pub is_host_only: bool,
    /// Whether it is sent over secure connections only.
    pub is_secure: bool,
    /// Whether it is hidden from scripts.
    pub is_http_only: bool,
}
