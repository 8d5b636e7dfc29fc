//! The request whose response sets a cookie, for C.
ghost use Rattle.std.specs.Prelude.{◌≡◌};
ghost use Rattle.cookie_browser.specs.RefusedCode.{request_view};
ghost use Rattle.cookie_c.specs.Explanations.{request_of};

use cookie_browser::BrowserRequest;

/// The request whose response sets a cookie.
#[repr(C)]
#[derive(Clone, Copy)]
pub struct Request<'a> {
    /// The host, in lower case and in ASCII.
    pub host: &'a [u8],
    /// The path, without a query.
    pub path: &'a [u8],
    /// Whether the host is an IP address.
    pub is_address: bool,
    /// Whether the connection is secure.
    pub is_secure: bool,
    /// Whether the request is same-site.
    pub is_same_site: bool,
    /// Whether the request is a top-level navigation.
    pub is_top_level: bool,
    /// Whether its method is safe, as `GET` is. Whether a response's cookie is stored doesn't depend on it.
    pub is_safe: bool,
}

impl Request<'_> {
    // The request as a browser sees it.
    pub(super) fn as_seen(&self) -> BrowserRequest<'_>
        ensures { request_view result ≡ request_of self.now }
    {
        BrowserRequest {
            host: self.host,
            is_address: self.is_address,
            path: self.path,
            is_secure: self.is_secure,
            is_same_site: self.is_same_site,
            is_top_level: self.is_top_level,
            is_safe: self.is_safe,
        }
    }
}
