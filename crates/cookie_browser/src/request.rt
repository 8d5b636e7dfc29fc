//! A request, as a browser sees it, and the hosts and paths that a cookie is for.
ghost use Rattle.std.specs.Prelude.{◌≡◌};
ghost use Rattle.cookie_browser.specs.Request.{folder_of, is_in_domain, is_under_path, or_root};

/// A request: where it goes, and how it came about.
#[derive(Clone, Copy)]
pub struct BrowserRequest<'s> {
    /// The host, in lower case and in ASCII (RFC 6265bis, Canonicalized Host Names). An IPv6 address is in brackets, as
    /// in a URL.
    pub host: &'s [u8],
    /// Whether the host is an IP address.
    pub is_address: bool,
    /// The path, without a query.
    pub path: &'s [u8],
    /// Whether the connection is secure.
    pub is_secure: bool,
    /// Whether the request is same-site (RFC 6265bis, "Same-site" and "cross-site" Requests).
    pub is_same_site: bool,
    /// Whether the request is a top-level navigation.
    pub is_top_level: bool,
    /// Whether the method is safe, as `GET` is.
    pub is_safe: bool,
}

/// Whether the host is the domain, or is no address and ends in a dot and the domain (RFC 6265bis, Domain Matching).
/// Both are in lower case.
pub fn is_in_domain(host: &[u8], is_address: bool, domain: &[u8]) -> bool
    ensures { result ≡ is_in_domain host.now is_address domain.now }
{
    if host == domain {
        return true;
    }
    if is_address || !host.ends_with(domain) {
        return false;
    }
    host[..host.len() - domain.len()].ends_with(b".")
}

/// Whether a request's path is the cookie's path, or is below it (RFC 6265bis, Paths and Path-Match).
pub fn is_under_path(request: &[u8], cookie: &[u8]) -> bool
    ensures { result ≡ is_under_path request.now cookie.now }
{
    if request == cookie {
        return true;
    }
    if !request.starts_with(cookie) {
        return false;
    }
    cookie.ends_with(b"/") || request[cookie.len()..].starts_with(b"/")
}

/// The path of a cookie that is set at this path without one: up to the last `/`, without it, or `/` (RFC 6265bis,
/// Paths and Path-Match).
pub fn folder_of(path: &[u8]) -> &[u8]
    ensures { result.now ≡ folder_of path.now }
{
    if !path.starts_with(b"/") {
        return b"/".as_slice();
    }
    let last = path.iter().rev().take_while(|&&byte| byte != b'/').count();
    or_root(&path[..(path.len() - last).saturating_sub(1)])
}

fn or_root(path: &[u8]) -> &[u8]
    ensures { result.now ≡ or_root path.now }
{
    if path.is_empty() {
        b"/".as_slice()
    } else {
        path
    }
}
