//! How a request came about.
ghost use Rattle.std.specs.Prelude.{◌≡◌, true};

/// How a request came about (RFC 6265bis, "Same-site" and "cross-site" Requests).
#[derive(Clone, Copy)]
pub struct RequestContext {
    /// Whether the request is same-site.
    pub is_same_site: bool,
    /// Whether it is a top-level navigation.
    pub is_top_level: bool,
    /// Whether its method is safe, as `GET` is.
    pub is_safe: bool,
}

impl RequestContext {
    /// A same-site top-level navigation with a safe method: someone followed a link of the same site.
    pub fn same_site() -> RequestContext
        ensures { result ≡ record { is_same_site = true; is_top_level = true; is_safe = true } }
    {
        RequestContext {
            is_same_site: true,
            is_top_level: true,
            is_safe: true,
        }
    }
}
