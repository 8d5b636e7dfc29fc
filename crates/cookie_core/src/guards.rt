//! What keeps a cookie from others.
ghost use Rattle.std.specs.Prelude.{◌≡◌};
ghost use Rattle.cookie_core.specs.NamePrefixes.{covers};

/// What keeps a cookie from others: what a prefix requires, or what a cookie has (RFC 6265bis, Cookie Name Prefixes).
#[derive(Clone, Copy, Debug, PartialEq, Eq)]
pub struct Guards {
    /// `Secure`: it is for secure connections only.
    pub is_secure: bool,
    /// `HttpOnly`: it is kept from scripts.
    pub is_http_only: bool,
    /// It has no `Domain`, and its path is `/`: it is for the host that set it, and for all of it.
    pub is_host_bound: bool,
}

impl Guards {
    /// Whether these have each guard that is required.
    pub fn cover(self, required: Guards) -> bool
        ensures { result ≡ covers self required }
    {
        (self.is_secure || !required.is_secure)
            && (self.is_http_only || !required.is_http_only)
            && (self.is_host_bound || !required.is_host_bound)
    }
}
