//! Where a request goes, and how it came about.
ghost use Rattle.std.specs.Prelude.{◌≡◌, true, false, List, IfOk, string_bytes, if◌then◌else◌};
ghost use Rattle.std.specs.Str.{bytes_eq};
ghost use Rattle.cookie_browser.specs.Request.{is_in_domain};
ghost use Rattle.cookie_browser.specs.RefusedCode.{request_view};
ghost use Rattle.cookie_browser.specs.Suffixes.{Rule};
ghost use Rattle.cookie_agent.specs.Prefixes.{AreHostBound, AreSecured};
ghost use Rattle.cookie_agent.specs.Scopes.{host_scope, reaches};
ghost use Rattle.cookie_agent.specs.Site.{request_path, site_of};

use crate::context::RequestContext;
use crate::scope::Scope;
use cookie_browser::{BrowserRequest, is_in_domain, is_under_path};
use std::alloc::{AllocError, Global};
use std::marker::Model;

/// Where a request goes: a host, a path, and whether the connection is secure; and how the request came about.
///
/// A browser may count `http://localhost` as secure (RFC 6265bis, Retrieval Algorithm). Then `is_secure` is true for it.
#[derive(Drop)]
pub struct Site {
    host: String,
    is_address: bool,
    path: String,
    is_secure: bool,
    context: RequestContext,
}

impl Model for Site {
    ghost use Rattle.std.specs.Prelude.{◌≡◌, true, codes, eqb, string_bytes};
    ghost use Rattle.std.specs.List.{starts_with};
    ghost use Rattle.std.specs.Str.{str_to_ascii_lowercase};
    ghost use Rattle.cookie_browser.specs.Request.{RequestView};

    ghost Value = { RequestView };

    ghost view = { λ s. record {
      host = string_bytes s.host;
      is_address = s.is_address;
      path = string_bytes s.path;
      is_secure = s.is_secure;
      is_same_site = s.context.is_same_site;
      is_top_level = s.context.is_top_level;
      is_safe = s.context.is_safe;
    } };

    ghost invariant = { λ s.
        (str_to_ascii_lowercase (string_bytes s.host) ≡ string_bytes s.host)
        × (starts_with eqb (string_bytes s.path) (codes "/") ≡ true) };
}

impl Site {
    /// The site of a host name, without its port, and of a request's path, without its query. The host is taken in
    /// lower case. A path that doesn't begin with `/` gets one, so an empty one is `/`. The request is a same-site
    /// top-level navigation with a safe method, until `with_context`. Fails only if out of memory.
    /// Example: `print` in crates/cookie_examples/src/agents.rt.
    pub fn new(alloc: Global, host: &str, path: &str, is_secure: bool) -> Result<Site, AllocError>
        ensures { IfOk result (λ site.
            site ≡ site_of host.now false path.now is_secure) }
    {
        Site::of_parts(alloc, host, false, path, is_secure)
    }

    /// Makes a site as [`new`](Site::new) does, of a host that is an IP address. No domain but itself matches the host
    /// (RFC 6265bis, Domain Matching). Fails only if out of memory.
    pub fn of_address(
        alloc: Global,
        host: &str,
        path: &str,
        is_secure: bool,
    ) -> Result<Site, AllocError>
        ensures { IfOk result (λ site.
            site ≡ site_of host.now true path.now is_secure) }
    {
        Site::of_parts(alloc, host, true, path, is_secure)
    }

    fn of_parts(
        alloc: Global,
        host: &str,
        is_address: bool,
        path: &str,
        is_secure: bool,
    ) -> Result<Site, AllocError>
        ensures { IfOk result (λ site.
            site ≡ site_of host.now is_address path.now is_secure) }
    {
        Ok(Site {
            host: host.to_ascii_lowercase(alloc)?,
            is_address,
            path: request_path(alloc, path)?,
            is_secure,
            context: RequestContext::same_site(),
        })
    }

    /// The same site, for a request in this context.
    pub fn with_context(mut self, context: RequestContext) -> Site
        ensures { result ≡ record self {
          is_same_site = context.is_same_site;
          is_top_level = context.is_top_level;
          is_safe = context.is_safe;
        } }
    {
        self.context = context;
        self
    }

    /// The request, for the calls of `cookie_browser`.
    pub fn request(&self) -> BrowserRequest<'_>
        ensures { request_view result ≡ self.now }
    {
        BrowserRequest {
            host: self.host.as_bytes(),
            is_address: self.is_address,
            path: self.path.as_bytes(),
            is_secure: self.is_secure,
            is_same_site: self.context.is_same_site,
            is_top_level: self.context.is_top_level,
            is_safe: self.context.is_safe,
        }
    }

    /// The whole host of the site and no other. It is the scope of each cookie with the path `/` and without a domain,
    /// and so of all that a jar with the prefix `__Host-` stores and removes (RFC 6265bis, The "__Host-" Prefix). Fails
    /// only if out of memory.
    pub fn host_scope(&self, alloc: Global) -> Result<Scope, AllocError>
        ensures value { IfOk result (λ scope. scope ≡ host_scope self.now) }

        // What jars with the prefixes `__Host-` and `__Secure-` store and remove meets what a browser requires of such
        // names (RFC 6265bis, Cookie Name Prefixes).
        ensures host_bound { (rules : List Rule) → AreHostBound rules self.now }
        ensures secured { AreSecured }
    {
        Scope::new(alloc, self.host.as_bytes(), true, b"/".as_slice())
    }

    /// Whether a cookie of this scope is sent to the site, if its connection and the request's context allow it
    /// (RFC 6265bis, Retrieval Algorithm).
    pub fn is_reached(&self, scope: &Scope) -> bool
        ensures { result ≡ reaches self.now scope.now }
    {
        self.is_host_reached(scope.domain(), scope.is_host_only())
            && is_under_path(self.path.as_bytes(), scope.path())
    }

    // Its host.
    pub(crate) fn host(&self) -> &[u8]
        ensures { result.now ≡ self.now.host }
    {
        self.host.as_bytes()
    }

    // Whether the host gets a cookie of this domain, which may be for the domain itself only.
    pub(crate) fn is_host_reached(&self, domain: &[u8], is_host_only: bool) -> bool
        ensures { result ≡ (if is_host_only then bytes_eq self.now.host domain.now
            else is_in_domain self.now.host self.now.is_address domain.now) }
    {
        if is_host_only {
            self.host.as_bytes() == domain
        } else {
            is_in_domain(self.host.as_bytes(), self.is_address, domain)
        }
    }

    /// Whether the connection is secure.
    pub fn is_secure(&self) -> bool
        ensures { result ≡ self.now.is_secure }
    {
        self.is_secure
    }
}

// The path, with `/` before it if it doesn't begin with one.
fn request_path(alloc: Global, path: &str) -> Result<String, AllocError>
    ensures { IfOk result (λ made. string_bytes made ≡ request_path path.now) }
{
    let mut made = String::new(alloc);
    if !path.as_bytes().starts_with(b"/") {
        made.push_str("/")?;
    }
    made.push_str(path)?;
    Ok(made)
}
