//! Where a cookie is sent.
ghost use Rattle.std.specs.Prelude.{◌≡◌, IfOk};
ghost use Rattle.cookie_agent.specs.Scopes.{ScopeView};

use crate::bytes::copied;
use std::alloc::{AllocError, Global};
use std::marker::Model;

/// Where a cookie is sent: to one host, or to each host that a domain matches, at the paths that its path matches.
#[derive(Drop)]
pub struct Scope {
    domain: Vec<u8>,
    is_host_only: bool,
    path: Vec<u8>,
}

impl Model for Scope {
    ghost use Rattle.cookie_agent.specs.Scopes.{ScopeView};

    ghost Value = { ScopeView };

    ghost view = { λ s. record {
      domain = s.domain.items;
      is_host_only = s.is_host_only;
      path = s.path.items;
    } };
}

impl Scope {
    /// The scope of a domain in lower case, which is the host if the scope is one host, and a path. Fails only if out
    /// of memory.
    pub fn new(
        alloc: Global,
        domain: &[u8],
        is_host_only: bool,
        path: &[u8],
    ) -> Result<Scope, AllocError>
        ensures { IfOk result (λ scope. scope ≡ record {
          domain = domain.now;
          is_host_only = is_host_only;
          path = path.now;
        }) }
    {
        Ok(Scope {
            domain: copied(alloc, domain)?,
            is_host_only,
            path: copied(alloc, path)?,
        })
    }

    /// The host, or the domain of the hosts, in lower case.
    pub fn domain(&self) -> &[u8]
        ensures { result.now ≡ self.now.domain }
    {
        self.domain.as_slice()
    }

    /// Whether it is one host.
    pub fn is_host_only(&self) -> bool
        ensures { result ≡ self.now.is_host_only }
    {
        self.is_host_only
    }

    /// The path.
    pub fn path(&self) -> &[u8]
        ensures { result.now ≡ self.now.path }
    {
        self.path.as_slice()
    }
}
