//! The prefixes of the standard, as values.
ghost use Rattle.std.specs.Prelude.{◌≡◌, ◌++◌, IfOk, string_bytes};
ghost use Rattle.cookie_client.specs.Calls.{prefix_of};

use cookie::prefix::{Host, Prefixing, Secure};
use std::alloc::{AllocError, Global};

/// A prefix of the standard (RFC 6265bis 4.1.3).
#[derive(Clone, Copy, Debug)]
pub enum PrefixKind {
    /// `__Host-`.
    Host,
    /// `__Secure-`.
    Secure,
}

impl PrefixKind {
    // The name with the prefix before it.
    pub(crate) fn prefixed_name(self, alloc: Global, name: &str) -> Result<String, AllocError>
        ensures { IfOk result (λ made. string_bytes made ≡ prefix_of self ++ name.now) }
    {
        match self {
            PrefixKind::Host => Host::prefixed_name(alloc, name),
            PrefixKind::Secure => Secure::prefixed_name(alloc, name),
        }
    }
}
