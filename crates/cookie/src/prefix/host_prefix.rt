//! The prefix `__Host-` (RFC 6265bis 4.1.3.2).
ghost use Rattle.std.specs.Prelude.{refl};
ghost use Rattle.cookie.specs.Prefixes.{host_bound, host_bound-twice, host_bound_raw, host_prefix};

use crate::prefix::{NamePrefix, Prefix};
use cookie_core::{Cookie, EnforcedPrefix};

/// `__Host-`: a cookie for secure connections, with the path `/` and no domain (RFC 6265bis 4.1.3.2). If its name also
/// has a prefix that requires it, the cookie becomes `HttpOnly`.
#[derive(Clone, Copy, Debug)]
pub struct Host;

impl Prefix for Host {
    const PREFIX: NamePrefix = NamePrefix("__Host-");

    ghost PREFIX = { host_prefix };

    ghost conformed = { host_bound };

    ghost conformed_raw = { host_bound_raw };

    fn conform<'c>(mut cookie: Cookie<'c>) -> Cookie<'c> {
        cookie.set_secure(Some(true));
        cookie.set_path("/");
        cookie.unset_domain();
        if EnforcedPrefix::need_http_only(cookie.name().as_bytes()) {
            cookie.set_http_only(Some(true));
        }
        cookie
    }

    ghost keeps_pair = { record { name = λ _. refl; value = λ _. refl } };

    ghost is_conforming = { host_bound-twice };
}
