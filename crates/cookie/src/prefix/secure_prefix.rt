//! The prefix `__Secure-` (RFC 6265bis 4.1.3.1).
ghost use Rattle.std.specs.Prelude.{refl};
ghost use Rattle.cookie.specs.Prefixes.{secure_cookie, secure_prefix};

use crate::prefix::{NamePrefix, Prefix};
use cookie_core::Cookie;

/// `__Secure-`: a cookie for secure connections (RFC 6265bis 4.1.3.1).
#[derive(Clone, Copy, Debug)]
pub struct Secure;

impl Prefix for Secure {
    const PREFIX: NamePrefix = NamePrefix("__Secure-");

    ghost PREFIX = { secure_prefix };

    ghost conformed = { secure_cookie };

    ghost conformed_raw = { λ c. c.raw };

    fn conform<'c>(mut cookie: Cookie<'c>) -> Cookie<'c> {
        cookie.set_secure(Some(true));
        cookie
    }

    ghost keeps_pair = { record { name = λ _. refl; value = λ _. refl } };

    ghost is_conforming = { λ _. refl };
}
