use cookie::Cookie;
use cookie::prefix::{NamePrefix, Prefix};

/// A prefix that puts nothing before a name.
#[derive(Clone, Copy, Debug)]
pub struct Bare;

impl Prefix for Bare {
    ghost use Rattle.std.specs.Prelude.{[], refl};

    const PREFIX: NamePrefix = NamePrefix("");

    ghost PREFIX = { [] };

    ghost conformed = { λ r. r };

    ghost conformed_raw = { λ c. c.raw };

    fn conform<'c>(cookie: Cookie<'c>) -> Cookie<'c> {
        cookie
    }

    ghost keeps_pair = { record { name = λ _. refl; value = λ _. refl } };

    ghost is_conforming = { λ _. refl };
}

/// A prefix of the tests' own: a cookie that is kept from scripts.
#[derive(Clone, Copy, Debug)]
pub struct Team;

impl Prefix for Team {
    ghost use Rattle.std.specs.Prelude.{Some, true, codes, refl};

    const PREFIX: NamePrefix = NamePrefix("team.");

    ghost PREFIX = { codes "team." };

    ghost conformed = { λ r. record r { http_only = Some true } };

    ghost conformed_raw = { λ c. c.raw };

    fn conform<'c>(mut cookie: Cookie<'c>) -> Cookie<'c> {
        cookie.set_http_only(Some(true));
        cookie
    }

    ghost keeps_pair = { record { name = λ _. refl; value = λ _. refl } };

    ghost is_conforming = { λ _. refl };
}
