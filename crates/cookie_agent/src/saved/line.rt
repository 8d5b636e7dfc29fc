//! A line of a text in which stored cookies are saved.
ghost use Rattle.std.specs.Prelude.{◌≡◌};
ghost use Rattle.cookie_agent.specs.Saved.{is_for_suffix, is_name, taken};

use crate::stored::StoredCookie;
use cookie_browser::Suffixes;

// What a line holds.
#[derive(Drop)]
pub(crate) enum Line {
    // A cookie.
    Cookie(StoredCookie),
    // A comment, nothing, or a cookie that isn't persistent.
    Other,
    // Anything else.
    Bad,
}

impl Line {
    // What is taken of it: a cookie for a public suffix makes it bad.
    pub(crate) fn taken(self, suffixes: &Suffixes) -> Line
        ensures { result ≡ taken suffixes.now self }
    {
        match self {
            Line::Cookie(cookie) => {
                if is_for_suffix(&cookie, suffixes) {
                    Line::Bad
                } else {
                    Line::Cookie(cookie)
                }
            }
            line => line,
        }
    }
}

// Whether the cookie is for a public suffix and the hosts below it.
fn is_for_suffix(cookie: &StoredCookie, suffixes: &Suffixes) -> bool
    ensures { result ≡ is_for_suffix suffixes.now cookie.now }
{
    let kept = cookie.as_kept();
    !kept.is_host_only && is_name(kept.domain) && suffixes.is_public(kept.domain)
}

// Whether the domain is no IPv6 address, which alone has a `:`.
fn is_name(domain: &[u8]) -> bool
    ensures { result ≡ is_name domain.now }
{
    domain.iter().all(|&byte| byte != b':')
}
