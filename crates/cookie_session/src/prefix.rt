//! What a browser requires of a cookie by its name (RFC 6265bis, Cookie Name Prefixes).
ghost use Rattle.std.specs.Prelude.{◌≡◌};
ghost use Rattle.cookie_session.specs.Sessions.{guards_of, meets_prefix};

use cookie::{Cookie, EnforcedPrefix, Guards};

// Whether the cookie has what a browser requires of its name.
pub(crate) fn meets_prefix(cookie: &Cookie<'_>) -> bool
    ensures { result ≡ meets_prefix cookie.now.fields }
{
    EnforcedPrefix::unmet(cookie.name().as_bytes(), guards_of(cookie)).is_none()
}

// What the cookie has of that which prefixes require.
fn guards_of(cookie: &Cookie<'_>) -> Guards
    ensures { result ≡ guards_of cookie.now.fields }
{
    Guards {
        is_secure: cookie.secure() == Some(true),
        is_http_only: cookie.http_only() == Some(true),
        is_host_bound: cookie.domain().is_none() && cookie.path() == Some("/"),
    }
}
