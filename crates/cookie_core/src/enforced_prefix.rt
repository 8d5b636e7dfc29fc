//! The prefixes of cookie names that browsers enforce (RFC 6265bis, Cookie Name Prefixes).
ghost use Rattle.std.specs.Prelude.{◌≡◌};
ghost use Rattle.cookie_core.specs.NamePrefixes as spec;

use crate::guards::Guards;
use crate::prefix::begins_in_any_case;

/// A prefix of names that browsers enforce (RFC 6265bis, Cookie Name Prefixes): they refuse a cookie whose name begins
/// with it, in any ASCII case, and that lacks what it requires.
#[derive(Clone, Copy, Debug, PartialEq, Eq)]
pub enum EnforcedPrefix {
    /// `__Secure-` requires `Secure`.
    Secure,
    /// `__Host-` requires `Secure`, no `Domain`, and the path `/`.
    Host,
    /// `__Http-` requires `Secure` and `HttpOnly`. Chromium enforces it, and RFC 6265bis doesn't have it.
    Http,
    /// `__Host-Http-` requires what `__Host-` does, and `HttpOnly`. It is Chromium's too.
    HostHttp,
}

const PREFIXES: [EnforcedPrefix; 4] = [
    EnforcedPrefix::Secure,
    EnforcedPrefix::Host,
    EnforcedPrefix::Http,
    EnforcedPrefix::HostHttp,
];

impl EnforcedPrefix {
    /// Its text.
    pub fn as_str(self) -> &'static str
        ensures { result.now ≡ spec.prefix_text self }
    {
        match self {
            EnforcedPrefix::Secure => "__Secure-",
            EnforcedPrefix::Host => "__Host-",
            EnforcedPrefix::Http => "__Http-",
            EnforcedPrefix::HostHttp => "__Host-Http-",
        }
    }

    /// What it requires of a cookie.
    pub fn required(self) -> Guards
        ensures { result ≡ spec.required self }
    {
        let secure = Guards {
            is_secure: true,
            is_http_only: false,
            is_host_bound: false,
        };
        match self {
            EnforcedPrefix::Secure => secure,
            EnforcedPrefix::Host => Guards {
                is_host_bound: true,
                ..secure
            },
            EnforcedPrefix::Http => Guards {
                is_http_only: true,
                ..secure
            },
            EnforcedPrefix::HostHttp => Guards {
                is_http_only: true,
                is_host_bound: true,
                ..secure
            },
        }
    }

    // Whether the text begins with it, in any ASCII case.
    fn begins(self, text: &[u8]) -> bool
        ensures { result ≡ spec.has_prefix self text.now }
    {
        begins_in_any_case(self.as_str().as_bytes(), text)
    }

    // Each prefix, in the order in which they are tested.
    #[tactic(auto, unfolding(crate::specs::NamePrefixes::enforced_prefixes))]
    fn all() -> &'static [EnforcedPrefix]
        ensures { result.now ≡ spec.enforced_prefixes }
    {
        &PREFIXES
    }

    /// The first prefix of the name that requires more than these guards. `None` if there is none.
    pub fn unmet(name: &[u8], guards: Guards) -> Option<EnforcedPrefix>
        ensures { result ≡ spec.unmet_prefix name.now guards }
    {
        EnforcedPrefix::all().iter().copied().find(|prefix| prefix.begins(name)
            && !guards.cover(prefix.required()))
    }

    /// Whether a prefix of the name requires `HttpOnly`.
    pub fn need_http_only(name: &[u8]) -> bool
        ensures { result ≡ spec.needs_http_only name.now }
    {
        EnforcedPrefix::all().iter().any(|prefix| prefix.begins(name)
            && prefix.required().is_http_only)
    }

    /// Whether the text begins with one of the prefixes.
    pub fn any_begins(text: &[u8]) -> bool
        ensures { result ≡ spec.has_any_prefix text.now }
    {
        EnforcedPrefix::all()
            .iter()
            .any(|prefix| prefix.begins(text))
    }
}
