//! Why a browser refuses a cookie.
ghost use Rattle.std.specs.Prelude.{◌≡◌};
ghost use Rattle.cookie_browser.specs.Refusal.{refusal_section, refusal_text};

use std::error::Error;
use std::fmt;

/// The first step of a browser that refuses a cookie (RFC 6265bis). `Display` says in one sentence which step refused,
/// and what to do about it.
#[derive(Clone, Copy, Debug, PartialEq, Eq)]
pub enum Refusal {
    /// The text holds a control character other than a tab (The Set-Cookie Header Field).
    ControlCharacter,
    /// The name and the value have more than 4096 bytes in all (The Set-Cookie Header Field).
    TooLong,
    /// The name and the value are both empty (Storage Model).
    Empty,
    /// The domain isn't ASCII (Storage Model).
    NonAsciiDomain,
    /// The domain is a public suffix, as `com`, and not the host itself (Storage Model).
    PublicSuffix,
    /// The host isn't in the domain (Storage Model).
    ForeignDomain,
    /// `Secure` came over an insecure connection (Storage Model).
    InsecureConnection,
    /// The cookie came over an insecure connection, without `Secure`. A stored `Secure` cookie has the same name, a
    /// domain that is its domain, above it or below it, and a path that is its path or above it (Storage Model).
    OverlaysSecure,
    /// The cookie came without `SameSite=None`, for a request of another site that is no top-level navigation
    /// (Storage Model).
    CrossSite,
    /// `SameSite=None` came without `Secure` (Storage Model).
    NoneWithoutSecure,
    /// The name begins with `__Secure-`, and `Secure` is missing (Storage Model).
    SecurePrefix,
    /// The name begins with `__Host-`, and the cookie lacks `Secure`, lacks a `Path`, has a path other than `/`, or has
    /// a domain (Storage Model).
    HostPrefix,
    /// There is no name, and the value begins with a prefix, as `__Host-` (Storage Model).
    NamelessPrefix,
    /// The name begins with a prefix that requires `HttpOnly`, and the cookie lacks `HttpOnly` or something else that
    /// the prefix requires (Storage Model).
    HttpPrefix,
}

impl Refusal {
    /// One sentence: which step refused, and what to do about it.
    pub fn as_str(&self) -> &'static str
        ensures { result.now ≡ refusal_text self.now }
    {
        match self {
            Refusal::ControlCharacter =>
                "the text holds a control character: leave it out or escape it",
            Refusal::TooLong =>
                "the name and the value have more than 4096 bytes in all: shorten them",
            Refusal::Empty => "the name and the value are both empty: set a name",
            Refusal::NonAsciiDomain => "the domain isn't ASCII: write it in Punycode",
            Refusal::PublicSuffix =>
                "the domain is a public suffix: set a domain below it, or none",
            Refusal::ForeignDomain =>
                "the host isn't in the domain: set the host or a domain above it, or none",
            Refusal::InsecureConnection =>
                "Secure was set over an insecure connection: set the cookie over https",
            Refusal::OverlaysSecure =>
                "a Secure cookie of this name would be overlaid: set the cookie over https",
            Refusal::CrossSite =>
                "the request came from another site: set SameSite=None and Secure",
            Refusal::NoneWithoutSecure => "SameSite=None needs Secure: set Secure over https",
            Refusal::SecurePrefix => "the prefix __Secure- needs Secure: set Secure over https",
            Refusal::HostPrefix =>
                "the prefix __Host- needs Secure, Path=/ and no Domain: set them so",
            Refusal::NamelessPrefix =>
                "a value without a name begins with a prefix of names: set a name",
            Refusal::HttpPrefix =>
                "the prefix __Http- or __Host-Http- needs Secure and HttpOnly: set both over https",
        }
    }

    /// The title of the section of RFC 6265bis that has the step.
    pub fn section(&self) -> &'static str
        ensures { result.now ≡ refusal_section self.now }
    {
        match self {
            Refusal::ControlCharacter | Refusal::TooLong => "The Set-Cookie Header Field",
            _ => "Storage Model",
        }
    }
}

impl fmt::Display for Refusal {
    ghost use Rattle.std.specs.Prelude.{Some};
    ghost use Rattle.cookie_browser.specs.Refusal.{refusal_text};

    ghost output = { λ r. Some (refusal_text r) };

    ghost styled_output = { λ r _. Some (refusal_text r) };

    fn fmt<W: fmt::Write>(&self, f: &mut fmt::Formatter<W>) -> fmt::Result {
        f.write_str(self.as_str())
    }
}

impl Error for Refusal {}
