//! The attribute `SameSite` (RFC 6265bis 4.1.2.7).
ghost use Rattle.std.specs.Prelude.{◌≡◌, ◌↔◌, IsTrue};
ghost use Rattle.cookie_core.specs.declared.same_site.SameSite.TheVariants as same_site;

use std::fmt;

/// To which requests from other sites a cookie is sent (RFC 6265bis 4.1.2.7).
#[derive(Clone, Copy, Debug, PartialEq, Eq, Hash)]
pub enum SameSite {
    /// To requests of the cookie's own site only.
    Strict,
    /// To a top-level navigation from another site too, if its method is safe, as `GET` is.
    Lax,
    /// To every request.
    None,
}

impl SameSite {
    /// Whether it is `Strict`.
    pub fn is_strict(&self) -> bool
        ensures { IsTrue result ↔ (self.now ≡ same_site.Strict) }
    {
        matches!(self, SameSite::Strict)
    }

    /// Whether it is `Lax`.
    pub fn is_lax(&self) -> bool
        ensures { IsTrue result ↔ (self.now ≡ same_site.Lax) }
    {
        matches!(self, SameSite::Lax)
    }

    /// Whether it is `None`, which is set, in contrast to an attribute that is not.
    pub fn is_none(&self) -> bool
        ensures { IsTrue result ↔ (self.now ≡ same_site.None) }
    {
        matches!(self, SameSite::None)
    }
}

impl fmt::Display for SameSite {
    ghost use Rattle.std.specs.Prelude.{Some};
    ghost use Rattle.cookie_core.specs.SameSite.{same_site_text};

    ghost output = { λ s. Some (same_site_text s) };

    ghost styled_output = { λ s _. Some (same_site_text s) };

    fn fmt<W: fmt::Write>(&self, f: &mut fmt::Formatter<W>) -> fmt::Result {
        match self {
            SameSite::Strict => f.write_str("Strict"),
            SameSite::Lax => f.write_str("Lax"),
            SameSite::None => f.write_str("None"),
        }
    }
}
