//! How many cookies are kept.
ghost use Rattle.std.specs.Prelude.{◌≡◌};

/// How many cookies a user agent keeps ([`Agent::trim`](crate::Agent::trim)).
#[derive(Clone, Copy)]
pub struct Limits {
    /// How many cookies of one domain.
    pub per_domain: usize,
    /// How many cookies of one site: of a registrable domain with all hosts below it, or of a host that has none
    /// ([`Suffixes::site`](cookie_browser::Suffixes::site)).
    pub per_site: usize,
    /// How many cookies in all.
    pub total: usize,
}

impl Limits {
    /// 50 cookies of a domain, 150 of a site, and 3,000 in all. A general-use agent should have at least 50 of a domain
    /// and 3,000 in all (RFC 6265bis, Limits). That has no limit of a site; with `total` in its place there is none.
    pub fn usual() -> Limits
        ensures { result ≡ record { per_domain = 50; per_site = 150; total = 3000 } }
    {
        Limits {
            per_domain: 50,
            per_site: 150,
            total: 3000,
        }
    }
}
