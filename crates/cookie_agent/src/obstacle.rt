//! Why a stored cookie isn't sent (RFC 6265bis, Retrieval Algorithm).
ghost use Rattle.std.specs.Prelude.{◌≡◌};
ghost use Rattle.cookie_agent.specs.Obstacles.{IsExhaustive, keeps};

use crate::site::Site;
use crate::stored::StoredCookie;
use cookie_browser::{allows, is_under_path};
use jiff::civil::DateTime;

/// Why a stored cookie isn't sent with a request: the condition of the Retrieval Algorithm that it fails (RFC 6265bis).
#[derive(Clone, Copy)]
pub enum Obstacle {
    /// It is expired.
    Expired,
    /// The request goes to a host that the cookie isn't for.
    Host,
    /// The request goes to a path that the cookie isn't for.
    Path,
    /// The cookie is for secure connections only, and the connection is insecure.
    Connection,
    /// The request is cross-site, and the cookie's enforcement doesn't allow it.
    SameSite,
}

impl Obstacle {
    /// Each obstacle, in the order in which they are named.
    pub const ALL: [Obstacle; 5] = [
        Obstacle::Expired,
        Obstacle::Host,
        Obstacle::Path,
        Obstacle::Connection,
        Obstacle::SameSite,
    ];

    /// Whether it keeps the cookie from the site at the time `now` in UTC.
    #[tactic(auto, using(crate::proofs::ObstacleLemmas::exhaustive))]
    pub fn keeps(self, cookie: &StoredCookie, site: &Site, now: DateTime) -> bool
        ensures value { result ≡ keeps self site.now now cookie.now }

        // A cookie is sent exactly if no obstacle keeps it.
        ensures exhaustive { IsExhaustive }
    {
        let kept = cookie.as_kept();
        let request = site.request();
        match self {
            Obstacle::Expired => !cookie.lasts(now),
            Obstacle::Host => !site.is_host_reached(kept.domain, kept.is_host_only),
            Obstacle::Path => !is_under_path(request.path, kept.path),
            Obstacle::Connection => kept.is_secure_only && !request.is_secure,
            Obstacle::SameSite => !allows(&request, kept.same_site),
        }
    }

    /// The obstacle, as what is wrong with a request.
    pub fn as_str(self) -> &'static str {
        match self {
            Obstacle::Expired => "it is expired",
            Obstacle::Host => "the request goes to another host",
            Obstacle::Path => "the request goes to another path",
            Obstacle::Connection => "the connection is insecure and the cookie Secure",
            Obstacle::SameSite => "the request comes from another site, and SameSite forbids it",
        }
    }
}
