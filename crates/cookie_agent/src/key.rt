//! What a stored cookie is known by.
ghost use Rattle.std.specs.Prelude.{◌≡◌};
ghost use Rattle.cookie_agent.specs.SumsCode.{sum_of};

use crate::summed::sum_of;

// The name, domain, host-only flag and path of a stored cookie (RFC 6265bis, Storage Model).
#[derive(PartialEq, Eq, PartialOrd, Ord, Drop)]
pub(crate) struct Key {
    pub(crate) name: Vec<u8>,
    pub(crate) domain: Vec<u8>,
    pub(crate) is_host_only: bool,
    pub(crate) path: Vec<u8>,
}

impl Key {
    // A sum of the name and the domain.
    pub(crate) fn sum(&self) -> u64
        ensures { result ≡ sum_of self.now.name.items self.now.domain.items }
    {
        sum_of(&self.name, &self.domain)
    }
}
