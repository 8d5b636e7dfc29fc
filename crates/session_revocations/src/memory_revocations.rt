//! The set of revoked sessions in memory.
ghost use Rattle.std.specs.Prelude.{◌≡◌, ℕ, List, IfOk, Ok, OnErr, OnOk, is_some};
ghost use Rattle.std.specs.FinMap.{empty, get, insert};
ghost use Rattle.session_revocations.specs.Memory.{if_after, later};

use cookie_session::Revocations;
use std::alloc::{AllocError, Global};
use std::collections::BTreeMap;
use std::marker::Model;

/// The ids of revoked sessions, and until when each is revoked, in memory: what a test or a server of one process
/// needs. Contracts see the finite map from an id to that second.
///
/// ```
/// let mut revocations = MemoryRevocations::new(alloc);
/// revocations.revoke(&id, until)?;
/// ```
#[derive(Drop)]
pub struct MemoryRevocations {
    untils: BTreeMap<[u8; 16], u64>,
}

impl Model for MemoryRevocations {
    ghost use Rattle.session_revocations.specs.Memory.{Untils, untils_code, untils_of};

    ghost Value = { Untils };

    ghost coded = { untils_code };

    ghost view = { λ r. untils_of r.untils.entries };
}

// The later of two seconds, of which the first may be missing.
fn later(old: Option<u64>, until: u64) -> u64
    ensures { result ≡ later old until }
{
    match old {
        None => until,
        Some(old) => old.max(until),
    }
}

#[tactic(auto, using(crate::proofs::MemoryLemmas::by_id_calls))]
impl MemoryRevocations {
    /// A set in which nothing is revoked. It doesn't allocate.
    pub fn new(alloc: Global) -> MemoryRevocations
        ensures { result ≡ empty }
    {
        MemoryRevocations {
            untils: BTreeMap::new(alloc),
        }
    }

    /// Whether the session with this id is revoked. It doesn't fail.
    pub fn is_revoked(&mut self, id: &[u8; 16]) -> Result<bool, AllocError>
        ensures value { result ≡ Ok (is_some (get self.old id.now)) }
        ensures same { self.new ≡ self.old }
    {
        Ok(self.untils.get(id).is_some())
    }

    /// Revokes the session with this id until the second `until` since 1970 in UTC, in which it is over. Returns whether
    /// it was revoked already. If it was, the later of the two seconds counts.
    ///
    /// Fails only if out of memory, and then leaves the set as it was.
    pub fn revoke(&mut self, id: &[u8; 16], until: u64) -> Result<bool, AllocError>
        ensures ok { OnOk result (self.new
            ≡ insert self.old id.now (later (get self.old id.now) until)) }
        ensures already { IfOk result (λ already. already ≡ is_some (get self.old id.now)) }
        ensures err { OnErr result (self.new ≡ self.old) }
    {
        let old = self.untils.get(id).copied();
        self.untils.insert(*id, later(old, until))?;
        Ok(old.is_some())
    }

    /// Forgets each id whose second has come. A session is over in that second, so no copy of its cookie opens any
    /// more. If the clock goes back after that, a forgotten session is no longer revoked.
    pub fn forget(&mut self, now: u64)
        ensures { (id : List ℕ) → get self.new id ≡ if_after now (get self.old id) }
    {
        self.untils.retain(|_id, until| now < *until);
    }
}

/// By the calls of the same names.
impl Revocations for MemoryRevocations {
    ghost use Rattle.std.specs.FinMap.{get};
    ghost use Rattle.session_revocations.specs.Memory.{lasts_until};

    type Error = AllocError;

    ghost revoked_until = { λ r id second. lasts_until second (get r id) };

    fn is_revoked(&mut self, id: &[u8; 16]) -> Result<bool, AllocError> {
        MemoryRevocations::is_revoked(self, id)
    }

    fn revoke(&mut self, id: &[u8; 16], until: u64) -> Result<bool, AllocError> {
        MemoryRevocations::revoke(self, id, until)
    }

    fn forget(&mut self, now: u64) -> Result<(), AllocError> {
        MemoryRevocations::forget(self, now);
        Ok(())
    }
}
