use cookie_session::Revocations;
use hex::decode;
use rows::Step;
use std::fmt::Error;

/// The ids of revoked sessions, each until a second, in a list. Its calls have no contract.
#[derive(Drop)]
pub struct Revoked {
    untils: Vec<([u8; 16], u64)>,
    is_broken: bool,
    is_late: bool,
}

impl Revoked {
    /// The ids that the step's words list, which are never forgotten. With the word `broken` each call fails. With the word
    /// `late` another request revokes each session between its look-up and its revocation.
    pub fn of(step: Step<'_>) -> Option<Revoked> {
        let (mut untils, is_broken) = (Vec::new(step.alloc), step.words == "broken");
        let is_late = step.words == "late";
        let has_no_ids = is_broken || is_late;
        let ids = if has_no_ids {
            step.with_words("")
        } else {
            step
        };
        for id in &ids_of(ids)? {
            untils.push((*id, u64::MAX)).ok()?;
        }
        Some(Revoked {
            untils,
            is_broken,
            is_late,
        })
    }

    fn check(&self) -> Result<(), Error> {
        if self.is_broken { Err(Error) } else { Ok(()) }
    }
}

/// The ids that the step's words list.
pub fn ids_of(step: Step<'_>) -> Option<Vec<[u8; 16]>> {
    let mut ids = Vec::new(step.alloc);
    for id in decode(step.alloc, step.words).ok()?.chunks(16) {
        ids.push(id.try_into().ok()?).ok()?;
    }
    Some(ids)
}

impl Revocations for Revoked {
    type Error = Error;

    ghost is_intact = { λ _. ⊥ };

    ghost revoked_until = { λ _ _ _. ⊥ };

    fn is_revoked(&mut self, id: &[u8; 16]) -> Result<bool, Error> {
        self.check()?;
        Ok(!self.is_late && self.untils.iter().any(|revoked| revoked.0 == *id))
    }

    fn revoke(&mut self, id: &[u8; 16], until: u64) -> Result<bool, Error> {
        let already = self.is_revoked(id)? || self.is_late;
        self.untils.push((*id, until)).map_err(|_| Error)?;
        Ok(already)
    }

    fn forget(&mut self, now: u64) -> Result<(), Error> {
        self.check()?;
        self.untils.retain(|revoked| now < revoked.1);
        Ok(())
    }
}
