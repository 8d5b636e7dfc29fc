//! The sessions that a request has open.
ghost use Rattle.std.specs.Prelude.{◌≡◌, ◌↔◌, Contains, IfNone, IfOk, IfSome, IsTrue, None};
ghost use Rattle.cookie_c.specs.Revoked.{IsFirstUnlisted, IsTaken, bytes_of_ids};

use cookie_session::{Opened, Visit};
use std::alloc::{AllocError, Global};
use std::marker::Model;

/// The sessions that a request has open, in the order of its cookies. Contracts see their list.
#[derive(Drop)]
pub struct OpenedSessions {
    all: Vec<Opened>,
}

impl Model for OpenedSessions {
    ghost use Rattle.std.specs.Coded.{coded_list};
    ghost use Rattle.std.specs.Prelude.{List};
    ghost use Rattle.cookie_session.specs.contracts.opened.Opened.{the_row as opened_row};
    ghost use Rattle.cookie_session.specs.declared.opened.Opened.{Opened as OpenedValue};

    ghost Value = { List OpenedValue };

    ghost coded = { coded_list opened_row.coded };

    ghost view = { λ s. s.all.items };
}

impl OpenedSessions {
    // These sessions.
    pub(super) fn of(all: Vec<Opened>) -> OpenedSessions
        ensures { result ≡ all.items }
    {
        OpenedSessions { all }
    }

    // Their ids, one after the other.
    pub(super) fn ids(&self, alloc: Global) -> Result<Vec<u8>, AllocError>
        ensures { IfOk result (λ ids. ids.items ≡ bytes_of_ids self.now) }
    {
        let mut ids = Vec::new(alloc);
        for one in &self.all {
            ids.extend_from_slice(one.session.id())?;
        }
        Ok(ids)
    }

    // Takes out the first session whose id isn't one of these, if there is one.
    pub(super) fn take_first(&mut self, revoked: &[[u8; 16]]) -> Option<Visit>
        ensures some { IfSome result (IsTaken revoked.now self.old) }
        ensures none { IfNone result (IsFirstUnlisted revoked.now self.old None) }
        ensures kept { IfNone result (self.new ≡ self.old) }
    {
        let place = self.first_unlisted(revoked)?;
        Some(Visit::of(self.all.swap_remove(place)))
    }

    // The place of the first session whose id isn't one of these.
    fn first_unlisted(&self, revoked: &[[u8; 16]]) -> Option<usize>
        ensures { IsFirstUnlisted revoked.now self.now result }
    {
        for (place, one) in self.all.iter().enumerate() {
            if !is_listed(revoked, one.session.id()) {
                return Some(place);
            }
        }
        None
    }
}

// Whether the id is one of these.
fn is_listed(ids: &[[u8; 16]], id: &[u8; 16]) -> bool
    ensures { IsTrue result ↔ Contains ids.now id.now }
{
    ids.contains(id)
}
