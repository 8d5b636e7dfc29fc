//! The walk over a store's cookies.
ghost use Rattle.std.specs.Prelude.{◌≡◌};
ghost use Rattle.cookie_agent.specs.RowsCode.{held};

use crate::slots::count_full;
use crate::stored::StoredCookie;
use std::marker::Model;

/// The cookies of a store in the order of their creation, seen as the list of those that are left.
#[derive(Drop)]
pub struct Cookies<'a> {
    slots: &'a [Option<StoredCookie>],
}

impl<'a> Model for Cookies<'a> {
    ghost use Rattle.cookie_browser.specs.Storage.{CookieStore};
    ghost use Rattle.cookie_agent.specs.RowsCode.{held};

    ghost Value = { CookieStore };

    ghost view = { λ a. held a.slots.now };
}

impl<'a> Cookies<'a> {
    // The cookies of these slots.
    pub(crate) fn of(slots: &'a [Option<StoredCookie>]) -> Cookies<'a>
        ensures { result ≡ held slots.now }
    {
        Cookies { slots }
    }
}

impl<'a> Iterator for Cookies<'a> {
    ghost use Rattle.std.specs.Iterator.{YieldsFirstRef, item_count};

    type Item = &'a StoredCookie;

    ghost next_gives = { YieldsFirstRef (λ s. s) };

    ghost remaining = { item_count (λ s. s) };

    fn next(&mut self) -> Option<&'a StoredCookie> {
        while let Some((slot, rest)) = self.slots.split_first() {
            self.slots = rest;
            if let Some(cookie) = slot {
                return Some(cookie);
            }
        }
        None
    }

    fn size_hint(&self) -> (usize, Option<usize>) {
        (self.len(), Some(self.len()))
    }
}

impl<'a> ExactSizeIterator for Cookies<'a> {
    fn len(&self) -> usize {
        count_full(self.slots)
    }
}
