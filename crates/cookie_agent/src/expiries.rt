//! Which stored cookies expire, and when.
ghost use Rattle.std.specs.Prelude.{◌≡◌, ◌≢◌, ◌<◌, ℕ, ℤ, Option, Some, ◌⊎◌, IfSome, MatchOption, OnErr, OnOk};
ghost use Rattle.cookie_agent.specs.ExpiriesCode.{IsAfter, IsTimed, listed_len};

use std::alloc::{AllocError, Global};
use std::collections::BTreeSet;

// The numbers of cookies with their expiries, in nanoseconds since 1970, the earliest first. Numbers of cookies that are
// gone may stay.
#[derive(Drop)]
pub(crate) struct Expiries {
    listed: BTreeSet<(i128, usize)>,
}

impl Expiries {
    pub(crate) fn new(alloc: Global) -> Expiries {
        Expiries {
            listed: BTreeSet::new(alloc),
        }
    }

    // Lists a number at its expiry, if it has one.
    pub(crate) fn add(&mut self, number: usize, expiry: Option<i128>) -> Result<(), AllocError>
        ensures listed { OnOk result (IsTimed self.new number expiry) }
        ensures stay { (n : ℕ) (other : Option ℤ)
            → IsTimed self.old n other → IsTimed self.new n other }
    {
        match expiry {
            Some(expiry) => self.insert(expiry, number),
            None => Ok(()),
        }
    }

    fn insert(&mut self, expiry: i128, number: usize) -> Result<(), AllocError>
        ensures listed { OnOk result (IsTimed self.new number (Some expiry)) }
        ensures stay { (n : ℕ) (other : Option ℤ)
            → IsTimed self.old n other → IsTimed self.new n other }
    {
        self.listed.insert((expiry, number))?;
        Ok(())
    }

    // Takes a number off the list at its expiry, if it has one.
    pub(crate) fn remove(&mut self, number: usize, expiry: Option<i128>)
        ensures { (n : ℕ) (other : Option ℤ) → IsTimed self.old n other
            → IsTimed self.new n other ⊎ ((n ≡ number) × (other ≡ expiry)) }
    {
        if let Some(expiry) = expiry {
            self.take(expiry, number);
        }
    }

    fn take(&mut self, expiry: i128, number: usize)
        ensures { (n : ℕ) (other : Option ℤ) → IsTimed self.old n other
            → IsTimed self.new n other ⊎ ((n ≡ number) × (other ≡ Some expiry)) }
    {
        self.listed.remove(&(expiry, number));
    }

    // Lists a number at its new expiry in place of the old one. After an error all stay.
    pub(crate) fn replace(
        &mut self,
        number: usize,
        old: Option<i128>,
        new: Option<i128>,
    ) -> Result<(), AllocError>
        ensures listed { OnOk result (IsTimed self.new number new) }
        ensures others { (n : ℕ) (other : Option ℤ)
            → n ≢ number → IsTimed self.old n other → IsTimed self.new n other }
        ensures err { OnErr result ((n : ℕ) (other : Option ℤ)
            → IsTimed self.old n other → IsTimed self.new n other) }
    {
        self.add(number, new)?;
        if old != new {
            self.remove(number, old);
        }
        Ok(())
    }

    // Takes out the number with the earliest expiry, if that isn't after the time `now`.
    pub(crate) fn pop_due(&mut self, now: i128) -> Option<usize>
        ensures due { MatchOption result
            ((n : ℕ) (expiry : Option ℤ) → IsTimed self.old n expiry
            → IsTimed self.new n expiry × IsAfter now expiry)
            (λ number. (n : ℕ) (expiry : Option ℤ) → IsTimed self.old n expiry
            → IsAfter now expiry ⊎ (n ≢ number) → IsTimed self.new n expiry) }
        ensures shorter { IfSome result (λ _. listed_len self.new < listed_len self.old) }
    {
        if now < self.listed.first()?.0 {
            return None;
        }
        let (_, number) = self.listed.pop_first()?;
        Some(number)
    }
}
