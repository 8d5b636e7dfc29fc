//! The entries of a table, in their order.
ghost use Rattle.std.specs.Prelude.{◌≡◌, ◌++◌};
ghost use Rattle.std.specs.Map.{values_of};
ghost use Rattle.std.specs.Slice.Iter.{iter_rest};

use crate::name_key::NameKey;
use indexmap::map::Values;
use std::marker::Model;
use std::slice;

// The entries of a table that are left, in their order.
#[derive(Drop)]
pub(crate) struct Entries<'a, X> {
    few: slice::Iter<'a, (NameKey, X)>,
    many: Values<'a, NameKey, X>,
}

impl<'a, X> Model for Entries<'a, X> {
    ghost use Rattle.std.specs.Prelude.{List, ◌++◌};
    ghost use Rattle.std.specs.Map.{values_of};
    ghost use Rattle.std.specs.Slice.Iter.{iter_rest};

    ghost Value = { List X };

    ghost view = { λ a. values_of (iter_rest a.few) ++ a.many };
}

impl<'a, X> Entries<'a, X> {
    pub(crate) fn new(
        few: slice::Iter<'a, (NameKey, X)>,
        many: Values<'a, NameKey, X>,
    ) -> Entries<'a, X>
        ensures { result ≡ values_of (iter_rest few.entry) ++ many.entry }
    {
        Entries { few, many }
    }
}

impl<'a, X> Iterator for Entries<'a, X> {
    ghost use Rattle.std.specs.Prelude.{length};
    ghost use Rattle.std.specs.Iterator.{at_most};
    ghost use Rattle.std.specs.Map.Iter.{TakesFirst, deref};

    type Item = &'a X;

    ghost next_gives = { TakesFirst (deref {X = X}) };

    ghost remaining = { λ s. at_most (length s) };

    fn next(&mut self) -> Option<&'a X> {
        match self.few.next() {
            Some(pair) => Some(&pair.1),
            None => self.many.next(),
        }
    }
}
