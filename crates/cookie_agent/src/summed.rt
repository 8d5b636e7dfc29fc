//! Sums by which texts are compared first.
ghost use Rattle.std.specs.Prelude.{◌≡◌, []};
ghost use Rattle.std.specs.Str.{bytes_eq};
ghost use Rattle.cookie_agent.specs.SumsCode.{sum_of, summed_cmp};

use std::cmp::Ordering;
use std::hash::{FoldHasher, Hasher};
use std::marker::Model;

// A text and a sum of it. Most texts differ in their sums, so few are compared byte by byte.
#[derive(Drop)]
pub(crate) struct Summed<'a> {
    sum: u64,
    text: &'a [u8],
}

impl<'a> Model for Summed<'a> {
    ghost use Rattle.std.specs.Prelude.{◌≡◌, ℕ, List, []};
    ghost use Rattle.cookie_agent.specs.SumsCode.{sum_of};

    ghost Value = { List ℕ };

    ghost view = { λ s. s.text.now };

    ghost invariant = { λ s. s.sum ≡ sum_of s.text.now [] };
}

impl<'a> Summed<'a> {
    pub(crate) fn of(text: &'a [u8]) -> Summed<'a>
        ensures { result ≡ text.now }
    {
        Summed {
            sum: sum_of(text, b""),
            text,
        }
    }

    pub(crate) fn sum(&self) -> u64
        ensures { result ≡ sum_of self.now [] }
    {
        self.sum
    }

    // Whether both are the same text.
    pub(crate) fn is_same(&self, other: &Summed<'_>) -> bool
        ensures { result ≡ bytes_eq self.now other.now }
    {
        self.sum == other.sum && self.text == other.text
    }

    // By the sum, and then by the text. It tests first whether both are the same, which is faster than to order them.
    pub(crate) fn compare(&self, other: &Summed<'_>) -> Ordering
        ensures { result ≡ summed_cmp self.now other.now }
    {
        if self.is_same(other) {
            return Ordering::Equal;
        }
        match self.sum.cmp(&other.sum) {
            Ordering::Equal => self.text.cmp(other.text),
            unequal => unequal,
        }
    }
}

// A sum of two texts. It isn't secret, so whoever chooses texts can choose some with one sum.
pub(crate) fn sum_of(first: &[u8], second: &[u8]) -> u64
    ensures { result ≡ sum_of first.now second.now }
{
    let mut hasher = FoldHasher::default();
    hasher.write(first);
    hasher.write(second);
    hasher.finish()
}
