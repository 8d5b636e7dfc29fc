//! The numbers of stored cookies by their domains.
ghost use Rattle.std.specs.Prelude.{◌≡◌, ◌++◌, ℕ, List, [], ◌∷◌, true, false, Contains, is_some, reverse, IfOk, OnOk};
ghost use Rattle.cookie_browser.specs.Request.{is_in_domain};
ghost use Rattle.cookie_agent.specs.IndexCode.{IsNumberAt, Lists, is_around, numbers_at};
ghost use Rattle.cookie_agent.specs.RowsCode.{slot_at};

use crate::bytes::copied;
use crate::slots::is_full;
use crate::stored::StoredCookie;
use std::alloc::{AllocError, Global};
use std::collections::BTreeMap;

// The slots of cookies by the domain's bytes in the reverse order, so that what is below a domain follows it. Slots of
// cookies that are gone may stay.
#[derive(Drop)]
pub(crate) struct DomainIndex {
    numbers: BTreeMap<Vec<u8>, Vec<usize>>,
}

impl DomainIndex {
    pub(crate) fn new(alloc: Global) -> DomainIndex {
        DomainIndex {
            numbers: BTreeMap::new(alloc),
        }
    }

    // The numbers at the domain whose reverse this is.
    pub(crate) fn at(&self, key: &[u8]) -> &[usize]
        ensures { result.now ≡ numbers_at self.now key.now }
    {
        match self.numbers.get(key) {
            Some(numbers) => numbers.as_slice(),
            None => &[],
        }
    }

    // Adds a number at the domain whose reverse this is.
    pub(crate) fn add(
        &mut self,
        alloc: Global,
        key: Vec<u8>,
        number: usize,
    ) -> Result<(), AllocError>
        ensures added { OnOk result (IsNumberAt self.new key.items number) }
        ensures stay { (other : List ℕ) (n : ℕ)
            → IsNumberAt self.old other n → IsNumberAt self.new other n }
    {
        if let Some(numbers) = self.numbers.get_mut(key.as_slice()) {
            numbers.push(number)?;
            return Ok(());
        }
        let mut numbers = Vec::new(alloc);
        numbers.push(number)?;
        self.numbers.insert(key, numbers)?;
        Ok(())
    }

    // Drops the numbers of empty slots at the domain whose reverse this is.
    pub(crate) fn prune(&mut self, key: &[u8], slots: &[Option<StoredCookie>])
        ensures { (other : List ℕ) (n : ℕ) → is_some (slot_at slots.now n) ≡ true
            → IsNumberAt self.old other n → IsNumberAt self.new other n }
    {
        if let Some(numbers) = self.numbers.get_mut(key) {
            numbers.retain(|&number| is_full(slots, number));
        }
    }

    // The numbers of the domain and of those above it.
    pub(crate) fn above(&self, alloc: Global, domain: &[u8]) -> Result<Vec<usize>, AllocError>
        ensures { IfOk result (λ found. (other : List ℕ) (n : ℕ)
            → is_in_domain domain.now false other ≡ true → Lists self.now other n
            → Contains found.items n) }
    {
        let key = reversed(alloc, domain)?;
        let mut found = Vec::new(alloc);
        found.extend_from_slice(self.at(&key))?;
        for end in 0..key.len() {
            if key[end] == b'.' {
                found.extend_from_slice(self.at(&key[..end]))?;
            }
        }
        Ok(found)
    }

    // The numbers of the domain and of those below it.
    pub(crate) fn below(&self, alloc: Global, domain: &[u8]) -> Result<Vec<usize>, AllocError>
        ensures { IfOk result (λ found. (other : List ℕ) (n : ℕ)
            → is_in_domain other false domain.now ≡ true → Lists self.now other n
            → Contains found.items n) }
    {
        let key = reversed(alloc, domain)?;
        let mut found = Vec::new(alloc);
        found.extend_from_slice(self.at(&key))?;

        // The keys of the domains below it begin with its own and a dot.
        let start = followed(alloc, &key, b'.')?;
        let end = followed(alloc, &key, b'.' + 1)?;
        for (_, numbers) in self.numbers.range(&start..&end) {
            found.extend_from_slice(numbers)?;
        }
        Ok(found)
    }

    // The numbers of the domain, of those above it and of those below it.
    pub(crate) fn around(&self, alloc: Global, domain: &[u8]) -> Result<Vec<usize>, AllocError>
        ensures { IfOk result (λ found. (other : List ℕ) (n : ℕ)
            → is_around domain.now other ≡ true → Lists self.now other n
            → Contains found.items n) }
    {
        let mut found = self.above(alloc, domain)?;
        found.extend_from_slice(&self.below(alloc, domain)?)?;
        Ok(found)
    }
}

// The bytes in the reverse order.
pub(crate) fn reversed(alloc: Global, text: &[u8]) -> Result<Vec<u8>, AllocError>
    ensures { IfOk result (λ made. made.items ≡ reverse text.now) }
{
    let mut made = copied(alloc, text)?;
    made.reverse();
    Ok(made)
}

// The bytes, and this one after them.
fn followed(alloc: Global, text: &[u8], byte: u8) -> Result<Vec<u8>, AllocError>
    ensures { IfOk result (λ made. made.items ≡ text.now ++ byte ∷ []) }
{
    let mut made = copied(alloc, text)?;
    made.push(byte)?;
    Ok(made)
}
