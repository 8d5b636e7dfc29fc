//! Texts by name, in byte order of the names.
ghost use Rattle.std.specs.Prelude.{◌≡◌, ◌<◌, ◌^◌, IfOk, OnOk, OnErr, length, string_bytes};
ghost use Rattle.std.specs.FinMap.{empty, entries, get, insert, remove};
ghost use Rattle.std.specs.Option.{option_copied};
ghost use Rattle.cookie.specs.TextMap.{AreTexts};

use std::alloc::{AllocError, Global};
use std::collections::{BTreeMap, btree_map};
use std::marker::Model;

/// Texts by name, in byte order of the names. Contracts see the finite map from names to texts.
#[derive(Drop)]
pub struct TextMap {
    // `BTreeMap` does not hand out its own.
    alloc: Global,
    texts: BTreeMap<String, String>,
}

impl Model for TextMap {
    ghost use Rattle.std.specs.Prelude.{List, ℕ};
    ghost use Rattle.std.specs.FinMap.{FinMap};
    ghost use Rattle.cookie.specs.Jar.{name_cmp};
    ghost use Rattle.cookie.specs.TextMap.{texts_by_name, texts_code};

    ghost Value = { FinMap name_cmp (List ℕ) };

    ghost coded = { texts_code };

    ghost view = { λ a. texts_by_name a.texts.entries };
}

#[tactic(auto, using(crate::proofs::TextMapLemmas::by_name_calls))]
impl TextMap {
    /// An empty map. It doesn't allocate.
    pub fn new(alloc: Global) -> TextMap
        ensures { result ≡ empty }
    {
        TextMap {
            alloc,
            texts: BTreeMap::new(alloc),
        }
    }

    /// The text at `name`, or `None` if there is none.
    pub fn get(&self, name: &str) -> Option<&str>
        ensures { option_copied result ≡ get self.now name.now }
    {
        Some(self.texts.get(name)?.as_str())
    }

    /// Puts a copy of `text` at `name`. Fails only if out of memory, and then leaves the map as it was.
    pub fn set(&mut self, name: &str, text: &str) -> Result<(), AllocError>
        ensures ok { OnOk result (self.new ≡ insert self.old name.now text.now) }
        ensures err { OnErr result (self.new ≡ self.old) }
    {
        let text = String::from_str(self.alloc, text)?;
        self.put(name, text)
    }

    /// Puts `text` at `name`. Fails only if out of memory, and then leaves the map as it was.
    pub fn put(&mut self, name: &str, text: String) -> Result<(), AllocError>
        ensures ok { OnOk result (self.new ≡ insert self.old name.now (string_bytes text)) }
        ensures err { OnErr result (self.new ≡ self.old) }
    {
        let key = String::from_str(self.alloc, name)?;
        self.texts.insert(key, text)?;
        Ok(())
    }

    /// A map of the same texts. Fails only if out of memory.
    pub fn clone(&self) -> Result<TextMap, AllocError>
        ensures { IfOk result (λ made. made ≡ self.now) }
    {
        Ok(TextMap {
            alloc: self.alloc,
            texts: self.texts.clone()?,
        })
    }

    /// Drops the text at `name`.
    pub fn remove(&mut self, name: &str)
        ensures { self.new ≡ remove self.old name.now }
    {
        self.texts.remove(name);
    }

    /// The names with their texts, in byte order of the names. It doesn't allocate.
    pub fn pairs(&self) -> Pairs<'_>
        ensures listed { result ≡ entries self.now }
        ensures texts { AreTexts result }

        // They can be counted.
        ensures fits { length result < 2 ^ 64 }
    {
        Pairs {
            rest: self.texts.iter(),
        }
    }
}

/// Names with their values, in byte order of the names, seen as the list of the pairs that are left.
#[derive(Drop)]
pub struct Pairs<'a> {
    rest: btree_map::Iter<'a, String, String>,
}

impl<'a> Model for Pairs<'a> {
    ghost use Rattle.std.specs.Prelude.{List, ℕ};
    ghost use Rattle.cookie.specs.TextMap.{text_pairs};

    ghost Value = { List (List ℕ × List ℕ) };

    ghost view = { λ a. text_pairs a.rest };
}

impl<'a> Iterator for Pairs<'a> {
    ghost use Rattle.std.specs.Prelude.{length};
    ghost use Rattle.std.specs.Iterator.{at_most};
    ghost use Rattle.std.specs.Map.Iter.{TakesFirst, deref_pair};

    type Item = (&'a str, &'a str);

    ghost next_gives = { TakesFirst deref_pair };

    ghost remaining = { λ s. at_most (length s) };

    fn next(&mut self) -> Option<(&'a str, &'a str)> {
        let (name, text) = self.rest.next()?;
        Some((name.as_str(), text.as_str()))
    }
}
