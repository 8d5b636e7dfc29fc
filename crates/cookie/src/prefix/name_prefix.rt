//! The text of a prefix.
ghost use Rattle.std.specs.Prelude.{◌≡◌};

use std::marker::Model;

/// The text before the names. Contracts see it as its text.
#[derive(Debug, Drop)]
pub struct NamePrefix(pub &'static str);

impl Model for NamePrefix {
    ghost use Rattle.std.specs.Prelude.{List, ℕ};

    ghost Value = { List ℕ };

    ghost view = { λ a. a.0.now };
}

impl NamePrefix {
    /// Its text.
    pub fn as_str(&self) -> &'static str
        ensures { result.now ≡ self.now }
    {
        self.0
    }
}
