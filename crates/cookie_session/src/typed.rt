//! Texts of a session as values of other types.
ghost use Rattle.std.specs.Prelude.{◌≡◌, ℕ, List, None, Ok, Some, Result, IfSome, OnErr, OnOk, true};
ghost use Rattle.std.specs.FinMap.{get, insert};
ghost use Rattle.std.specs.Result.{result_map_both};

use crate::session::Session;
use crate::visit::Visit;
use std::alloc::{AllocError, Global};
use std::fmt::Display;
use std::str::FromStr;

impl Session {
    /// The text at `name`, read as a value of another type by its [`FromStr`], or `None` if there is no text.
    ///
    /// Fails if the text doesn't read as such a value.
    ///
    /// ```
    /// let count: u32 = session.get_as("count")?.unwrap_or(0);
    /// ```
    pub fn get_as<T: FromStr>(&self, name: &str) -> Result<Option<T>, T::Err>
        ensures none { get self.now.texts name.now ≡ None → result ≡ Ok None }
        ensures some { (text : List ℕ) → get self.now.texts name.now ≡ Some text
            → (read : Result T T.Err) × T.from_str_gives text read
            × (result ≡ result_map_both Some (λ why. why) read) }
    {
        let Some(text) = self.get(name) else {
            return Ok(None);
        };
        match T::from_str(text) {
            Ok(value) => Ok(Some(value)),
            Err(why) => Err(why),
        }
    }
}

impl Visit {
    /// Puts the text of a value, as its [`Display`] prints it, at `name`. [`Session::get_as`] reads it back.
    ///
    /// Fails only if out of memory, and then leaves the visit as it was.
    ///
    /// ```
    /// visit.set_as(alloc, "count", &(count + 1))?;
    /// ```
    pub fn set_as<T: Display>(
        &mut self,
        alloc: Global,
        name: &str,
        value: &T,
    ) -> Result<(), AllocError>
        ensures ok { (text : List ℕ) → T.output value.now ≡ Some text
            → OnOk result (self.new ≡ record self.old {
              session = record self.old.session {
                texts = insert self.old.session.texts name.now text;
              };
              is_changed = true;
            }) }
        ensures err { OnErr result (self.new ≡ self.old) }
    {
        let text = value.to_string(alloc)?;
        self.set(name, text.as_str())
    }
}
