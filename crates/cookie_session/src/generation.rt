//! The generation of a user's sessions: how a site ends all sessions of a user at once.
ghost use Rattle.std.specs.Prelude.{◌≡◌, ◌↔◌, ◌<◌, ◌^◌, ℕ, Some, IsTrue, OnErr, OnOk, codes};
ghost use Rattle.std.specs.FinMap.{get, insert};
ghost use Rattle.std.specs.Fmt.{decimal};
ghost use Rattle.cookie_session.specs.Generation.{IsSince, generation_name};

use crate::session::Session;
use crate::session_text::exact_number;
use std::alloc::{AllocError, Global};

impl Session {
    /// Keeps the number of the user's generation, as the text `generation`. A site keeps one number a user, and adds one
    /// where all sessions of the user are to end, as after a password change. So it ends them without knowing their ids.
    ///
    /// Fails only if out of memory, and then leaves the session as it was.
    ///
    /// ```
    /// session.set_generation(alloc, user.generation)?;
    /// ```
    pub fn set_generation(&mut self, alloc: Global, generation: u64) -> Result<(), AllocError>
        ensures ok { OnOk result (self.new ≡ record self.old {
          texts = insert self.old.texts generation_name (decimal generation);
        }) }
        ensures err { OnErr result (self.new ≡ self.old) }
    {
        let text = generation.to_string(alloc)?;
        self.set("generation", text.as_str())
    }

    /// The number of the user's generation, if the session keeps one.
    pub fn generation(&self) -> Option<u64>
        ensures { (number : ℕ) → (result ≡ Some number)
            ↔ ((number < 2 ^ 64) × (get self.now.texts generation_name ≡ Some (decimal number))) }
    {
        exact_number(self.get("generation")?)
    }

    /// Whether it keeps this generation or a later one. Refuse the session if it doesn't, once the user is known.
    ///
    /// ```
    /// if !session.is_since(user.generation) {
    ///     return Ok(None);
    /// }
    /// ```
    pub fn is_since(&self, generation: u64) -> bool
        ensures { IsTrue result ↔ IsSince generation self.now }
    {
        match self.generation() {
            Some(number) => generation <= number,
            None => false,
        }
    }
}
