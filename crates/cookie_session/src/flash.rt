//! A message that is shown once.
ghost use Rattle.std.specs.Prelude.{◌≡◌, ◌≢◌, None, IfOk, OnErr, OnOk, option_map, string_bytes, true};
ghost use Rattle.std.specs.FinMap.{get, insert, remove};
ghost use Rattle.cookie_session.specs.Flash.{flash_name};

use crate::visit::Visit;
use std::alloc::{AllocError, Global};

impl Visit {
    /// Keeps a message for the next page, as the text `flash`: "Saved", after a form was sent. It takes the place of one
    /// that nobody took.
    ///
    /// Fails only if out of memory, and then leaves the visit as it was.
    ///
    /// ```
    /// visit.set_flash("Saved")?;
    /// ```
    pub fn set_flash(&mut self, message: &str) -> Result<(), AllocError>
        ensures ok { OnOk result (self.new ≡ record self.old {
          session = record self.old.session {
            texts = insert self.old.session.texts flash_name message.now;
          };
          is_changed = true;
        }) }
        ensures err { OnErr result (self.new ≡ self.old) }
    {
        self.set("flash", message)
    }

    /// Takes the message that `set_flash` kept, if there is one, so that it is shown once.
    ///
    /// Fails only if out of memory, and then leaves the visit as it was.
    ///
    /// ```
    /// if let Some(message) = visit.take_flash(alloc)? {
    ///     print_message(message.as_str());
    /// }
    /// ```
    pub fn take_flash(&mut self, alloc: Global) -> Result<Option<String>, AllocError>
        ensures taken { IfOk result (λ message.
            option_map string_bytes message ≡ get self.old.session.texts flash_name) }

        // It is shown once.
        ensures once { OnOk result (get self.new.session.texts flash_name ≡ None) }
        ensures none { get self.old.session.texts flash_name ≡ None → self.new ≡ self.old }
        ensures some { get self.old.session.texts flash_name ≢ None
            → OnOk result (self.new ≡ record self.old {
              session = record self.old.session {
                texts = remove self.old.session.texts flash_name;
              };
              is_changed = true;
            }) }
        ensures err { OnErr result (self.new ≡ self.old) }
    {
        let Some(message) = self.session().get("flash") else {
            return Ok(None);
        };
        let message = String::from_str(alloc, message)?;
        self.remove("flash");
        Ok(Some(message))
    }
}
