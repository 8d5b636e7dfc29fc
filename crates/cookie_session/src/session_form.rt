//! A session with the texts of a form (URL Standard 5.1).
ghost use Rattle.std.specs.Prelude.{◌≡◌, OnErr, OnOk};
ghost use Rattle.cookie_session.specs.Form.{texts_of_form};

use crate::session::Session;
use crate::session_text::texts_of;
use form_urlencoded::raw_pairs;
use std::alloc::{AllocError, Global};

impl Session {
    /// Puts the texts of a form in place of its own (URL Standard 5.1). Of two texts with one name the last counts. Bytes
    /// that aren't UTF-8 are replaced by U+FFFD.
    ///
    /// Fails only if out of memory, and then leaves the session as it was.
    pub fn set_form(&mut self, alloc: Global, form: &[u8]) -> Result<(), AllocError>
        ensures ok { OnOk result (self.new
            ≡ record self.old { texts = texts_of_form form.now }) }
        ensures err { OnErr result (self.new ≡ self.old) }
    {
        let texts = texts_of(alloc, raw_pairs(form))?;
        *self = Session::of(*self.id(), self.times(), texts);
        Ok(())
    }
}
