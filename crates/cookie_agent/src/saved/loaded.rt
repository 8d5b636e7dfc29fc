//! The cookies that a saved text holds.
ghost use Rattle.std.specs.Prelude.{◌≡◌, ◌++◌, [], ◌∷◌, OnOk};
ghost use Rattle.cookie_agent.specs.Saved.{cookies_of, is_bad, places_of};

use crate::saved::line::Line;
use crate::stored::StoredCookie;
use std::alloc::{AllocError, Global};

/// The cookies that a saved text holds, and its bad lines.
#[derive(Drop)]
pub struct LoadedCookies {
    /// The cookies of the good lines, in their order. Some may be expired.
    pub cookies: Vec<StoredCookie>,
    /// The numbers, from 1, of the bad lines.
    pub bad_lines: Vec<usize>,
}

impl LoadedCookies {
    pub(crate) fn new(alloc: Global) -> LoadedCookies
        ensures cookies { result.cookies.items ≡ [] }
        ensures bad_lines { result.bad_lines.items ≡ [] }
    {
        LoadedCookies {
            cookies: Vec::new(alloc),
            bad_lines: Vec::new(alloc),
        }
    }

    // Takes in the line of this number.
    pub(crate) fn take(&mut self, line: Line, number: usize) -> Result<(), AllocError>
        ensures cookies { OnOk result (self.new.cookies.items
            ≡ self.old.cookies.items ++ cookies_of (line ∷ [])) }
        ensures bad_lines { OnOk result (self.new.bad_lines.items
            ≡ self.old.bad_lines.items ++ places_of is_bad number (line ∷ [])) }
    {
        match line {
            Line::Cookie(cookie) => self.cookies.push(cookie)?,
            Line::Bad => self.bad_lines.push(number)?,
            Line::Other => {}
        }
        Ok(())
    }
}
