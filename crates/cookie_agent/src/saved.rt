//! Stored cookies, saved in a text of lines.
ghost use Rattle.std.specs.Prelude.{◌≡◌, ◌==◌, IfOk, map};
ghost use Rattle.std.specs.List.{slice_split};
ghost use Rattle.std.specs.Str.Lines.{strip_carriage_return};
ghost use Rattle.cookie_agent.specs.Saved as spec;

mod cookies_txt;
mod form;
mod json_lines;
mod limited;
mod line;
mod loaded;
mod storable;

use crate::stored::StoredCookie;
use cookie_browser::Expiry;
pub use form::SavedForm;
use jiff::civil::DateTime;
pub use loaded::LoadedCookies;
use std::alloc::{AllocError, Global};

/// A text in which stored cookies are saved, and which cookies it lacks.
#[derive(Drop)]
pub struct SavedCookies {
    /// The text.
    pub text: Vec<u8>,
    /// The places, from 0, of the persistent cookies that aren't in the text, since its form can't carry them.
    pub left_out: Vec<usize>,
}

// Whether the cookie is persistent, and not expired at the time `now`.
fn is_persistent(cookie: &StoredCookie, now: DateTime) -> bool
    ensures { result ≡ spec.is_persistent now cookie.now }
{
    match cookie.expiry() {
        Expiry::Session => false,
        _ => cookie.lasts(now),
    }
}

// The texts between line feeds.
fn lines_of(alloc: Global, text: &[u8]) -> Result<Vec<&[u8]>, AllocError>
    ensures { IfOk result (λ lines.
        map (λ l. l.now) lines.items ≡ slice_split (λ byte. byte == 10) text.now) }
{
    text.split(|byte| *byte == 10).collect(alloc)
}

// The text without one carriage return at its end.
fn without_return(text: &[u8]) -> &[u8]
    ensures { result.now ≡ strip_carriage_return text.now }
{
    match text {
        [line @ .., b'\r'] => line,
        _ => text,
    }
}
