//! The site of C's settings.
ghost use Rattle.std.specs.Prelude.{◌≡◌, ◌⊎◌, MatchResult, Some, true};
ghost use Rattle.cookie.specs.CookieOf.{cookie_of};
ghost use Rattle.cookie.specs.declared.ParseError.{ParseError as ParseErrorValue};
ghost use Rattle.cookie_c.specs.Codes.{refusal_status};
ghost use Rattle.cookie_c.specs.Decoded.{IsDecodingRefusal};
ghost use Rattle.cookie_c.specs.Sites.{AreOf, IsSiteOf, IsUnusable};
ghost use Rattle.cookie_c.specs.declared.status.Status.TheVariants as status;

use super::SessionSettings;
use crate::keys::ring::{has_keys, ring_of};
use crate::status::Status;
use cookie::{Cookie, fits_field};
use cookie_session::{KeyRing, Sessions};
use std::alloc::Global;

/// How a site keeps its sessions.
#[derive(Drop)]
pub struct Site {
    /// The keys. The newest encrypts, and each of them decrypts.
    pub keys: KeyRing,
    /// The cookie with the name and the attributes that the site sets.
    pub cookie: Cookie<'static>,
    /// The seconds that a session lives after its start.
    pub lifetime: u32,
    /// The seconds that a session lives after it was last saved.
    pub idle: u32,
}

impl Site {
    // The site of the settings, or why there is none.
    pub(super) fn of(alloc: Global, settings: &SessionSettings<'_>) -> Result<Site, Status>
        ensures { MatchResult result (IsSiteOf settings.now) (IsUnusable settings.now) }
    {
        if !has_keys(settings.keys) {
            return Err(Status::KeyTooShort);
        }
        let Ok(text) = str::from_utf8(settings.cookie) else {
            return Err(Status::NotUtf8);
        };
        let cookie = read_cookie(alloc, text)?;
        if !fits_field(&cookie) {
            return Err(Status::InvalidValue);
        }
        let Ok(keys) = ring_of(alloc, settings.keys) else {
            return Err(Status::OutOfMemory);
        };
        Ok(Site {
            keys,
            cookie,
            lifetime: settings.lifetime,
            idle: settings.idle,
        })
    }

    // Its sessions.
    pub(super) fn sessions(&self) -> Sessions<'_>
        ensures { AreOf self.now result }
    {
        Sessions {
            keys: &self.keys,
            cookie: &self.cookie,
            lifetime: self.lifetime,
            idle: self.idle,
        }
    }
}

// The cookie in the text of a `Set-Cookie` header, decoded, or why the text is refused.
fn read_cookie(alloc: Global, text: &str) -> Result<Cookie<'static>, Status>
    ensures { MatchResult result
        (λ cookie. cookie_of true text.now ≡ Some cookie.fields)
        (λ why. ((error : ParseErrorValue) × IsDecodingRefusal text.now error
        × (why ≡ refusal_status error)) ⊎ (why ≡ status.OutOfMemory)) }
{
    match Cookie::parse_encoded(alloc, text) {
        Ok(cookie) => cookie.into_owned(alloc).map_err(|_| Status::OutOfMemory),
        Err(error) => Err(Status::of(error)),
    }
}
