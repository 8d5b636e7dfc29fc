//! A call on tokens, as C makes it.
ghost use Rattle.std.specs.Prelude.{◌≡◌, MatchResult};
ghost use Rattle.cookie_c.specs.Tokens.{IsTokenCall, IsTokenRefusal};

use super::TokenSettings;
use crate::sessions::time::time_at;
use crate::status::Status;
use cookie_session::{KeyRing, Tokens};
use jiff::civil::DateTime;

/// The tokens of the settings, a value or a token, and the time.
#[derive(Drop)]
pub(crate) struct TokenCall<'c> {
    pub(super) tokens: Tokens<'c>,
    pub(super) text: &'c str,
    pub(super) time: DateTime,
}

impl<'c> TokenCall<'c> {
    // The call with these keys and bytes in that second, or why it is refused.
    pub(super) fn of(
        keys: &'c KeyRing,
        settings: &TokenSettings<'c>,
        text: &'c [u8],
        now: u64,
    ) -> Result<TokenCall<'c>, Status>
        ensures { MatchResult result
            (λ call. (call.text.now ≡ text.now)
            × IsTokenCall keys.now settings.now text.now now call.tokens call.time)
            (IsTokenRefusal settings.now text.now now) }
    {
        let Ok(purpose) = str::from_utf8(settings.purpose) else {
            return Err(Status::NotUtf8);
        };
        let Ok(text) = str::from_utf8(text) else {
            return Err(Status::NotUtf8);
        };
        let Some(time) = time_at(now) else {
            return Err(Status::NoDate);
        };
        let tokens = Tokens {
            keys,
            purpose,
            lifetime: settings.lifetime,
        };
        Ok(TokenCall { tokens, text, time })
    }
}
