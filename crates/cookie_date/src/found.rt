//! What is found in the tokens of a date, in their order (RFC 6265 5.1.1).
ghost use Rattle.std.specs.Prelude.{◌≡◌, ◌<◌, Some, option_copied, IfSome};
ghost use Rattle.cookie_date.specs.CookieDate as Tokens;
ghost use Rattle.cookie_date.specs.Found.{AreSmall, IsShort};

use crate::fields::Fields;
use crate::tokens::{cut_token, day_in, month_in, time_in, year_in};

/// What was found in the tokens of a date so far: the four flags of RFC 6265bis 5.1.1, with their numbers.
#[derive(Clone, Copy)]
pub(crate) struct Found {
    pub time: Option<(u8, u8, u8)>,
    pub day: Option<u8>,
    pub month: Option<u8>,
    pub year: Option<u16>,
}

impl Found {
    fn nothing() -> Found
        ensures { result ≡ Tokens.nothing_found }
    {
        Found {
            time: None,
            day: None,
            month: None,
            year: None,
        }
    }

    fn time_of(self, token: &[u8]) -> Option<(u8, u8, u8)>
        ensures value { result ≡ Tokens.unless_found self.time (Tokens.time_in token.now) }
        ensures bound { IfSome result (λ t. (t.0 < 100) × (t.1 < 100) × (t.2 < 100)) }
    {
        if self.time.is_some() {
            return None;
        }
        time_in(token)
    }

    fn day_of(self, token: &[u8]) -> Option<u8>
        ensures value { result ≡ Tokens.unless_found self.day (Tokens.day_in token.now) }
        ensures bound { IfSome result (λ day. day < 100) }
    {
        if self.day.is_some() {
            return None;
        }
        day_in(token)
    }

    fn month_of(self, token: &[u8]) -> Option<u8>
        ensures value { result ≡ Tokens.unless_found self.month (Tokens.month_in token.now) }
        ensures bound { IfSome result (λ month. month < 100) }
    {
        if self.month.is_some() {
            return None;
        }
        month_in(token)
    }

    fn year_of(self, token: &[u8]) -> Option<u16>
        ensures value { result ≡ Tokens.unless_found self.year (Tokens.year_in token.now) }
        ensures bound { IfSome result (λ year. year < 10000) }
    {
        if self.year.is_some() {
            return None;
        }
        year_in(token)
    }

    // What is found once the token was looked at: a time, else a day, else a month, else a year (step 2).
    #[tactic(auto, unfolding(crate::specs::CookieDate::with_token))]
    fn with_token(self, token: &[u8]) -> Found
        requires { AreSmall self }
        ensures value { result ≡ Tokens.with_token self token.now }
        ensures small { AreSmall result }
    {
        if let Some(time) = self.time_of(token) {
            return Found {
                time: Some(time),
                ..self
            };
        }
        if let Some(day) = self.day_of(token) {
            return Found {
                day: Some(day),
                ..self
            };
        }
        if let Some(month) = self.month_of(token) {
            return Found {
                month: Some(month),
                ..self
            };
        }
        if let Some(year) = self.year_of(token) {
            return Found {
                year: Some(year),
                ..self
            };
        }
        self
    }

    // The fields, if all four are found.
    pub(crate) fn fields(self) -> Option<Fields>
        requires { AreSmall self }
        ensures value { result ≡ Tokens.found_fields self }
        ensures small { IfSome result IsShort }
    {
        let (hour, minute, second) = self.time?;
        let day = self.day?;
        let month = self.month?;
        let year = self.year? as i16;
        Some(Fields {
            year,
            month,
            day,
            hour,
            minute,
            second,
        })
    }
}

// What is found in all tokens of the text.
pub(crate) fn found_in(text: &[u8]) -> Found
    ensures value { result ≡ Tokens.found_in text.now }
    ensures small { AreSmall result }
{
    let mut found = Found::nothing();
    let mut rest = Some(text);
    while let Some(text) = rest {
        let (token, after) = cut_token(text);
        found = found.with_token(token);
        rest = after;
    }
    found
}
