//! Dates as browsers read them (RFC 6265 5.1.1).
ghost use Rattle.std.specs.Prelude.{◌≡◌, ◌≤ℤ◌, pos, Some};
ghost use Rattle.jiff.specs.Types.{DateTime as CivilDateTime};
ghost use Rattle.cookie_date.specs.CookieDate as Tokens;
ghost use Rattle.cookie_date.specs.Found.{IsShort};
ghost use Rattle.cookie_date.specs.Forms.{IsReadBack};
ghost use Rattle.cookie_date.specs.Productions.{IsGrammar};
ghost use Rattle.cookie_date.specs.Text.{moment_text};

use crate::fields::{Fields, date_of_fields, full_year};
use crate::found::found_in;
use jiff::civil::DateTime;

// No date before this year is read (RFC 6265 5.1.1, step 5).
const FIRST_YEAR: i16 = 1601;

/// The date-time in UTC, in whole seconds, that a browser reads in the text of an `Expires` attribute (RFC 6265 5.1.1).
///
/// The text is split at its delimiters. Each token is taken as the time, else as the day, else as the month, else as
/// the year, if it reads as one that isn't found yet. Else it is skipped, as weekdays and time zones are. A year from 0
/// to 99 is completed to one from 1970 to 2069. Returns `None` if one of the four is missing, if the year is before
/// 1601, or if there is no such date or time.
pub fn read_cookie_date(text: &[u8]) -> Option<DateTime>
    ensures value { result ≡ Tokens.cookie_date_of text.now }
    ensures grammar { IsGrammar }
    ensures printed { (date : CivilDateTime) → text.now ≡ moment_text date
        → pos 1601 ≤ℤ date.date.year
        → (back : CivilDateTime) × (result ≡ Some back) × IsReadBack date back }
{
    let fields = found_in(text).fields()?;
    date_from_1601(fields)
}

// The date-time of the fields, if the calendar and a clock have it, and it isn't before 1601.
fn date_from_1601(fields: Fields) -> Option<DateTime>
    requires { IsShort fields }
    ensures { result ≡ Tokens.date_of_found fields }
{
    if full_year(fields.year) < FIRST_YEAR {
        return None;
    }
    date_of_fields(fields)
}
