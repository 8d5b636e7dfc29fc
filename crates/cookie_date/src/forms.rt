//! The four forms of a date.
ghost use Rattle.std.specs.Prelude.{◌≡◌, ◌<◌, Some};
ghost use Rattle.jiff.specs.Types.{DateTime as CivilDateTime};
ghost use Rattle.cookie_date.specs.Reader as Reader;
ghost use Rattle.cookie_date.specs.Text.{moment_text};
ghost use Rattle.cookie_date.specs.Forms.{IsDateText, ReadsAsDate, IsReadBack};
ghost use Rattle.cookie_date.specs.Moments.{date_of};

use crate::fields::{Fields, date_of_fields};
use crate::reader::{
    read_clock, read_day_month, read_gmt, read_month, read_padded_day, read_tag, read_two_digits,
    read_weekday, read_year, weekday_rest,
};
use jiff::civil::DateTime;

// `06 Nov 1994 08:49:37 GMT`, with this mark on both sides of the month.
#[tactic(auto, unfolding(crate::specs::Reader::read_day_first))]
fn read_day_first(mark: &[u8], text: &[u8]) -> Option<Fields>
    ensures { result ≡ Reader.read_day_first mark.now text.now }
{
    let ((day, month), rest) = read_day_month(mark, text)?;
    let (year, rest) = read_year(rest)?;
    let (hour, minute, second) = read_gmt(rest)?;
    Some(Fields {
        year,
        month,
        day,
        hour,
        minute,
        second,
    })
}

// `06-Nov-94 08:49:37 GMT`
#[tactic(auto, unfolding(crate::specs::Reader::read_short_year))]
fn read_short_year(text: &[u8]) -> Option<Fields>
    ensures { result ≡ Reader.read_short_year text.now }
{
    let ((day, month), rest) = read_day_month(b"-", text)?;
    let (year, rest) = read_two_digits(rest)?;
    let (hour, minute, second) = read_gmt(rest)?;
    Some(Fields {
        year: i16::from(year),
        month,
        day,
        hour,
        minute,
        second,
    })
}

// `Nov  6 08:49:37 1994`
#[tactic(auto, unfolding(crate::specs::Reader::read_month_first))]
fn read_month_first(text: &[u8]) -> Option<Fields>
    ensures { result ≡ Reader.read_month_first text.now }
{
    let (month, rest) = read_month(text)?;
    let (day, rest) = read_padded_day(read_tag(rest, b" ")?)?;
    let ((hour, minute, second), rest) = read_clock(read_tag(rest, b" ")?)?;
    let (year, rest) = read_year(read_tag(rest, b" ")?)?;
    if !rest.is_empty() {
        return None;
    }
    Some(Fields {
        year,
        month,
        day,
        hour,
        minute,
        second,
    })
}

// The byte after the day tells whether blanks or hyphens are round the month.
#[tactic(auto, unfolding(crate::specs::Reader::read_either_mark))]
fn read_either_mark(text: &[u8]) -> Option<Fields>
    ensures { result ≡ Reader.read_either_mark text.now }
{
    match text.get(2) {
        Some(b'-') => read_day_first(b"-", text),
        _ => read_day_first(b" ", text),
    }
}

// A date without a weekday.
#[tactic(auto, unfolding(crate::specs::Reader::read_unnamed))]
fn read_unnamed(text: &[u8]) -> Option<Fields>
    ensures { result ≡ Reader.read_unnamed text.now }
{
    match text.first() {
        Some(b'0'..=b'9') => read_either_mark(text),
        _ => read_month_first(text),
    }
}

// What follows the short name of a weekday.
#[tactic(auto, unfolding(crate::specs::Reader::read_named))]
fn read_named(weekday: u8, text: &[u8]) -> Option<Fields>
    requires { weekday < 7 }
    ensures { result ≡ Reader.read_named weekday text.now }
{
    match text.first() {
        Some(b',') => read_either_mark(read_tag(text, b", ")?),
        Some(b' ') => read_month_first(read_tag(text, b" ")?),
        _ => {
            let rest = read_tag(text, weekday_rest(weekday).as_bytes())?;
            read_short_year(read_tag(rest, b", ")?)
        }
    }
}

#[tactic(auto, unfolding(crate::specs::Reader::read_fields))]
fn read_fields(text: &[u8]) -> Option<Fields>
    ensures { result ≡ Reader.read_fields text.now }
{
    match read_weekday(text) {
        Some((weekday, rest)) => read_named(weekday, rest),
        None => read_unnamed(text),
    }
}

/// Reads a text as a date-time in UTC, in whole seconds.
///
/// The text has one of four forms: the three of RFC 9110 5.6.7, as `Sun, 06 Nov 1994 08:49:37 GMT`,
/// `Sunday, 06-Nov-94 08:49:37 GMT` and `Sun Nov  6 08:49:37 1994`, and the first with hyphens round the month.
/// The weekday may be left out, and isn't compared with the date. In the second form the year has two digits, and
/// in the others one to four, after a sign or none. A year from 0 to 99 is completed to one from 1970 to 2069
/// (RFC 6265 5.1.1, steps 3 and 4).
///
/// Returns `None` if the text has none of the forms, or if its date or its time doesn't exist.
/// Example: `week_after` in crates/cookie_examples/src/dates.rt.
pub fn read_date(text: &str) -> Option<DateTime>
    ensures exact { ReadsAsDate text.now result }
    ensures value { result ≡ date_of text.now }
    ensures unique { (a b : CivilDateTime) → IsDateText text.now a → IsDateText text.now b → a ≡ b }
    ensures printed { (date : CivilDateTime) → text.now ≡ moment_text date
        → (back : CivilDateTime) × (result ≡ Some back) × IsReadBack date back }
{
    let fields = read_fields(text.as_bytes())?;
    date_of_fields(fields)
}
