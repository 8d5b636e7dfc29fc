//! Dates for C (RFC 6265 5.1.1, RFC 9110 5.6.7).
ghost use Rattle.std.specs.Prelude.{◌≡◌, pos};
ghost use Rattle.jiff.specs.Types.{DateTime as CivilDateTime};
ghost use Rattle.jiff.specs.Words.{IsDate, IsTime, IsYmd, IsHms};
ghost use Rattle.cookie.specs.DateText.{moment_text};
ghost use Rattle.cookie_c.specs.Answers.{IsGivenInMemory, IsRefused};
ghost use Rattle.cookie_c.specs.Dates.{moment_in, refused_moment, told_moment};
ghost use Rattle.cookie_c.specs.declared.status.Status.TheVariants as status;

use crate::answer::Answer;
use crate::status::Status;
use cookie::{DateText, read_date};
use jiff::civil::DateTime;
use std::alloc::Global;

/// A date and time in UTC, in whole seconds.
#[repr(C)]
#[derive(Clone, Copy, Default)]
pub struct Moment {
    /// The number of a `Status`. If it isn't `Status::Done`, the other fields are 0.
    pub status: u32,
    /// The year, from -9999 to 9999.
    pub year: i16,
    /// The month, from 1 to 12.
    pub month: i8,
    /// The day of the month, from 1 to 31.
    pub day: i8,
    /// The hour, from 0 to 23.
    pub hour: i8,
    /// The minute, from 0 to 59.
    pub minute: i8,
    /// The second, from 0 to 59.
    pub second: i8,
}

impl Moment {
    pub(crate) fn refusal(why: Status) -> Moment
        ensures { result ≡ refused_moment why }
    {
        Moment {
            status: why.code(),
            ..Moment::default()
        }
    }

    pub(crate) fn of(moment: DateTime) -> Moment
        ensures { result ≡ told_moment moment }
    {
        Moment {
            status: Status::Done.code(),
            year: moment.year(),
            month: moment.month(),
            day: moment.day(),
            hour: moment.hour(),
            minute: moment.minute(),
            second: moment.second(),
        }
    }
}

/// Reads the text as a date and time in UTC, in one of the four forms of `read_date`. It doesn't allocate.
///
/// Refuses a text that isn't UTF-8, and then one that isn't a date.
#[unsafe(no_mangle)]
pub extern "C" fn cookie_read_date(text: &[u8]) -> Moment
    ensures { result ≡ moment_in text.now }
{
    let Ok(text) = str::from_utf8(text) else {
        return Moment::refusal(Status::NotUtf8);
    };
    match read_date(text) {
        Some(moment) => Moment::of(moment),
        None => Moment::refusal(Status::NoDate),
    }
}

/// Prints the date and time in UTC as `Wed, 21 Oct 2015 07:28:00 GMT` (RFC 9110 5.6.7, `IMF-fixdate`), for the buffer.
/// A year below 1000 has only the digits that it needs, and a year below 0 has a sign, which that form doesn't have.
///
/// Refuses numbers that aren't a date and time. Else it fails only when memory runs out.
#[unsafe(no_mangle)]
pub extern "C" fn cookie_print_date(
    alloc: Global,
    year: i16,
    month: i8,
    day: i8,
    hour: i8,
    minute: i8,
    second: i8,
    out: &mut [u8],
) -> Answer
    ensures printed { (moment : CivilDateTime) → IsYmd year month day moment.date
        → IsHms hour minute second (pos 0) moment.time
        → IsGivenInMemory (moment_text moment) result out.old out.new }
    ensures refused { ¬ (IsDate year month day × IsTime hour minute second (pos 0))
        → IsRefused status.NoDate result out.old out.new }
{
    let Ok(moment) = DateTime::new(year, month, day, hour, minute, second, 0) else {
        return Answer::refusal(Status::NoDate);
    };
    match DateText(moment).to_string(alloc) {
        Ok(text) => Answer::give(text.as_bytes(), out),
        Err(_) => Answer::refusal(Status::OutOfMemory),
    }
}
