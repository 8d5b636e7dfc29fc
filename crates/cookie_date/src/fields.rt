//! The fields of a written date, and their date-time.
ghost use Rattle.std.specs.Prelude.{◌≡◌, ◌<◌, ◌↔◌, IsSome, IfSome};
ghost use Rattle.jiff.specs.Words.{IsYear};
ghost use Rattle.cookie_date.specs.Fields.{Exists, HasFields};
ghost use Rattle.cookie_date.specs.Forms.{full_year};

use jiff::civil::DateTime;

/// What a date text shows, before the year rule.
#[derive(Clone, Copy)]
pub(crate) struct Fields {
    pub year: i16,
    pub month: u8,
    pub day: u8,
    pub hour: u8,
    pub minute: u8,
    pub second: u8,
}

// RFC 6265 5.1.1, steps 3 and 4.
pub(crate) fn full_year(year: i16) -> i16
    requires { IsYear year }
    ensures value { result ≡ full_year year }
    ensures bound { IsYear result }
{
    match year {
        0..=69 => year + 2000,
        70..=99 => year + 1900,
        _ => year,
    }
}

/// The date-time of the fields, if the calendar and a clock have it.
pub(crate) fn date_of_fields(fields: Fields) -> Option<DateTime>
    requires year { IsYear fields.year }
    requires two_digits { (fields.month < 100) × (fields.day < 100) × (fields.hour < 100)
        × (fields.minute < 100) × (fields.second < 100) }
    ensures succeeds { IsSome result ↔ Exists fields }
    ensures value { IfSome result (HasFields fields) }
{
    let year = full_year(fields.year);
    let (month, day) = (fields.month as i8, fields.day as i8);
    let (hour, minute, second) = (fields.hour as i8, fields.minute as i8, fields.second as i8);
    DateTime::new(year, month, day, hour, minute, second, 0).ok()
}
