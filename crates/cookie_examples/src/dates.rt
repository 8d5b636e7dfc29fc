//! Dates in headers.
ghost use Rattle.std.specs.Prelude.{◌≡◌, pos, option_map};
ghost use Rattle.cookie_date.specs.Moments.{date_of, days_later};

use anyhow::{Context, Result};
use cookie_date::{DateText, days_after, read_date};
use jiff::civil::DateTime;

/// A week after the date in a header, or the calendar's end, if the text is a date. Both are in UTC.
pub fn week_after(text: &str) -> Option<DateTime>
    ensures { result ≡ option_map (λ date. days_later date (pos 7)) (date_of text.now) }
{
    let date = read_date(text)?;
    Some(days_after(date, 7))
}

pub fn print(rt: &HostRuntime) -> Result<()> {
    let later = week_after("Wed, 21 Oct 2015 07:28:00 GMT").context("no date")?;
    println!(rt; "a week later: {}", DateText(later))?;
    Ok(())
}
