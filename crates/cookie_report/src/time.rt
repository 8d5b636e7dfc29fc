//! The time of a response.
ghost use Rattle.std.specs.Prelude.{◌≡◌, Some, IfOk, IfErr};
ghost use Rattle.cookie_date.specs.Moments.{date_of};
ghost use Rattle.cookie_report.specs.declared.error.ReportError.TheVariants as errors;

use crate::error::ReportError;
use cookie_date::read_date;
use jiff::civil::DateTime;

/// The date and time in UTC that the text is, of the years 1970 to 9998.
pub fn moment(text: &[u8]) -> Result<DateTime, ReportError>
    ensures read { IfOk result (λ moment. date_of text.now ≡ Some moment) }
    ensures refused { IfErr result (λ why. why ≡ errors.NoDate) }
{
    if let Ok(text) = str::from_utf8(text)
        && let Some(moment) = read_date(text)
        && moment.year() >= 1970
        && moment.year() <= 9998
    {
        return Ok(moment);
    }
    Err(ReportError::NoDate)
}
