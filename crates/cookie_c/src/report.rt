//! What a browser makes of `Set-Cookie` lines, for C: a report (RFC 6265bis).
ghost use Rattle.std.specs.Prelude.{◌≡◌, Some};
ghost use Rattle.cookie_c.specs.Explanations.{suffixes_of};
ghost use Rattle.cookie_c.specs.Urls.{IsReport, IsReportBy};

use crate::answer::Answer;
use crate::handle::with_content;
use crate::sessions::time::time_at;
use crate::status::Status;
use cookie_browser::Suffixes;
use cookie_report::{ReportError, report};
use jiff::civil::DateTime;
use std::alloc::Global;

/// What the program `cookie_explain` writes after its first line: for each line of the paste that counts what a browser
/// makes of it, and last the `Cookie` header of the next request. It is for the buffer. The first lines come from the
/// URL, at the time `now`, in seconds since 1970 in UTC. With `is_cross_site` another site's page made the request. The
/// rules are as before.
///
/// Refuses a handle without rules, then a time after 9999-12-30 22:00:00, then a URL that isn't UTF-8, and then one that
/// isn't of `https` or `http`. So it refuses an address of a line, or the word after it, and a line's time that is no
/// date. It may also run out of memory.
#[unsafe(no_mangle)]
pub extern "C" fn cookie_explain_lines(
    alloc: Global,
    suffixes: &mut crate::suffixes::Suffixes,
    url: &[u8],
    is_cross_site: bool,
    now: u64,
    paste: &[u8],
    out: &mut [u8],
) -> Answer
    ensures kept { suffixes_of suffixes.new ≡ suffixes_of suffixes.old }
    ensures told { IsReportBy (suffixes_of suffixes.old) url.now now result out.old out.new }
{
    with_content!(alloc, suffixes.handle,
        Suffixes(rules) => report_by(alloc, rules, url, is_cross_site, now, paste, out),
        _ => Answer::refusal(Status::NoSuffixes),
    )
}

fn report_by(
    alloc: Global,
    suffixes: &Suffixes,
    url: &[u8],
    is_cross_site: bool,
    now: u64,
    paste: &[u8],
    out: &mut [u8],
) -> Answer
    ensures { IsReportBy (Some suffixes.now) url.now now result out.old out.new }
{
    match time_at(now) {
        Some(now) => report_at(alloc, suffixes, url, is_cross_site, now, paste, out),
        None => Answer::refusal(Status::NoDate),
    }
}

fn report_at(
    alloc: Global,
    suffixes: &Suffixes,
    url: &[u8],
    is_cross_site: bool,
    now: DateTime,
    paste: &[u8],
    out: &mut [u8],
) -> Answer
    ensures { IsReport url.now result out.old out.new }
{
    let Ok(url) = str::from_utf8(url) else {
        return Answer::refusal(Status::NotUtf8);
    };
    match report(alloc, suffixes, url, is_cross_site, now, paste) {
        Ok(text) => Answer::give(&text, out),
        Err(error) => Answer::refusal(status_of(error)),
    }
}

// Why there is no report.
fn status_of(error: ReportError) -> Status {
    match error {
        ReportError::NoUrl | ReportError::NoContext => Status::NoUrl,
        ReportError::NoDate => Status::NoDate,
        ReportError::OutOfMemory => Status::OutOfMemory,
    }
}
