//! The report on a paste.
ghost use Rattle.std.specs.Prelude.{IfOk};
ghost use Rattle.cookie_report.specs.Addresses.{IsAddress};

use crate::error::ReportError;
use crate::paste::counted_lines;
use crate::session::Session;
use crate::target::{from_frame, site};
use cookie_browser::Suffixes;
use jiff::civil::DateTime;
use std::alloc::Global;

/// Says of each line of the paste that counts what a browser makes of it, and last which `Cookie` header the next
/// request to the last address has. The first lines come from `url`, at the time `now`. With `is_cross_site` another
/// site's page made the request, as a frame, an image or a script does.
///
/// Refuses an address without a host, a word that no line has after its address, and a time that is no date. It may
/// also run out of memory.
pub fn report(
    alloc: Global,
    suffixes: &Suffixes,
    url: &str,
    is_cross_site: bool,
    now: DateTime,
    paste: &[u8],
) -> Result<Vec<u8>, ReportError>
    ensures { IfOk result (λ _. IsAddress url.now) }
{
    let mut response = site(alloc, url)?;
    if is_cross_site {
        response = response.with_context(from_frame());
    }
    let mut session = Session::new(alloc, suffixes, response, now);
    let mut text = Vec::new(alloc);
    for line in &counted_lines(alloc, paste)? {
        text.extend_from_slice(&session.answer(line)?)?;
    }
    text.extend_from_slice(&session.next_header()?)?;
    Ok(text)
}
