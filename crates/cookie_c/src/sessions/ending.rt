//! Ending a session for C.
ghost use Rattle.std.specs.Prelude.{◌≡◌, true, false, Some};
ghost use Rattle.cookie.specs.Removal.{removal};
ghost use Rattle.cookie.specs.Text.{cookie_text};
ghost use Rattle.cookie_c.specs.Answers.{IsGivenInMemory, IsRefused};
ghost use Rattle.cookie_c.specs.Sites.{AtSite, site_of};

use super::site::Site;
use super::time::time_at;
use crate::answer::Answer;
use crate::handle::with_content;
use crate::print::give_text;
use crate::status::Status;
use std::alloc::Global;

/// Ends a session. The value of the `Set-Cookie` header that has the client drop the site's cookie, with the path and
/// the domain that the site sets, is for the buffer. A copy of the cookie stays open until the session's limits, unless
/// the caller revokes the session: keeps its id, and passes it in as revoked. `now` is the time in seconds since 1970 in
/// UTC.
///
/// Refuses a handle without sessions, and then a time after 9999-12-30 22:00:00. It may also run out of memory.
#[unsafe(no_mangle)]
pub extern "C" fn cookie_session_end(
    alloc: Global,
    sessions: &mut super::Sessions,
    now: u64,
    out: &mut [u8],
) -> Answer
    ensures kept { site_of sessions.new ≡ site_of sessions.old }
    ensures ended { AtSite (site_of sessions.old) now
        (λ site time. IsGivenInMemory
        (cookie_text true false (removal time site.cookie.now.fields)) result out.old out.new)
        (λ why. IsRefused why result out.old out.new) }
{
    with_content!(alloc, sessions.handle,
        Sessions(site) => end(alloc, site, now, out),
        _ => Answer::refusal(Status::NoSessions),
    )
}

fn end(alloc: Global, site: &Site, now: u64, out: &mut [u8]) -> Answer
    ensures { AtSite (Some site.now) now
        (λ site time. IsGivenInMemory
        (cookie_text true false (removal time site.cookie.now.fields)) result out.old out.new)
        (λ why. IsRefused why result out.old out.new) }
{
    let Some(time) = time_at(now) else {
        return Answer::refusal(Status::NoDate);
    };
    let Ok(mut cookie) = site.sessions().cookie.clone(alloc) else {
        return Answer::refusal(Status::OutOfMemory);
    };
    cookie.make_removal(time);
    give_text(alloc, &cookie, true, out)
}
