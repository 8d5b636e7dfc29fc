//! The sessions that a request has open, for C.
ghost use Rattle.std.specs.Prelude.{◌≡◌, Some};
ghost use Rattle.cookie.specs.Originals.{field_cookies};
ghost use Rattle.cookie_c.specs.Answers.{IsGivenInMemory};
ghost use Rattle.cookie_c.specs.Handles.{IsKept, Reads, Tells};
ghost use Rattle.cookie_c.specs.OpenedSessions.{AreOpening, opened_of};
ghost use Rattle.cookie_c.specs.Revoked.{bytes_of_ids};
ghost use Rattle.cookie_c.specs.Sites.{AtSite, site_of};
ghost use Rattle.cookie_c.specs.declared.status.Status.TheVariants as status;

use super::opened_sessions::OpenedSessions;
use super::site::Site;
use super::time::time_at;
use super::{Opened, Sessions};
use crate::answer::Answer;
use crate::handle::content::Content;
use crate::handle::with_content;
use crate::status::Status;
use cookie::field_cookies;
use std::alloc::Global;

/// Opens each session that a request has open: puts them into the handle `opened`, in the order of the cookies with the
/// site's name, and frees those that it had, if it had some. `header` is the value of the request's `Cookie` header. A
/// piece of it that isn't UTF-8 or isn't a cookie is skipped. Each cookie is decrypted once. `now` is the time in seconds
/// since 1970 in UTC.
///
/// Refuses a handle without sessions, and then a time after 9999-12-30 22:00:00. It may also run out of memory. After a
/// refusal `opened` is as before.
#[unsafe(no_mangle)]
pub extern "C" fn cookie_opened_new(
    alloc: Global,
    sessions: &mut Sessions,
    header: &[u8],
    now: u64,
    opened: &mut Opened,
) -> u32
    ensures kept { site_of sessions.new ≡ site_of sessions.old }
    ensures opens { Tells (λ answer. AtSite (site_of sessions.old) now
        (λ site time. AreOpening site (field_cookies header.now) time answer
        (opened_of opened.old) (opened_of opened.new))
        (λ why. IsKept why answer (opened_of opened.old) (opened_of opened.new))) result }
{
    open_all(alloc, sessions, header, now, opened).code()
}

/// The ids of the handle's opened sessions, sixteen bytes each, one after the other, for the buffer. The handle is as
/// before.
///
/// Refuses a handle without opened sessions. Else it fails only when memory runs out.
#[unsafe(no_mangle)]
pub extern "C" fn cookie_opened_ids(alloc: Global, opened: &mut Opened, out: &mut [u8]) -> Answer
    ensures kept { opened_of opened.new ≡ opened_of opened.old }
    ensures given { Reads status.NoSession (λ all. IsGivenInMemory (bytes_of_ids all))
        (opened_of opened.old) result out.old out.new }
{
    with_content!(alloc, opened.handle,
        Opened(all) => give_ids(alloc, all, out),
        _ => Answer::refusal(Status::NoSession),
    )
}

// Opens each session that a request has open.
fn open_all(
    alloc: Global,
    sessions: &mut Sessions,
    header: &[u8],
    now: u64,
    opened: &mut Opened,
) -> Status
    ensures kept { site_of sessions.new ≡ site_of sessions.old }
    ensures opens { AtSite (site_of sessions.old) now
        (λ site time. AreOpening site (field_cookies header.now) time result
        (opened_of opened.old) (opened_of opened.new))
        (λ why. IsKept why result (opened_of opened.old) (opened_of opened.new)) }
{
    with_content!(alloc, sessions.handle,
        Sessions(site) => open_all_at(alloc, site, header, now, opened),
        _ => Status::NoSessions,
    )
}

// Opens each session that a request has open, by the sessions of this site.
fn open_all_at(alloc: Global, site: &Site, header: &[u8], now: u64, opened: &mut Opened) -> Status
    ensures { AtSite (Some site.now) now
        (λ site time. AreOpening site (field_cookies header.now) time result
        (opened_of opened.old) (opened_of opened.new))
        (λ why. IsKept why result (opened_of opened.old) (opened_of opened.new)) }
{
    let Some(time) = time_at(now) else {
        return Status::NoDate;
    };
    let sessions = site.sessions();
    let Ok(cookies) = field_cookies(alloc, header) else {
        return Status::OutOfMemory;
    };
    match sessions.open_all(alloc, &cookies, time) {
        Ok(all) => {
            let content = Content::Opened(OpenedSessions::of(all));
            opened.handle.set(alloc, content)
        }
        Err(_) => Status::OutOfMemory,
    }
}

fn give_ids(alloc: Global, all: &OpenedSessions, out: &mut [u8]) -> Answer
    ensures { IsGivenInMemory (bytes_of_ids all.now) result out.old out.new }
{
    match all.ids(alloc) {
        Ok(ids) => Answer::give(&ids, out),
        Err(_) => Answer::refusal(Status::OutOfMemory),
    }
}
