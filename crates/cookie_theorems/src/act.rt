//! What the handlers of a site do.
use crate::site_request::SiteRequest;
use cookie_session::Sessions;
use jiff::civil::DateTime;

/// What the handlers of a site do. Each visit is named by its place among all that were opened so far. So what one
/// request does may come between what others do, at any age of its visit, and at any of its sessions' keys and limits.
/// Times are in UTC.
#[derive(Clone, Copy)]
pub enum Act<'a> {
    /// A request is opened ([`Sessions::visit`]), and its visit comes after those of earlier requests.
    Open(SiteRequest<'a>),
    /// The visit's session is renewed ([`Visit::renew`](cookie_session::Visit::renew)).
    Renew(usize, Sessions<'a>, DateTime),
    /// The visit's session is started anew without texts ([`Visit::restart`](cookie_session::Visit::restart)).
    Restart(usize, Sessions<'a>, DateTime),
    /// A copy of the second text is put at the first ([`Visit::set`](cookie_session::Visit::set)).
    Write(usize, &'a str, &'a str),
    /// The visit's session is saved if it must be ([`Sessions::save_if_needed`]).
    Save(usize, Sessions<'a>, DateTime),
    /// The visitor is logged out ([`Sessions::log_out`]), which ends the visit.
    LogOut(usize, Sessions<'a>, DateTime),
    /// What is over in this second is forgotten ([`Revocations::forget`](cookie_session::Revocations::forget)).
    Forget(u64),
}
