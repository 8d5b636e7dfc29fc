//! What a handle of C can have.

use crate::sessions::opened_sessions::OpenedSessions;
use crate::sessions::site::Site;
use cookie::CookieJar;
use cookie_agent::Store;
use cookie_browser::Suffixes;
use cookie_session::{KeyRing, Visit};

/// What a handle has.
#[derive(Drop)]
pub enum Content {
    /// A jar.
    Jar(CookieJar),
    /// The keys of a site.
    Keys(KeyRing),
    /// How a site keeps its sessions.
    Sessions(Site),
    /// The sessions that a request has open.
    Opened(OpenedSessions),
    /// The session of a request.
    Session(Visit),
    /// The rules of a list of public suffixes.
    Suffixes(Suffixes),
    /// What a user agent stores.
    Store(Store),
}
