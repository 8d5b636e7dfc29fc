//! Calls on a child jar, as values.
use cookie::Cookie;
use jiff::civil::DateTime;

/// A call on a child jar.
#[derive(Drop)]
pub enum ChildCall {
    /// Adds an original cookie.
    AddOriginal(Cookie<'static>),
    /// Adds a cookie.
    Add(Cookie<'static>),
    /// Removes the cookie's name at a time in UTC.
    Remove(Cookie<'static>, DateTime),
}
