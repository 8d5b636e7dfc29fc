//! A cookie as a programmer sees it.
use crate::cookie::Cookie;
use std::fmt;

/// Prints each field under its name, the value too, for `assert_eq!`, `{:?}` and derives. No contract says more of the
/// text.
impl<'c> fmt::Debug for Cookie<'c> {
    fn fmt<W: fmt::Write>(&self, f: &mut fmt::Formatter<W>) -> fmt::Result {
        f.debug_struct("Cookie")
            .field("name", &self.name())
            .field("value", &self.value())
            .field("http_only", &self.http_only())
            .field("secure", &self.secure())
            .field("partitioned", &self.partitioned())
            .field("same_site", &self.same_site())
            .field("path", &self.path())
            .field("domain", &self.domain())
            .field("max_age", &self.max_age())
            .field("expires", &self.expires())
            .finish()
    }
}
