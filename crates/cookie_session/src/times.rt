//! The times and limits of a session.

/// When a session started, the limits that it started with, and when it was last saved.
#[derive(Clone, Copy)]
pub(crate) struct Times {
    /// The second in which it started, since 1970 in UTC.
    pub started: u64,
    /// The second in which it is over, however it is used.
    pub end: u64,
    /// The seconds that it lives after it was last saved.
    pub idle: u64,
    /// The second in which it was last saved.
    pub seen: u64,
}
