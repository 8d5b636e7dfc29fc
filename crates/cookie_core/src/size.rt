//! How much of a cookie a browser takes.

/// The most bytes of a name and a value, in all, that a browser takes (RFC 6265bis 5.7).
pub const MOST_BYTES: usize = 4096;
