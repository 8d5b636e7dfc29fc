use cookie_core::{Cookie, ParseError, SplitCookies};
use std::alloc::Global;

/// How the calls of a row are made. Each way has to return the same.
#[derive(Clone, Copy, Debug, PartialEq, Eq)]
pub enum Way {
    /// By the calls that borrow their texts.
    Borrowing,
    /// So too, with a clone of the cookie after each call.
    Cloning,
    /// By the calls that take owned strings.
    Owning,
    /// By `from_str` and the calls that borrow, with a copy that owns its texts after each call.
    Detaching,
}

impl Way {
    pub const ALL: [Way; 4] = [Way::Borrowing, Way::Cloning, Way::Owning, Way::Detaching];

    /// Whether the cookie owns its texts after each call.
    pub fn owns(self) -> bool {
        self == Way::Owning || self == Way::Detaching
    }

    /// Replaces the cookie by its copy, in a way that has one after each call.
    pub fn copy(self, alloc: Global, cookie: &mut Cookie<'_>) -> Option<()> {
        match self {
            Way::Borrowing | Way::Owning => {}
            Way::Cloning => *cookie = cookie.clone(alloc).ok()?,
            Way::Detaching => *cookie = cookie.clone(alloc).ok()?.into_owned(alloc).ok()?,
        }
        Some(())
    }

    pub fn parse(self, alloc: Global, text: &str) -> Result<Cookie<'_>, ParseError> {
        match self {
            Way::Borrowing | Way::Cloning => Cookie::parse(text),
            Way::Owning => Cookie::parse_owned(String::from_str(alloc, text)?),
            Way::Detaching => Cookie::from_str(alloc, text),
        }
    }

    pub fn parse_encoded(self, alloc: Global, text: &str) -> Result<Cookie<'_>, ParseError> {
        match self {
            Way::Owning => Cookie::parse_encoded_owned(alloc, String::from_str(alloc, text)?),
            _ => Cookie::parse_encoded(alloc, text),
        }
    }

    pub fn split_parse(self, alloc: Global, text: &str) -> Option<SplitCookies<'_>> {
        Some(match self {
            Way::Owning => Cookie::split_parse_owned(alloc, String::from_str(alloc, text).ok()?),
            _ => Cookie::split_parse(text),
        })
    }

    pub fn split_parse_encoded(self, alloc: Global, text: &str) -> Option<SplitCookies<'_>> {
        if self == Way::Owning {
            let text = String::from_str(alloc, text).ok()?;
            return Some(Cookie::split_parse_encoded_owned(alloc, text));
        }
        Some(Cookie::split_parse_encoded(alloc, text))
    }
}
