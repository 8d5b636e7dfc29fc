//! The texts of answers.
use crate::cookie_words::words;
use crate::escapes::Escaped;
use crate::step::{Answer, Step};
use cookie_core::Cookie;
use std::fmt::{Debug, Display};

impl Step<'_> {
    /// The text.
    pub fn said(self, text: &str) -> Answer {
        String::from_str(self.alloc, text).ok()
    }

    /// `done`.
    pub fn done(self) -> Answer {
        self.said("done")
    }

    /// `yes` or `no`.
    pub fn yes(self, is_so: bool) -> Answer {
        self.said(if is_so { "yes" } else { "no" })
    }

    /// The value's text.
    pub fn printed<T: Display + Drop>(self, value: T) -> Answer {
        format!(in self.alloc; "{value}").ok()
    }

    /// The value's text, or `-` if there is none.
    pub fn optional<T: Display + Drop>(self, value: Option<T>) -> Answer {
        match value {
            Some(value) => self.printed(value),
            None => self.said("-"),
        }
    }

    /// The bytes with their escapes.
    pub fn escaped(self, bytes: &[u8]) -> Answer {
        format!(in self.alloc; "{}", Escaped(bytes)).ok()
    }

    /// `NAME=VALUE` with escapes.
    pub fn pair(self, name: &str, value: &str) -> Answer {
        let (name, value) = (Escaped(name.as_bytes()), Escaped(value.as_bytes()));
        format!(in self.alloc; "{name}={value}").ok()
    }

    /// The bytes with their escapes, or `-` if there are none.
    pub fn shown(self, bytes: &[u8]) -> Answer {
        self.escaped(if bytes.is_empty() { b"-" } else { bytes })
    }

    /// The cookie's words, or `-` if there is none.
    pub fn found(self, cookie: Option<&Cookie<'_>>) -> Answer {
        match cookie {
            Some(cookie) => words(self.alloc, cookie),
            None => self.said("-"),
        }
    }

    /// `refused`, and the name of the refusal.
    pub fn refused<E: Debug>(self, refusal: &E) -> Answer {
        format!(in self.alloc; "refused {refusal:?}").ok()
    }

    /// `done`, or the refusal.
    pub fn outcome<E: Debug + Drop>(self, outcome: Result<(), E>) -> Answer {
        match outcome {
            Ok(()) => self.done(),
            Err(refusal) => self.refused(&refusal),
        }
    }

    /// The parts with ` | ` between them, or `-` if there are none.
    pub fn list(self, parts: &[String]) -> Answer {
        if parts.is_empty() {
            return self.said("-");
        }
        parts.join(self.alloc, " | ").ok()
    }

    /// The parts, joined in the order of their bytes.
    pub fn sorted(self, mut parts: Vec<String>) -> Answer {
        parts.sort().ok()?;
        self.list(&parts)
    }

    /// The answer of both, or else both.
    pub fn same(self, one: Answer, other: Answer) -> Answer {
        let (one, other) = (one?, other?);
        if one == other {
            return Some(one);
        }
        format!(in self.alloc; "{one} or {other}").ok()
    }
}
