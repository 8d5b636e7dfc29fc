//! Why a user agent with choices refuses a cookie.
use cookie_browser::{Beyond, Refusal};

/// Why a [`BrowserAgent`](crate::BrowserAgent) refuses a cookie.
#[derive(Clone, Copy, Debug, PartialEq, Eq)]
pub enum BrowserRefusal {
    /// A step of the standard.
    Standard(Refusal),
    /// One of the choices.
    Beyond(Beyond),
}
