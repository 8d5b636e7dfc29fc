//! What came of an act.
use cookie_session::{Pass, SessionError};

/// What came of an act, as its call returned it.
#[derive(Clone, Copy, Debug, PartialEq, Eq)]
pub enum Event {
    /// A save revoked the first pass, and then a cookie with the second was given out.
    Replaced(Pass, Pass),
    /// A logout revoked the pass, and returned `Ended`.
    Ended(Pass),
    /// The store failed in a save or a logout: the pass may be revoked.
    Unsure(Pass),
    /// A save or a logout came to nothing, since the pass was over, or revoked already.
    Gone(Pass),
    /// The visitor who logs out has no session.
    Nobody,
    /// The call failed so, and revoked nothing.
    Refused(SessionError),
    /// The store failed when a request was opened, or when what is over was to be forgotten.
    Failed,
    /// What is over was forgotten.
    Forgotten,
    /// The rest: a session was opened, started or changed, was saved in the place of its own, or needn't be saved. Or
    /// there is no such visit any more.
    Plain,
}
