//! What came of a session over header maps.
use crate::carried::Carried;
use cookie_session::Opened;

/// What came of a session over header maps.
#[derive(Drop)]
pub struct Returned {
    /// The response and the client's next request.
    pub carried: Carried,
    /// The session that this request opens, if it opens one.
    pub opened: Option<Opened>,
}
