//! One request of a user agent.
use cookie_agent::Site;
use cookie_client::JarCall;
use jiff::civil::DateTime;

/// One request of a user agent, and the calls that its response comes from.
#[derive(Drop)]
pub struct AgentRequest<'a, 'k> {
    /// Where it goes.
    pub site: &'a Site,
    /// The calls on its jar, in the order in which they are made.
    pub calls: &'a [JarCall<'k>],
    /// When it is made and answered, in UTC.
    pub moment: DateTime,
}
