//! A user agent that keeps cookies as browsers do (RFC 6265bis).
#![tactic(auto)]

mod agent;
mod browser_agent;
mod browser_cookie;
mod browser_refusal;
mod bytes;
mod context;
mod cookies;
mod domain_index;
mod expiries;
mod group;
mod header;
mod in_turn;
mod key;
mod limits;
mod nanos;
mod obstacle;
mod overlaid;
mod ranked;
mod rows;
mod saved;
mod scope;
mod site;
mod slots;
mod store;
mod stored;
mod summed;
mod trim;
mod verdict;

pub use agent::Agent;
pub use browser_agent::BrowserAgent;
pub use browser_cookie::BrowserCookie;
pub use browser_refusal::BrowserRefusal;
pub use context::RequestContext;
pub use cookies::Cookies;
pub use limits::Limits;
pub use obstacle::Obstacle;
pub use saved::{LoadedCookies, SavedCookies, SavedForm};
pub use scope::Scope;
pub use site::Site;
pub use store::Store;
pub use stored::StoredCookie;
pub use verdict::Verdict;
