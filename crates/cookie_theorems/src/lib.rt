//! What holds over many requests: of a jar and its client, of a user agent, and of sessions.
//!
//! Each theorem is a function in the file of its name.
#![tactic(auto)]

mod act;
mod agent_request;
mod carried;
mod carrying;
mod client;
mod event;
pub mod exchange;
mod exchanged;
mod handling;
pub mod open_for_agent;
mod plan;
mod return_error;
mod returned;
pub mod revoke_and_open;
pub mod save_and_return;
pub mod save_over_headers;
pub mod serve;
mod site_request;
mod visited;
pub mod visits;

pub use act::Act;
pub use agent_request::AgentRequest;
pub use carried::Carried;
pub use client::{cookie_of_client, read_response};
pub use event::Event;
pub use exchanged::Exchanged;
pub use handling::Handling;
pub use plan::Plan;
pub use return_error::ReturnError;
pub use returned::Returned;
pub use site_request::SiteRequest;
pub use visited::Visited;
