//! A client that reads cookies, and the engine of the program `cookiejar`.
#![tactic(auto)]

mod call;
mod child_call;
mod client;
mod client_error;
mod engine;
mod exchange;
mod history;
mod lines;
mod live;
mod order;
mod originals;
mod prefix_kind;
mod request;
mod requests;
mod run_error;
mod streams;
mod texts;

pub use call::JarCall;
pub use child_call::ChildCall;
pub use client::Client;
pub use client_error::ClientError;
pub use engine::{moment_of, run, run_with_hasher};
pub use exchange::{Played, mirror, read_delta};
pub use history::replay;
pub use live::is_live;
pub use originals::replay_told;
pub use prefix_kind::PrefixKind;
pub use request::ClientRequest;
pub use requests::rounds;
pub use run_error::RunError;
pub use texts::delta_texts;
