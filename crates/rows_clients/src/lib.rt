//! What plays the rows on clients that follow jars, and on runs of the program `cookiejar`. `calls_of` reads calls on jars
//! for other players too.
#![tactic(auto)]

mod calls;
mod clients;
mod runs;

pub use calls::calls_of;
pub use clients::Clients;
pub use runs::Runs;
