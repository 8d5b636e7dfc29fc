//! Which sessions are revoked, in an SQLite database or in memory.
#![tactic(auto)]

mod memory_revocations;
mod revocation_error;
mod rowids;
mod schema;
mod sqlite_revocations;
mod statements;

pub use memory_revocations::MemoryRevocations;
pub use revocation_error::RevocationError;
pub use sqlite_revocations::SqliteRevocations;
