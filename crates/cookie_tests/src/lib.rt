//! Tests of what no row of `cookie_vectors` can say: what is drawn or timed, streams that fail, values of Rust, and
//! sessions that are revoked in a file. They are a crate of their own, since a crate with tests is proved twice.
#![tactic(auto)]

#[cfg(test)]
mod agents;
#[cfg(test)]
mod collisions;
#[cfg(test)]
mod cookies;
#[cfg(test)]
mod draws;
#[cfg(test)]
mod jars;
#[cfg(test)]
mod moment;
#[cfg(test)]
mod orders;
#[cfg(test)]
mod raw_forms;
#[cfg(test)]
mod revocations;
#[cfg(test)]
mod rings;
#[cfg(test)]
mod streams;
#[cfg(test)]
mod values;
#[cfg(test)]
mod visits;
