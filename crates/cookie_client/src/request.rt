//! The calls of one request.
use crate::call::JarCall;

/// The calls that one request makes on its jar. The times of its removals are in UTC.
#[derive(Drop)]
pub struct ClientRequest<'a, 'k> {
    /// The calls, in the order in which they are made.
    pub calls: &'a [JarCall<'k>],
}
