//! A stored cookie with its place in the order of creation, and what it is counted by.
use crate::stored::StoredCookie;
use crate::summed::Summed;

// A stored cookie with its place in the order of creation, and the text that it is counted by.
#[derive(Drop)]
pub(crate) struct Ranked<'a> {
    pub(crate) place: usize,
    pub(crate) text: Summed<'a>,
    pub(crate) cookie: &'a StoredCookie,
}
