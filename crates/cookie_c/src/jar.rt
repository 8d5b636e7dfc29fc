//! A jar in a handle of C.

pub(crate) mod calls;
pub(crate) mod texts;

use crate::handle::Handle;

/// A handle of a jar.
#[repr(C)]
#[derive(Drop)]
pub struct Jar {
    /// What has the jar.
    pub handle: Handle,
}
