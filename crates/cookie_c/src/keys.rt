//! Keys in a handle of C.
ghost use Rattle.std.specs.Prelude.{◌≡◌, None};
ghost use Rattle.cookie_c.specs.Handles.{Tells};
ghost use Rattle.cookie_c.specs.Keys.{MakesKeys, keys_of};

pub(crate) mod ring;

use crate::handle::Handle;
use crate::handle::content::Content;
use crate::status::Status;
use ring::{has_keys, ring_of};
use std::alloc::Global;

/// A handle of keys that are ready: what a call needs of each is made once.
#[repr(C)]
#[derive(Drop)]
pub struct Keys {
    /// What has the keys.
    pub handle: Handle,
}

/// Puts keys into the handle, and frees those that it had, if it had some. `bytes` are 64 random bytes of each key, one
/// key after the other, the newest first. The newest signs, seals and makes tokens, and each of them verifies, opens
/// and reads.
///
/// Refuses with `KeyTooShort` bytes that aren't 64 of each key, or none. It may also run out of memory. After a refusal
/// the handle is as before.
#[unsafe(no_mangle)]
pub extern "C" fn cookie_keys_new(alloc: Global, bytes: &[u8], keys: &mut Keys) -> u32
    ensures { Tells (λ answer. MakesKeys bytes.now answer
        (keys_of keys.old) (keys_of keys.new)) result }
{
    put_keys(alloc, bytes, keys).code()
}

fn put_keys(alloc: Global, bytes: &[u8], keys: &mut Keys) -> Status
    ensures { MakesKeys bytes.now result (keys_of keys.old) (keys_of keys.new) }
{
    if !has_keys(bytes) {
        return Status::KeyTooShort;
    }
    match ring_of(alloc, bytes) {
        Ok(ring) => keys.handle.set(alloc, Content::Keys(ring)),
        Err(_) => Status::OutOfMemory,
    }
}

/// Frees the handle's keys, if it has some. The handle has none then.
#[unsafe(no_mangle)]
pub extern "C" fn cookie_keys_free(alloc: Global, keys: &mut Keys)
    ensures { keys.new.handle.held.content ≡ None }
{
    keys.handle.free(alloc);
}
