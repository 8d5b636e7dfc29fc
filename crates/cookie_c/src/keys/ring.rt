//! The keys of a site that C passes in, one after the other.
ghost use Rattle.std.specs.Prelude.{IfOk, IsTrue, ◌↔◌};
ghost use Rattle.cookie_c.specs.Keys.{AreKeys, HasKeys};

use cookie::Key;
use cookie_session::KeyRing;
use std::alloc::{AllocError, Global};

// The number of bytes of a key.
const KEY_LENGTH: usize = 64;

// Whether the bytes are one key or more.
pub(crate) fn has_keys(bytes: &[u8]) -> bool
    ensures { IsTrue result ↔ HasKeys bytes.now }
{
    !bytes.is_empty() && bytes.len() % KEY_LENGTH == 0
}

// The ring of these keys, the first one the newest.
pub(crate) fn ring_of(alloc: Global, bytes: &[u8]) -> Result<KeyRing, AllocError>
    requires { HasKeys bytes.now }
    ensures { IfOk result (λ ring. AreKeys bytes.now ring) }
{
    let mut ring = KeyRing::new(alloc, Key::from(bytes))?;
    let mut rest = &bytes[KEY_LENGTH..];
    while rest.len() >= KEY_LENGTH {
        ring.add_older(Key::from(rest))?;
        rest = &rest[KEY_LENGTH..];
    }
    Ok(ring)
}
