//! Rings of keys and a signed text.
use cookie::Key;
use cookie_session::KeyRing;
use std::alloc::Global;
use std::test::Fail;

// `ann`, signed under the name `session` by Python's hmac (RFC 2104), by a key of 64 bytes 7.
const SIGNED: &str = "NvMJPGGedIZu2iNekl8aOy1pBraL9cBNvEd+vBgzJJs=ann";

// What a ring of two other keys and this one, as its oldest, verifies.
fn verified(alloc: Global, oldest: u8, name: &str) -> Option<&'static str> {
    let mut keys = KeyRing::new(alloc, Key::from(&[1; 64])).ok()?;
    keys.add_older(Key::from(&[2; 64])).ok()?;
    keys.add_older(Key::from(&[oldest; 64])).ok()?;
    keys.verify_text(name, SIGNED)
}

#[test]
fn a_ring_verifies_what_one_of_its_keys_signed(rt: HostRuntime) {
    assert!(rt; verified(rt.alloc(), 7, "session") == Some("ann"));
    assert!(rt; verified(rt.alloc(), 8, "session") == None);
    assert!(rt; verified(rt.alloc(), 7, "other") == None);
}

// The padded base64 of 64 bytes 7, by Python's base64.
const TEXT: &str =
    "BwcHBwcHBwcHBwcHBwcHBwcHBwcHBwcHBwcHBwcHBwcHBwcHBwcHBwcHBwcHBwcHBwcHBwcHBwcHBwcHBwcHBw==";

#[test]
fn a_ring_is_read_from_a_text_or_made_of_keys(rt: HostRuntime) -> Result<(), Fail> {
    let read = KeyRing::from_text(rt.alloc(), TEXT)?;
    assert!(rt; read.verify_text("session", SIGNED) == Some("ann"));
    let mut keys = Vec::new(rt.alloc());
    keys.push(Key::from(&[7; 64]))?;
    let made = KeyRing::from_keys(keys);
    assert!(rt; made.is_some_and(|ring| ring.verify_text("session", SIGNED).is_some()));
    Ok(())
}
