//! Texts that are sealed and opened.
ghost use Rattle.std.specs.Prelude.{◌≡◌, ◌↔◌, IsTrue, length};
ghost use Rattle.cookie_crypt.specs.Gcm.{IsWithin};

use anyhow::Result;
use cookie_crypt::{Gcm, PreparedGcm, Steps};

/// Seals a text in place and opens it again. It is then the same text, and only one that is too long is refused.
pub fn comes_back(key: &[u8; 32], nonce: &[u8; 12], name: &[u8], text: &mut [u8]) -> bool
    ensures same { text.new ≡ text.old }
    ensures limits { IsTrue result ↔ IsWithin (length name.now) (length text.old) }
{
    let cipher = Gcm::new(key);
    let mut steps = Steps::new();
    match cipher.seal_in_place(nonce, name, text, &mut steps) {
        Some(tag) => cipher.open_in_place(nonce, name, text, &tag, &mut steps),
        None => false,
    }
}

/// Seals two texts in place under one key, each under a nonce of its own, and opens them again. The key's hash subkey is
/// made once.
pub fn both_come_back(
    key: &[u8; 32],
    nonces: &[[u8; 12]; 2],
    name: &[u8],
    first: &mut [u8],
    second: &mut [u8],
) -> bool
    ensures same_first { first.new ≡ first.old }
    ensures same_second { second.new ≡ second.old }
{
    let cipher = PreparedGcm::new(key);
    is_back(&cipher, &nonces[0], name, first) && is_back(&cipher, &nonces[1], name, second)
}

// Whether the text is sealed, and opened again.
fn is_back(cipher: &PreparedGcm, nonce: &[u8; 12], name: &[u8], text: &mut [u8]) -> bool
    ensures same { text.new ≡ text.old }
    ensures limits { IsTrue result ↔ IsWithin (length name.now) (length text.old) }
{
    let mut steps = Steps::new();
    match cipher.seal_in_place(nonce, name, text, &mut steps) {
        Some(tag) => cipher.open_in_place(nonce, name, text, &tag, &mut steps),
        None => false,
    }
}

pub fn print(rt: &HostRuntime) -> Result<()> {
    let (mut text, mut other) = ([1, 2, 3], [4, 5]);
    let is_back = comes_back(&[7; 32], &[9; 12], b"name", &mut text);
    println!(rt; "comes back: {is_back}")?;
    let nonces = [[1; 12], [2; 12]];
    let are_back = both_come_back(&[7; 32], &nonces, b"name", &mut text, &mut other);
    println!(rt; "both come back: {are_back}")?;
    Ok(())
}
