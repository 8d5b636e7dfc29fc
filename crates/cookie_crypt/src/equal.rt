//! A comparison of bytes that doesn't end at the first one that differs.
ghost use Rattle.std.specs.Prelude.{◌≡◌, ◌↔◌, IsTrue};

/// Whether the bytes are the same. It looks at each byte of both wherever they differ, but says at once that bytes of
/// two lengths differ.
pub fn are_equal(first: &[u8], second: &[u8]) -> bool
    ensures { IsTrue result ↔ (first.now ≡ second.now) }
{
    if first.len() != second.len() {
        return false;
    }
    let mut differences = 0;
    for i in 0..first.len() {
        differences |= first[i] ^ second[i];
    }
    differences == 0
}
