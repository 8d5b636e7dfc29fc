//! The expansion of a key by HMAC-SHA256 (RFC 5869 2.3).
ghost use Rattle.std.specs.Prelude.{◌≡◌, ◌++◌};
ghost use Rattle.cookie_crypt.specs.Expand.{expand64};

use crate::mac::hmac;

fn join(first: &[u8; 32], second: &[u8; 32]) -> [u8; 64]
    ensures { result ≡ first.now ++ second.now }
{
    let mut bytes = [0; 64];
    for i in 0..64usize {
        bytes[i] = if i < 32 { first[i] } else { second[i - 32] };
    }
    bytes
}

/// The first 64 bytes of the expansion of `prk`, a pseudorandom key, with `info` (RFC 5869 2.3). `prk` must be
/// random, of at least 32 bytes.
pub fn expand64(prk: &[u8], info: &[u8]) -> [u8; 64]
    ensures { result ≡ expand64 prk.now info.now }
{
    let first = hmac(prk, &[info, &[1]]);
    let second = hmac(prk, &[&first, info, &[2]]);
    join(&first, &second)
}
