//! The authentication hash of GCM, in Horner's order (SP 800-38D 6.4).
ghost use Rattle.std.specs.Prelude.{◌≡◌, ◌<◌, ◌+◌, ◌*◌, ◌^◌, length};
ghost use Rattle.cookie_crypt.specs.Gcm.{blocks};
ghost use Rattle.cookie_crypt.specs.Ghash.{ghash_from};
ghost use Rattle.cookie_crypt.specs.Steps.{block_count, with_products};

use crate::block::block_at;
use crate::multiples::Multiples;
use crate::steps::Steps;

/// The hash after the padded blocks of the data, from what it was before them.
pub(crate) fn hash_from(hash: u128, multiples: &Multiples, bytes: &[u8], steps: &mut Steps) -> u128
    requires room { steps.old.products + block_count (length bytes.now) < 2 ^ 64 }
    requires room_for_steps { steps.old.table_steps + 32 * block_count (length bytes.now) < 2 ^ 64 }
    ensures made { result ≡ ghash_from multiples.now hash (blocks bytes.now) }
    ensures counted { steps.new ≡ with_products (block_count (length bytes.now)) steps.old }
{
    let mut sum = hash;
    for i in 0..bytes.len().div_ceil(16) {
        sum = steps.product(multiples, sum ^ block_at(bytes, i));
    }
    sum
}
