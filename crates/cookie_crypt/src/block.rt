//! Blocks of sixteen bytes: as numbers, as counters (SP 800-38D 6.2), and of padded data.
ghost use Rattle.std.specs.Prelude.{◌≡◌, ◌<◌, ◌≤◌, ◌+◌, ◌*◌, ℕ, bit_xor, length, slice_index};
ghost use Rattle.cookie_crypt.specs.Gcm.{number_of, bytes_of, counter_block, block_at};

use std::simd::prelude::*;

/// The number that a block's bytes write, the first byte highest.
pub(crate) fn number_of(block: [u8; 16]) -> u128
    ensures { result ≡ number_of block }
{
    u128::from_be_bytes(block)
}

/// The block that a number is written as.
pub(crate) fn bytes_of(number: u128) -> [u8; 16]
    ensures { result ≡ bytes_of number }
{
    number.to_be_bytes()
}

/// The same block as lanes, made of two words at once and not of its bytes one by one.
#[inline(always)]
pub(crate) fn lanes_of(number: u128) -> u8x16
    ensures { result ≡ bytes_of number }
{
    let low = (number % (1 << 64)) as u64;
    let high = (number >> 64) as u64;
    u64x2::from_array([low, high]).to_le_bytes().reverse()
}

/// The nonce and a counter.
pub(crate) fn counter_block(nonce: &[u8; 12], counter: u32) -> [u8; 16]
    ensures { result ≡ counter_block nonce.now counter }
{
    let [a, b, c, d] = counter.to_be_bytes();
    [
        nonce[0], nonce[1], nonce[2], nonce[3], nonce[4], nonce[5], nonce[6], nonce[7], nonce[8],
        nonce[9], nonce[10], nonce[11], a, b, c, d,
    ]
}

/// Block `i` of the data, padded with zeros.
pub(crate) fn block_at(bytes: &[u8], i: usize) -> u128
    requires { 16 * i < length bytes.now }
    ensures { result ≡ block_at bytes.now i }
{
    let start = 16 * i;
    if bytes.len() - start >= 16 {
        return number_of(u8x16::from_slice(&bytes[start..]).to_array());
    }
    let mut block = [0; 16];
    for j in 0..16usize {
        block[j] = if j < bytes.len() - start {
            bytes[start + j]
        } else {
            0
        };
    }
    number_of(block)
}

/// Adds a block to the bytes from `start` on, or its first bytes if fewer are left.
pub(crate) fn add_block(bytes: &mut [u8], start: usize, block: &[u8; 16])
    requires { start < length bytes.old }
    ensures length { length bytes.new ≡ length bytes.old }
    ensures added { (j : ℕ) → j < 16 → start + j < length bytes.old
        → slice_index bytes.new (start + j)
        ≡ bit_xor (slice_index bytes.old (start + j)) (slice_index block.now j) }
    ensures before { (k : ℕ) → k < start → slice_index bytes.new k ≡ slice_index bytes.old k }
    ensures after { (k : ℕ) → start + 16 ≤ k → slice_index bytes.new k ≡ slice_index bytes.old k }
{
    if bytes.len() - start >= 16 {
        let sum = u8x16::from_slice(&bytes[start..]) ^ u8x16::from_array(*block);
        sum.copy_to_slice(&mut bytes[start..]);
    } else {
        for j in 0..bytes.len() - start {
            bytes[start + j] ^= block[j];
        }
    }
}
