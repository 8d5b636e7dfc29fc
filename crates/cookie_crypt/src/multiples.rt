//! Products in the field of GCM (SP 800-38D 6.3), by look-ups of sixteen bytes at a time.
ghost use Rattle.std.specs.Prelude.{◌≡◌, ◌<◌, ◌^◌, ℕ};
ghost use Rattle.cookie_crypt.specs.BlockField.{times_power, field_product};
ghost use Rattle.cookie_crypt.specs.Code.{rows, columns};

use crate::block::{bytes_of, lanes_of, number_of};
use crate::block_field::{product_below, times_x_to_the_fourth};
use crate::lanes::{add, look_up_both, move_on};
use std::marker::Model;
use std::simd::prelude::*;

// The products of `h` and the sixteen blocks in which only the leftmost four bits may be set.
fn rows(h: u128) -> [[u8; 16]; 16]
    ensures { result ≡ rows h }
{
    let mut rows = [[0; 16]; 16];
    for j in 0..16u8 {
        rows[j as usize] = bytes_of(product_below((j as u128) << 124, h, 4));
    }
    rows
}

// The bytes of those products, the first bytes of all in the first column.
fn columns(h: u128) -> [[u8; 16]; 16]
    ensures { result ≡ columns h }
{
    let rows = rows(h);
    let mut columns = [[0; 16]; 16];
    for b in 0..16usize {
        columns[b] = [
            rows[0][b],
            rows[1][b],
            rows[2][b],
            rows[3][b],
            rows[4][b],
            rows[5][b],
            rows[6][b],
            rows[7][b],
            rows[8][b],
            rows[9][b],
            rows[10][b],
            rows[11][b],
            rows[12][b],
            rows[13][b],
            rows[14][b],
            rows[15][b],
        ];
    }
    columns
}

// The product of a block and the one whose columns are passed in. Byte `b` of what a byte of the block adds is looked
// up for all sixteen at once. From the last `b` to the first, what has been summed moves one byte on, from `first` into
// `rest`.
fn product(upper: &[[u8; 16]; 16], lower: &[[u8; 16]; 16], block: u128) -> u128
    ensures { (h : ℕ) → h < 2 ^ 128 → upper.now ≡ columns h → lower.now ≡ columns (times_power 4 h)
        → result ≡ field_product block h }
{
    let bytes = lanes_of(block);
    let mut first = look_up_both(upper[15], lower[15], bytes);
    let mut rest = u8x16::splat(0);
    for done in 1..16usize {
        rest = move_on(first, rest);
        let column = look_up_both(upper[15 - done], lower[15 - done], bytes);
        first = add(move_on(u8x16::splat(0), first), column);
    }
    let fallen = number_of(rest.to_array());
    number_of(first.to_array()) ^ fallen ^ (fallen >> 1) ^ (fallen >> 2) ^ (fallen >> 7)
}

/// The multiples of a block that a product looks up. Contracts see the block.
#[derive(Drop)]
pub(crate) struct Multiples {
    block: u128,
    upper: [[u8; 16]; 16],
    lower: [[u8; 16]; 16],
}

impl Model for Multiples {
    ghost Value = { ℕ };

    ghost view = { λ m. m.block };

    ghost invariant = { λ m. (m.block < 2 ^ 128) × (m.upper ≡ columns m.block)
        × (m.lower ≡ columns (times_power 4 m.block)) };
}

impl Multiples {
    /// The multiples of `block`.
    pub(crate) fn new(block: u128) -> Multiples
        ensures { result ≡ block }
    {
        Multiples {
            block,
            upper: columns(block),
            lower: columns(times_x_to_the_fourth(block)),
        }
    }

    // The same multiples.
    pub(crate) fn copy(&self) -> Multiples
        ensures { result ≡ self.now }
    {
        Multiples {
            block: self.block,
            upper: self.upper,
            lower: self.lower,
        }
    }

    /// The product of `block` and the block of these multiples.
    pub(crate) fn product(&self, block: u128) -> u128
        ensures { result ≡ field_product block self.now }
    {
        product(&self.upper, &self.lower, block)
    }
}
