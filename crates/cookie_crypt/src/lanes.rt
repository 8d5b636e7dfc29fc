//! Sixteen bytes at a time, with no memory address that depends on them.
ghost use Rattle.std.specs.Prelude.{◌≡◌, ◌+◌, ◌*◌, ◌/◌, ◌%◌, ◌∷◌, ℕ, List, map, take, slice_index, bit_and, bit_xor};
ghost use Rattle.std.specs.List.{range_with_len};
ghost use Rattle.std.specs.Simd.Lanes.{zip2};
ghost use Rattle.cookie_crypt.specs.ByteField.{byte_times_x};
ghost use Rattle.cookie_crypt.specs.Gcm.{number_of};
ghost use Rattle.cookie_crypt.specs.Lanes.{entry, looked_up, ArePlaces, IsLanes};
ghost use Rattle.cookie_crypt.specs.Sbox.{s_box};
ghost use Rattle.cookie_crypt.specs.Turned.{first_half, second_half, linear_part, turned_back};

use std::simd::prelude::*;

// The field of 256 elements over one of 16: a byte is i + 18 k, where i and k are elements of the smaller field, each
// named by four bits. The byte that is written here has i in its upper half and k in its lower half.
const FROM_LOW: [u8; 16] = [
    0, 16, 178, 162, 52, 36, 134, 150, 148, 132, 38, 54, 160, 176, 18, 2,
];

const FROM_HIGH: [u8; 16] = [
    0, 179, 109, 222, 51, 128, 94, 237, 30, 173, 115, 192, 45, 158, 64, 243,
];

// The inverses of the smaller field. 128 is in the place of the inverse of 0, and its look-up returns 0.
const INVERSES: [u8; 16] = [128, 1, 9, 14, 13, 11, 7, 6, 15, 2, 12, 5, 10, 4, 3, 8];

const FIVE_OVER: [u8; 16] = [128, 5, 11, 3, 12, 1, 8, 13, 6, 10, 9, 2, 4, 7, 15, 14];

// The affine map without its constant, by the two halves.
const FIRST: [u8; 16] = [
    0, 84, 182, 166, 227, 167, 16, 68, 242, 17, 183, 1, 243, 85, 69, 226,
];

const SECOND: [u8; 16] = [
    0, 75, 159, 137, 97, 60, 22, 93, 194, 163, 42, 181, 119, 254, 232, 212,
];

// The same, turned.
const ONCE_FIRST: [u8; 16] = [
    0, 180, 70, 245, 226, 229, 179, 7, 65, 163, 86, 16, 81, 164, 23, 242,
];

const ONCE_SECOND: [u8; 16] = [
    0, 5, 175, 154, 78, 126, 53, 48, 159, 209, 75, 228, 123, 225, 212, 170,
];

// `x` times the same, turned.
const TWICE_FIRST: [u8; 16] = [
    0, 231, 123, 22, 46, 164, 109, 138, 241, 223, 201, 178, 67, 85, 56, 156,
];

const TWICE_SECOND: [u8; 16] = [
    0, 43, 73, 132, 159, 121, 205, 230, 175, 48, 180, 253, 82, 214, 27, 98,
];

#[inline(always)]
fn look_up(table: [u8; 16], places: u8x16) -> u8x16
    requires { ArePlaces places }
    ensures { (f : ℕ → ℕ) (v : List ℕ) → places ≡ map f v
        → result ≡ map (λ b. entry table (f b)) v }
{
    u8x16::from_array(table).swizzle_dyn(places)
}

#[inline(always)]
pub(crate) fn sum(a: u8x16, b: u8x16) -> u8x16
    ensures { (f g : ℕ → ℕ) (v : List ℕ) → a ≡ map f v → b ≡ map g v
        → result ≡ map (λ x. bit_xor (f x) (g x)) v }
{
    a ^ b
}

#[inline(always)]
fn low(a: u8x16) -> u8x16
    ensures { (f : ℕ → ℕ) (v : List ℕ) → a ≡ map f v → result ≡ map (λ x. bit_and (f x) 15) v }
{
    a & u8x16::splat(15)
}

#[inline(always)]
fn high(a: u8x16) -> u8x16
    ensures { (f : ℕ → ℕ) (v : List ℕ) → a ≡ map f v → result ≡ map (λ x. f x / 16) v }
{
    a >> u8x16::splat(4)
}

// What the halves look up, each in its table, summed up.
#[inline(always)]
fn look_up_halves(firsts: [u8; 16], seconds: [u8; 16], first: u8x16, second: u8x16) -> u8x16
    requires first { ArePlaces first }
    requires second { ArePlaces second }
    ensures { (f g : ℕ → ℕ) (v : List ℕ) → first ≡ map f v → second ≡ map g v
        → result ≡ map (λ b. bit_xor (entry firsts (f b)) (entry seconds (g b))) v }
{
    sum(look_up(firsts, first), look_up(seconds, second))
}

/// The bytes turned: written as elements of the field over the smaller one.
#[inline(always)]
pub(crate) fn turn(bytes: u8x16) -> u8x16
    ensures { map turned_back result ≡ bytes }
{
    sum(
        look_up(FROM_LOW, low(bytes)),
        look_up(FROM_HIGH, high(bytes)),
    )
}

// The two elements of the smaller field that the inverse of each turned byte consists of.
#[inline(always)]
fn halves(bytes: u8x16) -> (u8x16, u8x16)
    ensures first { result.0 ≡ map first_half bytes }
    ensures second { result.1 ≡ map second_half bytes }
{
    let i = high(bytes);
    let k = low(bytes);
    let j = sum(i, k);
    let over = look_up(FIVE_OVER, k);
    let first = sum(look_up(INVERSES, sum(look_up(INVERSES, i), over)), j);
    let second = sum(look_up(INVERSES, sum(look_up(INVERSES, j), over)), i);
    (first, second)
}

/// S of each turned byte, without its constant and turned, and `x` times that.
#[inline(always)]
pub(crate) fn substitute_turned(bytes: u8x16) -> (u8x16, u8x16)
    ensures once { map turned_back result.0 ≡ map linear_part (map turned_back bytes) }
    ensures twice { map turned_back result.1
        ≡ map (λ b. byte_times_x (linear_part b)) (map turned_back bytes) }
{
    let (first, second) = halves(bytes);
    (
        look_up_halves(ONCE_FIRST, ONCE_SECOND, first, second),
        look_up_halves(TWICE_FIRST, TWICE_SECOND, first, second),
    )
}

/// S of each turned byte, without its constant.
#[inline(always)]
pub(crate) fn substitute_back(bytes: u8x16) -> u8x16
    ensures { result ≡ map linear_part (map turned_back bytes) }
{
    let (first, second) = halves(bytes);
    look_up_halves(FIRST, SECOND, first, second)
}

/// S of each byte.
#[inline(always)]
pub(crate) fn substitute(bytes: u8x16) -> u8x16
    ensures { result ≡ map s_box bytes }
{
    substitute_back(turn(bytes)) ^ u8x16::splat(0x63)
}

/// The byte one row further down in each column, and in the last row the first.
#[inline(always)]
pub(crate) fn next_in_column(a: u8x16) -> u8x16
    ensures { (f : ℕ → ℕ) → a ≡ map f (range_with_len 0 16)
        → result ≡ map (λ i. f (4 * (i / 4) + (i + 1) % 4)) (range_with_len 0 16) }
{
    a.swizzle([1, 2, 3, 0, 5, 6, 7, 4, 9, 10, 11, 8, 13, 14, 15, 12])
}

/// The byte one row further up, and in the first row the last.
#[inline(always)]
pub(crate) fn last_in_column(a: u8x16) -> u8x16
    ensures { (f : ℕ → ℕ) → a ≡ map f (range_with_len 0 16)
        → result ≡ map (λ i. f (4 * (i / 4) + (i + 3) % 4)) (range_with_len 0 16) }
{
    a.swizzle([3, 0, 1, 2, 7, 4, 5, 6, 11, 8, 9, 10, 15, 12, 13, 14])
}

/// The sum of two blocks.
#[inline(always)]
pub(crate) fn add(a: u8x16, b: u8x16) -> u8x16
    ensures lanes { IsLanes result }
    ensures each { result ≡ zip2 bit_xor a b }
    ensures value { number_of result ≡ bit_xor (number_of a) (number_of b) }
{
    a ^ b
}

/// The bytes one lane on, with the last byte of `before` as the first.
#[inline(always)]
pub(crate) fn move_on(before: u8x16, bytes: u8x16) -> u8x16
    ensures lanes { IsLanes result }
    ensures value { result ≡ take 16 (slice_index before 15 ∷ bytes) }
{
    before.shuffle(
        bytes,
        [
            15, 16, 17, 18, 19, 20, 21, 22, 23, 24, 25, 26, 27, 28, 29, 30,
        ],
    )
}

/// The sum of what the upper and the lower half of each byte look up, each in its table.
#[inline(always)]
pub(crate) fn look_up_both(upper: [u8; 16], lower: [u8; 16], bytes: u8x16) -> u8x16
    ensures lanes { IsLanes result }
    ensures value { result ≡ looked_up upper lower bytes }
{
    add(look_up(upper, high(bytes)), look_up(lower, low(bytes)))
}
