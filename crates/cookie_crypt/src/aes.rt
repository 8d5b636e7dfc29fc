//! AES-256, forward (FIPS 197).
ghost use Rattle.std.specs.Prelude.{◌≡◌, ◌+◌, ◌*◌, ◌<◌, ◌≤◌, List, ℕ, length, map, take, bit_xor, slice_index};
ghost use Rattle.cookie_crypt.specs.Aes.{shift_rows, mix_columns, word, word_sum, sub_word, added_word, key_expansion, add_round_key, rounds, cipher, encrypt_block};
ghost use Rattle.cookie_crypt.specs.ByteField.{IsInverse, inverse, byte_times_x};
ghost use Rattle.cookie_crypt.specs.Lanes.{IsLanes};
ghost use Rattle.cookie_crypt.specs.Turned.{key_byte, schedule_of, turned_back};

use crate::block::add_block;
use crate::lanes::{
    last_in_column, next_in_column, substitute, substitute_back, substitute_turned, sum, turn,
};
use std::marker::Model;
use std::simd::prelude::*;

const ROUND_CONSTANTS: [u8; 7] = [0x01, 0x02, 0x04, 0x08, 0x10, 0x20, 0x40];

#[inline(always)]
fn shift_rows(state: u8x16) -> u8x16
    ensures { result ≡ shift_rows state }
{
    state.swizzle([0, 5, 10, 15, 4, 9, 14, 3, 8, 13, 2, 7, 12, 1, 6, 11])
}

// The turned columns, of turned bytes and of `x` times these. A row takes its own byte twice, the next row's three times,
// which is 2 + 1, and the others once. The constant of S, which no byte has here, would stay what it is.
#[inline(always)]
fn mix_columns(once: u8x16, twice: u8x16) -> u8x16
    ensures { (state : List ℕ) → IsLanes state
        → map turned_back once ≡ map (λ b. bit_xor b 0x63) state
        → map turned_back twice ≡ map (λ b. byte_times_x (bit_xor b 0x63)) state
        → map turned_back result ≡ map (λ b. bit_xor b 0x63) (mix_columns state) }
{
    let near = sum(twice, next_in_column(once));
    sum(sum(near, last_in_column(once)), next_in_column(near))
}

// The words of a round.
#[inline(always)]
fn words_of(words: &[u8; 240], round: usize) -> u8x16
    requires { round ≤ 14 }
    ensures length { length result ≡ 16 }
    ensures each { (j : ℕ) → j < 16 → slice_index result j
        ≡ slice_index words.now (16 * round + j) }
{
    u8x16::from_slice(&words[16 * round..])
}

// The words of a round, added to a state. A state before the first round is turned. Before a later one it also has the
// constant of S, which the words have too, and before the last it isn't turned.
#[inline(always)]
fn add_round_key(words: &[u8; 240], round: usize, state: u8x16) -> u8x16
    requires { round ≤ 14 }
    ensures first { round ≡ 0 → map turned_back result
        ≡ add_round_key (schedule_of words.now) 0 (map turned_back state) }
    ensures later { (mixed : List ℕ) → 1 ≤ round → round ≤ 13 → length mixed ≡ 16
        → map turned_back state ≡ map (λ b. bit_xor b 0x63) mixed
        → map turned_back result ≡ add_round_key (schedule_of words.now) round mixed }
    ensures last { (shifted : List ℕ) → round ≡ 14 → length shifted ≡ 16
        → state ≡ map (λ b. bit_xor b 0x63) shifted
        → result ≡ add_round_key (schedule_of words.now) 14 shifted }
{
    state ^ words_of(words, round)
}

fn word(words: &[u8; 240], i: usize) -> [u8; 4]
    requires { i < 60 }
    ensures { result ≡ word words.now i }
{
    [
        words[4 * i],
        words[4 * i + 1],
        words[4 * i + 2],
        words[4 * i + 3],
    ]
}

fn word_sum(x: [u8; 4], y: [u8; 4]) -> [u8; 4]
    ensures { result ≡ word_sum x y }
{
    [x[0] ^ y[0], x[1] ^ y[1], x[2] ^ y[2], x[3] ^ y[3]]
}

fn sub_word(x: [u8; 4]) -> [u8; 4]
    ensures { result ≡ sub_word x }
{
    let [a, b, c, d] = x;
    let bytes = substitute(u8x16::from_array([
        a, b, c, d, 0, 0, 0, 0, 0, 0, 0, 0, 0, 0, 0, 0,
    ])).to_array();
    [bytes[0], bytes[1], bytes[2], bytes[3]]
}

fn added_word(x: [u8; 4], i: usize) -> [u8; 4]
    requires first { 8 ≤ i }
    requires last { i < 60 }
    ensures { result ≡ added_word x i }
{
    if i % 8 == 0 {
        let rotated = [x[1], x[2], x[3], x[0]];
        word_sum(sub_word(rotated), [ROUND_CONSTANTS[i / 8 - 1], 0, 0, 0])
    } else if i % 8 == 4 {
        sub_word(x)
    } else {
        x
    }
}

fn key_expansion(key: &[u8; 32]) -> [u8; 240]
    ensures { result ≡ key_expansion key.now }
{
    let mut words = [0; 240];
    'key: for i in 0..32usize {
        words[i] = key[i];
    }
    'words: for i in 8..60usize {
        let next = word_sum(word(&words, i - 8), added_word(word(&words, i - 1), i));
        words[4 * i] = next[0];
        words[4 * i + 1] = next[1];
        words[4 * i + 2] = next[2];
        words[4 * i + 3] = next[3];
    }
    words
}

// The words of a round as the rounds of `cipher` add them: turned, but for the last round, and with the constant of S, but
// for the first.
#[inline(always)]
fn prepared_words(words: &[u8; 240], round: usize) -> u8x16
    requires { round ≤ 14 }
    ensures { (j : ℕ) → j < 16 → key_byte (16 * round + j) (slice_index result j)
        ≡ slice_index words.now (16 * round + j) }
{
    let bytes = words_of(words, round);
    if round == 0 {
        return turn(bytes);
    }
    if round == 14 {
        return bytes ^ u8x16::splat(0x63);
    }
    turn(bytes ^ u8x16::splat(0x63))
}

// All words, as the rounds add them.
fn prepare(words: &[u8; 240]) -> [u8; 240]
    ensures { schedule_of result ≡ words.now }
{
    let mut prepared = [0; 240];
    for round in 0..15usize {
        let block = prepared_words(words, round).to_array();
        add_block(&mut prepared, 16 * round, &block);
    }
    prepared
}

// One round more than were done. The state is turned.
#[inline(always)]
fn round(words: &[u8; 240], done: usize, state: u8x16) -> u8x16
    requires { done < 13 }
    ensures { (block : List ℕ) → map turned_back state ≡ rounds (schedule_of words.now) done block
        → map turned_back result ≡ rounds (schedule_of words.now) (done + 1) block }
{
    let (once, twice) = substitute_turned(shift_rows(state));
    add_round_key(words, done + 1, mix_columns(once, twice))
}

#[inline(always)]
fn four_rounds(words: &[u8; 240], done: usize, state: u8x16) -> u8x16
    requires { done < 10 }
    ensures { (block : List ℕ) → map turned_back state ≡ rounds (schedule_of words.now) done block
        → map turned_back result ≡ rounds (schedule_of words.now) (done + 4) block }
{
    let state = round(words, done, state);
    let state = round(words, done + 1, state);
    let state = round(words, done + 2, state);
    round(words, done + 3, state)
}

// The last round, which leaves the columns unmixed and turns the bytes back.
#[inline(always)]
fn last_round(words: &[u8; 240], state: u8x16) -> u8x16
    ensures { (block : List ℕ) → map turned_back state ≡ rounds (schedule_of words.now) 13 block
        → result ≡ cipher (schedule_of words.now) block }
{
    add_round_key(words, 14, substitute_back(shift_rows(state)))
}

// The rounds are written one after the other, so that their tables stay in registers.
fn cipher(words: &[u8; 240], block: [u8; 16]) -> [u8; 16]
    ensures { result ≡ cipher (schedule_of words.now) block }
{
    let state = add_round_key(words, 0, turn(u8x16::from_array(block)));
    let state = four_rounds(words, 0, state);
    let state = four_rounds(words, 4, state);
    let state = four_rounds(words, 8, state);
    last_round(words, round(words, 12, state)).to_array()
}

/// AES-256 under a key. Contracts see the key. It keeps the key's words as the rounds add them.
#[derive(Drop)]
pub struct Aes256 {
    words: [u8; 240],
}

impl Model for Aes256 {
    ghost Value = { List ℕ };

    ghost view = { λ a. take 32 (schedule_of a.words) };

    ghost invariant = { λ a. schedule_of a.words
        ≡ key_expansion (take 32 (schedule_of a.words)) };
}

impl Aes256 {
    /// AES-256 under `key`, which must be random. It isn't wiped from memory.
    pub fn new(key: &[u8; 32]) -> Aes256
        ensures { result ≡ key.now }
    {
        Aes256 {
            words: prepare(&key_expansion(key)),
        }
    }

    // The same cipher.
    pub(crate) fn copy(&self) -> Aes256
        ensures { result ≡ self.now }
    {
        Aes256 { words: self.words }
    }

    /// The block, encrypted (FIPS 197 5.1).
    pub fn encrypt_block(&self, block: [u8; 16]) -> [u8; 16]
        ensures value { result ≡ encrypt_block self.now block }
        ensures inverses { (b : ℕ) → b < 256 → IsInverse b (inverse b) }
    {
        cipher(&self.words, block)
    }
}
