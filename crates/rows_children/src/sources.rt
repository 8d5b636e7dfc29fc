//! Random bytes for rows.
use rand_core::TryRng;
use std::hash::RandomState;
use std::random::RandomSource;
use std::{fmt, io};

/// A source of random bytes that are all 5.
#[derive(Clone, Copy, Debug)]
pub struct FixedSource;

impl RandomSource for FixedSource {
    fn fill_bytes(&self, buf: &mut [u8]) -> io::Result<()> {
        buf.fill(5);
        Ok(())
    }
}

/// Keys of a hash, of that source.
pub fn hash_keys() -> Option<RandomState> {
    RandomState::new(&FixedSource).ok()
}

/// A generator that returns this many bytes, each 7, and then fails. Its draws have no contract.
#[derive(Drop)]
pub struct Sevens {
    /// How many it still returns.
    pub left: usize,
}

impl TryRng for Sevens {
    type Error = fmt::Error;

    fn try_next_u32(&mut self) -> Result<u32, fmt::Error> {
        Err(fmt::Error)
    }

    fn try_next_u64(&mut self) -> Result<u64, fmt::Error> {
        Err(fmt::Error)
    }

    fn try_fill_bytes(&mut self, dst: &mut [u8]) -> Result<(), fmt::Error> {
        for byte in dst.iter_mut() {
            if self.left == 0 {
                return Err(fmt::Error);
            }
            self.left -= 1;
            *byte = 7;
        }
        Ok(())
    }
}
