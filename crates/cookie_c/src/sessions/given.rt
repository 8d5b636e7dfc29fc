//! Random bytes that C passes in, as an RNG that returns them.
ghost use Rattle.std.specs.Prelude.{◌≡◌, length};

use rand_core::TryRng;
use std::convert::Infallible;

/// An RNG: a draw of as many bytes as these returns these. Other draws aren't specified.
#[derive(Clone, Copy)]
pub(crate) struct Given<'a> {
    pub(crate) bytes: &'a [u8],
}

impl TryRng for Given<'_> {
    type Error = Infallible;

    ghost may_fill = { λ before drawn after. (after ≡ before)
        × (length drawn ≡ length before.bytes.now → drawn ≡ before.bytes.now) };

    fn try_next_u32(&mut self) -> Result<u32, Infallible> {
        Ok(0)
    }

    fn try_next_u64(&mut self) -> Result<u64, Infallible> {
        Ok(0)
    }

    fn try_fill_bytes(&mut self, dst: &mut [u8]) -> Result<(), Infallible> {
        if dst.len() == self.bytes.len() {
            dst.copy_from_slice(self.bytes);
        }
        Ok(())
    }
}
