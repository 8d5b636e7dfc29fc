//! All pairs of a `Cookie` header for C, decoded (RFC 6265 4.2.1, RFC 3986 2.1).
ghost use Rattle.cookie_c.specs.AllPairs.{ReadsPairs};

mod decoded_pairs;

use crate::pair::Pair;
use crate::status::Status;
use decoded_pairs::DecodedPairs;
use std::alloc::Global;

/// How many pairs a header has, and how many bytes their names and values.
#[repr(C)]
#[derive(Clone, Copy)]
pub struct PairCount {
    /// The number of a `Status`. If it is neither `Status::Done` nor `Status::BufferTooShort`, all else is 0.
    pub status: u32,
    /// The number of pairs, whether they had room or not. A refused piece counts.
    pub count: usize,
    /// The number of bytes of their names and values.
    pub length: usize,
}

/// Reads all pairs of a header, as repeated calls of `cookie_next_pair_decoded` do: a pair for each piece that it
/// doesn't skip, with the status of a piece that it refuses. The pairs are for the one buffer, in their order. Their
/// names and values are for the other one, one right after the other, and the spans of a pair are there. If one of the
/// two is too short, nothing is written.
///
/// It fails only when memory runs out, and then nothing is written.
#[unsafe(no_mangle)]
pub extern "C" fn cookie_read_pairs(
    alloc: Global,
    header: &[u8],
    pairs: &mut [Pair],
    out: &mut [u8],
) -> PairCount
    ensures { ReadsPairs header.now result pairs.old pairs.new out.old out.new }
{
    match DecodedPairs::of(alloc, header) {
        Ok(read) => read.give(pairs, out),
        Err(_) => PairCount::of(Status::OutOfMemory, 0, 0),
    }
}

impl PairCount {
    ghost use Rattle.std.specs.Prelude.{◌≡◌};
    ghost use Rattle.cookie_c.specs.Codes.{code_of};

    // This status and these numbers.
    fn of(status: Status, count: usize, length: usize) -> PairCount
        ensures { result ≡ record {
          status = code_of status;
          count = count;
          length = length;
        } }
    {
        PairCount {
            status: status.code(),
            count,
            length,
        }
    }
}
