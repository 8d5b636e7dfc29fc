//! The pairs of a header, decoded.
ghost use Rattle.std.specs.Prelude.{◌≡◌, ◌≢◌, ◌++◌, [], ◌∷◌, IfOk, OnOk, IsUtf8};
ghost use Rattle.std.specs.Str.{trim};
ghost use Rattle.cookie_c.specs.AllPairs.{AddsText, ArePairsFrom, ArePairsGiven, TakesNext, TakesPiece};
ghost use Rattle.cookie_c.specs.Pairs.{HeaderPiece, refused_pair, rest_after};
ghost use Rattle.cookie_c.specs.declared.status.Status.TheVariants as status;

use super::PairCount;
use crate::next_piece::NextPiece;
use crate::pair::Pair;
use crate::span::Span;
use crate::status::Status;
use cookie::Cookie;
use std::alloc::{AllocError, Global};

/// Pairs, with their names and values one right after the other.
#[derive(Drop)]
pub(crate) struct DecodedPairs {
    pairs: Vec<Pair>,
    text: Vec<u8>,
}

impl DecodedPairs {
    // All pairs of the header.
    pub(super) fn of(alloc: Global, header: &[u8]) -> Result<DecodedPairs, AllocError>
        ensures { IfOk result (λ read.
            ArePairsFrom header.now 0 0 read.pairs.items read.text.items) }
    {
        let mut read = DecodedPairs {
            pairs: Vec::new(alloc),
            text: Vec::new(alloc),
        };
        let mut from = 0;
        while let Some(next) = read.take_next(alloc, header, from)? {
            from = next;
        }
        Ok(read)
    }

    // Takes in the next pair of the header from this offset on, and returns where the rest begins, if there is one.
    fn take_next(
        &mut self,
        alloc: Global,
        header: &[u8],
        from: usize,
    ) -> Result<Option<usize>, AllocError>
        ensures { IfOk result (TakesNext header.now from self.old self.new) }
    {
        match NextPiece::of(header, from) {
            NextPiece::End => Ok(None),
            NextPiece::Other { next } => {
                self.refuse(Status::NotUtf8, next)?;
                Ok(Some(next))
            }
            NextPiece::Text { text, next, .. } => {
                self.take(alloc, text, next)?;
                Ok(Some(next))
            }
        }
    }

    // Takes in the pair in a piece's text, decoded.
    fn take(&mut self, alloc: Global, text: &str, next: usize) -> Result<(), AllocError>
        ensures { OnOk result ((piece : HeaderPiece) → text.now ≡ trim piece.bytes
            → next ≡ rest_after piece → IsUtf8 piece.bytes → TakesPiece piece self.old self.new) }
    {
        match Cookie::parse_encoded(alloc, text) {
            Ok(cookie) => self.push(cookie.name(), cookie.value(), next),
            Err(error) => {
                self.refuse_text(Status::of(error), next)?;
                Ok(())
            }
        }
    }

    // Takes in that a text is refused, unless memory ran out.
    fn refuse_text(&mut self, why: Status, next: usize) -> Result<(), AllocError>
        ensures sure { OnOk result (why ≢ status.OutOfMemory) }
        ensures pairs { OnOk result (self.new.pairs.items
            ≡ self.old.pairs.items ++ refused_pair why next ∷ []) }
        ensures text { self.new.text.items ≡ self.old.text.items }
    {
        match why {
            Status::OutOfMemory => Err(AllocError),
            why => self.refuse(why, next),
        }
    }

    fn push(&mut self, name: &str, value: &str, next: usize) -> Result<(), AllocError>
        ensures { OnOk result (AddsText name.now value.now next self.old self.new) }
    {
        let start = self.text.len();
        self.text.extend_from_slice(name.as_bytes())?;
        self.text.extend_from_slice(value.as_bytes())?;
        self.pairs.push(Pair {
            status: Status::Done.code(),
            name: Span {
                start,
                length: name.len(),
            },
            value: Span {
                start: start + name.len(),
                length: value.len(),
            },
            next,
        })?;
        Ok(())
    }

    fn refuse(&mut self, why: Status, next: usize) -> Result<(), AllocError>
        ensures pairs { OnOk result (self.new.pairs.items
            ≡ self.old.pairs.items ++ refused_pair why next ∷ []) }
        ensures text { self.new.text.items ≡ self.old.text.items }
    {
        self.pairs.push(Pair::refusal(why, next))?;
        Ok(())
    }

    // The pairs and their bytes, for the buffers.
    pub(super) fn give(&self, pairs: &mut [Pair], out: &mut [u8]) -> PairCount
        ensures { ArePairsGiven self.now.pairs.items self.now.text.items result
            pairs.old pairs.new out.old out.new }
    {
        let (count, length) = (self.pairs.len(), self.text.len());
        if pairs.len() < count || out.len() < length {
            return PairCount::of(Status::BufferTooShort, count, length);
        }
        pairs[..count].copy_from_slice(&self.pairs);
        out[..length].copy_from_slice(&self.text);
        PairCount::of(Status::Done, count, length)
    }
}
