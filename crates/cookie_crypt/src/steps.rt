//! What a sealing costs, counted where the work is done.
ghost use Rattle.std.specs.Prelude.{◌≡◌, ◌<◌, ◌+◌, ◌^◌};
ghost use Rattle.cookie_crypt.specs.Aes.{encrypt_block};
ghost use Rattle.cookie_crypt.specs.BlockField.{field_product};
ghost use Rattle.cookie_crypt.specs.Steps.{no_steps, with_blocks, with_products};

use crate::aes::Aes256;
use crate::multiples::Multiples;
use std::marker::Model;

/// The numbers of blocks that were encrypted, of products that were taken in the field of GCM, and of entries of a
/// table of multiples that were looked up and added.
///
/// Only two calls of this file raise a count, each when it returns the result of the work that it counts.
#[derive(Drop)]
pub struct Steps {
    blocks: u64,
    products: u64,
    table_steps: u64,
}

// Contracts see it as the record of the three counts.
impl Model for Steps {
    ghost use Rattle.cookie_crypt.specs.Steps.{StepCounts};

    ghost Value = { StepCounts };

    ghost view = { λ s.
        record { blocks = s.blocks; products = s.products; table_steps = s.table_steps } };
}

impl Steps {
    /// No steps.
    /// Example: `comes_back` in crates/cookie_examples/src/sealing.rt.
    pub fn new() -> Steps
        ensures { result ≡ no_steps }
    {
        Steps {
            blocks: 0,
            products: 0,
            table_steps: 0,
        }
    }

    /// The blocks encrypted.
    pub fn blocks(&self) -> u64
        ensures { result ≡ self.now.blocks }
    {
        self.blocks
    }

    /// The products taken.
    pub fn products(&self) -> u64
        ensures { result ≡ self.now.products }
    {
        self.products
    }

    /// The entries looked up and added, one for each four bits of a product.
    pub fn table_steps(&self) -> u64
        ensures { result ≡ self.now.table_steps }
    {
        self.table_steps
    }

    // One block, encrypted.
    pub(crate) fn encrypt_block(&mut self, cipher: &Aes256, block: [u8; 16]) -> [u8; 16]
        requires { self.old.blocks + 1 < 2 ^ 64 }
        ensures made { result ≡ encrypt_block cipher.now block }
        ensures counted { self.new ≡ with_blocks 1 self.old }
    {
        self.blocks += 1;
        cipher.encrypt_block(block)
    }

    // The product of a block and the block whose multiples are passed in, four bits of each byte at a time.
    pub(crate) fn product(&mut self, multiples: &Multiples, block: u128) -> u128
        requires room { self.old.products + 1 < 2 ^ 64 }
        requires room_for_steps { self.old.table_steps + 32 < 2 ^ 64 }
        ensures made { result ≡ field_product block multiples.now }
        ensures counted { self.new ≡ with_products 1 self.old }
    {
        self.products += 1;
        self.table_steps += 32;
        multiples.product(block)
    }
}
