//! Copies of texts.
ghost use Rattle.std.specs.Prelude.{◌≡◌, IfOk};

use std::alloc::{AllocError, Global};

pub(crate) fn copied(alloc: Global, text: &[u8]) -> Result<Vec<u8>, AllocError>
    ensures { IfOk result (λ made. made.items ≡ text.now) }
{
    let mut made = Vec::new(alloc);
    made.extend_from_slice(text)?;
    Ok(made)
}
