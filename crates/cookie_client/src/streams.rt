//! All of a reader's bytes, and a text written whole.
ghost use Rattle.std.specs.Prelude.{◌≡◌, ◌⊎◌, IfOk, IfErr, OnOk};
ghost use Rattle.std.specs.Io.KnownBytes.{Appends, Consumes, IsAtEnd};
ghost use Rattle.cookie_client.specs.Run.{StopsShort};
ghost use Rattle.cookie_client.specs.declared.run_error.RunError.TheVariants as refusal;

use crate::run_error::RunError;
use std::alloc::Global;
use std::io::{ErrorKind, Read, Write};

// All that the reader has left.
pub(crate) fn read_all<R: Read>(alloc: Global, input: &mut R) -> Result<Vec<u8>, RunError>
    ensures bytes { IfOk result (λ v.
        Consumes (R.remaining input.old) (R.remaining input.new) v.items) }
    ensures end { OnOk result (IsAtEnd (R.remaining input.new)) }
    ensures err { IfErr result (λ e. (e ≡ refusal.Input) ⊎ (e ≡ refusal.OutOfMemory)) }
{
    let mut bytes = Vec::new(alloc);
    match input.read_to_end(&mut bytes) {
        Ok(_) => Ok(bytes),
        Err(error) => {
            if error.kind() == ErrorKind::OutOfMemory {
                Err(RunError::OutOfMemory)
            } else {
                Err(RunError::Input)
            }
        }
    }
}

// Writes the text, going on after a short write. It fails if a write fails or takes nothing, and then only part of the
// text was written.
pub(crate) fn write_text<W: Write>(output: &mut W, text: &[u8]) -> Result<(), RunError>
    ensures ok { OnOk result (Appends (W.contents output.old) (W.contents output.new) text.now) }
    ensures err { IfErr result (λ e. (e ≡ refusal.Output)
        × StopsShort (W.contents output.old) (W.contents output.new) text.now) }
{
    let mut written = 0;
    while written < text.len() {
        match output.write(&text[written..]) {
            Ok(0) => return Err(RunError::Output),
            Ok(count) => written += count,
            Err(_) => return Err(RunError::Output),
        }
    }
    Ok(())
}
