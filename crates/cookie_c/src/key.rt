//! Keys for C (RFC 5869).
ghost use Rattle.std.specs.Prelude.{◌<◌, ◌≤◌, length};
ghost use Rattle.cookie.specs.Keys.{derived_key, master_length};
ghost use Rattle.cookie_c.specs.Answers.{IsGiven, IsRefused};
ghost use Rattle.cookie_c.specs.declared.status.Status.TheVariants as status;

use crate::answer::Answer;
use crate::status::Status;
use cookie::Key;

/// Derives the 64 bytes of a key from a master key, of which all bytes count (RFC 5869 2.3), for the buffer. It doesn't
/// allocate.
///
/// Refuses a master key of fewer than 32 bytes.
#[unsafe(no_mangle)]
pub extern "C" fn cookie_derive_key(master: &[u8], out: &mut [u8]) -> Answer
    ensures derived { master_length ≤ length master.now
        → IsGiven (derived_key master.now) result out.old out.new }
    ensures short { length master.now < master_length
        → IsRefused status.MasterTooShort result out.old out.new }
{
    match Key::try_derive_from(master) {
        Ok(key) => Answer::give(key.master(), out),
        Err(_) => Answer::refusal(Status::MasterTooShort),
    }
}
