//! Signed values for C (RFC 2104).
ghost use Rattle.std.specs.Prelude.{◌≡◌};
ghost use Rattle.cookie_session.specs.KeyRing.{IsSignedBy};
ghost use Rattle.cookie_c.specs.Answers.{IsRead};
ghost use Rattle.cookie_c.specs.Handles.{Reads};
ghost use Rattle.cookie_c.specs.KeyCalls.{Signs, Verifies};
ghost use Rattle.cookie_c.specs.Keys.{keys_of};
ghost use Rattle.cookie_c.specs.declared.status.Status.TheVariants as status;

use crate::answer::Answer;
use crate::handle::with_content;
use crate::keys::Keys;
use crate::status::Status;
use cookie_session::KeyRing;
use std::alloc::Global;

/// Signs the value as a signed jar stores it under the name, by the newest key, for the buffer: 44 characters of
/// signature, and the value. The keys are as before.
///
/// Refuses a handle without keys, and then a name or a value that isn't UTF-8. Else it fails only when memory runs out.
#[unsafe(no_mangle)]
pub extern "C" fn cookie_sign(
    alloc: Global,
    keys: &mut Keys,
    name: &[u8],
    value: &[u8],
    out: &mut [u8],
) -> Answer
    ensures kept { keys_of keys.new ≡ keys_of keys.old }
    ensures signed { Reads status.NoKeys (Signs name.now value.now)
        (keys_of keys.old) result out.old out.new }
{
    with_content!(alloc, keys.handle,
        Keys(ring) => sign(alloc, ring, name, value, out),
        _ => Answer::refusal(Status::NoKeys),
    )
}

/// Verifies a text that was signed as `cookie_sign` does, under the same name by one of the keys. The value that was
/// signed is for the buffer. The keys are as before.
///
/// Refuses a handle without keys, then a name or a text that isn't UTF-8, and then a text that isn't signed under one
/// of the keys and the name. It doesn't allocate.
#[unsafe(no_mangle)]
pub extern "C" fn cookie_verify(
    alloc: Global,
    keys: &mut Keys,
    name: &[u8],
    text: &[u8],
    out: &mut [u8],
) -> Answer
    ensures kept { keys_of keys.new ≡ keys_of keys.old }
    ensures verified { Reads status.NoKeys (Verifies name.now text.now)
        (keys_of keys.old) result out.old out.new }
{
    with_content!(alloc, keys.handle,
        Keys(ring) => verify(ring, name, text, out),
        _ => Answer::refusal(Status::NoKeys),
    )
}

// The signed value, for the buffer.
fn sign(alloc: Global, keys: &KeyRing, name: &[u8], value: &[u8], out: &mut [u8]) -> Answer
    ensures { Signs name.now value.now keys.now result out.old out.new }
{
    let Ok(name) = str::from_utf8(name) else {
        return Answer::refusal(Status::NotUtf8);
    };
    let Ok(value) = str::from_utf8(value) else {
        return Answer::refusal(Status::NotUtf8);
    };
    match keys.newest().signer().sign(alloc, name, value) {
        Ok(text) => Answer::give(text.as_bytes(), out),
        Err(_) => Answer::refusal(Status::OutOfMemory),
    }
}

// The value that was signed, if the text is a signed value, for the buffer.
fn verify(keys: &KeyRing, name: &[u8], text: &[u8], out: &mut [u8]) -> Answer
    ensures { Verifies name.now text.now keys.now result out.old out.new }
{
    let Ok(name) = str::from_utf8(name) else {
        return Answer::refusal(Status::NotUtf8);
    };
    let Ok(text) = str::from_utf8(text) else {
        return Answer::refusal(Status::NotUtf8);
    };
    give_verified(keys, name, text, out)
}

// The same of texts that are UTF-8.
fn give_verified(keys: &KeyRing, name: &str, text: &str, out: &mut [u8]) -> Answer
    ensures { IsRead (IsSignedBy keys.now name.now text.now) status.NotSigned
        result out.old out.new }
{
    match keys.verify_text(name, text) {
        Some(value) => Answer::give(value.as_bytes(), out),
        None => Answer::refusal(Status::NotSigned),
    }
}
