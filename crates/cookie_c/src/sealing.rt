//! Sealed values for C (SP 800-38D 7).
ghost use Rattle.std.specs.Prelude.{◌≡◌};
ghost use Rattle.cookie_c.specs.Answers.{IsReadInMemory};
ghost use Rattle.cookie_c.specs.Handles.{Reads};
ghost use Rattle.cookie_c.specs.KeyCalls.{IsSealedBy, Opens, Seals, SealsTexts};
ghost use Rattle.cookie_c.specs.Keys.{keys_of};
ghost use Rattle.cookie_c.specs.declared.status.Status.TheVariants as status;

use crate::answer::Answer;
use crate::handle::with_content;
use crate::keys::Keys;
use crate::status::Status;
use cookie::JarError;
use cookie_session::KeyRing;
use std::alloc::Global;

/// Seals the value as a private jar stores it under the name, by the newest key, for the buffer: the base64 of nonce,
/// encrypted value and tag. The nonce has twelve random bytes: no two values may be sealed under one key and one nonce,
/// and under one key at most 2^32 random nonces may be drawn (SP 800-38D 8.3). The keys are as before.
///
/// Refuses a handle without keys, then a name or a value that isn't UTF-8, then a nonce of another length, and then a
/// name of more than 2^61 - 1 bytes or a value of more than 2^36 - 32. Else it fails only when memory runs out.
#[unsafe(no_mangle)]
pub extern "C" fn cookie_seal(
    alloc: Global,
    keys: &mut Keys,
    nonce: &[u8],
    name: &[u8],
    value: &[u8],
    out: &mut [u8],
) -> Answer
    ensures kept { keys_of keys.new ≡ keys_of keys.old }
    ensures sealed { Reads status.NoKeys (Seals nonce.now name.now value.now)
        (keys_of keys.old) result out.old out.new }
{
    with_content!(alloc, keys.handle,
        Keys(ring) => seal(alloc, ring, nonce, name, value, out),
        _ => Answer::refusal(Status::NoKeys),
    )
}

/// Opens a text that was sealed as `cookie_seal` does, under the same name by one of the keys. The value that was
/// sealed is for the buffer. The keys are as before.
///
/// Refuses a handle without keys, then a name or a text that isn't UTF-8, and then a text that isn't sealed under one
/// of the keys and the name. Else it fails only when memory runs out.
#[unsafe(no_mangle)]
pub extern "C" fn cookie_open(
    alloc: Global,
    keys: &mut Keys,
    name: &[u8],
    text: &[u8],
    out: &mut [u8],
) -> Answer
    ensures kept { keys_of keys.new ≡ keys_of keys.old }
    ensures opened { Reads status.NoKeys (Opens name.now text.now)
        (keys_of keys.old) result out.old out.new }
{
    with_content!(alloc, keys.handle,
        Keys(ring) => open(ring, name, text, out),
        _ => Answer::refusal(Status::NoKeys),
    )
}

// The sealed value, for the buffer.
fn seal(
    alloc: Global,
    keys: &KeyRing,
    nonce: &[u8],
    name: &[u8],
    value: &[u8],
    out: &mut [u8],
) -> Answer
    ensures { Seals nonce.now name.now value.now keys.now result out.old out.new }
{
    let Ok(name) = str::from_utf8(name) else {
        return Answer::refusal(Status::NotUtf8);
    };
    let Ok(value) = str::from_utf8(value) else {
        return Answer::refusal(Status::NotUtf8);
    };
    give_sealed(alloc, keys, nonce, name, value, out)
}

// The same of texts that are UTF-8.
fn give_sealed(
    alloc: Global,
    keys: &KeyRing,
    nonce: &[u8],
    name: &str,
    value: &str,
    out: &mut [u8],
) -> Answer
    ensures { SealsTexts nonce.now name.now value.now keys.now result out.old out.new }
{
    if nonce.len() != 12 {
        return Answer::refusal(Status::BadNonce);
    }
    let mut copy = [0; 12];
    copy.copy_from_slice(nonce);
    match keys
        .newest()
        .sealer()
        .seal_with_nonce(alloc, name, value, copy)
    {
        Ok(text) => Answer::give(text.as_bytes(), out),
        Err(JarError::TooLong) => Answer::refusal(Status::TooLong),
        Err(JarError::OutOfMemory) => Answer::refusal(Status::OutOfMemory),
        Err(JarError::Generator) => unreachable!(),
    }
}

// The value that was sealed, if the text is a sealed value, for the buffer.
fn open(keys: &KeyRing, name: &[u8], text: &[u8], out: &mut [u8]) -> Answer
    ensures { Opens name.now text.now keys.now result out.old out.new }
{
    let Ok(name) = str::from_utf8(name) else {
        return Answer::refusal(Status::NotUtf8);
    };
    let Ok(text) = str::from_utf8(text) else {
        return Answer::refusal(Status::NotUtf8);
    };
    give_opened(keys, name, text, out)
}

// The same of texts that are UTF-8.
#[tactic(auto, using(crate::proofs::KeyCallLemmas::sealed_none))]
fn give_opened(keys: &KeyRing, name: &str, text: &str, out: &mut [u8]) -> Answer
    ensures { IsReadInMemory (IsSealedBy keys.now name.now text.now) status.NotSealed
        result out.old out.new }
{
    match keys.open_text(None, name, text) {
        Ok(Some(opened)) => Answer::give(opened.value.as_bytes(), out),
        Ok(None) => Answer::refusal(Status::NotSealed),
        Err(_) => Answer::refusal(Status::OutOfMemory),
    }
}
