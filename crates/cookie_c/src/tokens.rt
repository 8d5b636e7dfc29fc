//! Tokens for C, such as the link of an email that resets a password.
ghost use Rattle.std.specs.Prelude.{◌≡◌, ◌≢◌, length};
ghost use Rattle.cookie_c.specs.Answers.{IsRefused};
ghost use Rattle.cookie_c.specs.Handles.{Reads};
ghost use Rattle.cookie_c.specs.Keys.{keys_of};
ghost use Rattle.cookie_c.specs.Tokens.{MakesToken, MakesTokenBy, ReadsToken, ReadsTokenBy, TellsToken};
ghost use Rattle.cookie_c.specs.declared.status.Status.TheVariants as status;

pub(crate) mod call;
pub mod reading;

use crate::answer::Answer;
use crate::handle::with_content;
use crate::keys::Keys;
use crate::sessions::given::Given;
use crate::status::Status;
use call::TokenCall;
use cookie::JarError;
use cookie_session::{KeyRing, Tokens};
use jiff::civil::DateTime;
use reading::TokenReading;
use std::alloc::Global;

const NONCE_LENGTH: usize = 12;

/// How a site makes tokens for one purpose.
#[repr(C)]
#[derive(Clone, Copy)]
pub struct TokenSettings<'a> {
    /// What the tokens are for, such as `password reset`: a token for another purpose isn't read.
    pub purpose: &'a [u8],
    /// The seconds that a token lives.
    pub lifetime: u32,
}

/// Makes a token of the value, by the newest key, for the buffer: letters, digits, `-` and `_`, which a URL can have as
/// they are. The nonce has twelve random bytes: under one key no nonce may be used twice, and at most 2^32 may be drawn
/// (SP 800-38D 8.3). `now` is the time in seconds since 1970 in UTC. The keys are as before.
///
/// Refuses a nonce of another length, then a handle without keys, then a purpose or a value that isn't UTF-8, then a
/// time after 9999-12-30 22:00:00, and then what is too long to be sealed. It may also run out of memory.
#[unsafe(no_mangle)]
pub extern "C" fn cookie_token_make(
    alloc: Global,
    keys: &mut Keys,
    settings: &TokenSettings<'_>,
    value: &[u8],
    nonce: &[u8],
    now: u64,
    out: &mut [u8],
) -> Answer
    ensures kept { keys_of keys.new ≡ keys_of keys.old }
    ensures bad_nonce { length nonce.now ≢ 12
        → IsRefused status.BadNonce result out.old out.new }
    ensures made { length nonce.now ≡ 12 → Reads status.NoKeys
        (MakesTokenBy settings.now nonce.now now value.now)
        (keys_of keys.old) result out.old out.new }
{
    if nonce.len() != NONCE_LENGTH {
        return Answer::refusal(Status::BadNonce);
    }
    let nonce = Given { bytes: nonce };
    with_content!(alloc, keys.handle,
        Keys(ring) => make(alloc, ring, settings, value, nonce, now, out),
        _ => Answer::refusal(Status::NoKeys),
    )
}

/// Reads a token that `cookie_token_make` made for the same purpose by one of the keys. Its value is for the buffer,
/// and its times and its id are told. It is over at the earlier of its end and the lifetime of these settings. `now` is
/// the time in seconds since 1970 in UTC. The keys are as before.
///
/// Refuses a handle without keys, then a purpose or a token that isn't UTF-8, then a time after 9999-12-30 22:00:00,
/// and then with `NotSealed` what isn't such a token, or is over. It may also run out of memory.
#[unsafe(no_mangle)]
pub extern "C" fn cookie_token_read(
    alloc: Global,
    keys: &mut Keys,
    settings: &TokenSettings<'_>,
    token: &[u8],
    now: u64,
    out: &mut [u8],
) -> TokenReading
    ensures kept { keys_of keys.new ≡ keys_of keys.old }
    ensures told { TellsToken (ReadsTokenBy settings.now now token.now)
        (keys_of keys.old) result out.old out.new }
{
    with_content!(alloc, keys.handle,
        Keys(ring) => read(alloc, ring, settings, token, now, out),
        _ => TokenReading::none(Status::NoKeys),
    )
}

// The token of a value, for the buffer.
fn make(
    alloc: Global,
    keys: &KeyRing,
    settings: &TokenSettings<'_>,
    value: &[u8],
    nonce: Given<'_>,
    now: u64,
    out: &mut [u8],
) -> Answer
    requires { length nonce.bytes.now ≡ 12 }
    ensures { MakesTokenBy settings.now nonce.entry.bytes.now now value.now keys.now
        result out.old out.new }
{
    match TokenCall::of(keys, settings, value, now) {
        Ok(call) => give_made(alloc, &call.tokens, call.text, nonce, call.time, out),
        Err(why) => Answer::refusal(why),
    }
}

// What a text is read as.
fn read(
    alloc: Global,
    keys: &KeyRing,
    settings: &TokenSettings<'_>,
    token: &[u8],
    now: u64,
    out: &mut [u8],
) -> TokenReading
    ensures { ReadsTokenBy settings.now now token.now keys.now result out.old out.new }
{
    match TokenCall::of(keys, settings, token, now) {
        Ok(call) => give_read(alloc, &call.tokens, call.text, call.time, out),
        Err(why) => TokenReading::none(why),
    }
}

// The token, for the buffer.
fn give_made(
    alloc: Global,
    tokens: &Tokens<'_>,
    value: &str,
    mut nonce: Given<'_>,
    time: DateTime,
    out: &mut [u8],
) -> Answer
    requires { length nonce.bytes.now ≡ 12 }
    ensures { MakesToken tokens.now nonce.entry.bytes.now time value.now result out.old out.new }
{
    match tokens.make(alloc, value, time, &mut nonce) {
        Ok(token) => Answer::give(token.as_bytes(), out),
        Err(JarError::TooLong) => Answer::refusal(Status::TooLong),
        Err(JarError::OutOfMemory) => Answer::refusal(Status::OutOfMemory),
        Err(JarError::Generator) => unreachable!(),
    }
}

// What the text is read as. A token's value is for the buffer.
fn give_read(
    alloc: Global,
    tokens: &Tokens<'_>,
    text: &str,
    time: DateTime,
    out: &mut [u8],
) -> TokenReading
    ensures { ReadsToken tokens.now time text.now result out.old out.new }
{
    match tokens.read(alloc, text, time) {
        Ok(Some(token)) => TokenReading::give(&token, text, out),
        Ok(None) => TokenReading::none(Status::NotSealed),
        Err(_) => TokenReading::none(Status::OutOfMemory),
    }
}
