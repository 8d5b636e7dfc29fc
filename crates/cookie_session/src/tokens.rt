//! Tokens that a site sends out, as in the link of an email, and takes back for some time.
ghost use Rattle.std.specs.Prelude.{◌≡◌, ◌↔◌, ◌⊎◌, ◌<◌, ◌≤◌, ◌^◌, ℕ, List, None, Some, Err, IfOk, OnOk, alloc_error, length, option_map, replicate, string_bytes};
ghost use Rattle.cookie.specs.Memory.{Gives};
ghost use Rattle.cookie.specs.Purposes.{IsApart};
ghost use Rattle.cookie.specs.Sealing.{IsNonce};
ghost use Rattle.cookie.specs.declared.jar_error.JarError.TheVariants as refusal;
ghost use Rattle.cookie_session.specs.Endings.{MayBeSpent};
ghost use Rattle.cookie_session.specs.Revocations.{IsRevoked, IsRevokedToo};
ghost use Rattle.cookie_session.specs.Seconds.{second_of};
ghost use Rattle.cookie_session.specs.Tokens.{CanMakeToken, HoldsAt, IsNoSession, IsNumbered, IsReadUntilEnd, IsToken, TokenState, made_token, new_token, token_id, token_purpose, token_text};
ghost use Rattle.cookie_session.specs.declared.open_error.OpenError.TheVariants as failure;

use crate::id::ID_LENGTH;
use crate::key_ring::KeyRing;
use crate::open_error::OpenError;
use crate::revocations::Revocations;
use crate::seconds::second_of;
use crate::session_text::exact_number;
use crate::token::Token;
use cookie::JarError;
use jiff::civil::DateTime;
use rand_core::TryRng;
use std::alloc::{AllocError, Global};

// What the values of tokens are sealed for.
const PURPOSE: &str = "token v=2";

/// How a site makes tokens for one purpose, such as the link of an email that resets a password. A token is the value,
/// such as the user's name, encrypted for the purpose and some time. It has only letters, digits, `-` and `_`, so a URL
/// can have it as it is. The site stores nothing of it, so `read` returns it until its end. `read_once` keeps in a store
/// that it was read.
///
/// ```
/// let resets = Tokens { keys: &keys, purpose: "password reset", lifetime: 3600 };
/// let token = resets.make(alloc, "ann", now, rng)?;
/// let user = resets.read_once(alloc, token.as_str(), now, &mut revocations)?.map(|token| token.value);
/// ```
#[derive(Clone, Copy)]
pub struct Tokens<'a> {
    /// The keys. The newest encrypts, and each of them decrypts.
    pub keys: &'a KeyRing,
    /// What the tokens are for. No other purpose has their associated data, and no session.
    pub purpose: &'a str,
    /// The seconds that a token lives. A token keeps the lifetime that it was made with, and the lesser one counts. With
    /// 0 none is read.
    pub lifetime: u32,
}

impl<'a> Tokens<'a> {
    /// Makes a token of the value, at the time `now` in UTC, under the newest key. `read` returns the value until the
    /// lifetime is over. The nonce is one draw of twelve bytes from `rng`. `rng` must be a cryptographic generator, and
    /// under one key at most 2^32 nonces may be drawn (SP 800-38D 8.3).
    ///
    /// Fails with `TooLong` if the purpose has more than 2^61 - 8 bytes or the value with its end more than 2^36 - 32,
    /// and then draws nothing. Else fails with `Generator` if the draw failed, and with `OutOfMemory`.
    pub fn make<R: TryRng>(
        &self,
        alloc: Global,
        value: &str,
        now: DateTime,
        rng: &mut R,
    ) -> Result<String, JarError>
        ensures ok { IfOk result (λ text. (nonce : List ℕ) × IsNonce nonce
            × R.may_fill rng.old nonce rng.new
            × (string_bytes text ≡ made_token self.now nonce now value.now)) }

        // It is read as this token and no other, until the lifetime ends, and not after.
        ensures reads { IfOk result (λ text.
            IsReadUntilEnd self.now (string_bytes text) (new_token self.now now value.now)) }

        // What is refused, and why.
        ensures too_long { ¬ (result ≡ Err refusal.OutOfMemory)
            → (¬ CanMakeToken self.now now value.now) ↔ (result ≡ Err refusal.TooLong) }
        ensures within { OnOk result (CanMakeToken self.now now value.now) }
        ensures undrawn { ¬ CanMakeToken self.now now value.now → rng.new ≡ rng.old }
        ensures failed { result ≡ Err refusal.Generator → R.Error }
        ensures memory { result ≡ Err refusal.OutOfMemory → (rng.new ≡ rng.old)
            ⊎ ((nonce : List ℕ) × IsNonce nonce × R.may_fill rng.old nonce rng.new) }

        // No name and no session is its associated data, and no other purpose has it.
        ensures apart { IsApart token_purpose self.now.purpose.now }
        ensures no_session { IsNoSession self.now.purpose.now }
    {
        let made = second_of(now);
        let text = token_text(alloc, made, made + self.lifetime as u64, value)?;
        let sealer = self.keys.newest().sealer();
        sealer.seal_for(alloc, PURPOSE, self.purpose, text.as_str(), rng)
    }

    /// Reads a token, at the time `now` in UTC. Returns `None` if the text isn't a token for the purpose under a key of the
    /// ring, or is over: its own lifetime, or the one that the site has now.
    ///
    /// Fails only if out of memory.
    pub fn read(
        &self,
        alloc: Global,
        text: &str,
        now: DateTime,
    ) -> Result<Option<Token>, AllocError>
        ensures { Gives alloc_error result (λ answer. (token : TokenState)
            → (answer ≡ Some token) ↔ IsToken self.now now text.now token) }
    {
        let Some(opened) = self.keys.open_text(Some(PURPOSE), self.purpose, text)? else {
            return Ok(None);
        };
        token_at(alloc, opened.value.as_str(), second_of(now), self.lifetime)
    }

    /// Reads a token once, at the time `now` in UTC, as `read` does: returns `None` too if it was read before. The store
    /// keeps until its end that it was read, under its id, which no session has. Of two calls at the same moment one
    /// returns the token.
    ///
    /// With a store that can't revoke, as `NeverRevoked`, each call returns it. If the clock goes back after the store has
    /// forgotten it, it can be read once more.
    ///
    /// Fails with `Revocations` if the store failed. It may then be kept as read. Else fails only if out of memory, and
    /// then it isn't.
    pub fn read_once<R: Revocations>(
        &self,
        alloc: Global,
        text: &str,
        now: DateTime,
        revocations: &mut R,
    ) -> Result<Option<Token>, OpenError<R::Error>>
        ensures read { R.is_intact revocations.new → R.can_revoke → IfOk result (λ answer.
            (token : TokenState) → (answer ≡ Some token)
            ↔ (IsToken self.now now text.now token
            × ¬ IsRevoked (R.revoked_until revocations.old) (token_id text.now))) }

        // It isn't read again, until its end.
        ensures spent { R.is_intact revocations.new → R.can_revoke → (token : TokenState)
            → IsToken self.now now text.now token → OnOk result
            (IsRevokedToo (token_id text.now) token.end
            (R.revoked_until revocations.old) (R.revoked_until revocations.new)) }

        // Whatever the store says, only a token is read. Nothing else asks the store.
        ensures sealed { IfOk result (λ answer. (token : TokenState)
            → answer ≡ Some token → IsToken self.now now text.now token) }
        ensures unasked { ((token : TokenState) → ¬ IsToken self.now now text.now token)
            → (revocations.new ≡ revocations.old)
            × ((error : R.Error) → ¬ (result ≡ Err (failure.Revocations error))) }

        // If the store failed, it may be kept as read. Out of memory it isn't.
        ensures unsure { (error : R.Error) → result ≡ Err (failure.Revocations error)
            → (token : TokenState) × IsToken self.now now text.now token
            × (R.is_intact revocations.new
            → MayBeSpent (record { id = token_id text.now; end = token.end })
            (R.revoked_until revocations.old) (R.revoked_until revocations.new)) }
        ensures memory { result ≡ Err failure.OutOfMemory → revocations.new ≡ revocations.old }
        ensures kept { R.is_intact revocations.new → R.is_intact revocations.old }
    {
        let Some(token) = self.read(alloc, text, now)? else {
            return Ok(None);
        };
        match revocations.revoke(&Tokens::id_of(text), token.end) {
            Ok(true) => Ok(None),
            Ok(false) => Ok(Some(token)),
            Err(error) => Err(OpenError::Revocations(error)),
        }
    }

    /// The id of a token, under which a store keeps that it was read: the first sixteen bytes of its text, which are those
    /// of its nonce. A shorter text is no token, and has zeros.
    pub fn id_of(text: &str) -> [u8; 16]
        ensures id { 16 ≤ length text.now → result ≡ token_id text.now }
        ensures short { length text.now < 16 → result ≡ replicate 16 0 }
    {
        match text.as_bytes().first_chunk::<ID_LENGTH>() {
            Some(id) => *id,
            None => [0; ID_LENGTH],
        }
    }
}

// What is sealed in a token: both its seconds, with a blank after each, and its value.
fn token_text(alloc: Global, made: u64, end: u64, value: &str) -> Result<String, AllocError>
    ensures text { IfOk result (λ text. string_bytes text
        ≡ token_text (record { made = made; end = end; value = value.now })) }
    ensures fits { (made < 2 ^ 64) × (end < 2 ^ 64) }
{
    let mut text = made.to_string(alloc)?;
    text.push(' ')?;
    text.push_str(end.to_string(alloc)?.as_str())?;
    text.push(' ')?;
    text.push_str(value)?;
    Ok(text)
}

// The token whose sealed text this is, if there is one that isn't over in this second.
fn token_at(
    alloc: Global,
    text: &str,
    second: u64,
    lifetime: u32,
) -> Result<Option<Token>, AllocError>
    ensures { Gives alloc_error result (λ answer. (token : TokenState)
        → (answer ≡ Some token) ↔ HoldsAt second lifetime text.now token) }
{
    let Some((made, rest)) = number_and_rest(text) else {
        return Ok(None);
    };
    let Some((end, value)) = number_and_rest(rest) else {
        return Ok(None);
    };
    let is_old = second >= made && second - made >= lifetime as u64;
    if is_old || second >= end {
        return Ok(None);
    }
    let value = String::from_str(alloc, value)?;
    Ok(Some(Token { value, made, end }))
}

// The number before the first blank, and what comes after it.
fn number_and_rest(text: &str) -> Option<(u64, &str)>
    ensures { (number : ℕ) (rest : List ℕ) → (option_map {U = ℕ × List ℕ}
        (λ parts. (parts.0, parts.1.now)) result ≡ Some (number, rest))
        ↔ IsNumbered text.now number rest }
{
    let Some((number, rest)) = text.split_once(' ') else {
        return None;
    };
    let Some(number) = exact_number(number) else {
        return None;
    };
    Some((number, rest))
}
