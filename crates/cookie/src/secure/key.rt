//! The key of signed and private jars.
ghost use Rattle.std.specs.Prelude.{◌≡◌, ◌≤◌, ◌<◌, ℕ, List, Ok, Err, IfNone, IfSome, ⊤, length, codes};
ghost use Rattle.std.specs.Str.{bytes_eq};
ghost use Rattle.std.specs.Cmp.{partial_equiv_from_equiv};
ghost use Rattle.std.specs.Cmp.Lexicographic.{nat_list_eq_equiv};
ghost use Rattle.rand_core.specs.Stream.{fill_bytes};
ghost use Rattle.cookie.specs.Keys.{derived_key, encryption_half, key_length, key_bytes, master_length, signing_half};
ghost use Rattle.cookie.specs.declared.secure.key_error.KeyError.TheVariants as refusal;

use crate::secure::key_error::KeyError;
use crate::secure::sealer::Sealer;
use crate::secure::signer::Signer;
use cookie_crypt::{are_equal, expand64};
use rand_core::{Rng, TryRng};
use std::alloc::AllocError;
use std::fmt;
use std::marker::Model;

const KEY_LENGTH: usize = 64;

const SIGNING_LENGTH: usize = 32;

const MASTER_LENGTH: usize = 32;

// What the expansion of a master key is for (RFC 5869 3.2).
const KEY_INFO: &[u8] = b"COOKIE;SIGNED:HMAC-SHA256;PRIVATE:AEAD-AES-256-GCM";

// Thirty-two bytes as an array.
pub(crate) fn half_of(bytes: &[u8]) -> [u8; 32]
    requires { length bytes.now ≡ 32 }
    ensures { result ≡ bytes.now }
{
    let mut half = [0; 32];
    half.copy_from_slice(bytes);
    half
}

/// Sixty-four secret bytes: the first half signs, the second half encrypts. Contracts see them as a list.
///
/// A key is only as safe as its bytes are random: they must come from a cryptographic generator, or from a master key
/// that does. Under one key at most 2^32 random nonces may be drawn (SP 800-38D 8.3). Keys, signatures and tags are
/// compared to their last byte, wherever they differ. A key that is dropped isn't wiped from memory.
#[derive(Drop)]
pub struct Key {
    bytes: [u8; KEY_LENGTH],
    signer: Signer,
    sealer: Sealer,
}

impl Model for Key {
    ghost use Rattle.std.specs.Prelude.{List, ℕ};
    ghost use Rattle.cookie.specs.KeyHalves.{HasHalves};

    ghost Value = { List ℕ };

    ghost view = { λ k. k.bytes };

    ghost invariant = { λ k. HasHalves k.bytes k.signer k.sealer };
}

impl Key {
    // The key of these bytes: its first half signs, its second half seals.
    fn of(bytes: &[u8; KEY_LENGTH]) -> Key
        ensures { result ≡ bytes.now }
    {
        Key {
            bytes: *bytes,
            signer: Signer::of(&half_of(&bytes[..SIGNING_LENGTH])),
            sealer: Sealer::of(&half_of(&bytes[SIGNING_LENGTH..])),
        }
    }

    /// Makes a key of the first 64 bytes.
    ///
    /// The caller must make sure that there are at least 64, and that they are random. `try_from` takes any number of
    /// bytes.
    pub fn from(key: &[u8]) -> Key
        requires { key_length ≤ length key.now }
        ensures { result ≡ key_bytes key.now }
    {
        let mut bytes = [0; KEY_LENGTH];
        bytes.copy_from_slice(&key[..KEY_LENGTH]);
        Key::of(&bytes)
    }

    /// Makes a key of the first 64 bytes, which must be random. Fails with `KeyError::TooShort` exactly if there are
    /// fewer.
    pub fn try_from(key: &[u8]) -> Result<Key, KeyError>
        ensures ok { key_length ≤ length key.now → result ≡ Ok (key_bytes key.now) }
        ensures too_short { length key.now < key_length
            → result ≡ Err (refusal.TooShort (length key.now)) }
    {
        if key.len() < KEY_LENGTH {
            return Err(KeyError::TooShort(key.len()));
        }
        Ok(Key::from(key))
    }

    /// Derives a key from the whole of a master key (RFC 5869 2.3). The same master key always makes the same key.
    ///
    /// The caller must make sure that the master key has at least 32 bytes, and that they are random. `try_derive_from`
    /// takes any number of bytes.
    pub fn derive_from(master_key: &[u8]) -> Key
        requires { master_length ≤ length master_key.now }
        ensures { result ≡ derived_key master_key.now }
    {
        Key::of(&expand64(master_key, KEY_INFO))
    }

    /// Derives a key from the whole of a master key (RFC 5869 2.3). The master key must be random. Fails with
    /// `KeyError::MasterTooShort` exactly if it has fewer than 32 bytes.
    pub fn try_derive_from(master_key: &[u8]) -> Result<Key, KeyError>
        ensures ok { master_length ≤ length master_key.now
            → result ≡ Ok (derived_key master_key.now) }
        ensures too_short { length master_key.now < master_length
            → result ≡ Err (refusal.MasterTooShort (length master_key.now)) }
    {
        if master_key.len() < MASTER_LENGTH {
            return Err(KeyError::MasterTooShort(master_key.len()));
        }
        Ok(Key::derive_from(master_key))
    }

    /// Makes a key of the next 64 bytes of a generator, by one draw. `rng` must be a cryptographic generator.
    /// Example: `print` in crates/cookie_examples/src/session.rt.
    pub fn generate<R: Rng>(rng: &mut R) -> Key
        ensures { (result, R.stream rng.new) ≡ fill_bytes key_length (R.stream rng.old) }
    {
        let mut bytes = [0; KEY_LENGTH];
        rng.fill_bytes(&mut bytes);
        Key::of(&bytes)
    }

    /// Makes a key of 64 bytes from one draw from a generator, or returns `None` if the draw failed. `rng` must be a
    /// cryptographic generator.
    ///
    /// ```
    /// let key = Key::try_generate(&mut SysRng::new(rt)).context("no random bytes")?;
    /// ```
    pub fn try_generate<R: TryRng>(rng: &mut R) -> Option<Key>
        ensures drawn { IfSome result (λ key. R.may_fill rng.old key rng.new) }
        ensures failed { IfNone result R.Error }
    {
        let mut bytes = [0; KEY_LENGTH];
        rng.try_fill_bytes(&mut bytes).ok()?;
        Some(Key::of(&bytes))
    }

    /// The half that signs.
    pub fn signing(&self) -> &[u8]
        ensures { result.now ≡ signing_half self.now }
    {
        &self.bytes[..SIGNING_LENGTH]
    }

    /// The half that encrypts.
    pub fn encryption(&self) -> &[u8]
        ensures { result.now ≡ encryption_half self.now }
    {
        &self.bytes[SIGNING_LENGTH..]
    }

    /// The whole key.
    pub fn master(&self) -> &[u8]
        ensures { result.now ≡ self.now }
    {
        &self.bytes[..]
    }

    /// What signs a text under the first half. The key must be random.
    pub fn signer(&self) -> &Signer
        ensures { result.now ≡ signing_half self.now }
    {
        &self.signer
    }

    /// What seals a text under the second half. The key must be random.
    pub fn sealer(&self) -> &Sealer
        ensures { result.now ≡ encryption_half self.now }
    {
        &self.sealer
    }
}

/// It doesn't allocate, so it never fails.
impl Clone for Key {
    ghost is_clone = { λ key copy. copy ≡ key };

    ghost is_infallible = { λ _. ⊤ };

    fn clone(&self) -> Result<Key, AllocError> {
        Ok(Key {
            bytes: self.bytes,
            signer: self.signer.copy(),
            sealer: self.sealer.copy(),
        })
    }
}

/// Two keys are equal if all 64 bytes are. The bytes are compared to the last one, wherever they differ.
impl PartialEq for Key {
    ghost eq = { bytes_eq };

    ghost laws = { partial_equiv_from_equiv nat_list_eq_equiv };

    fn eq(&self, other: &Key) -> bool {
        are_equal(&self.bytes, &other.bytes)
    }
}

impl Eq for Key {
    ghost laws = { nat_list_eq_equiv };
}

/// Shows nothing of the key.
impl fmt::Debug for Key {
    ghost use Rattle.std.specs.Prelude.{Some};

    ghost debug_output = { λ _. Some (codes "Key") };

    fn fmt<W: fmt::Write>(&self, f: &mut fmt::Formatter<W>) -> fmt::Result {
        f.write_str("Key")
    }
}
