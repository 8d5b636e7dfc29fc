//! The id of a session.
ghost use Rattle.std.specs.Prelude.{◌≡◌, IfErr, IfOk, List, ℕ};
ghost use Rattle.cookie_session.specs.Id.{IsId, id_text};
ghost use Rattle.cookie_session.specs.declared.session_error.SessionError.TheVariants as refusal;

use crate::session_error::SessionError;
use base64::engine::general_purpose::URL_SAFE_NO_PAD;
use rand_core::TryRng;

pub(crate) const ID_LENGTH: usize = 16;

// The bytes of an id's text.
const TEXT_LENGTH: usize = 22;

// Sixteen bytes from one draw.
pub(crate) fn draw_id<R: TryRng>(rng: &mut R) -> Result<[u8; 16], SessionError>
    ensures drawn { IfOk result (λ id. R.may_fill rng.old id rng.new) }
    ensures failed { IfErr result (λ why. (why ≡ refusal.Generator) × R.Error) }
{
    let mut id = [0; ID_LENGTH];
    if rng.try_fill_bytes(&mut id).is_err() {
        return Err(SessionError::Generator);
    }
    Ok(id)
}

// The id that has this text, else zeros.
pub(crate) fn id_of(text: &[u8]) -> [u8; 16]
    ensures { (written : List ℕ) → IsId written → text.now ≡ id_text written → result ≡ written }
{
    // Room for six groups of four symbols.
    let mut bytes = [0; 18];
    if text.len() != TEXT_LENGTH
        || URL_SAFE_NO_PAD
            .decode_slice_unchecked(text, &mut bytes)
            .is_err()
    {
        return [0; ID_LENGTH];
    }
    match bytes.first_chunk::<ID_LENGTH>() {
        Some(id) => *id,
        None => [0; ID_LENGTH],
    }
}
