//! The nonces of sealed values.
ghost use Rattle.std.specs.Prelude.{◌≡◌, IfErr, IfOk};
ghost use Rattle.cookie.specs.declared.jar_error.JarError.TheVariants as refusal;

use crate::jar_error::JarError;
use rand_core::TryRng;

// Twelve bytes from one draw.
pub(crate) fn draw_nonce<R: TryRng>(rng: &mut R) -> Result<[u8; 12], JarError>
    ensures drawn { IfOk result (λ nonce. R.may_fill rng.old nonce rng.new) }
    ensures failed { IfErr result (λ why. (why ≡ refusal.Generator) × R.Error) }
{
    let mut nonce = [0; 12];
    if rng.try_fill_bytes(&mut nonce).is_err() {
        return Err(JarError::Generator);
    }
    Ok(nonce)
}
