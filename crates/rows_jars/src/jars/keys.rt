//! Keys: of bytes, derived and drawn.
use base64::engine::general_purpose::STANDARD;
use cookie::Key;
use rand_core::TryRng;
use rows::{Answer, Step};
use rows_children::key_of;

/// Sets the key. A refusal is answered by its sentence.
pub fn set<R: TryRng>(key: &mut Key, step: Step<'_>, rng: &mut R) -> Answer {
    let bytes = step.bytes()?;
    let made = match step.call {
        "try-from" => Key::try_from(&bytes),
        "try-derive-from" => Key::try_derive_from(&bytes),
        "from" if bytes.len() >= 64 => Ok(Key::from(&bytes)),
        "derive-from" if bytes.len() >= 32 => Ok(Key::derive_from(&bytes)),
        "key" => Ok(key_of(step.words)?),
        "try-draw" => match Key::try_generate(rng) {
            Some(key) => Ok(key),
            None => return step.said("refused"),
        },
        _ => return None,
    };
    match made {
        Ok(made) => *key = made,
        Err(refusal) => return step.printed(refusal),
    }
    step.done()
}

/// The key or a half of it, in base64.
pub fn part(key: &Key, step: Step<'_>) -> Answer {
    let bytes = match step.call {
        "master" => key.master(),
        "signing" => key.signing(),
        _ => key.encryption(),
    };
    STANDARD.encode(step.alloc, bytes).ok()
}
