//! AES-256, HMAC-SHA256, its expansion, and AES-256-GCM. data/cipher.tsv has the calls.
use cookie_crypt::{Aes256, Gcm, Mac, PreparedGcm, Steps, are_equal, expand64, hmac};
use hex::{FromHex, decode, encode};
use rows::{Answer, Player, Step};
use std::alloc::Global;

/// What plays the rows on the cipher.
#[derive(Clone, Copy)]
pub struct Cipher;

impl Player for Cipher {
    fn answer(&mut self, step: Step<'_>) -> Answer {
        let mut inputs = Inputs(step);
        match step.call {
            "block" => {
                let cipher = Aes256::new(&inputs.array()?);
                shown(step, &cipher.encrypt_block(inputs.array()?))
            }
            "hmac" => code(inputs),
            "expand" => expanded(inputs),
            "equal" => compared(inputs),
            "seal" => sealed(inputs),
            "open" => opened(inputs),
            "steps" | "prepared" => counted(inputs),
            "blocks" => blocks(inputs),
            "texts" => texts(inputs),
            _ => None,
        }
    }
}

// The inputs of a call that aren't read yet, with ` | ` between them.
#[derive(Clone, Copy)]
struct Inputs<'t>(Step<'t>);

impl<'t> Inputs<'t> {
    fn word(&mut self) -> Option<&'t str> {
        let (word, rest) = self.0.halves();
        self.0 = rest;
        (!word.words.is_empty()).then_some(word.words)
    }

    // The next input, which is bytes in hexadecimal, or `-` for none.
    fn bytes(&mut self) -> Option<Vec<u8>> {
        decode(self.0.alloc, self.word()?.trim_matches('-')).ok()
    }

    // The next input, which is this many bytes in hexadecimal.
    fn array<const N: usize>(&mut self) -> Option<[u8; N]> {
        <[u8; N] as FromHex>::from_hex(self.word()?).ok()
    }

    // The next input, which is a number.
    fn number(&mut self) -> Option<usize> {
        self.word()?.parse().ok()
    }
}

// The bytes in hexadecimal, or `-` for none.
fn shown(step: Step<'_>, bytes: &[u8]) -> Answer {
    if bytes.is_empty() {
        return step.said("-");
    }
    encode(step.alloc, bytes).ok()
}

// The first bytes of the code of `KEY | MESSAGE | LENGTH`, which has to be the same in pieces.
fn code(mut inputs: Inputs<'_>) -> Answer {
    let (key, message) = (inputs.bytes()?, inputs.bytes()?);
    let code = hmac(&key, &[message.as_slice()]);
    is_code_in_pieces(inputs.0.alloc, &key, &message, &code)?.then_some(())?;
    is_code_by_states(&key, &message, &code)?.then_some(())?;
    shown(inputs.0, code.get(..inputs.number()?)?)
}

// Whether the message has the code in two pieces, and byte by byte, each with empty pieces between.
fn is_code_in_pieces(alloc: Global, key: &[u8], message: &[u8], code: &[u8; 32]) -> Option<bool> {
    let mut pieces = Vec::new(alloc);
    for byte in message.chunks(1) {
        pieces.push(byte).ok()?;
        pieces.push(b"".as_slice()).ok()?;
    }
    let (front, back) = message.split_at(message.len() / 2);
    Some(hmac(key, &[front, &[], back]) == *code && hmac(key, pieces.as_slice()) == *code)
}

// Whether the state of a key of 32 bytes and its copy compute the code, whole and in pieces.
fn is_code_by_states(key: &[u8], message: &[u8], code: &[u8; 32]) -> Option<bool> {
    if key.len() != 32 {
        return Some(true);
    }
    let mac = Mac::new(&key.try_into().ok()?);
    let copy = mac.clone().ok()?;
    let (front, back) = message.split_at(message.len() / 2);
    Some(copy.code(&[message]) == *code && mac.code(&[front, back]) == *code)
}

// The first bytes of the expansion of `KEY | INFO | LENGTH`.
fn expanded(mut inputs: Inputs<'_>) -> Answer {
    let (key, info) = (inputs.bytes()?, inputs.bytes()?);
    let expanded = expand64(&key, &info);
    shown(inputs.0, expanded.get(..inputs.number()?)?)
}

// Whether two inputs are equal.
fn compared(mut inputs: Inputs<'_>) -> Answer {
    let (one, other) = (inputs.bytes()?, inputs.bytes()?);
    inputs.0.printed(are_equal(&one, &other))
}

fn opens(gcm: &Gcm, nonce: &[u8; 12], data: &[u8], text: &mut [u8], tag: &[u8; 16]) -> bool {
    gcm.open_in_place(nonce, data, text, tag, &mut Steps::new())
}

// Whether a key that keeps H makes the same sealed text and tag of the text, and opens it again.
fn is_sealed_alike(
    prepared: &PreparedGcm,
    nonce: &[u8; 12],
    data: &[u8],
    plain: &Vec<u8>,
    sealed: &Vec<u8>,
    tag: &[u8; 16],
) -> Option<bool> {
    let mut bytes = plain.clone().ok()?;
    let own = prepared.seal_in_place(nonce, data, bytes.as_mut_slice(), &mut Steps::new())?;
    let is_alike = own == *tag && bytes == *sealed;
    let is_opened = prepared.open_in_place(
        nonce,
        data,
        bytes.as_mut_slice(),
        tag,
        &mut Steps::new(),
    );
    Some(is_alike && is_opened && bytes == *plain)
}

// The sealed text of `KEY | NONCE | DATA | TEXT` and its tag, which opens it, and no other does.
fn sealed(mut inputs: Inputs<'_>) -> Answer {
    let key = inputs.array()?;
    let (gcm, prepared) = (Gcm::new(&key), PreparedGcm::new(&key));
    let (nonce, data, plain) = (inputs.array()?, inputs.bytes()?, inputs.bytes()?);
    let mut bytes = plain.clone().ok()?;
    let tag = gcm.seal_in_place(&nonce, &data, bytes.as_mut_slice(), &mut Steps::new())?;
    is_sealed_alike(&prepared, &nonce, &data, &plain, &bytes, &tag)?.then_some(())?;
    let (sealed, shown_tag) = (shown(inputs.0, &bytes)?, shown(inputs.0, &tag)?);
    let mut other = tag;
    other[3] ^= 1;
    let is_opened_by_other = opens(&gcm, &nonce, &data, bytes.as_mut_slice(), &other);
    let is_opened = opens(&gcm, &nonce, &data, bytes.as_mut_slice(), &tag);
    if is_opened_by_other || !is_opened || bytes != plain {
        return inputs.0.said("not opened by its tag alone");
    }
    format!(in inputs.0.alloc; "{sealed} | {shown_tag}").ok()
}

// The text of `KEY | NONCE | DATA | SEALED | TAG`, or `refused`, if it isn't opened and stays as it is.
fn opened(mut inputs: Inputs<'_>) -> Answer {
    let key = inputs.array()?;
    let (gcm, prepared) = (Gcm::new(&key), PreparedGcm::new(&key));
    let gcm = gcm.clone().ok()?;
    let (nonce, data, sealed) = (inputs.array()?, inputs.bytes()?, inputs.bytes()?);
    let (mut bytes, tag) = (sealed.clone().ok()?, inputs.array()?);
    let is_opened = opens(&gcm, &nonce, &data, bytes.as_mut_slice(), &tag)
        || prepared.open_in_place(&nonce, &data, bytes.as_mut_slice(), &tag, &mut Steps::new());
    if !is_opened && bytes == sealed {
        return inputs.0.said("refused");
    }
    shown(inputs.0, &bytes)
}

// What sealing a text with data of these lengths counts, also under a key that keeps H.
fn counted(mut inputs: Inputs<'_>) -> Answer {
    let (data, mut text, mut steps) = ([0; 32], [0; 32], Steps::new());
    let data = data.get(..inputs.number()?)?;
    let text = text.get_mut(..inputs.number()?)?;
    match inputs.0.call {
        "prepared" => {
            PreparedGcm::new(&[7; 32]).seal_in_place(&[0; 12], data, text, &mut steps)?
        }
        _ => Gcm::new(&[7; 32]).seal_in_place(&[0; 12], data, text, &mut steps)?,
    };
    let (blocks, products, look_ups) = (steps.blocks(), steps.products(), steps.table_steps());
    format!(in inputs.0.alloc; "{blocks} | {products} | {look_ups}").ok()
}

// The longest text and the longest data that are drawn.
const LONGEST: usize = 100;

// The next bytes of a sequence that is the same each time.
fn drawn<const N: usize>(state: &mut u64) -> [u8; N] {
    let mut bytes = [0; N];
    for byte in bytes.iter_mut() {
        *state = state
            .wrapping_mul(6_364_136_223_846_793_005)
            .wrapping_add(1);
        *byte = (*state >> 56) as u8;
    }
    bytes
}

// The code of this many drawn blocks, each encrypted under a drawn key.
fn blocks(mut inputs: Inputs<'_>) -> Answer {
    let (mut state, mut all) = (1, Vec::new(inputs.0.alloc));
    for _ in 0..inputs.number()? {
        let cipher = Aes256::new(&drawn(&mut state));
        let encrypted = cipher.encrypt_block(drawn(&mut state));
        all.extend_from_slice(&encrypted).ok()?;
    }
    shown(inputs.0, &hmac(b"", &[all.as_slice()]))
}

// The code of a drawn text of each length below the number, sealed, and its tag.
fn texts(mut inputs: Inputs<'_>) -> Answer {
    let (mut state, mut all) = (2, Vec::new(inputs.0.alloc));
    for size in 0..inputs.number()? {
        push_sealed(&mut all, &mut state, size)?;
    }
    shown(inputs.0, &hmac(b"", &[all.as_slice()]))
}

// Appends a drawn text of this size, sealed under a drawn key with drawn data of another size, and its tag.
fn push_sealed(all: &mut Vec<u8>, state: &mut u64, size: usize) -> Option<()> {
    let (gcm, nonce) = (Gcm::new(&drawn(state)), drawn(state));
    let (data, mut text) = (drawn::<LONGEST>(state), drawn::<LONGEST>(state));
    let data = data.get(..size.wrapping_mul(7) % LONGEST)?;
    let text = text.get_mut(..size)?;
    let tag = gcm.seal_in_place(&nonce, data, text, &mut Steps::new())?;
    all.extend_from_slice(text).ok()?;
    all.extend_from_slice(&tag).ok()
}
