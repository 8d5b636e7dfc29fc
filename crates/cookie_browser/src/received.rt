//! A `Set-Cookie` text, as a browser reads it.
ghost use Rattle.std.specs.Prelude.{◌≡◌, ◌+◌, length, nat_lt};
ghost use Rattle.std.specs.List.{list_any};
ghost use Rattle.cookie_core.specs.Size.{most_bytes};
ghost use Rattle.cookie_browser.specs.Bytes.{cut};
ghost use Rattle.cookie_browser.specs.Printed.{IsPrintedReceived};
ghost use Rattle.cookie_browser.specs.Received as spec;
ghost use Rattle.cookie_browser.specs.ReceivedCode.{received_result};

use crate::attributes::ReceivedAttributes;
use crate::bytes::cut;
use crate::refusal::Refusal;
use cookie_core::{MOST_BYTES, trim_wsp};

/// A received cookie: name, value and attributes, borrowed from the text (RFC 6265bis, The Set-Cookie Header Field).
#[derive(Clone, Copy)]
pub struct Received<'t> {
    /// The name as the text has it, empty if there is none.
    pub name: &'t [u8],
    /// The value as the text has it.
    pub value: &'t [u8],
    /// The attributes.
    pub attributes: ReceivedAttributes<'t>,
}

fn has_control(text: &[u8]) -> bool
    ensures { result ≡ list_any spec.is_control text.now }
{
    text.iter()
        .any(|&byte| byte < 9 || (byte > 9 && byte < 32) || byte == 127)
}

// The name and the value on the two sides of the first `=`. Without an `=` there is no name.
fn name_value(piece: &[u8]) -> (&[u8], &[u8])
    ensures { (result.0.now, result.1.now) ≡ spec.received_name_value (cut 61 piece.now) }
{
    match cut(piece, b'=') {
        (name, Some(value)) => (trim_wsp(name), trim_wsp(value)),
        (value, None) => (&[], trim_wsp(value)),
    }
}

impl<'t> Received<'t> {
    /// Reads the text of one `Set-Cookie` header as a browser does. Returns `ControlCharacter` or `TooLong` if the
    /// browser ignores the whole text (RFC 6265bis, The Set-Cookie Header Field).
    ///
    /// `a=1; Path=/; Secure` has the name `a`, the value `1`, the path `/`, and `secure` set.
    #[tactic(auto, unfolding(crate::specs::Received::received))]
    pub fn of(text: &'t [u8]) -> Result<Received<'t>, Refusal>
        ensures value { received_result result ≡ spec.received text.entry.now }

        // A text that `cookie_core` prints has its name, value and attributes.
        ensures printed { IsPrintedReceived }
    {
        if has_control(text) {
            return Err(Refusal::ControlCharacter);
        }
        let (first, rest) = cut(text, b';');
        let (name, value) = name_value(first);
        if name.len() + value.len() > MOST_BYTES {
            return Err(Refusal::TooLong);
        }
        Ok(Received {
            name,
            value,
            attributes: ReceivedAttributes::read(rest),
        })
    }
}
