//! Spaces and tabs, which user agents trim.
ghost use Rattle.std.specs.Prelude.{◌≡◌};
ghost use Rattle.cookie_core.specs.Wsp as spec;

fn is_wsp(byte: u8) -> bool
    ensures { result ≡ spec.is_wsp byte }
{
    byte == b' ' || byte == b'\t'
}

/// The text without spaces and tabs at its ends, as user agents trim it (RFC 6265bis, The Set-Cookie Header Field).
pub fn trim_wsp(text: &[u8]) -> &[u8]
    ensures { result.now ≡ spec.trim_wsp text.now }
{
    let start = text.iter().take_while(|&&byte| is_wsp(byte)).count();
    let rest = &text[start..];
    let trailing = rest.iter().rev().take_while(|&&byte| is_wsp(byte)).count();
    &rest[..rest.len() - trailing]
}
