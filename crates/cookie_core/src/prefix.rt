//! Prefixes of texts, in any ASCII case.
ghost use Rattle.std.specs.Prelude.{◌≡◌};
ghost use Rattle.cookie_core.specs.SentNames as spec;

/// Whether the text begins with the prefix, in any ASCII case. So a browser tests a name for `__Host-` and `__Secure-`
/// (RFC 6265bis, Cookie Name Prefixes).
pub fn begins_in_any_case(prefix: &[u8], text: &[u8]) -> bool
    ensures { result ≡ spec.begins_in_any_case prefix.now text.now }
{
    match text.get(..prefix.len()) {
        Some(front) => prefix.eq_ignore_ascii_case(front),
        None => false,
    }
}
