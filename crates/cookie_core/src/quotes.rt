//! A value without the quotes around it (RFC 6265 4.1.1).
ghost use Rattle.std.specs.Prelude.{◌≡◌};
ghost use Rattle.cookie_core.specs.Quotes.{trimmed_value};

// The value without a `"` at both ends if it has both, else the whole value.
pub(crate) fn trim_quotes(value: &str) -> &str
    ensures { result.now ≡ trimmed_value value.now }
{
    if value.len() >= 2 && value.starts_with('"') && value.ends_with('"') {
        &value[1..value.len() - 1]
    } else {
        value
    }
}
