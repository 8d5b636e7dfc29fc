//! Which paths and domains a `Set-Cookie` header can hold (RFC 6265 4.1.1).
ghost use Rattle.std.specs.Prelude.{◌≡◌, ◌↔◌, IsTrue, IfSome, option_map};
ghost use Rattle.cookie.specs.AttributeValues.{AllFitFields, FitsField, IsAttributeValue, is_attribute_byte};

use crate::jar::CookieJar;
use cookie_core::Cookie;

/// Returns whether the text can be the value of a path or a domain: it holds no control character and no `;` (RFC 6265
/// 4.1.1). A line break would begin another header, and a `;` another attribute. So of a path that a stranger chose:
/// `if is_attribute_value(path) { cookie.set_path(path) }`. It doesn't allocate.
pub fn is_attribute_value(text: &str) -> bool
    ensures { IsTrue result ↔ IsAttributeValue text.now }
{
    text.as_bytes()
        .iter()
        .all(|&byte| byte >= b' ' && byte != 127 && byte != b';')
}

/// Returns whether the cookie's path and domain, if it has them, can be values of attributes (`is_attribute_value`). It
/// doesn't allocate.
pub fn fits_field(cookie: &Cookie<'_>) -> bool
    ensures { IsTrue result ↔ FitsField cookie.now.fields }
{
    is_unset_or_value(cookie.path()) && is_unset_or_value(cookie.domain())
}

fn is_unset_or_value(text: Option<&str>) -> bool
    ensures { IsTrue result ↔ IfSome (option_map (λ t. t.now) text.entry) IsAttributeValue }
{
    match text {
        Some(text) => is_attribute_value(text),
        None => true,
    }
}

impl CookieJar {
    /// Returns whether each cookie of the delta fits a `Set-Cookie` header (`fits_field`). If not, `set_cookie_texts`
    /// refuses the delta. It doesn't allocate.
    pub fn fits_fields(&self) -> bool
        ensures { IsTrue result ↔ AllFitFields self.now.delta }
    {
        for cookie in self.delta() {
            if !fits_field(cookie) {
                return false;
            }
        }
        true
    }
}
