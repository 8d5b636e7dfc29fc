//! Whether a user agent could have stored a cookie (RFC 6265bis, Storage Model).
ghost use Rattle.std.specs.Prelude.{◌≡◌, ◌&&◌, codes};
ghost use Rattle.std.specs.List.{list_all};
ghost use Rattle.std.specs.Str.{bytes_eq};
ghost use Rattle.cookie_browser.specs.RefusedCode.{kept_view};
ghost use Rattle.cookie_agent.specs.Storable as spec;

use cookie_browser::{Enforcement, KeptCookie};
use cookie_core::{EnforcedPrefix, Guards, MOST_BYTES, trim_wsp};

// The length of the longest attribute's value that isn't passed over (RFC 6265bis, The Set-Cookie Header Field).
const ATTRIBUTE_LIMIT: usize = 1024;

// Whether a received name or value can have the byte.
fn is_received_byte(byte: u8) -> bool
    ensures { result ≡ spec.is_received_byte byte }
{
    byte == 9 || (byte >= 32 && byte != 127 && byte != b';')
}

// Whether a name and a value of this length can be received.
fn is_received_length(length: usize) -> bool
    ensures { result ≡ spec.is_received_length length }
{
    length > 0 && length <= MOST_BYTES
}

fn are_received_bytes(text: &[u8]) -> bool
    ensures { result ≡ list_all spec.is_received_byte text.now }
{
    text.iter().all(|&byte| is_received_byte(byte))
}

fn is_received_text(text: &[u8]) -> bool
    ensures { result ≡ spec.is_received_text text.now }
{
    are_received_bytes(text) && trim_wsp(text) == text
}

fn lacks_equals_sign(text: &[u8]) -> bool
    ensures { result ≡ spec.lacks_equals_sign text.now }
{
    text.iter().all(|&byte| byte != b'=')
}

// Whether the name and the value can be received together.
fn is_received_pair(name: &[u8], value: &[u8]) -> bool
    ensures { result ≡ spec.is_received_pair name.now value.now }
{
    is_received_text(name)
        && is_received_text(value)
        && lacks_equals_sign(name)
        && is_received_length(name.len() + value.len())
}

fn is_label_byte(byte: u8) -> bool
    ensures { result ≡ spec.is_label_byte byte }
{
    byte.is_ascii_lowercase() || byte.is_ascii_digit() || byte == b'-' || byte == b'_'
}

// Whether a host name goes on with the byte: a dot ends a label, which isn't empty.
fn can_follow(is_label_due: bool, byte: u8) -> bool
    ensures { result ≡ spec.can_follow is_label_due byte }
{
    if byte == b'.' {
        !is_label_due
    } else {
        is_label_byte(byte)
    }
}

// Whether the text is labels with a dot between them, and maybe one after the last.
fn is_host_name(text: &[u8]) -> bool
    ensures { result ≡ spec.is_host_name text.now }
{
    let mut is_label_due = true;
    for &byte in text {
        if !can_follow(is_label_due, byte) {
            return false;
        }
        is_label_due = byte == b'.';
    }
    !text.is_empty()
}

fn is_six_byte(byte: u8) -> bool
    ensures { result ≡ spec.is_six_byte byte }
{
    byte.is_ascii_digit() || matches!(byte, b'a'..=b'f' | b':' | b'.')
}

fn are_six_bytes(text: &[u8]) -> bool
    ensures { result ≡ list_all spec.is_six_byte text.now }
{
    text.iter().all(|&byte| is_six_byte(byte))
}

// Whether the text is an IPv6 address in brackets.
fn is_six(text: &[u8]) -> bool
    ensures { result ≡ spec.is_six text.now }
{
    match text {
        [b'[', address @ .., b']'] => !address.is_empty() && are_six_bytes(address),
        _ => false,
    }
}

fn is_domain(text: &[u8]) -> bool
    ensures { result ≡ spec.is_domain text.now }
{
    is_host_name(text) || is_six(text)
}

// Whether the domain is the host, or an attribute can name it.
fn can_be_set(cookie: &KeptCookie<'_>) -> bool
    ensures { result ≡ spec.can_be_set (kept_view cookie.now) }
{
    cookie.is_host_only || cookie.domain.len() <= ATTRIBUTE_LIMIT
}

fn is_request_byte(byte: u8) -> bool
    ensures { result ≡ spec.is_request_byte byte }
{
    byte > 32 && byte != 127
}

fn are_request_bytes(text: &[u8]) -> bool
    ensures { result ≡ list_all spec.is_request_byte text.now }
{
    text.iter().all(|&byte| is_request_byte(byte))
}

fn is_request_path(path: &[u8]) -> bool
    ensures { result ≡ spec.is_request_path path.now }
{
    path.starts_with(b"/") && are_request_bytes(path)
}

fn is_path_value(path: &[u8]) -> bool
    ensures { result ≡ spec.is_path_value path.now }
{
    path.starts_with(b"/") && is_received_text(path) && path.len() <= ATTRIBUTE_LIMIT
}

// Whether an attribute can name the path, or it is a folder of a request's path, which may have a `;`.
fn is_path(path: &[u8]) -> bool
    ensures { result ≡ spec.is_path path.now }
{
    is_path_value(path) || is_request_path(path)
}

// What the cookie has of that which prefixes require.
fn guards_of(cookie: &KeptCookie<'_>) -> Guards
    ensures { result ≡ spec.guards_of (kept_view cookie.now) }
{
    Guards {
        is_secure: cookie.is_secure_only,
        is_http_only: cookie.is_http_only,
        is_host_bound: is_host_bound(cookie),
    }
}

fn is_host_bound(cookie: &KeptCookie<'_>) -> bool
    ensures { result ≡ (cookie.now.is_host_only && bytes_eq cookie.now.path.now (codes "/")) }
{
    cookie.is_host_only && cookie.path == b"/".as_slice()
}

// Whether it has a name, or its value begins with no prefix.
fn meets_nameless_prefix(cookie: &KeptCookie<'_>) -> bool
    ensures { result ≡ spec.meets_nameless_prefix (kept_view cookie.now) }
{
    !cookie.name.is_empty() || !EnforcedPrefix::any_begins(cookie.value)
}

fn meets_name_prefix(cookie: &KeptCookie<'_>) -> bool
    ensures { result ≡ spec.meets_name_prefix (kept_view cookie.now) }
{
    EnforcedPrefix::unmet(cookie.name, guards_of(cookie)).is_none() && meets_nameless_prefix(cookie)
}

// Whether `SameSite=None` has the `Secure` that it requires.
fn meets_same_site(cookie: &KeptCookie<'_>) -> bool
    ensures { result ≡ spec.meets_same_site (kept_view cookie.now) }
{
    !matches!(cookie.same_site, Enforcement::None) || cookie.is_secure_only
}

// Whether a user agent could have stored the cookie, whatever the public suffixes and the time are.
pub(crate) fn is_storable(cookie: &KeptCookie<'_>) -> bool
    ensures { result ≡ spec.is_storable (kept_view cookie.now) }
{
    is_received_pair(cookie.name, cookie.value)
        && is_domain(cookie.domain)
        && can_be_set(cookie)
        && is_path(cookie.path)
        && meets_name_prefix(cookie)
        && meets_same_site(cookie)
}
