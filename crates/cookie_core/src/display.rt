//! The text of a cookie (RFC 6265 4.1.1).
ghost use Rattle.std.specs.Prelude.{◌≡◌, Some, None, option_map, true, false, codes, List, ℕ, IfOk, string_bytes};
ghost use Rattle.std.specs.Fmt.{DisplaysOnOk};
ghost use Rattle.cookie_core.specs.Display.{DisplayView};
ghost use Rattle.cookie_core.specs.Escapes.{printed_form};
ghost use Rattle.cookie_core.specs.Text.{is_true, prints_secure, is_same_site_none, cookie_text, flag_text, scope_text, place_text, lifetime_text, attribute_text, seconds_text, expiry_text};
ghost use Rattle.cookie_core.specs.Printers.{labelled_output, moment_text_of};

use crate::cookie::Cookie;
use crate::encoding::encode;
use crate::same_site::SameSite;
use cookie_date::DateText;
use std::alloc::{AllocError, Allocator};
use std::fmt;
use std::marker::Model;

// The bytes that a text reserves beside its name, its value, its path and its domain: for the flags and the labels, and
// for an age and a date.
const FLAGS_ROOM: usize = 64;

const LIFETIME_ROOM: usize = 70;

// Writes a flag's text, if it is shown.
fn write_flag<W: fmt::Write>(f: &mut fmt::Formatter<W>, text: &str, is_shown: bool) -> fmt::Result
    ensures { DisplaysOnOk W.write_str_gives f.old result
        (Some (flag_text text.now is_shown)) f.new }
{
    if is_shown {
        f.write_str(text)?;
    }
    Ok(())
}

// Writes a label and a value, if there is one.
fn write_labelled<W: fmt::Write, V: fmt::Display + Drop>(
    f: &mut fmt::Formatter<W>,
    label: &str,
    value: Option<V>,
) -> fmt::Result
    ensures { DisplaysOnOk W.write_str_gives f.old result
        (labelled_output label.now (option_map V.output value)) f.new }
{
    match value {
        Some(value) => write!(f, "{label}{value}"),
        None => Ok(()),
    }
}

// Writes a name or a value, escaped if `is_encoded`.
fn write_text<W: fmt::Write>(f: &mut fmt::Formatter<W>, text: &str, is_encoded: bool) -> fmt::Result
    ensures { DisplaysOnOk W.write_str_gives f.old result
        (Some (printed_form is_encoded text.now)) f.new }
{
    if is_encoded {
        fmt::Display::fmt(&encode(text), f)
    } else {
        f.write_str(text)
    }
}

impl<'c> Cookie<'c> {
    fn is_partitioned(&self) -> bool
        ensures { result ≡ is_true self.now.fields.partitioned }
    {
        matches!(self.partitioned(), Some(true))
    }

    /// Whether `Secure` is printed (RFC 6265bis 4.1.2). It is printed if it is set to true, if the cookie is
    /// partitioned, and, unless it is set to false, if `SameSite` is `None`.
    pub fn prints_secure(&self) -> bool
        ensures { result ≡ prints_secure self.now.fields }
    {
        match self.secure() {
            Some(true) => true,
            Some(false) => self.is_partitioned(),
            None => self.is_partitioned() || matches!(self.same_site(), Some(SameSite::None)),
        }
    }

    fn expiry_text(&self) -> Option<DateText>
        ensures { option_map moment_text_of result ≡ expiry_text self.now.fields.expires }
    {
        Some(DateText(self.expires_datetime()?))
    }
}

// Writes to which requests the cookie is shown.
fn write_scope<W: fmt::Write>(f: &mut fmt::Formatter<W>, cookie: &Cookie<'_>) -> fmt::Result
    ensures { DisplaysOnOk W.write_str_gives f.old result
        (Some (scope_text cookie.now.fields)) f.new }
{
    write_flag(f, "; HttpOnly", matches!(cookie.http_only(), Some(true)))?;
    write_labelled(f, "; SameSite=", cookie.same_site())?;
    write_flag(f, "; Partitioned", cookie.is_partitioned())?;
    write_flag(f, "; Secure", cookie.prints_secure())
}

// Writes the path and the domain of the cookie.
fn write_place<W: fmt::Write>(f: &mut fmt::Formatter<W>, cookie: &Cookie<'_>) -> fmt::Result
    ensures { DisplaysOnOk W.write_str_gives f.old result
        (Some (place_text cookie.now.fields)) f.new }
{
    write_labelled(f, "; Path=", cookie.path())?;
    write_labelled(f, "; Domain=", cookie.domain())
}

// Writes the age of the cookie, in whole seconds.
fn write_max_age<W: fmt::Write>(f: &mut fmt::Formatter<W>, cookie: &Cookie<'_>) -> fmt::Result
    ensures { DisplaysOnOk W.write_str_gives f.old result
        (Some (attribute_text (codes "; Max-Age=")
        (option_map seconds_text cookie.now.fields.max_age))) f.new }
{
    write_labelled(f, "; Max-Age=", cookie.whole_seconds())
}

// Writes the expiry of the cookie, if it is a date-time.
fn write_expires<W: fmt::Write>(f: &mut fmt::Formatter<W>, cookie: &Cookie<'_>) -> fmt::Result
    ensures { DisplaysOnOk W.write_str_gives f.old result
        (Some (attribute_text (codes "; Expires=") (expiry_text cookie.now.fields.expires))) f.new }
{
    write_labelled(f, "; Expires=", cookie.expiry_text())
}

// Writes how long the cookie is kept.
fn write_lifetime<W: fmt::Write>(f: &mut fmt::Formatter<W>, cookie: &Cookie<'_>) -> fmt::Result
    ensures { DisplaysOnOk W.write_str_gives f.old result
        (Some (lifetime_text cookie.now.fields)) f.new }
{
    write_max_age(f, cookie)?;
    write_expires(f, cookie)
}

// Writes the cookie, with its name and value escaped if `is_encoded`, and without its attributes if `is_stripped`.
fn write_cookie<W: fmt::Write>(
    f: &mut fmt::Formatter<W>,
    cookie: &Cookie<'_>,
    is_encoded: bool,
    is_stripped: bool,
) -> fmt::Result
    ensures { DisplaysOnOk W.write_str_gives f.old result
        (Some (cookie_text is_encoded is_stripped cookie.now.fields)) f.new }
{
    write_text(f, cookie.name(), is_encoded)?;
    f.write_str("=")?;
    write_text(f, cookie.value(), is_encoded)?;
    if is_stripped {
        return Ok(());
    }
    write_scope(f, cookie)?;
    write_place(f, cookie)?;
    write_lifetime(f, cookie)
}

/// A cookie as it is printed: its name and value escaped or as they are, and with its attributes or without
/// (RFC 6265 4.1.1).
///
/// The attributes are printed in this order, each if it is set: `HttpOnly`, `SameSite`, `Partitioned`, `Secure`,
/// `Path`, `Domain`, `Max-Age` in whole seconds, `Expires` in whole seconds of UTC. A flag that is false isn't printed.
/// `Secure` is printed if it is set to true, if the cookie is partitioned, and, unless it is set to false, if
/// `SameSite` is `None` (RFC 6265bis 4.1.2). Path and domain are printed as they are, and so are name and value unless
/// they are escaped: docs/DIFFERENCES.md says what they mustn't hold.
#[derive(Drop)]
pub struct Display<'a, 'c> {
    cookie: &'a Cookie<'c>,
    is_encoded: bool,
    is_stripped: bool,
}

// Contracts see it as the cookie's record, with two flags: whether it is encoded, and whether it is stripped.
impl<'a, 'c> Model for Display<'a, 'c> {
    ghost use Rattle.cookie_core.specs.Display.{DisplayView};

    ghost Value = { DisplayView };

    ghost view = { λ d. record {
      fields = d.cookie.now.fields;
      is_encoded = d.is_encoded;
      is_stripped = d.is_stripped;
    } };
}

impl<'a, 'c> Display<'a, 'c> {
    /// The same, with its name and value escaped.
    pub fn encoded(self) -> Display<'a, 'c>
        ensures { result ≡ record self.entry { is_encoded = true } }
    {
        Display {
            cookie: self.cookie,
            is_encoded: true,
            is_stripped: self.is_stripped,
        }
    }

    /// The same, without its attributes.
    /// Example: `pair_text` in crates/cookie_examples/src/reading.rt.
    pub fn stripped(self) -> Display<'a, 'c>
        ensures { result ≡ record self.entry { is_stripped = true } }
    {
        Display {
            cookie: self.cookie,
            is_encoded: self.is_encoded,
            is_stripped: true,
        }
    }

    /// The text, in a `String` that reserves its room at once. Only escapes make it grow.
    ///
    /// Fails only if out of memory.
    /// Example: `pair_text` in crates/cookie_examples/src/reading.rt.
    pub fn to_string<A: Allocator>(&self, alloc: A) -> Result<String<A>, AllocError>
        ensures ok { IfOk result (λ text. string_bytes text
            ≡ cookie_text self.now.is_encoded self.now.is_stripped self.now.fields) }
    {
        let mut text = String::with_capacity(alloc, self.room())?;
        text.write(self)?;
        Ok(text)
    }

    // The number of bytes that its text reserves at first.
    fn room(&self) -> usize {
        let (name, value) = self.cookie.name_value();
        let pair = name.len().saturating_add(value.len()).saturating_add(1);
        if self.is_stripped {
            return pair;
        }
        pair.saturating_add(self.cookie.attributes_room())
    }
}

impl<'c> Cookie<'c> {
    // The number of bytes that the text of its attributes reserves at first.
    fn attributes_room(&self) -> usize {
        let path = self.path().map_or(0, str::len);
        let domain = self.domain().map_or(0, str::len);
        let is_kept = self.max_age().is_some() || self.expires().is_some();
        let lifetime = if is_kept { LIFETIME_ROOM } else { 0 };
        path.saturating_add(domain)
            .saturating_add(FLAGS_ROOM)
            .saturating_add(lifetime)
    }
}

impl<'c> Cookie<'c> {
    /// The cookie as a `Set-Cookie` header has it, with its name and value escaped (RFC 6265 4.1.1, RFC 3986 2.1).
    /// Example: `pair_text` in crates/cookie_examples/src/reading.rt.
    pub fn encoded(&self) -> Display<'_, 'c>
        ensures { result
            ≡ record { fields = self.now.fields; is_encoded = true; is_stripped = false } }
    {
        Display {
            cookie: self,
            is_encoded: true,
            is_stripped: false,
        }
    }

    /// The cookie as a `Cookie` header has it: its name and value as they are, without its attributes (RFC 6265 4.2.1).
    /// A `;`, CR or LF in them is printed too.
    pub fn stripped(&self) -> Display<'_, 'c>
        ensures { result
            ≡ record { fields = self.now.fields; is_encoded = false; is_stripped = true } }
    {
        Display {
            cookie: self,
            is_encoded: false,
            is_stripped: true,
        }
    }
}

/// Prints the name and the value, escaped if it is encoded, and the attributes unless it is stripped.
impl<'a, 'c> fmt::Display for Display<'a, 'c> {
    ghost output = { λ d. Some (cookie_text d.is_encoded d.is_stripped d.fields) };

    fn fmt<W: fmt::Write>(&self, f: &mut fmt::Formatter<W>) -> fmt::Result {
        write_cookie(f, self.cookie, self.is_encoded, self.is_stripped)
    }
}

/// Prints the cookie as a `Set-Cookie` header has it, with its name and value as they are, and with the attributes in
/// the order of [`Display`]. A `;`, CR or LF in a text is printed too.
impl<'c> fmt::Display for Cookie<'c> {
    ghost output = { λ c. Some (cookie_text false false c.fields) };

    fn fmt<W: fmt::Write>(&self, f: &mut fmt::Formatter<W>) -> fmt::Result {
        write_cookie(f, self, false, false)
    }
}
