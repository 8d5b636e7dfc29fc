//! Which lines of a paste count.
ghost use Rattle.std.specs.Prelude.{◌≡◌, IfOk, filter};
ghost use Rattle.std.specs.Io.BufRead.{strip_last};
ghost use Rattle.std.specs.List.{list_any};
ghost use Rattle.cookie_report.specs.Paste as spec;

use crate::bytes::cut;
use cookie_core::{begins_in_any_case, trim_wsp};
use std::alloc::{AllocError, Global};
use std::marker::Model;

/// What a line is.
#[derive(Clone, Copy)]
pub enum Kind {
    /// It is empty or blank.
    Blank,
    /// It is a `Set-Cookie` field.
    Field,
    /// It names the address that the next lines come from.
    Url,
    /// It names the address of a request.
    Get,
    /// It names the time from there on.
    Now,
    /// It is any other text.
    Text,
}

/// A line: what it is, and what it says.
#[derive(Drop)]
pub struct Line<'a> {
    /// What it is.
    pub kind: Kind,
    /// The value of the field, what follows the word, or all of the line.
    pub text: &'a [u8],
}

impl<'a> Model for Line<'a> {
    ghost use Rattle.cookie_report.specs.Paste.{LineView};

    ghost Value = { LineView };

    ghost view = { λ l. record {
      kind = l.kind;
      text = l.text.now;
    } };
}

// The line without one carriage return at its end.
fn without_return(line: &[u8]) -> &[u8]
    ensures { result.now ≡ strip_last 13 line.now }
{
    let length = line.len();
    if length > 0 && line[length - 1] == b'\r' {
        &line[..length - 1]
    } else {
        line
    }
}

// And without spaces and tabs around the rest.
fn bare(line: &[u8]) -> &[u8]
    ensures { result.now ≡ spec.bare line.now }
{
    trim_wsp(without_return(line))
}

// The line without the mark `< ` that curl sets before a response's header.
fn unmarked(line: &[u8]) -> &[u8]
    ensures { result.now ≡ spec.unmarked line.now }
{
    if line.starts_with(b"< ") {
        &line[2..]
    } else {
        line
    }
}

#[tactic(auto, unfolding(crate::specs::Paste::is_field))]
fn is_field(line: &[u8]) -> bool
    ensures { result ≡ spec.is_field line.now }
{
    begins_in_any_case(b"set-cookie:", unmarked(line))
}

// What a line without blanks around it is.
#[tactic(auto, unfolding(crate::specs::Paste::kind_of, crate::specs::Paste::is_url, crate::specs::Paste::is_get, crate::specs::Paste::is_now))]
fn kind_of(line: &[u8]) -> Kind
    ensures { result ≡ spec.kind_of line.now }
{
    if line.is_empty() {
        return Kind::Blank;
    }
    if is_field(line) {
        return Kind::Field;
    }
    if line.starts_with(b"URL http://") || line.starts_with(b"URL https://") {
        return Kind::Url;
    }
    if line.starts_with(b"GET http://") || line.starts_with(b"GET https://") {
        return Kind::Get;
    }
    if line.starts_with(b"NOW ") {
        return Kind::Now;
    }
    Kind::Text
}

// What a line of this kind says.
fn text_of(kind: Kind, line: &[u8]) -> &[u8]
    ensures { result.now ≡ spec.text_of kind line.now }
{
    match kind {
        Kind::Field => trim_wsp(unmarked(line).get(11..).unwrap_or(b"")),
        Kind::Url | Kind::Get | Kind::Now => trim_wsp(line.get(4..).unwrap_or(b"")),
        Kind::Blank | Kind::Text => line,
    }
}

impl<'a> Line<'a> {
    fn of(line: &'a [u8]) -> Line<'a>
        ensures { result ≡ spec.line_of line.now }
    {
        let line = bare(line);
        let kind = kind_of(line);
        Line {
            kind,
            text: text_of(kind, line),
        }
    }

    fn is_field(&self) -> bool
        ensures { result ≡ spec.is_field_line self.now }
    {
        matches!(self.kind, Kind::Field)
    }

    // Whether the line counts, in a paste with `Set-Cookie` fields or without.
    fn counts(&self, has_fields: bool) -> bool
        ensures { result ≡ spec.counts has_fields self.now }
    {
        match self.kind {
            Kind::Blank => false,
            Kind::Text => !has_fields,
            Kind::Field | Kind::Url | Kind::Get | Kind::Now => true,
        }
    }
}

// All lines of the paste.
fn all_lines<'a>(alloc: Global, paste: &'a [u8]) -> Result<Vec<Line<'a>>, AllocError>
    ensures { IfOk result (λ lines. lines.items ≡ spec.all_lines paste.now) }
{
    let mut lines = Vec::new(alloc);
    let mut rest = Some(paste);
    while let Some(text) = rest {
        let (line, after) = cut(text, b'\n');
        lines.push(Line::of(line))?;
        rest = after;
    }
    Ok(lines)
}

fn has_field(lines: &[Line<'_>]) -> bool
    ensures { result ≡ list_any spec.is_field_line lines.now }
{
    lines.iter().any(|line| line.is_field())
}

// Drops the lines that don't count.
fn drop_others(lines: &mut Vec<Line<'_>>, has_fields: bool)
    ensures { lines.new.items ≡ filter (spec.counts has_fields) lines.old.items }
{
    lines.retain(|line| line.counts(has_fields));
}

/// The lines of the paste that count, in its order: `Set-Cookie` fields, and lines that name an address or a time. If
/// there is no field, each line that isn't blank counts. Fails only if out of memory.
pub fn counted_lines<'a>(alloc: Global, paste: &'a [u8]) -> Result<Vec<Line<'a>>, AllocError>
    ensures { IfOk result (λ lines. lines.items ≡ spec.counted_lines paste.now) }
{
    let mut lines = all_lines(alloc, paste)?;
    let has_fields = has_field(&lines);
    drop_others(&mut lines, has_fields);
    Ok(lines)
}
