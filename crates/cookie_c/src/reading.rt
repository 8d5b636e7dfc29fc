//! Reading a `Set-Cookie` text for C (RFC 6265 5.2).
ghost use Rattle.std.specs.Prelude.{◌≡◌, IsUtf8, IfSome, option_map};
ghost use Rattle.cookie.specs.Layout.{layout_record, IsLayoutIn};
ghost use Rattle.cookie.specs.Record.{without_leading_dot};
ghost use Rattle.cookie.specs.Spans.{StandsIn, span_text};
ghost use Rattle.cookie_c.specs.Spans.{IsAt, IsOptionalAt};
ghost use Rattle.cookie_c.specs.Readings.{refused_reading, ShowsCookie, IsReadingOf};
ghost use Rattle.cookie_c.specs.declared.status.Status.TheVariants as status;

use crate::attributes::Attributes;
use crate::span::Span;
use crate::status::Status;
use cookie::Layout;

/// A cookie that was read from a text. Its decoded name and value may be in a buffer.
#[repr(C)]
#[derive(Clone, Copy, Default)]
pub struct Reading {
    /// The number of a `Status`. If it is neither `Status::Done` nor `Status::BufferTooShort`, the spans are 0, and no
    /// attribute is set.
    pub status: u32,
    /// Where the name is.
    pub name: Span,
    /// Where the value is.
    pub value: Span,
    /// Where the path is, if it has one.
    pub path: Span,
    /// Where the domain is, without one leading dot, if it has one.
    pub domain: Span,
    /// Its attributes.
    pub attributes: Attributes,
}

impl Reading {
    pub(crate) fn refusal(why: Status) -> Reading
        ensures { result ≡ refused_reading why }
    {
        Reading {
            status: why.code(),
            attributes: Attributes::none(),
            ..Reading::default()
        }
    }

    #[tactic(auto, using(crate::proofs::ReadingLemmas::name_is_between, crate::proofs::ReadingLemmas::value_is_between))]
    pub(crate) fn of(text: &str, layout: Layout) -> Reading
        requires { IsLayoutIn text.now layout }
        ensures { ShowsCookie text.now (layout_record text.now layout) result }
    {
        Reading {
            status: Status::Done.code(),
            name: Span::after(0, layout.name),
            value: Span::after(0, layout.value),
            path: path_span(text, layout.attributes.path),
            domain: domain_span(text, layout.attributes.domain),
            attributes: Attributes::of(layout.attributes),
        }
    }
}

/// Reads the text of a `Set-Cookie` header as a cookie, as `Cookie::parse` does. It doesn't allocate.
///
/// Refuses a text that isn't UTF-8, then one with no `=` in its first piece, up to a `;`, and then one with an empty
/// name.
#[unsafe(no_mangle)]
pub extern "C" fn cookie_read(text: &[u8]) -> Reading
    ensures not_utf8 { ¬ IsUtf8 text.now → result ≡ refused_reading status.NotUtf8 }
    ensures read { IsUtf8 text.now → IsReadingOf text.now result }
{
    let Ok(text) = str::from_utf8(text) else {
        return Reading::refusal(Status::NotUtf8);
    };
    match Layout::of(text) {
        Ok(layout) => Reading::of(text, layout),
        Err(error) => Reading::refusal(Status::of(error)),
    }
}

// The span of a path, if there is one.
fn path_span(text: &str, part: Option<cookie::Span>) -> Span
    requires { IfSome part (StandsIn text.now) }
    ensures { IsOptionalAt text.now result (option_map (span_text text.now) part) }
{
    match part {
        Some(part) => Span::after(0, part),
        None => Span::default(),
    }
}

// The span of a domain without one leading dot, if there is one.
fn domain_span(text: &str, part: Option<cookie::Span>) -> Span
    requires { IfSome part (StandsIn text.now) }
    ensures { IsOptionalAt text.now result
        (option_map without_leading_dot (option_map (span_text text.now) part)) }
{
    match part {
        Some(part) => span_after_dot(text, part),
        None => Span::default(),
    }
}

fn span_after_dot(text: &str, part: cookie::Span) -> Span
    requires { StandsIn text.now part }
    ensures { IsAt text.now result (without_leading_dot (span_text text.now part)) }
{
    let domain = &text[part.start..part.end];
    match domain.strip_prefix('.') {
        Some(rest) => Span {
            start: part.start + 1,
            length: rest.len(),
        },
        None => Span::after(0, part),
    }
}
