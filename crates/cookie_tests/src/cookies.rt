//! One cookie: the calls of a builder, what outlives a cookie that was read, the places of a text's parts, and long
//! texts.
use crate::moment::moment;
use cookie_core::{Cookie, CookieBuilder, Expiration, Layout, ParseError, SameSite, Span};
use jiff::SignedDuration;
use jiff::civil::datetime;
use std::test::Fail;

fn pair() -> CookieBuilder<'static> {
    CookieBuilder::new("a", "1")
}

#[test]
fn a_builder_sets_each_field(rt: HostRuntime) -> Result<(), Fail> {
    let flags = pair().http_only(true).secure(false).partitioned(true);
    let texts = flags.same_site(SameSite::Lax).path("/x").domain(".b.c");
    let age = texts.max_age(SignedDuration::from_millis(90_700));
    let cookie = age.expires(Expiration::Session).build();
    assert!(rt; cookie.name_value() == ("a", "1"));
    assert!(rt; (cookie.path(), cookie.domain()) == (Some("/x"), Some("b.c")));
    assert!(rt; (cookie.secure(), cookie.http_only()) == (Some(false), Some(true)));
    assert!(rt; (cookie.partitioned(), cookie.same_site()) == (Some(true), Some(SameSite::Lax)));
    assert!(rt; cookie.max_age() == Some(SignedDuration::from_millis(90_700)));
    assert!(rt; cookie.expires() == Some(Expiration::Session));
    let path = String::from_str(rt.alloc(), "/x")?;
    let domain = String::from_str(rt.alloc(), ".c.d")?;
    let cookie = pair().path_owned(path).domain_owned(domain).build();
    assert!(rt; (cookie.path(), cookie.domain()) == (Some("/x"), Some("c.d")));
    Ok(())
}

#[test]
fn a_builder_makes_lasting_cookies_and_removals(rt: HostRuntime) {
    let cookie = pair().permanent(moment()).build();
    assert!(rt; cookie.max_age() == Some(SignedDuration::from_secs(630_720_000)));
    assert!(rt; cookie.expires_datetime() == Some(datetime(2035, 10, 16, 7, 28, 0, 0)));
    let cookie = pair().permanent(datetime(9999, 6, 1, 0, 0, 0, 0)).build();
    let last = datetime(9999, 12, 31, 23, 59, 59, 999_999_000);
    assert!(rt; cookie.expires_datetime() == Some(last));
    let cookie = pair().path("/x").path("/y").removal(moment()).build();
    assert!(rt; (cookie.value(), cookie.path()) == ("", Some("/y")));
    assert!(rt; cookie.max_age() == Some(SignedDuration::from_secs(0)));
    assert!(rt; cookie.expires_datetime() == Some(datetime(2014, 10, 21, 7, 28, 0, 0)));
}

#[test]
fn a_builder_lends_copies_and_gives_its_cookie(rt: HostRuntime) -> Result<(), Fail> {
    let mut builder = Cookie::build(Cookie::new("a", "1")).path("/x");
    builder.inner_mut().set_path("/y");
    let copy = builder.clone(rt.alloc())?;
    assert!(rt; builder.inner().path() == Some("/y") && copy == builder);
    assert!(rt; copy.finish() == builder.finish());
    Ok(())
}

#[test]
fn a_header_that_has_ended_gives_no_items(rt: HostRuntime) {
    let mut items = Cookie::split_parse(" ;");
    for _ in 0..3 {
        assert!(rt; items.next().is_none());
    }
}

#[test]
fn cookie_string_long_lifetimes(rt: HostRuntime) -> Result<(), Fail> {
    let cookie = Cookie::parse("bar=baz; Path=/subdir; HttpOnly; Domain=crates.io")?;
    let pair = (cookie.name_raw(), cookie.value_raw());
    let scope = (cookie.path_raw(), cookie.domain_raw());
    drop(cookie);
    assert!(rt; pair == (Some("bar"), Some("baz")));
    assert!(rt; scope == (Some("/subdir"), Some("crates.io")));
    Ok(())
}

fn is_at(span: Span, start: usize, end: usize) -> bool {
    (span.start, span.end) == (start, end)
}

#[test]
fn the_parts_of_a_text_have_their_places(rt: HostRuntime) -> Result<(), Fail> {
    let layout = Layout::of(" bar = baz ; Path=/subdir; HttpOnly; Domain=.crates.io")?;
    let attributes = layout.attributes;
    assert!(rt; is_at(layout.name, 1, 4) && is_at(layout.value, 7, 10));
    assert!(rt; matches!(attributes.path, Some(path) if is_at(path, 18, 25)));
    assert!(rt; matches!(attributes.domain, Some(domain) if is_at(domain, 44, 54)));
    assert!(rt; (attributes.http_only, attributes.secure) == (Some(true), None));
    assert!(rt; attributes.expires.is_none());
    assert!(rt; matches!(Layout::of("bar"), Err(ParseError::MissingPair)));
    Ok(())
}

#[test]
fn white_space_at_the_ends_is_left_out(rt: HostRuntime) {
    assert!(rt; is_at(Span::trim("\u{2003} a = 1 \u{85}"), 4, 9));
    assert!(rt; is_at(Span::trim("a"), 0, 1));
    let blank = Span::trim(" \t\u{3000}");
    assert!(rt; blank.start == blank.end);
}

#[test]
fn long_headers_are_split(rt: HostRuntime) -> Result<(), Fail> {
    let header = "=;".repeat(rt.alloc(), 10_000)?;
    let decoded = Cookie::split_parse_encoded(rt.alloc(), &header);
    for items in [Cookie::split_parse(&header), decoded] {
        let mut count = 0u32;
        for item in items {
            assert!(rt; matches!(item, Err(ParseError::EmptyName)));
            count = count.saturating_add(1);
        }
        assert!(rt; count == 10_000);
    }
    Ok(())
}
