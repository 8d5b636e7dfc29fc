//! The tokens of a date as browsers read it, and what each production reads in one (RFC 6265 5.1.1).
ghost use Rattle.std.specs.Prelude.{◌≡◌, ◌<◌, ◌≤◌, option_copied, IfSome};
ghost use Rattle.std.specs.Int.{IsInRange};
ghost use Rattle.cookie_date.specs.CookieDate as Tokens;
ghost use Rattle.cookie_date.specs.Reader as Reader;
ghost use Rattle.cookie_date.specs.Found.{cut_token};

use crate::reader::{read_digits, read_tag};
use crate::text::month_name;

// What is before the first delimiter, and what is after it, if there is one.
pub(crate) fn cut_token(text: &[u8]) -> (&[u8], Option<&[u8]>)
    ensures before { result.0.now ≡ (cut_token text.now).0 }
    ensures after { option_copied result.1 ≡ (cut_token text.now).1 }
{
    match text.iter().position(
        |&byte| matches!(byte, 9 | 32..=47 | 59..=64 | 91..=96 | 123..=126),
    ) {
        Some(at) => (&text[..at], Some(&text[at + 1..])),
        None => (text, None),
    }
}

// The number of this many digits at the front of the text, which no further digit follows.
#[tactic(auto, unfolding(crate::specs::CookieDate::read_run))]
fn read_run(least: usize, most: u8, text: &[u8]) -> Option<(u16, &[u8])>
    requires least { least ≤ 4 }
    requires most { most ≤ 4 }
    ensures value { Reader.front result ≡ Tokens.read_run least most text.now }
    ensures bound { IfSome result (λ r. r.0 < 10000) }
{
    let (number, rest) = read_digits(most, 0, text);
    if matches!(rest.first(), Some(b'0'..=b'9')) {
        return None;
    }
    if rest.len() + least > text.len() {
        return None;
    }
    Some((number, rest))
}

// One or two digits.
fn read_pair(text: &[u8]) -> Option<(u8, &[u8])>
    ensures value { Reader.front result ≡ Tokens.read_run 1 2 text.now }
    ensures bound { IfSome result (λ r. r.0 < 100) }
{
    let (number, rest) = read_run(1, 2, text)?;
    Some((number as u8, rest))
}

#[tactic(auto, unfolding(crate::specs::CookieDate::time_in))]
pub(crate) fn time_in(token: &[u8]) -> Option<(u8, u8, u8)>
    ensures value { result ≡ Tokens.time_in token.now }
    ensures bound { IfSome result (λ t. (t.0 < 100) × (t.1 < 100) × (t.2 < 100)) }
{
    let (hour, rest) = read_pair(token)?;
    let (minute, rest) = read_pair(read_tag(rest, b":")?)?;
    let (second, _) = read_pair(read_tag(rest, b":")?)?;
    Some((hour, minute, second))
}

#[tactic(auto, unfolding(crate::specs::CookieDate::day_in))]
pub(crate) fn day_in(token: &[u8]) -> Option<u8>
    ensures value { result ≡ Tokens.day_in token.now }
    ensures bound { IfSome result (λ day. day < 100) }
{
    let (day, _) = read_pair(token)?;
    Some(day)
}

#[tactic(auto, unfolding(crate::specs::CookieDate::year_in))]
pub(crate) fn year_in(token: &[u8]) -> Option<u16>
    ensures value { result ≡ Tokens.year_in token.now }
    ensures bound { IfSome result (λ year. year < 10000) }
{
    let (year, _) = read_run(2, 4, token)?;
    Some(year)
}

// Whether the token begins with the name of the month, in any ASCII case.
fn is_month(month: u8, token: &[u8]) -> bool
    requires { IsInRange 1 12 month }
    ensures { result ≡ Tokens.is_month month token.now }
{
    match token.get(..3) {
        Some(front) => front.eq_ignore_ascii_case(month_name(month).as_bytes()),
        None => false,
    }
}

pub(crate) fn month_in(token: &[u8]) -> Option<u8>
    ensures value { result ≡ Tokens.month_in token.now }
    ensures bound { IfSome result (λ month. month < 100) }
{
    for month in 1..13 {
        if is_month(month, token) {
            return Some(month);
        }
    }
    None
}
