//! The pieces of a written date: each `read_` function returns what is at the front, and the rest.
ghost use Rattle.std.specs.Prelude.{◌≡◌, ◌<◌, option_copied, IfSome};
ghost use Rattle.cookie_date.specs.Names.{weekday_text, month_text};
ghost use Rattle.cookie_date.specs.Reader as Reader;

use crate::text::{month_name, weekday_name};

pub(crate) fn read_tag<'a>(text: &'a [u8], tag: &[u8]) -> Option<&'a [u8]>
    ensures { option_copied result ≡ Reader.read_tag tag.now text.now }
{
    text.strip_prefix(tag)
}

#[tactic(auto, unfolding(crate::specs::Reader::read_digit))]
fn read_digit(text: &[u8]) -> Option<(u8, &[u8])>
    ensures value { Reader.front result ≡ Reader.read_digit text.now }
    ensures bound { IfSome result (λ r. r.0 < 10) }
{
    match text {
        [digit @ b'0'..=b'9', rest @ ..] => Some((*digit - b'0', rest)),
        _ => None,
    }
}

#[tactic(auto, unfolding(crate::specs::Reader::read_two_digits))]
pub(crate) fn read_two_digits(text: &[u8]) -> Option<(u8, &[u8])>
    ensures { Reader.front result ≡ Reader.read_two_digits text.now }
{
    let (tens, rest) = read_digit(text)?;
    let (units, rest) = read_digit(rest)?;
    Some((tens * 10 + units, rest))
}

// Two digits, or a blank and one digit.
#[tactic(auto, unfolding(crate::specs::Reader::read_padded_day))]
pub(crate) fn read_padded_day(text: &[u8]) -> Option<(u8, &[u8])>
    ensures { Reader.front result ≡ Reader.read_padded_day text.now }
{
    match text.first() {
        Some(b' ') => read_digit(read_tag(text, b" ")?),
        _ => read_two_digits(text),
    }
}

// `08:49:37`
#[tactic(auto, unfolding(crate::specs::Reader::read_clock))]
pub(crate) fn read_clock(text: &[u8]) -> Option<((u8, u8, u8), &[u8])>
    ensures { Reader.front result ≡ Reader.read_clock text.now }
{
    let (hour, rest) = read_two_digits(text)?;
    let (minute, rest) = read_two_digits(read_tag(rest, b":")?)?;
    let (second, rest) = read_two_digits(read_tag(rest, b":")?)?;
    Some(((hour, minute, second), rest))
}

// ` 08:49:37 GMT`, with nothing after it.
#[tactic(auto, unfolding(crate::specs::Reader::read_gmt))]
pub(crate) fn read_gmt(text: &[u8]) -> Option<(u8, u8, u8)>
    ensures { result ≡ Reader.read_gmt text.now }
{
    let (clock, zone) = read_clock(read_tag(text, b" ")?)?;
    if zone == b" GMT".as_slice() {
        Some(clock)
    } else {
        None
    }
}

// At most this many more digits of a number.
pub(crate) fn read_digits(most: u8, number: u16, text: &[u8]) -> (u16, &[u8])
    requires { number < Reader.room most }
    ensures value { (result.0, result.1.now) ≡ Reader.read_digits most number text.now }
    ensures bound { result.0 < 10000 }
{
    if most == 0 {
        return (number, text);
    }
    match text {
        [digit @ b'0'..=b'9', rest @ ..] => {
            read_digits(most - 1, number * 10 + u16::from(*digit - b'0'), rest)
        }
        _ => (number, text),
    }
}

// One to four digits: all digits at the front, but at most four.
#[tactic(auto, unfolding(crate::specs::Reader::read_number))]
fn read_number(text: &[u8]) -> Option<(u16, &[u8])>
    ensures value { Reader.front result ≡ Reader.read_number text.now }
    ensures bound { IfSome result (λ r. r.0 < 10000) }
{
    let (number, rest) = read_digits(4, 0, text);
    if rest.len() == text.len() {
        return None;
    }
    Some((number, rest))
}

// Whether a `-` is at the front, and what follows the sign, if there is one.
fn read_sign(text: &[u8]) -> (bool, &[u8])
    ensures { (result.0, result.1.now) ≡ Reader.read_sign text.now }
{
    match text {
        [b'-', rest @ ..] => (true, rest),
        [b'+', rest @ ..] => (false, rest),
        _ => (false, text),
    }
}

// A sign, if there is one, and one to four digits.
#[tactic(auto, unfolding(crate::specs::Reader::read_year))]
pub(crate) fn read_year(text: &[u8]) -> Option<(i16, &[u8])>
    ensures { Reader.front result ≡ Reader.read_year text.now }
{
    let (negative, digits) = read_sign(text);
    let (number, rest) = read_number(digits)?;
    let year = number as i16;
    Some((if negative { -year } else { year }, rest))
}

// The short name of a weekday, as its number from 0 for Monday.
pub(crate) fn read_weekday(text: &[u8]) -> Option<(u8, &[u8])>
    ensures value { Reader.front result ≡ Reader.read_name weekday_text 7 0 text.now }
    ensures bound { IfSome result (λ r. r.0 < 7) }
{
    for weekday in 0..7 {
        if let Some(rest) = read_tag(text, weekday_name(weekday).as_bytes()) {
            return Some((weekday, rest));
        }
    }
    None
}

// What the long name of a weekday has after the short one.
pub(crate) fn weekday_rest(weekday: u8) -> &'static str
    requires { weekday < 7 }
    ensures { result.now ≡ Reader.weekday_rest weekday }
{
    match weekday {
        1 => "sday",
        2 => "nesday",
        3 => "rsday",
        5 => "urday",
        _ => "day",
    }
}

// The short name of a month, as its number from 1 for January.
pub(crate) fn read_month(text: &[u8]) -> Option<(u8, &[u8])>
    ensures { Reader.front result ≡ Reader.read_name month_text 12 1 text.now }
{
    for month in 1..13 {
        if let Some(rest) = read_tag(text, month_name(month).as_bytes()) {
            return Some((month, rest));
        }
    }
    None
}

// `06 Nov `, with this mark for the blanks.
#[tactic(auto, unfolding(crate::specs::Reader::read_day_month))]
pub(crate) fn read_day_month<'a>(mark: &[u8], text: &'a [u8]) -> Option<((u8, u8), &'a [u8])>
    ensures { Reader.front result ≡ Reader.read_day_month mark.now text.now }
{
    let (day, rest) = read_two_digits(text)?;
    let (month, rest) = read_month(read_tag(rest, mark)?)?;
    let rest = read_tag(rest, mark)?;
    Some(((day, month), rest))
}
