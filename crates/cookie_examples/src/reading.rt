//! The texts of a cookie.
ghost use Rattle.std.specs.Prelude.{◌≡◌, false, None, Some, IfOk, OnErr, option_map};
ghost use Rattle.cookie_core.specs.CookieOf.{cookie_of};

use anyhow::Result;
use cookie_core::{Cookie, ParseError};
use jiff::civil::DateTime;
use std::alloc::Global;

/// The name and the value of a cookie in a `Set-Cookie` header, as parts of the header's text.
pub fn name_and_value(text: &str) -> Result<(&str, &str), ParseError>
    ensures name { IfOk result (λ pair.
        option_map (λ cookie. cookie.name) (cookie_of false text.now) ≡ Some pair.0.now) }
    ensures value { IfOk result (λ pair.
        option_map (λ cookie. cookie.value) (cookie_of false text.now) ≡ Some pair.1.now) }
    ensures refused { OnErr result (cookie_of false text.now ≡ None) }
{
    let cookie = Cookie::parse(text)?;
    match (cookie.name_raw(), cookie.value_raw()) {
        (Some(name), Some(value)) => Ok((name, value)),
        _ => Err(ParseError::MissingPair),
    }
}

/// The text that removes a cookie. `now` is in UTC.
pub fn removal_text(alloc: Global, now: DateTime) -> Result<String, ParseError> {
    let mut cookie = Cookie::parse("id=7; Path=/; Max-Age=90")?;
    cookie.make_removal(now);
    let removal = cookie.to_string(alloc)?;
    Ok(removal)
}

/// The text of a name and a value with escapes.
pub fn pair_text(alloc: Global) -> Result<String, ParseError> {
    let other = Cookie::parse_encoded(alloc, "a%3Db=1%202")?;
    let pair = other.encoded().stripped().to_string(alloc)?;
    Ok(pair)
}

pub fn print(rt: &HostRuntime, now: DateTime) -> Result<()> {
    let (name, value) = name_and_value("theme=dark; Path=/")?;
    println!(rt; "name {name}, value {value}")?;
    println!(rt; "{}", removal_text(rt.alloc(), now)?)?;
    println!(rt; "{}", pair_text(rt.alloc())?)?;
    Ok(())
}
