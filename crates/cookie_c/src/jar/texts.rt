//! The calls that return a text of a jar in a handle.
ghost use Rattle.std.specs.Prelude.{◌≡◌, ◌++◌, IfOk, OnOk, codes, true, false, string_bytes};
ghost use Rattle.cookie.specs.Text.{cookie_text};
ghost use Rattle.cookie_c.specs.Handles.{Reads};
ghost use Rattle.cookie_c.specs.Jars.{ArePairsGiven, HasLines, HasPairs, IsDeltaGiven, IsShown, jar_of};
ghost use Rattle.cookie_c.specs.declared.status.Status.TheVariants as status;

use super::Jar;
use crate::answer::Answer;
use crate::handle::with_content;
use crate::listed::push_listed;
use crate::status::Status;
use cookie::{Cookie, CookieJar};
use std::alloc::{AllocError, Global};

/// The value of the jar's cookie of that name, for the buffer. The jar is as before.
///
/// Refuses a handle without a jar, then a name that isn't UTF-8, and then a name of which the jar has no cookie. It
/// doesn't allocate.
#[unsafe(no_mangle)]
pub extern "C" fn cookie_jar_get(
    alloc: Global,
    jar: &mut Jar,
    name: &[u8],
    out: &mut [u8],
) -> Answer
    ensures kept { jar_of jar.new ≡ jar_of jar.old }
    ensures given { Reads status.NoJar (IsShown name.now) (jar_of jar.old) result out.old out.new }
{
    with_content!(alloc, jar.handle,
        Jar(held) => show(held, name, out),
        _ => Answer::refusal(Status::NoJar),
    )
}

/// A line `Set-Cookie: ..` for each cookie of the jar's delta, for the buffer: the cookie's encoded text (RFC 6265
/// 4.1.1), with a line feed at its end. The lines are in any order. The jar is as before.
///
/// Refuses a handle without a jar, and then a delta with a path or a domain that holds a control character or a `;`. No
/// call puts one into a jar. Else it fails only when memory runs out.
#[unsafe(no_mangle)]
pub extern "C" fn cookie_jar_delta(alloc: Global, jar: &mut Jar, out: &mut [u8]) -> Answer
    ensures kept { jar_of jar.new ≡ jar_of jar.old }
    ensures given { Reads status.NoJar IsDeltaGiven (jar_of jar.old) result out.old out.new }
{
    with_content!(alloc, jar.handle,
        Jar(held) => give_delta(alloc, held, out),
        _ => Answer::refusal(Status::NoJar),
    )
}

/// The names and values of the cookies that the jar shows, as they are, for the buffer. Of each there is the number of
/// bytes of its name, and that of its value, each as eight bytes of which the lowest is the first, and then the name
/// and the value. The cookies are in any order. The jar is as before.
///
/// Refuses a handle without a jar. Else it fails only when memory runs out.
#[unsafe(no_mangle)]
pub extern "C" fn cookie_jar_cookies(alloc: Global, jar: &mut Jar, out: &mut [u8]) -> Answer
    ensures kept { jar_of jar.new ≡ jar_of jar.old }
    ensures given { Reads status.NoJar ArePairsGiven (jar_of jar.old) result out.old out.new }
{
    with_content!(alloc, jar.handle,
        Jar(held) => give_pairs(alloc, held, out),
        _ => Answer::refusal(Status::NoJar),
    )
}

fn show(jar: &CookieJar, name: &[u8], out: &mut [u8]) -> Answer
    ensures { IsShown name.now jar.now result out.old out.new }
{
    let Ok(name) = str::from_utf8(name) else {
        return Answer::refusal(Status::NotUtf8);
    };
    match jar.get(name) {
        Some(cookie) => Answer::give(cookie.value().as_bytes(), out),
        None => Answer::refusal(Status::NotFound),
    }
}

fn give_delta(alloc: Global, jar: &CookieJar, out: &mut [u8]) -> Answer
    ensures { IsDeltaGiven jar.now result out.old out.new }
{
    if !jar.fits_fields() {
        return Answer::refusal(Status::InvalidValue);
    }
    match lines(alloc, jar) {
        Ok(text) => Answer::give(text.as_bytes(), out),
        Err(_) => Answer::refusal(Status::OutOfMemory),
    }
}

fn lines(alloc: Global, jar: &CookieJar) -> Result<String, AllocError>
    ensures { IfOk result (λ text. HasLines jar.now.delta (string_bytes text)) }
{
    let mut text = String::new(alloc);
    for cookie in jar.delta() {
        push_line(&mut text, cookie)?;
    }
    Ok(text)
}

fn push_line(text: &mut String, cookie: &Cookie<'_>) -> Result<(), AllocError>
    ensures { OnOk result (string_bytes text.new ≡ string_bytes text.old
        ++ (codes "Set-Cookie: " ++ (cookie_text true false cookie.now.fields ++ codes "\n"))) }
{
    writeln!(text, "Set-Cookie: {}", cookie.encoded())
}

fn give_pairs(alloc: Global, jar: &CookieJar, out: &mut [u8]) -> Answer
    ensures { ArePairsGiven jar.now result out.old out.new }
{
    match pairs(alloc, jar) {
        Ok(list) => Answer::give(list.as_slice(), out),
        Err(_) => Answer::refusal(Status::OutOfMemory),
    }
}

fn pairs(alloc: Global, jar: &CookieJar) -> Result<Vec<u8>, AllocError>
    ensures { IfOk result (λ list. HasPairs jar.now list.items) }
{
    let mut list = Vec::new(alloc);
    for cookie in jar.iter() {
        push_listed(&mut list, cookie.name(), cookie.value())?;
    }
    Ok(list)
}
