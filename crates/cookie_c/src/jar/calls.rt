//! The calls that change a jar in a handle.
ghost use Rattle.std.specs.Prelude.{◌≡◌, [], Some, None, IsUtf8};
ghost use Rattle.jiff.specs.Types.{DateTime};
ghost use Rattle.cookie.specs.AttributeValues.{FitsField};
ghost use Rattle.cookie.specs.Jar.{Remove, after, empty_jar};
ghost use Rattle.cookie.specs.Moments.{date_of};
ghost use Rattle.cookie.specs.Record.{plain};
ghost use Rattle.cookie.specs.Originals.{field_cookies, with_originals};
ghost use Rattle.cookie_c.specs.Handles.{IsKept, IsPut, Tells};
ghost use Rattle.cookie_c.specs.Jars.{AtJar, IsAdded, IsChanged, IsFitAdded, IsRemoved, jar_of, scoped_record};
ghost use Rattle.cookie_c.specs.declared.status.Status.TheVariants as status;

use super::Jar;
use crate::handle::content::Content;
use crate::handle::with_content;
use crate::run::Seed;
use crate::status::Status;
use cookie::{Cookie, CookieJar, fits_field, read_date};
use std::alloc::Global;
use std::hash::RandomState;

/// Puts a jar with no cookie into the handle, and frees the one that it had, if it had one. The two seeds are random;
/// the jar hashes names with them.
///
/// It fails only when memory runs out, and then the handle's jar is as before.
#[unsafe(no_mangle)]
pub extern "C" fn cookie_jar_new(alloc: Global, seed: u64, other_seed: u64, jar: &mut Jar) -> u32
    ensures { Tells (λ answer. IsPut empty_jar answer (jar_of jar.old) (jar_of jar.new)) result }
{
    let Ok(state) = RandomState::new(&Seed::of(seed, other_seed)) else {
        return Status::OutOfMemory.code();
    };
    let made = CookieJar::with_hasher(alloc, state);
    jar.handle.set(alloc, Content::Jar(made)).code()
}

/// Adds the cookies in the value of a `Cookie` header as originals, decoded (RFC 6265 5.4). A piece between semicolons
/// that isn't UTF-8 or isn't a cookie is skipped, so that one bad byte costs no other cookie.
///
/// Refuses a handle without a jar. Else it fails only when memory runs out. After a refusal the jar is as before.
#[unsafe(no_mangle)]
pub extern "C" fn cookie_jar_add_originals(alloc: Global, jar: &mut Jar, header: &[u8]) -> u32
    ensures { AtJar (IsChanged (with_originals (field_cookies header.now)))
        result jar.old jar.new }
{
    with_content!(alloc, jar.handle,
        Jar(held) => add_originals(held, header).code(),
        _ => Status::NoJar.code(),
    )
}

/// Adds the cookie in the text of a `Set-Cookie` header, decoded (RFC 6265 5.2), in place of the jar's cookie of that
/// name.
///
/// Refuses a handle without a jar, then as `cookie_read_decoded` does, and then a path or a domain with a control
/// character. Else it fails only when memory runs out. After a refusal the jar is as before.
#[unsafe(no_mangle)]
pub extern "C" fn cookie_jar_add(alloc: Global, jar: &mut Jar, text: &[u8]) -> u32
    ensures { AtJar (IsAdded text.now) result jar.old jar.new }
{
    with_content!(alloc, jar.handle,
        Jar(held) => add(alloc, held, text).code(),
        _ => Status::NoJar.code(),
    )
}

/// Removes the cookie of that name. `moment` is the time in UTC, in one of the four forms of `read_date`. If there is
/// an original of that name, the delta gets a cookie that tells the client to drop it, without path and domain.
///
/// Refuses a handle without a jar, then a `moment` or a name that isn't UTF-8, and then a `moment` that isn't a date.
/// Else it fails only when memory runs out. After a refusal the jar is as before.
#[unsafe(no_mangle)]
pub extern "C" fn cookie_jar_remove(alloc: Global, jar: &mut Jar, moment: &[u8], name: &[u8]) -> u32
    ensures { AtJar (IsRemoved moment.now (IsUtf8 name.now) (plain name.now []))
        result jar.old jar.new }
{
    with_content!(alloc, jar.handle,
        Jar(held) => remove(alloc, held, moment, name).code(),
        _ => Status::NoJar.code(),
    )
}

/// Removes the cookie of that name, as `cookie_jar_remove` does, but tells the client to drop the one that was set with
/// this path and this domain. An empty path or domain is none, and one leading dot of the domain doesn't count.
///
/// Refuses a handle without a jar, then a `moment`, a name, a path or a domain that isn't UTF-8, then a path or a domain
/// with a control character or a `;`, and then a `moment` that isn't a date. It may also run out of memory. After a
/// refusal the jar is as before.
#[unsafe(no_mangle)]
pub extern "C" fn cookie_jar_remove_scoped(
    alloc: Global,
    jar: &mut Jar,
    moment: &[u8],
    name: &[u8],
    path: &[u8],
    domain: &[u8],
) -> u32
    ensures { AtJar (IsRemoved moment.now (IsUtf8 name.now × IsUtf8 path.now × IsUtf8 domain.now)
        (scoped_record name.now path.now domain.now)) result jar.old jar.new }
{
    with_content!(alloc, jar.handle,
        Jar(held) => remove_scoped(alloc, held, moment, name, path, domain).code(),
        _ => Status::NoJar.code(),
    )
}

/// Frees the handle's jar, if it has one. The handle has none then.
#[unsafe(no_mangle)]
pub extern "C" fn cookie_jar_free(alloc: Global, jar: &mut Jar)
    ensures { jar.new.handle.held.content ≡ None }
{
    jar.handle.free(alloc);
}

fn add_originals(jar: &mut CookieJar, header: &[u8]) -> Status
    ensures { IsChanged (with_originals (field_cookies header.now))
        result jar.old jar.new }
{
    let Ok(copy) = jar.clone() else {
        return Status::OutOfMemory;
    };
    match copy.with_field(header) {
        Ok(made) => {
            *jar = made;
            Status::Done
        }
        Err(_) => Status::OutOfMemory,
    }
}

fn add(alloc: Global, jar: &mut CookieJar, text: &[u8]) -> Status
    ensures { IsAdded text.now result jar.old jar.new }
{
    let Ok(text) = str::from_utf8(text) else {
        return Status::NotUtf8;
    };
    match Cookie::parse_encoded(alloc, text) {
        Ok(cookie) => add_fit(alloc, jar, cookie),
        Err(error) => Status::of(error),
    }
}

// Adds a copy of the cookie, if its path and domain fit a header.
fn add_fit(alloc: Global, jar: &mut CookieJar, addition: Cookie<'_>) -> Status
    ensures { IsFitAdded addition.entry.fields result jar.old jar.new }
{
    if !fits_field(&addition) {
        return Status::InvalidValue;
    }
    let Ok(copy) = addition.into_owned(alloc) else {
        return Status::OutOfMemory;
    };
    match jar.add(copy) {
        Ok(()) => Status::Done,
        Err(_) => Status::OutOfMemory,
    }
}

fn remove(alloc: Global, jar: &mut CookieJar, moment: &[u8], name: &[u8]) -> Status
    ensures { IsRemoved moment.now (IsUtf8 name.now) (plain name.now []) result jar.old jar.new }
{
    let (Ok(moment), Ok(name)) = (str::from_utf8(moment), str::from_utf8(name)) else {
        return Status::NotUtf8;
    };
    remove_at(alloc, jar, moment, Cookie::named(name))
}

fn remove_scoped(
    alloc: Global,
    jar: &mut CookieJar,
    moment: &[u8],
    name: &[u8],
    path: &[u8],
    domain: &[u8],
) -> Status
    ensures { IsRemoved moment.now (IsUtf8 name.now × IsUtf8 path.now × IsUtf8 domain.now)
        (scoped_record name.now path.now domain.now) result jar.old jar.new }
{
    let (Ok(moment), Ok(name)) = (str::from_utf8(moment), str::from_utf8(name)) else {
        return Status::NotUtf8;
    };
    let (Ok(path), Ok(domain)) = (str::from_utf8(path), str::from_utf8(domain)) else {
        return Status::NotUtf8;
    };
    remove_at(alloc, jar, moment, scoped_cookie(name, path, domain))
}

// The cookie of the name, with the path and the domain that aren't empty.
fn scoped_cookie<'t>(name: &'t str, path: &'t str, domain: &'t str) -> Cookie<'t>
    ensures { result.fields ≡ scoped_record name.now path.now domain.now }
{
    let mut cookie = Cookie::named(name);
    if !path.is_empty() {
        cookie.set_path(path);
    }
    if !domain.is_empty() {
        cookie.set_domain(domain);
    }
    cookie
}

// Removes the cookie, at the date and time in the text.
fn remove_at(alloc: Global, jar: &mut CookieJar, moment: &str, cookie: Cookie<'_>) -> Status
    ensures invalid { ¬ FitsField cookie.entry.fields
        → IsKept status.InvalidValue result jar.old jar.new }
    ensures no_date { FitsField cookie.entry.fields → date_of moment.now ≡ None
        → IsKept status.NoDate result jar.old jar.new }
    ensures removed { (now : DateTime) → FitsField cookie.entry.fields
        → date_of moment.now ≡ Some now
        → IsChanged (after (Remove cookie.entry.fields now)) result jar.old jar.new }
{
    if !fits_field(&cookie) {
        return Status::InvalidValue;
    }
    let Some(now) = read_date(moment) else {
        return Status::NoDate;
    };
    let Ok(cookie) = cookie.into_owned(alloc) else {
        return Status::OutOfMemory;
    };
    match jar.remove(cookie, now) {
        Ok(()) => Status::Done,
        Err(_) => Status::OutOfMemory,
    }
}
