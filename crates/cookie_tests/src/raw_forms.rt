//! What a jar's cookies borrow of the texts that they were read from.
use cookie::{Cookie, CookieJar, JarError, Key};
use std::alloc::Global;

const TEXT: &str = "id=1; Path=/a; Domain=b.c";

// Whether the cookie borrows this name and value, and the text's path and domain.
fn lends(cookie: &Cookie<'static>, name: &str, value: Option<&str>) -> bool {
    (cookie.name_raw(), cookie.value_raw()) == (Some(name), value)
        && (cookie.path_raw(), cookie.domain_raw()) == (Some("/a"), Some("b.c"))
}

// A jar with an original and a change that were read.
fn read_jar(alloc: Global) -> Option<CookieJar> {
    let mut jar = CookieJar::new(alloc);
    let original = Cookie::parse(TEXT).ok()?;
    jar.add_original(original).ok()?;
    let change = Cookie::parse("n=2; Path=/a; Domain=b.c").ok()?;
    jar.add(change).ok()?;
    Some(jar)
}

fn is_as_read(jar: &CookieJar) -> bool {
    (jar.delta().count(), jar.iter().count()) == (1, 2)
        && matches!(jar.get("id"), Some(cookie) if lends(cookie, "id", Some("1")))
        && matches!(jar.get("n"), Some(cookie) if lends(cookie, "n", Some("2")))
}

// Leaves the jar with one other cookie. Returns whether it could.
fn is_changed(jar: &mut CookieJar) -> bool {
    jar.reset_delta();
    jar.force_remove("id");
    jar.add(Cookie::new("x", "3")).is_ok() && jar.iter().count() == 1
}

fn is_copy_apart(alloc: Global) -> Option<bool> {
    let jar = read_jar(alloc)?;
    let mut copy = jar.clone().ok()?;
    Some(is_as_read(&copy) && is_changed(&mut copy) && is_as_read(&jar))
}

#[test]
fn a_copy_borrows_the_same_and_is_changed_alone(rt: HostRuntime) {
    assert!(rt; is_copy_apart(rt.alloc()) == Some(true));
}

// Whether the cookie was opened, and borrows all of its text but the value.
fn is_opened(answer: Result<Option<Cookie<'static>>, JarError>) -> bool {
    matches!(answer, Ok(Some(cookie)) if cookie.value() == "1" && lends(&cookie, "id", None))
}

fn stored(alloc: Global, jar: &CookieJar) -> Option<Cookie<'static>> {
    jar.get("id")?.clone(alloc).ok()
}

fn is_verified(alloc: Global, key: &Key) -> Option<bool> {
    let (mut jar, cookie) = (CookieJar::new(alloc), Cookie::parse(TEXT).ok()?);
    jar.signed_mut(key).add(cookie).ok()?;
    let (one, other) = (stored(alloc, &jar)?, stored(alloc, &jar)?);
    let is_read = is_opened(jar.signed(key).get("id")) && is_opened(jar.signed(key).verify(one));
    let child = jar.signed_mut(key);
    Some(is_read && is_opened(child.get("id")) && is_opened(child.verify(other)))
}

fn is_decrypted(alloc: Global, key: &Key) -> Option<bool> {
    let (mut jar, cookie) = (CookieJar::new(alloc), Cookie::parse(TEXT).ok()?);
    jar.private_mut(key).add_with_nonce(cookie, [0; 12]).ok()?;
    let (one, other) = (stored(alloc, &jar)?, stored(alloc, &jar)?);
    let is_read = is_opened(jar.private(key).get("id")) && is_opened(jar.private(key).decrypt(one));
    let child = jar.private_mut(key);
    Some(is_read && is_opened(child.get("id")) && is_opened(child.decrypt(other)))
}

#[test]
fn an_opened_cookie_borrows_all_but_its_value(rt: HostRuntime) {
    let key = Key::from(&[7; 64]);
    assert!(rt; is_verified(rt.alloc(), &key) == Some(true));
    assert!(rt; is_decrypted(rt.alloc(), &key) == Some(true));
}
