//! Small values as values of Rust.
use crate::moment::moment;
use cookie::{Cookie, Expiration, SameSite};
use cookie_core::days_after;
use jiff::civil::datetime;
use std::hash::{FoldHasher, Hash, Hasher};

fn hash_of(value: SameSite) -> u64 {
    let mut hasher = FoldHasher::default();
    value.hash(&mut hasher);
    hasher.finish()
}

#[test]
fn same_site_has_three_values(rt: HostRuntime) {
    for (value, wanted) in [
        (SameSite::Strict, (true, false, false)),
        (SameSite::Lax, (false, true, false)),
        (SameSite::None, (false, false, true)),
    ] {
        assert!(rt; (value.is_strict(), value.is_lax(), value.is_none()) == wanted);
        assert!(rt; hash_of(value) == hash_of(value));
    }
    assert!(rt; hash_of(SameSite::Lax) != hash_of(SameSite::Strict));
}

#[test]
fn an_expiry_is_a_time_or_the_end_of_the_session(rt: HostRuntime) {
    let last = datetime(9999, 12, 31, 23, 59, 59, 999_999_000);
    for (moment, next) in [
        (Some(moment()), Some(datetime(2015, 10, 22, 7, 28, 0, 0))),
        (Some(datetime(9999, 12, 31, 0, 0, 0, 0)), Some(last)),
        (None, None),
    ] {
        let expiry = Expiration::from_option(moment);
        assert!(rt; expiry.datetime() == moment);
        assert!(rt; expiry.is_datetime() == moment.is_some());
        assert!(rt; expiry.is_session() == moment.is_none());
        let mut cookie = Cookie::new("a", "1");
        assert!(rt; cookie.expires_datetime().is_none());
        cookie.set_expires(expiry.map(|moment| days_after(moment, 1)));
        assert!(rt; cookie.expires() == Some(Expiration::from_option(next)));
        assert!(rt; cookie.expires_datetime() == next);
    }
}
