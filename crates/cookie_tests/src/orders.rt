//! The order in which a client reads the texts of a response.
use cookie::{Cookie, CookieJar};
use cookie_client::delta_texts;
use std::alloc::Global;
use std::test::Fail;

// Whether the texts of the jar's changes come in the order of these numbers: each takes one out of those that are left.
fn is_ordered(alloc: Global, jar: &CookieJar, pick: &[usize]) -> Option<bool> {
    let mut left = jar.set_cookie_texts().ok()?;
    for (place, text) in delta_texts(alloc, jar, pick).ok()?.iter().enumerate() {
        let number = pick.get(place).copied().unwrap_or(0);
        if left.remove(number.checked_rem(left.len())?) != *text {
            return Some(false);
        }
    }
    Some(left.is_empty())
}

// Up to eleven changes, and up to twenty numbers, each a step after the one before. The last two steps are the greatest
// number, and a third of it.
#[test]
fn texts_come_in_the_order_of_the_numbers(rt: HostRuntime) -> Result<(), Fail> {
    let (alloc, mut jar) = (rt.alloc(), CookieJar::new(rt.alloc()));
    for count in 0..12usize {
        for step in [0, 1, 2, 3, 5, 7919, usize::MAX, usize::MAX / 3] {
            let mut pick = Vec::new(alloc);
            for number in 1..=count.saturating_add(10) {
                let is_ordered = is_ordered(alloc, &jar, &pick);
                assert!(rt; is_ordered == Some(true), "{count} {step}");
                pick.push(step.wrapping_mul(number))?;
            }
        }
        let name = format!(in alloc; "n{count}")?;
        jar.add(Cookie::new_owned(name, String::new(alloc)))?;
    }
    Ok(())
}
