//! Cookies that are stored one after the other.
ghost use Rattle.std.specs.Prelude.{◌≡◌, [], IfOk, OnOk};
ghost use Rattle.cookie_browser.specs.Storage.{kept_with};
ghost use Rattle.cookie_agent.specs.SentCode.{targets};
ghost use Rattle.cookie_agent.specs.Stored.{IsApart, kept_with_each};
ghost use Rattle.cookie_agent.specs.StoredCode.{ArePlaces};

use crate::key::Key;
use crate::stored::StoredCookie;
use std::alloc::{AllocError, Global};
use std::collections::BTreeMap;

// The cookies, each of which was put in the place of the one before it with its key, or last.
pub(crate) fn stored_in_turn<'a>(
    alloc: Global,
    cookies: &[&'a StoredCookie],
) -> Result<Vec<&'a StoredCookie>, AllocError>
    ensures value { IfOk result (λ made.
        targets made.items ≡ kept_with_each (targets cookies.now) []) }
    ensures apart { IfOk result (λ made. IsApart (targets made.items)) }
{
    let mut made = Vec::new(alloc);
    let mut places = BTreeMap::new(alloc);
    for &cookie in cookies {
        put_by_key(&mut made, &mut places, cookie)?;
    }
    Ok(made)
}

// Puts a cookie in the place of the one with its key, or last. Each key stands after its sum: most sums differ, so few
// keys are compared text by text.
fn put_by_key<'a>(
    made: &mut Vec<&'a StoredCookie>,
    places: &mut BTreeMap<(u64, &'a Key), usize>,
    cookie: &'a StoredCookie,
) -> Result<(), AllocError>
    requires places { ArePlaces places.now (targets made.now.items) }
    requires apart { IsApart (targets made.now.items) }
    ensures value { OnOk result
        (targets made.new.items ≡ kept_with cookie.now (targets made.old.items)) }
    ensures places { OnOk result (ArePlaces places.new (targets made.new.items)) }
{
    let key = cookie.key();
    let place = *places.entry((key.sum(), key))?.or_insert(made.len());
    if place < made.len() {
        made[place] = cookie;
        return Ok(());
    }
    made.push(cookie)?;
    Ok(())
}
