//! Which cookies stay if there are too many (RFC 6265bis, Storage Model).
ghost use Rattle.std.specs.Prelude.{◌≡◌, ◌<◌, ◌≤◌, ◌==◌, ℕ, List, [], true, All, filter, length, map, count_by, slice_index_or, IfOk};
ghost use Rattle.std.specs.List.Sorted.{IsPermutation};
ghost use Rattle.std.specs.Str.{bytes_eq};
ghost use Rattle.cookie_browser.specs.Storage.{KeptView, lasting};
ghost use Rattle.cookie_agent.specs.Limits.{IsWithin, counts, staying, trimmed};
ghost use Rattle.cookie_agent.specs.LimitsCode.{AreOnce, IsInOrder, Rank, Rises, comes_before, counted_by, picked, rank_at, rank_of, ranks, stays, text_of};
ghost use Rattle.cookie_agent.specs.SentCode.{targets};
ghost use Rattle.cookie_agent.specs.SumsCode.{sum_of};

use crate::cookies::Cookies;
use crate::group::Group;
use crate::limits::Limits;
use crate::ranked::Ranked;
use crate::stored::StoredCookie;
use crate::summed::Summed;
use cookie_browser::Suffixes;
use jiff::civil::DateTime;
use std::alloc::{AllocError, Global};

// The places of the cookies that stay, in their order.
pub(crate) fn places_within(
    alloc: Global,
    suffixes: &Suffixes,
    cookies: Cookies<'_>,
    limits: Limits,
    now: DateTime,
) -> Result<Vec<usize>, AllocError>
    ensures value { IfOk result (λ places.
        picked cookies.entry places.items ≡ trimmed suffixes.now limits now cookies.entry) }
    ensures in_order { IfOk result (λ places. IsInOrder (length cookies.entry) places.items) }
    ensures within { IfOk result (λ places.
        IsWithin suffixes.now limits (picked cookies.entry places.items)) }
{
    let cookies = borrowed(alloc, cookies)?;
    places_among(alloc, suffixes, &cookies, limits, now)
}

// The cookies that stay, in their order.
pub(crate) fn kept_within<'a>(
    alloc: Global,
    suffixes: &Suffixes,
    cookies: &[&'a StoredCookie],
    limits: Limits,
    now: DateTime,
) -> Result<Vec<&'a StoredCookie>, AllocError>
    ensures { IfOk result (λ kept.
        targets kept.items ≡ trimmed suffixes.now limits now (targets cookies.now)) }
{
    let places = places_among(alloc, suffixes, cookies, limits, now)?;
    cookies_at(alloc, cookies, &places)
}

// The cookies at these places.
fn cookies_at<'a>(
    alloc: Global,
    cookies: &[&'a StoredCookie],
    places: &[usize],
) -> Result<Vec<&'a StoredCookie>, AllocError>
    requires { All (λ place. place < length (targets cookies.now)) places.now }
    ensures { IfOk result (λ made.
        targets made.items ≡ picked (targets cookies.now) places.now) }
{
    let mut made = Vec::new(alloc);
    for &place in places {
        made.push(cookies[place])?;
    }
    Ok(made)
}

// The places of the cookies that stay, of those in one list.
fn places_among(
    alloc: Global,
    suffixes: &Suffixes,
    cookies: &[&StoredCookie],
    limits: Limits,
    now: DateTime,
) -> Result<Vec<usize>, AllocError>
    ensures value { IfOk result (λ places. picked (targets cookies.now) places.items
        ≡ trimmed suffixes.now limits now (targets cookies.now)) }
    ensures in_order { IfOk result (λ places.
        IsInOrder (length (targets cookies.now)) places.items) }
    ensures within { IfOk result (λ places.
        IsWithin suffixes.now limits (picked (targets cookies.now) places.items)) }
{
    let places = lasting_places(alloc, cookies, now)?;
    let places = within(
        alloc,
        suffixes,
        cookies,
        places,
        Group::Domain,
        limits.per_domain,
    )?;
    let places = within(
        alloc,
        suffixes,
        cookies,
        places,
        Group::Site,
        limits.per_site,
    )?;
    let places = within(alloc, suffixes, cookies, places, Group::Whole, limits.total)?;
    Ok(places)
}

// The cookies in one list.
pub(crate) fn borrowed<'a>(
    alloc: Global,
    cookies: Cookies<'a>,
) -> Result<Vec<&'a StoredCookie>, AllocError>
    ensures { IfOk result (λ made. targets made.items ≡ cookies.entry) }
{
    let mut made = Vec::new(alloc);
    for cookie in cookies {
        made.push(cookie)?;
    }
    Ok(made)
}

// The places of the cookies that aren't expired.
fn lasting_places(
    alloc: Global,
    cookies: &[&StoredCookie],
    now: DateTime,
) -> Result<Vec<usize>, AllocError>
    ensures value { IfOk result (λ places.
        picked (targets cookies.now) places.items ≡ lasting now (targets cookies.now)) }
    ensures in_order { IfOk result (λ places. IsInOrder (length (targets cookies.now)) places.items) }
{
    let mut places = Vec::new(alloc);
    for index in 0..cookies.len() {
        if cookies[index].lasts(now) {
            places.push(index)?;
        }
    }
    Ok(places)
}

// Of the cookies at these places, the places of those that stay if no group has more than the limit. If there are no
// more than the limit in all, all stay.
fn within(
    alloc: Global,
    suffixes: &Suffixes,
    cookies: &[&StoredCookie],
    places: Vec<usize>,
    group: Group,
    limit: usize,
) -> Result<Vec<usize>, AllocError>
    requires { IsInOrder (length (targets cookies.now)) places.items }
    ensures value { IfOk result (λ kept. picked (targets cookies.now) kept.items
        ≡ staying (counted_by suffixes.now group) limit []
        (picked (targets cookies.now) places.items)) }
    ensures in_order { IfOk result (λ kept. IsInOrder (length (targets cookies.now)) kept.items) }
    ensures few { IfOk result (λ kept. (cookie : KeptView)
        → count_by (counts (counted_by suffixes.now group) cookie)
        (picked (targets cookies.now) kept.items) ≤ limit) }
{
    if places.len() <= limit {
        return Ok(places);
    }
    let ranked = ranked(alloc, suffixes, cookies, &places, group)?;
    if are_few(alloc, &ranked, limit)? {
        return Ok(places);
    }
    let ranked = sorted(ranked, group);
    let mut kept = staying_places(alloc, &ranked, group, limit)?;
    kept.sort_unstable();
    Ok(kept)
}

// Whether no text is there more often than the limit. It looks at the sums alone, so `false` says nothing.
fn are_few(alloc: Global, ranked: &[Ranked<'_>], limit: usize) -> Result<bool, AllocError>
    ensures { IfOk result (λ few. few ≡ true → (text : List ℕ)
        → count_by (λ rank. bytes_eq rank.text text) (ranks ranked.now) ≤ limit) }
{
    let mut sums = sums_of(alloc, ranked)?;
    sums.sort_unstable();
    Ok(is_spread(&sums, limit))
}

// The sums of the texts.
fn sums_of(alloc: Global, ranked: &[Ranked<'_>]) -> Result<Vec<u64>, AllocError>
    ensures { IfOk result (λ sums. sums.items
        ≡ map (λ rank. sum_of rank.text []) (ranks ranked.now)) }
{
    let mut sums = Vec::new(alloc);
    for rank in ranked {
        sums.push(rank.text.sum())?;
    }
    Ok(sums)
}

// Whether no number of these, none of which is less than one before it, is there more often than the limit.
fn is_spread(numbers: &[u64], limit: usize) -> bool
    requires { (i j : ℕ) → i ≤ j → j < length numbers.now
        → slice_index_or numbers.now i 0 ≤ slice_index_or numbers.now j 0 }
    ensures { result ≡ true → (number : ℕ)
        → count_by (λ other. other == number) numbers.now ≤ limit }
{
    for index in limit..numbers.len() {
        if numbers[index] == numbers[index - limit] {
            return false;
        }
    }
    true
}

// The cookies at these places, with the texts that they are counted by.
fn ranked<'a>(
    alloc: Global,
    suffixes: &Suffixes,
    cookies: &[&'a StoredCookie],
    places: &[usize],
    group: Group,
) -> Result<Vec<Ranked<'a>>, AllocError>
    requires { All (λ place. place < length (targets cookies.now)) places.now }
    ensures { IfOk result (λ made. ranks made.items
        ≡ map (rank_at (text_of suffixes.now group) (targets cookies.now)) places.now) }
{
    let mut made = Vec::new(alloc);
    for index in 0..places.len() {
        let place = places[index];
        let cookie = cookies[place];
        let text = Summed::of(group.text(suffixes, cookie));
        made.push(Ranked {
            place,
            text,
            cookie,
        })?;
    }
    Ok(made)
}

// The same cookies in the order in which they go.
fn sorted<'a>(mut ranked: Vec<Ranked<'a>>, group: Group) -> Vec<Ranked<'a>>
    ensures moved { IsPermutation (ranks ranked.entry.items) (ranks result.items) }
    ensures rises { Rises (comes_before group) (ranks result.items) }
{
    ranked.sort_unstable_by(|left, right| group.compare(left, right));
    ranked
}

// The places of those that stay, in the order in which they go.
fn staying_places(
    alloc: Global,
    ranked: &[Ranked<'_>],
    group: Group,
    limit: usize,
) -> Result<Vec<usize>, AllocError>
    requires rises { Rises (comes_before group) (ranks ranked.now) }
    requires once { AreOnce (ranks ranked.now) }
    ensures { IfOk result (λ kept. kept.items ≡ map (λ rank. rank.place)
        (filter (stays group limit (ranks ranked.now)) (ranks ranked.now))) }
{
    let mut kept = Vec::new(alloc);
    for index in 0..ranked.len() {
        if stays(ranked, index, group, limit) {
            kept.push(ranked[index].place)?;
        }
    }
    Ok(kept)
}

// Whether fewer than the limit come later and are of its group.
fn stays(ranked: &[Ranked<'_>], index: usize, group: Group, limit: usize) -> bool
    requires below { index < length ranked.now }
    requires rises { Rises (comes_before group) (ranks ranked.now) }
    requires once { AreOnce (ranks ranked.now) }
    ensures { (rank : Rank) → rank ≡ slice_index_or (ranks ranked.now) index rank
        → result ≡ stays group limit (ranks ranked.now) rank }
{
    if ranked.len() - index <= limit {
        return true;
    }
    !group.shares(&ranked[index], &ranked[index + limit])
}
