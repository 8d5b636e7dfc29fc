//! By what cookies are counted, and the order in which they go (RFC 6265bis, Storage Model).
ghost use Rattle.std.specs.Prelude.{◌≡◌};
ghost use Rattle.std.specs.Ordering.{bool_cmp};
ghost use Rattle.cookie_agent.specs.LimitsCode.{access_cmp, rank_cmp, rank_of, shares, text_cmp, text_of};

use crate::ranked::Ranked;
use crate::stored::StoredCookie;
use cookie_browser::Suffixes;
use std::cmp::Ordering;

// Which cookies are counted together: the cookies of a domain, of a site, or all.
#[derive(Clone, Copy)]
pub(crate) enum Group {
    Domain,
    Site,
    Whole,
}

impl Group {
    // The text that the cookie is counted by.
    pub(crate) fn text<'a>(self, suffixes: &Suffixes, cookie: &'a StoredCookie) -> &'a [u8]
        ensures { result.now ≡ text_of suffixes.now self cookie.now }
    {
        match self {
            Group::Domain => cookie.domain(),
            Group::Site => suffixes.site(cookie.domain()),
            Group::Whole => b"".as_slice(),
        }
    }

    // Whether both are counted together.
    pub(crate) fn shares(self, left: &Ranked<'_>, right: &Ranked<'_>) -> bool
        ensures { result ≡ shares self (rank_of left.now) (rank_of right.now) }
    {
        match self {
            Group::Domain | Group::Site => right.text.is_same(&left.text),
            Group::Whole => true,
        }
    }

    // Which goes first. Cookies of one group are together in this order.
    pub(crate) fn compare(self, left: &Ranked<'_>, right: &Ranked<'_>) -> Ordering
        ensures { result ≡ rank_cmp self (rank_of left.now) (rank_of right.now) }
    {
        match self {
            Group::Domain | Group::Site => compare_texts(left, right),
            Group::Whole => compare_access(left, right),
        }
    }
}

// By the text, and then those that aren't secure-only first.
fn compare_texts(left: &Ranked<'_>, right: &Ranked<'_>) -> Ordering
    ensures { result ≡ text_cmp (rank_of left.now) (rank_of right.now) }
{
    match left.text.compare(&right.text) {
        Ordering::Equal => {
            compare_secure(left.cookie, right.cookie).then(compare_access(left, right))
        }
        unequal => unequal,
    }
}

fn compare_secure(left: &StoredCookie, right: &StoredCookie) -> Ordering
    ensures { result ≡ bool_cmp left.now.is_secure_only right.now.is_secure_only }
{
    left.as_kept()
        .is_secure_only
        .cmp(&right.as_kept().is_secure_only)
}

// The earlier last access goes first, and then the earlier creation.
fn compare_access(left: &Ranked<'_>, right: &Ranked<'_>) -> Ordering
    ensures { result ≡ access_cmp (rank_of left.now) (rank_of right.now) }
{
    let by_access = left.cookie.last_access().cmp(&right.cookie.last_access());
    by_access.then(left.place.cmp(&right.place))
}
