//! A cookie's attributes as numbers, for C (RFC 6265 5.2.1 to 5.2.6).
ghost use Rattle.std.specs.Prelude.{◌≡◌, List, ℕ, option_map, if◌then◌else◌};
ghost use Rattle.std.specs.Option.{option_and_then};
ghost use Rattle.jiff.specs.Words.{signed_nanos};
ghost use Rattle.cookie.specs.Expiration.{datetime_of};
ghost use Rattle.cookie.specs.Layout.{attributes_of};
ghost use Rattle.cookie_c.specs.Dates.{moment_or_refusal};
ghost use Rattle.cookie_c.specs.Numbers.{flag_code, same_site_code, whole_seconds, no_numbers, numbers_of};

use crate::date::Moment;
use crate::status::Status;
use cookie::{Expiration, SameSite};
use jiff::SignedDuration;

/// The attributes of a cookie. One that isn't set is 0, but for the expiry, whose status is then `Status::NoDate`.
#[repr(C)]
#[derive(Clone, Copy, Default)]
pub struct Attributes {
    /// Whether scripts are kept from it: 0 if that is unset, 1 if it is true, 2 if it is false.
    pub http_only: u32,
    /// Whether it is for secure connections only, numbered in the same way.
    pub secure: u32,
    /// Whether it is kept apart for each top-level site, numbered in the same way.
    pub partitioned: u32,
    /// To which requests from other sites it is sent: 0 if that is unset, 1 for `Strict`, 2 for `Lax`, 3 for `None`.
    pub same_site: u32,
    /// 1 if it has a path, else 0.
    pub has_path: u32,
    /// 1 if it has a domain, else 0.
    pub has_domain: u32,
    /// 1 if it has an age, else 0.
    pub has_max_age: u32,
    /// 1 if it has an expiry, else 0.
    pub has_expires: u32,
    /// The age in whole seconds.
    pub max_age: i64,
    /// The expiry in UTC.
    pub expires: Moment,
}

impl Attributes {
    pub(crate) fn none() -> Attributes
        ensures { result ≡ no_numbers }
    {
        Attributes {
            expires: Moment::refusal(Status::NoDate),
            ..Attributes::default()
        }
    }

    #[tactic(auto, using(crate::proofs::ReadingLemmas::is_some_mapped))]
    pub(crate) fn of(attributes: cookie::Attributes) -> Attributes
        ensures { (text : List ℕ) → result ≡ numbers_of (attributes_of text attributes) }
    {
        Attributes {
            http_only: flag(attributes.http_only),
            secure: flag(attributes.secure),
            partitioned: flag(attributes.partitioned),
            same_site: same_site(attributes.same_site),
            has_path: presence(attributes.path.is_some()),
            has_domain: presence(attributes.domain.is_some()),
            has_max_age: presence(attributes.max_age.is_some()),
            has_expires: presence(attributes.expires.is_some()),
            max_age: seconds(attributes.max_age),
            expires: moment(attributes.expires),
        }
    }
}

fn flag(flag: Option<bool>) -> u32
    ensures { result ≡ flag_code flag }
{
    match flag {
        None => 0,
        Some(true) => 1,
        Some(false) => 2,
    }
}

fn same_site(rule: Option<SameSite>) -> u32
    ensures { result ≡ same_site_code rule }
{
    match rule {
        None => 0,
        Some(SameSite::Strict) => 1,
        Some(SameSite::Lax) => 2,
        Some(SameSite::None) => 3,
    }
}

fn presence(is_set: bool) -> u32
    ensures { result ≡ (if is_set then 1 else 0) }
{
    if is_set { 1 } else { 0 }
}

pub(crate) fn seconds(age: Option<SignedDuration>) -> i64
    ensures { result ≡ whole_seconds (option_map signed_nanos age) }
{
    match age {
        None => 0,
        Some(age) => age.as_secs(),
    }
}

fn moment(expiry: Option<Expiration>) -> Moment
    ensures { result ≡ moment_or_refusal (option_and_then datetime_of expiry) }
{
    let Some(expiry) = expiry else {
        return Moment::refusal(Status::NoDate);
    };
    match expiry.datetime() {
        Some(moment) => Moment::of(moment),
        None => Moment::refusal(Status::NoDate),
    }
}
