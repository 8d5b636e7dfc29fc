//! When two cookies are equal.
ghost use Rattle.std.specs.Prelude.{◌≡◌, option_map};
ghost use Rattle.std.specs.Option.{option_eq};
ghost use Rattle.cookie_core.specs.Same.{same_ignoring_case, same, same_cookie, same_cookie-laws, IsEquality};

use crate::cookie::Cookie;

/// Equal in name, value and all attributes but `SameSite`. The path and the domain are compared ignoring ASCII case.
impl<'c> PartialEq for Cookie<'c> {
    ghost eq = { same_cookie };

    ghost laws = { same_cookie-laws };

    fn eq(&self, other: &Cookie<'c>) -> bool
        ensures equal { result ≡ same_cookie self.now other.now }

        // Which is reflexive, symmetric and transitive.
        ensures equality { IsEquality same }
    {
        self.name() == other.name()
            && self.value() == other.value()
            && self.http_only() == other.http_only()
            && self.secure() == other.secure()
            && self.partitioned() == other.partitioned()
            && are_same(self.path(), other.path())
            && are_same(self.domain(), other.domain())
            && self.max_age() == other.max_age()
            && self.expires() == other.expires()
    }
}

fn are_same(one: Option<&str>, other: Option<&str>) -> bool
    ensures { result ≡ option_eq same_ignoring_case
        (option_map (λ t. t.now) one.entry) (option_map (λ t. t.now) other.entry) }
{
    match (one, other) {
        (Some(one), Some(other)) => one.eq_ignore_ascii_case(other),
        (None, None) => true,
        _ => false,
    }
}
