//! The parts of a cookie that are still parts of a borrowed text.
ghost use Rattle.std.specs.Prelude.{◌≡◌, option_map};

use super::{Cookie, after_dot};

impl<'c> Cookie<'c> {
    /// The name as it is in the borrowed text that the cookie was read from. `None` if the cookie was read from none,
    /// as by `new` or `parse_owned`, or made owned; if an escape of name or value was undone; or if the name was set.
    /// Example: `name_and_value` in crates/cookie_examples/src/reading.rt.
    pub fn name_raw(&self) -> Option<&'c str>
        ensures { option_map (λ n. n.now) result ≡ self.now.raw.name }
    {
        self.name.raw(&self.source)
    }

    /// The value as it is in the borrowed text that the cookie was read from. `None` as for the name, or if the value
    /// was set.
    pub fn value_raw(&self) -> Option<&'c str>
        ensures { option_map (λ v. v.now) result ≡ self.now.raw.value }
    {
        self.value.raw(&self.source)
    }

    /// The path as it is in the borrowed text that the cookie was read from. `None` if the cookie has none, was read
    /// from none, or was made owned, or if the path was set.
    pub fn path_raw(&self) -> Option<&'c str>
        ensures { option_map (λ p. p.now) result ≡ self.now.raw.path }
    {
        self.path.as_ref()?.raw(&self.source)
    }

    /// The domain as it is in the borrowed text that the cookie was read from, without one leading dot. `None` as for
    /// the path.
    pub fn domain_raw(&self) -> Option<&'c str>
        ensures { option_map (λ d. d.now) result ≡ self.now.raw.domain }
    {
        let domain = self.domain.as_ref()?;
        let raw = domain.raw(&self.source)?;
        Some(after_dot(raw))
    }
}
