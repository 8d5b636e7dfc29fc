//! Prefixes of cookie names, and what they require of a cookie (RFC 6265bis 4.1.3).
ghost use Rattle.std.specs.Prelude.{◌≡◌, ◌++◌, alloc_error, option_map, string_bytes};
ghost use Rattle.cookie_core.specs.Memory.{Gives};
ghost use Rattle.cookie_core.specs.Record.{Record, RawForms, CookieView};
ghost use Rattle.cookie.specs.Clipped.{LeavesName};
ghost use Rattle.cookie.specs.Jar.{Name};
ghost use Rattle.cookie.specs.Prefixes.{KeepsPair, IsConforming, conforming_cookie, clipped_cookie, clipped_name, prefixed_cookie, renamed_raw};

mod host_prefix;
mod jars;
mod name_prefix;
mod secure_prefix;

use cookie_core::Cookie;
pub use host_prefix::Host;
pub use jars::{PrefixedJar, PrefixedJarMut, Prefixer};
pub use name_prefix::NamePrefix;
pub use secure_prefix::Secure;
use std::alloc::{AllocError, Global};

/// A prefix of names, and what it requires of a cookie whose name has it.
pub trait Prefix: Drop {
    /// The text before the names.
    const PREFIX: NamePrefix;

    ghost PREFIX: { Name };

    // What conforming makes of a cookie's record.
    ghost conformed: { Record → Record };

    // The parts of a text that a cookie borrows after it was made to conform.
    ghost conformed_raw: { CookieView → RawForms };

    /// Makes a cookie conform to what the prefix requires. It doesn't allocate.
    fn conform<'c>(cookie: Cookie<'c>) -> Cookie<'c>
        ensures fields { result.fields ≡ conformed cookie.entry.fields }
        ensures raw { result.raw ≡ conformed_raw cookie.entry };

    ghost keeps_pair: { KeepsPair conformed };

    ghost is_conforming: { IsConforming conformed };
}

/// The calls of a prefix on names and cookies. Each type with a [`Prefix`] has them, and none can write its own.
pub trait Prefixing: Prefix {
    /// Returns the name with the prefix before it. Fails only with `AllocError`, if out of memory.
    fn prefixed_name(alloc: Global, name: &str) -> Result<String, AllocError>
        ensures { Gives alloc_error result (λ made. string_bytes made ≡ Self.PREFIX ++ name.now) }
    {
        let mut made = String::from_str(alloc, Self::PREFIX.as_str())?;
        made.push_str(name)?;
        Ok(made)
    }

    /// Puts the prefix before the cookie's name. The name counts as set if the prefix isn't empty. Fails only with
    /// `AllocError`, if out of memory.
    fn prefix<'c>(alloc: Global, mut cookie: Cookie<'c>) -> Result<Cookie<'c>, AllocError>
        ensures fields { Gives alloc_error result (λ c.
            c.fields ≡ prefixed_cookie Self.PREFIX cookie.entry.fields) }
        ensures raw { Gives alloc_error result (λ c.
            c.raw ≡ renamed_raw (Self.PREFIX ++ cookie.entry.fields.name) cookie.entry) }
        ensures back { Gives alloc_error result (λ c.
            clipped_cookie Self.PREFIX c.fields ≡ cookie.entry.fields) }
    {
        if !Self::PREFIX.as_str().is_empty() {
            let name = Self::prefixed_name(alloc, cookie.name())?;
            cookie.set_name_owned(name);
        }
        Ok(cookie)
    }

    /// Takes the prefix off the cookie's name, if the name begins with it. The name counts as set if it changes. Fails
    /// only with `AllocError`, if out of memory.
    fn clip<'c>(alloc: Global, mut cookie: Cookie<'c>) -> Result<Cookie<'c>, AllocError>
        ensures fields { Gives alloc_error result (λ c.
            c.fields ≡ clipped_cookie Self.PREFIX cookie.entry.fields) }
        ensures raw { Gives alloc_error result (λ c.
            c.raw ≡ renamed_raw (clipped_name Self.PREFIX cookie.entry.fields.name) cookie.entry) }
    {
        if let Some(rest) = without(Self::PREFIX.as_str(), cookie.name()) {
            let rest = String::from_str(alloc, rest)?;
            cookie.set_name_owned(rest);
        }
        Ok(cookie)
    }

    /// Makes the cookie as it is stored: with the prefix before its name, and then conforming. Fails only with
    /// `AllocError`, if out of memory.
    fn apply<'c>(alloc: Global, cookie: Cookie<'c>) -> Result<Cookie<'c>, AllocError>
        ensures fields { Gives alloc_error result (λ c.
            c.fields ≡ conforming_cookie Self.PREFIX Self.conformed cookie.entry.fields) }
        ensures raw { Gives alloc_error result (λ c.
            c.raw ≡ Self.conformed_raw (record {
              fields = prefixed_cookie Self.PREFIX cookie.entry.fields;
              raw = renamed_raw (Self.PREFIX ++ cookie.entry.fields.name) cookie.entry;
            })) }
        ensures conforms { Gives alloc_error result (λ c. Self.conformed c.fields ≡ c.fields) }
    {
        Ok(Self::conform(Self::prefix(alloc, cookie)?))
    }
}

impl<P: Prefix> Prefixing for P {}

// The name without the prefix. `None` if the prefix is empty, or if the name doesn't begin with it.
fn without<'n>(prefix: &str, name: &'n str) -> Option<&'n str>
    ensures { LeavesName prefix.now name.now (option_map (λ n. n.now) result) }
{
    if prefix.is_empty() {
        return None;
    }
    name.strip_prefix(prefix)
}
