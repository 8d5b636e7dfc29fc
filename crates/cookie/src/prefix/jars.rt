//! Child jars, through which each cookie has a prefix.
ghost use Rattle.std.specs.Prelude.{◌≡◌, Some, option_map};
ghost use Rattle.cookie_core.specs.Memory.{Gives};
ghost use Rattle.cookie.specs.ChildJars.{Changes, jar_of};
ghost use Rattle.cookie.specs.Prefixes.{conforming_cookie, pair_of, prefixed_view};
ghost use Rattle.cookie.specs.declared.jar_error.JarError.TheVariants as refusal;

use crate::child::{ChildJar, Storing};
use crate::jar::CookieJar;
use crate::jar_error::JarError;
use crate::prefix::{Prefix, Prefixing};
use cookie_core::Cookie;
use std::alloc::{AllocError, Global};
use std::marker::{Model, PhantomData};

/// A jar, seen through a prefix. Contracts see it as that jar.
#[derive(Drop)]
pub struct PrefixedJar<'a, P: Prefix> {
    jar: &'a CookieJar,
    of: PhantomData<P>,
}

impl<'a, P: Prefix> Model for PrefixedJar<'a, P> {
    ghost use Rattle.cookie.specs.Jar.{JarState, jar_code};

    ghost Value = { JarState };

    ghost coded = { jar_code };

    ghost view = { λ a. a.jar.now };
}

/// A jar, seen and changed through a prefix.
pub type PrefixedJarMut<'a, P> = ChildJar<'a, Prefixer<P>>;

/// What puts a prefix before names.
#[derive(Drop)]
pub struct Prefixer<P: Prefix> {
    of: PhantomData<P>,
}

impl<P: Prefix> Storing for Prefixer<P> {
    ghost stored = { λ _. conforming_cookie P.PREFIX P.conformed };

    ghost dropped = { λ _. conforming_cookie P.PREFIX P.conformed };

    ghost DropsFreely = { ⊥ };

    ghost ShowsPair = { λ _ jar cookie.
        option_map pair_of (prefixed_view P.PREFIX jar cookie.name) ≡ Some (pair_of cookie) };

    fn to_add(
        &self,
        alloc: Global,
        cookie: Cookie<'static>,
    ) -> Result<Cookie<'static>, AllocError> {
        P::apply(alloc, cookie)
    }

    fn to_remove(
        &self,
        alloc: Global,
        cookie: Cookie<'static>,
    ) -> Result<Cookie<'static>, AllocError> {
        self.to_add(alloc, cookie)
    }
}

impl CookieJar {
    /// Views the jar through a prefix, to look cookies up. It doesn't allocate.
    pub fn prefixed<'a, P: Prefix>(&'a self, _prefix: P) -> PrefixedJar<'a, P>
        ensures { result ≡ self.now }
    {
        PrefixedJar {
            jar: self,
            of: PhantomData,
        }
    }

    /// Views the jar through a prefix, to look cookies up and to change it. It doesn't allocate.
    ///
    /// ```
    /// jar.prefixed_mut(Host).add(Cookie::new("id", "7"))?;   // __Host-id=7; Secure; Path=/
    /// ```
    pub fn prefixed_mut<'a, P: Prefix>(&'a mut self, _prefix: P) -> PrefixedJarMut<'a, P>
        ensures same { Changes result self.entry }
        ensures value { jar_of result ≡ self.old }
    {
        ChildJar {
            jar: self,
            storing: Prefixer { of: PhantomData },
        }
    }

    // A copy of the cookie that the jar shows under the name with the prefix, without the prefix.
    fn get_clipped<P: Prefix>(&self, name: &str) -> Result<Option<Cookie<'static>>, JarError>
        ensures { Gives refusal.OutOfMemory result (λ o.
            option_map (λ c. c.fields) o ≡ prefixed_view P.PREFIX self.now name.now) }
    {
        let alloc = self.allocator();
        let name = P::prefixed_name(alloc, name)?;
        match self.get(name.as_str()) {
            Some(cookie) => Ok(Some(P::clip(alloc, cookie.clone(alloc)?)?)),
            None => Ok(None),
        }
    }
}

impl<'a, P: Prefix> PrefixedJar<'a, P> {
    /// A copy of the cookie that the jar shows under the name with the prefix, without the prefix. `None` if there is
    /// none.
    ///
    /// Fails only with `JarError::OutOfMemory`.
    pub fn get(&self, name: &str) -> Result<Option<Cookie<'static>>, JarError>
        ensures { Gives refusal.OutOfMemory result (λ o.
            option_map (λ c. c.fields) o ≡ prefixed_view P.PREFIX self.now name.now) }
    {
        self.jar.get_clipped::<P>(name)
    }
}

impl<'a, P: Prefix> PrefixedJarMut<'a, P> {
    /// A copy of the cookie that the jar shows under the name with the prefix, without the prefix. `None` if there is
    /// none.
    ///
    /// Fails only with `JarError::OutOfMemory`.
    pub fn get(&self, name: &str) -> Result<Option<Cookie<'static>>, JarError>
        ensures { Gives refusal.OutOfMemory result (λ o.
            option_map (λ c. c.fields) o ≡ prefixed_view P.PREFIX (jar_of self.now) name.now) }
    {
        self.jar.get_clipped::<P>(name)
    }
}
