//! A removal that a browser obeys (RFC 6265 5.3, step 11).
ghost use Rattle.std.specs.Prelude.{◌≡◌, OnErr};
ghost use Rattle.cookie.specs.Jar.{Remove, after};
ghost use Rattle.cookie.specs.Memory.{Gives};
ghost use Rattle.cookie.specs.Removal.{removal};
ghost use Rattle.cookie.specs.declared.jar_error.JarError.TheVariants as refusal;

use cookie::{Cookie, CookieJar, JarError};
use jiff::civil::DateTime;
use std::alloc::Global;

/// Removes a cookie as it was set. If the request had a cookie of that name, the response tells the client to drop it,
/// with the path and the domain of `set`. Without these a browser drops another cookie or none. `now` is in UTC.
///
/// A request has neither path nor domain, so pass in the cookie as the server sets it. Fails only if out of memory, and
/// then leaves the jar as it was.
///
/// ```
/// let set = CookieBuilder::new("id", "").path("/shop").domain("example.com").build();
/// remove_as_set(alloc, &mut jar, &set, now)?;
/// ```
pub fn remove_as_set(
    alloc: Global,
    jar: &mut CookieJar,
    set: &Cookie<'static>,
    now: DateTime,
) -> Result<(), JarError>
    ensures gives { Gives refusal.OutOfMemory result (λ _.
        jar.new ≡ after (Remove set.now.fields now) jar.old) }
    ensures path { (removal now set.now.fields).path ≡ set.now.fields.path }
    ensures domain { (removal now set.now.fields).domain ≡ set.now.fields.domain }
    ensures err { OnErr result (jar.new ≡ jar.old) }
{
    jar.remove(set.clone(alloc)?, now)?;
    Ok(())
}
