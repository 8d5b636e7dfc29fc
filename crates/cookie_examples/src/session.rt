//! A session that only the server can write.
ghost use Rattle.std.specs.Prelude.{◌≡◌, ◌↔◌, ℕ, List, Some, OnOk, OnErr, option_map, string_bytes};
ghost use Rattle.cookie.specs.Memory.{Gives};
ghost use Rattle.cookie.specs.declared.jar_error.JarError.TheVariants as refusal;
ghost use Rattle.cookie_examples.specs.Words.{IsSignedIn};

use crate::generator;
use anyhow::Result;
use cookie::{CookieBuilder, CookieJar, JarError, Key, SameSite};
use rand_core::TryRng;
use std::alloc::Global;

/// Signs a user in: the cookie `session` holds the user's name, sealed under the key. After an error the jar is as
/// before.
pub fn sign_in<R: TryRng>(
    alloc: Global,
    jar: &mut CookieJar,
    key: &Key,
    user: &str,
    rng: &mut R,
) -> Result<(), JarError>
    ensures ok { OnOk result (IsSignedIn key.now jar.new user.now) }
    ensures err { OnErr result (jar.new ≡ jar.old) }
{
    let cookie = CookieBuilder::new("session", user)
        .path("/")
        .secure(true)
        .http_only(true)
        .same_site(SameSite::Lax)
        .build();
    jar.private_mut(key).add(cookie.into_owned(alloc)?, rng)?;
    Ok(())
}

/// The user who is signed in: exactly the text that was sealed under the key.
pub fn user_of(alloc: Global, jar: &CookieJar, key: &Key) -> Result<Option<String>, JarError>
    ensures { Gives refusal.OutOfMemory result (λ answer. (user : List ℕ)
        → (option_map string_bytes answer ≡ Some user) ↔ IsSignedIn key.now jar.now user) }
{
    match jar.private(key).get("session")? {
        Some(cookie) => Ok(Some(String::from_str(alloc, cookie.value())?)),
        None => Ok(None),
    }
}

pub fn print(rt: &HostRuntime) -> Result<()> {
    let (mut rng, mut jar) = (generator(), CookieJar::new(rt.alloc()));
    let key = Key::generate(&mut rng);
    sign_in(rt.alloc(), &mut jar, &key, "ann", &mut rng)?;
    for key in [key, Key::generate(&mut rng)] {
        let user = user_of(rt.alloc(), &jar, &key)?;
        println!(rt;
            "signed in: {}",
            user.as_ref().map_or("nobody", |user| user.as_str())
        )?;
    }
    Ok(())
}
