use cookie::{Cookie, CookieBuilder, Key, SameSite};
use cookie_session::{KeyRing, Sessions};
use rows::{Answer, Step};
use rows_children::{key_of, test_key};
use std::alloc::Global;

/// The keys of a site, the cookie with the name and the attributes that it sets, and its limits.
#[derive(Drop)]
pub struct Site {
    keys: KeyRing,
    cookie: Cookie<'static>,
    lifetime: u32,
    idle: u32,
}

impl Site {
    /// A site with the test key, whose cookie is only sent over TLS. Its sessions live 1,200 seconds, and 600 after they
    /// were last saved.
    pub fn new(alloc: Global) -> Option<Site> {
        let cookie = CookieBuilder::new("__Host-session", "")
            .path("/")
            .secure(true)
            .http_only(true)
            .same_site(SameSite::Lax);
        Some(Site {
            keys: KeyRing::new(alloc, test_key()).ok()?,
            cookie: cookie.build(),
            lifetime: 1200,
            idle: 600,
        })
    }

    /// How it keeps its sessions.
    pub fn sessions(&self) -> Sessions<'_> {
        Sessions {
            keys: &self.keys,
            cookie: &self.cookie,
            lifetime: self.lifetime,
            idle: self.idle,
        }
    }

    /// What the step's call on the site returns.
    pub fn answer(&mut self, step: Step<'_>) -> Answer {
        match step.call {
            "site" => self.cookie = step.cookie()?,
            "limits" => {
                let (lifetime, idle) = step.words.split_once(' ')?;
                (self.lifetime, self.idle) = (lifetime.parse().ok()?, idle.parse().ok()?);
            }
            "ring" => self.keys = KeyRing::new(step.alloc, key_of(step.words)?).ok()?,
            "rotate" => self.keys.rotate(key_of(step.words)?).ok()?,
            "older" => self.keys.add_older(key_of(step.words)?).ok()?,
            "retire" => match self.keys.retire() {
                Some(key) => return name_of(step, &key),
                None => return step.said("-"),
            },
            "keys" => return step.printed(self.keys.len()),
            "newest" => return name_of(step, self.keys.newest()),
            _ => return None,
        }
        step.done()
    }
}

// The name of the key.
fn name_of(step: Step<'_>, key: &Key) -> Answer {
    if *key == test_key() {
        return step.said("test");
    }
    step.printed((0..=255u8).find(|&byte| Key::from(&[byte; 64]) == *key)?)
}
