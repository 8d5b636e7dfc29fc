//! Jars, their child jars, their keys, and the headers that they read and print.
mod counting;
mod keys;
mod looks;
mod prefixes;

use cookie::prefix::{Host, Secure};
use cookie::{CookieJar, JarError, Key};
use counting::Counting;
use prefixes::{Bare, Team};
use rand_core::TryRng;
use rows::{Answer, Player, Step, moment};
use rows_children::{Sevens, hash_keys, prefixed, secret, test_key};
use std::alloc::Global;
use std::mem::{replace, swap};

/// A jar and a copy of it, the key of its child jars, and a generator of random bytes.
#[derive(Drop)]
pub struct Jars {
    /// The jar.
    pub jar: CookieJar,
    copy: CookieJar,
    key: Key,
    rng: Counting,
}

impl Jars {
    /// An empty jar.
    pub fn new(alloc: Global) -> Jars {
        let (jar, copy) = (CookieJar::new(alloc), CookieJar::new(alloc));
        Jars {
            jar,
            copy,
            key: test_key(),
            rng: Counting(0),
        }
    }

    // The first answer that isn't wanted of the call with generators that have the numbers of bytes of a range such as
    // `0-11`, and then fail.
    fn failing(&mut self, range: Step<'_>) -> Answer {
        let call = range.call;
        let (first, last) = call.split_once('-').unwrap_or((call, call));
        for left in first.parse().ok()?..=last.parse::<usize>().ok()? {
            let answer = self.answer_with(range.inner(), &mut Sevens { left })?;
            if answer.as_str() != range.wanted {
                return Some(answer);
            }
        }
        range.said(range.wanted)
    }

    fn answer_with<R: TryRng>(&mut self, step: Step<'_>, rng: &mut R) -> Answer {
        match step.call {
            "original" | "add" | "remove" | "force" | "reset" => make(&mut self.jar, step),
            "copy" | "swap" | "keyed" | "header" | "field" => self.change(step),
            "master" | "signing" | "encryption" => keys::part(&self.key, step),
            "key" | "from" | "try-from" | "derive-from" | "try-derive-from" | "try-draw" => {
                keys::set(&mut self.key, step, rng)
            }
            _ => self.child_answer(step, rng),
        }
    }

    // What a child jar returns, or a call that only looks.
    fn child_answer<R: TryRng>(&mut self, step: Step<'_>, rng: &mut R) -> Answer {
        let (jar, child) = (&mut self.jar, step.inner());
        match step.call {
            "host" => prefixed(jar, Host, child),
            "secure" => prefixed(jar, Secure, child),
            "team" => prefixed(jar, Team, child),
            "bare" => prefixed(jar, Bare, child),
            call if call == "signed" || call.starts_with("private") => {
                secret(jar, &self.key, step, rng)
            }
            _ => looks::answer(jar, step),
        }
    }

    // Takes another jar, or puts the originals of a header's text or of a field's bytes into the jar.
    fn change(&mut self, step: Step<'_>) -> Answer {
        match step.call {
            "copy" => return step.outcome(self.copy_jar()),
            "swap" => swap(&mut self.jar, &mut self.copy),
            "keyed" => self.jar = CookieJar::with_hasher(step.alloc, hash_keys()?),
            "header" => {
                let jar = replace(&mut self.jar, CookieJar::new(step.alloc));
                self.jar = jar.with_originals(&step.text()?).ok()?;
            }
            _ => {
                let jar = replace(&mut self.jar, CookieJar::new(step.alloc));
                self.jar = jar.with_field(&step.bytes()?).ok()?;
            }
        }
        step.done()
    }

    fn copy_jar(&mut self) -> Result<(), JarError> {
        self.copy = self.jar.clone()?;
        Ok(())
    }
}

// Makes the step's call on the jar itself.
fn make(jar: &mut CookieJar, step: Step<'_>) -> Answer {
    let cookie = step.cookie()?;
    match step.call {
        "original" => return step.outcome(jar.add_original(cookie)),
        "add" => return step.outcome(jar.add(cookie)),
        "remove" => return step.outcome(jar.remove(cookie, moment())),
        "force" => jar.force_remove(cookie.name()),
        _ => jar.reset_delta(),
    }
    step.done()
}

impl Player for Jars {
    fn answer(&mut self, step: Step<'_>) -> Answer {
        match step.call {
            "seed" => self.rng = Counting(step.words.parse().ok()?),
            "draw" => self.key = Key::generate(&mut self.rng),
            "clone" => self.key = self.key.clone().ok()?,
            "drawn" => return step.printed(self.rng.0),
            "failing" => return self.failing(step.inner()),
            _ => {
                let mut rng = Counting(self.rng.0);
                let answer = self.answer_with(step, &mut rng);
                self.rng = rng;
                return answer;
            }
        }
        step.done()
    }
}
