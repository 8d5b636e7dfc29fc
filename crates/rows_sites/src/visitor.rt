//! Visits to a site: their sessions, what the site keeps as revoked, and its tokens.
use crate::revoked::{Revoked, ids_of};
use crate::site::Site;
use crate::tokens::token_answer;
use crate::visits::{ended, pass_text, visit_answer};
use cookie::{CookieJar, field_cookies};
use cookie_session::{NeverRevoked, Opened, Revocations, Visit, second_of};
use hex::encode;
use jiff::civil::DateTime;
use rows::{Answer, Step, after, moment};
use rows_children::Sevens;
use std::alloc::Global;
use std::fmt::Display;
use std::mem::swap;

// The second of the rows' time, counted from 1970 on.
const FIRST: u64 = 1_445_412_480;

/// A site, a visit to it, another one that is put aside, the time, how many bytes a generator returns, and what the site
/// keeps as revoked.
#[derive(Drop)]
pub struct Visitor {
    /// The site.
    pub site: Site,
    /// The visit.
    pub visit: Visit,
    aside: Visit,
    /// The time in UTC.
    pub now: DateTime,
    left: usize,
    /// What the site keeps as revoked, if it keeps any.
    pub revoked: Option<Revoked>,
}

/// `done`, or the sentence of the refusal.
pub fn done_or_why<E: Display + Drop>(step: Step<'_>, outcome: Result<(), E>) -> Answer {
    match outcome {
        Ok(()) => step.done(),
        Err(refusal) => step.printed(refusal),
    }
}

/// The text, `(empty)` if it is empty, or `-` if there is none.
pub fn told(step: Step<'_>, text: Option<&str>) -> Answer {
    match text {
        Some("") => step.said("(empty)"),
        _ => step.shown(text.unwrap_or("").as_bytes()),
    }
}

// The visit of a request without a session, at the time of most rows.
fn started(alloc: Global, site: &Site) -> Option<Visit> {
    Visit::start(alloc, &site.sessions(), moment(), &mut Sevens { left: 16 }).ok()
}

impl Visitor {
    /// A new visit at the time of most rows.
    pub fn new(alloc: Global) -> Option<Visitor> {
        let site = Site::new(alloc)?;
        let (visit, aside) = (started(alloc, &site)?, started(alloc, &site)?);
        Some(Visitor {
            site,
            visit,
            aside,
            now: moment(),
            left: 28,
            revoked: None,
        })
    }

    /// The generator.
    pub fn rng(&self) -> Sevens {
        Sevens { left: self.left }
    }

    /// What the step's call on the visit, the site or its tokens returns.
    pub fn answer(&mut self, step: Step<'_>) -> Answer {
        match step.call {
            "at" => self.now = after(step.words)?,
            "generator" => self.left = step.words.parse().ok()?,
            "revoked" => self.revoked = Some(Revoked::of(step)?),
            "start" | "renew" | "start_anew" => return self.start(step),
            "set" => self.set(step)?,
            "generation" => self.set_generation(step)?,
            "unset" => self.visit.remove(&step.text()?),
            "form" => self.visit.set_form(step.alloc, &step.bytes()?).ok()?,
            "swap" => swap(&mut self.visit, &mut self.aside),
            "set_saved" => self.visit.set_saved(),
            "end_given" => {
                return ended(
                    step,
                    self.visit.end_given(self.now, step.words == "revoked"),
                );
            }
            _ => return self.ask(step),
        }
        step.done()
    }

    /// Opens the visit of a `Cookie` field, saves the visit if needed, or logs out by it, with the jar of the request.
    pub fn visit_with(&mut self, step: Step<'_>, jar: &mut CookieJar) -> Answer {
        let (now, mut rng) = (self.now, self.rng());
        let next = started(step.alloc, &self.site)?;
        let (sessions, visit) = (self.site.sessions(), &mut self.visit);
        match &mut self.revoked {
            Some(revoked) => {
                visit_answer(step, &sessions, jar, visit, next, now, &mut rng, revoked)
            }
            None => {
                let never = &mut NeverRevoked;
                visit_answer(step, &sessions, jar, visit, next, now, &mut rng, never)
            }
        }
    }

    // Starts a new session, or the same one anew, with its texts or without.
    fn start(&mut self, step: Step<'_>) -> Answer {
        let (alloc, now, mut rng) = (step.alloc, self.now, self.rng());
        let (sessions, visit) = (self.site.sessions(), &mut self.visit);
        match step.call {
            "renew" => done_or_why(step, visit.renew(&sessions, now, &mut rng)),
            "start_anew" => done_or_why(step, visit.restart(alloc, &sessions, now, &mut rng)),
            _ => match Visit::start(alloc, &sessions, now, &mut rng) {
                Ok(started) => {
                    *visit = started;
                    step.done()
                }
                Err(refusal) => step.printed(refusal),
            },
        }
    }

    // Keeps a generation, whose text is that of a session which keeps it.
    fn set_generation(&mut self, step: Step<'_>) -> Option<()> {
        let (mut rng, sessions) = (Sevens { left: 16 }, self.site.sessions());
        let mut session = sessions.start(step.alloc, self.now, &mut rng).ok()?;
        let number = step.words.parse().ok()?;
        session.set_generation(step.alloc, number).ok()?;
        for (name, text) in session.iter() {
            self.visit.set(name, text).ok()?;
        }
        Some(())
    }

    // Sets a text, as `user=ann`, or one of a number of `y`, as `user*12`.
    fn set(&mut self, step: Step<'_>) -> Option<()> {
        let (name, content) = match step.words.split_once('*') {
            Some((name, count)) => (name, "y".repeat(step.alloc, count.parse().ok()?).ok()?),
            None => {
                let (name, content) = step.words.split_once('=')?;
                (name, step.with_words(content).text()?)
            }
        };
        let name = step.with_words(name).text()?;
        self.visit.set(&name, &content).ok()
    }

    // What the visit is, and its session.
    fn ask(&mut self, step: Step<'_>) -> Answer {
        let (visit, session) = (&self.visit, self.visit.session());
        match step.call {
            "given" => pass_text(step, visit.given(), FIRST),
            "replaced" => pass_text(step, visit.replaced(), FIRST),
            "must_save" => step.yes(self.site.sessions().must_save(visit, self.now)),
            "shows_revoked" => step.yes(visit.shows_revoked()),
            "text" => told(step, session.get(&step.text()?)),
            "session" => self.texts(step),
            "times" => numbers(
                step,
                session.started(),
                session.seen().saturating_sub(FIRST),
            ),
            "own" => numbers(step, session.end(), u64::from(session.idle())),
            "as_form" => step.shown(session.to_form(step.alloc).ok()?.as_bytes()),
            "id" => encode(step.alloc, session.id()).ok(),
            "since" => step.yes(session.is_since(step.words.parse().ok()?)),
            "kept" => step.optional(session.generation()),
            _ => self.open(step),
        }
    }

    fn texts(&self, step: Step<'_>) -> Answer {
        let mut texts = Vec::new(step.alloc);
        for (name, content) in self.visit.session().iter() {
            texts.push(step.pair(name, content)?).ok()?;
        }
        step.list(&texts)
    }

    /// Takes the session that was opened, and says the place of its key.
    pub fn take(&mut self, step: Step<'_>, opened: Option<Opened>) -> Answer {
        let Some(opened) = opened else {
            return step.said("-");
        };
        self.visit = Visit::of(opened);
        step.optional(self.visit.place())
    }

    // Opens sessions or sealed texts, makes tokens, or asks what is revoked.
    fn open(&mut self, step: Step<'_>) -> Answer {
        match step.call {
            "make_token" | "read_token" | "token_times" | "read_token_once" => self.token(step),
            "open_for" => self.open_for(step),
            "open_field" => self.open_field(step),
            "open_all" => self.open_all(step),
            "revoke" | "forget" | "first_unrevoked" => self.revoke(step),
            _ => self.site.answer(step),
        }
    }

    // Makes a token for a purpose, or reads one.
    fn token(&mut self, step: Step<'_>) -> Answer {
        let (now, mut rng, site) = (self.now, self.rng(), self.site.sessions());
        token_answer(step, site, now, FIRST, &mut rng, &mut self.revoked)
    }

    // Opens a text that was sealed for a purpose and a name, as `token | invitation | TEXT`.
    fn open_for(&self, step: Step<'_>) -> Answer {
        let (purpose, rest) = step.halves();
        let (name, text) = rest.halves();
        let sealer = self.site.sessions().keys.newest().sealer();
        let opened = sealer.open_for(step.alloc, purpose.words, name.words, text.words);
        match opened.ok()? {
            Some(value) => step.escaped(value.as_bytes()),
            None => step.said("-"),
        }
    }

    // Opens the session of a `Cookie` field, unless it is revoked.
    fn open_field(&mut self, step: Step<'_>) -> Answer {
        let (alloc, now, sessions) = (step.alloc, self.now, self.site.sessions());
        let cookies = field_cookies(alloc, &step.bytes()?).ok()?;
        let opened = match &mut self.revoked {
            Some(revoked) => sessions.open_unrevoked(alloc, &cookies, now, revoked),
            None => Ok(sessions.open(alloc, &cookies, now).ok()?),
        };
        match opened {
            Ok(opened) => self.take(step, opened),
            Err(refusal) => step.refused(&refusal),
        }
    }

    // Opens each session of a `Cookie` field. Returns the places of their keys, and their ids.
    fn open_all(&self, step: Step<'_>) -> Answer {
        let (alloc, sessions) = (step.alloc, self.site.sessions());
        let cookies = field_cookies(alloc, &step.bytes()?).ok()?;
        let mut texts = Vec::new(alloc);
        for opened in &sessions.open_all(alloc, &cookies, self.now).ok()? {
            let id = encode(alloc, opened.session.id()).ok()?;
            let text = format!(in alloc; "{} {id}", opened.place).ok()?;
            texts.push(text).ok()?;
        }
        step.list(&texts)
    }

    // Revokes the session, forgets which ones are over, or looks for an id that isn't revoked.
    fn revoke(&mut self, step: Step<'_>) -> Answer {
        let (sessions, revoked) = (self.site.sessions(), self.revoked.as_mut()?);
        match step.call {
            "revoke" => match sessions.revoke(self.visit.session(), revoked) {
                Ok(already) => step.said(if already { "already" } else { "done" }),
                Err(refusal) => step.refused(&refusal),
            },
            "forget" => step.outcome(revoked.forget(second_of(after(step.words)?))),
            _ => match revoked.first_unrevoked(&ids_of(step)?) {
                Ok(place) => step.optional(place),
                Err(refusal) => step.refused(&refusal),
            },
        }
    }
}

// The seconds from the first one to this one, and another number.
fn numbers(step: Step<'_>, second: u64, number: u64) -> Answer {
    format!(in step.alloc; "{} {number}", second.saturating_sub(FIRST)).ok()
}
