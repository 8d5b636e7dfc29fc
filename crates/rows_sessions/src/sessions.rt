//! Sessions: sites that open and save them, and what clients and user agents bring back. data/sessions.tsv says what its
//! calls return.
use crate::acts::do_acts;
use crate::browser::Browser;
use crate::requests::open_requests;
use cookie::{Cookie, CookieJar};
use cookie_browser::Suffixes;
use cookie_client::{Client, JarCall};
use cookie_session::{NeverRevoked, Opened};
use cookie_theorems::open_for_agent::open_for_agent;
use cookie_theorems::save_and_return::save_and_return;
use cookie_theorems::save_over_headers::save_over_headers;
use jiff::civil::DateTime;
use rows::{Answer, Player, Step, after};
use rows_browsers::site_of;
use rows_children::test_key;
use rows_clients::calls_of;
use rows_jars::Jars;
use rows_sites::{Visitor, done_or_why, told};
use std::alloc::Global;

/// A visitor, the jar of a request, a client and a user agent.
#[derive(Drop)]
pub struct Visitors<'s> {
    visitor: Visitor,
    jars: Jars,
    client: Client,
    browser: Browser<'s>,
}

impl<'s> Visitors<'s> {
    /// A new visit to a site, by a user agent that knows these public suffixes.
    pub fn new(alloc: Global, suffixes: &'s Suffixes) -> Option<Visitors<'s>> {
        Some(Visitors {
            visitor: Visitor::new(alloc)?,
            jars: Jars::new(alloc),
            client: Client::new(alloc),
            browser: Browser::new(alloc, suffixes),
        })
    }

    // The jar of the next request, of a client that had no cookie: those that the response sets.
    fn next_jar(&self, alloc: Global) -> Option<CookieJar> {
        let mut jar = CookieJar::new(alloc);
        for cookie in self.jars.jar.delta() {
            let returned = Cookie::new(cookie.name(), cookie.value());
            jar.add_original(returned.into_owned(alloc).ok()?).ok()?;
        }
        Some(jar)
    }

    // The answer of a call that may be refused. The jar then has to be as it was.
    fn settle(&mut self, step: Step<'_>) -> Answer {
        let before = format!(in step.alloc; "{:?}", self.jars.jar).ok()?;
        let answer = match step.call {
            "save" | "keep" | "end" => self.change_jar(step)?,
            _ => self.visitor.visit_with(step, &mut self.jars.jar)?,
        };
        let after = format!(in step.alloc; "{:?}", self.jars.jar).ok()?;
        let is_done = matches!(answer.as_str(), "done" | "saved" | "ended");
        if !is_done && before != after {
            return step.said("the jar changed");
        }
        Some(answer)
    }

    // Saves the session, adds a cookie under the newest key, or ends the session.
    fn change_jar(&mut self, step: Step<'_>) -> Answer {
        let (alloc, visitor, jar) = (step.alloc, &self.visitor, &mut self.jars.jar);
        let (now, sessions, mut rng) = (visitor.now, visitor.site.sessions(), visitor.rng());
        match step.call {
            "save" => {
                let session = visitor.visit.session();
                done_or_why(step, sessions.save(alloc, jar, session, now, &mut rng))
            }
            "keep" => done_or_why(step, sessions.keys.add(jar, step.cookie()?, &mut rng)),
            _ => done_or_why(step, sessions.end(alloc, jar, now)),
        }
    }

    // The place of the key that opens the cookie of that name, and the cookie.
    fn find(&self, step: Step<'_>) -> Answer {
        let keys = self.visitor.site.sessions().keys;
        let Some(opening) = keys.get(&self.jars.jar, &step.text()?).ok()? else {
            return step.said("-");
        };
        let cookie = step.found(Some(&opening.cookie))?;
        format!(in step.alloc; "{} {cookie}", opening.place).ok()
    }

    // Opens the sessions of requests, one after the other. `revoke_and_open` revokes the session first.
    fn open_requests(&mut self, step: Step<'_>) -> Answer {
        let mut revoked = self.visitor.revoked.take();
        let visitor = &self.visitor;
        let (sessions, session) = (visitor.site.sessions(), visitor.visit.session());
        let answer = match &mut revoked {
            Some(revoked) => open_requests(step, sessions, session, revoked),
            None => open_requests(step, sessions, session, &mut NeverRevoked),
        };
        self.visitor.revoked = revoked;
        answer
    }

    // Does acts of the site's handlers.
    fn serve(&mut self, step: Step<'_>) -> Answer {
        let mut revoked = self.visitor.revoked.take();
        let (mut rng, sessions) = (self.visitor.rng(), self.visitor.site.sessions());
        let answer = match &mut revoked {
            Some(revoked) => do_acts(step, sessions, &mut rng, revoked),
            None => do_acts(step, sessions, &mut rng, &mut NeverRevoked),
        };
        self.visitor.revoked = revoked;
        answer
    }

    // Opens the session of the jar, or of the user agent's request.
    fn open(&mut self, step: Step<'_>) -> Answer {
        let (alloc, visitor) = (step.alloc, &mut self.visitor);
        let (now, sessions) = (visitor.now, visitor.site.sessions());
        let opened = match step.call {
            "open" => sessions.open_jar(alloc, &self.jars.jar, now),
            _ => {
                let site = site_of(alloc, step.words)?;
                open_for_agent(alloc, &sessions, &self.browser.agent, &site, now)
            }
        };
        visitor.take(step, opened.ok()?)
    }

    // Saves the session, and opens the client's at its next request, as `599 2 1 0 | add a=1 | remove b`. The numbers
    // after the seconds pick the order of the texts.
    fn come_back(&mut self, step: Step<'_>) -> Answer {
        let (front, calls) = step.halves();
        let (seconds, pick) = front.words.split_once(' ').unwrap_or((front.words, ""));
        let (key, later) = (test_key(), after(seconds)?);
        let numbers = pick.split(' ').filter_map(|word| word.parse().ok());
        let pick: Vec<usize> = numbers.collect(step.alloc).ok()?;
        let calls = calls_of(&key, calls)?;
        let opened = self.returned(step, &calls, &pick, later)?;
        self.visitor.take(step, opened)
    }

    // What is opened of the texts of the response, or of its header map.
    fn returned(
        &mut self,
        step: Step<'_>,
        calls: &[JarCall<'_>],
        pick: &[usize],
        later: DateTime,
    ) -> Option<Option<Opened>> {
        let (alloc, visitor) = (step.alloc, &self.visitor);
        let (now, sessions, mut rng) = (visitor.now, visitor.site.sessions(), visitor.rng());
        let session = visitor.visit.session();
        let (jar, client) = (&mut self.jars.jar, &mut self.client);
        if step.call == "save_and_return" {
            return save_and_return(
                alloc, &sessions, jar, calls, session, client, pick, now, later, &mut rng,
            )
            .ok();
        }
        let returned = save_over_headers(
            alloc, &sessions, jar, calls, session, client, now, later, &mut rng,
        );
        Some(returned.ok()?.opened)
    }
}

impl Player for Visitors<'_> {
    fn answer(&mut self, step: Step<'_>) -> Answer {
        match step.call {
            "back" => {
                self.jars.jar = self.next_jar(step.alloc)?;
                step.done()
            }
            "held" => told(step, self.client.get(&step.text()?)),
            "revoke_and_open" | "open_each" => self.open_requests(step),
            "serve" => self.serve(step),
            "open" | "open_for_agent" => self.open(step),
            "save_and_return" | "save_over_headers" => self.come_back(step),
            "save" | "end" | "keep" | "save_if_needed" | "log_out" | "visit" => self.settle(step),
            "find" => self.find(step),
            "read" | "retrieve" | "drop" | "evict" | "clear" | "trim" | "restart" => {
                self.browser.answer(step, self.visitor.now)
            }
            "original" | "add" | "remove" | "force" | "reset" | "get" | "counts" | "texts" => {
                self.jars.answer(step)
            }
            _ => self.visitor.answer(step),
        }
    }
}
