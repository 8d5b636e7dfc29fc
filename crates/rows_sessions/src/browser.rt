//! The user agent of the rows on sessions.
use cookie_agent::{Agent, Limits, SavedForm, Store};
use cookie_browser::Suffixes;
use jiff::civil::DateTime;
use rows::{Answer, Step};
use rows_browsers::{limits, outcome, site_of};
use std::alloc::Global;

/// A user agent, and the public suffixes that it knows.
#[derive(Drop)]
pub struct Browser<'s> {
    suffixes: &'s Suffixes,
    /// The user agent.
    pub agent: Agent<'s>,
}

impl<'s> Browser<'s> {
    /// A user agent without cookies.
    pub fn new(alloc: Global, suffixes: &'s Suffixes) -> Browser<'s> {
        Browser {
            suffixes,
            agent: Agent::new(alloc, suffixes),
        }
    }

    /// What happens to the agent.
    pub fn answer(&mut self, step: Step<'_>, now: DateTime) -> Answer {
        match step.call {
            "read" => return self.read(step, now),
            "retrieve" => {
                let site = site_of(step.alloc, step.words)?;
                return step.shown(&self.agent.retrieve(&site, now).ok()?);
            }
            "drop" => return self.drop(step),
            "evict" => self.agent.evict(now),
            "clear" => self.agent.clear_domain(step.words.as_bytes()),
            "trim" => self.agent.trim(limits(step.words)?, now).ok()?,
            _ => self.agent = self.restarted(step.alloc, now)?,
        }
        step.done()
    }

    // Reads a `Set-Cookie` text of a response, as `https://a.example/ | a=1; Path=/`.
    fn read(&mut self, step: Step<'_>, now: DateTime) -> Answer {
        let (url, text) = step.halves();
        let (site, text) = (site_of(step.alloc, url.words)?, text.bytes()?);
        outcome(step, self.agent.read(&site, &text, now).ok()?)
    }

    // Removes a cookie of the whole host, as `https://a.example/ | a`.
    fn drop(&mut self, step: Step<'_>) -> Answer {
        let (url, name) = step.halves();
        let scope = site_of(step.alloc, url.words)?.host_scope(step.alloc).ok()?;
        step.yes(self.agent.remove(&name.bytes()?, &scope))
    }

    // A new agent that loads what is saved of this one.
    fn restarted(&self, alloc: Global, now: DateTime) -> Option<Agent<'s>> {
        let (form, mut store) = (SavedForm::JsonLines, Store::new(alloc));
        let saved = form.write(alloc, self.agent.cookies(), now).ok()?;
        let loaded = form.read(alloc, self.suffixes, &saved.text, now).ok()?;
        store
            .load_within(loaded.cookies, self.suffixes, Limits::usual(), now)
            .ok()?;
        Some(Agent::with_store(self.suffixes, store))
    }
}
