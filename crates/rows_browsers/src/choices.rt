//! A user agent with what browsers do beyond the standard. data/choices.tsv says what its calls return.
use crate::browsing::{context_of, site_of};
use cookie_agent::{BrowserAgent, BrowserCookie, BrowserRefusal, Site};
use cookie_browser::{BrowserChoices, Received, Suffixes, is_partitioned, refused_beyond};
use jiff::civil::DateTime;
use rows::{Answer, Player, Step, after, moment};
use std::alloc::Global;
use std::mem::replace;

/// A user agent with choices, the site of its requests, the site of the top-level page, and the time.
#[derive(Drop)]
pub struct Choosers<'r> {
    suffixes: &'r Suffixes,
    choices: BrowserChoices,
    agent: BrowserAgent<'r>,
    site: Site,
    top: String,
    now: DateTime,
}

impl<'r> Choosers<'r> {
    /// An agent without cookies that makes Chromium's choices, and knows these public suffixes.
    pub fn new(alloc: Global, suffixes: &'r Suffixes) -> Option<Choosers<'r>> {
        let choices = BrowserChoices::chromium();
        Some(Choosers {
            suffixes,
            choices,
            agent: BrowserAgent::new(alloc, suffixes, choices),
            site: site_of(alloc, "https://www.example.com/")?,
            top: String::new(alloc),
            now: moment(),
        })
    }

    fn change(&mut self, step: Step<'_>) -> Answer {
        match step.call {
            "choices" => {
                self.choices = choices_of(step.words)?;
                self.agent = BrowserAgent::new(step.alloc, self.suffixes, self.choices);
            }
            "on" => self.site = site_of(step.alloc, step.words)?,
            "by" => {
                let site = replace(&mut self.site, site_of(step.alloc, "http://example.com/")?);
                self.site = site.with_context(context_of(step.words)?);
            }
            "top" => self.top = step.text()?,
            "at" => self.now = after(step.words)?,
            "fill" => self.fill(step)?,
            "trim" => self.agent.trim_site(&self.site, self.now).ok()?,
            _ => self.agent.evict(self.now),
        }
        step.done()
    }

    // Stores this number of cookies.
    fn fill(&mut self, step: Step<'_>) -> Option<()> {
        let (count, rest) = step.words.split_once(' ').unwrap_or((step.words, ""));
        let count: usize = count.parse().ok()?;
        for number in 0..count {
            let text = format!(in step.alloc; "c{number}{rest}").ok()?;
            self.agent
                .read(&self.site, self.top.as_bytes(), text.as_bytes(), self.now)
                .ok()?;
        }
        Some(())
    }

    fn read(&mut self, step: Step<'_>) -> Answer {
        let text = step.bytes()?;
        let refusal = self
            .agent
            .read(&self.site, self.top.as_bytes(), &text, self.now)
            .ok()?;
        match refusal {
            None => step.done(),
            Some(BrowserRefusal::Standard(why)) => step.refused(&why),
            Some(BrowserRefusal::Beyond(why)) => step.refused(&why),
        }
    }

    // Each stored cookie: its name, the second of its creation, its partition or `-`, and whether it is sent.
    fn stored(&self, step: Step<'_>) -> Answer {
        let mut shown = Vec::new(step.alloc);
        for cookie in self.agent.cookies() {
            shown.push(self.shown(step, cookie)?).ok()?;
        }
        step.list(&shown)
    }

    fn shown(&self, step: Step<'_>, cookie: &BrowserCookie) -> Option<String> {
        let name = str::from_utf8(cookie.stored().as_kept().name).ok()?;
        let second = cookie.created().second();
        let partition = match cookie.partition() {
            [] => "-",
            partition => str::from_utf8(partition).ok()?,
        };
        let is_sent = cookie.is_sent(self.choices, &self.site, self.top.as_bytes(), self.now);
        let sent = if is_sent { "sent" } else { "held" };
        format!(in step.alloc; "{name} {second} {partition} {sent}").ok()
    }

    // Which choice refuses the text, whatever is stored.
    fn beyond(&self, step: Step<'_>) -> Answer {
        let text = step.bytes()?;
        let Ok(received) = Received::of(&text) else {
            return step.said("not received");
        };
        match refused_beyond(self.choices, &text, &received) {
            Some(why) => step.refused(&why),
            None => step.done(),
        }
    }
}

impl Player for Choosers<'_> {
    fn answer(&mut self, step: Step<'_>) -> Answer {
        let top = self.top.as_bytes();
        match step.call {
            "choices" | "on" | "by" | "top" | "at" | "evict" | "fill" | "trim" => self.change(step),
            "set" => self.read(step),
            "header" => step.shown(&self.agent.header(&self.site, top, self.now).ok()?),
            "retrieve" => step.shown(&self.agent.retrieve(&self.site, top, self.now).ok()?),
            "stored" => self.stored(step),
            "beyond" => self.beyond(step),
            "count" => format!(in step.alloc; "{}", self.agent.cookies().len()).ok(),
            "partitioned" => step.yes(is_partitioned(&step.bytes()?)),
            _ => None,
        }
    }
}

fn choices_of(words: &str) -> Option<BrowserChoices> {
    match words {
        "standard" => Some(BrowserChoices::standard()),
        "chromium" => Some(BrowserChoices::chromium()),
        _ => None,
    }
}
