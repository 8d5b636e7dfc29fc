//! A user agent: what it stores and sends, and its requests. data/agent.tsv says what its calls return.
use cookie::{CookieJar, Key};
use cookie_agent::{Agent, Limits, Obstacle, SavedForm, Scope, Site, Store, StoredCookie, Verdict};
use cookie_browser::Suffixes;
use cookie_client::JarCall;
use cookie_theorems::visits::{visit, visits};
use cookie_theorems::{AgentRequest, Plan, Visited};
use jiff::civil::DateTime;
use rows::{Answer, Player, Step, after, moment};
use rows_browsers::{context_of, limits, outcome, site_of};
use rows_children::test_key;
use rows_clients::calls_of;
use std::alloc::Global;
use std::mem::{replace, swap};

/// A user agent, a copy of it, the site of its requests, the jar of the last one, and the time.
#[derive(Drop)]
pub struct Agents<'r> {
    suffixes: &'r Suffixes,
    agent: Agent<'r>,
    copy: Agent<'r>,
    site: Site,
    jar: CookieJar,
    now: DateTime,
}

impl<'r> Agents<'r> {
    /// Agents without cookies, which know these public suffixes.
    pub fn new(alloc: Global, suffixes: &'r Suffixes) -> Option<Agents<'r>> {
        Some(Agents {
            suffixes,
            agent: Agent::new(alloc, suffixes),
            copy: Agent::new(alloc, suffixes),
            site: site_of(alloc, "http://example.com/")?,
            jar: CookieJar::new(alloc),
            now: moment(),
        })
    }

    fn change(&mut self, step: Step<'_>) -> Answer {
        match step.call {
            "on" => self.site = site_of(step.alloc, step.words)?,
            "by" => {
                let site = replace(&mut self.site, site_of(step.alloc, "http://example.com/")?);
                self.site = site.with_context(context_of(step.words)?);
            }
            "at" => self.now = after(step.words)?,
            "copy" => self.copy = self.agent.clone().ok()?,
            "swap" => swap(&mut self.agent, &mut self.copy),
            "evict" => self.agent.evict(self.now),
            "clear" => self.agent.clear_domain(step.words.as_bytes()),
            "clear_all" | "load" => self.change_store(step)?,
            _ => self.agent.trim(limits(step.words)?, self.now).ok()?,
        }
        step.done()
    }

    // Loads a cookies.txt into the agent's store, or removes all cookies.
    fn change_store(&mut self, step: Step<'_>) -> Option<()> {
        let (alloc, suffixes) = (step.alloc, self.suffixes);
        let agent = replace(&mut self.agent, Agent::new(alloc, suffixes));
        let mut store = agent.into_store();
        match step.call {
            "load" => {
                let bytes = step.bytes()?;
                let loaded = SavedForm::CookiesTxt
                    .read(alloc, suffixes, &bytes, self.now)
                    .ok()?;
                store.load(loaded.cookies, self.now).ok()?;
            }
            _ => store.clear(),
        }
        self.agent = Agent::with_store(suffixes, store);
        Some(())
    }

    // The lines of the cookies.txt that is written of the agent's cookies, which are its store's.
    fn saved(&self, step: Step<'_>) -> Answer {
        let (form, store) = (SavedForm::CookiesTxt, self.agent.store());
        let saved = form.write(step.alloc, self.agent.cookies(), self.now).ok()?;
        let other = form.write(step.alloc, store.cookies(), self.now).ok()?;
        (saved.text == other.text).then_some(())?;
        step.shown(saved.text.get(28..)?)
    }

    // What is written of the cookies that a text holds: a cookies.txt, or JSON lines.
    fn loaded(&self, step: Step<'_>) -> Answer {
        let (form, head) = match step.call {
            "loaded" => (SavedForm::CookiesTxt, 28),
            _ => (SavedForm::JsonLines, 0),
        };
        let bytes = step.bytes()?;
        let loaded = form.read(step.alloc, self.suffixes, &bytes, self.now).ok()?;
        let store = Store::of(step.alloc, loaded.cookies).ok()?;
        let saved = form.write(step.alloc, store.cookies(), self.now).ok()?;
        step.shown(saved.text.get(head..)?)
    }

    // Makes four requests of a new agent, each of words such as `0 http://example.com/ | add a=1`. Returns the headers.
    fn visits(&self, step: Step<'_>) -> Answer {
        let key = test_key();
        self.visits_under(step, &key)
    }

    fn visits_under<'k>(&self, step: Step<'k>, key: &'k Key) -> Answer {
        let alloc = step.alloc;
        let parts = parts_of(step, key)?;
        match parts.as_slice() {
            [one, two, three, four] => {
                let requests = [
                    AgentRequest {
                        site: &one.site,
                        calls: one.calls.as_slice(),
                        moment: one.moment,
                    },
                    AgentRequest {
                        site: &two.site,
                        calls: two.calls.as_slice(),
                        moment: two.moment,
                    },
                    AgentRequest {
                        site: &three.site,
                        calls: three.calls.as_slice(),
                        moment: three.moment,
                    },
                    AgentRequest {
                        site: &four.site,
                        calls: four.calls.as_slice(),
                        moment: four.moment,
                    },
                ];
                headers_of(step, &visits(alloc, self.suffixes, &requests, &[]).ok()?)
            }
            _ => None,
        }
    }

    // Makes a request with these calls, each of which has to be accepted.
    fn request(&mut self, step: Step<'_>) -> Answer {
        let key = test_key();
        let calls = calls_of(&key, step)?;
        let request = AgentRequest {
            site: &self.site,
            calls: &calls,
            moment: self.now,
        };
        let one = visit(step.alloc, &self.agent, &request, &[]).ok()?;
        (!one.outcomes.contains(&false)).then_some(())?;
        self.agent = one.agent;
        self.jar = one.jar;
        step.shown(&one.header)
    }

    // Whether the call of words such as `secure add a=1; Path=/` fits the plan.
    fn plan(&self, step: Step<'_>) -> Answer {
        let (alloc, plan) = (step.alloc, step.inner());
        let call = plan.inner();
        let (mut cookie, is_removal) = (call.cookie()?, call.call == "remove");
        if is_removal {
            cookie.make_removal(self.now);
        }
        let plan = Plan::new(self.site.host_scope(alloc).ok()?, plan.call == "secure");
        let fits = match is_removal {
            true => plan.fits_removal(alloc, self.suffixes, &self.site, &cookie, self.now),
            false => plan.fits_addition(alloc, self.suffixes, &self.site, &cookie, self.now),
        };
        step.yes(fits.ok()?)
    }

    // Why the request doesn't send the cookie at this index: the obstacles' names, or `-`.
    fn obstacles(&self, step: Step<'_>) -> Answer {
        let index: usize = step.words.parse().ok()?;
        let Some(cookie) = self.agent.store().cookie_at(index) else {
            return step.said("no cookie");
        };
        let mut names = String::new(step.alloc);
        for obstacle in &Obstacle::ALL {
            if obstacle.keeps(cookie, &self.site, self.now) {
                let space = if names.is_empty() { "" } else { " " };
                names.push_str(space).ok()?;
                names.push_str(name_of(*obstacle)).ok()?;
            }
        }
        step.shown(names.as_bytes())
    }

    // Questions on connections, on scopes of cookies, and on the sites that they reach.
    fn ask(&self, step: Step<'_>) -> Answer {
        match step.call {
            "secure" => step.yes(self.site.is_secure()),
            "host" => place(step, &self.site.host_scope(step.alloc).ok()?),
            "scope" => place_of(step, self.verdict(&self.site, step)?),
            "folder" => {
                let site = Site::new(step.alloc, "a.com", step.words, false).ok()?;
                place_of(step, self.verdict(&site, step.with_words("n=1"))?)
            }
            "reached" => {
                let usual = site_of(step.alloc, "http://www.example.com/a/b")?;
                self.is_sent(step, self.verdict(&usual, step)?)
            }
            _ => is_reached(step),
        }
    }

    fn verdict(&self, site: &Site, step: Step<'_>) -> Option<Verdict> {
        self.agent.verdict(site, &step.bytes()?, self.now).ok()
    }

    // Whether the stored cookie is sent, if its scope says the same.
    fn is_sent(&self, step: Step<'_>, verdict: Verdict) -> Answer {
        let Verdict::Stored(cookie) = verdict else {
            return None;
        };
        let is_sent = cookie.is_sent(&self.site, self.now);
        let is_reached = self.site.is_reached(&scope_of(step, &cookie)?);
        step.yes((is_sent == is_reached).then_some(is_sent)?)
    }
}

impl Player for Agents<'_> {
    fn answer(&mut self, step: Step<'_>) -> Answer {
        match step.call {
            "on" | "by" | "at" | "copy" | "swap" | "evict" | "clear" | "trim" => self.change(step),
            "clear_all" | "load" => self.change(step),
            "saved" => self.saved(step),
            "visits" => self.visits(step),
            "usual" => {
                let Limits {
                    per_domain,
                    per_site,
                    total,
                } = Limits::usual();
                format!(in step.alloc; "{per_domain} {per_site} {total}").ok()
            }
            "set" => {
                let refusal = self.agent.read(&self.site, &step.bytes()?, self.now);
                outcome(step, refusal.ok()?)
            }
            "remove" => {
                let scope = self.site.host_scope(step.alloc).ok()?;
                step.yes(self.agent.remove(step.words.as_bytes(), &scope))
            }
            "header" => step.shown(&self.agent.header(&self.site, self.now).ok()?),
            "retrieve" => step.shown(&self.agent.retrieve(&self.site, self.now).ok()?),
            "request" => self.request(step),
            "obstacles" => self.obstacles(step),
            "get" => step.found(self.jar.get(step.words)),
            "plan" => self.plan(step),
            "loaded" | "loaded_json" => self.loaded(step),
            _ => self.ask(step),
        }
    }
}

fn name_of(obstacle: Obstacle) -> &'static str {
    match obstacle {
        Obstacle::Expired => "Expired",
        Obstacle::Host => "Host",
        Obstacle::Path => "Path",
        Obstacle::Connection => "Connection",
        Obstacle::SameSite => "SameSite",
    }
}

// `host www.example.com /a`, or `domain example.com /a`.
fn place(step: Step<'_>, scope: &Scope) -> Answer {
    let is_host_only = scope.is_host_only();
    let kind = if is_host_only { "host" } else { "domain" };
    let domain = str::from_utf8(scope.domain()).ok()?;
    let path = str::from_utf8(scope.path()).ok()?;
    format!(in step.alloc; "{kind} {domain} {path}").ok()
}

fn scope_of(step: Step<'_>, cookie: &StoredCookie) -> Option<Scope> {
    let kept = cookie.as_kept();
    Scope::new(step.alloc, kept.domain, kept.is_host_only, kept.path).ok()
}

fn place_of(step: Step<'_>, verdict: Verdict) -> Answer {
    match verdict {
        Verdict::Stored(cookie) => place(step, &scope_of(step, &cookie)?),
        Verdict::Refused(refusal) => step.refused(&refusal),
    }
}

// A request of a row: its site, the calls on its jar, and its time.
#[derive(Drop)]
struct Asked<'k> {
    site: Site,
    calls: Vec<JarCall<'k>>,
    moment: DateTime,
}

// The requests of the words, each as `0 http://example.com/ | add a=1`.
fn parts_of<'k>(step: Step<'k>, key: &'k Key) -> Option<Vec<Asked<'k>>> {
    let mut parts = Vec::new(step.alloc);
    for words in step.words.split(" || ") {
        let part = part_of(step.with_words(words), key)?;
        parts.push(part).ok()?;
    }
    Some(parts)
}

fn part_of<'k>(step: Step<'k>, key: &'k Key) -> Option<Asked<'k>> {
    let (front, calls) = step.halves();
    let (seconds, url) = front.words.split_once(' ')?;
    let site = site_of(step.alloc, url)?;
    let calls = calls_of(key, calls)?;
    let moment = after(seconds)?;
    Some(Asked {
        site,
        calls,
        moment,
    })
}

// The headers of requests whose calls are all accepted.
fn headers_of(step: Step<'_>, visited: &[Visited<'_>]) -> Answer {
    let mut headers = Vec::new(step.alloc);
    for one in visited {
        (!one.outcomes.contains(&false)).then_some(())?;
        headers.push(step.shown(&one.header)?).ok()?;
    }
    step.list(&headers)
}

// Whether a cookie of a domain, and the hosts below it, or of a path is sent to a host or to a path.
fn is_reached(step: Step<'_>) -> Answer {
    let (alloc, (asked, set)) = (step.alloc, step.halves());
    let (asked, set) = (asked.words, set.words);
    let (site, domain, path) = match step.call {
        "domain" => (Site::new(alloc, asked, "/", false), set, "/"),
        "address" => (Site::of_address(alloc, asked, "/", false), set, "/"),
        "path" => (Site::new(alloc, "a.com", asked, false), "a.com", set),
        _ => return None,
    };
    let domain = domain.to_ascii_lowercase(alloc).ok()?;
    let scope = Scope::new(alloc, domain.as_bytes(), false, path.as_bytes()).ok()?;
    step.yes(site.ok()?.is_reached(&scope))
}
