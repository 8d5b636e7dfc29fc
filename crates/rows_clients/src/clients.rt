//! Clients that follow jars, and calls as values. data/clients.tsv says what its calls return.
use crate::calls::{call_of, calls_of};
use cookie::{CookieJar, Key};
use cookie_client::{Client, ClientRequest, JarCall, Played, mirror, replay, rounds};
use jiff::civil::DateTime;
use rows::{Answer, Player, Step, moment};
use rows_children::test_key;
use rows_jars::Jars;
use std::alloc::Global;
use std::mem::swap;

type Lists<'k> = Vec<Vec<JarCall<'k>>>;

/// A client and a copy of it, the headers that clients sent, the time, and what calls on jars are made on.
#[derive(Drop)]
pub struct Clients {
    client: Client,
    copy: Client,
    headers: Vec<String>,
    now: DateTime,
    jars: Jars,
}

impl Clients {
    /// Clients without cookies, at the time of most rows.
    pub fn new(alloc: Global) -> Clients {
        Clients {
            client: Client::new(alloc),
            copy: Client::new(alloc),
            headers: Vec::new(alloc),
            now: moment(),
            jars: Jars::new(alloc),
        }
    }

    fn client_answer(&mut self, step: Step<'_>) -> Answer {
        let text = step.text()?;
        match step.call {
            "read" => return step.yes(self.client.read(&text, self.now).ok()?),
            "header" => return step.shown(self.client.header().ok()?.as_bytes()),
            "get" => match self.client.get(&text) {
                Some(value) => return step.pair(&text, value),
                None => return step.said("-"),
            },
            "list" => return self.listed(step),
            "hold" => {
                let (name, value) = text.split_once('=')?;
                self.client.hold(name, value).ok()?;
            }
            "copy" => self.copy = self.client.clone().ok()?,
            "swap" => swap(&mut self.client, &mut self.copy),
            _ => return None,
        }
        step.done()
    }

    // The client's names and values, in the order of its walk.
    fn listed(&self, step: Step<'_>) -> Answer {
        let mut parts = Vec::new(step.alloc);
        for (name, value) in self.client.iter() {
            parts.push(step.pair(name, value)?).ok()?;
        }
        step.list(&parts)
    }

    // Whether the call is fit, and a change.
    fn judged(&self, step: Step<'_>) -> Answer {
        let key = test_key();
        let call = call_of(&key, step.inner())?;
        step.said(match (call.is_fit(self.now), call.is_change()) {
            (true, true) => "fit change",
            (true, false) => "fit",
            (false, true) => "unfit change",
            (false, false) => "unfit",
        })
    }

    // Plays the lists in that order. Then has the last jar and its client, and the header after each request. Returns
    // the jars and the headers as a text, if each call was accepted.
    fn play_in(&mut self, step: Step<'_>, lists: &Lists<'_>, order: usize) -> Option<String> {
        let pick = [order / 6, order / 2 % 3, order % 2];
        let played = played(step, lists, &pick, self.now)?;
        (played.len() == lists.len()).then_some(())?;
        let mut text = String::new(step.alloc);
        self.headers.clear();
        for (one, calls) in played.into_iter().zip(lists) {
            accepted(&one.outcomes, calls.len())?;
            let header = step.shown(one.client.header().ok()?.as_bytes())?;
            write!(text, "{header} {:?}", one.jar).ok()?;
            self.headers.push(header).ok()?;
            self.jars.jar = one.jar;
            self.client = one.client;
        }
        Some(text)
    }

    // Plays the lists in each order in which a client may read up to four texts of a response. The same has to come of
    // each.
    fn play(&mut self, step: Step<'_>) -> Answer {
        let key = test_key();
        let lists = lists_of(&key, step)?;
        let text = self.play_in(step, &lists, 0)?;
        for order in 1..24 {
            if self.play_in(step, &lists, order)? != text {
                return format!(in step.alloc; "otherwise in order {order}").ok();
            }
        }
        step.done()
    }
}

impl Player for Clients {
    fn answer(&mut self, step: Step<'_>) -> Answer {
        match step.call {
            "client" => self.client_answer(step.inner()),
            "at" => {
                self.now = step.words.parse().ok()?;
                step.done()
            }
            "judge" => self.judged(step),
            "replay" => replay_calls(&mut self.jars.jar, step),
            "mirror" | "rounds" => self.play(step),
            "headers" => step.list(&self.headers),
            "follows" => {
                let value = self.jars.jar.get(step.words)?.value();
                step.yes(self.client.get(step.words) == Some(value))
            }
            _ => self.jars.answer(step),
        }
    }
}

// The lists of calls of words such as `add a=1 || remove a | reset`. A list `-` has no calls.
fn lists_of<'k>(key: &'k Key, step: Step<'_>) -> Option<Lists<'k>> {
    let mut lists = Vec::new(step.alloc);
    for words in step.words.split(" || ") {
        lists.push(calls_of(key, step.with_words(words))?).ok()?;
    }
    Some(lists)
}

// Something if this many calls were made, and each was accepted.
fn accepted(outcomes: &[bool], count: usize) -> Option<()> {
    (outcomes.len() == count && !outcomes.contains(&false)).then_some(())
}

// Makes the calls on the jar. Each has to be accepted.
fn replay_calls(jar: &mut CookieJar, step: Step<'_>) -> Answer {
    let key = test_key();
    let calls = calls_of(&key, step)?;
    accepted(&replay(step.alloc, jar, &calls).ok()?, calls.len())?;
    step.done()
}

// What comes of a request for each list of calls, or of the only list, if texts are read in that order.
fn played(step: Step<'_>, lists: &Lists<'_>, pick: &[usize], now: DateTime) -> Option<Vec<Played>> {
    let mut requests = Vec::new(step.alloc);
    for calls in lists {
        requests.push(ClientRequest { calls }).ok()?;
    }
    if step.call == "rounds" {
        return rounds(step.alloc, &requests, pick, now).ok();
    }
    let played = mirror(step.alloc, lists.first()?, pick, now).ok()?;
    Vec::from_array(step.alloc, [played]).ok()
}
