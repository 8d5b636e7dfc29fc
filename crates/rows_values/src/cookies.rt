//! One cookie that the steps of a row read, make, change and look at. data/cookies.tsv has the calls.
mod way;

use cookie_core::{Cookie, ParseError, SplitCookies, encode};
use rows::{Answer, Player, Row, Step, Wrong, cookie_words, printed};
use std::fmt::Display;
use std::slice::Iter;
use way::Way;

const CHANGES: &str = "new set unset set_name set_value make_permanent make_removal";

// A way to play the row, the texts of the steps that follow, and the cookie.
#[derive(Drop)]
struct Cookies<'a> {
    way: Way,
    texts: Iter<'a, String>,
    cookie: Cookie<'a>,
}

/// The first step of the row that is wrong in a way to play it, if one is.
pub fn wrong<'t>(row: &Row<'t>) -> Option<Wrong<'t>> {
    let texts = texts(row);
    for way in Way::ALL {
        let player = texts.as_ref().map(|texts| Cookies {
            way,
            texts: texts.iter(),
            cookie: Cookie::named(""),
        });
        let wrong = row.wrong(player);
        if wrong.is_some() {
            return wrong;
        }
    }
    None
}

// What the words of each step stand for.
fn texts(row: &Row<'_>) -> Option<Vec<String>> {
    let mut texts = Vec::new(*row.steps.allocator());
    for step in &row.steps {
        texts.push(step.text()?).ok()?;
    }
    Some(texts)
}

impl Player for Cookies<'_> {
    fn answer(&mut self, step: Step<'_>) -> Answer {
        let (alloc, way, text) = (step.alloc, self.way, self.texts.next()?.as_str());
        way.copy(alloc, &mut self.cookie)?;
        match step.call {
            "parse" => self.read(step, way.parse(alloc, text)),
            "parse_encoded" => self.read(step, way.parse_encoded(alloc, text)),
            "split_parse" | "split_raw" => split(way, step, way.split_parse(alloc, text)?),
            "split_parse_encoded" | "split_raw_encoded" => {
                split(way, step, way.split_parse_encoded(alloc, text)?)
            }
            call if CHANGES.split(' ').any(|change| change == call) => {
                self.change(step, text)?;
                step.done()
            }
            "raw" => self.raw(step),
            _ => seen(&self.cookie, step, text),
        }
    }
}

impl<'a> Cookies<'a> {
    // Puts what was read in the place of the row's cookie. Returns the cookie, or the refusal.
    fn read(&mut self, step: Step<'_>, read: Result<Cookie<'a>, ParseError>) -> Answer {
        match read {
            Ok(read) => self.cookie = read,
            Err(refusal) => return refused(step, refusal),
        }
        self.way.copy(step.alloc, &mut self.cookie)?;
        step.found(Some(&self.cookie))
    }

    // Sets texts that are borrowed, or owned strings, as the way has it.
    fn change(&mut self, step: Step<'_>, text: &'a str) -> Option<()> {
        let (cookie, owns) = (&mut self.cookie, self.way.owns());
        match (step.call, text.split_once('=')) {
            ("new", _) => *cookie = step.cookie()?,
            ("make_permanent", _) => cookie.make_permanent(text.parse().ok()?),
            ("make_removal", _) => cookie.make_removal(text.parse().ok()?),
            ("unset", _) => unset(cookie, text)?,
            ("set_name", _) if owns => cookie.set_name_owned(step.text()?),
            ("set_name", _) => cookie.set_name(text),
            ("set_value", _) if owns => cookie.set_value_owned(step.text()?),
            ("set_value", _) => cookie.set_value(text),
            (_, Some(("Path", path))) if !owns => cookie.set_path(path),
            (_, Some(("Domain", domain))) if !owns => cookie.set_domain(domain),
            _ => cookie_words::set(cookie, step)?,
        }
        Some(())
    }

    // The raw forms of name, value, path and domain. A cookie that owns its texts must have none.
    fn raw(&self, step: Step<'_>) -> Answer {
        let cookie = &self.cookie;
        let (name, value) = (cookie.name_raw(), cookie.value_raw());
        let parts = [name, value, cookie.path_raw(), cookie.domain_raw()];
        if self.way.owns() && parts == [None; 4] {
            return step.said(step.wanted);
        }
        let parts = parts.map(|part| part.unwrap_or("-"));
        step.escaped(parts.join(step.alloc, " | ").ok()?.as_bytes())
    }
}

fn unset(cookie: &mut Cookie<'_>, name: &str) -> Option<()> {
    match name {
        "HttpOnly" => cookie.set_http_only(None),
        "Secure" => cookie.set_secure(None),
        "Partitioned" => cookie.set_partitioned(None),
        "SameSite" => cookie.set_same_site(None),
        "Max-Age" => cookie.set_max_age(None),
        "Path" => cookie.unset_path(),
        "Domain" => cookie.unset_domain(),
        "Expires" => cookie.unset_expires(),
        _ => return None,
    }
    Some(())
}

fn refused(step: Step<'_>, refusal: ParseError) -> Answer {
    match refusal {
        ParseError::Utf8Error(fault) => {
            format!(in step.alloc; "refused Utf8Error at {}", fault.valid_up_to()).ok()
        }
        _ => step.refused(&refusal),
    }
}

// Each item, as the cookie or the refusal. Of raw forms it is each item that borrows its name and value from the
// header; a cookie that owns its texts must have none.
fn split(way: Way, step: Step<'_>, items: SplitCookies<'_>) -> Answer {
    let (is_raw, mut list) = (step.call.starts_with("split_raw"), Vec::new(step.alloc));
    for item in items {
        match item {
            Err(refusal) if !is_raw => list.push(refused(step, refusal)?).ok()?,
            Err(_) => (),
            Ok(mut cookie) => {
                way.copy(step.alloc, &mut cookie)?;
                if is_raw {
                    push_raw(step, &mut list, &cookie)?;
                } else {
                    list.push(step.found(Some(&cookie))?).ok()?;
                }
            }
        }
    }
    if is_raw && way.owns() && list.is_empty() {
        return step.said(step.wanted);
    }
    step.list(&list)
}

fn push_raw(step: Step<'_>, list: &mut Vec<String>, cookie: &Cookie<'_>) -> Option<()> {
    match (cookie.name_raw(), cookie.value_raw()) {
        (Some(name), Some(value)) => list.push(step.pair(name, value)?).ok(),
        _ => Some(()),
    }
}

// What the call returns, which leaves the cookie as it is.
fn seen(cookie: &Cookie<'_>, step: Step<'_>, text: &str) -> Answer {
    match step.call {
        "fields" => step.found(Some(cookie)),
        "trimmed" => trimmed(cookie, step),
        "print" => shown(step, cookie),
        "print_encoded" => shown(step, &cookie.encoded()),
        "print_stripped" => shown(step, &cookie.stripped()),
        "print_encoded_stripped" => shown(step, &cookie.encoded().stripped()),
        "print_stripped_encoded" => shown(step, &cookie.stripped().encoded()),
        "print_builder" => shown(step, &Cookie::build(cookie.clone(step.alloc).ok()?)),
        "debug" => step.escaped(format!(in step.alloc; "{cookie:?}").ok()?.as_bytes()),
        "debug_builder" => {
            let builder = Cookie::build(cookie.clone(step.alloc).ok()?);
            step.escaped(format!(in step.alloc; "{builder:#?}").ok()?.as_bytes())
        }
        "encode" => shown(step, &encode(text)),
        "refusal" => shown(step, &Cookie::parse_encoded(step.alloc, text).err()?),
        "equals" => compared(step, cookie, &step.cookie()?),
        "equals_parsed" => compared(step, cookie, &Cookie::parse(text).ok()?),
        _ => None,
    }
}

// The text, and those that it has under flags, if they are others.
fn shown<T: Display>(step: Step<'_>, it: &T) -> Answer {
    step.escaped(printed(step.alloc, it)?.as_bytes())
}

// Name and value without the value's quotes, if the call for the value agrees.
fn trimmed(cookie: &Cookie<'_>, step: Step<'_>) -> Answer {
    let (name, value) = cookie.name_value_trimmed();
    (cookie.value_trimmed() == value).then_some(())?;
    step.pair(name, value)
}

// By `==`, which has to be the opposite of `!=`.
fn compared(step: Step<'_>, cookie: &Cookie<'_>, other: &Cookie<'_>) -> Answer {
    let is_equal = *cookie == *other;
    (is_equal != (*cookie != *other)).then_some(())?;
    step.printed(is_equal)
}
