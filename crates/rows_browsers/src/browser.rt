//! What a browser reads of a `Set-Cookie` text, which step refuses it (data/browser.tsv), and which domains are public
//! suffixes, and in which site a domain is (data/suffixes.tsv).
use crate::browsing::{context_of, outcome, site_of};
use cookie_agent::Site;
use cookie_browser::{Enforcement, KeptCookie, Received, Refusal, Suffixes, refused_by};
use rows::cookie_words::{push, push_flag};
use rows::{Answer, Escaped, Player, Step};
use std::alloc::Global;

/// A browser with these public suffixes.
#[derive(Clone, Copy)]
pub struct Browser<'s>(pub &'s Suffixes);

impl Player for Browser<'_> {
    fn answer(&mut self, step: Step<'_>) -> Answer {
        match step.call {
            "read" => match Received::of(&step.bytes()?) {
                Ok(received) => words(step, &received),
                Err(refusal) => step.refused(&refusal),
            },
            "explain" => match self.refusal(step.inner())? {
                Some(refusal) => format!(in step.alloc; "{refusal} | {}", refusal.section()).ok(),
                None => step.said("-"),
            },
            _ => outcome(step, self.refusal(step)?),
        }
    }
}

impl Browser<'_> {
    // The refusal of `get URL | TEXT`, or of `get URL | FIRST | TEXT`. Without a first text an empty cookie is stored,
    // which no step looks at.
    fn refusal(&self, step: Step<'_>) -> Option<Option<Refusal>> {
        let (url, texts) = step.halves();
        let (first, text) = texts.words.split_once(" | ").unwrap_or(("", texts.words));
        let first = step.with_words(first).bytes()?;
        let text = step.with_words(text).bytes()?;
        let site = site_of(step.alloc, url.words)?.with_context(context_of(step.call)?);
        let Ok(received) = Received::of(&first) else {
            return None;
        };
        let domain = received.attributes.bare_domain();
        let domain = domain.to_ascii_lowercase(step.alloc).ok()?;
        let stored = KeptCookie::of(self.0, &site.request(), &received, domain.as_slice());
        match Received::of(&text) {
            Ok(received) => refusal_after(step.alloc, self.0, &site, stored, &received),
            Err(refusal) => Some(Some(refusal)),
        }
    }
}

// The refusal in a browser that stored this cookie.
fn refusal_after(
    alloc: Global,
    suffixes: &Suffixes,
    site: &Site,
    stored: KeptCookie<'_>,
    received: &Received<'_>,
) -> Option<Option<Refusal>> {
    let domain = received.attributes.bare_domain().to_ascii_lowercase(alloc);
    let (domain, request) = (domain.ok()?, site.request());
    let domain = domain.as_slice();
    let new = KeptCookie::of(suffixes, &request, received, domain);
    Some(refused_by(suffixes, &request, &[stored], received, domain, &new))
}

// The name and the value as `a=1`, and then each attribute that counts, after `; `.
fn words(step: Step<'_>, received: &Received<'_>) -> Answer {
    let (name, value, of) = (received.name, received.value, &received.attributes);
    let mut words = format!(in step.alloc; "{}={}", Escaped(name), Escaped(value)).ok()?;
    let domain = (!of.domain.is_empty()).then_some(Escaped(of.domain));
    push(&mut words, "Domain", domain)?;
    push(&mut words, "Path", of.has_path.then_some(Escaped(of.path)))?;
    push(&mut words, "Max-Age", of.max_age)?;
    push(&mut words, "Expires", of.expires)?;
    push_flag(&mut words, "Secure", of.secure.then_some(true))?;
    push_flag(&mut words, "HttpOnly", of.http_only.then_some(true))?;
    let same_site = match of.same_site {
        Enforcement::Default => None,
        Enforcement::None => Some("None"),
        Enforcement::Lax => Some("Lax"),
        Enforcement::Strict => Some("Strict"),
    };
    push(&mut words, "SameSite", same_site)?;
    Some(words)
}

/// A list that the steps of a row read and ask.
#[derive(Drop)]
pub struct SuffixList(pub Suffixes);

impl Player for SuffixList {
    fn answer(&mut self, step: Step<'_>) -> Answer {
        let text = step.bytes()?;
        match step.call {
            "list" => self.0 = Suffixes::new(step.alloc, &text).ok()?,
            "public" => return step.yes(self.0.is_public(&text)),
            "site" => return step.shown(self.0.site(&text)),
            _ => return None,
        }
        step.done()
    }
}
