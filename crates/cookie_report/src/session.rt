//! What a browser makes of the lines of a paste, one after the other.
use crate::error::ReportError;
use crate::paste::{Kind, Line};
use crate::target::site_of_line;
use crate::time::moment;
use crate::verdict::{push_cookie, push_verdict};
use cookie_agent::{Agent, Obstacle, RequestContext, Site, StoredCookie};
use cookie_browser::Suffixes;
use jiff::civil::DateTime;
use std::alloc::{AllocError, Global};

/// A browser, where the next lines come from, and when.
#[derive(Drop)]
pub struct Session<'r> {
    alloc: Global,
    agent: Agent<'r>,
    site: Site,
    now: DateTime,
}

impl<'r> Session<'r> {
    /// A browser without cookies, which has these rules of public suffixes.
    pub fn new(alloc: Global, suffixes: &'r Suffixes, site: Site, now: DateTime) -> Session<'r> {
        Session {
            alloc,
            agent: Agent::new(alloc, suffixes),
            site,
            now,
        }
    }

    /// Does what the line says, and returns what is said of it.
    pub fn answer(&mut self, line: &Line<'_>) -> Result<Vec<u8>, ReportError> {
        match line.kind {
            Kind::Blank => Ok(Vec::new(self.alloc)),
            Kind::Field | Kind::Text => Ok(self.read(line.text)?),
            Kind::Url => {
                self.site = site_of_line(self.alloc, line.text)?;
                Ok(echo(self.alloc, b"URL ", line.text)?)
            }
            Kind::Get => {
                let site = site_of_line(self.alloc, line.text)?;
                let mut answer = echo(self.alloc, b"GET ", line.text)?;
                answer.extend_from_slice(&header_line(self.alloc, &self.agent, &site, self.now)?)?;
                self.push_unsent(&mut answer, &site)?;
                Ok(answer)
            }
            Kind::Now => {
                self.now = moment(line.text)?;
                Ok(echo(self.alloc, b"NOW ", line.text)?)
            }
        }
    }

    /// The `Cookie` header of the next request to the last address, which its own site makes.
    pub fn next_header(self) -> Result<Vec<u8>, AllocError> {
        let site = self.site.with_context(RequestContext::same_site());
        header_line(self.alloc, &self.agent, &site, self.now)
    }

    // Has the browser read the text of a cookie.
    fn read(&mut self, text: &[u8]) -> Result<Vec<u8>, AllocError> {
        let mut answer = Vec::new(self.alloc);
        let verdict = self.agent.verdict(&self.site, text, self.now)?;
        push_verdict(
            self.alloc,
            &mut answer,
            self.agent.store(),
            text,
            &verdict,
            self.now,
        )?;
        answer.push(b'\n')?;
        self.agent.read(&self.site, text, self.now)?;
        Ok(answer)
    }

    // Each cookie that the site doesn't get, and why.
    fn push_unsent(&self, answer: &mut Vec<u8>, site: &Site) -> Result<(), AllocError> {
        for cookie in self.agent.cookies() {
            if !cookie.is_sent(site, self.now) {
                answer.extend_from_slice(b"not sent: ")?;
                push_cookie(answer, &cookie.as_kept())?;
                push_obstacles(answer, cookie, site, self.now)?;
                answer.push(b'\n')?;
            }
        }
        Ok(())
    }
}

// The `Cookie` header that the site gets.
fn header_line(
    alloc: Global,
    agent: &Agent<'_>,
    site: &Site,
    now: DateTime,
) -> Result<Vec<u8>, AllocError> {
    let header = agent.header(site, now)?;
    let mut line = Vec::new(alloc);
    if header.is_empty() {
        line.extend_from_slice(b"no Cookie header\n")?;
        return Ok(line);
    }
    line.extend_from_slice(b"Cookie: ")?;
    line.extend_from_slice(&header)?;
    line.push(b'\n')?;
    Ok(line)
}

// The word and the line's text, as a line.
fn echo(alloc: Global, word: &[u8], text: &[u8]) -> Result<Vec<u8>, AllocError> {
    let mut line = Vec::new(alloc);
    line.extend_from_slice(word)?;
    line.extend_from_slice(text)?;
    line.push(b'\n')?;
    Ok(line)
}

// Why the cookie isn't sent to the site.
fn push_obstacles(
    answer: &mut Vec<u8>,
    cookie: &StoredCookie,
    site: &Site,
    now: DateTime,
) -> Result<(), AllocError> {
    let mut mark = b": ".as_slice();
    for obstacle in &Obstacle::ALL {
        if obstacle.keeps(cookie, site, now) {
            answer.extend_from_slice(mark)?;
            answer.extend_from_slice(obstacle.as_str().as_bytes())?;
            mark = b"; ".as_slice();
        }
    }
    Ok(())
}
