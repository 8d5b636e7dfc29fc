//! A browser's view of a response.
ghost use Rattle.std.specs.Prelude.{[], IfOk, map};
ghost use Rattle.cookie_browser.specs.Storage.{kept_after_text};
ghost use Rattle.cookie_agent.specs.Sent.{IsOrderedHeader};

use anyhow::Result;
use cookie_agent::{Agent, Site};
use cookie_browser::Suffixes;
use jiff::civil::DateTime;
use std::alloc::{AllocError, Global};

/// The `Cookie` header that a user agent without other cookies sends a site right after the site's response with this
/// `Set-Cookie` text (RFC 6265bis). `now` is in UTC.
pub fn next_header<'r>(
    alloc: Global,
    suffixes: &'r Suffixes,
    site: &Site,
    text: &str,
    now: DateTime,
) -> Result<Vec<u8>, AllocError>
    ensures { IfOk result (λ header. IsOrderedHeader site.now now
        (kept_after_text suffixes.now site.now now text.now []) header.items) }
{
    let mut agent = Agent::new(alloc, suffixes);
    agent.read(site, text.as_bytes(), now)?;
    agent.header(site, now)
}

pub fn print(rt: &HostRuntime, now: DateTime) -> Result<()> {
    let site = Site::new(rt.alloc(), "www.example.com", "/shop/cart", true)?;
    let text = "cart=3; Domain=example.com; Path=/shop; Secure";
    let suffixes = Suffixes::new(rt.alloc(), b"com\n")?;
    let header = next_header(rt.alloc(), &suffixes, &site, text, now)?;
    println!(rt; "browser: {}", str::from_utf8(&header)?)?;
    Ok(())
}
