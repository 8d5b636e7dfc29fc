//! What the rows on browsers and on user agents share.
use cookie_agent::{Limits, RequestContext, Site};
use cookie_browser::Refusal;
use rows::{Answer, Step};
use std::alloc::Global;

/// How a request came about: `get` is same-site, `link` a top-level navigation from another site, `post` one with an
/// unsafe method, and `frame` a request of a frame in another site's page.
pub fn context_of(how: &str) -> Option<RequestContext> {
    let (is_same_site, is_top_level, is_safe) = match how {
        "get" => (true, true, true),
        "link" => (false, true, true),
        "post" => (false, true, false),
        "frame" => (false, false, true),
        _ => return None,
    };
    Some(RequestContext {
        is_same_site,
        is_top_level,
        is_safe,
    })
}

/// The site of a same-site request to a URL such as `http://example.com/a/b`. A host of digits and dots, or in
/// brackets, is an IP address.
pub fn site_of(alloc: Global, url: &str) -> Option<Site> {
    let (scheme, rest) = url.split_once("://")?;
    let (host, path) = rest.split_at_checked(rest.find('/')?)?;
    let mut bytes = host.bytes();
    if host.starts_with('[') || bytes.all(|byte| byte.is_ascii_digit() || byte == b'.') {
        return Site::of_address(alloc, host, path, scheme == "https").ok();
    }
    Site::new(alloc, host, path, scheme == "https").ok()
}

/// The limits of a domain's cookies, of a site's and of all, as `50 150 3000`. As `50 3000` no site has one.
pub fn limits(words: &str) -> Option<Limits> {
    let (per_domain, rest) = words.split_once(' ')?;
    let (per_site, total) = rest.split_once(' ').unwrap_or((rest, rest));
    Some(Limits {
        per_domain: per_domain.parse().ok()?,
        per_site: per_site.parse().ok()?,
        total: total.parse().ok()?,
    })
}

/// `refused STEP`, or `done` if no step refuses.
pub fn outcome(step: Step<'_>, refusal: Option<Refusal>) -> Answer {
    match refusal {
        Some(refusal) => step.refused(&refusal),
        None => step.done(),
    }
}
