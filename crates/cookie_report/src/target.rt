//! The site of a request, and how the request came about.
ghost use Rattle.std.specs.Prelude.{IfOk};
ghost use Rattle.cookie_report.specs.Addresses.{IsAddress};

use crate::address::Address;
use crate::error::ReportError;
use cookie_agent::{RequestContext, Site};
use cookie_core::trim_wsp;
use std::alloc::Global;

/// The site of the address, for a request that a page of the site made.
pub fn site(alloc: Global, address: &str) -> Result<Site, ReportError>
    ensures { IfOk result (λ _. IsAddress address.now) }
{
    let address = Address::of(alloc, address)?;
    let is_secure = address.is_https || address.is_local;
    let (host, path) = (address.host.as_str(), address.path.as_str());
    Ok(if address.is_address {
        Site::of_address(alloc, host, path, is_secure)?
    } else {
        Site::new(alloc, host, path, is_secure)?
    })
}

/// The site of a line's address, for a request that came about as the word after it says.
pub fn site_of_line(alloc: Global, text: &[u8]) -> Result<Site, ReportError> {
    let (address, word) = match text.iter().position(|byte| matches!(byte, b' ' | b'\t')) {
        Some(at) => (&text[..at], trim_wsp(&text[at..])),
        None => (text, b"".as_slice()),
    };
    let Ok(address) = str::from_utf8(address) else {
        return Err(ReportError::NoUrl);
    };
    let Some(context) = context_of(word) else {
        return Err(ReportError::NoContext);
    };
    Ok(site(alloc, address)?.with_context(context))
}

// How the request came about.
fn context_of(word: &[u8]) -> Option<RequestContext> {
    match word {
        b"" => Some(RequestContext::same_site()),
        b"cross-site" => Some(from_frame()),
        b"cross-site-link" => Some(from_link()),
        _ => None,
    }
}

/// Another site's page made the request, as a frame, an image or a script does.
pub fn from_frame() -> RequestContext {
    RequestContext {
        is_same_site: false,
        is_top_level: false,
        is_safe: true,
    }
}

// Someone followed a link of another site's page.
fn from_link() -> RequestContext {
    RequestContext {
        is_same_site: false,
        is_top_level: true,
        is_safe: true,
    }
}
