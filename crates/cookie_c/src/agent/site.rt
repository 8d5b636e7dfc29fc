//! C's request as an agent sees it.
ghost use Rattle.std.specs.Prelude.{◌≡◌, IfOk, MatchResult};
ghost use Rattle.cookie_agent.specs.Site.{site_of};
ghost use Rattle.cookie_c.specs.Agents.{HasTexts, IsUnseen, seen_request};

use crate::explanation::Request;
use crate::status::Status;
use cookie_agent::{RequestContext, Site};
use std::alloc::{AllocError, Global};

// The site of the request, or why there is none.
pub(super) fn seen(alloc: Global, request: &Request<'_>) -> Result<Site, Status>
    ensures { MatchResult result
        (λ site. HasTexts request.now × (site ≡ seen_request request.now))
        (IsUnseen request.now) }
{
    let (Ok(host), Ok(path)) = (str::from_utf8(request.host), str::from_utf8(request.path)) else {
        return Err(Status::NotUtf8);
    };
    match host_site(alloc, host, request.is_address, path, request.is_secure) {
        Ok(site) => Ok(site.with_context(RequestContext {
            is_same_site: request.is_same_site,
            is_top_level: request.is_top_level,
            is_safe: request.is_safe,
        })),
        Err(_) => Err(Status::OutOfMemory),
    }
}

// The site of a host, which is an address or a name.
fn host_site(
    alloc: Global,
    host: &str,
    is_address: bool,
    path: &str,
    is_secure: bool,
) -> Result<Site, AllocError>
    ensures { IfOk result (λ site. site ≡ site_of host.now is_address path.now is_secure) }
{
    if is_address {
        Site::of_address(alloc, host, path, is_secure)
    } else {
        Site::new(alloc, host, path, is_secure)
    }
}
