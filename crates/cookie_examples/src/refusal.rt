//! Why a browser refuses a cookie.
ghost use Rattle.std.specs.Prelude.{◌≡◌, map, IfOk};
ghost use Rattle.cookie_browser.specs.ReceivedCode.{received_view};
ghost use Rattle.cookie_browser.specs.RefusedCode.{kept_view, request_view};
ghost use Rattle.cookie_browser.specs.Storage.{first_refusal};

use anyhow::Result;
use cookie_agent::Site;
use cookie_browser::{BrowserRequest, KeptCookie, Received, Refusal, Suffixes, refused_by};
use std::alloc::{AllocError, Global};

/// The step that refuses a received cookie, if one does. `store` has the browser's cookies, and `new` is the cookie as
/// the browser would store it.
pub fn refusal_of(
    alloc: Global,
    suffixes: &Suffixes,
    request: &BrowserRequest<'_>,
    store: &[KeptCookie<'_>],
    received: &Received<'_>,
    new: &KeptCookie<'_>,
) -> Result<Option<Refusal>, AllocError>
    ensures { IfOk result (λ refusal. refusal
        ≡ first_refusal suffixes.now (request_view request.now) (map kept_view store.now)
        (received_view received.now) (kept_view new.now)) }
{
    let domain = received.attributes.bare_domain().to_ascii_lowercase(alloc)?;
    Ok(refused_by(suffixes, request, store, received, domain.as_slice(), new))
}

pub fn print(rt: &HostRuntime) -> Result<()> {
    let site = Site::new(rt.alloc(), "www.example.com", "/shop/cart", true)?;
    let suffixes = Suffixes::new(rt.alloc(), b"com\n")?;
    print_refusal(rt, &suffixes, &site, b"cart=3; Domain=com")
}

fn print_refusal(rt: &HostRuntime, suffixes: &Suffixes, site: &Site, text: &[u8]) -> Result<()> {
    let (alloc, request) = (rt.alloc(), site.request());
    let Ok(received) = Received::of(text) else {
        return Ok(());
    };
    let domain = received.attributes.bare_domain().to_ascii_lowercase(alloc)?;
    let new = KeptCookie::of(suffixes, &request, &received, domain.as_slice());
    if let Some(refusal) = refusal_of(alloc, suffixes, &request, &[], &received, &new)? {
        println!(rt; "refused: {refusal}")?;
    }
    Ok(())
}
