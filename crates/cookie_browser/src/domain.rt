//! Domains as ASCII (UTS 46).
ghost use Rattle.std.specs.Prelude.{◌≡◌, option_map, IfOk};
ghost use Rattle.std.specs.String.{string_bytes};
ghost use Rattle.idna.specs.Uts46.{domain_to_ascii};
ghost use Rattle.cookie_browser.specs.Beyond as spec;

use crate::browser_choices::BrowserChoices;
use crate::bytes::is_ascii;
use idna::{AsciiDenyList, Errors, domain_to_ascii_cow};
use std::alloc::{AllocError, Global};

/// The value of a `Domain` attribute as ASCII, if the choices have it read as an internationalized name. `None` if the
/// domain stays as it is: it is ASCII already, or isn't such a name (UTS 46, ToASCII). Fails only if out of memory.
///
/// `公司.cn` is `xn--55qx5d.cn`, and `www.ｅxample.com` is `www.example.com`.
pub fn ascii_domain(
    alloc: Global,
    choices: BrowserChoices,
    domain: &[u8],
) -> Result<Option<String>, AllocError>
    ensures { IfOk result (λ text.
        option_map string_bytes text ≡ spec.ascii_domain choices domain.now) }
{
    if !choices.reads_internationalized_domains || is_ascii(domain) {
        return Ok(None);
    }
    match to_ascii(alloc, domain, AsciiDenyList::URL)? {
        Some(text) if !text.is_empty() => Ok(Some(text)),
        _ => Ok(None),
    }
}

// The domain in lower case and in Punycode, if its labels are valid.
pub(crate) fn to_ascii(
    alloc: Global,
    domain: &[u8],
    denied: AsciiDenyList,
) -> Result<Option<String>, AllocError>
    ensures { IfOk result (λ text.
        option_map string_bytes text ≡ domain_to_ascii denied domain.now) }
{
    match domain_to_ascii_cow(alloc, domain, denied) {
        Ok(text) => Ok(Some(text.into_owned(alloc)?)),
        Err(Errors::Invalid) => Ok(None),
        Err(Errors::OutOfMemory) => Err(AllocError),
    }
}
