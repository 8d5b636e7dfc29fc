//! Where a request to a URL goes (URL Standard).
ghost use Rattle.std.specs.Prelude.{◌≡◌, ◌↔◌, ◌⊎◌, MatchResult, IsTrue};
ghost use Rattle.std.specs.Io.BufRead.{strip_last};
ghost use Rattle.url.specs.Host.{borrowed_host};
ghost use Rattle.cookie_report.specs.Addresses as spec;
ghost use Rattle.cookie_report.specs.declared.error.ReportError.TheVariants as errors;

use crate::error::ReportError;
use std::alloc::Global;
use url::{Host, ParseError, Url};

/// Where a request to a URL goes.
#[derive(Drop)]
pub struct Address {
    /// The host in lower case, as Punycode if it isn't ASCII. An IPv6 address is in brackets.
    pub host: String,
    /// The path, without a query, escaped and without the steps `.` and `..`.
    pub path: String,
    /// Whether the host is an IP address.
    pub is_address: bool,
    /// Whether the scheme is `https`, and not `http`.
    pub is_https: bool,
    /// Whether the host is this machine: `localhost`, a host below it, or a loopback address. Browsers count a
    /// connection to it as secure, over `http` too (RFC 6265bis, Retrieval Algorithm).
    pub is_local: bool,
}

impl Address {
    /// Where a request to this URL goes, as browsers read it (URL Standard, URL Parsing). Refuses what is no URL of
    /// `https` or `http`, of less than 4 GB. It may also run out of memory.
    pub fn of(alloc: Global, url: &str) -> Result<Address, ReportError>
        ensures { MatchResult result (spec.IsAddressOf url.now)
            (λ why. (why ≡ errors.NoUrl × spec.IsNoAddress url.now) ⊎ (why ≡ errors.OutOfMemory)) }
    {
        let url = match Url::parse(alloc, url) {
            Ok(url) => url,
            Err(ParseError::OutOfMemory | ParseError::Overflow) => {
                return Err(ReportError::OutOfMemory);
            }
            Err(_) => return Err(ReportError::NoUrl),
        };
        let scheme = url.scheme();
        let is_https = scheme == "https";
        if !is_https && scheme != "http" {
            return Err(ReportError::NoUrl);
        }
        let (Some(host), Some(text)) = (url.host(), url.host_str()) else {
            return Err(ReportError::NoUrl);
        };
        Ok(Address {
            host: String::from_str(alloc, text)?,
            path: String::from_str(alloc, url.path())?,
            is_address: is_ip(&host),
            is_https,
            is_local: is_local(&host),
        })
    }
}

// Whether the host is an IP address.
fn is_ip(host: &Host<&str>) -> bool
    ensures { result ≡ spec.is_ip (borrowed_host host.now) }
{
    match host {
        Host::Domain(_) => false,
        Host::Ipv4(_) | Host::Ipv6(_) => true,
    }
}

// Whether the host is this machine.
fn is_local(host: &Host<&str>) -> bool
    ensures { IsTrue result ↔ spec.IsLocal (borrowed_host host.now) }
{
    match host {
        Host::Domain(name) => is_localhost(name),
        Host::Ipv4(address) => address.is_loopback(),
        Host::Ipv6(address) => address.is_loopback(),
    }
}

// Whether the domain is `localhost` or below it.
fn is_localhost(name: &str) -> bool
    ensures { result ≡ spec.is_localhost name.now }
{
    let name = without_last_dot(name.as_bytes());
    name == b"localhost".as_slice() || name.ends_with(b".localhost")
}

// The name without one dot at its end.
fn without_last_dot(name: &[u8]) -> &[u8]
    ensures { result.now ≡ strip_last 46 name.now }
{
    let length = name.len();
    if length > 0 && name[length - 1] == b'.' {
        &name[..length - 1]
    } else {
        name
    }
}
