//! Where a request to a URL goes, for C (URL Standard).
ghost use Rattle.std.specs.Prelude.{◌≡◌, IsUtf8};
ghost use Rattle.cookie_c.specs.Urls.{GivesAddress, IsRefusedUrl, IsUrlReading, refused_url};
ghost use Rattle.cookie_c.specs.declared.status.Status.TheVariants as status;

use crate::decoded::give_pair;
use crate::span::Span;
use crate::status::Status;
use cookie_report::{Address, ReportError};
use std::alloc::Global;

/// Where a request to a URL goes.
#[repr(C)]
#[derive(Clone, Copy, Default)]
pub struct UrlReading {
    /// The number of a `Status`. If it is neither `Status::Done` nor `Status::BufferTooShort`, all else is 0.
    pub status: u32,
    /// Where the host is in the buffer.
    pub host: Span,
    /// Where the path is in the buffer, right after the host.
    pub path: Span,
    /// Whether the host is an IP address.
    pub is_address: bool,
    /// Whether the scheme is `https`, and not `http`.
    pub is_https: bool,
    /// Whether the host is this machine.
    pub is_local: bool,
}

/// Reads a URL of `https` or `http` as browsers do (URL Standard, URL Parsing). The host is for the buffer, in lower
/// case and as Punycode if it isn't ASCII, and right after it the path, escaped and without the steps `.` and `..`. If
/// the buffer is too short for both, nothing is written, and the status is `Status::BufferTooShort`; all else is as it
/// would be with room for both.
///
/// Refuses a text that isn't UTF-8, and then one that is no such URL. It may also run out of memory, also for a URL of
/// 4 GB or more.
#[unsafe(no_mangle)]
pub extern "C" fn cookie_read_url(alloc: Global, url: &[u8], out: &mut [u8]) -> UrlReading
    ensures not_utf8 { ¬ IsUtf8 url.now → IsRefusedUrl status.NotUtf8 result out.old out.new }
    ensures read { IsUtf8 url.now → IsUrlReading url.now result out.old out.new }
{
    let Ok(url) = str::from_utf8(url) else {
        return UrlReading::refusal(Status::NotUtf8);
    };
    match Address::of(alloc, url) {
        Ok(address) => UrlReading::give(&address, out),
        Err(ReportError::OutOfMemory) => UrlReading::refusal(Status::OutOfMemory),
        Err(_) => UrlReading::refusal(Status::NoUrl),
    }
}

impl UrlReading {
    fn refusal(why: Status) -> UrlReading
        ensures { result ≡ refused_url why }
    {
        UrlReading {
            status: why.code(),
            ..UrlReading::default()
        }
    }

    // The address's host and path, for the buffer.
    fn give(address: &Address, out: &mut [u8]) -> UrlReading
        ensures { GivesAddress address.now result out.old out.new }
    {
        let pair = give_pair(address.host.as_str(), address.path.as_str(), 0, out);
        UrlReading {
            status: pair.status,
            host: pair.name,
            path: pair.value,
            is_address: address.is_address,
            is_https: address.is_https,
            is_local: address.is_local,
        }
    }
}
