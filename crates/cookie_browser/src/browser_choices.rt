//! What browsers do beyond the standard, as the caller chooses.
ghost use Rattle.std.specs.Prelude.{◌≡◌, true, false};

/// What browsers do beyond RFC 6265bis, each as a choice of the caller. Each field says what Chromium 156 does if it is
/// true, and which section of RFC 6265bis it departs from.
#[derive(Clone, Copy)]
pub struct BrowserChoices {
    /// A tab inside the name, the value or an attribute refuses the text. In the standard a tab passes (The Set-Cookie
    /// Header Field).
    pub refuses_tabs: bool,
    /// A cookie without a name whose value has `=` is refused, as `=a=b`. The standard stores it (The Set-Cookie Header
    /// Field).
    pub refuses_nameless_pairs: bool,
    /// `Domain=.` is refused. In the standard that is no domain (The Domain Attribute).
    pub refuses_dot_domains: bool,
    /// A `Domain` that isn't ASCII is read as an internationalized name, as `公司.cn` (UTS 46; RFC 5891). The standard
    /// refuses it (Storage Model).
    pub reads_internationalized_domains: bool,
    /// A name that begins with `__Host-` requires the text `Path=/`, and no `Domain` or an empty one. The standard
    /// requires a path that comes to `/`, and a host-only cookie (Cookie Name Prefixes).
    pub asks_written_host_prefix: bool,
    /// A cookie that replaces one of another value counts as created now, so it comes last among the cookies of its
    /// path. In the standard it keeps the time of creation (Storage Model).
    pub renews_changed: bool,
    /// A cookie without `SameSite` is sent for two minutes after its creation with unsafe top-level requests of other
    /// sites. The standard leaves this to the user agent ("Lax-Allowing-Unsafe" enforcement).
    pub sends_unsafe_for_two_minutes: bool,
    /// A cookie with `Partitioned` is kept by the top-level site, and needs `Secure`. The standard doesn't know the
    /// attribute (Storage Model).
    pub partitions: bool,
}

impl BrowserChoices {
    /// None of them: the standard.
    pub fn standard() -> BrowserChoices
        ensures { result ≡ record {
          refuses_tabs = false;
          refuses_nameless_pairs = false;
          refuses_dot_domains = false;
          reads_internationalized_domains = false;
          asks_written_host_prefix = false;
          renews_changed = false;
          sends_unsafe_for_two_minutes = false;
          partitions = false;
        } }
    {
        BrowserChoices {
            refuses_tabs: false,
            refuses_nameless_pairs: false,
            refuses_dot_domains: false,
            reads_internationalized_domains: false,
            asks_written_host_prefix: false,
            renews_changed: false,
            sends_unsafe_for_two_minutes: false,
            partitions: false,
        }
    }

    /// All of them, as Chromium 156 has them.
    pub fn chromium() -> BrowserChoices
        ensures { result ≡ record {
          refuses_tabs = true;
          refuses_nameless_pairs = true;
          refuses_dot_domains = true;
          reads_internationalized_domains = true;
          asks_written_host_prefix = true;
          renews_changed = true;
          sends_unsafe_for_two_minutes = true;
          partitions = true;
        } }
    {
        BrowserChoices {
            refuses_tabs: true,
            refuses_nameless_pairs: true,
            refuses_dot_domains: true,
            reads_internationalized_domains: true,
            asks_written_host_prefix: true,
            renews_changed: true,
            sends_unsafe_for_two_minutes: true,
            partitions: true,
        }
    }
}
