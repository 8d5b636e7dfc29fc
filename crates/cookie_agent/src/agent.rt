//! A user agent (RFC 6265bis, Storage Model, Retrieval Algorithm).
ghost use Rattle.std.specs.Prelude.{◌≡◌, not, [], filter, IfOk, OnOk, OnErr, Ok, map};
ghost use Rattle.std.specs.List.{list_any};
ghost use Rattle.cookie_browser.specs.ReceivedCode.{received_view};
ghost use Rattle.cookie_browser.specs.RefusedCode.{kept_view, request_view};
ghost use Rattle.cookie_browser.specs.Storage.{lasting, overlays, verdict_on};
ghost use Rattle.cookie_agent.specs.HostJars.{AreOwnOriginals, AreOwnSet, IsLastOwn};
ghost use Rattle.cookie_agent.specs.Hosts.{AreOnlyOwn};
ghost use Rattle.cookie_agent.specs.Limits.{IsWithin, trimmed};
ghost use Rattle.cookie_agent.specs.Removals.{IsMissed, IsRemovedAsSet};
ghost use Rattle.cookie_agent.specs.Sent.{IsOrderedHeader, accessed};
ghost use Rattle.cookie_agent.specs.Sites.{ReadsApart, TrimsApart};
ghost use Rattle.cookie_agent.specs.Storable.{StaysStorable};
ghost use Rattle.cookie_agent.specs.Store.{agent_after_text, agent_verdict, refusal_of};
ghost use Rattle.cookie_agent.specs.Stored.{is_named_in, is_of_domain};
ghost use Rattle.cookie_agent.specs.VerdictCode.{verdict_result};

use crate::cookies::Cookies;
use crate::limits::Limits;
use crate::scope::Scope;
use crate::site::Site;
use crate::store::Store;
use crate::stored::StoredCookie;
use crate::verdict::Verdict;
use cookie_browser::{
    BrowserRequest, Expiry, KeptCookie, Received, Refusal, Suffixes, refused_with,
};
use jiff::civil::DateTime;
use std::alloc::{AllocError, Global};
use std::marker::Model;

/// A user agent: a store with rules of public suffixes. Contracts see the rules, and the cookies that it stores, in the
/// order of their creation.
#[derive(Drop)]
pub struct Agent<'r> {
    suffixes: &'r Suffixes,
    store: Store,
}

impl<'r> Model for Agent<'r> {
    ghost use Rattle.cookie_agent.specs.Sites.{ReadsApart, TrimsApart};
    ghost use Rattle.cookie_agent.specs.Store.{AgentView};

    ghost Value = { AgentView };

    ghost view = { λ a. record {
      rules = a.suffixes.now;
      cookies = a.store;
    } };
}

impl<'r> Agent<'r> {
    /// A user agent that stores nothing. Without rules, each domain of one label is a public suffix, and no other.
    /// Example: `next_header` in crates/cookie_examples/src/agents.rt.
    pub fn new(alloc: Global, suffixes: &'r Suffixes) -> Agent<'r>
        ensures { result ≡ record { rules = suffixes.now; cookies = [] } }
    {
        Agent::with_store(suffixes, Store::new(alloc))
    }

    /// A user agent with these stored cookies. [`into_store`](Agent::into_store) returns them.
    pub fn with_store(suffixes: &'r Suffixes, store: Store) -> Agent<'r>
        ensures { result ≡ record { rules = suffixes.now; cookies = store } }
    {
        Agent { suffixes, store }
    }

    /// Its store, without its rules, as a program keeps it between two requests. An agent of the same rules
    /// [with this store](Agent::with_store) is the same.
    pub fn into_store(self) -> Store
        ensures { result ≡ self.entry.cookies }
    {
        let Agent { suffixes: _, store } = self;
        store
    }

    /// What the agent makes of the text of a `Set-Cookie` header of the site's response at the time `now` in UTC: the
    /// cookie that it would store, or the first step that refuses it (RFC 6265bis, The Set-Cookie Header Field, Storage
    /// Model). Fails only if out of memory.
    pub fn verdict(&self, site: &Site, text: &[u8], now: DateTime) -> Result<Verdict, AllocError>
        ensures { IfOk result (λ verdict.
            verdict_result verdict ≡ agent_verdict self.now site.now now text.now) }
    {
        match Received::of(text) {
            Ok(received) => self.verdict_on(site, &received, now),
            Err(refusal) => Ok(Verdict::Refused(refusal)),
        }
    }

    // The verdict on a received cookie.
    fn verdict_on(
        &self,
        site: &Site,
        received: &Received<'_>,
        now: DateTime,
    ) -> Result<Verdict, AllocError>
        ensures { IfOk result (λ verdict. verdict_result verdict
            ≡ verdict_on self.now.rules site.now now (lasting now self.now.cookies)
            (Ok (received_view received.now))) }
    {
        let domain = received
            .attributes
            .bare_domain()
            .to_ascii_lowercase(self.store.alloc())?;
        let request = site.request();
        let new = KeptCookie::of(self.suffixes, &request, received, domain.as_slice());
        let overlays = overlays(&self.store, &request, &new, now)?;
        if let Some(refusal) = refused_with(
            self.suffixes,
            &request,
            overlays,
            received,
            domain.as_slice(),
            &new,
        ) {
            return Ok(Verdict::Refused(refusal));
        }
        let expiry = Expiry::of(&received.attributes, now);
        Ok(Verdict::Stored(StoredCookie::of(self.store.alloc(), &new, expiry, now)?))
    }

    /// Reads the text of a `Set-Cookie` header of the site's response at the time `now` in UTC: does what
    /// [`verdict`](Agent::verdict) says. Returns the refusal, or `None` if the cookie is stored.
    ///
    /// The cookie takes the place of the one with its name, domain, host-only flag and path, or comes last. Nothing is
    /// decoded. What is expired is dropped, so a cookie that is expired drops the one whose place it takes. Fails only
    /// if out of memory, and then the agent is as before.
    /// Example: `next_header` in crates/cookie_examples/src/agents.rt.
    pub fn read(
        &mut self,
        site: &Site,
        text: &[u8],
        now: DateTime,
    ) -> Result<Option<Refusal>, AllocError>
        ensures ok { IfOk result (λ refusal.
            (self.new ≡ agent_after_text site.now now text.now self.old)
            × (refusal ≡ refusal_of (agent_verdict self.old site.now now text.now))) }
        ensures err { OnErr result (self.new ≡ self.old) }
        ensures missed { OnOk result (IsMissed site.now now text.now self.old self.new) }
        ensures removed { OnOk result (IsRemovedAsSet site.now now text.now self.old self.new) }

        // What is stored could be saved and loaded again.
        ensures storable { OnOk result
            (StaysStorable site.now now self.old.cookies self.new.cookies) }

        // The response of another site drops no cookie of this one.
        ensures apart { OnOk result (ReadsApart site.now now self.old self.new) }
    {
        match self.verdict(site, text, now)? {
            Verdict::Stored(cookie) => {
                self.store.put(cookie, now)?;
                Ok(None)
            }
            Verdict::Refused(refusal) => {
                self.store.evict(now);
                Ok(Some(refusal))
            }
        }
    }

    /// Drops the cookies that are expired at the time `now` in UTC.
    pub fn evict(&mut self, now: DateTime)
        ensures { self.new ≡ record self.old { cookies = lasting now self.old.cookies } }
    {
        self.store.evict(now);
    }

    /// The value of the `Cookie` header of an http request to the site at the time `now` in UTC (RFC 6265bis, Retrieval
    /// Algorithm): longer paths first, and the earlier creation first among equals. Fails only if out of memory.
    /// Example: `next_header` in crates/cookie_examples/src/agents.rt.
    pub fn header(&self, site: &Site, now: DateTime) -> Result<Vec<u8>, AllocError>
        ensures value { IfOk result (λ header.
            IsOrderedHeader site.now now self.now.cookies header.items) }

        // Under names with the prefix `__Host-`, in any case, a server reads what the site's own secure responses set.
        ensures own_set { AreOwnSet }
        ensures last_own { IsLastOwn }

        // If nothing is trimmed or loaded, other responses don't even change the order.
        ensures only_own { AreOnlyOwn }
        ensures own_originals { AreOwnOriginals }
    {
        self.store.header(site, now)
    }

    /// Does what [`header`](Agent::header) says, for a request that is made: `now` becomes the last access of each
    /// cookie that is sent (RFC 6265bis, Retrieval Algorithm). Fails only if out of memory, and then the agent is as
    /// before.
    pub fn retrieve(&mut self, site: &Site, now: DateTime) -> Result<Vec<u8>, AllocError>
        ensures value { IfOk result (λ header.
            IsOrderedHeader site.now now self.old.cookies header.items) }
        ensures ok { OnOk result (self.new
            ≡ record self.old { cookies = map (accessed site.now now) self.old.cookies }) }
        ensures err { OnErr result (self.new ≡ self.old) }
    {
        self.store.retrieve(site, now)
    }

    /// Drops what is expired at the time `now` in UTC, and then the cookies above the limits, as [`Store::trim`] says.
    /// Fails only if out of memory, and then the agent is as before.
    pub fn trim(&mut self, limits: Limits, now: DateTime) -> Result<(), AllocError>
        ensures value { OnOk result (self.new
            ≡ record self.old { cookies = trimmed self.old.rules limits now self.old.cookies }) }
        ensures within { OnOk result (IsWithin self.old.rules limits self.new.cookies) }
        ensures needed { OnOk result (IsWithin self.old.rules limits (lasting now self.old.cookies)
            → self.new.cookies ≡ lasting now self.old.cookies) }

        // No site's cookies push out another's, if all sites leave room.
        ensures apart { OnOk result
            (TrimsApart self.old.rules limits now self.old.cookies self.new.cookies) }
        ensures err { OnErr result (self.new ≡ self.old) }
    {
        self.store.trim(self.suffixes, limits, now)
    }

    /// Removes the cookie of this name and this scope, as [`Store::remove`] says, and returns whether there was one.
    pub fn remove(&mut self, name: &[u8], scope: &Scope) -> bool
        ensures value { self.new ≡ record self.old {
          cookies = filter (λ cookie. not (is_named_in name.now scope.now cookie)) self.old.cookies;
        } }
        ensures found { result ≡ list_any (is_named_in name.now scope.now) self.old.cookies }
    {
        self.store.remove(name, scope)
    }

    /// Removes the cookies of this domain and of the domains below it, as [`Store::clear_domain`] says.
    pub fn clear_domain(&mut self, domain: &[u8])
        ensures { self.new ≡ record self.old {
          cookies = filter (λ cookie. not (is_of_domain domain.now cookie)) self.old.cookies;
        } }
    {
        self.store.clear_domain(domain);
    }

    /// Its store. [`Store::cookies`] are the stored cookies.
    pub fn store(&self) -> &Store
        ensures { result.now ≡ self.now.cookies }
    {
        &self.store
    }

    /// The cookies that it stores, in the order of their creation. Some may be expired.
    pub fn cookies(&self) -> Cookies<'_>
        ensures { result ≡ self.now.cookies }
    {
        self.store.cookies()
    }

    /// A user agent that stores the same. Fails only if out of memory.
    pub fn clone(&self) -> Result<Agent<'r>, AllocError>
        ensures { IfOk result (λ made. made ≡ self.now) }
    {
        Ok(Agent {
            suffixes: self.suffixes,
            store: self.store.clone()?,
        })
    }
}

// Whether the new cookie would overlay one that isn't expired.
fn overlays(
    store: &Store,
    request: &BrowserRequest<'_>,
    new: &KeptCookie<'_>,
    now: DateTime,
) -> Result<bool, AllocError>
    ensures { IfOk result (λ found. found
        ≡ overlays (request_view request.now) (lasting now store.now) (kept_view new.now)) }
{
    if new.is_secure_only || request.is_secure {
        return Ok(false);
    }
    store.overlays(request, new, now)
}
