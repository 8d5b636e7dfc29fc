//! Many requests of one user agent.
ghost use Rattle.std.specs.Prelude.{◌≡◌, [], length, map, IfOk, OnOk, string_bytes};
ghost use Rattle.cookie.specs.Jar.{Name};
ghost use Rattle.cookie_theorems.specs.Agreement.{IsOurStore, PlanView};
ghost use Rattle.cookie_agent.specs.Store.{AgentView};
ghost use Rattle.cookie_theorems.specs.Reading.{agent_after_texts};
ghost use Rattle.cookie_theorems.specs.Visits.{AgreesOn, AllAgree, AllAgreeOn, AreAllPlanned, ArePlanned, AreVisited, IsVisited};

use crate::agent_request::AgentRequest;
use crate::visited::Visited;
use cookie::CookieJar;
use cookie_agent::{Agent, Site};
use cookie_browser::Suffixes;
use cookie_client::{delta_texts, replay};
use jiff::civil::DateTime;
use std::alloc::{AllocError, Global};

/// Makes the requests in order with one user agent, which stores nothing at first and has these rules of public
/// suffixes.
///
/// Each request sends the agent's header; what is sent keeps its last access, as with [`Agent::header`]. Its jar is
/// new, with the header's cookies as its originals, read as by `CookieJar::with_field`. The calls are made on it as by
/// `replay`. The encoded texts of its delta come back as the response, which the agent reads. The text that is read as
/// the i-th is number `pick[i]` of the texts that are left, modulo their count, or number 0 after `pick` has ended.
/// Fails only if out of memory outside the calls.
pub fn visits<'r>(
    alloc: Global,
    suffixes: &'r Suffixes,
    requests: &[AgentRequest<'_, '_>],
    pick: &[usize],
) -> Result<Vec<Visited<'r>>, AllocError>
    ensures count { IfOk result (λ visited. length visited.items ≡ length requests.now) }
    ensures visits { IfOk result (λ visited. AreVisited
        (record { rules = suffixes.now; cookies = [] }) requests.now
        visited.items) }
    ensures agreement { (plans : Name → PlanView) → IfOk result (λ visited.
        AreAllPlanned suffixes.now plans requests.now visited.items
        → AllAgree requests.now visited.items) }
    ensures alike { (plans : Name → PlanView) → IfOk result (λ visited.
        AreAllPlanned suffixes.now plans requests.now visited.items
        → AllAgreeOn plans requests.now visited.items) }
{
    let mut agent = Agent::new(alloc, suffixes);
    let mut visited = Vec::new(alloc);
    for request in requests {
        let one = visit(alloc, &agent, request, pick)?;
        agent = one.agent.clone()?;
        visited.push(one)?;
    }
    Ok(visited)
}

/// Makes one request with a user agent, as [`visits`] makes each of its requests. The agent itself stays as it is:
/// `agent` of the returned `Visited` is the one that has read the response.
///
/// So a test plays requests one after the other, each made after it has looked at the one before. Fails only if out of
/// memory.
pub fn visit<'r>(
    alloc: Global,
    agent: &Agent<'r>,
    request: &AgentRequest<'_, '_>,
    pick: &[usize],
) -> Result<Visited<'r>, AllocError>
    ensures visit { IfOk result (λ visited. IsVisited agent.now request.now visited) }
    ensures alike { (plans : Name → PlanView) → IfOk result (λ visited.
        IsOurStore plans agent.now.cookies → ArePlanned agent.now.rules plans request.now visited
        → AgreesOn plans request.now visited) }

    // What a new agent stores is as planned, since it stores nothing.
    ensures ours { (plans : Name → PlanView) → IsOurStore plans [] }
{
    let header = agent.header(request.site, request.moment)?;
    let mut jar = CookieJar::new(alloc).with_field(&header)?;
    let outcomes = replay(alloc, &mut jar, request.calls)?;
    let texts = delta_texts(alloc, &jar, pick)?;
    let mut agent = agent.clone()?;
    read_texts(&mut agent, request.site, &texts, request.moment)?;
    Ok(Visited {
        header,
        jar,
        agent,
        outcomes,
    })
}

// Has the agent read texts in order.
fn read_texts(
    agent: &mut Agent<'_>,
    site: &Site,
    texts: &[String],
    now: DateTime,
) -> Result<(), AllocError>
    ensures { OnOk result (agent.new
        ≡ agent_after_texts site.now now (map string_bytes texts.now) agent.old) }
{
    for text in texts {
        agent.read(site, text.as_bytes(), now)?;
    }
    Ok(())
}
