//! Many requests, and one client.
ghost use Rattle.std.specs.Prelude.{◌≡◌, length, IfOk};
ghost use Rattle.std.specs.FinMap.{empty, get};
ghost use Rattle.cookie.specs.Jar.{Name, empty_jar, view};
ghost use Rattle.cookie.specs.Memory.{Gives};
ghost use Rattle.cookie_client.specs.Agreement.{value_of};
ghost use Rattle.cookie_client.specs.Exchange.{IsExchange};
ghost use Rattle.cookie.specs.Originals.{jar_for};
ghost use Rattle.cookie_client.specs.Originals.{client_for};
ghost use Rattle.cookie_client.specs.Rounds.{AreRounds};
ghost use Rattle.cookie_client.specs.declared.client_error.ClientError.TheVariants as refusal;

use crate::call::JarCall;
use crate::client::Client;
use crate::client_error::ClientError;
use crate::exchange::{Played, read_delta};
use crate::history::replay;
use crate::request::ClientRequest;
use cookie::CookieJar;
use jiff::civil::DateTime;
use std::alloc::Global;

/// Makes the calls of each request on a jar of its own, and has one client follow them all (RFC 6265 5.3, 5.4). There
/// is one `Played` for each request, in their order.
///
/// The client holds nothing at first. The jar of a request is new: its originals are the cookies of the client's
/// header, split and decoded, with only a name and a value. The calls are made as by `replay`, and the client then
/// reads the delta as in `mirror`, at the time `now` in UTC for all requests, with `pick` from its start.
///
/// If each accepted call of a request is fit at that time (`JarCall::is_fit`) and a change (`JarCall::is_change`), the
/// client of that request holds the value that its jar shows under every name.
///
/// A call that is refused is an outcome and no failure. Fails only with `ClientError::OutOfMemory`, if out of memory
/// outside the calls.
pub fn rounds(
    alloc: Global,
    requests: &[ClientRequest<'_, '_>],
    pick: &[usize],
    now: DateTime,
) -> Result<Vec<Played>, ClientError>
    ensures count { IfOk result (λ played. length played.items ≡ length requests.now) }
    ensures rounds { IfOk result (λ played. AreRounds now empty requests.now played.items) }
{
    let mut header = Client::new(alloc).header()?;
    let mut played = Vec::new(alloc);
    for request in requests {
        let jar = CookieJar::new(alloc);
        let one = visit(alloc, jar, header.as_str(), request.calls, pick, now)?;
        header = one.client.header()?;
        played.push(one)?;
    }
    Ok(played)
}

// Plays one request of a client that holds what the header says: its cookies are the originals of the new jar, and all
// that a new client holds.
fn visit(
    alloc: Global,
    jar: CookieJar,
    header: &str,
    calls: &[JarCall<'_>],
    pick: &[usize],
    now: DateTime,
) -> Result<Played, ClientError>
    requires { jar ≡ empty_jar }
    ensures { IfOk result (λ p.
        IsExchange now (jar_for header.now) (client_for header.now) calls.now p) }
{
    let mut jar = jar.with_originals(header)?;
    let mut client = client_of(alloc, &jar)?;
    let outcomes = replay(alloc, &mut jar, calls)?;
    read_delta(alloc, &mut client, &jar, pick, now)?;
    Ok(Played {
        jar,
        client,
        outcomes,
    })
}

// A client that holds the values of the cookies that the jar shows.
pub(crate) fn client_of(alloc: Global, jar: &CookieJar) -> Result<Client, ClientError>
    ensures { Gives refusal.OutOfMemory result (λ client.
        (name : Name) → get client name ≡ value_of (view jar.now name)) }
{
    let mut client = Client::new(alloc);
    for cookie in jar.iter() {
        client.hold(cookie.name(), cookie.value())?;
    }
    Ok(client)
}
