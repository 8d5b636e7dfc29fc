//! A jar, and a client that follows it.
ghost use Rattle.std.specs.Prelude.{◌≡◌, false, ℕ, List, map, reverse, All, IfOk, OnOk, string_bytes};
ghost use Rattle.std.specs.FinMap.{get};
ghost use Rattle.cookie.specs.History.{is_forced, LooksBack};
ghost use Rattle.cookie.specs.Jar.{Name, empty_jar, view};
ghost use Rattle.cookie.specs.DeltaTexts.{AreDeltaTexts};
ghost use Rattle.cookie_client.specs.Agreement.{HoldsOriginals, value_of};
ghost use Rattle.cookie_client.specs.Calls.{IsFitCall};
ghost use Rattle.cookie_client.specs.Client.{after_texts};
ghost use Rattle.cookie_client.specs.Exchange.{IsExchange, accepted_calls, changes_by};
ghost use Rattle.cookie_client.specs.Originals.{holds_originals};

use crate::call::JarCall;
use crate::client::Client;
use crate::client_error::ClientError;
use crate::originals::replay_told;
use crate::texts::delta_texts;
use cookie::CookieJar;
use jiff::civil::DateTime;
use std::alloc::Global;

/// What came of calls: the jar, the client that followed it, and which calls were accepted.
#[derive(Drop)]
pub struct Played {
    /// The jar after the accepted calls.
    pub jar: CookieJar,
    /// The client after it has read the texts of the jar's delta.
    pub client: Client,
    /// One outcome for each call, in their order: `true` if it was accepted. A refused call counts as not made.
    pub outcomes: Vec<bool>,
}

/// Makes the calls on a new jar, and has a client follow it. The client holds the value of each name's last accepted
/// original, as it was stored. It then reads the encoded text of each cookie of the delta, at the time `now` in UTC
/// (RFC 6265 5.3).
///
/// If each accepted call is fit at that time (`JarCall::is_fit`), the client then holds the value that the jar shows
/// under every name, except under a name that one of the calls removes by force.
///
/// The i-th text that the client reads is number `pick[i]` of those that are left, in the order of `CookieJar::delta`
/// and modulo their number, or number 0 after the end of `pick`.
///
/// The calls are made as by `replay`, so a call that is refused is an outcome and no failure. Fails only with
/// `ClientError::OutOfMemory`, if out of memory outside the calls.
/// Example: `follow` in crates/cookie_examples/src/following.rt.
pub fn mirror(
    alloc: Global,
    calls: &[JarCall<'_>],
    pick: &[usize],
    now: DateTime,
) -> Result<Played, ClientError>
    // The client is the one that held each original, and agrees with the jar wherever it held the jar's original,
    // whatever the order of the texts.
    ensures exchange { IfOk result (λ p.
        IsExchange now empty_jar (holds_originals (changes_by calls.now p)) calls.now p) }
    ensures held { IfOk result (λ p. HoldsOriginals now (changes_by calls.now p) p.jar) }
    ensures looks_back { IfOk result (λ p. LooksBack (reverse (changes_by calls.now p)) p.jar) }

    // So if the accepted calls are fit, it agrees at each name that none of them removes by force.
    ensures agrees { IfOk result (λ p. All (IsFitCall now) (accepted_calls calls.now p)
        → (name : Name) → is_forced name (changes_by calls.now p) ≡ false
        → get p.client name ≡ value_of (view p.jar name)) }
{
    let mut jar = CookieJar::new(alloc);
    let mut client = Client::new(alloc);
    let outcomes = replay_told(alloc, &mut jar, &mut client, calls)?;
    read_delta(alloc, &mut client, &jar, pick, now)?;
    Ok(Played {
        jar,
        client,
        outcomes,
    })
}

/// Has a client read the encoded text of each cookie of the jar's delta at the time `now` in UTC (RFC 6265 5.3), in the
/// order of `pick`, as in [`mirror`].
///
/// Fails only with `ClientError::OutOfMemory`. The client may then have read some of the texts.
pub fn read_delta(
    alloc: Global,
    client: &mut Client,
    jar: &CookieJar,
    pick: &[usize],
    now: DateTime,
) -> Result<(), ClientError>
    ensures { OnOk result ((texts : List (List ℕ)) × AreDeltaTexts jar.now.delta texts
        × (client.new ≡ after_texts now texts client.old)) }
{
    let texts = delta_texts(alloc, jar, pick)?;
    read_texts(client, &texts, now)
}

// Has a client read texts in order.
fn read_texts(client: &mut Client, texts: &[String], now: DateTime) -> Result<(), ClientError>
    ensures { OnOk result (
        client.new ≡ after_texts now (map string_bytes texts.now) client.old) }
{
    for text in texts {
        client.read(text.as_str(), now)?;
    }
    Ok(())
}
