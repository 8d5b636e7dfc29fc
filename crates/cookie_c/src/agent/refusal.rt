//! What is told of the step that refuses a cookie, for C.
ghost use Rattle.std.specs.Prelude.{◌≡◌, MatchOption};
ghost use Rattle.cookie_browser.specs.Refusal.{refusal_section, refusal_text};
ghost use Rattle.cookie_c.specs.Agents.{GivesRefusal, IsNoRefusal};
ghost use Rattle.cookie_c.specs.Explanations.{refusal_code};

use crate::answer::Answer;
use crate::status::Status;
use cookie_browser::Refusal;

/// One sentence on the step of this number, for the buffer: which step refuses a cookie, and what to do about it.
/// `cookie_explain` and `cookie_agent_read` tell the number.
///
/// Refuses a number that isn't a step's, with `Status::NotFound`. It doesn't allocate.
#[unsafe(no_mangle)]
pub extern "C" fn cookie_refusal_sentence(refusal: u32, out: &mut [u8]) -> Answer
    ensures { GivesRefusal refusal_text refusal result out.old out.new }
{
    match refusal_at(refusal) {
        Some(why) => Answer::give(why.as_str().as_bytes(), out),
        None => Answer::refusal(Status::NotFound),
    }
}

/// The title of the section of RFC 6265bis that has the step of this number, for the buffer.
///
/// Refuses a number that isn't a step's, with `Status::NotFound`. It doesn't allocate.
#[unsafe(no_mangle)]
pub extern "C" fn cookie_refusal_section(refusal: u32, out: &mut [u8]) -> Answer
    ensures { GivesRefusal refusal_section refusal result out.old out.new }
{
    match refusal_at(refusal) {
        Some(why) => Answer::give(why.section().as_bytes(), out),
        None => Answer::refusal(Status::NotFound),
    }
}

// The refusal of this number, if there is one.
fn refusal_at(number: u32) -> Option<Refusal>
    ensures { MatchOption result (IsNoRefusal number) (λ why. refusal_code why ≡ number) }
{
    match number {
        1 => Some(Refusal::ControlCharacter),
        2 => Some(Refusal::TooLong),
        3 => Some(Refusal::Empty),
        4 => Some(Refusal::NonAsciiDomain),
        5 => Some(Refusal::PublicSuffix),
        6 => Some(Refusal::ForeignDomain),
        7 => Some(Refusal::InsecureConnection),
        8 => Some(Refusal::OverlaysSecure),
        9 => Some(Refusal::CrossSite),
        10 => Some(Refusal::NoneWithoutSecure),
        11 => Some(Refusal::SecurePrefix),
        12 => Some(Refusal::HostPrefix),
        13 => Some(Refusal::NamelessPrefix),
        14 => Some(Refusal::HttpPrefix),
        _ => None,
    }
}
