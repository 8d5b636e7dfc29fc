//! The engine of the program: a session from the bytes of its input to its text.
ghost use Rattle.std.specs.Prelude.{◌≡◌, ◌+◌, ◌++◌, ◌^◌, ◌<◌, List, ℕ, [], codes, true, false, option_map, None, Ok, Err, IfOk, OnOk, MatchResult, drop, map, length, string_bytes};
ghost use Rattle.std.specs.FinMap.{entries, get};
ghost use Rattle.std.specs.List.{list_all};
ghost use Rattle.std.specs.Option.{option_to_list};
ghost use Rattle.cookie.specs.CookieOf.{cookie_of, header_cookies};
ghost use Rattle.cookie.specs.Decoding.{AgreesInMemory};
ghost use Rattle.cookie.specs.History.{after_all};
ghost use Rattle.cookie.specs.Memory.{Gives};
ghost use Rattle.cookie.specs.Jar.{Add, AddOriginal, empty_jar};
ghost use Rattle.cookie.specs.Reads.{record_or_refusal};
ghost use Rattle.cookie.specs.Text.{cookie_text};
ghost use Rattle.cookie_client.specs.Calls.{change_of};
ghost use Rattle.cookie_client.specs.Client.{ReadsBack, after_texts};
ghost use Rattle.cookie_client.specs.Lines.{lines_of};
ghost use Rattle.cookie_client.specs.Run.{IsAgreed, IsOfAgreement, IsPlayed, IsRead, PlaysSession, Refuses};
ghost use Rattle.cookie_client.specs.Session.{moment_of, call_of, changes_in, removal_of, forced_removal_of, discarding_of, header_line, set_cookie_lines, delta_texts, cookie_line, session_of_lines, session_of_bytes};
ghost use Rattle.cookie_client.specs.declared.run_error.RunError.TheVariants as refusal;

use crate::call::JarCall;
use crate::client::Client;
use crate::history::replay;
use crate::lines::Lines;
use crate::requests::client_of;
use crate::run_error::RunError;
use crate::streams::{read_all, write_text};
use cookie::{Cookie, CookieJar, ParseError, TextMap, read_date};
use jiff::civil::DateTime;
use std::alloc::{AllocError, Global};
use std::hash::RandomState;
use std::io::{Read, Write};

/// Reads the time of a session: a date in UTC, in one of the four forms that `cookie::read_date` takes, of the year 100
/// or later. Returns `None` for any other text.
pub fn moment_of(text: &str) -> Option<DateTime>
    ensures { result ≡ moment_of text.now }
{
    let moment = read_date(text)?;
    if moment.to_plain().date.year < 100 {
        return None;
    }
    Some(moment)
}

// The addition of the cookie that the text is, if it is one.
fn addition(alloc: Global, text: &str) -> Result<Option<JarCall<'static>>, RunError>
    ensures { Gives refusal.OutOfMemory result (λ call.
        option_map change_of call ≡ option_map Add (cookie_of true text.now)) }
{
    match Cookie::parse_encoded(alloc, text) {
        Ok(cookie) => Ok(Some(JarCall::Add(cookie.into_owned(alloc)?))),
        Err(ParseError::OutOfMemory) => Err(RunError::OutOfMemory),
        Err(ParseError::MissingPair | ParseError::EmptyName | ParseError::Utf8Error(_)) => Ok(None),
    }
}

// The removal of the name, unless it is empty.
fn removal(alloc: Global, name: &str, now: DateTime) -> Result<Option<JarCall<'static>>, RunError>
    ensures { Gives refusal.OutOfMemory result (λ call.
        option_map change_of call ≡ removal_of now name.now) }
{
    if name.is_empty() {
        return Ok(None);
    }
    Ok(Some(JarCall::Remove(Cookie::named(name).into_owned(alloc)?, now)))
}

// The forced removal of the name, unless it is empty.
fn forced_removal(alloc: Global, name: &str) -> Result<Option<JarCall<'static>>, RunError>
    ensures { Gives refusal.OutOfMemory result (λ call.
        option_map change_of call ≡ forced_removal_of name.now) }
{
    if name.is_empty() {
        return Ok(None);
    }
    Ok(Some(JarCall::ForceRemove(String::from_str(alloc, name)?)))
}

// The call that a line requests, if it is one that discards cookies.
fn discarding(alloc: Global, line: &str) -> Result<Option<JarCall<'static>>, RunError>
    ensures { Gives refusal.OutOfMemory result (λ call.
        option_map change_of call ≡ discarding_of line.now) }
{
    if let Some(name) = line.strip_prefix("force ") {
        return forced_removal(alloc, name.trim());
    }
    if line == "reset" {
        return Ok(Some(JarCall::ResetDelta));
    }
    Ok(None)
}

// The call that a line requests, if any.
fn call_of(alloc: Global, line: &str, now: DateTime) -> Result<Option<JarCall<'static>>, RunError>
    ensures { Gives refusal.OutOfMemory result (λ call.
        option_map change_of call ≡ call_of now line.now) }
{
    if let Some(text) = line.strip_prefix("add ") {
        return addition(alloc, text);
    }
    if let Some(name) = line.strip_prefix("remove ") {
        return removal(alloc, name.trim(), now);
    }
    discarding(alloc, line)
}

// The calls that the lines request, or the first bad line. An empty line requests none. The first line is number 2.
fn calls_of(
    alloc: Global,
    lines: Lines<'_>,
    now: DateTime,
) -> Result<Vec<JarCall<'static>>, RunError>
    requires { length lines + 1 < 2 ^ 64 }
    ensures { MatchResult result
        (λ calls. changes_in now 2 lines.entry ≡ Ok (map change_of calls.items))
        (Refuses (changes_in now 2 lines.entry)) }
{
    let mut calls = Vec::new(alloc);
    let mut lines = lines;
    let mut number = 1;
    while let Some(line) = lines.next() {
        number += 1;
        if line.is_empty() {
            continue;
        }
        match call_of(alloc, line, now)? {
            Some(call) => calls.push(call)?,
            None => return Err(RunError::BadLine(number)),
        }
    }
    Ok(calls)
}

// The texts of the delta's cookies, by name.
fn texts_by_name(alloc: Global, jar: &CookieJar) -> Result<TextMap, RunError>
    ensures { Gives refusal.OutOfMemory result (λ texts. entries texts
        ≡ map (λ e. (e.0, cookie_text true false e.1.cookie)) (entries jar.now.delta)) }
{
    let mut texts = TextMap::new(alloc);
    for cookie in jar.delta() {
        let text = cookie.encoded().to_string(alloc)?;
        texts.put(cookie.name(), text)?;
    }
    Ok(texts)
}

// Writes a line of a label and a text.
fn push_line(written: &mut String, label: &str, text: &str) -> Result<(), AllocError>
    ensures { OnOk result (string_bytes written.new
        ≡ string_bytes written.old ++ (label.now ++ (text.now ++ codes "\n"))) }
{
    written.push_str(label)?;
    written.push_str(text)?;
    written.push_str("\n")?;
    Ok(())
}

// The lines of the texts, which the client reads.
fn tell(
    alloc: Global,
    client: &mut Client,
    texts: &TextMap,
    now: DateTime,
) -> Result<String, RunError>
    ensures lines { Gives refusal.OutOfMemory result (λ written.
        string_bytes written ≡ set_cookie_lines (map (λ e. e.1) (entries texts.now))) }
    ensures client { OnOk result (
        client.new ≡ after_texts now (map (λ e. e.1) (entries texts.now)) client.old) }
{
    let mut written = String::new(alloc);
    for (_, text) in texts.pairs() {
        push_line(&mut written, "Set-Cookie: ", text)?;
        client.read(text, now)?;
    }
    Ok(written)
}

// The text that is written for a jar, and for a client that reads its delta.
fn output(alloc: Global, client: Client, jar: &CookieJar, now: DateTime) -> Result<String, RunError>
    ensures { Gives refusal.OutOfMemory result (λ text.
        let told = after_texts now (delta_texts jar.now) client in
        (string_bytes text ≡ set_cookie_lines (delta_texts jar.now) ++ cookie_line told)
        × (get told [] ≡ None → ReadsBack told)) }
{
    let mut client = client;
    let texts = texts_by_name(alloc, jar)?;
    let mut written = tell(alloc, &mut client, &texts, now)?;
    let header = client.header()?;
    push_line(&mut written, "Cookie: ", header.as_str())?;
    Ok(written)
}

// The text of a session at the time `now`. A call that is refused ends it.
fn session_text(
    alloc: Global,
    jar: CookieJar,
    now: DateTime,
    text: &str,
) -> Result<String, RunError>
    requires { jar ≡ empty_jar }
    ensures played { MatchResult result
        (λ answer. session_of_lines now (lines_of text.now) ≡ Ok (string_bytes answer))
        (Refuses (session_of_lines now (lines_of text.now))) }
    ensures agreement { IfOk result (λ answer.
        IsOfAgreement now (lines_of text.now) (string_bytes answer)) }
{
    let mut lines = Lines::of(text);
    let header = header_of(&mut lines);
    let calls = calls_of(alloc, lines, now)?;
    let mut jar = with_line(alloc, jar, header)?;
    let client = client_of(alloc, &jar)?;
    let outcomes = replay(alloc, &mut jar, &calls)?;
    if !are_accepted(&outcomes) {
        // Calls of lines are refused only if out of memory.
        return Err(RunError::OutOfMemory);
    }
    output(alloc, client, &jar, now)
}

// The jar with the cookies of the first line as originals. Of several with one name the last counts.
fn with_line(alloc: Global, jar: CookieJar, line: &str) -> Result<CookieJar, AllocError>
    ensures { IfOk result (λ made.
        made ≡ after_all (map AddOriginal (header_cookies true line.now)) jar) }
{
    let mut jar = jar;
    let text = String::from_str(alloc, line)?;
    for outcome in Cookie::split_parse_encoded_owned(alloc, text) {
        add_piece(&mut jar, outcome)?;
    }
    Ok(jar)
}

// Adds the cookie of one piece as an original, if the piece is one.
fn add_piece(
    jar: &mut CookieJar,
    outcome: Result<Cookie<'static>, ParseError>,
) -> Result<(), AllocError>
    ensures added { (text : List ℕ)
        → AgreesInMemory true text (record_or_refusal outcome.entry)
        → OnOk result
        (jar.new ≡ after_all (map AddOriginal (option_to_list (cookie_of true text))) jar.old) }
{
    match outcome {
        Ok(cookie) => match jar.add_original(cookie) {
            Ok(()) => Ok(()),
            Err(_) => Err(AllocError),
        },
        Err(ParseError::OutOfMemory) => Err(AllocError),
        Err(ParseError::MissingPair | ParseError::EmptyName | ParseError::Utf8Error(_)) => Ok(()),
    }
}

// The first line, or the empty one, which is taken off.
fn header_of<'t>(lines: &mut Lines<'t>) -> &'t str
    ensures header { result.now ≡ header_line lines.old }
    ensures rest { lines.new ≡ drop 1 lines.old }
{
    lines.next().unwrap_or("")
}

fn are_accepted(outcomes: &[bool]) -> bool
    ensures { result ≡ list_all (λ outcome. outcome) outcomes.now }
{
    outcomes.iter().all(|outcome| *outcome)
}

// The text of a session of bytes at the time `now`.
fn answer(alloc: Global, jar: CookieJar, now: DateTime, bytes: &[u8]) -> Result<String, RunError>
    requires { jar ≡ empty_jar }
    ensures played { MatchResult result
        (λ text. session_of_bytes now bytes.now ≡ Ok (string_bytes text))
        (Refuses (session_of_bytes now bytes.now)) }
    ensures agreement { IfOk result (λ text.
        IsOfAgreement now (lines_of bytes.now) (string_bytes text)) }
{
    match str::from_utf8(bytes) {
        Ok(text) => session_text(alloc, jar, now, text),
        Err(_) => Err(RunError::BadInput),
    }
}

/// Plays the program's session: reads the input to its end, works out the whole text, and then writes it. `moment` is a
/// date in UTC that [`moment_of`] takes.
///
/// Line 1 of the input is the value of a `Cookie` header, which may be empty: its cookies are the jar's originals and
/// what the client holds. Each further line is a call: `add TEXT` with the text of a `Set-Cookie` header, `remove
/// NAME`, `force NAME` or `reset`. NAME is taken without white space around it, and one carriage return at a line's end
/// is left out. An empty line is no call. The output is a line `Set-Cookie: TEXT` for each cookie of
/// the jar's delta, in byte order of the names, and then the line `Cookie: HEADER` of the client that has read them
/// (RFC 6265 4.1, 5.3, 5.4).
///
/// Fails with `BadMoment` before anything is read. Else fails, in this order, with `Input` if a read fails, with
/// `BadInput` if the bytes aren't UTF-8, with `BadLine` at the first line that is no call, counted from 1, and with
/// `Output` if a write takes nothing, fails, or is interrupted. Out of memory, it may fail with `OutOfMemory` instead
/// of any of these but `BadMoment`, before anything is written. After `Output` only part of the text was written, and
/// after any other failure nothing was. It doesn't flush.
pub fn run<R: Read, W: Write>(
    alloc: Global,
    moment: &str,
    input: &mut R,
    output: &mut W,
) -> Result<(), RunError>
    ensures { PlaysSession moment.now R.remaining W.contents input.old input.new
        output.old output.new result }
{
    play(alloc, CookieJar::new(alloc), moment, input, output)
}

/// Plays the program's session as [`run`] does, and fails as it does, for input that strangers write: its jar hashes
/// names with the keys of `state` (`CookieJar::with_hasher`).
pub fn run_with_hasher<R: Read, W: Write>(
    alloc: Global,
    state: RandomState,
    moment: &str,
    input: &mut R,
    output: &mut W,
) -> Result<(), RunError>
    ensures { PlaysSession moment.now R.remaining W.contents input.old input.new
        output.old output.new result }
{
    let jar = CookieJar::with_hasher(alloc, state);
    play(alloc, jar, moment, input, output)
}

// Plays the session with this new jar.
fn play<R: Read, W: Write>(
    alloc: Global,
    jar: CookieJar,
    moment: &str,
    input: &mut R,
    output: &mut W,
) -> Result<(), RunError>
    requires { jar ≡ empty_jar }
    ensures played { IsPlayed moment.now (IsRead (R.remaining input.old) (R.remaining input.new))
        (W.contents output.old) (W.contents output.new) result }
    ensures agreement { IsAgreed moment.now (IsRead (R.remaining input.old) (R.remaining input.new))
        (W.contents output.old) (W.contents output.new) result }
    ensures bad_moment { moment_of moment.now ≡ None
        → (result ≡ Err refusal.BadMoment) × (input.new ≡ input.old) × (output.new ≡ output.old) }
{
    let Some(now) = moment_of(moment) else {
        return Err(RunError::BadMoment);
    };
    let bytes = read_all(alloc, input)?;
    let text = answer(alloc, jar, now, &bytes)?;
    write_text(output, text.as_bytes())
}
