//! `cookie_explain URL`: says of each `Set-Cookie` line of the standard input what a browser stores, or why it refuses
//! it, and then writes the `Cookie` header of the next request to the address.
#![tactic(auto)]

mod command;
mod list;

use anyhow::{Context, Result};
use clap::ArgMatches;
use command::command;
use cookie_report::{moment, report};
use jiff::Timestamp;
use jiff::civil::DateTime;
use jiff::tz::Offset;
use list::suffix_list;
use std::env;
use std::io::{Read, Write};
use std::process::ExitCode;

// The time of the response: the argument's, or the clock's whole second.
fn moment_of(rt: &HostRuntime, matches: &ArgMatches<'_>) -> Result<DateTime> {
    match matches.get_str("now") {
        Some(text) => moment(text.as_bytes()).context("--now: no date of the years 1970 to 9998"),
        None => {
            let second = Timestamp::now(rt)?.as_second();
            Ok(Offset::UTC.to_datetime(Timestamp::from_second(second)?))
        }
    }
}

// Has a browser read each line that counts, and says what it makes of it.
fn explain(rt: &HostRuntime, matches: &ArgMatches<'_>) -> Result<()> {
    let alloc = rt.alloc();
    let now = moment_of(rt, matches)?;
    let url = matches.get_str("url").unwrap_or("");
    let list = suffix_list(rt, matches.get_str("suffixes"))?;
    let mut paste = Vec::new(alloc);
    rt.stdin()
        .read_to_end(&mut paste)
        .context("the standard input can't be read")?;
    let is_cross_site = matches.get_flag("cross-site");
    let mut out = rt.stdout();
    out.write_all(format!(in alloc; "public suffixes: {}\n", list.title)?.as_bytes())?;
    out.write_all(&report(alloc, &list.suffixes, url, is_cross_site, now, &paste)?)?;
    Ok(())
}

// The program's status: 2 if an argument or the input can't be read.
fn run(rt: &HostRuntime) -> Result<ExitCode> {
    let words: Vec<String> = env::args(rt)?.collect(rt.alloc())?;
    let matches = match command(rt.alloc())?.try_get_matches_from(words.as_slice()) {
        Ok(matches) => matches,
        Err(error) => {
            error.print(rt)?;
            return Ok(ExitCode::from(error.exit_code() as u8));
        }
    };
    explain(rt, &matches)?;
    Ok(ExitCode::SUCCESS)
}

fn main(rt: HostRuntime) -> ExitCode {
    match run(&rt) {
        Ok(status) => status,
        Err(error) => {
            let _ = eprintln!(rt; "cookie_explain: {error}");
            ExitCode::from(2)
        }
    }
}
