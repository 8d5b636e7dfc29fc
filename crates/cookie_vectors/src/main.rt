//! Plays the rows of data/: each row is a title and steps, and each step says what it has to return. Prints each row
//! that is wrong, and then how many are right. README.md has the form of the rows.
#![tactic(auto)]

use anyhow::Result;
use cookie_browser::Suffixes;
use rows::{Row, Wrong, read_rows};
use rows_agents::Agents;
use rows_browsers::{Browser, Choosers, SuffixList};
use rows_cipher::Cipher;
use rows_clients::{Clients, Runs};
use rows_http::{Headers, Refusals};
use rows_jars::Jars;
use rows_sessions::Visitors;
use rows_values::{Dates, cookies};
use std::alloc::Global;
use std::fs;
use std::process::ExitCode;

// The files, in the order in which they are played.
const FILES: &str = "\
dates cookies cookie_fields cut_cookies jars prefixes secrets headers refusals cipher sessions http browser suffixes \
agent choices clients runs";

// The public suffixes of the rows on browsers, user agents and sessions.
const SUFFIXES: &[u8] = b"com\nco.uk\ngithub.io\n*.ck\n!www.ck\nexample\n";

// The first step of a file's row that is wrong, if one is.
fn wrong<'t>(alloc: Global, suffixes: &Suffixes, file: &str, row: &Row<'t>) -> Option<Wrong<'t>> {
    match file {
        "dates" => row.wrong(Some(Dates)),
        "cookies" | "cookie_fields" | "cut_cookies" => cookies::wrong(row),
        "jars" | "prefixes" | "secrets" | "headers" => row.wrong(Some(Jars::new(alloc))),
        "refusals" => row.wrong(Some(Refusals)),
        "cipher" => row.wrong(Some(Cipher)),
        "sessions" => row.wrong(Visitors::new(alloc, suffixes)),
        "http" => row.wrong(Headers::new(alloc)),
        "browser" => row.wrong(Some(Browser(suffixes))),
        "suffixes" => row.wrong(Some(SuffixList(Suffixes::empty(alloc)))),
        "agent" => row.wrong(Agents::new(alloc, suffixes)),
        "choices" => row.wrong(Choosers::new(alloc, suffixes)),
        "clients" => row.wrong(Some(Clients::new(alloc))),
        _ => row.wrong(Some(Runs)),
    }
}

// Prints what is wrong with a row.
fn print(rt: &HostRuntime, file: &str, row: &Row<'_>, wrong: Wrong<'_>) -> Result<()> {
    let (step, came) = wrong;
    println!(rt; "{file}.tsv:{}: {}", step.line, row.title)?;
    println!(rt; "    step:     {} {}", step.call, step.words)?;
    println!(rt; "    expected: {}", step.wanted)?;
    match came {
        Some(came) => println!(rt; "    came:     {came}")?,
        None => println!(rt; "    came:     nothing: the call isn't known, or memory ran out")?,
    }
    Ok(())
}

// Plays the rows of a file. Returns how many were right, and how many were wrong.
fn play(rt: &HostRuntime, suffixes: &Suffixes, file: &str) -> Result<(usize, usize)> {
    let (mut right, mut faults) = (0usize, 0usize);
    let text = fs::read_to_string(rt, format!(in rt.alloc(); "{file}.tsv")?)?;
    for row in &read_rows(rt.alloc(), text.as_str())? {
        if row.is_for_rust() {
            match wrong(rt.alloc(), suffixes, file, row) {
                Some(wrong) => {
                    print(rt, file, row, wrong)?;
                    faults = faults.saturating_add(1);
                }
                None => right = right.saturating_add(1),
            }
        }
    }
    Ok((right, faults))
}

fn main(rt: HostRuntime) -> Result<ExitCode> {
    let suffixes = Suffixes::new(rt.alloc(), SUFFIXES)?;
    let (mut right, mut faults) = (0usize, 0usize);
    for file in FILES.split(' ') {
        let counts = play(&rt, &suffixes, file)?;
        right = right.saturating_add(counts.0);
        faults = faults.saturating_add(counts.1);
    }
    println!(rt; "{right} rows right, {faults} wrong")?;
    Ok(ExitCode::from(if faults == 0 { 0 } else { 1 }))
}
