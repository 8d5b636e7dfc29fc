//! The list of public suffixes.
use anyhow::{Context, Result};
use cookie_browser::Suffixes;
use std::{env, fs};

// Where Debian's package `publicsuffix` installs the list.
const DEBIAN: &str = "/usr/share/publicsuffix/public_suffix_list.dat";
// The list that comes with the program: beside it, in the folder `data` beside its folder, or where it runs.
const BESIDE: &str = "public_suffix_list.dat";

const ABOVE: &str = "data/public_suffix_list.dat";

/// A list of public suffixes.
#[derive(Drop)]
pub struct SuffixList {
    /// Its rules.
    pub suffixes: Suffixes,
    /// Which list it is.
    pub title: String,
}

// The list of the file, if it can be read.
fn list_at(rt: &HostRuntime, path: &str, title: &str) -> Result<Option<SuffixList>> {
    match fs::read(rt, path) {
        Ok(text) => Ok(Some(SuffixList {
            suffixes: Suffixes::new(rt.alloc(), &text)?,
            title: String::from_str(rt.alloc(), title)?,
        })),
        Err(_) => Ok(None),
    }
}

// The list that comes with the program, if it is there.
fn own_list(rt: &HostRuntime) -> Result<Option<SuffixList>> {
    let title = "the list of 2026-10-07 that comes with cookie_explain";
    let Ok(program) = env::current_exe(rt) else {
        return Ok(None);
    };
    let Some(folder) = program.parent() else {
        return Ok(None);
    };
    let beside = folder.join(rt.alloc(), BESIDE)?;
    if let Some(list) = list_at(rt, beside.as_str(), title)? {
        return Ok(Some(list));
    }
    let Some(above) = folder.parent() else {
        return Ok(None);
    };
    list_at(rt, above.join(rt.alloc(), ABOVE)?.as_str(), title)
}

/// The list of the file that is named. Else Debian's, or the one that comes with the program, or one without rules.
pub fn suffix_list(rt: &HostRuntime, path: Option<&str>) -> Result<SuffixList> {
    if let Some(path) = path {
        let list = list_at(rt, path, path)?;
        return list.context("--suffixes: the file can't be read");
    }
    if let Some(list) = list_at(rt, DEBIAN, DEBIAN)? {
        return Ok(list);
    }
    if let Some(list) = own_list(rt)? {
        return Ok(list);
    }
    if let Some(list) = list_at(rt, BESIDE, BESIDE)? {
        return Ok(list);
    }
    Ok(SuffixList {
        suffixes: Suffixes::empty(rt.alloc()),
        title: String::from_str(
            rt.alloc(),
            "none found, so only a domain of one label is one",
        )?,
    })
}
