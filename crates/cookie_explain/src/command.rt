//! The command line.
use clap::{Arg, ArgAction, Command};
use std::alloc::{AllocError, Global};

/// The program's command line.
pub fn command<'a>(alloc: Global) -> Result<Command<'a>, AllocError> {
    let url = Arg::new(alloc, "url")
        .value_name("URL")
        .required(true)
        .help("The address that the response comes from");
    let now = Arg::new(alloc, "now").long("now").value_name("DATE").help(
        "The time of the response, as an HTTP date [default: the clock's]",
    );
    let suffixes = Arg::new(alloc, "suffixes")
        .long("suffixes")
        .value_name("FILE")
        .help("The list of public suffixes, as publicsuffix.org has it");
    let cross_site = Arg::new(alloc, "cross-site")
        .long("cross-site")
        .action(ArgAction::SetTrue)
        .help("Another site's page made the request, as a frame, an image or a script does");
    Command::new(alloc, "cookie_explain")
        .about(
            "Says what a browser makes of Set-Cookie lines, which it reads from the standard input",
        )
        .arg(url)?
        .arg(now)?
        .arg(suffixes)?
        .arg(cross_site)
}
