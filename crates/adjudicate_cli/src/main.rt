//! The program `adjudicate`: runs the command line by `commands`, over the system's files and streams by `console`.
#![tactic(auto)]

use commands::status;
use console::FileSources;
use std::io;
use std::io::IsTerminal;
use std::process::ExitCode;

fn main(rt: HostRuntime) -> io::Result<ExitCode> {
    let is_watched = rt.stderr().is_terminal();
    let sources = FileSources::new(&rt);
    let status = status(&rt, &sources, is_watched);
    Ok(ExitCode::from(status.code()))
}
