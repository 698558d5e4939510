//! The program `adjudicate` with only the command `run`. It needs fewer crates than the whole program, so it is built first.
#![tactic(auto)]

use console::FileSources;
use run_command::status;
use std::io;
use std::io::IsTerminal;
use std::process::ExitCode;

fn main(rt: HostRuntime) -> io::Result<ExitCode> {
    let is_watched = rt.stderr().is_terminal();
    let sources = FileSources::new(&rt);
    let status = status(&rt, &sources, is_watched);
    Ok(ExitCode::from(status.code()))
}
