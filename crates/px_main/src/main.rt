//! The program `propel`: the host's words, files, output and errors for the top call, and the status that
//! it answers. All else stands in px_drive.
#![tactic(auto)]

use px_drive::{drive, status};
use px_world::{HostFiles, HostOut};
use std::env;
use std::io::{self, ErrorKind};
use std::process::ExitCode;

/// The status where the words find no memory; then nothing is printed.
const NO_MEMORY: u8 = 10;
/// The status where the runtime refuses the words for another cause, as for a word that isn't UTF-8; then
/// nothing is printed.
const NO_WORDS: u8 = 1;

fn main(rt: HostRuntime) -> ExitCode {
    match words_after_name(&rt) {
        Ok(words) => run(&rt, &words),
        Err(error) if error.kind() == ErrorKind::OutOfMemory => ExitCode::from(NO_MEMORY),
        Err(_) => ExitCode::from(NO_WORDS),
    }
}

/// The words of the command line after the program's name.
fn words_after_name(rt: &HostRuntime) -> io::Result<Vec<String>> {
    let words = env::args(rt)?.skip(1).collect(rt.alloc())?;
    Ok(words)
}

/// Runs the command over the host's files and streams.
fn run(rt: &HostRuntime, words: &Vec<String>) -> ExitCode {
    let mut files = HostFiles::new(rt);
    let mut out = HostOut::output(rt);
    let mut err = HostOut::error(rt);
    let outcome = drive(rt.alloc(), words, &mut files, &mut out, &mut err);
    ExitCode::from(status(&outcome))
}
