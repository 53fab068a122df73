//! A tool for the texts of derivations: it reads each text line by line and prints its trees again. The words are pairs of
//! files, a program, whose names the derivation uses, and a derivation. What it prints is what it read, byte for byte, since
//! a row has one spelling; or it ends with status 1 at the first text that is no program's, or line that is no row's.
//! `bench/lines` times it. Nothing is asked of the rows but that they are some.
#![tactic(auto)]

mod reprint;
mod stop;

use px_base::limits::{DERIVATION_BYTES, PROGRAM_BYTES};
use px_world::{HostFiles, HostOut, read_all};
use reprint::reprint;
use std::process::ExitCode;
use std::{env, io};
use stop::Stop;

fn main(rt: HostRuntime) -> ExitCode {
    let Ok(words) = words_after_name(&rt) else {
        return ExitCode::from(1);
    };
    match reprint_all(&rt, words.as_slice()) {
        Ok(()) => ExitCode::from(0),
        Err(_) => ExitCode::from(1),
    }
}

/// The words of the command line after the program's name.
fn words_after_name(rt: &HostRuntime) -> io::Result<Vec<String>> {
    let words = env::args(rt)?.skip(1).collect(rt.alloc())?;
    Ok(words)
}

/// Prints the derivation of each pair of words again.
fn reprint_all(rt: &HostRuntime, words: &[String]) -> Result<(), Stop> {
    for pair in words.chunks_exact(2) {
        if let [program, derivation] = pair {
            reprint_file(rt, program.as_str(), derivation.as_str())?;
        }
    }
    Ok(())
}

/// Prints the derivation of a program again.
fn reprint_file(rt: &HostRuntime, program: &str, derivation: &str) -> Result<(), Stop> {
    let alloc = rt.alloc();
    let mut files = HostFiles::new(rt);
    let mut out = HostOut::output(rt);
    let source = read_all(alloc, &mut files, program, PROGRAM_BYTES)?;
    let names = reprint::names_of(alloc, source.as_slice())?;
    let text = read_all(alloc, &mut files, derivation, DERIVATION_BYTES)?;
    reprint(alloc, &names, text.as_slice(), &mut out)
}
