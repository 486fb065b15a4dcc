//! The program `kljson`: the top call over the system's words, files and streams.
//!
//! It ends with the status that the top call answers. A word that is not UTF-8 is told as words that name no command.
//! Before that call the program can end with 9, where there is no memory for the words, and with 12, where the system gives
//! no words.
#![tactic(auto)]

use kl_json::kljson;
use kl_outside::{HostFiles, HostSink};
use std::io::ErrorKind;
use std::process::ExitCode;
use std::{env, io};

const NO_MEMORY: u8 = 9;

const NO_WORDS: u8 = 12;

fn main(rt: HostRuntime) -> ExitCode {
    match read_words(rt) {
        Ok(words) => ExitCode::from(run(rt, &words)),
        Err(error) => ExitCode::from(match error.kind() {
            ErrorKind::OutOfMemory => NO_MEMORY,
            ErrorKind::InvalidData => run(rt, &[]),
            _ => NO_WORDS,
        }),
    }
}

// The words of the command line, without the program's name.
fn read_words(rt: HostRuntime) -> io::Result<Vec<String>> {
    let mut words = Vec::new(rt.alloc());
    for word in env::args(&rt)?.skip(1) {
        words.push(word)?;
    }
    Ok(words)
}

fn run(rt: HostRuntime, words: &[String]) -> u8 {
    let mut files = HostFiles::new(rt);
    let mut out = HostSink::new(rt.stdout());
    let mut err = HostSink::new(rt.stderr());
    kljson(rt.alloc(), words, &mut files, &mut out, &mut err)
}
