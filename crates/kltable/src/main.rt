//! The program `kltable`: copies of tables, over the system's words, files and streams.
//!
//! It ends with the status that `kl_tidy` answers. A word that is not UTF-8 is told as words that are no command. Before
//! that call the program can end with 9, where there is no memory for the words, and with 12, where the system gives no
//! words.
#![tactic(auto)]

use kl_outside::{HostFiles, HostSink};
use kl_tidy::kltable;
use std::io::ErrorKind;
use std::process::ExitCode;
use std::{env, io};

const NO_MEMORY: u8 = 9;

const NO_WORDS: u8 = 12;

fn main(rt: HostRuntime) -> ExitCode {
    match words_of(rt) {
        Ok(words) => ExitCode::from(answer(rt, &words)),
        Err(error) => ExitCode::from(match error.kind() {
            ErrorKind::OutOfMemory => NO_MEMORY,
            ErrorKind::InvalidData => answer(rt, &[]),
            _ => NO_WORDS,
        }),
    }
}

// The words of the command line, without the program's name.
fn words_of(rt: HostRuntime) -> io::Result<Vec<String>> {
    let mut args = env::args(&rt)?;
    let _program = args.next();
    let mut words = Vec::new(rt.alloc());
    for word in args {
        words.push(word)?;
    }
    Ok(words)
}

fn answer(rt: HostRuntime, words: &[String]) -> u8 {
    let mut files = HostFiles::new(rt);
    let mut out = HostSink::new(rt.stdout());
    let mut err = HostSink::new(rt.stderr());
    kltable(rt.alloc(), words, &mut files, &mut out, &mut err)
}
