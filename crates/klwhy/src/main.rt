//! The program `klwhy`: the top call over the system's words, files and streams, and the drivers that a catalogue may name.
//!
//! It ends with the status that the top call answers. A word that is not UTF-8 is told as words that name no program.
//! Before that call the program can end with 9, where there is no memory for the words or the drivers, and with 12, where
//! the system gives no words.
#![tactic(auto)]

use kl_flat::FlatDriver;
use kl_nested::NestedDriver;
use kl_outside::{HostFiles, HostSink};
use kl_sqlserve::SqlServer;
use kl_tools::MadeDriver;
use kl_why::{add_driver, klwhy};
use std::alloc::AllocError;
use std::io::ErrorKind;
use std::process::ExitCode;
use std::{env, io};

const NO_MEMORY: u8 = 9;

const NO_WORDS: u8 = 12;

fn main(rt: HostRuntime) -> ExitCode {
    match read_words(rt) {
        Ok(words) => ExitCode::from(run(rt, &words)),
        Err(error) => ExitCode::from(match error.kind() {
            ErrorKind::OutOfMemory => NO_MEMORY,
            ErrorKind::InvalidData => run(rt, &[]),
            _ => NO_WORDS,
        }),
    }
}

// The words of the command line, without the program's name.
fn read_words(rt: HostRuntime) -> io::Result<Vec<String>> {
    let mut words = Vec::new(rt.alloc());
    for word in env::args(&rt)?.skip(1) {
        words.push(word)?;
    }
    Ok(words)
}

fn run(rt: HostRuntime, words: &[String]) -> u8 {
    match explained(rt, words) {
        Ok(status) => status,
        Err(_) => NO_MEMORY,
    }
}

// The status that the top call answers, over the drivers. Each has files of its own.
fn explained(rt: HostRuntime, words: &[String]) -> Result<u8, AllocError> {
    let alloc = rt.alloc();
    let flat = Box::new(alloc, FlatDriver::new(alloc, HostFiles::new(rt)))?;
    let nested = Box::new(alloc, NestedDriver::new(alloc, HostFiles::new(rt)))?;
    let sql = Box::new(alloc, SqlServer::new(alloc, HostFiles::new(rt)))?;
    let made = Box::new(alloc, MadeDriver::new(alloc))?;
    let mut drivers = Vec::new(alloc);
    add_driver(&mut drivers, flat)?;
    add_driver(&mut drivers, nested)?;
    add_driver(&mut drivers, sql)?;
    add_driver(&mut drivers, made)?;
    let mut files = HostFiles::new(rt);
    let mut out = HostSink::new(rt.stdout());
    let mut err = HostSink::new(rt.stderr());
    Ok(klwhy(alloc, words, &mut files, &mut drivers, &mut out, &mut err))
}
