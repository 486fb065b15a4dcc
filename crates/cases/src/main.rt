//! Runs cases of the top call, each over files and sinks in memory, statements asked of a server of SQL, and rules of rewriting
//! at the root of a term, and tells which differ from what they say.
//!
//! `cases FILE..` reads files of values, one record a case, as `case.rt`, `statement.rt` and `rewriting.rt` tell. It prints a line
//! for each case that differs, and then how many cases there are and how many of them differ. The status is 0 where none does.
#![tactic(auto)]

mod case;
mod pieces;
mod rewriting;
mod run;
mod statement;
mod table;
mod terms;

use anyhow::{Context, Result, ensure};
use kl_outside::{HostSink, Sink, write_whole};
use kl_value::Value;
use rewriting::{is_rewriting, try_rewriting};
use run::try_value;
use statement::{is_statement, try_statement};
use std::alloc::Global;
use std::env;
use table::read_values;

// How many cases there were, and how many of them differed.
#[derive(Clone, Copy)]
struct Counts {
    cases: u64,
    differ: u64,
}

fn main(rt: HostRuntime) -> Result<()> {
    let mut out = HostSink::new(rt.stdout());
    let mut counts = Counts {
        cases: 0,
        differ: 0,
    };
    for file in env::args(&rt)?.skip(1) {
        let path = file.as_str();
        let cases = read_values(rt, path).context(format_args!("reading {path}"))?;
        try_all(rt.alloc(), path, &cases, &mut counts, &mut out)?;
    }
    put_counts(rt.alloc(), counts, &mut out)?;
    ensure!(counts.differ == 0, "some cases differ");
    Ok(())
}

// Runs the cases of a file, and prints a line for each that differs.
fn try_all<S: Sink>(
    alloc: Global,
    path: &str,
    cases: &[Value],
    counts: &mut Counts,
    out: &mut S,
) -> Result<()> {
    for case in cases {
        counts.cases = counts.cases.saturating_add(1);
        if let Some(line) = try_one(alloc, case).context(format_args!("a case of {path}"))? {
            counts.differ = counts.differ.saturating_add(1);
            put(out, path.as_bytes())?;
            put(out, b": ")?;
            put(out, &line)?;
        }
    }
    Ok(())
}

fn try_one(alloc: Global, case: &Value) -> Result<Option<Vec<u8>>> {
    if is_statement(case) {
        try_statement(alloc, case)
    } else if is_rewriting(case) {
        try_rewriting(alloc, case)
    } else {
        try_value(alloc, case)
    }
}

fn put_counts<S: Sink>(alloc: Global, counts: Counts, out: &mut S) -> Result<()> {
    let line = format!(in alloc; "{} cases, {} differ\n", counts.cases, counts.differ)?;
    put(out, line.as_bytes())
}

fn put<S: Sink>(out: &mut S, bytes: &[u8]) -> Result<()> {
    write_whole(out, bytes).ok().context("no output")
}
