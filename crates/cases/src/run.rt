//! Running a case.
ghost use Rattle.std.specs.Prelude.{◌<◌, ◌^◌, All, IfOk, length, map};
ghost use Rattle.kl_engine.specs.Answering.{IsIdle};
ghost use Rattle.kl_outside.specs.Files.{NoneOpen};
ghost use Rattle.kl_outside.specs.Memory.{files_state};

use crate::case::{Case, Side, Wanted, read_case};
use crate::pieces::Pieces;
use anyhow::{Context, Result};
use kl_ask::{Driver, JoinRun};
use kl_engine::{add_driver, kleisli};
use kl_exchange::print;
use kl_flat::FlatDriver;
use kl_nested::NestedDriver;
use kl_outside::{MemFiles, MemSink, write_whole};
use kl_sqlserve::SqlServer;
use kl_tools::MadeDriver;
use kl_value::{Text, Value};
use std::alloc::Global;

/// Runs a case, as often as it says, and answers a line on the first run that differs, or none.
///
/// # Errors
/// What is wrong with the case, and want of memory.
pub fn try_value(alloc: Global, value: &Value) -> Result<Option<Vec<u8>>> {
    let case = read_case(alloc, value)?;
    try_case(alloc, &case)
}

fn try_case(alloc: Global, case: &Case) -> Result<Option<Vec<u8>>> {
    match &case.last {
        Some(last) => try_until(alloc, case, last),
        None => try_turns(alloc, case),
    }
}

fn try_turns(alloc: Global, case: &Case) -> Result<Option<Vec<u8>>> {
    if case.given.turns.count == 0 {
        return try_turn(alloc, case, &case.wanted, 0);
    }
    for turn in 0..case.given.turns.count {
        let line = try_turn(alloc, case, &case.wanted, turn + 1)?;
        if line.is_some() {
            return Ok(line);
        }
    }
    Ok(None)
}

// Runs a case until a run is not as the case says, which is to be the last one, and not the first.
fn try_until(alloc: Global, case: &Case, last: &Wanted) -> Result<Option<Vec<u8>>> {
    let first = try_turn(alloc, case, &case.wanted, 1)?;
    if first.is_some() {
        return Ok(first);
    }
    for turn in 1..case.given.turns.count {
        if try_turn(alloc, case, &case.wanted, turn + 1)?.is_some() {
            return try_turn(alloc, case, last, turn + 1);
        }
    }
    try_turn(alloc, case, last, case.given.turns.count)
}

// Runs a case where this call fails too. There is no call 0.
fn try_turn(alloc: Global, case: &Case, wanted: &Wanted, call: u64) -> Result<Option<Vec<u8>>> {
    let mut files = files_of(alloc, case, &case.given.fails.files, Side::Files, call)?;
    let tables = files_of(alloc, case, &case.given.fails.flat, Side::Flat, call)?;
    let items = files_of(alloc, case, &case.given.fails.nested, Side::Nested, call)?;
    let served = files_of(alloc, case, &case.given.fails.sql, Side::Sql, call)?;
    let flat = Box::new(alloc, FlatDriver::new(alloc, tables))?;
    let nested = Box::new(alloc, NestedDriver::new(alloc, items))?;
    let sql = Box::new(alloc, SqlServer::new(alloc, served))?;
    let made = Box::new(alloc, MadeDriver::new(alloc))?;
    let mut drivers = Vec::new(alloc);
    add_driver(&mut drivers, flat)?;
    add_driver(&mut drivers, nested)?;
    add_driver(&mut drivers, sql)?;
    add_driver(&mut drivers, made)?;
    try_over(alloc, case, wanted, call, &mut files, &mut drivers)
}

// Runs a case over these files and drivers.
fn try_over(
    alloc: Global,
    case: &Case,
    wanted: &Wanted,
    call: u64,
    files: &mut MemFiles,
    drivers: &mut Vec<Box<dyn Driver>>,
) -> Result<Option<Vec<u8>>>
    requires idle { All IsIdle (map (λ d. state d) drivers.old.items) }
    requires few { length drivers.old.items < 2 ^ 32 }
{
    let mut out = sink_of(alloc, case, &case.given.fails.out, Side::Out, call)?;
    let mut err = sink_of(alloc, case, &case.given.fails.err, Side::Err, call)?;
    let answer = kleisli(alloc, &case.given.words, files, drivers, &mut out, &mut err);
    let status = i64::from(answer.status);
    differs(
        alloc,
        case,
        wanted,
        call,
        status,
        answer.trace.joins.slice(),
        out.sink.bytes(),
        err.sink.bytes(),
    )
}

// A line on what came, where it is not what was wanted.
fn differs(
    alloc: Global,
    case: &Case,
    wanted: &Wanted,
    call: u64,
    status: i64,
    joins: &[JoinRun],
    out: &[u8],
    err: &[u8],
) -> Result<Option<Vec<u8>>> {
    if wanted.fits(status, joins, out, err) {
        Ok(None)
    } else {
        Ok(Some(line_of(alloc, case, call, status, joins, out, err)?))
    }
}

// The call of this side that fails in a turn.
fn call_of(case: &Case, side: Side, call: u64) -> u64 {
    if case.given.turns.of == side { call } else { 0 }
}

fn files_of(alloc: Global, case: &Case, fails: &[u64], side: Side, call: u64) -> Result<MemFiles>
    ensures { IfOk result (λ f. NoneOpen (files_state f)) }
{
    let mut files = MemFiles::new(alloc, entries_of(alloc, case)?);
    'calls: for failing in fails {
        files.fail_at(*failing)?;
    }
    'changes: for change in &case.given.changes {
        files.change_at(
            change.opening,
            change.path.dup(alloc)?,
            change.text.dup(alloc)?,
        )?;
    }
    files.fail_at(call_of(case, side, call))?;
    Ok(files)
}

fn entries_of(alloc: Global, case: &Case) -> Result<Vec<(Text, Text)>> {
    let mut entries = Vec::new(alloc);
    for (path, text) in &case.given.files {
        entries.push((path.dup(alloc)?, text.dup(alloc)?))?;
    }
    Ok(entries)
}

fn sink_of(alloc: Global, case: &Case, fails: &[u64], side: Side, call: u64) -> Result<Pieces> {
    let mut sink = MemSink::new(alloc);
    for failing in fails {
        sink.fail_at(*failing)?;
    }
    sink.fail_at(call_of(case, side, call))?;
    Ok(Pieces {
        sink,
        most: case.given.piece,
    })
}

// What came, of a case that differs.
fn line_of(
    alloc: Global,
    case: &Case,
    call: u64,
    status: i64,
    joins: &[JoinRun],
    out: &[u8],
    err: &[u8],
) -> Result<Vec<u8>> {
    let mut line = MemSink::new(alloc);
    put(&mut line, &case.shows)?;
    let came = format!(in alloc; ": failing call {call}: status {status}, out ")?;
    put(&mut line, came.as_bytes())?;
    put_text(alloc, &mut line, out)?;
    put(&mut line, b", err ")?;
    put_text(alloc, &mut line, err)?;
    'joins: for it in joins {
        let entry = format!(in alloc;
            ", join {} outer {} starts {}",
            it.join, it.outer, it.starts
        )?;
        put(&mut line, entry.as_bytes())?;
    }
    put(&mut line, b"\n")?;
    Ok(Vec::from_slice(alloc, line.bytes())?)
}

fn put(line: &mut MemSink, bytes: &[u8]) -> Result<()> {
    write_whole(line, bytes).ok().context("out of memory")
}

fn put_text(alloc: Global, line: &mut MemSink, bytes: &[u8]) -> Result<()> {
    let text = Value::Text(Text::of(Vec::from_slice(alloc, bytes)?));
    print(&text, line)?;
    Ok(())
}
