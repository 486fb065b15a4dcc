//! What was counted while a program ran, and how it is told.
ghost use Rattle.std.specs.Prelude.{◌≡◌, ◌<◌, ◌^◌, length};
ghost use Rattle.std.specs.List.{flat_map};
ghost use Rattle.kl_outside.specs.Sinks.{WritesWhole};
ghost use Rattle.kl_engine.specs.Faults.{TookLine};
ghost use Rattle.kl_engine.specs.Stats.{handed_by, stats_text, totals_text, scan_line};

use crate::drivers::{Drivers, SeenAll};
use crate::fault::write_parts;
use itoa::Buffer;
use kl_ask::{Trace, handed_boxed};
use kl_outside::{Sink, Stop};

/// How many rows the drivers handed since they were made.
pub fn rows_handed(drivers: &Drivers) -> u128
    requires { length drivers.now.items < 2 ^ 32 }
    ensures { result ≡ handed_by (⟦<Drivers as SeenAll>⟧.states drivers.now) }
{
    let mut handed: u128 = 0;
    'drivers: for driver in drivers {
        handed += u128::from(handed_boxed(driver));
    }
    handed
}

/// Tells what was counted. Where a line is refused, nothing else comes of it.
pub fn tell_counts<E: Sink>(trace: &Trace, handed: u128, err: &mut E)
    ensures { TookLine (stats_text trace.now handed) (E.state err.old) (E.state err.new) }
{
    match write_counts(trace, handed, err) {
        Ok(()) | Err(_) => {}
    }
}

fn write_counts<E: Sink>(trace: &Trace, handed: u128, err: &mut E) -> Result<(), Stop>
    ensures { WritesWhole (stats_text trace.now handed) result (E.state err.old) (E.state err.new) }
{
    match write_totals(trace, handed, err) {
        Ok(()) => write_starts(trace.starts.slice(), err),
        Err(stop) => Err(stop),
    }
}

fn write_totals<E: Sink>(trace: &Trace, handed: u128, err: &mut E) -> Result<(), Stop>
    ensures { WritesWhole (totals_text trace.now handed) result (E.state err.old) (E.state err.new) }
{
    write_parts(
        err,
        &[
            b"steps ",
            Buffer::new().format(trace.steps).as_bytes(),
            b"\nhits ",
            Buffer::new().format(trace.hits).as_bytes(),
            b"\nmisses ",
            Buffer::new().format(trace.misses).as_bytes(),
            b"\npeak ",
            Buffer::new().format(trace.peak).as_bytes(),
            b"\nhanded ",
            Buffer::new().format(handed).as_bytes(),
            b"\n",
        ],
    )
}

fn write_starts<E: Sink>(starts: &[(u32, u64)], err: &mut E) -> Result<(), Stop>
    ensures { WritesWhole (flat_map scan_line starts.now) result (E.state err.old) (E.state err.new) }
{
    'scans: for scan in starts {
        match write_start(scan, err) {
            Ok(()) => {}
            Err(stop) => return Err(stop),
        }
    }
    Ok(())
}

fn write_start<E: Sink>(scan: &(u32, u64), err: &mut E) -> Result<(), Stop>
    ensures { WritesWhole (scan_line scan.now) result (E.state err.old) (E.state err.new) }
{
    write_parts(
        err,
        &[
            b"scan ",
            Buffer::new().format(scan.0).as_bytes(),
            b" starts ",
            Buffer::new().format(scan.1).as_bytes(),
            b"\n",
        ],
    )
}
