//! Scans over a run.
ghost use Rattle.std.specs.Prelude.{◌<◌};
ghost use Rattle.kl_scans.specs.Held.{Owned, one_at};
ghost use Rattle.kl_scans.specs.Moves.{Closes};
ghost use Rattle.kl_scans.specs.Scans.{CanScan, IsOpen, Starts, Pulls};

use crate::counting::count_start;
use crate::drivers::{finish_at, pull_at, start_at};
use crate::run::{Ran, Run};
use crate::stops::stop_of;
use kl_eval::EvalStop;
use kl_plan::Scan;
use kl_value::Value;

/// Opens a cursor of the scan's driver for its ask, and counts that the scan was started, where its number is counted.
///
/// # Errors
/// `Driver` where the driver refused, with its cause; want of memory; and never an overflow. Nothing is open then that was not.
pub fn start_scan<'p>(run: &mut Run<'p>, scan: &Scan) -> Result<u64, EvalStop>
    requires { CanScan (⟦<Run<'p> as Ran>⟧.world run.old) scan.now }
    ensures { Starts scan.now result (⟦<Run<'p> as Ran>⟧.world run.old) (⟦<Run<'p> as Ran>⟧.world run.new) }
{
    match start_at(&mut run.session.drivers, scan) {
        Ok(cursor) => {
            count_start(&mut run.session.trace.starts, scan.number);
            Ok(cursor)
        }
        Err(error) => Err(stop_of(&scan.source, error)),
    }
}

/// Appends the next rows of a cursor of the scan, at most as many as are pulled at once, or answers that none is left.
///
/// # Errors
/// Those of `start_scan`. The cursor is closed then.
pub fn pull_scan<'p>(
    run: &mut Run<'p>,
    scan: &Scan,
    cursor: u64,
    into: &mut Vec<Value>,
) -> Result<bool, EvalStop>
    requires scan { CanScan (⟦<Run<'p> as Ran>⟧.world run.old) scan.now }
    requires is_open { IsOpen (⟦<Run<'p> as Ran>⟧.world run.old) scan.now cursor }
    requires room { 0 < (⟦<Run<'p> as Ran>⟧.world run.old).settings.fetch }
    ensures { Pulls scan.now cursor into.old.items into.new.items result (⟦<Run<'p> as Ran>⟧.world run.old)
        (⟦<Run<'p> as Ran>⟧.world run.new) }
{
    match pull_at(
        &mut run.session.drivers,
        scan,
        cursor,
        run.session.settings.fetch,
        into,
    ) {
        Ok(more) => Ok(more),
        Err(error) => Err(stop_of(&scan.source, error)),
    }
}

/// Closes a cursor of the scan. Takes no memory.
pub fn finish_scan<'p>(run: &mut Run<'p>, scan: &Scan, cursor: u64)
    requires { Owned (one_at scan.now.driver cursor) (⟦<Run<'p> as Ran>⟧.world run.old) }
    ensures { Closes (one_at scan.now.driver cursor) (⟦<Run<'p> as Ran>⟧.world run.old) (⟦<Run<'p> as Ran>⟧.world run.new) }
{
    finish_at(&mut run.session.drivers, scan, cursor)
}
