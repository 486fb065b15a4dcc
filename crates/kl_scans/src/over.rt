//! What is kept of subqueries, and what is counted of look-ups and of joins.
ghost use Rattle.std.specs.Prelude.{◌≡◌, true, ⊤};
ghost use Rattle.std.specs.List.{Contains};
ghost use Rattle.kl_lookups.specs.Lookups.{has};
ghost use Rattle.kl_scans.specs.Keeping.{subquery};
ghost use Rattle.kl_scans.specs.Over.{IsSomeEntry, Keeps, MayKeep, Recalls, TellsEntry};
ghost use Rattle.kl_scans.specs.Same.{same_subquery};

use crate::run::{Ran, Run};
use kl_ask::JoinRun;
use kl_base::{NoMemory, Seq};
use kl_memo::MemoKey;
use kl_value::Value;
use std::alloc::Global;
use std::mem;

/// Whether a value is kept under a key. Where one is, that is counted, and the value is used. Takes no memory.
// Any call meets the `requires`. It stands here since the checker has a caller in another crate look at the body of a function
// without one, for the drivers that it may make.
pub fn recall<'p>(run: &mut Run<'p>, key: &MemoKey) -> bool
    requires { ⊤ }
    ensures { Recalls (subquery key.now) result (⟦<Run<'p> as Ran>⟧.world run.old) (⟦<Run<'p> as Ran>⟧.world run.new) }
{
    match &mut run.memo {
        Some(memo) => {
            if memo.has(key) {
                run.session.trace.hits = run.session.trace.hits.saturating_add(1);
                let _ = memo.get(key);
                true
            } else {
                false
            }
        }
        None => false,
    }
}

/// The value that is kept under a key, lent; nothing is counted.
pub fn kept_value<'a, 'p>(run: &'a Run<'p>, key: &MemoKey) -> &'a Value
    requires { has same_subquery (subquery key.now) (⟦<Run<'p> as Ran>⟧.world run.now).kept ≡ true }
    ensures { Contains (⟦<Run<'p> as Ran>⟧.world run.now).kept (subquery key.now, result.now) }
{
    match &run.memo {
        Some(memo) => match memo.peek(key) {
            Some(value) => value,
            None => unreachable!(),
        },
        None => unreachable!(),
    }
}

/// Keeps a value under a key that was looked up and not found, and counts that.
///
/// # Errors
/// Want of memory; nothing is kept or counted then.
pub fn keep<'p>(run: &mut Run<'p>, key: MemoKey, value: Value) -> Result<(), NoMemory>
    requires { MayKeep (subquery key) value (⟦<Run<'p> as Ran>⟧.world run.old) }
    ensures { Keeps (subquery key) value result (⟦<Run<'p> as Ran>⟧.world run.old) (⟦<Run<'p> as Ran>⟧.world run.new) }
{
    match &mut run.memo {
        Some(memo) => {
            memo.keep(key, value)?;
            run.session.trace.misses = run.session.trace.misses.saturating_add(1);
            Ok(())
        }
        None => unreachable!(),
    }
}

/// Counts an execution of a join that has ended, of whose blocks the greatest had so many rows.
///
/// # Errors
/// Want of memory; nothing is counted then.
pub fn ran<'p>(run: &mut Run<'p>, alloc: Global, entry: JoinRun, peak: u32) -> Result<(), NoMemory>
    requires { IsSomeEntry (⟦<Run<'p> as Ran>⟧.world run.old).settings.block entry peak }
    ensures { TellsEntry entry peak result (⟦<Run<'p> as Ran>⟧.world run.old) (⟦<Run<'p> as Ran>⟧.world run.new) }
{
    let trace = &mut run.session.trace;
    let mut joins = mem::replace(&mut trace.joins, Seq::of(Vec::new(alloc))).into_vec();
    let pushed = joins.push(entry);
    trace.joins = Seq::of(joins);
    match pushed {
        Ok(()) => {
            trace.peak = trace.peak.max(peak);
            Ok(())
        }
        Err(_) => Err(NoMemory),
    }
}
