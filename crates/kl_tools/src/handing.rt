//! The rows that a cursor hands.
ghost use Rattle.std.specs.Prelude.{◌≡◌, ◌≤◌, ◌+◌, IfOk, OnErr};
ghost use Rattle.kl_tools.specs.Cursors.{HandsNext};
ghost use Rattle.kl_tools.specs.Made.{rows_from};

use crate::parts::{Open, Source};
use crate::rows::made_row;
use kl_ask::columns_of;
use kl_base::NoMemory;
use kl_value::Value;
use std::alloc::Global;

/// Appends the next rows of a cursor, which then stands behind them, and says how many.
///
/// # Errors
/// Want of memory; no row is appended then.
pub fn hand_next(
    alloc: Global,
    cursor: &mut Open,
    most: u32,
    into: &mut Vec<Value>,
) -> Result<u64, NoMemory>
    ensures handed { IfOk result (HandsNext most into.old.items into.new.items cursor.old cursor.new) }
    ensures refused { OnErr result (into.new.items ≡ into.old.items) }
{
    let left = cursor.source.rows - cursor.at;
    let count = left.min(u64::from(most));
    let mut rows = made_rows(alloc, &cursor.source, cursor.at, count)?;
    into.append(&mut rows)?;
    cursor.at += count;
    Ok(count)
}

// So many rows of a source, from this one on.
fn made_rows(alloc: Global, source: &Source, from: u64, count: u64) -> Result<Vec<Value>, NoMemory>
    requires { from + count ≤ source.now.rows }
    ensures { IfOk result (λ rows. rows.items ≡ rows_from source.now.seed from count) }
{
    let columns = columns_of(source.ty.get());
    let mut rows = Vec::with_capacity(alloc, count as usize)?;
    'numbers: for number in from..from + count {
        rows.push(made_row(alloc, columns, source.seed, number)?)?;
    }
    Ok(rows)
}
