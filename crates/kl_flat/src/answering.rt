//! The rows that answer an ask.
ghost use Rattle.std.specs.Prelude.{◌≡◌, ℕ, ◌<◌, All, IfOk, MatchOption};
ghost use Rattle.std.specs.List.{list_all};
ghost use Rattle.kl_flat.specs.Answering.{AddsAnswers, Continues};
ghost use Rattle.kl_flat.specs.Asked.{keep_of, tests_of};
ghost use Rattle.kl_flat.specs.ColumnTable.{rows_of};
ghost use Rattle.kl_flat.specs.RowTests.{HasCells, NonePasses, SaySame, passes_at};

use crate::column_table::ColumnTable;
use crate::parts::Open;
use crate::row_tests::RowTest;
use crate::sources::tests_of;
use kl_ask::ColTest;
use kl_base::NoMemory;
use kl_value::Value;
use std::alloc::Global;

/// Adds the next answers of a cursor, at most `most`, at the end of a list, and answers the place behind the last row that was
/// looked at. They go straight there: a list of their own for each pull would be so large a block that the allocator joined
/// all the small ones that rows left behind.
///
/// # Errors
/// Want of memory; some answers may stand at the end of the list then.
pub fn add_answers(
    alloc: Global,
    cursor: &Open,
    most: u32,
    into: &mut Vec<Value>,
) -> Result<usize, NoMemory>
    ensures added { IfOk result (AddsAnswers (rows_of cursor.now.table) cursor.now.at (keep_of cursor.now.ask)
        (tests_of cursor.now.ask) most into.old.items into.new.items) }
    ensures stays { Continues into.old.items into.new.items }
{
    let table = cursor.table.get();
    match row_tests(alloc, table, tests_of(&cursor.ask))? {
        Some(tests) => add_passing(alloc, cursor, &tests, most, into),
        None => Ok(table.len()),
    }
}

// The tests of rows that an ask has. None where one looks at a column that is not there.
fn row_tests<'a>(
    alloc: Global,
    table: &'a ColumnTable,
    tests: &'a [ColTest],
) -> Result<Option<Vec<RowTest<'a>>>, NoMemory>
    ensures { IfOk result (λ found. MatchOption found (NonePasses table.now tests.now) (λ all. SaySame table.now tests.now all.items)) }
{
    let mut found = Vec::with_capacity(alloc, tests.len())?;
    for test in tests {
        let Some(made) = table.test(test) else {
            return Ok(None);
        };
        found.push(made)?;
    }
    Ok(Some(found))
}

// Adds the next answers, which are the rows that pass these tests.
fn add_passing(
    alloc: Global,
    cursor: &Open,
    tests: &[RowTest<'_>],
    most: u32,
    into: &mut Vec<Value>,
) -> Result<usize, NoMemory>
    requires { SaySame cursor.now.table (tests_of cursor.now.ask) tests.now }
    ensures added { IfOk result (AddsAnswers (rows_of cursor.now.table) cursor.now.at (keep_of cursor.now.ask)
        (tests_of cursor.now.ask) most into.old.items into.new.items) }
    ensures stays { Continues into.old.items into.new.items }
{
    let table = cursor.table.get();
    let mut at = cursor.at;
    let mut left = most;
    into.reserve((table.len() - at).min(most as usize))?;
    'rows: while at < table.len() && left > 0 {
        if passes_all(tests, at) {
            let row = table.row(alloc, at, cursor.places.slice())?;
            into.push(row)?;
            left -= 1;
        }
        at += 1;
    }
    Ok(at)
}

fn passes_all(tests: &[RowTest<'_>], at: usize) -> bool
    requires { All (HasCells at) tests.now }
    ensures { result ≡ list_all (λ t. passes_at t at) tests.now }
{
    for test in tests {
        if !test.passes(at) {
            return false;
        }
    }
    true
}
