//! The places that the columns of a statement have in their tables.
ghost use Rattle.std.specs.Prelude.{◌≡◌, IfOk, map};
ghost use Rattle.kl_flat.specs.Held.{labels_in};
ghost use Rattle.kl_sqlserve.specs.Placing.{place_among, place_at, placed_column, placed_right, placed_test};

use crate::placed::{PlacedRight, PlacedTest};
use crate::side::Side;
use kl_base::{Label, NoMemory};
use kl_flat::Column;
use kl_sqltext::{SqlRight, SqlTest};
use kl_value::dup;
use std::alloc::Global;

/// The same columns with their places in the place of their own labels.
///
/// # Errors
/// Want of memory.
pub fn placed_columns(
    alloc: Global,
    sides: &[Side],
    order: &[(Label, (u32, Label))],
) -> Result<Vec<(Label, (u32, usize))>, NoMemory>
    ensures { IfOk result (λ placed. placed.items ≡ map (placed_column sides.now) order.now) }
{
    let mut placed = Vec::with_capacity(alloc, order.len())?;
    for column in order {
        placed.push(placed_column(sides, column)?)?;
    }
    Ok(placed)
}

fn placed_column(
    sides: &[Side],
    column: &(Label, (u32, Label)),
) -> Result<(Label, (u32, usize)), NoMemory>
    ensures { IfOk result (λ placed. placed ≡ placed_column sides.now column.now) }
{
    let label = column.0.dup()?;
    let place = place_of(sides, column.1.0, &column.1.1);
    Ok((label, (column.1.0, place)))
}

/// The same tests with the places of their columns.
///
/// # Errors
/// Want of memory.
pub fn placed_tests(
    alloc: Global,
    sides: &[Side],
    tests: &[SqlTest],
) -> Result<Vec<PlacedTest>, NoMemory>
    ensures { IfOk result (λ placed. placed.items ≡ map (placed_test sides.now) tests.now) }
{
    let mut placed = Vec::with_capacity(alloc, tests.len())?;
    for test in tests {
        placed.push(placed_test(alloc, sides, test)?)?;
    }
    Ok(placed)
}

fn placed_test(alloc: Global, sides: &[Side], test: &SqlTest) -> Result<PlacedTest, NoMemory>
    ensures { IfOk result (λ placed. placed ≡ placed_test sides.now test.now) }
{
    let place = place_of(sides, test.table, &test.column);
    let right = placed_right(alloc, sides, &test.right)?;
    Ok(PlacedTest {
        table: test.table,
        place,
        op: test.op,
        right,
    })
}

fn placed_right(alloc: Global, sides: &[Side], right: &SqlRight) -> Result<PlacedRight, NoMemory>
    ensures { IfOk result (λ placed. placed ≡ placed_right sides.now right.now) }
{
    match right {
        SqlRight::Col(number, column) => {
            let place = place_of(sides, *number, column);
            Ok(PlacedRight::Col(*number, place))
        }
        SqlRight::Lit(value) => Ok(PlacedRight::Lit(dup(alloc, value)?)),
    }
}

// The place of a column in the table of a number, or one behind all columns.
fn place_of(sides: &[Side], number: u32, label: &Label) -> usize
    ensures { result ≡ place_at sides.now number label.now }
{
    match sides.get(number as usize) {
        Some(side) => place_in(side.index.table.get().columns(), label),
        None => 0,
    }
}

fn place_in(columns: &[Column], label: &Label) -> usize
    ensures { result ≡ place_among label.now (labels_in columns.now) }
{
    'columns: for place in 0..columns.len() {
        if *label == columns[place].label {
            return place;
        }
    }
    columns.len()
}
