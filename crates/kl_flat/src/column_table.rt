//! Tables in columns.
ghost use Rattle.std.specs.Prelude.{◌≤◌, ◌<◌, ◌≡◌, All, IfOk, length};
ghost use Rattle.kl_ask.specs.Asks.{is_kept};
ghost use Rattle.kl_flat.specs.Held.{height};
ghost use Rattle.kl_flat.specs.Picking.{PicksRows};

use crate::held::{Cells, Column};
use crate::row_tests::{Against, RowTest};
use kl_ask::{ColTest, Right};
use kl_base::{Label, NoMemory, Seq};
use kl_value::Value;
use std::alloc::Global;

/// A table that is held in columns: integers, truth values and the bytes of texts each in one list. It means the list of
/// its rows, which are made one by one where they are asked for.
#[derive(Drop)]
pub struct ColumnTable {
    columns: Vec<Column>,
    len: usize,
    ghost filled: { All (λ c. len ≤ height c.cells) columns.items },
}

impl ColumnTable {
    ghost use Rattle.std.specs.Prelude.{◌≡◌, ◌<◌, ◌∷◌, [], length, map, IfOk, MatchOption};
    ghost use Rattle.kl_flat.specs.Asked.{kept_places};
    ghost use Rattle.kl_flat.specs.ColumnTable.{IsColumn, IsRow, IsShown, LacksColumn, rows_of};
    ghost use Rattle.kl_flat.specs.Held.{labels_in, row_at};
    ghost use Rattle.kl_flat.specs.RowTests.{NonePasses, SaySame};

    /// The table of the first rows of these columns.
    pub(crate) fn of(columns: Vec<Column>, len: usize) -> ColumnTable
        requires { All (λ c. len ≤ height c.cells) columns.items }
        ensures columns { result.columns.items ≡ columns.items }
        ensures len { result.len ≡ len }
    {
        ColumnTable { columns, len }
    }

    /// How many rows there are.
    pub fn len(&self) -> usize
        ensures { result ≡ length (rows_of self.now) }
    {
        self.len
    }

    /// The columns, in the order of the type.
    pub fn columns(&self) -> &[Column]
        ensures { result.now ≡ self.now.columns.items }
    {
        self.columns.as_slice()
    }

    /// The places of the columns that are kept.
    ///
    /// # Errors
    /// Want of memory.
    pub fn places(&self, alloc: Global, keep: &[Label]) -> Result<Vec<usize>, NoMemory>
        ensures { IfOk result (λ places. places.items ≡ kept_places keep.now 0 (labels_in self.now.columns.items)) }
    {
        let columns = self.columns.as_slice();
        let mut places = Vec::with_capacity(alloc, keep.len())?;
        'columns: for place in 0..columns.len() {
            if is_kept(keep, &columns[place].label) {
                places.push(place)?;
            }
        }
        Ok(places)
    }

    /// The column with a label.
    pub fn column(&self, label: &Label) -> Option<&Cells>
        ensures { MatchOption result (LacksColumn self.now label.now) (λ cells. IsColumn self.now label.now cells.now) }
    {
        for column in &self.columns {
            if *label == column.label {
                return Some(&column.cells);
            }
        }
        None
    }

    /// A test of rows, which looks at their columns. None where one is not there, so that no row passes.
    pub fn test<'a>(&'a self, test: &'a ColTest) -> Option<RowTest<'a>>
        ensures { MatchOption result (NonePasses self.now (test.now ∷ [])) (λ found. SaySame self.now (test.now ∷ []) (found ∷ [])) }
    {
        let left = self.column(&test.left)?;
        let right = match &test.right {
            Right::Col(label) => Against::Cells(self.column(label)?),
            Right::Const(value) => Against::Value(value),
        };
        Some(RowTest {
            left,
            op: test.op,
            right,
        })
    }

    /// The row of a number, with the columns at these places alone.
    ///
    /// # Errors
    /// Want of memory.
    pub fn row(&self, alloc: Global, at: usize, places: &[usize]) -> Result<Value, NoMemory>
        requires row { at < length (rows_of self.now) }
        requires places { All (λ p. p < length self.now.columns.items) places.now }
        ensures { IfOk result (IsShown self.now at places.now) }
    {
        let columns = self.columns.as_slice();
        let mut fields = Vec::with_capacity(alloc, places.len())?;
        for place in places {
            let column = &columns[*place];
            let label = column.label.dup()?;
            fields.push((label, column.cells.value(alloc, at)?))?;
        }
        Ok(Value::Rec(Seq::of(fields)))
    }

    /// The table of the rows of these numbers, in this order.
    ///
    /// # Errors
    /// Want of memory.
    pub fn picked(&self, alloc: Global, places: &[usize]) -> Result<ColumnTable, NoMemory>
        requires { All (λ p. p < length (rows_of self.now)) places.now }
        ensures { IfOk result (λ t. rows_of t ≡ map (row_at self.now.columns.items) places.now) }
    {
        let columns = picked_columns(alloc, self.columns.as_slice(), places)?;
        Ok(ColumnTable {
            columns,
            len: places.len(),
        })
    }

    /// The row of a number, whole.
    ///
    /// # Errors
    /// Want of memory.
    pub fn whole_row(&self, alloc: Global, at: usize) -> Result<Value, NoMemory>
        requires { at < length (rows_of self.now) }
        ensures { IfOk result (IsRow self.now at) }
    {
        let columns = self.columns.as_slice();
        let mut fields = Vec::with_capacity(alloc, columns.len())?;
        for column in columns {
            let label = column.label.dup()?;
            fields.push((label, column.cells.value(alloc, at)?))?;
        }
        Ok(Value::Rec(Seq::of(fields)))
    }
}

fn picked_columns(
    alloc: Global,
    columns: &[Column],
    places: &[usize],
) -> Result<Vec<Column>, NoMemory>
    requires { All (λ c. All (λ p. p < height c.cells) places.now) columns.now }
    ensures filled { IfOk result (λ picked. All (λ c. length places.now ≤ height c.cells) picked.items) }
    ensures rows { IfOk result (λ picked. PicksRows places.now columns.now picked.items) }
{
    let mut picked = Vec::with_capacity(alloc, columns.len())?;
    for column in columns {
        let label = column.label.dup()?;
        let cells = column.cells.picked(alloc, places)?;
        picked.push(Column { label, cells })?;
    }
    Ok(picked)
}

fn is_kept(keep: &[Label], label: &Label) -> bool
    ensures { result ≡ is_kept keep.now label.now }
{
    for kept in keep {
        if kept == label {
            return true;
        }
    }
    false
}
