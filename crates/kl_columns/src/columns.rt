//! Types of tables.
ghost use Rattle.std.specs.Prelude.{◌≡◌, false, IfOk};
ghost use Rattle.kl_ask.specs.Tables.{columns_of};
ghost use Rattle.kl_sqlserve.specs.Server.{is_list};
ghost use Rattle.kl_columns.specs.Headers.{rising, text_columns};
ghost use Rattle.kl_columns.specs.Narrowing.{narrow_columns};

use crate::narrowing::narrowest;
use kl_base::{Box, Label, NoMemory, Seq};
use kl_flat::ColumnTable;
use kl_type::Ty;
use kl_value::Kind;
use std::alloc::Global;
use std::collections::BTreeSet;

/// The type of a bag of records whose fields are texts.
///
/// # Errors
/// Want of memory.
pub fn of_texts(alloc: Global, labels: &[Label]) -> Result<Ty, NoMemory>
    ensures { IfOk result (λ ty. columns_of ty ≡ text_columns (rising labels.now)) }
{
    let rising = in_order(alloc, labels)?;
    let mut fields = Vec::with_capacity(alloc, rising.len())?;
    for label in &rising {
        fields.push((label.dup()?, Ty::Str))?;
    }
    bag_of(alloc, fields)
}

// The labels in their order.
fn in_order(alloc: Global, labels: &[Label]) -> Result<Vec<Label>, NoMemory>
    ensures { IfOk result (λ found. found.items ≡ rising labels.now) }
{
    let mut found = BTreeSet::new(alloc);
    for label in labels {
        found.insert(label.dup()?)?;
    }
    Ok(found.into_iter().collect(alloc)?)
}

/// The type of a table of texts with the narrowest type of each column.
///
/// # Errors
/// Want of memory.
pub fn narrowed(alloc: Global, table: &ColumnTable) -> Result<Ty, NoMemory>
    ensures columns { IfOk result (λ ty. columns_of ty ≡ narrow_columns table.now) }
    ensures unordered { IfOk result (λ ty. is_list ty ≡ false) }
{
    let columns = table.columns();
    let mut fields = Vec::with_capacity(alloc, columns.len())?;
    for column in columns {
        let label = column.label.dup()?;
        fields.push((label, narrowest(&column.cells, table.len())))?;
    }
    bag_of(alloc, fields)
}

fn bag_of(alloc: Global, fields: Vec<(Label, Ty)>) -> Result<Ty, NoMemory>
    ensures columns { IfOk result (λ ty. columns_of ty ≡ fields.items) }
    ensures unordered { IfOk result (λ ty. is_list ty ≡ false) }
{
    let row = Box::new(alloc, Ty::Rec(Seq::of(fields)))?;
    Ok(Ty::Coll(Kind::Bag, row))
}
