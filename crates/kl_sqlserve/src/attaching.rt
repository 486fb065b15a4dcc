//! Sources that are attached.
ghost use Rattle.std.specs.Prelude.{◌≡◌, ◌<◌, All, IfOk, OnErr, length, map, true};
ghost use Rattle.std.specs.HashMap.{IsUnchanged};
ghost use Rattle.kl_flat.specs.ColumnTable.{rows_of};
ghost use Rattle.kl_flat.specs.Fitting.{are_rows};
ghost use Rattle.kl_flat.specs.Held.{row_at};
ghost use Rattle.kl_sqltext.specs.Meaning.{without_repeats};
ghost use Rattle.kl_sqlserve.specs.Attaching.{AddsTable};
ghost use Rattle.kl_sqlserve.specs.Server.{is_set, kept_rows};

use crate::seen::takes_new;
use kl_base::{Label, NoMemory};
use kl_flat::{ColumnTable, Source, new_source, put_source};
use kl_type::Ty;
use kl_value::Kind;
use std::alloc::Global;
use std::collections::{HashMap, HashSet};

/// Attaches a table under a name, of a set the first of equal rows alone, and says how many rows it has.
///
/// # Errors
/// Want of memory; nothing is attached then.
pub fn add_source(
    alloc: Global,
    sources: &mut HashMap<Label, Source>,
    name: &Label,
    ty: &Ty,
    table: ColumnTable,
) -> Result<u64, NoMemory>
    requires { are_rows ty.now (rows_of table) ≡ true }
    ensures added { IfOk result (AddsTable name.now ty.now (rows_of table) sources.old sources.new) }
    ensures refused { OnErr result (IsUnchanged sources.old sources.new) }
{
    let table = kept_table(alloc, ty, table)?;
    let count = table.len() as u64;
    let made = new_source(alloc, name, ty, table)?;
    put_source(sources, name, made)?;
    Ok(count)
}

// The table itself, or, of a set, with the first of equal rows alone.
fn kept_table(alloc: Global, ty: &Ty, table: ColumnTable) -> Result<ColumnTable, NoMemory>
    ensures { IfOk result (λ t. rows_of t ≡ kept_rows ty.now (rows_of table)) }
{
    if is_set(ty) {
        distinct_rows(alloc, &table)
    } else {
        Ok(table)
    }
}

fn is_set(ty: &Ty) -> bool
    ensures { result ≡ is_set ty.now }
{
    matches!(ty, Ty::Coll(Kind::Set, _))
}

// The rows that are equal to none before.
fn distinct_rows(alloc: Global, table: &ColumnTable) -> Result<ColumnTable, NoMemory>
    ensures { IfOk result (λ t. rows_of t ≡ without_repeats (rows_of table.now)) }
{
    let places = first_places(alloc, table)?;
    table.picked(alloc, &places)
}

// The numbers of these rows.
fn first_places(alloc: Global, table: &ColumnTable) -> Result<Vec<usize>, NoMemory>
    ensures there { IfOk result (λ places. All (λ p. p < length (rows_of table.now)) places.items) }
    ensures first { IfOk result (λ places. map (row_at table.now.columns.items) places.items ≡ without_repeats (rows_of table.now)) }
{
    let mut seen = HashSet::new(alloc);
    let mut places = Vec::new(alloc);
    'rows: for at in 0..table.len() {
        let row = table.whole_row(alloc, at)?;
        if takes_new(&mut seen, row)? {
            places.push(at)?;
        }
    }
    Ok(places)
}
