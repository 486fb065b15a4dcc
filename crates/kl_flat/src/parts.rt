//! The parts of a driver: attached sources and open cursors.
ghost use Rattle.std.specs.Prelude.{◌≡◌, ◌≤◌, ◌<◌, ◌^◌, length, true};
ghost use Rattle.kl_flat.specs.Asked.{keep_of, kept_places};
ghost use Rattle.kl_flat.specs.ColumnTable.{rows_of};
ghost use Rattle.kl_flat.specs.Fitting.{are_rows};
ghost use Rattle.kl_flat.specs.Held.{labels_in};

use crate::column_table::ColumnTable;
use kl_ask::Ask;
use kl_base::{Label, Seq, Shared};
use kl_type::Ty;

/// An attached source. Its type and its table are shared with the cursors over it.
#[derive(Drop)]
pub struct Source {
    pub name: Label,
    pub ty: Shared<Ty>,
    pub table: Shared<ColumnTable>,
    ghost small: { length (rows_of table) < 2 ^ 64 },
    ghost typed: { are_rows ty (rows_of table) ≡ true },
}

/// An open cursor: its ask, the type and the table of its source, the places of the kept columns, and the first row that
/// it has not looked at.
#[derive(Drop)]
pub struct Open {
    pub ask: Ask,
    pub ty: Shared<Ty>,
    pub table: Shared<ColumnTable>,
    pub places: Seq<usize>,
    pub at: usize,
    ghost within: { at ≤ length (rows_of table) },
    ghost small: { length (rows_of table) < 2 ^ 64 },
    ghost typed: { are_rows ty (rows_of table) ≡ true },
    ghost placed: { places ≡ kept_places (keep_of ask) 0 (labels_in table.columns.items) },
}
