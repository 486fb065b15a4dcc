//! What is known of a type, and of a label in a row.
ghost use Rattle.kl_rows.specs.Places.{IsFine, IsType, IsRowAt};
ghost use Rattle.kl_rows.specs.Looking.{KnownAs, Spots};

use crate::cell::{Cell, RowNode, TypeNode};
use crate::fields::look;
use crate::find::{find_type, row_at, type_at};
use kl_base::Label;

/// Where a row has a label, as far as the row is known.
#[derive(Clone, Copy)]
pub enum Spot {
    /// It has it, and its type there is this one.
    At(u64),
    /// It has it where this row has it.
    Behind(u64),
}

/// What is known of a type: what its cell says at the end of its links.
pub fn node(cells: &[Cell], at: usize) -> TypeNode
    requires fine { IsFine cells.now }
    requires there { IsType cells.now at }
    ensures { KnownAs cells.now at result }
{
    let root = find_type(cells, at);
    type_at(cells, root)
}

/// Where a row has a label: at the first field of that label on the way to its end, or where the end has it.
pub fn spot_of(cells: &[Cell], row: usize, label: &Label) -> Spot
    requires fine { IsFine cells.now }
    requires there { IsRowAt cells.now row }
    ensures { Spots result cells.now row label.now }
{
    let mut end = row;
    // A walk has fewer steps than there are cells.
    'steps: for step in 0..cells.len() {
        match row_at(cells, end) {
            RowNode::Front(fields, rest) => match look(fields.slice(), label) {
                Some(number) => return Spot::At(number as u64),
                None => end = *rest,
            },
            _ => return Spot::Behind(end as u64),
        }
    }
    Spot::Behind(end as u64)
}
