//! New cells.
ghost use Rattle.std.specs.Prelude.{IfOk};
ghost use Rattle.kl_rows.specs.Places.{IsFine};
ghost use Rattle.kl_rows.specs.Making.{AddsCell, CanMake};
ghost use Rattle.kl_rows.specs.Expanding.{Pushes, Expands, ExpandsRow};
ghost use Rattle.kl_rows.specs.declared.cell.Cell.TheVariants.{OfType};

use crate::cell::{Cell, KindNode, RowNode, Scalar, TypeNode};
use kl_base::{Label, NoMemory, Seq};
use kl_type::Ty;
use std::alloc::Global;

/// One cell more.
pub fn add(cells: &mut Vec<Cell>, cell: Cell) -> Result<usize, NoMemory>
    requires fine { IsFine cells.old.items }
    requires can { CanMake cells.old.items cell }
    ensures { IfOk result (λ i. AddsCell cells.old.items cells.new.items cell i) }
{
    let at = push(cells, cell)?;
    Ok(at)
}

pub fn push(cells: &mut Vec<Cell>, cell: Cell) -> Result<usize, NoMemory>
    ensures { IfOk result (λ at. Pushes cells.old.items cells.new.items cell at) }
{
    let at = cells.len();
    cells.push(cell)?;
    Ok(at)
}

/// The cells of a type without variables. The number is that of the type.
#[cycle(expand)]
pub fn make_type(alloc: Global, t: &Ty, cells: &mut Vec<Cell>) -> Result<usize, NoMemory>
    ensures { IfOk result (λ i. Expands cells.old.items cells.new.items i t.now) }
{
    match t {
        Ty::Bool => {
            let at = push_type(cells, TypeNode::Base(Scalar::Bool))?;
            Ok(at)
        }
        Ty::Int => {
            let at = push_type(cells, TypeNode::Base(Scalar::Int))?;
            Ok(at)
        }
        Ty::Str => {
            let at = push_type(cells, TypeNode::Base(Scalar::Str))?;
            Ok(at)
        }
        Ty::Rec(fields) => {
            let row = make_row(alloc, fields.slice(), cells)?;
            let at = push_type(cells, TypeNode::Rec(row))?;
            Ok(at)
        }
        Ty::Var(fields) => {
            let row = make_row(alloc, fields.slice(), cells)?;
            let at = push_type(cells, TypeNode::Var(row))?;
            Ok(at)
        }
        Ty::Coll(kind, item) => {
            let kind = push(cells, Cell::OfKind(KindNode::Fixed(*kind)))?;
            let item = make_type(alloc, item.get(), cells)?;
            let at = push_type(cells, TypeNode::Coll(kind, item))?;
            Ok(at)
        }
    }
}

fn push_type(cells: &mut Vec<Cell>, node: TypeNode) -> Result<usize, NoMemory>
    ensures { IfOk result (λ at. Pushes cells.old.items cells.new.items (OfType node) at) }
{
    let at = push(cells, Cell::OfType(node))?;
    Ok(at)
}

// The row of these fields: one block before the row without labels.
#[cycle(expand)]
fn make_row(alloc: Global, fields: &[(Label, Ty)], cells: &mut Vec<Cell>) -> Result<usize, NoMemory>
    ensures { IfOk result (λ i. ExpandsRow cells.old.items cells.new.items i fields.now) }
{
    let mut numbers = Vec::new(alloc);
    for field in fields {
        let label = field.0.dup()?;
        let at = make_type(alloc, &field.1, cells)?;
        numbers.push((label, at))?;
    }
    let rest = push(cells, Cell::OfRow(RowNode::NoRow))?;
    let at = push(cells, Cell::OfRow(RowNode::Front(Seq::of(numbers), rest)))?;
    Ok(at)
}
