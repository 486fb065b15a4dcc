//! Which cells the scheme of a type needs.
ghost use Rattle.std.specs.Prelude.{◌≡◌, ◌<◌, ◌||◌, length, IfOk};
ghost use Rattle.kl_rows.specs.Places.{Parts};
ghost use Rattle.kl_rows.specs.Copying.{IsSource, InOrder, kept_in};
ghost use Rattle.kl_rows.specs.Keeping.{Needs, Grows, Sweeps, Turns, KeepsParts, KeepsFields, KeepsOne, tells};
ghost use Rattle.std.specs.List.{AllByRecursion};

use crate::cell::{Cell, KindNode, RowNode, TypeNode};
use crate::copying::is_kept;
use kl_base::{Label, NoMemory};
use std::alloc::Global;

/// The cells that the scheme of a type needs: the type, with each cell its parts, and with a row each variant type over
/// it, since that forbids the row without labels.
pub fn needed(
    alloc: Global,
    cells: &[Cell],
    order: &[usize],
    root: usize,
) -> Result<Vec<bool>, NoMemory>
    requires good { IsSource cells.now }
    requires ordered { InOrder cells.now order.now }
    requires within { root < length cells.now }
    ensures { IfOk result (λ kept. Needs cells.now kept.items root) }
{
    let mut kept = vec![in alloc; false; cells.len()]?;
    keep(&mut kept, root);
    'passes: loop {
        // Wholes stand behind their parts, so this way one pass is enough; the next one finds nothing new.
        sweep_back(cells, order, &mut kept);
        if !sweep(cells, &mut kept) {
            return Ok(kept);
        }
    }
}

fn sweep_back(cells: &[Cell], order: &[usize], kept: &mut Vec<bool>)
    requires good { IsSource cells.now }
    requires ordered { InOrder cells.now order.now }
    requires size { length kept.old.items ≡ length cells.now }
    ensures { Grows kept.old.items kept.new.items }
{
    'back: for k in (0..order.len()).rev() {
        let at = order[k];
        let _turned = turn(&cells[at], at, kept);
    }
}

// Each cell in turn: whether there was something new to keep.
fn sweep(cells: &[Cell], kept: &mut Vec<bool>) -> bool
    requires good { IsSource cells.now }
    requires size { length kept.old.items ≡ length cells.now }
    ensures { Sweeps result cells.now kept.old.items kept.new.items }
{
    let mut any = false;
    'cells: for i in 0..cells.len() {
        let turned = turn(&cells[i], i, kept);
        any = either(any, turned);
    }
    any
}

// What is to be kept with a cell, or the cell with what is kept.
fn turn(cell: &Cell, at: usize, kept: &mut Vec<bool>) -> bool
    requires within { at < length kept.old.items }
    requires parts { Parts cell.now (λ p. p < length kept.old.items) }
    ensures { Turns result cell.now at kept.old.items kept.new.items }
{
    if is_kept(kept, at) {
        keep_parts(cell, kept)
    } else if tells(cell, kept) {
        keep(kept, at)
    } else {
        false
    }
}

// Whether a cell says of a row that is kept that it has a label, or is that row.
fn tells(cell: &Cell, kept: &[bool]) -> bool
    ensures { result ≡ tells cell.now (kept_in kept.now) }
{
    match cell {
        Cell::OfType(TypeNode::Var(r)) => is_kept(kept, *r),
        Cell::OfRow(RowNode::Front(fields, rest)) => match fields.slice() {
            [] => is_kept(kept, *rest),
            _ => false,
        },
        _ => false,
    }
}

fn keep_parts(cell: &Cell, kept: &mut Vec<bool>) -> bool
    requires { Parts cell.now (λ p. p < length kept.old.items) }
    ensures { KeepsParts result cell.now kept.old.items kept.new.items }
{
    match cell {
        Cell::OfType(node) => match node {
            TypeNode::AnyType | TypeNode::Base(_) => false,
            TypeNode::Rec(r) | TypeNode::Var(r) | TypeNode::TypeLink(r) => keep(kept, *r),
            TypeNode::Coll(a, b) => {
                let first = keep(kept, *a);
                let second = keep(kept, *b);
                either(first, second)
            }
        },
        Cell::OfFunction(a, b) => {
            let first = keep(kept, *a);
            let second = keep(kept, *b);
            either(first, second)
        }
        Cell::OfRow(node) => match node {
            RowNode::AnyRow(_) | RowNode::NoRow => false,
            RowNode::Front(fields, rest) => {
                let first = keep_fields(fields.slice(), kept);
                let second = keep(kept, *rest);
                either(first, second)
            }
        },
        Cell::OfKind(node) => match node {
            KindNode::AnyKind | KindNode::Fixed(_) => false,
            KindNode::KindLink(a) => keep(kept, *a),
        },
    }
}

fn keep_fields(fields: &[(Label, usize)], kept: &mut Vec<bool>) -> bool
    requires { AllByRecursion (λ f. f.1 < length kept.old.items) fields.now }
    ensures { KeepsFields result fields.now kept.old.items kept.new.items }
{
    let mut any = false;
    'fields: for field in fields {
        let turned = keep(kept, field.1);
        any = either(any, turned);
    }
    any
}

// Whether it was not kept before.
fn keep(kept: &mut Vec<bool>, at: usize) -> bool
    requires { at < length kept.old.items }
    ensures { KeepsOne result at kept.old.items kept.new.items }
{
    if is_kept(kept, at) {
        return false;
    }
    kept[at] = true;
    true
}

fn either(a: bool, b: bool) -> bool
    ensures { result ≡ (a || b) }
{
    if a { true } else { b }
}
