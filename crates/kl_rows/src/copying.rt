//! Cells copied in an order in which parts stand before wholes.
ghost use Rattle.std.specs.Prelude.{◌≡◌, IfOk, slice_index};
ghost use Rattle.kl_rows.specs.declared.cell.Cell.TheVariants.{OfType, OfFunction, OfRow, OfKind};
ghost use Rattle.kl_rows.specs.declared.cell.RowNode.TheVariants.{Front};
ghost use Rattle.kl_rows.specs.Places.{IsFine};
ghost use Rattle.kl_rows.specs.Making.{CanMake};
ghost use Rattle.kl_rows.specs.Copying.{renamed, renamed_type, renamed_row, renamed_kind, renamed_fields, number_in, kept_in};
ghost use Rattle.kl_rows.specs.Copying.{IsSource, InOrder};
ghost use Rattle.kl_rows.specs.Copying.{IsClosed, Takes, Copies};

use crate::cell::{Cell, KindNode, RowNode, TypeNode};
use crate::fields::add_labels;
use crate::fresh::push;
use kl_base::{Label, NoMemory, Seq};
use std::alloc::Global;

/// Copies the cells that are kept, in this order, and answers the numbers of the copies. Links are followed, and a
/// block of fields becomes one row for each field.
pub fn copy(
    alloc: Global,
    source: &[Cell],
    order: &[usize],
    kept: &[bool],
    target: &mut Vec<Cell>,
) -> Result<Vec<usize>, NoMemory>
    requires fine { IsFine target.old.items }
    requires good { IsSource source.now }
    requires ordered { InOrder source.now order.now }
    requires closed { IsClosed source.now kept.now }
    ensures { IfOk result (λ numbers. Copies kept.now source.now target.old.items target.new.items numbers.items) }
{
    let mut numbers = vec![in alloc; 0usize; source.len()]?;
    'order: for at in order {
        if is_kept(kept, *at) {
            let number = copy_cell(alloc, &source[*at], &numbers, target)?;
            numbers[*at] = number;
        }
    }
    Ok(numbers)
}

pub fn is_kept(kept: &[bool], at: usize) -> bool
    ensures { result ≡ kept_in kept.now at }
{
    match kept.get(at) {
        Some(is) => *is,
        None => false,
    }
}

/// The number under which a cell stands now.
pub fn number(numbers: &[usize], at: usize) -> usize
    ensures { result ≡ number_in numbers.now at }
{
    match numbers.get(at) {
        Some(number) => *number,
        None => 0,
    }
}

fn copy_cell(
    alloc: Global,
    cell: &Cell,
    numbers: &[usize],
    target: &mut Vec<Cell>,
) -> Result<usize, NoMemory>
    requires fine { IsFine target.old.items }
    requires can { CanMake target.old.items (renamed (number_in numbers.now) cell.now) }
    ensures { IfOk result (λ p. Takes target.old.items target.new.items (renamed (number_in numbers.now) cell.now) p) }
{
    match cell {
        Cell::OfType(node) => {
            let at = copy_type(renamed_type(*node, numbers), target)?;
            Ok(at)
        }
        Cell::OfFunction(from, to) => {
            let at = copy_function(number(numbers, *from), number(numbers, *to), target)?;
            Ok(at)
        }
        Cell::OfRow(node) => {
            let node = renamed_row(alloc, node, numbers)?;
            let at = copy_row(alloc, node, target)?;
            Ok(at)
        }
        Cell::OfKind(node) => {
            let at = copy_kind(renamed_kind(*node, numbers), target)?;
            Ok(at)
        }
    }
}

fn copy_type(node: TypeNode, target: &mut Vec<Cell>) -> Result<usize, NoMemory>
    requires fine { IsFine target.old.items }
    requires can { CanMake target.old.items (OfType node) }
    ensures { IfOk result (λ p. Takes target.old.items target.new.items (OfType node) p) }
{
    if let TypeNode::TypeLink(at) = node {
        return Ok(at);
    }
    let at = push(target, Cell::OfType(node))?;
    Ok(at)
}

fn copy_function(from: usize, to: usize, target: &mut Vec<Cell>) -> Result<usize, NoMemory>
    requires fine { IsFine target.old.items }
    requires can { CanMake target.old.items (OfFunction from to) }
    ensures { IfOk result (λ p. Takes target.old.items target.new.items (OfFunction from to) p) }
{
    let at = push(target, Cell::OfFunction(from, to))?;
    Ok(at)
}

fn copy_kind(node: KindNode, target: &mut Vec<Cell>) -> Result<usize, NoMemory>
    requires fine { IsFine target.old.items }
    requires can { CanMake target.old.items (OfKind node) }
    ensures { IfOk result (λ p. Takes target.old.items target.new.items (OfKind node) p) }
{
    if let KindNode::KindLink(at) = node {
        return Ok(at);
    }
    let at = push(target, Cell::OfKind(node))?;
    Ok(at)
}

fn copy_row(alloc: Global, node: RowNode, target: &mut Vec<Cell>) -> Result<usize, NoMemory>
    requires fine { IsFine target.old.items }
    requires can { CanMake target.old.items (OfRow node) }
    ensures { IfOk result (λ p. Takes target.old.items target.new.items (OfRow node) p) }
{
    match node {
        RowNode::AnyRow(labels) => {
            let at = push(target, Cell::OfRow(RowNode::AnyRow(labels)))?;
            Ok(at)
        }
        RowNode::NoRow => {
            let at = push(target, Cell::OfRow(RowNode::NoRow))?;
            Ok(at)
        }
        RowNode::Front(fields, rest) => {
            let at = copy_fields(alloc, fields.into_vec(), rest, target)?;
            Ok(at)
        }
    }
}

// One row for each field, the last field first.
fn copy_fields(
    alloc: Global,
    fields: Vec<(Label, usize)>,
    rest: usize,
    target: &mut Vec<Cell>,
) -> Result<usize, NoMemory>
    requires fine { IsFine target.old.items }
    requires can { CanMake target.old.items (OfRow (Front fields.items rest)) }
    ensures { IfOk result (λ p. Takes target.old.items target.new.items (OfRow (Front fields.items rest)) p) }
{
    let mut left = fields;
    let mut at = rest;
    'fields: while let Some(field) = left.pop() {
        let block = vec![in alloc; field]?;
        at = push(target, Cell::OfRow(RowNode::Front(Seq::of(block), at)))?;
    }
    Ok(at)
}

fn renamed_type(node: TypeNode, numbers: &[usize]) -> TypeNode
    ensures { result ≡ renamed_type (number_in numbers.now) node }
{
    match node {
        TypeNode::AnyType => TypeNode::AnyType,
        TypeNode::Base(scalar) => TypeNode::Base(scalar),
        TypeNode::Rec(r) => TypeNode::Rec(number(numbers, r)),
        TypeNode::Var(r) => TypeNode::Var(number(numbers, r)),
        TypeNode::Coll(k, t) => TypeNode::Coll(number(numbers, k), number(numbers, t)),
        TypeNode::TypeLink(a) => TypeNode::TypeLink(number(numbers, a)),
    }
}

fn renamed_kind(node: KindNode, numbers: &[usize]) -> KindNode
    ensures { result ≡ renamed_kind (number_in numbers.now) node }
{
    match node {
        KindNode::AnyKind => KindNode::AnyKind,
        KindNode::Fixed(kind) => KindNode::Fixed(kind),
        KindNode::KindLink(a) => KindNode::KindLink(number(numbers, a)),
    }
}

fn renamed_row(alloc: Global, node: &RowNode, numbers: &[usize]) -> Result<RowNode, NoMemory>
    ensures { IfOk result (λ copy. copy ≡ renamed_row (number_in numbers.now) node.now) }
{
    match node {
        RowNode::AnyRow(labels) => {
            let mut lacks = Vec::new(alloc);
            add_labels(&mut lacks, labels.slice())?;
            Ok(RowNode::AnyRow(Seq::of(lacks)))
        }
        RowNode::NoRow => Ok(RowNode::NoRow),
        RowNode::Front(fields, rest) => {
            let fields = renamed_fields(alloc, fields.slice(), numbers)?;
            Ok(RowNode::Front(Seq::of(fields), number(numbers, *rest)))
        }
    }
}

fn renamed_fields(
    alloc: Global,
    fields: &[(Label, usize)],
    numbers: &[usize],
) -> Result<Vec<(Label, usize)>, NoMemory>
    ensures { IfOk result (λ fs. fs.items ≡ renamed_fields (number_in numbers.now) fields.now) }
{
    let mut more = Vec::new(alloc);
    for field in fields {
        more.push((field.0.dup()?, number(numbers, field.1)))?;
    }
    Ok(more)
}
