//! Whether a type is known to be one without variables.
ghost use Rattle.std.specs.Prelude.{◌≡◌, ◌↔◌, IsTrue, IfSome, MatchOption, nat_eq};
ghost use Rattle.std.specs.Cmp.Lexicographic.{pointwise};
ghost use Rattle.std.specs.Option.{option_copied};
ghost use Rattle.kl_rows.specs.Lists.{Fields};
ghost use Rattle.kl_rows.specs.Looking.{EndsAsKind, IsBlock, Knows, KnowsRow, KnowsThere, is_base, is_fixed};
ghost use Rattle.kl_rows.specs.Places.{AreTypes, IsFine, IsKind, IsRowAt, IsType};
ghost use Rattle.kl_rows.specs.declared.cell.KindNode.TheVariants.{Fixed};
ghost use Rattle.kl_rows.specs.declared.cell.RowNode.TheVariants.{NoRow};
ghost use Rattle.kl_rows.specs.Walking.{HasRow};

use crate::cell::{Cell, KindNode, RowNode, Scalar, TypeNode};
use crate::find::{find_kind, kind_at, row_at};
use crate::looking::node;
use kl_base::Label;
use kl_type::Ty;
use kl_value::Kind;

/// Whether the number is a type's that the cells write out as this one, each row as one block of its fields, as `make` makes them.
pub fn knows_there(cells: &[Cell], at: usize, t: &Ty) -> bool
    requires { IsFine cells.now }
    ensures { KnowsThere result cells.now at t.now }
{
    if is_type(cells, at) {
        knows(cells, at, t)
    } else {
        false
    }
}

fn is_type(cells: &[Cell], at: usize) -> bool
    ensures { IsTrue result ↔ IsType cells.now at }
{
    match cells.get(at) {
        Some(Cell::OfType(_)) => true,
        _ => false,
    }
}

#[cycle(knows)]
fn knows(cells: &[Cell], at: usize, t: &Ty) -> bool
    requires fine { IsFine cells.now }
    requires there { IsType cells.now at }
    ensures { Knows result cells.now at t.now }
{
    let known = node(cells, at);
    match t {
        Ty::Bool => is_base(known, Scalar::Bool),
        Ty::Int => is_base(known, Scalar::Int),
        Ty::Str => is_base(known, Scalar::Str),
        Ty::Rec(fields) => match known {
            TypeNode::Rec(row) => knows_row(cells, row, fields.slice()),
            _ => false,
        },
        Ty::Var(fields) => match known {
            TypeNode::Var(row) => knows_row(cells, row, fields.slice()),
            _ => false,
        },
        Ty::Coll(kind, item) => match known {
            TypeNode::Coll(k, i) => {
                if is_kind(cells, k, *kind) {
                    knows(cells, i, item.get())
                } else {
                    false
                }
            }
            _ => false,
        },
    }
}

fn is_base(node: TypeNode, scalar: Scalar) -> bool
    ensures { result ≡ is_base node scalar }
{
    match node {
        TypeNode::Base(known) => known == scalar,
        _ => false,
    }
}

// The kind is known to be this one.
fn is_kind(cells: &[Cell], at: usize, kind: Kind) -> bool
    requires fine { IsFine cells.now }
    requires there { IsKind cells.now at }
    ensures { IsTrue result ↔ EndsAsKind cells.now at (Fixed kind) }
{
    is_fixed(kind_at(cells, find_kind(cells, at)), kind)
}

fn is_fixed(node: KindNode, kind: Kind) -> bool
    ensures { result ≡ is_fixed node kind }
{
    match node {
        KindNode::Fixed(known) => known == kind,
        _ => false,
    }
}

// The row is one block of fields of these types before the row without labels.
#[cycle(knows)]
fn knows_row(cells: &[Cell], row: usize, fields: &[(Label, Ty)]) -> bool
    requires fine { IsFine cells.now }
    requires there { IsRowAt cells.now row }
    ensures { KnowsRow result cells.now row fields.now }
{
    let numbers = match block(cells, row) {
        Some(numbers) => numbers,
        None => return false,
    };
    if numbers.len() != fields.len() {
        return false;
    }
    'fields: for i in 0..fields.len() {
        let number = &numbers[i];
        let field = &fields[i];
        if !are_alike(&number.0, &field.0) {
            return false;
        }
        if !knows(cells, number.1, &field.1) {
            return false;
        }
    }
    true
}

fn are_alike(first: &Label, second: &Label) -> bool
    ensures { result ≡ pointwise nat_eq first.now second.now }
{
    *first == *second
}

// The fields of a row that is one block before the row without labels.
fn block(cells: &[Cell], row: usize) -> Option<&[(Label, usize)]>
    requires fine { IsFine cells.now }
    requires there { IsRowAt cells.now row }
    ensures types { IfSome (option_copied result) (AreTypes cells.now) }
    ensures exact { MatchOption (option_copied result) ((fields : Fields) → IsBlock cells.now row fields → ⊥) (IsBlock cells.now row) }
{
    match row_at(cells, row) {
        RowNode::Front(numbers, rest) if is_bare(cells, *rest) => Some(numbers.slice()),
        _ => None,
    }
}

fn is_bare(cells: &[Cell], row: usize) -> bool
    ensures { IsTrue result ↔ HasRow cells.now row NoRow }
{
    match cells.get(row) {
        Some(Cell::OfRow(RowNode::NoRow)) => true,
        _ => false,
    }
}
