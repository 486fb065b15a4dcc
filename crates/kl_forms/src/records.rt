//! Records and variants.
ghost use Rattle.std.specs.Prelude.{◌≡◌, ℕ, IfOk, List, IsSome, map, true};
ghost use Rattle.kl_base.specs.Fields.{bytes_cmp, field};
ghost use Rattle.kl_base.specs.Sorted.{IsRising};
ghost use Rattle.kl_rows.specs.Making.{AddsCell};
ghost use Rattle.kl_rows.specs.Places.{IsFine, IsType, IsRowAt, AreTypes, Lacks};
ghost use Rattle.kl_rows.specs.declared.cell.Cell.TheVariants.{OfRow};
ghost use Rattle.kl_forms.specs.Checks.{Checks, Finds};
ghost use Rattle.kl_forms.specs.Forms.{FieldOf, VariantOf, HasFields, InRow, IsRecord, IsVariant, RestOf};
ghost use Rattle.kl_forms.specs.Rows.{FindsBefore, FindsRow, end_node, next};

use crate::types::same;
use kl_base::{Label, NoMemory, labels_of};
use kl_rows::{Node, Spot, TypeNode, Unifier};
use std::alloc::Global;

// The first number, if it stands at the label.
fn next(fields: &[(Label, u64)], label: &Label) -> Option<u64>
    ensures { result ≡ next label.now fields.now }
{
    match fields {
        [field, ..] if *label == field.0 => Some(field.1),
        _ => None,
    }
}

// What stands behind the fields of a row: nothing, or if it is open others.
fn end_of(u: &mut Unifier, fields: &[(Label, u64)], is_open: bool) -> Result<u64, NoMemory>
    requires fine { IsFine u.old.cells.items }
    ensures { IfOk result (λ row. AddsCell u.old.cells.items u.new.cells.items (OfRow (end_node is_open fields.now)) row) }
{
    if is_open {
        let labels = labels_of(u.alloc, fields)?;
        let row = u.fresh_row(&labels)?;
        return Ok(row);
    }
    let row = u.make(Node::EmptyRow)?;
    Ok(row)
}

// A row with these fields, which are sorted, before a row that lacks their labels. None where the types that stand at one
// label can't be one.
fn row_before(u: &mut Unifier, fields: &[(Label, u64)], end: u64) -> Result<Option<u64>, NoMemory>
    requires fine { IsFine u.old.cells.items }
    requires fields_there { AreTypes u.old.cells.items fields.now }
    requires rise { IsRising (λ f g. bytes_cmp f.0 g.0) fields.now }
    requires end_there { IsRowAt u.old.cells.items end }
    requires lacks { (l : List ℕ) → IsSome (field l fields.now) → Lacks u.old.cells.items l end }
    ensures { IfOk result (λ found. FindsBefore found u.old.cells.items u.new.cells.items end fields.now) }
{
    let mut row = end;
    'fields: for i in (0..fields.len()).rev() {
        let field = &fields[i];
        match next(&fields[i + 1..], &field.0) {
            Some(later) => {
                let holds = same(u, field.1, later)?;
                if !holds {
                    return Ok(None);
                }
            }
            None => {
                let label = field.0.dup()?;
                row = u.make(Node::Row(label, field.1, row))?;
            }
        }
    }
    Ok(Some(row))
}

// A row with these fields, which are sorted, and if it is open others; and what stands behind the fields. None where the
// types that stand at one label can't be one.
fn sorted_row(
    u: &mut Unifier,
    fields: &[(Label, u64)],
    is_open: bool,
) -> Result<Option<(u64, u64)>, NoMemory>
    requires fine { IsFine u.old.cells.items }
    requires fields_there { AreTypes u.old.cells.items fields.now }
    requires rise { IsRising (λ f g. bytes_cmp f.0 g.0) fields.now }
    ensures { IfOk result (λ found. FindsRow found u.old.cells.items u.new.cells.items is_open fields.now) }
{
    let end = end_of(u, fields, is_open)?;
    match row_before(u, fields, end)? {
        None => Ok(None),
        Some(row) => Ok(Some((row, end))),
    }
}

// The same of fields in any order.
fn row_of(
    u: &mut Unifier,
    fields: Vec<(Label, u64)>,
    is_open: bool,
) -> Result<Option<(u64, u64)>, NoMemory>
    requires fine { IsFine u.old.cells.items }
    requires fields_there { AreTypes u.old.cells.items fields.items }
    ensures { IfOk result (λ found. FindsRow found u.old.cells.items u.new.cells.items is_open fields.items) }
{
    let mut fields = fields;
    fields.sort_by(|f, g| f.0.cmp(&g.0))?;
    let found = sorted_row(u, &fields, is_open)?;
    Ok(found)
}

/// Whether the type can be a record with these labels and types and, if it is open, others. A label may stand twice;
/// then its types are one.
pub fn is_record(
    u: &mut Unifier,
    fields: Vec<(Label, u64)>,
    is_open: bool,
    want: u64,
) -> Result<bool, NoMemory>
    requires fine { IsFine u.old.cells.items }
    requires there { IsType u.old.cells.items want }
    requires fields_there { AreTypes u.old.cells.items fields.items }
    ensures { IfOk result (λ holds. Checks holds u.old.cells.items u.new.cells.items (IsRecord is_open fields.items want)) }
{
    match row_of(u, fields, is_open)? {
        None => Ok(false),
        Some((row, _)) => {
            let all = u.make(Node::Rec(row))?;
            let holds = same(u, all, want)?;
            Ok(holds)
        }
    }
}

/// The type of the record that has the other fields of a record with these labels and types. None where the type can be
/// that of no such record. A label may stand twice; then its types are one.
pub fn rest_of(
    u: &mut Unifier,
    fields: Vec<(Label, u64)>,
    want: u64,
) -> Result<Option<u64>, NoMemory>
    requires fine { IsFine u.old.cells.items }
    requires there { IsType u.old.cells.items want }
    requires fields_there { AreTypes u.old.cells.items fields.items }
    ensures { IfOk result (λ found. Finds found u.old.cells.items u.new.cells.items (RestOf fields.items want)) }
{
    match row_of(u, fields, true)? {
        None => Ok(None),
        Some((row, others)) => {
            let all = u.make(Node::Rec(row))?;
            let holds = same(u, all, want)?;
            if !holds {
                return Ok(None);
            }
            let rest = u.make(Node::Rec(others))?;
            Ok(Some(rest))
        }
    }
}

/// Whether the type can be a variant with these labels and types and, if it is open, others. A label may stand twice;
/// then its types are one.
pub fn is_variant(
    u: &mut Unifier,
    fields: Vec<(Label, u64)>,
    is_open: bool,
    want: u64,
) -> Result<bool, NoMemory>
    requires fine { IsFine u.old.cells.items }
    requires there { IsType u.old.cells.items want }
    requires fields_there { AreTypes u.old.cells.items fields.items }
    ensures { IfOk result (λ holds. Checks holds u.old.cells.items u.new.cells.items (IsVariant is_open fields.items want)) }
{
    match row_of(u, fields, is_open)? {
        None => Ok(false),
        Some((row, _)) => {
            let all = u.make(Node::Var(row))?;
            let holds = same(u, all, want)?;
            Ok(holds)
        }
    }
}

// What a row has at the label. None where it can have none. What is known of the row is not said anew.
fn in_row(u: &mut Unifier, label: &Label, row: u64) -> Result<Option<u64>, NoMemory>
    requires fine { IsFine u.old.cells.items }
    requires there { IsRowAt u.old.cells.items row }
    ensures { IfOk result (λ found. Finds found u.old.cells.items u.new.cells.items (InRow label.now row)) }
{
    match u.spot(row, label) {
        Spot::At(item) => Ok(Some(item)),
        Spot::Behind(end) => {
            let found = at_end(u, label, end)?;
            Ok(found)
        }
    }
}

// The same of a row that is not known to have the label.
fn at_end(u: &mut Unifier, label: &Label, end: u64) -> Result<Option<u64>, NoMemory>
    requires fine { IsFine u.old.cells.items }
    requires there { IsRowAt u.old.cells.items end }
    ensures { IfOk result (λ found. Finds found u.old.cells.items u.new.cells.items (InRow label.now end)) }
{
    let item = u.fresh_type()?;
    let fields = vec![in u.alloc; (label.dup()?, item)]?;
    let holds = has_fields(u, fields, end)?;
    if !holds {
        return Ok(None);
    }
    Ok(Some(item))
}

// Whether a row can have these fields, and others.
fn has_fields(u: &mut Unifier, fields: Vec<(Label, u64)>, end: u64) -> Result<bool, NoMemory>
    requires fine { IsFine u.old.cells.items }
    requires there { IsRowAt u.old.cells.items end }
    requires fields_there { AreTypes u.old.cells.items fields.items }
    ensures { IfOk result (λ holds. Checks holds u.old.cells.items u.new.cells.items (λ s. HasFields true fields.items (s.rows end) s)) }
{
    match row_of(u, fields, true)? {
        None => Ok(false),
        Some((row, _)) => {
            let holds = u.merge(row, end)?;
            Ok(holds)
        }
    }
}

/// What a record has at the label. None where the type can have none.
pub fn field_of(u: &mut Unifier, label: &Label, want: u64) -> Result<Option<u64>, NoMemory>
    requires fine { IsFine u.old.cells.items }
    requires there { IsType u.old.cells.items want }
    ensures { IfOk result (λ found. Finds found u.old.cells.items u.new.cells.items (FieldOf label.now want)) }
{
    match u.node(want) {
        TypeNode::Rec(row) => {
            let found = in_row(u, label, row as u64)?;
            Ok(found)
        }
        _ => {
            let found = new_field(u, label, want)?;
            Ok(found)
        }
    }
}

// The same of a type that is not known to be a record.
fn new_field(u: &mut Unifier, label: &Label, want: u64) -> Result<Option<u64>, NoMemory>
    requires fine { IsFine u.old.cells.items }
    requires there { IsType u.old.cells.items want }
    ensures { IfOk result (λ found. Finds found u.old.cells.items u.new.cells.items (FieldOf label.now want)) }
{
    let item = u.fresh_type()?;
    let fields = vec![in u.alloc; (label.dup()?, item)]?;
    let holds = is_record(u, fields, true, want)?;
    if !holds {
        return Ok(None);
    }
    Ok(Some(item))
}

/// What a variant has at the label. None where the type can have none.
pub fn variant_of(u: &mut Unifier, label: &Label, want: u64) -> Result<Option<u64>, NoMemory>
    requires fine { IsFine u.old.cells.items }
    requires there { IsType u.old.cells.items want }
    ensures { IfOk result (λ found. Finds found u.old.cells.items u.new.cells.items (VariantOf label.now want)) }
{
    match u.node(want) {
        TypeNode::Var(row) => {
            let found = in_row(u, label, row as u64)?;
            Ok(found)
        }
        _ => {
            let found = new_variant(u, label, want)?;
            Ok(found)
        }
    }
}

// The same of a type that is not known to be a variant.
fn new_variant(u: &mut Unifier, label: &Label, want: u64) -> Result<Option<u64>, NoMemory>
    requires fine { IsFine u.old.cells.items }
    requires there { IsType u.old.cells.items want }
    ensures { IfOk result (λ found. Finds found u.old.cells.items u.new.cells.items (VariantOf label.now want)) }
{
    let item = u.fresh_type()?;
    let fields = vec![in u.alloc; (label.dup()?, item)]?;
    let holds = is_variant(u, fields, true, want)?;
    if !holds {
        return Ok(None);
    }
    Ok(Some(item))
}
