//! One step of a merge.
ghost use Rattle.std.specs.Prelude.{◌≡◌, ◌≢◌, ℕ, ◌<◌, ◌&&◌, ◌++◌, ◌∷◌, [], length, IfOk, OnOk, slice_set};
ghost use Rattle.std.specs.List.{list_all};
ghost use Rattle.std.specs.Option.{is_none};
ghost use Rattle.kl_base.specs.Fields.{field};
ghost use Rattle.kl_rows.specs.declared.cell.Cell.TheVariants.{OfRow};
ghost use Rattle.kl_rows.specs.declared.cell.RowNode.TheVariants.{AnyRow, Front};
ghost use Rattle.kl_rows.specs.Places.{IsFine, IsType, IsKind, IsRowAt, IsTidy, AreTypes, EndsAt};
ghost use Rattle.kl_rows.specs.Walking.{TypeRoot, KindRoot};
ghost use Rattle.kl_rows.specs.Steps.{Advances, Shares};
ghost use Rattle.kl_rows.specs.Joining.{AreApart, cell_at, is_empty, may_take, is_open, lacks_at, kept, kept_kind, compared};
ghost use Rattle.kl_rows.specs.Joining.{same_kinds, Joins};
ghost use Rattle.kl_rows.specs.Joining.{Meets, MeetsRows};

use crate::cell::{Cell, KindNode, RowNode, TypeNode};
use crate::fields::{add_both, add_labels, look, only};
use crate::find::{find_kind, kind_at, row_at, type_at, walk};
use kl_base::{Label, NoMemory, Seq};
use kl_value::Kind;
use std::alloc::Global;

/// What two cells that stand for one type ask of others.
#[derive(Clone, Copy)]
pub enum Task {
    Nothing,
    Rows(usize, usize),
    Colls(usize, usize, usize, usize),
    Clash,
}

/// Makes two different cells that stand for types one. What is left to ask is added to the pairs. False where they can't be one.
pub fn meet(
    alloc: Global,
    cells: &mut Vec<Cell>,
    first: usize,
    second: usize,
    pairs: &mut Vec<(usize, usize)>,
) -> Result<bool, NoMemory>
    requires fine { IsFine cells.old.items }
    requires apart { first ≢ second }
    requires on_first { TypeRoot cells.old.items first }
    requires on_second { TypeRoot cells.old.items second }
    ensures { IfOk result (λ holds. Meets holds cells.old.items cells.new.items first second pairs.old.items pairs.new.items) }
{
    match join_either(cells, first, second) {
        Task::Nothing => Ok(true),
        Task::Colls(j, a, k, b) => {
            pairs.push((a, b))?;
            Ok(meet_kinds(cells, j, k))
        }
        Task::Rows(a, b) => {
            let holds = meet_rows(alloc, cells, a, b, pairs)?;
            Ok(holds)
        }
        Task::Clash => Ok(false),
    }
}

// Joins two cells that stand for types, in whatever order they are.
fn join_either(cells: &mut Vec<Cell>, first: usize, second: usize) -> Task
    requires fine { IsFine cells.old.items }
    requires apart { first ≢ second }
    requires on_first { TypeRoot cells.old.items first }
    requires on_second { TypeRoot cells.old.items second }
    ensures { Joins cells.old.items cells.new.items first second result }
{
    if first < second {
        join(cells, first, second)
    } else {
        join(cells, second, first)
    }
}

// Links the later cell to the earlier one, which takes what the later says where it says nothing itself.
fn join(cells: &mut Vec<Cell>, low: usize, high: usize) -> Task
    requires fine { IsFine cells.old.items }
    requires order { low < high }
    requires on_low { TypeRoot cells.old.items low }
    requires on_high { TypeRoot cells.old.items high }
    ensures { Joins cells.old.items cells.new.items low high result }
{
    let first = type_at(cells, low);
    let second = type_at(cells, high);
    cells[high] = Cell::OfType(TypeNode::TypeLink(low));
    cells[low] = Cell::OfType(keep(first, second));
    compare(first, second)
}

// What a cell says that stands for two.
fn keep(first: TypeNode, second: TypeNode) -> TypeNode
    ensures { result ≡ kept first second }
{
    match first {
        TypeNode::AnyType => second,
        _ => first,
    }
}

// What they ask so that both say the same.
fn compare(first: TypeNode, second: TypeNode) -> Task
    ensures { result ≡ compared first second }
{
    match (first, second) {
        (TypeNode::AnyType, _) | (_, TypeNode::AnyType) => Task::Nothing,
        (TypeNode::Base(a), TypeNode::Base(b)) => {
            if a == b { Task::Nothing } else { Task::Clash }
        }
        (TypeNode::Rec(a), TypeNode::Rec(b)) | (TypeNode::Var(a), TypeNode::Var(b)) => {
            Task::Rows(a, b)
        }
        (TypeNode::Coll(j, a), TypeNode::Coll(k, b)) => Task::Colls(j, a, k, b),
        _ => Task::Clash,
    }
}

/// Makes two kinds one. False where they can't be.
pub fn meet_kinds(cells: &mut Vec<Cell>, first: usize, second: usize) -> bool
    requires fine { IsFine cells.old.items }
    requires on_first { IsKind cells.old.items first }
    requires on_second { IsKind cells.old.items second }
    ensures { Advances result cells.old.items cells.new.items (λ s. s.kinds first ≡ s.kinds second) (λ s. Unit {0}) }
{
    let first = find_kind(cells, first);
    let second = find_kind(cells, second);
    if first == second {
        true
    } else if first < second {
        join_kinds(cells, first, second)
    } else {
        join_kinds(cells, second, first)
    }
}

fn join_kinds(cells: &mut Vec<Cell>, low: usize, high: usize) -> bool
    requires fine { IsFine cells.old.items }
    requires order { low < high }
    requires on_low { KindRoot cells.old.items low }
    requires on_high { KindRoot cells.old.items high }
    ensures { Advances result cells.old.items cells.new.items (λ s. s.kinds low ≡ s.kinds high) (λ s. Unit {0}) }
{
    let first = kind_at(cells, low);
    let second = kind_at(cells, high);
    cells[high] = Cell::OfKind(KindNode::KindLink(low));
    cells[low] = Cell::OfKind(keep_kind(first, second));
    same_kinds(first, second)
}

fn keep_kind(first: KindNode, second: KindNode) -> KindNode
    ensures { result ≡ kept_kind first second }
{
    match first {
        KindNode::AnyKind => second,
        _ => first,
    }
}

fn same_kinds(first: KindNode, second: KindNode) -> bool
    ensures { result ≡ same_kinds first second }
{
    match (first, second) {
        (KindNode::Fixed(a), KindNode::Fixed(b)) => a == b,
        _ => true,
    }
}

/// Makes two rows one: the types at common labels are left to ask, and each end takes what the other row has more.
/// False where they can't be one.
pub fn meet_rows(
    alloc: Global,
    cells: &mut Vec<Cell>,
    first: usize,
    second: usize,
    pairs: &mut Vec<(usize, usize)>,
) -> Result<bool, NoMemory>
    requires fine { IsFine cells.old.items }
    requires on_first { IsRowAt cells.old.items first }
    requires on_second { IsRowAt cells.old.items second }
    ensures { IfOk result (λ holds. MeetsRows holds cells.old.items cells.new.items first second pairs.old.items pairs.new.items) }
{
    let left = walk(alloc, cells, first)?;
    let right = walk(alloc, cells, second)?;
    add_both(alloc, &left.fields, &right.fields, pairs)?;
    let for_left = only(alloc, &right.fields, &left.fields)?;
    let for_right = only(alloc, &left.fields, &right.fields)?;
    let holds = join_ends(alloc, cells, left.end, right.end, for_left, for_right)?;
    Ok(holds)
}

// Gives two ends these fields more, before one rest.
fn join_ends(
    alloc: Global,
    cells: &mut Vec<Cell>,
    first: usize,
    second: usize,
    for_first: Vec<(Label, usize)>,
    for_second: Vec<(Label, usize)>,
) -> Result<bool, NoMemory>
    requires fine { IsFine cells.old.items }
    requires on_first { EndsAt cells.old.items first }
    requires on_second { EndsAt cells.old.items second }
    requires apart { AreApart for_first.items for_second.items }
    requires types_first { AreTypes cells.old.items for_first.items }
    requires types_second { AreTypes cells.old.items for_second.items }
    requires tidy_first { IsTidy cells.old.items for_first.items second }
    requires tidy_second { IsTidy cells.old.items for_second.items first }
    ensures { IfOk result (λ holds. Advances holds cells.old.items cells.new.items
        (Shares for_first.items for_second.items first second) (λ s. Unit {0})) }
{
    if first == second {
        return Ok(are_empty(&for_first, &for_second));
    }
    if !can_take(cells, first, &for_first) {
        return Ok(false);
    }
    if !can_take(cells, second, &for_second) {
        return Ok(false);
    }
    if is_open(cells, first) {
        if is_open(cells, second) {
            let rest = shared_rest(alloc, cells, first, second)?;
            close(cells, first, for_first, rest);
            close(cells, second, for_second, rest);
            Ok(true)
        } else {
            close(cells, first, for_first, second);
            Ok(true)
        }
    } else if is_open(cells, second) {
        close(cells, second, for_second, first);
        Ok(true)
    } else {
        Ok(true)
    }
}

fn are_empty(first: &[(Label, usize)], second: &[(Label, usize)]) -> bool
    ensures { result ≡ (is_empty first.now && is_empty second.now) }
{
    match (first, second) {
        ([], []) => true,
        _ => false,
    }
}

// Whether an end has no reason against these fields.
fn can_take(cells: &[Cell], end: usize, fields: &[(Label, usize)]) -> bool
    requires { EndsAt cells.now end }
    ensures { result ≡ may_take (cell_at cells.now end) fields.now }
{
    match &cells[end] {
        Cell::OfRow(RowNode::AnyRow(lacks)) => has_none(fields, lacks.slice()),
        _ => fields.is_empty(),
    }
}

// Whether none of the labels is there.
fn has_none(fields: &[(Label, usize)], labels: &[Label]) -> bool
    ensures { result ≡ list_all (λ l. is_none (field l fields.now)) labels.now }
{
    labels.iter().all(|label| look(fields, label).is_none())
}

fn is_open(cells: &[Cell], end: usize) -> bool
    requires { EndsAt cells.now end }
    ensures { result ≡ is_open (cell_at cells.now end) }
{
    match &cells[end] {
        Cell::OfRow(RowNode::AnyRow(_)) => true,
        _ => false,
    }
}

// Gives an end these fields before a rest.
fn close(cells: &mut Vec<Cell>, end: usize, fields: Vec<(Label, usize)>, rest: usize)
    requires { end < length cells.old.items }
    ensures { cells.new.items ≡ slice_set cells.old.items end (OfRow (Front fields.items rest)) }
{
    cells[end] = Cell::OfRow(RowNode::Front(Seq::of(fields), rest));
}

// A fresh row that lacks what both ends lack.
fn shared_rest(
    alloc: Global,
    cells: &mut Vec<Cell>,
    first: usize,
    second: usize,
) -> Result<usize, NoMemory>
    requires on_first { EndsAt cells.old.items first }
    requires on_second { EndsAt cells.old.items second }
    ensures place { IfOk result (λ rest. rest ≡ length cells.old.items) }
    ensures added { OnOk result (cells.new.items ≡ cells.old.items
        ++ OfRow (AnyRow (lacks_at (cell_at cells.old.items first) ++ lacks_at (cell_at cells.old.items second))) ∷ []) }
{
    let mut lacks = Vec::new(alloc);
    add_lacks(cells, first, &mut lacks)?;
    add_lacks(cells, second, &mut lacks)?;
    let rest = cells.len();
    cells.push(Cell::OfRow(RowNode::AnyRow(Seq::of(lacks))))?;
    Ok(rest)
}

// Adds the labels that an end lacks.
fn add_lacks(cells: &[Cell], end: usize, lacks: &mut Vec<Label>) -> Result<(), NoMemory>
    requires { EndsAt cells.now end }
    ensures { OnOk result (lacks.new.items ≡ lacks.old.items ++ lacks_at (cell_at cells.now end)) }
{
    match row_at(cells, end) {
        RowNode::AnyRow(labels) => add_labels(lacks, labels.slice()),
        _ => Ok(()),
    }
}
