//! Whether some ground types, rows and kinds meet all that the cells say.
ghost use Rattle.std.specs.Prelude.{◌≡◌, ◌≢◌, ◌↔◌, ◌<◌, ℕ, IsTrue, IfOk, OnOk, MatchOption, length, not, slice_set};
ghost use Rattle.kl_rows.specs.Places.{IsFine};
ghost use Rattle.kl_rows.specs.declared.finite.Mark.TheVariants.{Unseen};
ghost use Rattle.kl_rows.specs.Finite.{mark_in, is_seen, all_seen, full_if, next_mark, type_mark, row_mark, kind_mark, Marked};
ghost use Rattle.kl_rows.specs.Finite.{MarksOne, Sofar};
ghost use Rattle.kl_rows.specs.Finite.{Settled, IsOrderOf, Solvable};

use crate::cell::{Cell, KindNode, RowNode, TypeNode};
use crate::copying::is_kept;
use kl_base::{Label, NoMemory};
use std::alloc::Global;

/// What is known of a cell: nothing yet, or that it has a finite type, row or kind. A bare row has no label.
#[derive(Clone, Copy)]
pub enum Mark {
    /// Nothing yet.
    Unseen,
    /// It is finite.
    Full,
    /// It is the row without labels.
    Bare,
}

fn mark_at(marks: &[Mark], at: usize) -> Mark
    ensures { result ≡ mark_in marks.now at }
{
    match marks.get(at) {
        Some(mark) => *mark,
        None => Mark::Unseen,
    }
}

fn is_seen(marks: &[Mark], at: usize) -> bool
    ensures { result ≡ is_seen (mark_in marks.now at) }
{
    match mark_at(marks, at) {
        Mark::Unseen => false,
        _ => true,
    }
}

fn are_seen(marks: &[Mark], fields: &[(Label, usize)]) -> bool
    ensures { result ≡ all_seen fields.now (mark_in marks.now) }
{
    for field in fields {
        if !is_seen(marks, field.1) {
            return false;
        }
    }
    true
}

fn full_if(holds: bool) -> Mark
    ensures { result ≡ full_if holds }
{
    if holds { Mark::Full } else { Mark::Unseen }
}

// What can be told of a cell from what is known of its parts.
fn next_mark(marks: &[Mark], cell: &Cell) -> Mark
    ensures { result ≡ next_mark cell.now (mark_in marks.now) }
{
    match cell {
        Cell::OfType(node) => type_mark(marks, *node),
        Cell::OfFunction(a, b) => full_if(is_seen(marks, *a) && is_seen(marks, *b)),
        Cell::OfRow(node) => row_mark(marks, node),
        Cell::OfKind(node) => kind_mark(marks, *node),
    }
}

fn type_mark(marks: &[Mark], node: TypeNode) -> Mark
    ensures { result ≡ type_mark node (mark_in marks.now) }
{
    match node {
        TypeNode::AnyType | TypeNode::Base(_) => Mark::Full,
        TypeNode::Rec(r) | TypeNode::TypeLink(r) => full_if(is_seen(marks, r)),
        TypeNode::Var(r) => match mark_at(marks, r) {
            Mark::Full => Mark::Full,
            _ => Mark::Unseen,
        },
        TypeNode::Coll(a, b) => full_if(is_seen(marks, a) && is_seen(marks, b)),
    }
}

fn row_mark(marks: &[Mark], node: &RowNode) -> Mark
    ensures { result ≡ row_mark node.now (mark_in marks.now) }
{
    match node {
        RowNode::AnyRow(_) => Mark::Full,
        RowNode::NoRow => Mark::Bare,
        RowNode::Front(fields, rest) => match fields.slice() {
            [] => mark_at(marks, *rest),
            some => full_if(are_seen(marks, some) && is_seen(marks, *rest)),
        },
    }
}

fn kind_mark(marks: &[Mark], node: KindNode) -> Mark
    ensures { result ≡ kind_mark node (mark_in marks.now) }
{
    match node {
        KindNode::AnyKind | KindNode::Fixed(_) => Mark::Full,
        KindNode::KindLink(a) => full_if(is_seen(marks, a)),
    }
}

// Marks one cell if something new can be told of it, and adds it to the order.
fn mark_one(
    cells: &[Cell],
    marks: &mut Vec<Mark>,
    order: &mut Vec<usize>,
    at: usize,
) -> Result<bool, NoMemory>
    requires within { at < length cells.now }
    requires marked { Marked cells.now marks.old.items order.old.items }
    ensures { IfOk result (λ yes. MarksOne yes cells.now marks.old.items marks.new.items order.new.items at) }
{
    if is_seen(marks, at) {
        return Ok(false);
    }
    let mark = next_mark(marks, &cells[at]);
    if is_unseen(mark) {
        return Ok(false);
    }
    order.push(at)?;
    set_mark(marks, at, mark);
    Ok(true)
}

fn is_unseen(mark: Mark) -> bool
    ensures { result ≡ not (is_seen mark) }
{
    match mark {
        Mark::Unseen => true,
        _ => false,
    }
}

fn set_mark(marks: &mut Vec<Mark>, at: usize, mark: Mark)
    requires { at < length marks.old.items }
    ensures { marks.new.items ≡ slice_set marks.old.items at mark }
{
    marks[at] = mark;
}

// Marks each cell of which something new can be told, and says whether there was one.
fn pass(cells: &[Cell], marks: &mut Vec<Mark>, order: &mut Vec<usize>) -> Result<bool, NoMemory>
    requires { Marked cells.now marks.old.items order.old.items }
    ensures { IfOk result (λ any. Sofar any cells.now marks.old.items marks.new.items order.new.items (length cells.now)) }
{
    let mut any = false;
    for i in 0..cells.len() {
        if mark_one(cells, marks, order, i)? {
            any = true;
        }
    }
    Ok(any)
}

// Passes until nothing new can be told.
fn mark_all(cells: &[Cell], marks: &mut Vec<Mark>, order: &mut Vec<usize>) -> Result<(), NoMemory>
    requires { Marked cells.now marks.old.items order.old.items }
    ensures { OnOk result (Settled cells.now marks.new.items order.new.items) }
{
    'passes: loop {
        let any = pass(cells, marks, order)?;
        if !any {
            return Ok(());
        }
    }
}

// Tries each cell behind its parts, so that each of which something can be told is marked at once. What is on the way is
// marked as entered. In which order cells are tried matters for the time alone.
fn mark_deep(
    alloc: Global,
    cells: &[Cell],
    marks: &mut Vec<Mark>,
    order: &mut Vec<usize>,
) -> Result<(), NoMemory>
    requires { Marked cells.now marks.old.items order.old.items }
    ensures { OnOk result (Marked cells.now marks.new.items order.new.items) }
{
    let mut entered = vec![in alloc; false; cells.len()]?;
    let mut stack = Vec::new(alloc);
    'cells: for i in 0..cells.len() {
        stack.push(i)?;
        empty(cells, &mut entered, &mut stack, marks, order)?;
    }
    Ok(())
}

fn empty(
    cells: &[Cell],
    entered: &mut Vec<bool>,
    stack: &mut Vec<usize>,
    marks: &mut Vec<Mark>,
    order: &mut Vec<usize>,
) -> Result<(), NoMemory>
    requires { Marked cells.now marks.old.items order.old.items }
    ensures { OnOk result (Marked cells.now marks.new.items order.new.items) }
{
    'stack: for _turn in 0..u64::MAX {
        match stack.pop() {
            Some(at) => visit(cells, entered, stack, marks, order, at)?,
            None => return Ok(()),
        }
    }
    Ok(())
}

// The first time a cell's parts are laid upon it, and the second time it is tried.
fn visit(
    cells: &[Cell],
    entered: &mut Vec<bool>,
    stack: &mut Vec<usize>,
    marks: &mut Vec<Mark>,
    order: &mut Vec<usize>,
    at: usize,
) -> Result<(), NoMemory>
    requires { Marked cells.now marks.old.items order.old.items }
    ensures { OnOk result (Marked cells.now marks.new.items order.new.items) }
{
    if at >= cells.len() {
        return Ok(());
    }
    if is_kept(entered, at) {
        let _marked = mark_one(cells, marks, order, at)?;
        return Ok(());
    }
    if at < entered.len() {
        entered[at] = true;
    }
    stack.push(at)?;
    add_parts(&cells[at], entered, stack)
}

fn add_parts(cell: &Cell, entered: &[bool], stack: &mut Vec<usize>) -> Result<(), NoMemory> {
    match cell {
        Cell::OfType(TypeNode::Rec(a) | TypeNode::Var(a) | TypeNode::TypeLink(a)) => {
            add_part(*a, entered, stack)
        }
        Cell::OfType(TypeNode::Coll(a, b)) | Cell::OfFunction(a, b) => {
            add_part(*a, entered, stack)?;
            add_part(*b, entered, stack)
        }
        Cell::OfRow(RowNode::Front(fields, rest)) => {
            'fields: for field in fields.slice() {
                add_part(field.1, entered, stack)?;
            }
            add_part(*rest, entered, stack)
        }
        Cell::OfKind(KindNode::KindLink(a)) => add_part(*a, entered, stack),
        _ => Ok(()),
    }
}

fn add_part(at: usize, entered: &[bool], stack: &mut Vec<usize>) -> Result<(), NoMemory> {
    if !is_kept(entered, at) {
        stack.push(at)?;
    }
    Ok(())
}

fn all_marked(marks: &[Mark]) -> bool
    ensures { IsTrue result ↔ ((i : ℕ) → i < length marks.now → mark_in marks.now i ≢ Unseen) }
{
    for i in 0..marks.len() {
        if !is_seen(marks, i) {
            return false;
        }
    }
    true
}

/// An order of all cells in which each stands behind its parts. None exactly where no ground types, rows and kinds meet
/// all that the cells say: some type would be infinite, or a variant type would have no label.
pub fn order_of(alloc: Global, cells: &[Cell]) -> Result<Option<Vec<usize>>, NoMemory>
    requires { IsFine cells.now }
    ensures { IfOk result (λ found. MatchOption found (Solvable cells.now → ⊥) (λ order. IsOrderOf cells.now order.items)) }
{
    let mut marks = vec![in alloc; Mark::Unseen; cells.len()]?;
    let mut order = Vec::new(alloc);
    mark_deep(alloc, cells, &mut marks, &mut order)?;
    mark_all(cells, &mut marks, &mut order)?;
    if all_marked(&marks) {
        Ok(Some(order))
    } else {
        Ok(None)
    }
}

/// Whether some ground types, rows and kinds meet all that the cells say.
pub fn solvable(alloc: Global, cells: &[Cell]) -> Result<bool, NoMemory>
    requires { IsFine cells.now }
    ensures { IfOk result (λ holds. IsTrue holds ↔ Solvable cells.now) }
{
    let found = order_of(alloc, cells)?;
    Ok(found.is_some())
}
