//! Nodes, and schemes made of them.
ghost use Rattle.std.specs.Prelude.{◌≡◌, IfOk};
ghost use Rattle.kl_rows.specs.Schemes.{cell_of, cells_of, node_cell, base_node, IsBasePart, Tabled};
ghost use Rattle.kl_rows.specs.declared.cell.Cell.TheVariants.{OfType, OfKind};
ghost use Rattle.kl_rows.specs.Copying.{IsPlain, IsSettled};

use crate::cell::{Cell, KindNode, RowNode, Scalar, TypeNode};
use crate::fields::add_labels;
use kl_base::{Label, NoMemory, Seq};
use kl_type::Ty;
use kl_value::Kind;
use std::alloc::Global;

/// What is said of a new number. The numbers in it are those that the unifier answered, and in a
/// scheme the places of parts, each of the sort that is needed there.
#[derive(Drop)]
pub enum Node {
    /// This type without variables.
    Base(Ty),
    /// A record type with this row.
    Rec(u64),
    /// A variant type with this row, which is not empty.
    Var(u64),
    /// A collection type of this kind over this type.
    Coll(u64, u64),
    /// The row with this label at this type before this rest, which lacks the label.
    Row(Label, u64, u64),
    /// The row without labels.
    EmptyRow,
    /// This kind.
    Fixed(Kind),
    /// A function: from the first type to the second. It is part of no other node.
    Arrow(u64, u64),
}

/// A part of a scheme.
#[derive(Drop)]
pub enum Part {
    /// What the node says, with places of parts before this one.
    Is(Node),
    /// Any type.
    AnyType,
    /// Any row that lacks these labels.
    AnyRow(Seq<Label>),
    /// Any kind.
    AnyKind,
}

/// The parts of a scheme.
pub type Nodes = Seq<Part>;

/// A type or a function with variables, as a table in which parts are shared. The root is the place of the whole.
#[derive(Drop)]
pub struct Scheme {
    /// The parts, each before the wholes that it is part of.
    pub nodes: Nodes,
    /// The place of the whole.
    pub root: u64,
}

impl Scheme {
    /// An equal scheme. Its labels share the bytes of the first one's.
    ///
    /// # Errors
    /// Want of memory.
    pub fn dup(&self, alloc: Global) -> Result<Scheme, NoMemory>
        ensures { IfOk result (λ scheme. scheme ≡ self.now) }
    {
        let nodes = dup_parts(alloc, self.nodes.slice())?;
        Ok(Scheme {
            nodes: Seq::of(nodes),
            root: self.root,
        })
    }
}

fn dup_parts(alloc: Global, parts: &[Part]) -> Result<Vec<Part>, NoMemory>
    ensures { IfOk result (λ copies. copies.items ≡ parts.now) }
{
    let mut copies = Vec::with_capacity(alloc, parts.len())?;
    for part in parts {
        copies.push(dup_part(alloc, part)?)?;
    }
    Ok(copies)
}

fn dup_part(alloc: Global, part: &Part) -> Result<Part, NoMemory>
    ensures { IfOk result (λ copy. copy ≡ part.now) }
{
    match part {
        Part::Is(node) => Ok(Part::Is(dup_node(alloc, node)?)),
        Part::AnyType => Ok(Part::AnyType),
        Part::AnyRow(labels) => {
            let mut lacks = Vec::new(alloc);
            add_labels(&mut lacks, labels.slice())?;
            Ok(Part::AnyRow(Seq::of(lacks)))
        }
        Part::AnyKind => Ok(Part::AnyKind),
    }
}

fn dup_node(alloc: Global, node: &Node) -> Result<Node, NoMemory>
    ensures { IfOk result (λ copy. copy ≡ node.now) }
{
    match node {
        Node::Base(t) => Ok(Node::Base(t.dup(alloc)?)),
        Node::Rec(r) => Ok(Node::Rec(*r)),
        Node::Var(r) => Ok(Node::Var(*r)),
        Node::Coll(k, t) => Ok(Node::Coll(*k, *t)),
        Node::Row(label, t, r) => Ok(Node::Row(label.dup()?, *t, *r)),
        Node::EmptyRow => Ok(Node::EmptyRow),
        Node::Fixed(kind) => Ok(Node::Fixed(*kind)),
        Node::Arrow(a, b) => Ok(Node::Arrow(*a, *b)),
    }
}

/// The parts that say what these cells say.
pub fn parts_of(alloc: Global, cells: &[Cell]) -> Result<Vec<Part>, NoMemory>
    requires { IsSettled cells.now }
    ensures { IfOk result (λ parts. Tabled cells.now parts.items) }
{
    let mut parts = Vec::with_capacity(alloc, cells.len())?;
    for cell in cells {
        parts.push(part_of(alloc, cell)?)?;
    }
    Ok(parts)
}

fn part_of(alloc: Global, cell: &Cell) -> Result<Part, NoMemory>
    requires { IsPlain cell.now }
    ensures same { IfOk result (λ part. cell_of part ≡ cell.now) }
    ensures base { IfOk result IsBasePart }
{
    match cell {
        Cell::OfType(node) => Ok(type_part(*node)),
        Cell::OfFunction(a, b) => Ok(Part::Is(Node::Arrow(*a as u64, *b as u64))),
        Cell::OfRow(RowNode::AnyRow(labels)) => {
            let mut lacks = Vec::new(alloc);
            add_labels(&mut lacks, labels.slice())?;
            Ok(Part::AnyRow(Seq::of(lacks)))
        }
        Cell::OfRow(RowNode::NoRow) => Ok(Part::Is(Node::EmptyRow)),
        Cell::OfRow(RowNode::Front(fields, rest)) => match fields.slice() {
            [field] => Ok(Part::Is(Node::Row(field.0.dup()?, field.1 as u64, *rest as u64))),
            _ => unreachable!(),
        },
        Cell::OfKind(node) => Ok(kind_part(*node)),
    }
}

fn type_part(node: TypeNode) -> Part
    requires { IsPlain (OfType node) }
    ensures same { cell_of result ≡ OfType node }
    ensures base { IsBasePart result }
{
    match node {
        TypeNode::AnyType => Part::AnyType,
        TypeNode::Base(Scalar::Bool) => Part::Is(Node::Base(Ty::Bool)),
        TypeNode::Base(Scalar::Int) => Part::Is(Node::Base(Ty::Int)),
        TypeNode::Base(Scalar::Str) => Part::Is(Node::Base(Ty::Str)),
        TypeNode::Rec(r) => Part::Is(Node::Rec(r as u64)),
        TypeNode::Var(r) => Part::Is(Node::Var(r as u64)),
        TypeNode::Coll(k, t) => Part::Is(Node::Coll(k as u64, t as u64)),
        TypeNode::TypeLink(_) => unreachable!(),
    }
}

fn kind_part(node: KindNode) -> Part
    requires { IsPlain (OfKind node) }
    ensures same { cell_of result ≡ OfKind node }
    ensures base { IsBasePart result }
{
    match node {
        KindNode::AnyKind => Part::AnyKind,
        KindNode::Fixed(kind) => Part::Is(Node::Fixed(kind)),
        KindNode::KindLink(_) => unreachable!(),
    }
}

/// The cells that say what these parts say.
pub fn cells_of(alloc: Global, parts: &[Part]) -> Result<Vec<Cell>, NoMemory>
    ensures { IfOk result (λ cells. cells.items ≡ cells_of parts.now) }
{
    let mut cells = Vec::with_capacity(alloc, parts.len())?;
    for part in parts {
        cells.push(cell_of(alloc, part)?)?;
    }
    Ok(cells)
}

fn cell_of(alloc: Global, part: &Part) -> Result<Cell, NoMemory>
    ensures { IfOk result (λ cell. cell ≡ cell_of part.now) }
{
    match part {
        Part::AnyType => Ok(Cell::OfType(TypeNode::AnyType)),
        Part::AnyRow(labels) => {
            let mut lacks = Vec::new(alloc);
            add_labels(&mut lacks, labels.slice())?;
            Ok(Cell::OfRow(RowNode::AnyRow(Seq::of(lacks))))
        }
        Part::AnyKind => Ok(Cell::OfKind(KindNode::AnyKind)),
        Part::Is(node) => {
            let cell = node_cell(alloc, node)?;
            Ok(cell)
        }
    }
}

fn node_cell(alloc: Global, node: &Node) -> Result<Cell, NoMemory>
    ensures { IfOk result (λ cell. cell ≡ node_cell node.now) }
{
    match node {
        Node::Base(t) => Ok(Cell::OfType(base_node(t))),
        Node::Rec(r) => Ok(Cell::OfType(TypeNode::Rec(*r as usize))),
        Node::Var(r) => Ok(Cell::OfType(TypeNode::Var(*r as usize))),
        Node::Coll(k, t) => Ok(Cell::OfType(TypeNode::Coll(*k as usize, *t as usize))),
        Node::Arrow(a, b) => Ok(Cell::OfFunction(*a as usize, *b as usize)),
        Node::Row(label, t, r) => {
            let fields = vec![in alloc; (label.dup()?, *t as usize)]?;
            Ok(Cell::OfRow(RowNode::Front(Seq::of(fields), *r as usize)))
        }
        Node::EmptyRow => Ok(Cell::OfRow(RowNode::NoRow)),
        Node::Fixed(kind) => Ok(Cell::OfKind(KindNode::Fixed(*kind))),
    }
}

// A base type is bool, int or string.
fn base_node(t: &Ty) -> TypeNode
    ensures { result ≡ base_node t.now }
{
    match t {
        Ty::Bool => TypeNode::Base(Scalar::Bool),
        Ty::Int => TypeNode::Base(Scalar::Int),
        Ty::Str => TypeNode::Base(Scalar::Str),
        _ => TypeNode::AnyType,
    }
}
