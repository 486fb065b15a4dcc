//! The public calls.
ghost use Rattle.std.specs.Prelude.{◌≡◌, ℕ, [], IfOk, MatchOption};
ghost use Rattle.kl_rows.specs.Places.{IsFine, IsType, IsTyped, IsRowAt, sort_at};
ghost use Rattle.kl_rows.specs.Looking.{KnownAs, KnowsThere, Spots};
ghost use Rattle.kl_rows.specs.Steps.{Advances};
ghost use Rattle.kl_rows.specs.Finite.{Solvable};
ghost use Rattle.kl_rows.specs.Schemes.{IsScheme, Settles, Instantiates};
ghost use Rattle.kl_rows.specs.Making.{AddsCell, CanMake, CanMakeNode, MakesNode, HasSort, Same, Unifies};
ghost use Rattle.kl_rows.specs.declared.cell.Cell.TheVariants.{OfType, OfRow, OfKind};
ghost use Rattle.kl_rows.specs.declared.cell.TypeNode.TheVariants.{AnyType};
ghost use Rattle.kl_rows.specs.declared.cell.RowNode.TheVariants.{AnyRow};
ghost use Rattle.kl_rows.specs.declared.cell.KindNode.TheVariants.{AnyKind};

use crate::cell::{Cell, KindNode, RowNode, TypeNode};
use crate::fields::add_labels;
use crate::finite::solvable;
use crate::fresh::{add, make_type};
use crate::knowing::knows_there;
use crate::looking::{Spot, node, spot_of};
use crate::meet::{meet_kinds, meet_rows};
use crate::merging::{merge, merge_all, merge_functions};
use crate::schemes::{Node, Scheme};
use crate::settling::{instantiate, settled};
use kl_base::{Label, NoMemory, Seq};
use kl_type::Ty;
use std::alloc::Global;

/// Types, functions, rows and kinds by numbers, and what is said of them.
#[derive(Drop)]
pub struct Unifier {
    pub alloc: Global,
    pub cells: Vec<Cell>,
}

impl Unifier {
    /// Nothing is said.
    pub fn new(alloc: Global) -> Unifier
        ensures { result.cells.items ≡ [] }
    {
        Unifier {
            alloc,
            cells: Vec::new(alloc),
        }
    }

    /// A type of which nothing is said.
    pub fn fresh_type(&mut self) -> Result<u64, NoMemory>
        requires { IsFine self.old.cells.items }
        ensures { IfOk result (λ i. AddsCell self.old.cells.items self.new.cells.items (OfType AnyType) i) }
    {
        let at = add(&mut self.cells, Cell::OfType(TypeNode::AnyType))?;
        Ok(at as u64)
    }

    /// A row of which nothing is said but that it lacks these labels.
    pub fn fresh_row(&mut self, lacks: &[Label]) -> Result<u64, NoMemory>
        requires { IsFine self.old.cells.items }
        ensures { IfOk result (λ i. AddsCell self.old.cells.items self.new.cells.items (OfRow (AnyRow lacks.now)) i) }
    {
        let mut labels = Vec::new(self.alloc);
        add_labels(&mut labels, lacks)?;
        let at = add(
            &mut self.cells,
            Cell::OfRow(RowNode::AnyRow(Seq::of(labels))),
        )?;
        Ok(at as u64)
    }

    /// A kind of which nothing is said.
    pub fn fresh_kind(&mut self) -> Result<u64, NoMemory>
        requires { IsFine self.old.cells.items }
        ensures { IfOk result (λ i. AddsCell self.old.cells.items self.new.cells.items (OfKind AnyKind) i) }
    {
        let at = add(&mut self.cells, Cell::OfKind(KindNode::AnyKind))?;
        Ok(at as u64)
    }

    /// A number of which the node is said, and nothing more.
    ///
    /// # Errors
    /// Want of memory; then the unifier may only be dropped.
    pub fn make(&mut self, node: Node) -> Result<u64, NoMemory>
        requires fine { IsFine self.old.cells.items }
        requires can { CanMakeNode self.old.cells.items node }
        ensures { IfOk result (λ i. MakesNode self.old.cells.items self.new.cells.items i node) }
    {
        match node {
            Node::Base(t) => {
                let at = make_type(self.alloc, &t, &mut self.cells)?;
                Ok(at as u64)
            }
            Node::Rec(r) => self.add_type(TypeNode::Rec(r as usize)),
            Node::Var(r) => self.add_type(TypeNode::Var(r as usize)),
            Node::Coll(k, t) => self.add_type(TypeNode::Coll(k as usize, t as usize)),
            Node::Arrow(a, b) => {
                let at = add(&mut self.cells, Cell::OfFunction(a as usize, b as usize))?;
                Ok(at as u64)
            }
            Node::Row(label, t, r) => {
                let fields = vec![in self.alloc; (label, t as usize)]?;
                let at = add(
                    &mut self.cells,
                    Cell::OfRow(RowNode::Front(Seq::of(fields), r as usize)),
                )?;
                Ok(at as u64)
            }
            Node::EmptyRow => {
                let at = add(&mut self.cells, Cell::OfRow(RowNode::NoRow))?;
                Ok(at as u64)
            }
            Node::Fixed(kind) => {
                let at = add(&mut self.cells, Cell::OfKind(KindNode::Fixed(kind)))?;
                Ok(at as u64)
            }
        }
    }

    fn add_type(&mut self, node: TypeNode) -> Result<u64, NoMemory>
        requires fine { IsFine self.old.cells.items }
        requires can { CanMake self.old.cells.items (OfType node) }
        ensures { IfOk result (λ i. AddsCell self.old.cells.items self.new.cells.items (OfType node) i) }
    {
        let at = add(&mut self.cells, Cell::OfType(node))?;
        Ok(at as u64)
    }

    /// What is known of a type: what its cell says at the end of its links.
    pub fn node(&self, number: u64) -> TypeNode
        requires fine { IsFine self.now.cells.items }
        requires there { IsType self.now.cells.items number }
        ensures { KnownAs self.now.cells.items number result }
    {
        node(&self.cells, number as usize)
    }

    /// Whether the number is a type's that the cells write out as this one, each row as one block of its fields in their order, as
    /// `make` makes them. Where they do not, it may be so all the same. It takes a step for each part of the type.
    pub fn knows(&self, number: u64, t: &Ty) -> bool
        requires { IsFine self.now.cells.items }
        ensures { KnowsThere result self.now.cells.items number t.now }
    {
        knows_there(&self.cells, number as usize, t)
    }

    /// Where a row has a label: at the first field of that label on the way to its end, or where the end has it.
    pub fn spot(&self, row: u64, label: &Label) -> Spot
        requires fine { IsFine self.now.cells.items }
        requires there { IsRowAt self.now.cells.items row }
        ensures { Spots result self.now.cells.items row label.now }
    {
        spot_of(&self.cells, row as usize, label)
    }

    /// What is said of a type or of a function, as a scheme: its instances are the types that the number can have.
    ///
    /// # Errors
    /// Want of memory.
    pub fn settle(&self, root: u64) -> Result<Scheme, NoMemory>
        requires fine { IsFine self.now.cells.items }
        requires on_root { IsTyped self.now.cells.items root }
        requires solvable { Solvable self.now.cells.items }
        ensures { IfOk result (λ scheme. Settles self.now.cells.items root scheme) }
    {
        match self.settled(root)? {
            Some(scheme) => Ok(scheme),
            None => unreachable!(),
        }
    }

    /// The same, or None exactly where nothing meets what was said, as only infinite types would. Merges leave open whether
    /// something does. It looks once at all numbers, so it is asked once for each declaration, after the merges.
    ///
    /// # Errors
    /// Want of memory.
    pub fn settled(&self, root: u64) -> Result<Option<Scheme>, NoMemory>
        requires fine { IsFine self.now.cells.items }
        requires on_root { IsTyped self.now.cells.items root }
        ensures { IfOk result (λ found. MatchOption found (Solvable self.now.cells.items → ⊥)
            (λ scheme. Settles self.now.cells.items root scheme)) }
    {
        let found = settled(self.alloc, &self.cells, root as usize)?;
        Ok(found)
    }

    /// A new type, or a new function where the scheme is one's, that may be any instance of the scheme, and nothing else.
    ///
    /// # Errors
    /// Want of memory; then the unifier may only be dropped.
    pub fn instance(&mut self, scheme: &Scheme) -> Result<u64, NoMemory>
        requires fine { IsFine self.old.cells.items }
        requires good { IsScheme scheme.now }
        ensures { IfOk result (λ i. Instantiates self.old.cells.items self.new.cells.items scheme.now i) }
    {
        let at = instantiate(self.alloc, scheme, &mut self.cells)?;
        Ok(at as u64)
    }

    /// Makes two types, two functions, two rows or two kinds one. False exactly where nothing that meets what was said makes them one.
    pub fn unify(&mut self, first: u64, second: u64) -> Result<bool, NoMemory>
        requires fine { IsFine self.old.cells.items }
        requires sorts { HasSort self.old.cells.items first second }
        ensures { IfOk result (λ holds. Unifies holds self.old.cells.items self.new.cells.items first second) }
    {
        let merged = self.merge(first, second)?;
        if !merged {
            return Ok(false);
        }
        let holds = solvable(self.alloc, &self.cells)?;
        Ok(holds)
    }

    /// Makes two types, two functions, two rows or two kinds one. Where this is true only infinite types may be left.
    pub fn merge(&mut self, first: u64, second: u64) -> Result<bool, NoMemory>
        requires fine { IsFine self.old.cells.items }
        requires sorts { HasSort self.old.cells.items first second }
        ensures { IfOk result (λ holds. Advances holds self.old.cells.items self.new.cells.items
            (Same (sort_at self.old.cells.items first) first second)
            (λ s. Unit {0})) }
    {
        let first = first as usize;
        let second = second as usize;
        match &self.cells[first] {
            Cell::OfType(_) => {
                let holds = merge(self.alloc, &mut self.cells, first, second)?;
                Ok(holds)
            }
            Cell::OfFunction(_, _) => {
                let holds = merge_functions(self.alloc, &mut self.cells, first, second)?;
                Ok(holds)
            }
            Cell::OfKind(_) => Ok(meet_kinds(&mut self.cells, first, second)),
            Cell::OfRow(_) => {
                let holds = merge_rows(self.alloc, &mut self.cells, first, second)?;
                Ok(holds)
            }
        }
    }
}

// Makes two rows one, and all that this asks.
fn merge_rows(
    alloc: Global,
    cells: &mut Vec<Cell>,
    first: usize,
    second: usize,
) -> Result<bool, NoMemory>
    requires fine { IsFine cells.old.items }
    requires on_first { IsRowAt cells.old.items first }
    requires on_second { IsRowAt cells.old.items second }
    ensures { IfOk result (λ holds. Advances holds cells.old.items cells.new.items (λ s. s.rows first ≡ s.rows second) (λ s. Unit {0})) }
{
    let mut pairs = Vec::new(alloc);
    let holds = meet_rows(alloc, cells, first, second, &mut pairs)?;
    if !holds {
        return Ok(false);
    }
    let rest = merge_all(alloc, cells, pairs)?;
    Ok(rest)
}
