//! Schemes from cells, and cells from schemes.
ghost use Rattle.std.specs.Prelude.{IfOk, MatchOption};
ghost use Rattle.kl_rows.specs.Places.{IsFine, IsTyped};
ghost use Rattle.kl_rows.specs.Finite.{Solvable, IsOrderOf};
ghost use Rattle.kl_rows.specs.Schemes.{CountsTo, KeepsAll, IsScheme, Settles, Instantiates};

use crate::cell::Cell;
use crate::copying::{copy, number};
use crate::finite::order_of;
use crate::keeping::needed;
use crate::schemes::{Scheme, cells_of, parts_of};
use kl_base::{NoMemory, Seq};
use std::alloc::Global;

/// The scheme of a type or of a function. None exactly where nothing solves the cells.
pub fn settled(alloc: Global, cells: &[Cell], root: usize) -> Result<Option<Scheme>, NoMemory>
    requires fine { IsFine cells.now }
    requires on_root { IsTyped cells.now root }
    ensures { IfOk result (λ found. MatchOption found (Solvable cells.now → ⊥) (λ scheme. Settles cells.now root scheme)) }
{
    match order_of(alloc, cells)? {
        None => Ok(None),
        Some(order) => {
            let scheme = scheme_of(alloc, cells, &order, root)?;
            Ok(Some(scheme))
        }
    }
}

fn scheme_of(
    alloc: Global,
    cells: &[Cell],
    order: &[usize],
    root: usize,
) -> Result<Scheme, NoMemory>
    requires fine { IsFine cells.now }
    requires ordered { IsOrderOf cells.now order.now }
    requires on_root { IsTyped cells.now root }
    ensures { IfOk result (λ scheme. Settles cells.now root scheme) }
{
    let kept = needed(alloc, cells, order, root)?;
    let mut table = Vec::new(alloc);
    let numbers = copy(alloc, cells, order, &kept, &mut table)?;
    let nodes = parts_of(alloc, &table)?;
    Ok(Scheme {
        nodes: Seq::of(nodes),
        root: number(&numbers, root) as u64,
    })
}

/// The cells of a scheme. The number is that of a type or of a function that may be any instance.
pub fn instantiate(alloc: Global, scheme: &Scheme, cells: &mut Vec<Cell>) -> Result<usize, NoMemory>
    requires fine { IsFine cells.old.items }
    requires good { IsScheme scheme.now }
    ensures { IfOk result (λ i. Instantiates cells.old.items cells.new.items scheme.now i) }
{
    let table = cells_of(alloc, scheme.nodes.slice())?;
    let order = places(alloc, table.len())?;
    let kept = all_kept(alloc, table.len())?;
    let numbers = copy(alloc, &table, &order, &kept, cells)?;
    Ok(number(&numbers, scheme.root as usize))
}

// The places of a list of this length.
fn places(alloc: Global, length: usize) -> Result<Vec<usize>, NoMemory>
    ensures { IfOk result (λ places. CountsTo length places.items) }
{
    let mut places = Vec::with_capacity(alloc, length)?;
    'places: for i in 0..length {
        places.push(i)?;
    }
    Ok(places)
}

fn all_kept(alloc: Global, length: usize) -> Result<Vec<bool>, NoMemory>
    ensures { IfOk result (λ kept. KeepsAll length kept.items) }
{
    let mut kept = Vec::with_capacity(alloc, length)?;
    'kept: for _i in 0..length {
        kept.push(true)?;
    }
    Ok(kept)
}
