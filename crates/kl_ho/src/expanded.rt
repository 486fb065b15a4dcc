//! Expansions of programs.
ghost use Rattle.std.specs.Prelude.{◌≡◌, ◌≤◌, ◌++◌, ◌∷◌, [], ℕ, List, length, IfOk, IfErr};
ghost use Rattle.kl_outcome.specs.Outcome.{Name};
ghost use Rattle.kl_syntax.specs.View.{view, decls_of};
ghost use Rattle.std.specs.List.{AllByRecursion};
ghost use Rattle.std.specs.Option.{option_map};
ghost use Rattle.kl_ho.specs.Declaring.{Added, EachListed, LastMade, RefusedAt, SomeExpansion};
ghost use Rattle.kl_ho.specs.Expanded.{IsRefusal, bodies, left_in};
ghost use Rattle.kl_ho.specs.Growing.{higher_of, highers_of};
ghost use Rattle.kl_ho.specs.HoPrograms.{ProgramExpands, no_highers};
ghost use Rattle.kl_ho.specs.KeptPrograms.{begins, listed, fields_of, KeepsToRules};
ghost use Rattle.kl_ho.specs.Nodes.{nodes};
ghost use Rattle.kl_ho.specs.declared.expanded.ExpandError.TheVariants.{NoMemory as WantOfMemory};

use crate::declaring::{declared, enter, last, parts_of};
use crate::program::HoScoped;
use crate::stop::Stop;
use crate::table::{Parts, Table};
use kl_base::{Label, NoMemory, Seq};
use kl_syntax::{Decl, Expr, Program};
use std::alloc::{AllocFailed, Global};
use thiserror::Error;

/// Numbers in their order.
pub type Numbers = Seq<u32>;

/// An expanded program.
#[derive(Drop)]
pub struct Expanded {
    pub program: Program,
    /// For each declaration, the last expression too, its number in the given program, counted from 0.
    pub from: Numbers,
}

/// Why a program has no expansion within the limit.
#[derive(Debug, Drop, PartialEq, Eq, Error)]
pub enum ExpandError {
    /// The expansion of a declaration has more than 4,096 expressions. This is the first such one, counted from 0, with
    /// the last expression behind the definitions.
    #[error("too many expressions in declaration {decl}")]
    TooBig { decl: u32 },
    /// Want of memory.
    #[error("out of memory")]
    NoMemory,
}

impl From<NoMemory> for ExpandError {
    ghost from_gives = { λ _ e. e ≡ WantOfMemory };

    fn from(_error: NoMemory) -> ExpandError {
        ExpandError::NoMemory
    }
}

impl<T: Drop> From<AllocFailed<T>> for ExpandError {
    ghost from_gives = { λ _ e. e ≡ WantOfMemory };

    fn from(_error: AllocFailed<T>) -> ExpandError {
        ExpandError::NoMemory
    }
}

/// The expansion of a program with function parameters: each call of a definition with function fields is replaced by
/// the definition's body, with the given names in the place of the parameters and new names for bound variables, and
/// the definitions with function fields are dropped. Each expanded declaration has at most 4,096 expressions. What the
/// words of the expansion mean is open. No declaration is made beyond so many expressions, and the calls nest at most
/// four times as deep, and in a pattern as deep as it is in the program.
///
/// # Errors
/// `TooBig` exactly where an expanded declaration has more expressions. Want of memory, and more definitions than
/// 32 bits can number.
pub fn expand(alloc: Global, ho: &HoScoped) -> Result<Expanded, ExpandError>
    requires { (sources : List Name) × KeepsToRules sources ho.now }
    ensures expansion { IfOk result (λ x. (n : ℕ) × ProgramExpands (begins ho.now.base) (fields_of ho.now) n no_highers
        (decls_of ho.now.program.defs) (view ho.now.program.last) (decls_of x.program.defs) (view x.program.last)) }
    ensures within { IfOk result (λ x. AllByRecursion (λ a. nodes a ≤ 4096) (bodies (decls_of x.program.defs) (view x.program.last))) }
    ensures from { IfOk result (λ x. x.from ≡ left_in (fields_of ho.now) (decls_of ho.now.program.defs) 0) }
    ensures refused { IfErr result (IsRefusal (fields_of ho.now) (decls_of ho.now.program.defs) (view ho.now.program.last)) }
{
    let program = &ho.program;
    whole(
        alloc,
        &ho.base,
        program.defs.slice(),
        ho.functions.slice(),
        &program.last,
    )
}

fn whole(
    alloc: Global,
    base: &Label,
    defs: &[Decl],
    functions: &[Seq<Label>],
    last: &Expr,
) -> Result<Expanded, ExpandError>
    requires places { length functions.now ≡ length defs.now }
    requires listed { EachListed defs.now functions.now }
    requires some { SomeExpansion (listed defs.now functions.now) no_highers (decls_of defs.now) (view last.now) }
    ensures expansion { IfOk result (λ x. (n : ℕ) × ProgramExpands (begins base.now) (listed defs.now functions.now) n no_highers
        (decls_of defs.now) (view last.now) (decls_of x.program.defs) (view x.program.last)) }
    ensures within { IfOk result (λ x. AllByRecursion (λ a. nodes a ≤ 4096) (bodies (decls_of x.program.defs) (view x.program.last))) }
    ensures from { IfOk result (λ x. x.from ≡ left_in (listed defs.now functions.now) (decls_of defs.now) 0) }
    ensures refused { IfErr result (IsRefusal (listed defs.now functions.now) (decls_of defs.now) (view last.now)) }
{
    let mut table = Table {
        base,
        parts: Vec::new(alloc),
    };
    let mut made = Vec::new(alloc);
    let mut from = Vec::new(alloc);
    'defs: for i in 0..defs.len() {
        let decl = &defs[i];
        let own = parts_of(alloc, functions[i].slice(), decl)?;
        add(alloc, &table, &own, decl, i, &mut made, &mut from)?;
        enter(&mut table.parts, decl, own)?;
    }
    let last = finished(alloc, &table, last, defs.len(), &mut from)?;
    Ok(Expanded {
        program: Program {
            defs: Seq::of(made),
            last,
        },
        from: Seq::of(from),
    })
}

// The expansion of a declaration and its number, behind those that are made; neither where it has function fields.
fn add(
    alloc: Global,
    t: &Table<'_>,
    own: &Option<Parts<'_>>,
    decl: &Decl,
    place: usize,
    made: &mut Vec<Decl>,
    from: &mut Vec<u32>,
) -> Result<(), ExpandError>
    ensures { Added t.now.base.now (highers_of t.now) (option_map higher_of own.now) decl.now place made.old.items from.old.items made.new.items from.new.items result }
{
    match own {
        Some(_) => Ok(()),
        None => append(alloc, t, decl, place, made, from),
    }
}

fn append(
    alloc: Global,
    t: &Table<'_>,
    decl: &Decl,
    place: usize,
    made: &mut Vec<Decl>,
    from: &mut Vec<u32>,
) -> Result<(), ExpandError>
    ensures { Added t.now.base.now (highers_of t.now) None decl.now place made.old.items from.old.items made.new.items from.new.items result }
{
    match declared(alloc, t, decl) {
        Ok(decl) => list(made, from, decl, place),
        Err(stop) => Err(refused(place, stop)),
    }
}

fn list(
    made: &mut Vec<Decl>,
    from: &mut Vec<u32>,
    decl: Decl,
    place: usize,
) -> Result<(), ExpandError>
    ensures made { IfOk result (λ _. made.new.items ≡ made.old.items ++ decl ∷ []) }
    ensures from { IfOk result (λ _. from.new.items ≡ from.old.items ++ place ∷ []) }
    ensures wanting { IfErr result (λ e. e ≡ WantOfMemory) }
{
    made.push(decl)?;
    from.push(number(place)?)?;
    Ok(())
}

// The expansion of the last expression, whose number is listed too.
fn finished(
    alloc: Global,
    t: &Table<'_>,
    e: &Expr,
    place: usize,
    from: &mut Vec<u32>,
) -> Result<Expr, ExpandError>
    ensures { LastMade t.now.base.now (highers_of t.now) e.now place from.old.items from.new.items result }
{
    match last(alloc, t, e) {
        Ok(e) => numbered(from, e, place),
        Err(stop) => Err(refused(place, stop)),
    }
}

fn numbered(from: &mut Vec<u32>, e: Expr, place: usize) -> Result<Expr, ExpandError>
    ensures same { IfOk result (λ x. x ≡ e) }
    ensures from { IfOk result (λ _. from.new.items ≡ from.old.items ++ place ∷ []) }
    ensures wanting { IfErr result (λ e. e ≡ WantOfMemory) }
{
    from.push(number(place)?)?;
    Ok(e)
}

fn number(place: usize) -> Result<u32, NoMemory>
    ensures { IfOk result (λ n. n ≡ place) }
{
    match u32::try_from(place) {
        Err(_) => Err(NoMemory),
        Ok(number) => Ok(number),
    }
}

// The refusal of the declaration at a place.
fn refused(place: usize, stop: Stop) -> ExpandError
    ensures { RefusedAt place stop result }
{
    match stop {
        Stop::TooBig => match u32::try_from(place) {
            Ok(decl) => ExpandError::TooBig { decl },
            Err(_) => ExpandError::NoMemory,
        },
        Stop::NoMemory => ExpandError::NoMemory,
    }
}
