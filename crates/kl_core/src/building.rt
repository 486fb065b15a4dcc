//! Terms of parts that may be wanting, as copying and moving make them: each takes its parts with their want of memory, so
//! that whoever makes the parts holds nothing where that is told.
ghost use Rattle.std.specs.Prelude.{◌≡◌, IfOk};
ghost use Rattle.kl_core.specs.Building.{Makes, MakesOfTwo, MakesOfThree};
ghost use Rattle.kl_core.specs.declared.term.Term.TheVariants as term;

use crate::term::{Term, TermBranches, TermFields, Terms};
use kl_base::{Box, Label, NoMemory};
use kl_value::{Kind, Value, dup as dup_value};
use std::alloc::Global;

/// A value.
///
/// # Errors
/// Want of memory, of a part or its own.
pub fn constant(alloc: Global, value: &Value) -> Result<Term, NoMemory>
    ensures { IfOk result (λ t. t ≡ term.Const value.now) }
{
    Ok(Term::Const(dup_value(alloc, value)?))
}

/// A record of these fields.
///
/// # Errors
/// Want of memory, of a part or its own.
pub fn record(fields: Result<TermFields, NoMemory>) -> Result<Term, NoMemory>
    ensures { Makes (λ fs. term.Rec fs) fields result }
{
    Ok(Term::Rec(fields?))
}

/// The field under this label.
///
/// # Errors
/// Want of memory, of a part or its own.
pub fn projection(label: &Label, whole: Result<Box<Term>, NoMemory>) -> Result<Term, NoMemory>
    ensures { Makes (λ a. term.Proj label.now a) whole result }
{
    let whole = whole?;
    Ok(Term::Proj(label.dup()?, whole))
}

/// A variant of this label.
///
/// # Errors
/// Want of memory, of a part or its own.
pub fn injection(label: &Label, carried: Result<Box<Term>, NoMemory>) -> Result<Term, NoMemory>
    ensures { Makes (λ a. term.Inj label.now a) carried result }
{
    let carried = carried?;
    Ok(Term::Inj(label.dup()?, carried))
}

/// A collection of these items.
///
/// # Errors
/// Want of memory, of a part or its own.
pub fn collection(kind: Kind, items: Result<Terms, NoMemory>) -> Result<Term, NoMemory>
    ensures { Makes (λ ts. term.Make kind ts) items result }
{
    Ok(Term::Make(kind, items?))
}

/// Two collections as one.
///
/// # Errors
/// Want of memory, of a part or its own.
pub fn union(
    first: Result<Box<Term>, NoMemory>,
    second: Result<Box<Term>, NoMemory>,
) -> Result<Term, NoMemory>
    ensures { MakesOfTwo (λ a b. term.Union a b) first second result }
{
    Ok(Term::Union(first?, second?))
}

/// The items of a body for each item of a source.
///
/// # Errors
/// Want of memory, of a part or its own.
pub fn extension(
    kind: Kind,
    body: Result<Box<Term>, NoMemory>,
    source: Result<Box<Term>, NoMemory>,
) -> Result<Term, NoMemory>
    ensures { MakesOfTwo (λ b s. term.Ext kind b s) body source result }
{
    Ok(Term::Ext(kind, body?, source?))
}

/// A body where position 0 stands for a bound value.
///
/// # Errors
/// Want of memory, of a part or its own.
pub fn binding(
    bound: Result<Box<Term>, NoMemory>,
    body: Result<Box<Term>, NoMemory>,
) -> Result<Term, NoMemory>
    ensures { MakesOfTwo (λ a b. term.Let a b) bound body result }
{
    Ok(Term::Let(bound?, body?))
}

/// One of two parts, by a condition.
///
/// # Errors
/// Want of memory, of a part or its own.
pub fn test(
    condition: Result<Box<Term>, NoMemory>,
    yes: Result<Box<Term>, NoMemory>,
    no: Result<Box<Term>, NoMemory>,
) -> Result<Term, NoMemory>
    ensures { MakesOfThree (λ a b c. term.If a b c) condition yes no result }
{
    Ok(Term::If(condition?, yes?, no?))
}

/// The branch for the label of a variant, or the last part.
///
/// # Errors
/// Want of memory, of a part or its own.
pub fn case(
    subject: Result<Box<Term>, NoMemory>,
    branches: Result<TermBranches, NoMemory>,
    other: Result<Option<Box<Term>>, NoMemory>,
) -> Result<Term, NoMemory>
    ensures { MakesOfThree (λ a bs c. term.Case a bs c) subject branches other result }
{
    Ok(Term::Case(subject?, branches?, other?))
}

/// A primitive, by its code, of these arguments.
///
/// # Errors
/// Want of memory, of a part or its own.
pub fn primitive(code: u8, args: Result<Terms, NoMemory>) -> Result<Term, NoMemory>
    ensures { Makes (λ ts. term.Prim code ts) args result }
{
    Ok(Term::Prim(code, args?))
}
