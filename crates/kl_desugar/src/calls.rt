//! Calls, operators, fields: terms of terms.
ghost use Rattle.std.specs.Prelude.{◌≡◌, true, false, map, IfOk};
ghost use Rattle.kl_core.specs.Trees as term;
ghost use Rattle.kl_desugar.specs.Translation.{function_by, called_tree, operated_tree, projected};
ghost use Rattle.kl_desugar.specs.States.{codes_of, Given};

use crate::codes::{Codes, Found, find};
use crate::terms::{no_sense, two};
use kl_base::{Box, Label, NoMemory, Seq};
use kl_core::Term;
use kl_meaning::code_of;
use kl_syntax::{Op, Word};
use kl_value::Value;
use std::alloc::Global;

#[tactic(auto, using(crate::proofs::Views::apply_one, crate::proofs::Views::apply_other))]
fn apply_to(alloc: Global, body: &Term, args: Vec<Term>) -> Result<Term, NoMemory>
    ensures { IfOk result (λ t. term.view t ≡ called_tree (function_by (term.view body.now)) (term.trees_of (map term.view args.items))) }
{
    let mut args = args;
    if args.len() != 1 {
        return Ok(no_sense(alloc));
    }
    match args.pop() {
        Some(arg) => {
            let arg = Box::new(alloc, arg)?;
            let body = body.dup(alloc)?;
            Ok(Term::Let(arg, Box::new(alloc, body)?))
        }
        None => Ok(no_sense(alloc)),
    }
}

/// A call of what a name stands for.
#[tactic(auto, using(kl_core::proofs::Views::view_Prim))]
pub(crate) fn call(
    alloc: Global,
    codes: &Codes,
    name: &Label,
    args: Vec<Term>,
) -> Result<Term, NoMemory>
    ensures { IfOk result (λ t. term.view t ≡ called_tree (codes_of codes.now name.now) (term.trees_of (map term.view args.items))) }
{
    match find(codes, name)? {
        Found::Function(body) => apply_to(alloc, body.get(), args),
        Found::Primitive(code) => Ok(Term::Prim(code, Seq::of(args))),
        _ => Ok(no_sense(alloc)),
    }
}

fn truth(alloc: Global, b: bool) -> Result<Box<Term>, NoMemory>
    ensures { IfOk result (λ t. term.view t ≡ term.Const (Value.Bool b)) }
{
    Box::new(alloc, Term::Const(Value::Bool(b)))
}

fn both(alloc: Global, a: Box<Term>, b: Box<Term>) -> Result<Box<Term>, NoMemory>
    ensures { IfOk result (λ t. term.view t ≡ term.If (term.view a) (term.view b) (term.Const (Value.Bool false))) }
{
    let other = truth(alloc, false)?;
    Box::new(alloc, Term::If(a, b, other))
}

fn either(alloc: Global, a: Box<Term>, b: Box<Term>) -> Result<Box<Term>, NoMemory>
    ensures { IfOk result (λ t. term.view t ≡ term.If (term.view a) (term.Const (Value.Bool true)) (term.view b)) }
{
    let other = truth(alloc, true)?;
    Box::new(alloc, Term::If(a, other, b))
}

/// A step of a chain.
pub(crate) fn operate(
    alloc: Global,
    op: Op,
    a: Box<Term>,
    b: Box<Term>,
) -> Result<Box<Term>, NoMemory>
    ensures { IfOk result (λ t. term.view t ≡ operated_tree op (term.view a) (term.view b)) }
{
    match op {
        Op::And => both(alloc, a, b),
        Op::Or => either(alloc, a, b),
        Op::Append => Box::new(alloc, Term::Union(a, b)),
        _ => two(alloc, code_of(op), a, b),
    }
}

/// Fields one after the other, of what may be wanting.
pub(crate) fn project(
    alloc: Global,
    words: &[Word],
    a: Result<Box<Term>, NoMemory>,
) -> Result<Term, NoMemory>
    ensures { IfOk result (λ t. Given a (λ a. term.view t ≡ projected words.now (term.view a))) }
{
    let mut term = a?;
    'words: for word in words {
        let label = word.text.dup()?;
        term = Box::new(alloc, Term::Proj(label, term))?;
    }
    Ok(term.into_inner())
}
