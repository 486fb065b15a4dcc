//! Terms that stand in several forms.
ghost use Rattle.std.specs.Prelude.{◌≡◌, IfOk};
ghost use Rattle.kl_core.specs.Trees as term;
ghost use Rattle.kl_prim.specs.Records.{in_order};
ghost use Rattle.kl_syntax.specs.View.{patterns_view};
ghost use Rattle.kl_desugar.specs.Translation.{mask, marks, no_sense, pair};

use kl_base::{Box, Label, NoMemory, Seq};
use kl_core::Term;
use kl_syntax::{Pattern, Word};
use kl_value::{Value, dup};
use std::alloc::Global;

/// What stands where a program in scope never comes.
#[tactic(auto, using(kl_core::proofs::Views::view_Rec))]
pub(crate) fn no_sense(alloc: Global) -> Term
    ensures { term.view result ≡ no_sense }
{
    Term::Rec(Seq::of(Vec::new(alloc)))
}

/// A value as a term.
pub(crate) fn constant_box(alloc: Global, value: &Value) -> Result<Box<Term>, NoMemory>
    ensures { IfOk result (λ t. term.view t ≡ term.Const value.now) }
{
    Box::new(alloc, Term::Const(dup(alloc, value)?))
}

// The labels of a record pattern, each with `true`.
fn marks(alloc: Global, fields: &[(Word, Pattern)]) -> Result<Vec<(Label, Value)>, NoMemory>
    ensures { IfOk result (λ fs. fs.items ≡ marks (patterns_view fields.now)) }
{
    let mut marks = Vec::with_capacity(alloc, fields.len())?;
    'fields: for field in fields {
        marks.push((field.0.text.dup()?, Value::Bool(true)))?;
    }
    Ok(marks)
}

fn marks_in_order(
    alloc: Global,
    fields: &[(Word, Pattern)],
) -> Result<Vec<(Label, Value)>, NoMemory>
    ensures { IfOk result (λ fs. fs.items ≡ in_order (marks (patterns_view fields.now))) }
{
    let mut marks = marks(alloc, fields)?;
    marks.sort_by(|a, b| a.0.cmp(&b.0))?;
    Ok(marks)
}

/// A record that has each label of a record pattern, with `true`.
pub(crate) fn mask(alloc: Global, fields: &[(Word, Pattern)]) -> Result<Box<Term>, NoMemory>
    ensures { IfOk result (λ t. term.view t ≡ mask (patterns_view fields.now)) }
{
    let marks = marks_in_order(alloc, fields)?;
    Box::new(alloc, Term::Const(Value::Rec(Seq::of(marks))))
}

/// A primitive of two arguments.
#[tactic(auto, using(kl_core::proofs::Views::view_Prim))]
pub(crate) fn two(
    alloc: Global,
    code: u8,
    a: Box<Term>,
    b: Box<Term>,
) -> Result<Box<Term>, NoMemory>
    ensures { IfOk result (λ t. term.view t ≡ term.Prim code (pair (term.view a) (term.view b))) }
{
    let args = vec![in alloc; a.into_inner(), b.into_inner()]?;
    Box::new(alloc, Term::Prim(code, Seq::of(args)))
}
