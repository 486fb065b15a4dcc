//! The copy of a program without its functions, declaration by declaration.
ghost use Rattle.std.specs.Prelude.{◌≡◌, ◌++◌, [], Some, None, IfOk};
ghost use Rattle.kl_syntax.specs.Syntax.{shape, Pats, pats};
ghost use Rattle.kl_syntax.specs.View.{pattern_view, patterns_view, view, decls_of};
ghost use Rattle.kl_ho.specs.Functions.{first_functions};
ghost use Rattle.kl_ho.specs.HoPrograms.{handed_in, rest_in};
ghost use Rattle.kl_ho.specs.Plain.{plainly, decls_plainly, last_plainly};
ghost use Rattle.kl_ho.specs.Shapes.{names_after, names_after_all, rest_after};
ghost use Rattle.kl_functions.specs.Known.{AreKnown, fields_in, functions_of};
ghost use Rattle.kl_functions.specs.Occurrences.{names_of, seconds_of};
ghost use Rattle.kl_functions.specs.Plainly.{parameter_names, other_names, function_body, IsPlainDecl};

use crate::copies::{pattern_copy, word_copy};
use crate::first::is_label;
use crate::functions::{Before, Known};
use crate::hiding::{enter, enter_all, enter_rest, enter_tail};
use crate::plain::{Place, labels_of};
use kl_base::{Label, NoMemory, Seq};
use kl_syntax::{Decl, Pattern, Program, Tail, Word};
use std::alloc::Global;

// The variables of the fields at these labels: the function parameters.
fn parameters<'a>(
    alloc: Global,
    labels: &[Label],
    pattern: &'a Pattern,
) -> Result<Vec<&'a Label>, NoMemory>
    ensures { IfOk result (λ names. names_of names.items ≡ parameter_names labels.now (pattern_view pattern.now)) }
{
    match pattern {
        Pattern::Rec(fields, tail) => parameters_in(alloc, labels, fields.slice(), tail),
        _ => Ok(Vec::new(alloc)),
    }
}

fn parameters_in<'a>(
    alloc: Global,
    labels: &[Label],
    fields: &'a [(Word, Pattern)],
    tail: &Tail,
) -> Result<Vec<&'a Label>, NoMemory>
    ensures { IfOk result (λ names. names_of names.items ≡ parameter_names labels.now (shape (patterns_view fields.now) tail.now)) }
{
    match tail {
        Tail::Exact => handed_in(alloc, labels, fields),
        Tail::Open | Tail::Rest(_) => Ok(Vec::new(alloc)),
    }
}

fn handed_in<'a>(
    alloc: Global,
    labels: &[Label],
    fields: &'a [(Word, Pattern)],
) -> Result<Vec<&'a Label>, NoMemory>
    ensures { IfOk result (λ names. names_of names.items ≡ seconds_of (handed_in labels.now (patterns_view fields.now))) }
{
    let mut names = Vec::new(alloc);
    'fields: for field in fields {
        add_handed(labels, field, &mut names)?;
    }
    Ok(names)
}

fn add_handed<'a>(
    labels: &[Label],
    field: &'a (Word, Pattern),
    names: &mut Vec<&'a Label>,
) -> Result<(), NoMemory>
    ensures { IfOk result (λ _. (rest : Pats) → names_of names.new.items ++ seconds_of (handed_in labels.now rest)
        ≡ names_of names.old.items ++ seconds_of (handed_in labels.now (pats field.now.0 (pattern_view field.now.1) rest))) }
{
    if is_label(&field.0.text, labels) {
        if let Pattern::Bind(word) = &field.1 {
            names.push(&word.text)?;
        }
    }
    Ok(())
}

// The variables of the other fields, the last bound first.
fn others<'a>(
    alloc: Global,
    labels: &[Label],
    pattern: &'a Pattern,
) -> Result<Vec<&'a Label>, NoMemory>
    ensures { IfOk result (λ names. names_of names.items ≡ other_names labels.now (pattern_view pattern.now)) }
{
    match pattern {
        Pattern::Rec(fields, tail) => others_in(alloc, labels, fields.slice(), tail),
        _ => bound_in(alloc, pattern),
    }
}

fn others_in<'a>(
    alloc: Global,
    labels: &[Label],
    fields: &'a [(Word, Pattern)],
    tail: &'a Tail,
) -> Result<Vec<&'a Label>, NoMemory>
    ensures { IfOk result (λ names. names_of names.items ≡ other_names labels.now (shape (patterns_view fields.now) tail.now)) }
{
    match tail {
        Tail::Exact => left_in(alloc, labels, fields),
        Tail::Open | Tail::Rest(_) => all_in(alloc, fields, tail),
    }
}

fn all_in<'a>(
    alloc: Global,
    fields: &'a [(Word, Pattern)],
    tail: &'a Tail,
) -> Result<Vec<&'a Label>, NoMemory>
    ensures { IfOk result (λ names. names_of names.items ≡ rest_after tail.now (names_after_all (patterns_view fields.now) [])) }
{
    let mut names = Vec::new(alloc);
    enter_all(fields, &mut names)?;
    enter_tail(tail, &mut names)?;
    Ok(names)
}

fn left_in<'a>(
    alloc: Global,
    labels: &[Label],
    fields: &'a [(Word, Pattern)],
) -> Result<Vec<&'a Label>, NoMemory>
    ensures { IfOk result (λ names. names_of names.items ≡ names_after_all (rest_in labels.now (patterns_view fields.now)) []) }
{
    let mut names = Vec::new(alloc);
    enter_rest(labels, fields, &mut names)?;
    Ok(names)
}

fn bound_in<'a>(alloc: Global, pattern: &'a Pattern) -> Result<Vec<&'a Label>, NoMemory>
    ensures { IfOk result (λ names. names_of names.items ≡ names_after (pattern_view pattern.now) []) }
{
    let mut names = Vec::new(alloc);
    enter(pattern, &mut names)?;
    Ok(names)
}

fn decl_copy(alloc: Global, all: &[Known], before: Before<'_>, def: &Decl) -> Result<Decl, NoMemory>
    ensures { IfOk result (λ copy. IsPlainDecl (fields_in all.now) (functions_of before.entry.known.now before.entry.sources.now) def.now copy) }
{
    match &def.param {
        Some(pattern) => function_copy(alloc, all, before, def, pattern),
        None => constant_copy(alloc, all, before, def),
    }
}

fn function_copy(
    alloc: Global,
    all: &[Known],
    before: Before<'_>,
    def: &Decl,
    pattern: &Pattern,
) -> Result<Decl, NoMemory>
    ensures name { IfOk result (λ copy. copy.name ≡ def.now.name) }
    ensures param { IfOk result (λ copy. copy.param ≡ Some pattern.now) }
    ensures body { IfOk result (λ copy. view copy.body ≡ function_body (fields_in all.now) (functions_of before.entry.known.now before.entry.sources.now)
        def.now.name.text (pattern_view pattern.now) (view def.now.body)) }
{
    let labels = labels_of(all, &def.name.text);
    let params = parameters(alloc, labels, pattern)?;
    let hiding = others(alloc, labels, pattern)?;
    let place = Place {
        alloc,
        all,
        before,
        params: &params,
    };
    let body = place.expr(&hiding, None, &def.body)?;
    let name = word_copy(&def.name)?;
    Ok(Decl {
        name,
        param: Some(pattern_copy(alloc, pattern)?),
        body,
    })
}

fn constant_copy(
    alloc: Global,
    all: &[Known],
    before: Before<'_>,
    def: &Decl,
) -> Result<Decl, NoMemory>
    ensures name { IfOk result (λ copy. copy.name ≡ def.now.name) }
    ensures param { IfOk result (λ copy. copy.param ≡ None) }
    ensures body { IfOk result (λ copy. view copy.body ≡ plainly (fields_in all.now) (functions_of before.entry.known.now before.entry.sources.now)
        [] (view def.now.body) None []) }
{
    let place = Place {
        alloc,
        all,
        before,
        params: &[],
    };
    let body = place.expr(&[], None, &def.body)?;
    let name = word_copy(&def.name)?;
    Ok(Decl {
        name,
        param: None,
        body,
    })
}

/// The copy of a program without its functions, as what is known of its definitions makes it.
pub fn plain_program(
    alloc: Global,
    known: &[Known],
    program: &Program,
    sources: &[Label],
) -> Result<Program, NoMemory>
    requires { AreKnown sources.now [] known.now program.now.defs }
    ensures defs { IfOk result (λ copy. decls_of copy.defs ≡ decls_plainly (fields_in known.now) (decls_of program.now.defs) (first_functions sources.now)) }
    ensures last { IfOk result (λ copy. view copy.last ≡ last_plainly (fields_in known.now) (decls_of program.now.defs) (view program.now.last) (first_functions sources.now)) }
{
    let defs = program.defs.slice();
    let mut made = Vec::with_capacity(alloc, defs.len())?;
    'defs: for i in 0..defs.len() {
        let before = Before {
            sources,
            known: &known[..i],
        };
        made.push(decl_copy(alloc, known, before, &defs[i])?)?;
    }
    let place = Place {
        alloc,
        all: known,
        before: Before { sources, known },
        params: &[],
    };
    let last = place.expr(&[], None, &program.last)?;
    Ok(Program {
        defs: Seq::of(made),
        last,
    })
}
