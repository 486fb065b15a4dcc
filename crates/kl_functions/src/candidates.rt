//! The fields of a parameter that may be functions.
ghost use Rattle.std.specs.Prelude.{◌≡◌, ◌++◌, IfOk};
ghost use Rattle.kl_syntax.specs.Syntax.{Pats, pats};
ghost use Rattle.kl_syntax.specs.View.{pattern_view, patterns_view};
ghost use Rattle.kl_scope.specs.Patterns.{variables};
ghost use Rattle.kl_ho.specs.Expansion.{texts};
ghost use Rattle.kl_ho.specs.Functions.{candidates, candidates_in};
ghost use Rattle.kl_functions.specs.Occurrences.{names_of, pairs_of, seconds_of};

use crate::occurrences::Parameter;
use crate::variables::variables;
use kl_base::{Label, NoMemory};
use kl_syntax::{Pattern, Tail, Word};
use std::alloc::Global;

/// The fields that may be functions, each by its label and its variable: those of a record pattern without `...`.
pub fn candidates<'a>(
    alloc: Global,
    pattern: &'a Pattern,
) -> Result<Vec<(&'a Label, &'a Label)>, NoMemory>
    ensures { IfOk result (λ fields. pairs_of fields.items ≡ candidates (pattern_view pattern.now)) }
{
    match pattern {
        Pattern::Rec(fields, Tail::Exact) => candidates_in(alloc, fields.slice()),
        _ => Ok(Vec::new(alloc)),
    }
}

fn candidates_in<'a>(
    alloc: Global,
    fields: &'a [(Word, Pattern)],
) -> Result<Vec<(&'a Label, &'a Label)>, NoMemory>
    ensures { IfOk result (λ found. pairs_of found.items ≡ candidates_in (patterns_view fields.now)) }
{
    let mut found = Vec::new(alloc);
    'fields: for field in fields {
        add_candidate(field, &mut found)?;
    }
    Ok(found)
}

fn add_candidate<'a>(
    field: &'a (Word, Pattern),
    found: &mut Vec<(&'a Label, &'a Label)>,
) -> Result<(), NoMemory>
    ensures { IfOk result (λ _. (rest : Pats) → pairs_of found.new.items ++ candidates_in rest
        ≡ pairs_of found.old.items ++ candidates_in (pats field.now.0 (pattern_view field.now.1) rest)) }
{
    if let Pattern::Bind(word) = &field.1 {
        found.push((&field.0.text, &word.text))?;
    }
    Ok(())
}

/// The variables of a parameter with these candidates.
pub fn parameter<'a>(
    alloc: Global,
    pattern: &'a Pattern,
    fields: &[(&'a Label, &'a Label)],
) -> Result<Parameter<'a>, NoMemory>
    ensures variables { IfOk result (λ p. names_of p.variables.items ≡ texts (variables (pattern_view pattern.now))) }
    ensures candidates { IfOk result (λ p. names_of p.candidates.items ≡ seconds_of (pairs_of fields.now)) }
{
    let mut names = Vec::new(alloc);
    variables(pattern, &mut names)?;
    Ok(Parameter {
        alloc,
        variables: names,
        candidates: seconds(alloc, fields)?,
    })
}

fn seconds<'a>(alloc: Global, fields: &[(&'a Label, &'a Label)]) -> Result<Vec<&'a Label>, NoMemory>
    ensures { IfOk result (λ names. names_of names.items ≡ seconds_of (pairs_of fields.now)) }
{
    let mut names = Vec::new(alloc);
    'fields: for field in fields {
        names.push(field.1)?;
    }
    Ok(names)
}
