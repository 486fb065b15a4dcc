//! The variables that stand before others at a place.
ghost use Rattle.std.specs.Prelude.{◌≡◌, ◌++◌, IfOk};
ghost use Rattle.std.specs.List.{list_any};
ghost use Rattle.kl_syntax.specs.View.{pattern_view, patterns_view};
ghost use Rattle.kl_scope.specs.Patterns.{rest_variable, variables, variables_all};
ghost use Rattle.kl_meaning.specs.Match.{same_name};
ghost use Rattle.kl_ho.specs.Expansion.{texts};
ghost use Rattle.kl_ho.specs.Functions.{behind_pattern};
ghost use Rattle.kl_ho.specs.HoPrograms.{is_among};
ghost use Rattle.kl_functions.specs.Occurrences.{names_of};

use kl_base::{Label, NoMemory};
use kl_syntax::{Pattern, Tail, Word};
use std::alloc::Global;

/// Whether a name is one of these.
pub fn is_among(name: &Label, names: &[&Label]) -> bool
    ensures { result ≡ is_among name.now (names_of names.now) }
{
    is_one_of(name, names)
}

fn is_one_of(name: &Label, names: &[&Label]) -> bool
    ensures { result ≡ list_any (λ other. same_name name.now other.now) names.now }
{
    names.iter().any(|other| *name == **other)
}

/// The variables of a pattern, as they are written, and then those that stand around it.
pub fn behind<'a>(
    alloc: Global,
    pattern: &'a Pattern,
    around: &[&'a Label],
) -> Result<Vec<&'a Label>, NoMemory>
    ensures { IfOk result (λ names. names_of names.items ≡ behind_pattern (pattern_view pattern.now) (names_of around.now)) }
{
    let mut names = Vec::new(alloc);
    variables(pattern, &mut names)?;
    add_all(around, &mut names)?;
    Ok(names)
}

/// The same names once more.
pub fn copied<'a>(alloc: Global, names: &[&'a Label]) -> Result<Vec<&'a Label>, NoMemory>
    ensures { IfOk result (λ copy. names_of copy.items ≡ names_of names.now) }
{
    let mut copy = Vec::new(alloc);
    add_all(names, &mut copy)?;
    Ok(copy)
}

fn add_all<'a>(added: &[&'a Label], names: &mut Vec<&'a Label>) -> Result<(), NoMemory>
    ensures { IfOk result (λ _. names_of names.new.items ≡ names_of names.old.items ++ names_of added.now) }
{
    'added: for name in added {
        names.push(*name)?;
    }
    Ok(())
}

/// Adds the variables of a pattern, as they are written.
#[cycle(variables)]
pub fn variables<'a>(pattern: &'a Pattern, names: &mut Vec<&'a Label>) -> Result<(), NoMemory>
    ensures { IfOk result (λ _. names_of names.new.items ≡ names_of names.old.items ++ texts (variables (pattern_view pattern.now))) }
{
    match pattern {
        Pattern::Bind(word) => {
            names.push(&word.text)?;
            Ok(())
        }
        Pattern::Any | Pattern::Same(_) | Pattern::Is(_, _) => Ok(()),
        Pattern::Rec(fields, tail) => {
            variables_all(fields.slice(), names)?;
            rest_variable(tail, names)
        }
        Pattern::Inj(_, inner) => variables(inner.get(), names),
    }
}

fn rest_variable<'a>(tail: &'a Tail, names: &mut Vec<&'a Label>) -> Result<(), NoMemory>
    ensures { IfOk result (λ _. names_of names.new.items ≡ names_of names.old.items ++ texts (rest_variable tail.now)) }
{
    match tail {
        Tail::Rest(word) => {
            names.push(&word.text)?;
            Ok(())
        }
        Tail::Exact | Tail::Open => Ok(()),
    }
}

#[cycle(variables)]
fn variables_all<'a>(
    fields: &'a [(Word, Pattern)],
    names: &mut Vec<&'a Label>,
) -> Result<(), NoMemory>
    ensures { IfOk result (λ _. names_of names.new.items ≡ names_of names.old.items ++ texts (variables_all (patterns_view fields.now))) }
{
    'fields: for field in fields {
        variables(&field.1, names)?;
    }
    Ok(())
}
