//! The variables behind a pattern, the last bound first.
ghost use Rattle.std.specs.Prelude.{◌≡◌, ◌∷◌, IfOk};
ghost use Rattle.kl_syntax.specs.View.{pattern_view, patterns_view};
ghost use Rattle.kl_ho.specs.HoPrograms.{rest_in};
ghost use Rattle.kl_ho.specs.Shapes.{names_after, names_after_all, rest_after};
ghost use Rattle.kl_functions.specs.Occurrences.{names_of};

use crate::first::is_label;
use kl_base::{Label, NoMemory};
use kl_syntax::{Pattern, Tail, Word};

fn put_in_front<'a>(name: &'a Label, names: &mut Vec<&'a Label>) -> Result<(), NoMemory>
    ensures { IfOk result (λ _. names_of names.new.items ≡ name.now ∷ names_of names.old.items) }
{
    names.insert(0, name)?;
    Ok(())
}

/// Puts the variables of a pattern in front.
#[cycle(enter)]
pub fn enter<'a>(pattern: &'a Pattern, names: &mut Vec<&'a Label>) -> Result<(), NoMemory>
    ensures { IfOk result (λ _. names_of names.new.items ≡ names_after (pattern_view pattern.now) (names_of names.old.items)) }
{
    match pattern {
        Pattern::Bind(word) => put_in_front(&word.text, names),
        Pattern::Any | Pattern::Same(_) | Pattern::Is(_, _) => Ok(()),
        Pattern::Rec(fields, tail) => {
            enter_all(fields.slice(), names)?;
            enter_tail(tail, names)
        }
        Pattern::Inj(_, inner) => enter(inner.get(), names),
    }
}

/// Puts the variable in front that catches the other fields.
pub fn enter_tail<'a>(tail: &'a Tail, names: &mut Vec<&'a Label>) -> Result<(), NoMemory>
    ensures { IfOk result (λ _. names_of names.new.items ≡ rest_after tail.now (names_of names.old.items)) }
{
    match tail {
        Tail::Rest(word) => put_in_front(&word.text, names),
        Tail::Exact | Tail::Open => Ok(()),
    }
}

/// Puts the variables of the patterns of fields in front, one field after another.
#[cycle(enter)]
pub fn enter_all<'a>(
    fields: &'a [(Word, Pattern)],
    names: &mut Vec<&'a Label>,
) -> Result<(), NoMemory>
    ensures { IfOk result (λ _. names_of names.new.items ≡ names_after_all (patterns_view fields.now) (names_of names.old.items)) }
{
    'fields: for field in fields {
        enter(&field.1, names)?;
    }
    Ok(())
}

/// Puts the variables in front of the fields that have none of these labels.
pub fn enter_rest<'a>(
    labels: &[Label],
    fields: &'a [(Word, Pattern)],
    names: &mut Vec<&'a Label>,
) -> Result<(), NoMemory>
    ensures { IfOk result (λ _. names_of names.new.items ≡ names_after_all (rest_in labels.now (patterns_view fields.now)) (names_of names.old.items)) }
{
    'fields: for field in fields {
        if !is_label(&field.0.text, labels) {
            enter(&field.1, names)?;
        }
    }
    Ok(())
}
