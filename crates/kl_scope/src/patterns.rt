//! The variables of patterns.
ghost use Rattle.std.specs.Prelude.{◌≡◌, ◌++◌, IfOk};
ghost use Rattle.kl_syntax.specs.View.{pattern_view, patterns_view};
ghost use Rattle.kl_scope.specs.Patterns.{rest_variable, variables, variables_all};
ghost use Rattle.kl_scope.specs.Senses.{behind_each};

use kl_base::NoMemory;
use kl_syntax::{Pattern, Tail, Word};

/// Adds the variables of a pattern, as they are written.
#[cycle(variables)]
pub fn variables<'a>(pattern: &'a Pattern, words: &mut Vec<&'a Word>) -> Result<(), NoMemory>
    ensures { IfOk result (λ _. behind_each words.new.items ≡ behind_each words.old.items ++ variables (pattern_view pattern.now)) }
{
    match pattern {
        Pattern::Bind(word) => {
            words.push(word)?;
            Ok(())
        }
        Pattern::Any | Pattern::Same(_) | Pattern::Is(_, _) => Ok(()),
        Pattern::Rec(fields, tail) => {
            variables_all(fields.slice(), words)?;
            rest_variable(tail, words)
        }
        Pattern::Inj(_, inner) => variables(inner.get(), words),
    }
}

fn rest_variable<'a>(tail: &'a Tail, words: &mut Vec<&'a Word>) -> Result<(), NoMemory>
    ensures { IfOk result (λ _. behind_each words.new.items ≡ behind_each words.old.items ++ rest_variable tail.now) }
{
    match tail {
        Tail::Rest(word) => {
            words.push(word)?;
            Ok(())
        }
        Tail::Exact | Tail::Open => Ok(()),
    }
}

#[cycle(variables)]
fn variables_all<'a>(
    fields: &'a [(Word, Pattern)],
    words: &mut Vec<&'a Word>,
) -> Result<(), NoMemory>
    ensures { IfOk result (λ _. behind_each words.new.items ≡ behind_each words.old.items ++ variables_all (patterns_view fields.now)) }
{
    'fields: for field in fields {
        variables(&field.1, words)?;
    }
    Ok(())
}
