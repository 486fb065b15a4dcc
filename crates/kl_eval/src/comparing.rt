//! Comparisons of which no value is made.
ghost use Rattle.std.specs.Prelude.{◌≡◌, [], ◌∷◌, IfSome};
ghost use Rattle.kl_value.specs.declared.value.Value.TheVariants as value;
ghost use Rattle.kl_prim.specs.Meaning.{gives};
ghost use Rattle.kl_prim.specs.Table.{meaning};
ghost use Rattle.kl_outcome.specs.Outcome.{done};
ghost use Rattle.kl_core.specs.Core.{Tables};
ghost use Rattle.kl_core.specs.Trees.{Prim, trees_view, view};
ghost use Rattle.kl_core.specs.Typing.{SourceTypes};
ghost use Rattle.kl_ask.specs.World.{World};
ghost use Rattle.kl_eval.specs.Comes.{Comes};
ghost use Rattle.kl_eval.specs.Evals.{Sense, SenseCall};
ghost use Rattle.kl_eval.specs.Values.{values};

use crate::env::{Env, lent};
use kl_core::Term;
use kl_value::{Value, cmp};

// Whether a comparison holds of two values. None of a primitive that is no comparison: these have the codes 1 to 6.
fn holds(code: u8, first: &Value, second: &Value) -> Option<bool>
    ensures { IfSome result (λ yes. meaning code (first.now ∷ second.now ∷ []) ≡ gives (value.Bool yes)) }
{
    let order = cmp(first, second);
    match code {
        1 => Some(order.is_eq()),
        2 => Some(order.is_ne()),
        3 => Some(order.is_lt()),
        4 => Some(order.is_le()),
        5 => Some(order.is_gt()),
        6 => Some(order.is_ge()),
        _ => None,
    }
}

// The same of a call whose arguments both stand in the term or in the environment.
fn both_compared(code: u8, terms: &[Term], env: &Env) -> Option<bool>
    requires { (w : World) × SenseCall code (trees_view terms.now) (values env.now) w }
    ensures { IfSome result (λ yes. (S : SourceTypes) (T : Tables) → Comes S T (values env.now) (Prim code (trees_view terms.now))
        (done (value.Bool yes))) }
{
    if code > 6 {
        None
    } else if terms.len() == 2 {
        match lent(&terms[0], &*env) {
            Some(first) => match lent(&terms[1], &*env) {
                Some(second) => holds(code, first, second),
                None => None,
            },
            None => None,
        }
    } else {
        None
    }
}

/// Whether a comparison holds, where what it compares stands in the term or in the environment. None of any other term.
/// Takes no memory.
pub fn compared(term: &Term, env: &Env) -> Option<bool>
    requires { (w : World) × Sense (view term.now) (values env.now) w }
    ensures { IfSome result (λ yes. (S : SourceTypes) (T : Tables) → Comes S T (values env.now) (view term.now) (done (value.Bool yes))) }
{
    match term {
        Term::Prim(code, terms) => both_compared(*code, terms.slice(), &*env),
        _ => None,
    }
}
