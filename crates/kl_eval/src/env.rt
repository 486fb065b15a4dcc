//! What positions have, and what is looked at where it stands.
ghost use Rattle.std.specs.Prelude.{◌≡◌, Some, IsSome, IfSome, slice_get};
ghost use Rattle.kl_core.specs.Trees.{view};
ghost use Rattle.kl_core.specs.Core.{Tables};
ghost use Rattle.kl_core.specs.Typing.{SourceTypes};
ghost use Rattle.kl_outcome.specs.Outcome.{done};
ghost use Rattle.kl_eval.specs.Comes.{Comes};
ghost use Rattle.kl_eval.specs.Evals.{HasSense};
ghost use Rattle.kl_eval.specs.Standing.{IsStanding};
ghost use Rattle.kl_eval.specs.Values.{values};

use kl_core::Term;
use kl_value::{Value, field};

/// What each position has, the nearest first: values on the stack, before those of a list whose last is the nearest.
#[derive(Drop)]
pub enum Env<'a> {
    Base(&'a [Value]),
    Near(&'a Value, &'a Env<'a>),
}

/// The value at a position.
pub fn variable<'a>(env: &'a Env<'a>, at: u32) -> &'a Value
    requires { IsSome (slice_get (values env.now) at) }
    ensures { slice_get (values env.now) at ≡ Some result.now }
{
    match env {
        Env::Base(items) => &items[items.len() - 1 - at as usize],
        Env::Near(value, rest) => {
            if at == 0 {
                value
            } else {
                variable(rest, at - 1)
            }
        }
    }
}

/// The value of a variable, of a constant, or of a field of one of them, where it stands.
pub fn lent<'a>(term: &'a Term, env: &'a Env<'a>) -> Option<&'a Value>
    requires { HasSense (view term.now) (values env.now) }
    ensures value { IfSome result (λ v. (S : SourceTypes) (T : Tables) → Comes S T (values env.now) (view term.now) (done v.now)) }
    ensures lends { IsStanding (view term.now) → IsSome result }
    ensures no_other { IsSome result → IsStanding (view term.now) }
{
    match term {
        Term::Var(at) => Some(variable(env, *at)),
        Term::Const(constant) => Some(constant),
        Term::Proj(label, whole) => match lent(whole.get(), env) {
            Some(whole) => Some(field(whole, label)),
            None => None,
        },
        _ => None,
    }
}
