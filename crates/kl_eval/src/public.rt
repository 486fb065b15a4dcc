//! The public calls.
ghost use Rattle.std.specs.Prelude.{◌≡◌, IfSome, IsSome, reverse};
ghost use Rattle.kl_value.specs.declared.value.Value.TheVariants as value;
ghost use Rattle.kl_core.specs.Core.{core};
ghost use Rattle.kl_core.specs.Trees.{view};
ghost use Rattle.kl_outcome.specs.Outcome.{done};
ghost use Rattle.kl_ask.specs.World.{World};
ghost use Rattle.kl_eval.specs.Evals.{Sense, SenseAnywhere, SenseList, SensePlain, Evaluates, EvaluatesList, TellsPart};
ghost use Rattle.kl_eval.specs.Evals.{TellsPlain, no_tables};
ghost use Rattle.kl_eval.specs.Sources.{NoSource};
ghost use Rattle.kl_eval.specs.Standing.{IsStanding};
ghost use Rattle.kl_eval.specs.Values.{arg_in, values};

use crate::comparing::compared;
use crate::env::{Env, lent};
use crate::evaluator::{look, value};
use crate::steps::{add_list, inside};
use crate::stop::{EvalStop, Halt};
use kl_ask::{Seen, Session};
use kl_core::Term;
use kl_prim::Arg;
use kl_value::Value;
use std::alloc::Global;

/// The value of a term that makes sense under the types of the session's attached sources, where the last value of `env`
/// is the nearest. Each source is read anew wherever it stands (no clause counts the readings).
///
/// Afterwards, also after a stop, the session has the same sources and settings, and its drivers have the same sources
/// attached and the same cursors open. A term in which no source stands leaves the session as it was.
///
/// # Errors
/// `Overflow` exactly where the outcome of the term is an overflow; `Driver` where the driver of that source refused to go
/// on, for a fault that it counted, or for a drift of contents that it does not tell; `NoMemory`. The last two come first.
pub fn eval(
    alloc: Global,
    term: &Term,
    env: &mut Vec<Value>,
    session: &mut Session,
) -> Result<Value, EvalStop>
    requires { Sense (view term.now) (reverse env.old.items) (⟦<Session as Seen>⟧.world session.old) }
    ensures env { env.new.items ≡ env.old.items }
    ensures value { Evaluates (view term.now) (reverse env.old.items) result (⟦<Session as Seen>⟧.world session.old)
        (⟦<Session as Seen>⟧.world session.new) }
{
    inside(value(alloc, term, &Env::Base(env.as_slice()), session))
}

/// Adds the items of a term that makes sense as a list. Of the session the same holds as with `eval`.
///
/// # Errors
/// Those of `eval`. After `Overflow` the items before it are added; after the others the list is as before.
pub fn eval_list(
    alloc: Global,
    term: &Term,
    env: &mut Vec<Value>,
    session: &mut Session,
    into: &mut Vec<Value>,
) -> Result<(), EvalStop>
    requires { SenseList (view term.now) (reverse env.old.items) (⟦<Session as Seen>⟧.world session.old) }
    ensures env { env.new.items ≡ env.old.items }
    ensures items { EvaluatesList (view term.now) (reverse env.old.items) result into.old.items into.new.items
        (⟦<Session as Seen>⟧.world session.old) (⟦<Session as Seen>⟧.world session.new) }
{
    add_list(
        value(alloc, term, &Env::Base(env.as_slice()), session),
        into,
    )
}

/// The value of a term in which no source stands, and that makes sense whatever sources are attached. Nothing is read: the
/// session stays as it was.
///
/// # Errors
/// `Over` exactly where the outcome of the term is an overflow, with the items before it; `NoMemory`.
pub fn plain(alloc: Global, term: &Term, env: &Env, session: &mut Session) -> Result<Value, Halt>
    requires { SensePlain (view term.now) (values env.now) (⟦<Session as Seen>⟧.world session.old) }
    ensures same { ⟦<Session as Seen>⟧.world session.new ≡ ⟦<Session as Seen>⟧.world session.old }
    ensures gives { TellsPlain (⟦<Session as Seen>⟧.world session.old) (view term.now) (values env.now) result }
{
    value(alloc, term, &*env, session)
}

/// The value of such a term where that is a part of another: lent where it stands in the term or in the environment. Nothing is read:
/// the session stays as it was.
///
/// # Errors
/// `Overflow` exactly where the outcome of the term is an overflow; `NoMemory`.
pub fn part<'a>(
    alloc: Global,
    term: &'a Term,
    env: &'a Env<'a>,
    session: &mut Session,
) -> Result<Arg<'a>, EvalStop>
    requires { SensePlain (view term.now) (values env.now) (⟦<Session as Seen>⟧.world session.old) }
    ensures same { ⟦<Session as Seen>⟧.world session.new ≡ ⟦<Session as Seen>⟧.world session.old }
    ensures gives { TellsPart (⟦<Session as Seen>⟧.world session.old) (view term.now) (values env.now) (arg_in result) }
{
    look(alloc, term, env, session)
}

/// The value of a term where it stands, or None exactly where the term is no variable, no constant and no field of one of them. No
/// source stands in the term, and it makes sense whatever sources are attached. Takes no memory.
pub fn lent_plain<'a>(term: &'a Term, env: &'a Env<'a>) -> Option<&'a Value>
    requires plain { NoSource (view term.now) }
    requires sense { SenseAnywhere (view term.now) (values env.now) }
    ensures value { IfSome result (λ v. core no_tables (view term.now) (values env.now) ≡ done v.now) }
    ensures lends { IsStanding (view term.now) → IsSome result }
    ensures no_other { IsSome result → IsStanding (view term.now) }
{
    lent(term, env)
}

/// Whether a comparison holds, if what it compares stands in the term or in the environment. None tells nothing of the term. No
/// source stands in it, and it makes sense whatever sources are attached. Takes no memory.
pub fn compared_plain(term: &Term, env: &Env) -> Option<bool>
    requires { (w : World) × SensePlain (view term.now) (values env.now) w }
    ensures { IfSome result (λ yes. core no_tables (view term.now) (values env.now) ≡ done (value.Bool yes)) }
{
    compared(term, &*env)
}
