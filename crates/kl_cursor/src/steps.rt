//! Steps of a cursor that step nothing themselves.
ghost use Rattle.std.specs.Prelude.{◌≡◌, List, reverse, IfOk, Some, IsSome, ⊤};
ghost use Rattle.kl_value.specs.declared.value.Value.{Value as Item};
ghost use Rattle.kl_value.specs.Views.{IsBool, IsCollection};
ghost use Rattle.kl_scans.specs.Running.{Running};
ghost use Rattle.kl_outcome.specs.Outcome.{as_variant};
ghost use Rattle.kl_eval.specs.Steps.{TellsTruth};
ghost use Rattle.kl_plan.specs.Nodes.{view};
ghost use Rattle.kl_cursor.specs.Left.{fresh, have, end_of, snap};
ghost use Rattle.kl_cursor.specs.Steps.{Steps, Opened, Halted, Drained};

use crate::state::State;
use kl_base::{Box, Label, NoMemory, Seq};
use kl_eval::{EvalStop, Halt};
use kl_plan::Plan;
use kl_value::{Value, bool_of, into_parts};
use std::alloc::Global;
use std::mem;

/// Puts a value in a box, and takes out the one that was there.
pub fn swap<T>(slot: &mut Box<T>, value: T) -> T
    ensures old { result ≡ slot.old }
    ensures new { slot.new ≡ value }
{
    mem::replace(slot.get_mut(), value)
}

/// A cursor of a plan, with nothing done yet.
pub fn fresh_box<'p>(alloc: Global, plan: &'p Plan) -> Result<Box<State<'p>>, NoMemory>
    ensures { IfOk result (λ s. snap s ≡ fresh (view plan.now)) }
{
    Box::new(alloc, State::Fresh(plan))
}

/// The items of a collection, the first one last.
fn open_items<'p>(value: Value) -> State<'p>
    requires { IsCollection value }
    ensures { Opened value (snap result) }
{
    let (_, items) = into_parts(value);
    let mut items = items;
    items.reverse();
    let _count = items.len();
    State::Have(Seq::of(items), false)
}

/// What a part that is evaluated whole gives.
///
/// # Errors
/// What stopped it, but for an overflow, which is told behind the items that come before it.
pub fn open_whole<'p>(outcome: Result<Value, Halt>) -> Result<State<'p>, EvalStop>
    requires { IfOk outcome IsCollection }
    ensures { Halted outcome result }
{
    match outcome {
        Ok(value) => Ok(open_items(value)),
        Err(Halt::Over(items)) => {
            let mut items = items;
            items.reverse();
            let _count = items.len();
            Ok(State::Have(Seq::of(items), true))
        }
        Err(Halt::Driver { source, error }) => Err(EvalStop::Driver { source, error }),
        Err(Halt::NoMemory) => Err(EvalStop::NoMemory),
    }
}

/// What a plan that is drained gives.
///
/// # Errors
/// What stopped it, but for an overflow, which is told behind the items that come before it.
pub fn open_drained<'p>(outcome: Result<Vec<Value>, Halt>) -> Result<State<'p>, EvalStop>
    ensures { Drained outcome result }
{
    match outcome {
        Ok(items) => {
            let mut items = items;
            items.reverse();
            let _count = items.len();
            Ok(State::Have(Seq::of(items), false))
        }
        Err(Halt::Over(items)) => {
            let mut items = items;
            items.reverse();
            let _count = items.len();
            Ok(State::Have(Seq::of(items), true))
        }
        Err(Halt::Driver { source, error }) => Err(EvalStop::Driver { source, error }),
        Err(Halt::NoMemory) => Err(EvalStop::NoMemory),
    }
}

/// Takes the next item, which stands last.
pub fn pop<'p>(items: Seq<Value>, past: bool) -> Result<(Option<Value>, State<'p>), EvalStop>
    ensures { (env : List Item) (w : Running) → Steps env (have (reverse items) (end_of past)) result w w }
{
    let mut items = items.into_vec();
    match items.pop() {
        Some(item) => Ok((Some(item), State::Have(Seq::of(items), past))),
        None => {
            if past {
                Err(EvalStop::Overflow)
            } else {
                Ok((None, State::Done))
            }
        }
    }
}

/// A cursor that has nothing left is let go.
pub fn let_go(at: State)
    ensures { ⊤ }
{
    let _ = at;
}

/// The truth value that a test came to.
pub fn truth(test: Result<Value, EvalStop>) -> Result<bool, EvalStop>
    requires { IfOk test IsBool }
    ensures { TellsTruth test result }
{
    match test {
        Ok(test) => Ok(bool_of(&test)),
        Err(stop) => Err(stop),
    }
}

/// The label and the value of a variant.
pub fn carried(variant: Value) -> (Label, Value)
    requires { IsSome (as_variant variant) }
    ensures { as_variant variant ≡ Some (result.0, result.1) }
{
    match variant {
        Value::Inj(label, carried) => (label, carried.into_inner()),
        _ => unreachable!(),
    }
}
