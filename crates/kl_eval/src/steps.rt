//! Steps of the evaluator that evaluate nothing themselves.
ghost use Rattle.std.specs.Prelude.{◌≡◌, Some, IsSome, IfOk, IfSome, All, ◌<◌, length, [], ◌∷◌};
ghost use Rattle.kl_value.specs.Canon.{canonical};
ghost use Rattle.kl_value.specs.IsCanonical.{IsCanonical};
ghost use Rattle.kl_value.specs.Views.{IsBool, IsCollection, items_at};
ghost use Rattle.kl_value.specs.declared.value.Value.TheVariants as value;
ghost use Rattle.kl_value.specs.declared.value.Kind.TheVariants as kind;
ghost use Rattle.kl_prim.specs.Arguments.{values_in};
ghost use Rattle.kl_prim.specs.Table.{Fits, meaning};
ghost use Rattle.kl_outcome.specs.Outcome.{done, as_variant};
ghost use Rattle.kl_eval.specs.Values.{arg_in};
ghost use Rattle.kl_eval.specs.Steps.{AnswersOutcome, inside_of, Outside, AppendsAll, AddsItems, AddsField, AddsList, Behind};
ghost use Rattle.kl_eval.specs.Steps.{Gathers, AnswersPrim};
ghost use Rattle.kl_eval.specs.Steps.{place_of, TellsTruth, Joins};

use crate::stop::{EvalStop, Halt};
use kl_base::{Box, Label, Seq};
use kl_prim::{Arg, Args, PrimStop, apply_args};
use kl_value::{Kind, Value, bool_of, canon, dup, into_parts};
use std::alloc::Global;

/// A copy of a value.
pub fn copy(alloc: Global, value: &Value) -> Result<Value, Halt>
    ensures { AnswersOutcome (done value.now) result }
{
    match dup(alloc, value) {
        Ok(value) => Ok(value),
        Err(_) => Err(Halt::NoMemory),
    }
}

/// The variant that carries a value under a label.
pub fn tag(alloc: Global, label: &Label, carried: Value) -> Result<Value, Halt>
    ensures { AnswersOutcome (done (value.Inj label.now carried)) result }
{
    match label.dup() {
        Ok(label) => match Box::new(alloc, carried) {
            Ok(carried) => Ok(Value::Inj(label, carried)),
            Err(_) => Err(Halt::NoMemory),
        },
        Err(_) => Err(Halt::NoMemory),
    }
}

/// The value of a part; an overflow in it leaves no items.
pub fn inside(outcome: Result<Value, Halt>) -> Result<Value, EvalStop>
    ensures { result ≡ inside_of outcome }
{
    match outcome {
        Ok(value) => Ok(value),
        Err(Halt::Over(_)) => Err(EvalStop::Overflow),
        Err(Halt::Driver { source, error }) => Err(EvalStop::Driver { source, error }),
        Err(Halt::NoMemory) => Err(EvalStop::NoMemory),
    }
}

/// What a part was stopped by stops the whole.
pub fn outside(alloc: Global, stop: EvalStop) -> Halt
    ensures { Outside stop result }
{
    match stop {
        EvalStop::Overflow => Halt::Over(Vec::new(alloc)),
        EvalStop::Driver { source, error } => Halt::Driver { source, error },
        EvalStop::NoMemory => Halt::NoMemory,
    }
}

/// The label and the value of a variant.
pub fn variant(value: &Value) -> (&Label, &Value)
    requires { IsSome (as_variant value.now) }
    ensures { as_variant value.now ≡ Some (result.0.now, result.1.now) }
{
    match value {
        Value::Inj(label, carried) => (label, carried.get()),
        _ => unreachable!(),
    }
}

/// The place of the first branch for a label.
pub fn place<T>(branches: &[(Label, T)], label: &Label) -> Option<usize>
    ensures place { result ≡ place_of label.now branches.now }
    ensures within { IfSome result (λ i. i < length branches.now) }
{
    'branches: for i in 0..branches.len() {
        if *label == branches[i].0 {
            return Some(i);
        }
    }
    None
}

/// The truth value that a test came to.
pub fn truth(test: Result<Arg<'_>, EvalStop>) -> Result<bool, EvalStop>
    requires { IfOk (arg_in test) IsBool }
    ensures { TellsTruth (arg_in test.entry) result }
{
    match test {
        Ok(test) => Ok(bool_of(test.get())),
        Err(stop) => Err(stop),
    }
}

/// Adds a value.
pub fn push(value: Value, out: &mut Vec<Value>) -> Result<(), Halt>
    ensures { AppendsAll (value ∷ []) result out.old.items out.new.items }
{
    match out.push(value) {
        Ok(()) => Ok(()),
        Err(_) => Err(Halt::NoMemory),
    }
}

/// Adds the items of a collection.
pub fn append(whole: Value, out: &mut Vec<Value>) -> Result<(), Halt>
    requires { IsCollection whole }
    ensures { AddsItems whole result out.old.items out.new.items }
{
    let (_, mut items) = into_parts(whole);
    match out.append(&mut items) {
        Ok(()) => Ok(()),
        Err(_) => Err(Halt::NoMemory),
    }
}

/// The end of a drawing that drew these items before: an overflow comes behind them.
pub fn behind(items: Vec<Value>, halt: Halt) -> Halt
    ensures { Behind items.items halt result }
{
    let mut items = items;
    match halt {
        Halt::Over(more) => {
            let mut more = more;
            match items.append(&mut more) {
                Ok(()) => Halt::Over(items),
                Err(_) => Halt::NoMemory,
            }
        }
        Halt::Driver { source, error } => Halt::Driver { source, error },
        Halt::NoMemory => Halt::NoMemory,
    }
}

/// The collection of what is drawn; of what comes before an overflow a list alone keeps the items.
pub fn gather(kind: Kind, drawn: Result<Vec<Value>, Halt>) -> Result<Value, Halt>
    ensures { Gathers kind drawn result }
{
    match drawn {
        Ok(items) => match canon(kind, items) {
            Ok(whole) => Ok(whole),
            Err(_) => Err(Halt::NoMemory),
        },
        Err(Halt::Over(items)) => match kind {
            Kind::List => Err(Halt::Over(items)),
            Kind::Set | Kind::Bag => {
                let mut items = items;
                items.clear();
                Err(Halt::Over(items))
            }
        },
        Err(Halt::Driver { source, error }) => Err(Halt::Driver { source, error }),
        Err(Halt::NoMemory) => Err(Halt::NoMemory),
    }
}

/// Adds the items of a list, or those before an overflow. Any other stop leaves the list as it was.
pub fn add_list(outcome: Result<Value, Halt>, into: &mut Vec<Value>) -> Result<(), EvalStop>
    requires { IfOk outcome (λ v. IsSome (items_at kind.List v)) }
    ensures { AddsList outcome result into.old.items into.new.items }
{
    match outcome {
        Ok(Value::List(items)) => {
            let mut items = items.into_vec();
            match into.append(&mut items) {
                Ok(()) => Ok(()),
                Err(_) => Err(EvalStop::NoMemory),
            }
        }
        Ok(_) => unreachable!(),
        Err(Halt::Over(items)) => {
            let mut items = items;
            match into.append(&mut items) {
                Ok(()) => Err(EvalStop::Overflow),
                Err(_) => Err(EvalStop::NoMemory),
            }
        }
        Err(Halt::Driver { source, error }) => Err(EvalStop::Driver { source, error }),
        Err(Halt::NoMemory) => Err(EvalStop::NoMemory),
    }
}

/// The union of two collections whose items stand one behind the other. Those of a set or a bag rise already: the stable
/// sort finds the two runs and merges them in one pass.
///
/// # Errors
/// Want of memory.
pub fn unite(kind: Kind, both: Vec<Value>) -> Result<Value, Halt>
    ensures { AnswersOutcome (done (canonical kind both.items)) result }
{
    let mut both = both;
    match kind {
        Kind::Set => match both.sort() {
            Ok(()) => {
                both.dedup();
                Ok(Value::Set(Seq::of(both)))
            }
            Err(_) => Err(Halt::NoMemory),
        },
        Kind::Bag => match both.sort() {
            Ok(()) => Ok(Value::Bag(Seq::of(both))),
            Err(_) => Err(Halt::NoMemory),
        },
        Kind::List => Ok(Value::List(Seq::of(both))),
    }
}

/// Two collections as one, of the kind of the first.
pub fn join(first: Value, second: Result<Value, Halt>) -> Result<Value, Halt>
    requires first { IsCollection first }
    requires second { IfOk second IsCollection }
    ensures { Joins first second result }
{
    let (kind, mut items) = into_parts(first);
    match second {
        Ok(second) => match append(second, &mut items) {
            Ok(()) => unite(kind, items),
            Err(halt) => Err(halt),
        },
        Err(halt) => gather(kind, Err(behind(items, halt))),
    }
}

/// Adds a field.
pub fn push_field(
    label: &Label,
    value: Value,
    out: &mut Vec<(Label, Value)>,
) -> Result<(), EvalStop>
    ensures { AddsField label.now value result out.old.items out.new.items }
{
    match label.dup() {
        Ok(label) => match out.push((label, value)) {
            Ok(()) => Ok(()),
            Err(_) => Err(EvalStop::NoMemory),
        },
        Err(_) => Err(EvalStop::NoMemory),
    }
}

/// What a primitive makes of its arguments.
pub fn apply(alloc: Global, code: u8, args: Args<'_>) -> Result<Value, EvalStop>
    requires fits { Fits code (values_in args) }
    requires canonical { All IsCanonical (values_in args) }
    ensures { AnswersPrim (meaning code (values_in args.entry)) result }
{
    match apply_args(alloc, code, args) {
        Ok(value) => Ok(value),
        Err(PrimStop::Overflow) => Err(EvalStop::Overflow),
        Err(PrimStop::NoMemory) => Err(EvalStop::NoMemory),
    }
}
