//! Primitives and operators.
ghost use Rattle.std.specs.Prelude.{◌≡◌, false, [], ◌∷◌, IfOk};
ghost use Rattle.std.specs.List.{AllByRecursion};
ghost use Rattle.kl_type.specs.Ground.{Ground, coll};
ghost use Rattle.kl_rows.specs.Places.{IsFine, IsType};
ghost use Rattle.kl_rows.specs.Solutions.{scalar_type};
ghost use Rattle.kl_outcome.specs.Typed.{ShapeTypes};
ghost use Rattle.kl_meaning.specs.Codes.{IsCalled, is_form};
ghost use Rattle.kl_value.specs.declared.Kind.{Kind};
ghost use Rattle.kl_forms.specs.Checks.{Checks, Finds};
ghost use Rattle.kl_forms.specs.Forms.{ItemsOf, DrawnFrom, Applies, Operates};

use crate::collections::{any_items_of, has_any_items, has_items, is_collection, items_of};
use crate::types::{is_scalar, same};
use kl_base::NoMemory;
use kl_meaning::code_of;
use kl_prim::{Shape, row_of};
use kl_rows::{Scalar, Unifier};
use kl_syntax::Op;
use kl_value::Kind;

/// Whether the primitive of the code, which is no form of records, can take arguments of these types and give this one.
pub fn applied(u: &mut Unifier, code: u8, args: &[u64], want: u64) -> Result<bool, NoMemory>
    requires fine { IsFine u.old.cells.items }
    requires called { IsCalled code }
    requires there { IsType u.old.cells.items want }
    requires args_there { AllByRecursion (IsType u.old.cells.items) args.now }
    ensures { IfOk result (λ holds. Checks holds u.old.cells.items u.new.cells.items (Applies code args.now want)) }
{
    let Some(row) = row_of(code) else {
        return Ok(false);
    };
    match args {
        [arg] => {
            let holds = takes_one(u, row.shape, *arg, want)?;
            Ok(holds)
        }
        [first, second] => {
            let holds = takes_two(u, row.shape, *first, *second, want)?;
            Ok(holds)
        }
        _ => Ok(false),
    }
}

// Whether a primitive of this shape can take one argument of this type.
fn takes_one(u: &mut Unifier, shape: Shape, arg: u64, want: u64) -> Result<bool, NoMemory>
    requires fine { IsFine u.old.cells.items }
    requires arg_there { IsType u.old.cells.items arg }
    requires there { IsType u.old.cells.items want }
    ensures { IfOk result (λ holds. Checks holds u.old.cells.items u.new.cells.items
        (λ s. ShapeTypes shape (s.types arg ∷ []) (s.types want))) }
{
    match shape {
        Shape::IntFn => are_scalars(u, Scalar::Int, arg, Scalar::Int, want),
        Shape::BoolFn => are_scalars(u, Scalar::Bool, arg, Scalar::Bool, want),
        Shape::TextLen => are_scalars(u, Scalar::Str, arg, Scalar::Int, want),
        Shape::IntText => are_scalars(u, Scalar::Int, arg, Scalar::Str, want),
        Shape::TextInts => reads_ints(u, arg, want),
        Shape::CollTest => is_told(u, arg, Scalar::Bool, want),
        Shape::CollCount => is_told(u, arg, Scalar::Int, want),
        Shape::CollSum => is_sum(u, arg, want),
        Shape::CollSame => is_kept(u, arg, want),
        Shape::Flatten => is_flat(u, arg, want),
        Shape::ToSet => is_turned(u, arg, Kind::Set, want),
        Shape::ToBag => is_turned(u, arg, Kind::Bag, want),
        Shape::ToList => is_turned(u, arg, Kind::List, want),
        Shape::Compare
        | Shape::IntOp
        | Shape::TextJoin
        | Shape::Member
        | Shape::TextTest
        | Shape::Extend
        | Shape::Rest
        | Shape::Take => Ok(false),
    }
}

// Whether a primitive of this shape, which is no form of records, can take two arguments of these types.
fn takes_two(
    u: &mut Unifier,
    shape: Shape,
    first: u64,
    second: u64,
    want: u64,
) -> Result<bool, NoMemory>
    requires fine { IsFine u.old.cells.items }
    requires called { is_form shape ≡ false }
    requires first_there { IsType u.old.cells.items first }
    requires second_there { IsType u.old.cells.items second }
    requires there { IsType u.old.cells.items want }
    ensures { IfOk result (λ holds. Checks holds u.old.cells.items u.new.cells.items
        (λ s. ShapeTypes shape (s.types first ∷ s.types second ∷ []) (s.types want))) }
{
    match shape {
        Shape::Compare => is_compared(u, first, second, want),
        Shape::IntOp => are_alike(u, Scalar::Int, first, second, Scalar::Int, want),
        Shape::TextJoin => are_alike(u, Scalar::Str, first, second, Scalar::Str, want),
        Shape::TextTest => are_alike(u, Scalar::Str, first, second, Scalar::Bool, want),
        Shape::Member => is_member(u, first, second, want),
        Shape::Take => is_taken(u, first, second, want),
        Shape::Extend | Shape::Rest => unreachable!(),
        Shape::IntFn
        | Shape::BoolFn
        | Shape::CollTest
        | Shape::CollCount
        | Shape::CollSum
        | Shape::CollSame
        | Shape::Flatten
        | Shape::ToSet
        | Shape::ToBag
        | Shape::ToList
        | Shape::TextLen
        | Shape::TextInts
        | Shape::IntText => Ok(false),
    }
}

// Whether the two types can be these.
fn are_scalars(
    u: &mut Unifier,
    from: Scalar,
    arg: u64,
    to: Scalar,
    want: u64,
) -> Result<bool, NoMemory>
    requires fine { IsFine u.old.cells.items }
    requires arg_there { IsType u.old.cells.items arg }
    requires there { IsType u.old.cells.items want }
    ensures { IfOk result (λ holds. Checks holds u.old.cells.items u.new.cells.items (λ s. (s.types arg ≡ scalar_type from)
        × (s.types want ≡ scalar_type to))) }
{
    let takes = is_scalar(u, from, arg)?;
    if !takes {
        return Ok(false);
    }
    let gives = is_scalar(u, to, want)?;
    Ok(gives)
}

// Whether two arguments can be of one such type, and the result of another.
fn are_alike(
    u: &mut Unifier,
    from: Scalar,
    first: u64,
    second: u64,
    to: Scalar,
    want: u64,
) -> Result<bool, NoMemory>
    requires fine { IsFine u.old.cells.items }
    requires first_there { IsType u.old.cells.items first }
    requires second_there { IsType u.old.cells.items second }
    requires there { IsType u.old.cells.items want }
    ensures { IfOk result (λ holds. Checks holds u.old.cells.items u.new.cells.items (λ s. (s.types first ≡ scalar_type from)
        × ((s.types second ≡ scalar_type from) × (s.types want ≡ scalar_type to)))) }
{
    let takes = is_scalar(u, from, first)?;
    if !takes {
        return Ok(false);
    }
    let gives = are_scalars(u, from, second, to, want)?;
    Ok(gives)
}

// Whether the types can be those of two values that are compared, and of a truth value.
fn is_compared(u: &mut Unifier, first: u64, second: u64, want: u64) -> Result<bool, NoMemory>
    requires fine { IsFine u.old.cells.items }
    requires first_there { IsType u.old.cells.items first }
    requires second_there { IsType u.old.cells.items second }
    requires there { IsType u.old.cells.items want }
    ensures { IfOk result (λ holds. Checks holds u.old.cells.items u.new.cells.items (λ s. (s.types first ≡ s.types second)
        × (s.types want ≡ scalar_type Scalar.Bool))) }
{
    let takes = same(u, first, second)?;
    if !takes {
        return Ok(false);
    }
    let gives = is_scalar(u, Scalar::Bool, want)?;
    Ok(gives)
}

// Whether the types can be those of an item, of a collection of such, and of a truth value.
fn is_member(u: &mut Unifier, item: u64, all: u64, want: u64) -> Result<bool, NoMemory>
    requires fine { IsFine u.old.cells.items }
    requires item_there { IsType u.old.cells.items item }
    requires all_there { IsType u.old.cells.items all }
    requires there { IsType u.old.cells.items want }
    ensures { IfOk result (λ holds. Checks holds u.old.cells.items u.new.cells.items (λ s. (DrawnFrom all (s.types item) s)
        × (s.types want ≡ scalar_type Scalar.Bool))) }
{
    let takes = has_any_items(u, item, all)?;
    if !takes {
        return Ok(false);
    }
    let gives = is_scalar(u, Scalar::Bool, want)?;
    Ok(gives)
}

// Whether the types can be those of a number of items, of a collection, and of that collection.
fn is_taken(u: &mut Unifier, number: u64, all: u64, want: u64) -> Result<bool, NoMemory>
    requires fine { IsFine u.old.cells.items }
    requires number_there { IsType u.old.cells.items number }
    requires all_there { IsType u.old.cells.items all }
    requires there { IsType u.old.cells.items want }
    ensures { IfOk result (λ holds. Checks holds u.old.cells.items u.new.cells.items
        (λ s. ShapeTypes Shape.Take (s.types number ∷ s.types all ∷ []) (s.types want))) }
{
    let takes = is_scalar(u, Scalar::Int, number)?;
    if !takes {
        return Ok(false);
    }
    let gives = is_kept(u, all, want)?;
    Ok(gives)
}

// Whether the types can be those of a text, and of a set of integers.
fn reads_ints(u: &mut Unifier, arg: u64, want: u64) -> Result<bool, NoMemory>
    requires fine { IsFine u.old.cells.items }
    requires arg_there { IsType u.old.cells.items arg }
    requires there { IsType u.old.cells.items want }
    ensures { IfOk result (λ holds. Checks holds u.old.cells.items u.new.cells.items
        (λ s. ShapeTypes Shape.TextInts (s.types arg ∷ []) (s.types want))) }
{
    let Some(item) = items_of(u, Kind::Set, want)? else {
        return Ok(false);
    };
    let holds = are_scalars(u, Scalar::Str, arg, Scalar::Int, item)?;
    Ok(holds)
}

// Whether the types can be those of a collection, and of what is told of it.
fn is_told(u: &mut Unifier, arg: u64, to: Scalar, want: u64) -> Result<bool, NoMemory>
    requires fine { IsFine u.old.cells.items }
    requires arg_there { IsType u.old.cells.items arg }
    requires there { IsType u.old.cells.items want }
    ensures { IfOk result (λ holds. Checks holds u.old.cells.items u.new.cells.items
        (λ s. (k : Kind) × (a : Ground) × (s.types arg ≡ coll k a)
        × (s.types want ≡ scalar_type to))) }
{
    let Some(_) = any_items_of(u, arg)? else {
        return Ok(false);
    };
    let holds = is_scalar(u, to, want)?;
    Ok(holds)
}

// Whether the types can be those of a collection of integers, and of an integer.
fn is_sum(u: &mut Unifier, arg: u64, want: u64) -> Result<bool, NoMemory>
    requires fine { IsFine u.old.cells.items }
    requires arg_there { IsType u.old.cells.items arg }
    requires there { IsType u.old.cells.items want }
    ensures { IfOk result (λ holds. Checks holds u.old.cells.items u.new.cells.items
        (λ s. ShapeTypes Shape.CollSum (s.types arg ∷ []) (s.types want))) }
{
    let Some(item) = any_items_of(u, arg)? else {
        return Ok(false);
    };
    let holds = are_scalars(u, Scalar::Int, item, Scalar::Int, want)?;
    Ok(holds)
}

// Whether the types can be that of a collection, twice.
fn is_kept(u: &mut Unifier, arg: u64, want: u64) -> Result<bool, NoMemory>
    requires fine { IsFine u.old.cells.items }
    requires arg_there { IsType u.old.cells.items arg }
    requires there { IsType u.old.cells.items want }
    ensures { IfOk result (λ holds. Checks holds u.old.cells.items u.new.cells.items
        (λ s. ShapeTypes Shape.CollSame (s.types arg ∷ []) (s.types want))) }
{
    let Some(_) = any_items_of(u, arg)? else {
        return Ok(false);
    };
    let holds = same(u, want, arg)?;
    Ok(holds)
}

// Whether the types can be those of a collection of collections of its kind, and of such a one.
fn is_flat(u: &mut Unifier, arg: u64, want: u64) -> Result<bool, NoMemory>
    requires fine { IsFine u.old.cells.items }
    requires arg_there { IsType u.old.cells.items arg }
    requires there { IsType u.old.cells.items want }
    ensures { IfOk result (λ holds. Checks holds u.old.cells.items u.new.cells.items
        (λ s. ShapeTypes Shape.Flatten (s.types arg ∷ []) (s.types want))) }
{
    let kind = u.fresh_kind()?;
    let item = u.fresh_type()?;
    let gives = is_collection(u, kind, item, want)?;
    if !gives {
        return Ok(false);
    }
    let takes = is_collection(u, kind, want, arg)?;
    Ok(takes)
}

// Whether the types can be those of a collection, and of one of this kind with such items.
fn is_turned(u: &mut Unifier, arg: u64, kind: Kind, want: u64) -> Result<bool, NoMemory>
    requires fine { IsFine u.old.cells.items }
    requires arg_there { IsType u.old.cells.items arg }
    requires there { IsType u.old.cells.items want }
    ensures { IfOk result (λ holds. Checks holds u.old.cells.items u.new.cells.items
        (λ s. (k : Kind) × (a : Ground) × (s.types arg ≡ coll k a)
        × (s.types want ≡ coll kind a))) }
{
    let Some(item) = any_items_of(u, arg)? else {
        return Ok(false);
    };
    let holds = has_items(u, kind, item, want)?;
    Ok(holds)
}

// Whether the types can be those of two collections of one type, and that type.
fn is_appended(u: &mut Unifier, first: u64, second: u64, want: u64) -> Result<bool, NoMemory>
    requires fine { IsFine u.old.cells.items }
    requires first_there { IsType u.old.cells.items first }
    requires second_there { IsType u.old.cells.items second }
    requires there { IsType u.old.cells.items want }
    ensures { IfOk result (λ holds. Checks holds u.old.cells.items u.new.cells.items
        (λ s. Operates Op.Append first second (s.types want) s)) }
{
    let takes = same(u, second, first)?;
    if !takes {
        return Ok(false);
    }
    let gives = is_kept(u, first, want)?;
    Ok(gives)
}

// Whether the types can be those of the operator's arguments and result.
fn is_operated(
    u: &mut Unifier,
    op: Op,
    first: u64,
    second: u64,
    want: u64,
) -> Result<bool, NoMemory>
    requires fine { IsFine u.old.cells.items }
    requires first_there { IsType u.old.cells.items first }
    requires second_there { IsType u.old.cells.items second }
    requires there { IsType u.old.cells.items want }
    ensures { IfOk result (λ holds. Checks holds u.old.cells.items u.new.cells.items (λ s. Operates op first second (s.types want) s)) }
{
    match op {
        Op::And | Op::Or => {
            let holds = are_alike(u, Scalar::Bool, first, second, Scalar::Bool, want)?;
            Ok(holds)
        }
        Op::Append => {
            let holds = is_appended(u, first, second, want)?;
            Ok(holds)
        }
        _ => {
            let holds = applied(u, code_of(op), &[first, second], want)?;
            Ok(holds)
        }
    }
}

/// What the operator gives of two such types. None where it takes none such.
pub fn operated(u: &mut Unifier, op: Op, first: u64, second: u64) -> Result<Option<u64>, NoMemory>
    requires fine { IsFine u.old.cells.items }
    requires first_there { IsType u.old.cells.items first }
    requires second_there { IsType u.old.cells.items second }
    ensures { IfOk result (λ found. Finds found u.old.cells.items u.new.cells.items (Operates op first second)) }
{
    let result = u.fresh_type()?;
    let holds = is_operated(u, op, first, second, result)?;
    if !holds {
        return Ok(None);
    }
    Ok(Some(result))
}
