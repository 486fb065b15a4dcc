//! Shapes beside truth values, integers and texts, and what stands inside shapes.
ghost use Rattle.std.specs.Prelude.{◌≡◌, ℕ, ℤ, Bool, List, option_copied};
ghost use Rattle.kl_value.specs.declared.Value.TheVariants as value;
ghost use Rattle.kl_shape.specs.Joining.{Joins, IsSoundIfSome};
ghost use Rattle.kl_shape.specs.Parts.{items_under, may_be_bool, may_be_int, may_be_text};

use crate::shape::Shape;
use kl_value::Kind;

/// The shape of the types that have the shape and a truth value.
pub fn join_bool(shape: &Shape) -> Option<Shape>
    ensures joins { (b : Bool) → Joins shape.now (value.Bool b) result }
    ensures sound { IsSoundIfSome result }
{
    if may_be_bool(shape) {
        Some(Shape::Bool)
    } else {
        None
    }
}

fn may_be_bool(shape: &Shape) -> bool
    ensures { result ≡ may_be_bool shape.now }
{
    matches!(shape, Shape::Unseen | Shape::Bool)
}

/// The shape of the types that have the shape and an integer.
pub fn join_int(shape: &Shape) -> Option<Shape>
    ensures joins { (n : ℤ) → Joins shape.now (value.Int n) result }
    ensures sound { IsSoundIfSome result }
{
    if may_be_int(shape) {
        Some(Shape::Int)
    } else {
        None
    }
}

fn may_be_int(shape: &Shape) -> bool
    ensures { result ≡ may_be_int shape.now }
{
    matches!(shape, Shape::Unseen | Shape::Int)
}

/// The shape of the types that have the shape and a text.
pub fn join_text(shape: &Shape) -> Option<Shape>
    ensures joins { (s : List ℕ) → Joins shape.now (value.Text s) result }
    ensures sound { IsSoundIfSome result }
{
    if may_be_text(shape) {
        Some(Shape::Str)
    } else {
        None
    }
}

fn may_be_text(shape: &Shape) -> bool
    ensures { result ≡ may_be_text shape.now }
{
    matches!(shape, Shape::Unseen | Shape::Str)
}

/// The shape of the items of a collection of this kind, where the shape is that of one.
pub fn items_under(shape: &Shape, kind: Kind) -> Option<&Shape>
    ensures { option_copied result ≡ items_under kind shape.now }
{
    match shape {
        Shape::Unseen => Some(shape),
        Shape::Coll(other, item) if *other == kind => Some(item.get()),
        _ => None,
    }
}
