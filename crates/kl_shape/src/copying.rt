//! Copies.
ghost use Rattle.std.specs.Prelude.{◌≡◌, ◌++◌, IfOk, OnOk};

use crate::shape::Shape;
use kl_base::{Box, Label, NoMemory, Seq};
use std::alloc::Global;

/// An equal shape. Its labels share the bytes of the first one's.
///
/// # Errors
/// Want of memory.
#[cycle(dup)]
pub fn dup_shape(alloc: Global, shape: &Shape) -> Result<Shape, NoMemory>
    ensures { IfOk result (λ copy. copy ≡ shape.now) }
{
    match shape {
        Shape::Unseen => Ok(Shape::Unseen),
        Shape::Bool => Ok(Shape::Bool),
        Shape::Int => Ok(Shape::Int),
        Shape::Str => Ok(Shape::Str),
        Shape::Rec(fields) => Ok(Shape::Rec(Seq::of(dup_fields(alloc, fields.slice())?))),
        Shape::Var(fields) => Ok(Shape::Var(Seq::of(dup_fields(alloc, fields.slice())?))),
        Shape::Coll(kind, item) => {
            let item = dup_shape(alloc, item.get())?;
            Ok(Shape::Coll(*kind, Box::new(alloc, item)?))
        }
    }
}

#[cycle(dup)]
fn dup_fields(alloc: Global, fields: &[(Label, Shape)]) -> Result<Vec<(Label, Shape)>, NoMemory>
    ensures { IfOk result (λ copies. copies.items ≡ fields.now) }
{
    let mut copies = Vec::with_capacity(alloc, fields.len())?;
    for field in fields {
        let label = field.0.dup()?;
        copies.push((label, dup_shape(alloc, &field.1)?))?;
    }
    Ok(copies)
}
