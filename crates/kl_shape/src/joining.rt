//! The shape of the types that have a shape and a value.
ghost use Rattle.std.specs.Prelude.{◌≡◌, true, IfOk, map};
ghost use Rattle.kl_shape.specs.Joining.{Answers, AnswersItems, AnswersLabel, AnswersRecord, are_sound, sound_variant};
ghost use Rattle.kl_shape.specs.Shapes.{sound};
ghost use Rattle.kl_shape.specs.declared.shape.Shape.TheVariants as shape_of;

use crate::bases::{items_under, join_bool, join_int, join_text};
use crate::copying::dup_shape;
use crate::labels::{shape_under, with_label};
use crate::shape::Shape;
use kl_base::{Box, Label, NoMemory, Seq};
use kl_value::{Kind, Value};
use std::alloc::Global;

/// The shape of exactly the types that have the shape and the value. None exactly where there is no such type.
///
/// # Errors
/// Want of memory.
#[cycle(join)]
pub fn join(alloc: Global, value: &Value, shape: &Shape) -> Result<Option<Shape>, NoMemory>
    requires { sound shape.now ≡ true }
    ensures { IfOk result (Answers shape.now value.now) }
{
    match value {
        Value::Bool(_) => Ok(join_bool(shape)),
        Value::Int(_) => Ok(join_int(shape)),
        Value::Text(_) => Ok(join_text(shape)),
        Value::Rec(fields) => match shape {
            Shape::Unseen => join_unseen(alloc, fields.slice()),
            Shape::Rec(shapes) => join_fields(alloc, fields.slice(), shapes.slice()),
            _ => Ok(None),
        },
        Value::Inj(label, inner) => match shape {
            Shape::Unseen => join_label(alloc, inner.get(), label, &[]),
            Shape::Var(shapes) => join_label(alloc, inner.get(), label, shapes.slice()),
            _ => Ok(None),
        },
        Value::Set(items) => match items_under(shape, Kind::Set) {
            None => Ok(None),
            Some(item) => join_items(alloc, items.slice(), Kind::Set, item),
        },
        Value::Bag(items) => match items_under(shape, Kind::Bag) {
            None => Ok(None),
            Some(item) => join_items(alloc, items.slice(), Kind::Bag, item),
        },
        Value::List(items) => match items_under(shape, Kind::List) {
            None => Ok(None),
            Some(item) => join_items(alloc, items.slice(), Kind::List, item),
        },
    }
}

// The shape of the record types that have a record of these fields.
#[cycle(join)]
fn join_unseen(alloc: Global, fields: &[(Label, Value)]) -> Result<Option<Shape>, NoMemory>
    ensures { IfOk result (AnswersRecord (map (λ f. (f.0, shape_of.Unseen)) fields.now) fields.now) }
{
    let mut joined = Vec::with_capacity(alloc, fields.len())?;
    'fields: for field in fields {
        let shape = match join(alloc, &field.1, &Shape::Unseen) {
            Ok(Some(shape)) => shape,
            Ok(None) => return Ok(None),
            Err(error) => return Err(error),
        };
        let label = field.0.dup()?;
        joined.push((label, shape))?;
    }
    Ok(Some(Shape::Rec(Seq::of(joined))))
}

// The shape of the record types that have these shapes and a record of these fields.
#[cycle(join)]
fn join_fields(
    alloc: Global,
    fields: &[(Label, Value)],
    shapes: &[(Label, Shape)],
) -> Result<Option<Shape>, NoMemory>
    requires { are_sound shapes.now ≡ true }
    ensures { IfOk result (AnswersRecord shapes.now fields.now) }
{
    if shapes.len() != fields.len() {
        return Ok(None);
    }
    let mut joined = Vec::with_capacity(alloc, fields.len())?;
    'fields: for i in 0..fields.len() {
        if shapes[i].0 != fields[i].0 {
            return Ok(None);
        }
        let shape = match join(alloc, &fields[i].1, &shapes[i].1) {
            Ok(Some(shape)) => shape,
            Ok(None) => return Ok(None),
            Err(error) => return Err(error),
        };
        let label = fields[i].0.dup()?;
        joined.push((label, shape))?;
    }
    Ok(Some(Shape::Rec(Seq::of(joined))))
}

// The shape of the variant types that have these shapes and a variant of this label and value.
#[cycle(join)]
fn join_label(
    alloc: Global,
    inner: &Value,
    label: &Label,
    shapes: &[(Label, Shape)],
) -> Result<Option<Shape>, NoMemory>
    requires { sound_variant shapes.now ≡ true }
    ensures { IfOk result (AnswersLabel shapes.now label.now inner.now) }
{
    let gap = Shape::Unseen;
    let shape = match join(alloc, inner, shape_under(shapes, label, &gap)) {
        Ok(Some(shape)) => shape,
        Ok(None) => return Ok(None),
        Err(error) => return Err(error),
    };
    let joined = with_label(alloc, shapes, label, shape)?;
    Ok(Some(Shape::Var(Seq::of(joined))))
}

// The shape of the types of collections of this kind, of items of this shape, that have these items.
#[cycle(join)]
fn join_items(
    alloc: Global,
    items: &[Value],
    kind: Kind,
    item: &Shape,
) -> Result<Option<Shape>, NoMemory>
    requires { sound item.now ≡ true }
    ensures { IfOk result (AnswersItems kind item.now items.now) }
{
    let mut joined = dup_shape(alloc, item)?;
    'items: for value in items {
        joined = match join(alloc, value, &joined) {
            Ok(Some(shape)) => shape,
            Ok(None) => return Ok(None),
            Err(error) => return Err(error),
        };
    }
    let joined = Box::new(alloc, joined)?;
    Ok(Some(Shape::Coll(kind, joined)))
}
