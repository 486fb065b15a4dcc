//! The labels of a variant.
ghost use Rattle.std.specs.Prelude.{◌≡◌, ◌≤◌, ◌++◌, IfOk, OnOk, ◌∷◌, [], length};
ghost use Rattle.kl_shape.specs.Parts.{IsPlaceOf, shape_under, with_label};
ghost use Rattle.kl_shape.specs.declared.shape.Shape.TheVariants as shape_of;

use crate::copying::dup_shape;
use crate::shape::Shape;
use kl_base::{Label, NoMemory};
use std::alloc::Global;
use std::cmp::Ordering;

/// The shape under a label of a variant, whose labels rise; the gap where it has no such label.
pub fn shape_under<'a>(shapes: &'a [(Label, Shape)], label: &Label, gap: &'a Shape) -> &'a Shape
    requires { gap.now ≡ shape_of.Unseen }
    ensures { result.now ≡ shape_under label.now shapes.now }
{
    for field in shapes {
        match field.0.cmp(label) {
            Ordering::Less => {}
            Ordering::Equal => return &field.1,
            Ordering::Greater => return gap,
        }
    }
    gap
}

/// The shapes of a variant, whose labels rise, with this one under a label.
///
/// # Errors
/// Want of memory.
pub fn with_label(
    alloc: Global,
    shapes: &[(Label, Shape)],
    label: &Label,
    shape: Shape,
) -> Result<Vec<(Label, Shape)>, NoMemory>
    ensures { IfOk result (λ joined. joined.items ≡ with_label label.now shape shapes.now) }
{
    let place = place_of(shapes, label);
    let mut joined = Vec::with_capacity(alloc, shapes.len())?;
    push_all(alloc, &shapes[..place.0], &mut joined)?;
    joined.push((label.dup()?, shape))?;
    push_all(alloc, &shapes[place.1..], &mut joined)?;
    Ok(joined)
}

// How many labels, which rise, come before this one, and how many are not behind it.
fn place_of(shapes: &[(Label, Shape)], label: &Label) -> (usize, usize)
    ensures order { result.0 ≤ result.1 }
    ensures end { result.1 ≤ length shapes.now }
    ensures place { IsPlaceOf label.now shapes.now result.0 result.1 }
{
    for i in 0..shapes.len() {
        match shapes[i].0.cmp(label) {
            Ordering::Less => {}
            Ordering::Equal => return (i, i + 1),
            Ordering::Greater => return (i, i),
        }
    }
    (shapes.len(), shapes.len())
}

// Puts copies of shapes behind others.
fn push_all(
    alloc: Global,
    shapes: &[(Label, Shape)],
    joined: &mut Vec<(Label, Shape)>,
) -> Result<(), NoMemory>
    ensures { OnOk result (joined.new.items ≡ joined.old.items ++ shapes.now) }
{
    for field in shapes {
        push(alloc, &field.0, &field.1, joined)?;
    }
    Ok(())
}

// Puts a copy of a shape under its label behind others.
fn push(
    alloc: Global,
    label: &Label,
    shape: &Shape,
    joined: &mut Vec<(Label, Shape)>,
) -> Result<(), NoMemory>
    ensures { OnOk result (joined.new.items ≡ joined.old.items ++ (label.now, shape.now) ∷ []) }
{
    let label = label.dup()?;
    let shape = dup_shape(alloc, shape)?;
    joined.push((label, shape))?;
    Ok(())
}
