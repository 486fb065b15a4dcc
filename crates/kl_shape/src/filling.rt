//! A type of a shape.
ghost use Rattle.std.specs.Prelude.{◌≡◌, ◌∷◌, map, true, IfOk};
ghost use Rattle.kl_shape.specs.Shapes.{filled, filled_field, fits, sound};

use crate::shape::Shape;
use kl_base::{Box, Label, NoMemory, Seq};
use kl_type::Ty;
use std::alloc::Global;

/// The type of the shape that has `string` in each gap, and in each variant the labels that were seen.
///
/// # Errors
/// Want of memory.
pub fn filled(alloc: Global, shape: &Shape) -> Result<Ty, NoMemory>
    requires { sound shape.now ≡ true }
    ensures value { IfOk result (λ ty. ty ≡ filled shape.now) }
    ensures fits { IfOk result (λ ty. fits shape.now ty ≡ true) }
{
    let ty = fill(alloc, shape)?;
    Ok(ty)
}

#[cycle(fill)]
#[tactic(auto, using(crate::proofs::ShapeLemmas::filled_rules))]
fn fill(alloc: Global, shape: &Shape) -> Result<Ty, NoMemory>
    ensures { IfOk result (λ ty. ty ≡ filled shape.now) }
{
    match shape {
        Shape::Unseen => Ok(Ty::Str),
        Shape::Bool => Ok(Ty::Bool),
        Shape::Int => Ok(Ty::Int),
        Shape::Str => Ok(Ty::Str),
        Shape::Rec(fields) => Ok(Ty::Rec(Seq::of(fill_fields(alloc, fields.slice())?))),
        Shape::Var(fields) => Ok(Ty::Var(Seq::of(fill_fields(alloc, fields.slice())?))),
        Shape::Coll(kind, item) => {
            let item = fill(alloc, item.get())?;
            Ok(Ty::Coll(*kind, Box::new(alloc, item)?))
        }
    }
}

#[cycle(fill)]
fn fill_fields(alloc: Global, fields: &[(Label, Shape)]) -> Result<Vec<(Label, Ty)>, NoMemory>
    ensures { IfOk result (λ types. types.items ≡ map filled_field fields.now) }
{
    let mut types = Vec::with_capacity(alloc, fields.len())?;
    for field in fields {
        let label = field.0.dup()?;
        types.push((label, fill(alloc, &field.1)?))?;
    }
    Ok(types)
}
