//! Copies.
ghost use Rattle.std.specs.Prelude.{◌≡◌, IfOk};

use crate::ground::Ty;
use kl_base::{Box, Label, NoMemory, Seq};
use std::alloc::Global;

impl Ty {
    /// An equal type. Its labels share the bytes of the first one's.
    ///
    /// # Errors
    /// Want of memory.
    pub fn dup(&self, alloc: Global) -> Result<Ty, NoMemory>
        ensures { IfOk result (λ t. t ≡ self.now) }
    {
        let copy = dup_type(alloc, self)?;
        Ok(copy)
    }
}

#[cycle(dup)]
fn dup_type(alloc: Global, t: &Ty) -> Result<Ty, NoMemory>
    ensures { IfOk result (λ u. u ≡ t.now) }
{
    match t {
        Ty::Bool => Ok(Ty::Bool),
        Ty::Int => Ok(Ty::Int),
        Ty::Str => Ok(Ty::Str),
        Ty::Rec(fields) => Ok(Ty::Rec(Seq::of(dup_fields(alloc, fields.slice())?))),
        Ty::Var(fields) => Ok(Ty::Var(Seq::of(dup_fields(alloc, fields.slice())?))),
        Ty::Coll(kind, item) => {
            let item = dup_type(alloc, item.get())?;
            Ok(Ty::Coll(*kind, Box::new(alloc, item)?))
        }
    }
}

#[cycle(dup)]
fn dup_fields(alloc: Global, fields: &[(Label, Ty)]) -> Result<Vec<(Label, Ty)>, NoMemory>
    ensures { IfOk result (λ copies. copies.items ≡ fields.now) }
{
    let mut copies = Vec::with_capacity(alloc, fields.len())?;
    for field in fields {
        let label = field.0.dup()?;
        copies.push((label, dup_type(alloc, &field.1)?))?;
    }
    Ok(copies)
}
