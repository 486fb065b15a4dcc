//! The types of collections.
ghost use Rattle.std.specs.Prelude.{◌≡◌};
ghost use Rattle.kl_nested.specs.Contents.{item_ty};
ghost use Rattle.kl_nested.specs.Nested.{is_collection};

use kl_type::Ty;

/// Whether the type is that of a collection.
pub fn is_collection(ty: &Ty) -> bool
    ensures { result ≡ is_collection ty.now }
{
    matches!(ty, Ty::Coll(_, _))
}

/// The type of the items of a collection; any other type is its own.
pub fn item_of(ty: &Ty) -> &Ty
    ensures { result.now ≡ item_ty ty.now }
{
    match ty {
        Ty::Coll(_, item) => item.get(),
        _ => ty,
    }
}
