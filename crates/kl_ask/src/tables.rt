//! The columns of tables.
ghost use Rattle.std.specs.Prelude.{◌≡◌};
ghost use Rattle.kl_ask.specs.Tables.{columns_of};

use kl_base::Label;
use kl_type::Ty;

/// The labels and types of the columns of a collection of records, in rising order; none where the type is not one of these.
pub fn columns_of(ty: &Ty) -> &[(Label, Ty)]
    ensures { result.now ≡ columns_of ty.now }
{
    match ty {
        Ty::Coll(_, item) => match item.get() {
            Ty::Rec(fields) => fields.slice(),
            _ => &[],
        },
        _ => &[],
    }
}
