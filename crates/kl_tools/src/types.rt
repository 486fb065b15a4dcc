//! The types that collections of made rows have.
ghost use Rattle.std.specs.Prelude.{◌≡◌};
ghost use Rattle.kl_tools.specs.Types.{are_made, is_int_at, is_made_type, is_text_at};

use kl_ask::columns_of;
use kl_base::Label;
use kl_type::Ty;

/// Whether rows are made for the type: a collection of `[grp: int, id: int, name: string]`.
pub fn is_made_type(ty: &Ty) -> bool
    ensures { result ≡ is_made_type ty.now }
{
    are_made(columns_of(ty))
}

fn are_made(columns: &[(Label, Ty)]) -> bool
    ensures { result ≡ are_made columns.now }
{
    match columns {
        [group, id, name] => is_int_at(group, b"grp")
            && is_int_at(id, b"id")
            && is_text_at(name, b"name"),
        _ => false,
    }
}

fn is_int_at(column: &(Label, Ty), name: &[u8]) -> bool
    ensures { result ≡ is_int_at column.now name.now }
{
    column.0.slice() == name && matches!(column.1, Ty::Int)
}

fn is_text_at(column: &(Label, Ty), name: &[u8]) -> bool
    ensures { result ≡ is_text_at column.now name.now }
{
    column.0.slice() == name && matches!(column.1, Ty::Str)
}
