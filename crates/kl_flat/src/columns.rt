//! The columns that a type asks of a table.
ghost use Rattle.std.specs.Prelude.{◌≡◌};
ghost use Rattle.std.specs.List.{list_all};
ghost use Rattle.kl_flat.specs.Columns.{is_base, is_table_type};

use kl_ask::columns_of;
use kl_base::Label;
use kl_type::Ty;

/// Whether a table can have the type: a collection of records with one or more fields, all of base types.
pub fn is_table_type(ty: &Ty) -> bool
    ensures { result ≡ is_table_type ty.now }
{
    let columns = columns_of(ty);
    !columns.is_empty() && are_base(columns)
}

fn are_base(columns: &[(Label, Ty)]) -> bool
    ensures { result ≡ list_all (λ c. is_base c.1) columns.now }
{
    for column in columns {
        if !is_base(&column.1) {
            return false;
        }
    }
    true
}

fn is_base(ty: &Ty) -> bool
    ensures { result ≡ is_base ty.now }
{
    matches!(ty, Ty::Bool | Ty::Int | Ty::Str)
}
