//! The types of which a server holds sources.
ghost use Rattle.std.specs.Prelude.{◌≡◌};
ghost use Rattle.kl_sqlserve.specs.Server.{is_list, is_served};

use kl_flat::is_table_type;
use kl_type::Ty;
use kl_value::Kind;

/// Whether the type is one of tables, and no list.
pub fn is_served(ty: &Ty) -> bool
    ensures { result ≡ is_served ty.now }
{
    is_table_type(ty) && !is_list(ty)
}

fn is_list(ty: &Ty) -> bool
    ensures { result ≡ is_list ty.now }
{
    matches!(ty, Ty::Coll(Kind::List, _))
}
