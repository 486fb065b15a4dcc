//! Uses of schemes.
ghost use Rattle.std.specs.Prelude.{◌≡◌, Some, IfOk};
ghost use Rattle.kl_rows.specs.Places.{IsFine, IsType, sort_at, a_type, a_function};
ghost use Rattle.kl_rows.specs.Schemes.{IsScheme, cells_of};
ghost use Rattle.kl_forms.specs.Checks.{Checks};
ghost use Rattle.kl_forms.specs.Forms.{IsInstance, Calls};

use crate::types::same;
use kl_base::NoMemory;
use kl_rows::{Node, Scheme, Unifier};

/// Whether the type can be an instance of the scheme.
pub fn uses_value(u: &mut Unifier, scheme: &Scheme, want: u64) -> Result<bool, NoMemory>
    requires fine { IsFine u.old.cells.items }
    requires there { IsType u.old.cells.items want }
    requires good { IsScheme scheme.now }
    requires is_value { sort_at (cells_of scheme.now.nodes) scheme.now.root ≡ Some a_type }
    ensures { IfOk result (λ holds. Checks holds u.old.cells.items u.new.cells.items (IsInstance scheme.now want)) }
{
    let used = u.instance(scheme)?;
    let holds = same(u, used, want)?;
    Ok(holds)
}

/// Whether the types of an argument and of a result can be those of an instance of a function's scheme.
pub fn uses_function(
    u: &mut Unifier,
    scheme: &Scheme,
    arg: u64,
    want: u64,
) -> Result<bool, NoMemory>
    requires fine { IsFine u.old.cells.items }
    requires arg_there { IsType u.old.cells.items arg }
    requires there { IsType u.old.cells.items want }
    requires good { IsScheme scheme.now }
    requires is_function { sort_at (cells_of scheme.now.nodes) scheme.now.root ≡ Some a_function }
    ensures { IfOk result (λ holds. Checks holds u.old.cells.items u.new.cells.items (Calls scheme.now arg want)) }
{
    let used = u.instance(scheme)?;
    let call = u.make(Node::Arrow(arg, want))?;
    let holds = u.merge(used, call)?;
    Ok(holds)
}
