//! Types made one.
ghost use Rattle.std.specs.Prelude.{◌≡◌, IfOk};
ghost use Rattle.kl_rows.specs.Places.{IsFine, IsType};
ghost use Rattle.kl_rows.specs.Solutions.{scalar_type};
ghost use Rattle.kl_type.specs.Ground.{ground_of, IsProper};
ghost use Rattle.kl_forms.specs.Checks.{Checks};
ghost use Rattle.kl_forms.specs.Forms.{IsThis};

use kl_base::NoMemory;
use kl_rows::{Node, Scalar, Unifier};
use kl_type::Ty;

/// Whether the two types can be one.
pub fn same(u: &mut Unifier, first: u64, second: u64) -> Result<bool, NoMemory>
    requires fine { IsFine u.old.cells.items }
    requires first_there { IsType u.old.cells.items first }
    requires second_there { IsType u.old.cells.items second }
    ensures { IfOk result (λ holds. Checks holds u.old.cells.items u.new.cells.items (λ s. s.types first ≡ s.types second)) }
{
    let holds = u.merge(first, second)?;
    Ok(holds)
}

/// Whether the type can be this one.
pub fn uses_type(u: &mut Unifier, t: &Ty, want: u64) -> Result<bool, NoMemory>
    requires fine { IsFine u.old.cells.items }
    requires there { IsType u.old.cells.items want }
    requires proper { IsProper t.now }
    ensures { IfOk result (λ holds. Checks holds u.old.cells.items u.new.cells.items (IsThis t.now want)) }
{
    let t = t.dup(u.alloc)?;
    let this = u.make(Node::Base(t))?;
    let holds = same(u, this, want)?;
    Ok(holds)
}

fn type_of(b: Scalar) -> Ty
    ensures { ground_of result ≡ scalar_type b }
{
    match b {
        Scalar::Bool => Ty::Bool,
        Scalar::Int => Ty::Int,
        Scalar::Str => Ty::Str,
    }
}

/// Whether the type can be this one without parts.
pub fn is_scalar(u: &mut Unifier, b: Scalar, want: u64) -> Result<bool, NoMemory>
    requires fine { IsFine u.old.cells.items }
    requires there { IsType u.old.cells.items want }
    ensures { IfOk result (λ holds. Checks holds u.old.cells.items u.new.cells.items (λ s. s.types want ≡ scalar_type b)) }
{
    let t = type_of(b);
    let holds = uses_type(u, &t, want)?;
    Ok(holds)
}
