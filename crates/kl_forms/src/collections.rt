//! Collections, and fresh types.
ghost use Rattle.std.specs.Prelude.{◌≡◌, IfOk};
ghost use Rattle.kl_type.specs.Ground.{coll};
ghost use Rattle.kl_rows.specs.Places.{IsFine, IsType, IsKind};
ghost use Rattle.kl_forms.specs.Checks.{Checks, Finds, OpensMany};
ghost use Rattle.kl_forms.specs.Forms.{ItemsOf, DrawnFrom};

use crate::types::same;
use kl_base::NoMemory;
use kl_rows::{Node, Unifier};
use kl_value::Kind;

/// So many types of which nothing is said.
pub fn fresh_types(u: &mut Unifier, count: usize) -> Result<Vec<u64>, NoMemory>
    requires fine { IsFine u.old.cells.items }
    ensures { IfOk result (λ items. OpensMany u.old.cells.items u.new.cells.items items.items count) }
{
    let mut items = Vec::with_capacity(u.alloc, count)?;
    for i in 0..count {
        let item = u.fresh_type()?;
        items.push(item)?;
    }
    Ok(items)
}

/// Whether the type can be that of collections of this kind with such items.
pub fn is_collection(u: &mut Unifier, kind: u64, item: u64, want: u64) -> Result<bool, NoMemory>
    requires fine { IsFine u.old.cells.items }
    requires kind_there { IsKind u.old.cells.items kind }
    requires item_there { IsType u.old.cells.items item }
    requires there { IsType u.old.cells.items want }
    ensures { IfOk result (λ holds. Checks holds u.old.cells.items u.new.cells.items
        (λ s. s.types want ≡ coll (s.kinds kind) (s.types item))) }
{
    let all = u.make(Node::Coll(kind, item))?;
    let holds = same(u, all, want)?;
    Ok(holds)
}

/// Whether the type can be that of collections of this kind with such items.
pub fn has_items(u: &mut Unifier, kind: Kind, item: u64, want: u64) -> Result<bool, NoMemory>
    requires fine { IsFine u.old.cells.items }
    requires item_there { IsType u.old.cells.items item }
    requires there { IsType u.old.cells.items want }
    ensures { IfOk result (λ holds. Checks holds u.old.cells.items u.new.cells.items (λ s. ItemsOf kind want (s.types item) s)) }
{
    let number = u.make(Node::Fixed(kind))?;
    let holds = is_collection(u, number, item, want)?;
    Ok(holds)
}

/// Whether the type can be that of collections of some kind with such items.
pub fn has_any_items(u: &mut Unifier, item: u64, want: u64) -> Result<bool, NoMemory>
    requires fine { IsFine u.old.cells.items }
    requires item_there { IsType u.old.cells.items item }
    requires there { IsType u.old.cells.items want }
    ensures { IfOk result (λ holds. Checks holds u.old.cells.items u.new.cells.items (λ s. DrawnFrom want (s.types item) s)) }
{
    let kind = u.fresh_kind()?;
    let holds = is_collection(u, kind, item, want)?;
    Ok(holds)
}

/// The type of the items of a collection of this kind. None where the type can be none.
pub fn items_of(u: &mut Unifier, kind: Kind, want: u64) -> Result<Option<u64>, NoMemory>
    requires fine { IsFine u.old.cells.items }
    requires there { IsType u.old.cells.items want }
    ensures { IfOk result (λ found. Finds found u.old.cells.items u.new.cells.items (ItemsOf kind want)) }
{
    let item = u.fresh_type()?;
    let holds = has_items(u, kind, item, want)?;
    if !holds {
        return Ok(None);
    }
    Ok(Some(item))
}

/// The type of the items of a collection of any kind. None where the type can be none.
pub fn any_items_of(u: &mut Unifier, want: u64) -> Result<Option<u64>, NoMemory>
    requires fine { IsFine u.old.cells.items }
    requires there { IsType u.old.cells.items want }
    ensures { IfOk result (λ found. Finds found u.old.cells.items u.new.cells.items (DrawnFrom want)) }
{
    let item = u.fresh_type()?;
    let holds = has_any_items(u, item, want)?;
    if !holds {
        return Ok(None);
    }
    Ok(Some(item))
}
