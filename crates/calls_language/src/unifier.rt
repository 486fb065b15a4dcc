ghost use Rattle.std.specs.Prelude.{◌≡◌, [], IfOk, IfSome};
ghost use Rattle.kl_rows.specs.Schemes.{IsScheme};

use crate::programs::label;
use kl_base::Label;
use kl_rows::{Node, Part, Scheme, Unifier};
use kl_type::Ty;
use kl_value::Kind;
use std::test::Fail;

fn is_one_part(scheme: &Scheme) -> bool {
    scheme.nodes.slice().len() == 1
}

// Whether a type that is made an integer settles to one part, whose use is an integer.
fn settles(types: &mut Unifier) -> Result<bool, Fail>
    requires { types.old.cells.items ≡ [] }
{
    let open = types.fresh_type()?;
    let int = types.make(Node::Base(Ty::Int))?;
    if !types.unify(open, int)? {
        return Ok(false);
    }
    let scheme = types.settle(open)?;
    let copy = scheme.dup(types.alloc)?;
    let used = types.instance(&copy)?;
    let is_used = types.merge(used, int)?;
    Ok(is_used && is_one_part(&copy))
}

#[test]
fn a_type_is_unified_settled_and_used(rt: HostRuntime) -> Result<(), Fail> {
    let mut types = Unifier::new(rt.alloc());
    assert!(rt; settles(&mut types)?);
    Ok(())
}

// `[vol: '1, ...'2]`
pub fn open_record(types: &mut Unifier, vol: &Label) -> Result<Option<Scheme>, Fail>
    requires { types.old.cells.items ≡ [] }
    ensures { IfOk result (λ found. IfSome found IsScheme) }
{
    let lacks = vec![in types.alloc; vol.dup()?]?;
    let rest = types.fresh_row(&lacks)?;
    let field = types.fresh_type()?;
    let row = types.make(Node::Row(vol.dup()?, field, rest))?;
    let record = types.make(Node::Rec(row))?;
    Ok(types.settled(record)?)
}

fn ends_in_record(found: &Option<Scheme>) -> bool {
    match found {
        Some(scheme) => {
            let parts = scheme.nodes.slice();
            parts.len() == 4 && matches!(parts.last(), Some(Part::Is(Node::Rec(_))))
        }
        None => false,
    }
}

#[test]
fn a_row_stays_open(rt: HostRuntime) -> Result<(), Fail> {
    let mut types = Unifier::new(rt.alloc());
    let found = open_record(&mut types, &label(rt.alloc(), b"vol")?)?;
    assert!(rt; ends_in_record(&found));
    Ok(())
}

// Whether an open kind is made that of sets, and then not that of bags.
fn is_fixed_once(types: &mut Unifier) -> Result<bool, Fail>
    requires { types.old.cells.items ≡ [] }
{
    let kind = types.fresh_kind()?;
    let set = types.make(Node::Fixed(Kind::Set))?;
    let bag = types.make(Node::Fixed(Kind::Bag))?;
    let is_set = types.unify(kind, set)?;
    let is_bag = types.merge(kind, bag)?;
    Ok(is_set && !is_bag)
}

#[test]
fn a_collection_of_open_kind(rt: HostRuntime) -> Result<(), Fail> {
    let mut types = Unifier::new(rt.alloc());
    assert!(rt; is_fixed_once(&mut types)?);
    Ok(())
}
