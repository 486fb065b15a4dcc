ghost use Rattle.std.specs.Prelude.{◌≡◌, [], IfOk, IfSome};
ghost use Rattle.kl_rows.specs.Schemes.{IsScheme};

use crate::programs::{constant, label, let_go};
use crate::unifier::open_record;
use kl_base::Seq;
use kl_infer::{Typed, infer, print_scheme};
use kl_rows::{Node, Scheme, Unifier};
use kl_scope::Scoped;
use kl_value::Kind;
use std::alloc::Global;
use std::test::Fail;

fn is_text(alloc: Global, scheme: &Scheme, want: &[u8]) -> bool
    requires { IsScheme scheme.now }
{
    match print_scheme(alloc, scheme) {
        Ok(Some(text)) => text.slice() == want,
        _ => false,
    }
}

fn is_printed(alloc: Global, found: &Option<Scheme>, want: &[u8]) -> bool
    requires { IfSome found.now IsScheme }
{
    match found {
        Some(scheme) => is_text(alloc, scheme, want),
        None => false,
    }
}

#[test]
fn an_open_record_is_printed(rt: HostRuntime) -> Result<(), Fail> {
    let mut types = Unifier::new(rt.alloc());
    let found = open_record(&mut types, &label(rt.alloc(), b"vol")?)?;
    assert!(rt; is_printed(rt.alloc(), &found, b"[vol: '1, ...'2]"));
    Ok(())
}

fn bag(types: &mut Unifier) -> Result<Option<Scheme>, Fail>
    requires { types.old.cells.items ≡ [] }
{
    let kind = types.make(Node::Fixed(Kind::Bag))?;
    let item = types.fresh_type()?;
    let bag = types.make(Node::Coll(kind, item))?;
    Ok(types.settled(bag)?)
}

fn typed(alloc: Global) -> Result<Typed, Fail> {
    let mut types = Unifier::new(alloc);
    let result = bag(&mut types)?.ok_or("no finite type")?;
    Ok(Typed {
        schemes: Seq::of(Vec::new(alloc)),
        result,
    })
}

#[test]
fn a_result_has_its_kind(rt: HostRuntime) -> Result<(), Fail> {
    let typed = typed(rt.alloc())?;
    assert!(rt; typed.result_kind() == Some(Kind::Bag));
    Ok(())
}

fn kind_of(alloc: Global, scoped: &Scoped) -> Option<Kind> {
    match infer(alloc, scoped, &[]) {
        Ok(typed) => typed.result_kind(),
        Err(_) => None,
    }
}

fn inferred(alloc: Global) -> Result<Option<Kind>, Fail> {
    let scoped = constant(alloc)?;
    let kind = kind_of(alloc, &scoped);
    let_go(scoped);
    Ok(kind)
}

#[test]
fn a_program_has_types(rt: HostRuntime) -> Result<(), Fail> {
    assert!(rt; inferred(rt.alloc())? == Some(Kind::Set));
    Ok(())
}
