use crate::programs::{let_go, scoped};
use kl_core::{Term, nodes};
use kl_desugar::translate;
use kl_value::Kind;
use std::alloc::Global;
use std::test::Fail;

fn translated(alloc: Global) -> Result<Term, Fail> {
    let scoped = scoped(alloc)?;
    let term = translate(alloc, &scoped);
    let_go(scoped);
    Ok(term?)
}

fn binds_the_item(term: &Term) -> bool {
    match term {
        Term::Let(bound, _) => matches!(bound.get(), Term::Var(0)),
        _ => false,
    }
}

// Ext(Set, y. Let(x = y, Make(Set, [x])), Source(1))
fn is_loop(term: &Term) -> bool {
    match term {
        Term::Ext(Kind::Set, body, source) => {
            matches!(source.get(), Term::Source(1)) && binds_the_item(body.get())
        }
        _ => false,
    }
}

#[test]
fn a_generator_is_a_loop(rt: HostRuntime) -> Result<(), Fail> {
    let term = translated(rt.alloc())?;
    assert!(rt; is_loop(&term) && nodes(&term) == 6);
    Ok(())
}
