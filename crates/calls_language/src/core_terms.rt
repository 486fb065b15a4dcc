use kl_base::{Box, Seq};
use kl_core::{Term, depth, fits, is_total, is_total_code, nodes, occurs, shift, subst};
use kl_value::{Kind, Value};
use std::alloc::Global;
use std::test::Fail;

fn sum(alloc: Global) -> Result<Term, Fail> {
    let one = Term::Const(Value::Int(1));
    Ok(Term::Prim(7, Seq::of(vec![in alloc; Term::Var(0), one]?)))
}

// The first position and one added, in a `Let` whose body is the position outside it.
fn bound_sum(alloc: Global) -> Result<Term, Fail> {
    let body = Box::new(alloc, Term::Var(1))?;
    Ok(Term::Let(Box::new(alloc, sum(alloc)?)?, body))
}

fn copied(alloc: Global) -> Result<Term, Fail> {
    let term = bound_sum(alloc)?;
    let copy = term.dup(alloc);
    let_go(term);
    Ok(copy?)
}

fn let_go(_term: Term) {}

fn is_measured(term: &Term) -> bool {
    nodes(term) == 5 && depth(term) == 3
}

// It mentions the first position alone, and a sum may overflow.
fn has_contents(term: &Term) -> bool {
    occurs(term, 0) && !occurs(term, 1) && !is_total(term)
}

#[test]
fn terms_are_measured_and_copied(rt: HostRuntime) -> Result<(), Fail> {
    let term = copied(rt.alloc())?;
    assert!(rt; is_measured(&term) && has_contents(&term));
    Ok(())
}

#[test]
fn kinds_fit(rt: HostRuntime) {
    assert!(rt; fits(Kind::List, Kind::Bag));
    assert!(rt; !fits(Kind::Set, Kind::Bag));
}

// A comparison answers always, and a sum may overflow.
#[test]
fn codes_are_total(rt: HostRuntime) {
    assert!(rt; is_total_code(1) && !is_total_code(7));
}

#[test]
fn positions_are_moved(rt: HostRuntime) -> Result<(), Fail> {
    let raised = shift(rt.alloc(), &Term::Var(1), 0, 2)?;
    assert!(rt; matches!(raised, Term::Var(3)));
    Ok(())
}

#[test]
fn positions_are_replaced(rt: HostRuntime) -> Result<(), Fail> {
    let put = subst(rt.alloc(), &Term::Var(0), 0, &Term::Var(4))?;
    assert!(rt; matches!(put, Term::Var(4)));
    Ok(())
}
