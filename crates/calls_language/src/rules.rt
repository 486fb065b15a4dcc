ghost use Rattle.std.specs.Prelude.{◌≡◌, ◌≤◌, IfOk};
ghost use Rattle.kl_value.specs.declared.Kind.TheVariants as kind;
ghost use Rattle.kl_core.specs.Trees.{If, Make, no_trees, view};
ghost use Rattle.kl_core.specs.Counts.{depth_of};
ghost use Rattle.kl_rules.specs.Rewriting.{IsShiftable};

use kl_base::{Box, NoMemory, Seq};
use kl_core::Term;
use kl_rules::{
    RULES, exchange, promote, rule, rule_1, rule_2, rule_3, rule_4, rule_5, rule_6, rule_7, rule_8,
    rule_9, rule_10, rule_11, rule_12, rule_13, rule_14, rule_15, rule_16, rule_17, rule_laws,
};
use kl_value::{Kind, Value};
use std::alloc::Global;
use std::test::Fail;

// A constant in a `Let`, whose body is the constant.
fn bound_constant(alloc: Global) -> Result<Term, Fail>
    ensures { IfOk result (λ t. IsShiftable (view t)) }
{
    let one = Box::new(alloc, Term::Const(Value::Int(1)))?;
    Ok(Term::Let(one, Box::new(alloc, Term::Var(0))?))
}

fn fits(made: Result<Option<Term>, NoMemory>) -> Result<bool, Fail> {
    Ok(made?.is_some())
}

// How many of the rules fit, by their numbers.
fn count_fitting(alloc: Global, term: &Term) -> Result<u8, Fail>
    requires small { IsShiftable (view term.now) }
{
    let mut count: u8 = 0;
    for number in 0..RULES {
        if fits(rule(alloc, number + 1, term))? {
            count = count.saturating_add(1);
        }
    }
    Ok(count)
}

// Whether none of the loops' rules fits.
fn no_loop_fits(alloc: Global, term: &Term) -> Result<bool, Fail>
    requires small { IsShiftable (view term.now) }
{
    let fusion = fits(rule_1(alloc, term))? || fits(rule_2(alloc, term))?;
    let promotion = fits(rule_3(alloc, term))?;
    let sources = fits(rule_4(alloc, term))? || fits(rule_5(alloc, term))?;
    let inner = fits(rule_6(alloc, term))? || fits(rule_7(alloc, term))?;
    Ok(!fusion && !promotion && !sources && !inner)
}

// Whether the rules for what is copied and for what is used once fit, and no other of what is bound.
fn copies_fit(alloc: Global, term: &Term) -> Result<bool, Fail>
    requires small { IsShiftable (view term.now) }
{
    let copied = fits(rule_9(alloc, term))? && fits(rule_10(alloc, term))?;
    let dead = fits(rule_8(alloc, term))?;
    let other = fits(rule_11(alloc, term))? || fits(rule_12(alloc, term))?;
    Ok(copied && !dead && !other)
}

// Whether none of the rules of known shapes and of conditions fits.
fn no_shape_fits(alloc: Global, term: &Term) -> Result<bool, Fail>
    requires small { IsShiftable (view term.now) }
{
    let shapes = fits(rule_13(alloc, term))? || fits(rule_14(alloc, term))?;
    let known = fits(rule_15(alloc, term))?;
    let nested = fits(rule_16(alloc, term))? || fits(rule_17(alloc, term))?;
    Ok(!shapes && !known && !nested)
}

fn are_tried(alloc: Global, term: &Term) -> Result<bool, Fail>
    requires small { IsShiftable (view term.now) }
{
    let count = count_fitting(alloc, term)?;
    let bindings = copies_fit(alloc, term)?;
    let loops = no_loop_fits(alloc, term)?;
    let shapes = no_shape_fits(alloc, term)?;
    Ok(count == 2 && bindings && loops && shapes)
}

fn all_tried(alloc: Global) -> Result<bool, Fail> {
    let term = bound_constant(alloc)?;
    are_tried(alloc, &term)
}

// The condition, behind which nothing is.
fn tested(alloc: Global, test: Term, yes: Term) -> Result<Term, Fail>
    ensures { IfOk result (λ t. view t ≡ If (view test) (view yes) (Make kind.Set no_trees)) }
{
    let nothing = Term::Make(Kind::Set, Seq::of(Vec::new(alloc)));
    let test = Box::new(alloc, test)?;
    let yes = Box::new(alloc, yes)?;
    Ok(Term::If(test, yes, Box::new(alloc, nothing)?))
}

// A condition on a variable before a constant one.
fn two_tests(alloc: Global) -> Result<Term, Fail>
    ensures { IfOk result (λ t. depth_of (view t) ≤ 512) }
{
    let inner = tested(
        alloc,
        Term::Const(Value::Bool(true)),
        Term::Const(Value::Int(1)),
    )?;
    tested(alloc, Term::Var(0), inner)
}

// A loop over a source whose body is under a constant condition.
fn tested_loop(alloc: Global) -> Result<Term, Fail>
    ensures small { IfOk result (λ t. IsShiftable (view t)) }
    ensures within { IfOk result (λ t. depth_of (view t) ≤ 512) }
{
    let body = tested(
        alloc,
        Term::Const(Value::Bool(true)),
        Term::Const(Value::Int(1)),
    )?;
    let body = Box::new(alloc, body)?;
    Ok(Term::Ext(Kind::Set, body, Box::new(alloc, Term::Source(0))?))
}

fn exchanges(alloc: Global) -> Result<bool, Fail> {
    let mut term = two_tests(alloc)?;
    Ok(exchange(&mut term, 512) && matches!(term, Term::If(_, _, _)))
}

fn promotes(alloc: Global) -> Result<bool, Fail> {
    let mut term = tested_loop(alloc)?;
    let promoted = promote(alloc, &mut term, 512)?;
    Ok(promoted && matches!(term, Term::If(_, _, _)))
}

#[test]
fn conditions_are_moved_where_they_stand(rt: HostRuntime) -> Result<(), Fail> {
    assert!(rt; exchanges(rt.alloc())?);
    assert!(rt; promotes(rt.alloc())?);
    Ok(())
}

// Each rule has terms where it fits among the cases of the program `cases`.
#[test]
fn rules_are_tried_at_a_bound_constant(rt: HostRuntime) -> Result<(), Fail> {
    rule_laws();
    assert!(rt; all_tried(rt.alloc())?);
    Ok(())
}
