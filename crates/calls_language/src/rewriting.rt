//! Terms that are rewritten.
ghost use Rattle.std.specs.Prelude.{IfOk};
ghost use Rattle.kl_core.specs.Trees.{view};
ghost use Rattle.kl_rewrite.specs.Steps.{IsClosed, IsWithin};

use kl_base::Box;
use kl_core::Term;
use kl_rewrite::{is_normal, rewrite, step_laws};
use kl_value::Value;
use std::alloc::Global;
use std::test::Fail;

// A constant in a `Let`, whose body is the constant.
fn bound_constant(alloc: Global) -> Result<Term, Fail>
    ensures closed { IfOk result (λ t. IsClosed (view t)) }
    ensures within { IfOk result (λ t. IsWithin (view t)) }
{
    let one = Box::new(alloc, Term::Const(Value::Int(1)))?;
    Ok(Term::Let(one, Box::new(alloc, Term::Var(0))?))
}

fn in_one_step(alloc: Global) -> Result<bool, Fail> {
    let term = bound_constant(alloc)?;
    let before = is_normal(alloc, &term)?;
    let normal = rewrite(alloc, term)?;
    let after = is_normal(alloc, &normal.term)?;
    Ok(!before && after && normal.steps == 1)
}

#[test]
fn a_bound_constant_is_normal_in_one_step(rt: HostRuntime) -> Result<(), Fail> {
    step_laws();
    assert!(rt; in_one_step(rt.alloc())?);
    Ok(())
}
