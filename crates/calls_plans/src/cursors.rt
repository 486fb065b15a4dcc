ghost use Rattle.std.specs.Prelude.{◌≡◌, [], IfOk, reverse};
ghost use Rattle.kl_value.specs.declared.Kind.TheVariants as kind;
ghost use Rattle.kl_type.specs.Ground.{coll, int};
ghost use Rattle.kl_plan.specs.Nodes.{view};
ghost use Rattle.kl_plan.specs.Parts.{memos_of};
ghost use Rattle.kl_scans.specs.Held.{Owned};
ghost use Rattle.kl_scans.specs.Right.{IsReadyRun};
ghost use Rattle.kl_scans.specs.Running.{Running};
ghost use Rattle.kl_cursor.specs.Left.{snap, uses};
ghost use Rattle.kl_cursor.specs.Sense.{Stands, TypesAt};

use kl_ask::{Session, Settings, Trace};
use kl_base::{Box, Seq};
use kl_core::Term;
use kl_cursor::{Cursor, Draw, open_plan, value_of};
use kl_eval::EvalStop;
use kl_run::{memo_for, run_of};
use kl_scans::{Ran, Run};
use kl_ship::Plan;
use kl_value::{Kind, Value};
use std::alloc::Global;
use std::test::Fail;

// A list of each item of `[|4|]` and then 7.
fn plan(alloc: Global) -> Result<Plan, Fail>
    ensures types { IfOk result (λ p. (w : Running) → TypesAt w [] (view p) (coll kind.List int)) }
    ensures memos { IfOk result (λ p. memos_of (view p) ≡ []) }
{
    let four = Plan::Plain(Term::Const(Value::Int(4)));
    let seven = Plan::Plain(Term::Const(Value::Int(7)));
    let outer = vec![in alloc; four]?;
    let inner = vec![in alloc; Plan::Var(0), seven]?;
    let source = Box::new(alloc, Plan::Make(Kind::List, Seq::of(outer)))?;
    let body = Box::new(alloc, Plan::Make(Kind::List, Seq::of(inner)))?;
    Ok(Plan::Ext(Kind::List, body, source))
}

// A run of a plan without subqueries, over a session without sources.
fn run<'p>(alloc: Global, plan: &'p Plan) -> Result<Run<'p>, Fail>
    requires { memos_of (view plan.now) ≡ [] }
    ensures { IfOk result (λ r. IsReadyRun (⟦<Run<'p> as Ran>⟧.world r)) }
{
    let settings = Settings::usual();
    let memo = memo_for(alloc, &settings)?;
    let session = Session {
        drivers: Vec::new(alloc),
        sources: Seq::of(Vec::new(alloc)),
        settings,
        trace: Trace::new(alloc),
    };
    Ok(run_of(session, memo, plan))
}

// Whether the next item is this integer.
fn gives<'p>(cursor: &mut Cursor<'_>, run: &mut Run<'p>, item: i64) -> bool
    requires owned { Owned (uses (snap cursor.old.at)) (⟦<Run<'p> as Ran>⟧.world run.old) }
    requires sense { Stands (⟦<Run<'p> as Ran>⟧.world run.old) (snap cursor.old.at) (reverse cursor.old.env) }
    ensures owned { Owned (uses (snap cursor.new.at)) (⟦<Run<'p> as Ran>⟧.world run.new) }
    ensures sense { Stands (⟦<Run<'p> as Ran>⟧.world run.new) (snap cursor.new.at) (reverse cursor.new.env) }
{
    cursor.next(run) == Ok(Some(Value::Int(item)))
}

fn is_item(drawn: &Result<Draw, EvalStop>, item: i64) -> bool {
    match drawn {
        Ok(Draw::Item(Value::Int(found))) => *found == item,
        _ => false,
    }
}

// Whether this integer comes of what is at hand.
fn holds<'p>(cursor: &mut Cursor<'_>, run: &mut Run<'p>, item: i64) -> bool
    requires owned { Owned (uses (snap cursor.old.at)) (⟦<Run<'p> as Ran>⟧.world run.old) }
    requires sense { Stands (⟦<Run<'p> as Ran>⟧.world run.old) (snap cursor.old.at) (reverse cursor.old.env) }
    ensures owned { Owned (uses (snap cursor.new.at)) (⟦<Run<'p> as Ran>⟧.world run.new) }
    ensures sense { Stands (⟦<Run<'p> as Ran>⟧.world run.new) (snap cursor.new.at) (reverse cursor.new.env) }
{
    is_item(&cursor.next_held(run), item)
}

fn ends<'p>(cursor: &mut Cursor<'_>, run: &mut Run<'p>) -> bool
    requires owned { Owned (uses (snap cursor.old.at)) (⟦<Run<'p> as Ran>⟧.world run.old) }
    requires sense { Stands (⟦<Run<'p> as Ran>⟧.world run.old) (snap cursor.old.at) (reverse cursor.old.env) }
    ensures { Owned (uses (snap cursor.new.at)) (⟦<Run<'p> as Ran>⟧.world run.new) }
{
    cursor.next(run) == Ok(None)
}

// Whether no source is read, and 4, 7 and the end come.
fn is_drawn<'p>(alloc: Global, plan: &Plan, run: &mut Run<'p>) -> Result<bool, Fail>
    requires types { (w : Running) → TypesAt w [] (view plan.now) (coll kind.List int) }
    requires ready { IsReadyRun (⟦<Run<'p> as Ran>⟧.world run.old) }
{
    let mut cursor = open_plan(alloc, plan, &[])?;
    let waits = cursor.may_pull();
    let first = gives(&mut cursor, run, 4);
    let second = holds(&mut cursor, run, 7);
    let end = ends(&mut cursor, run);
    cursor.close(run);
    Ok(!waits && first && second && end)
}

fn draws(alloc: Global) -> Result<bool, Fail> {
    let plan = plan(alloc)?;
    let mut run = run(alloc, &plan)?;
    is_drawn(alloc, &plan, &mut run)
}

#[test]
fn items_are_drawn(rt: HostRuntime) -> Result<(), Fail> {
    assert!(rt; draws(rt.alloc())?);
    Ok(())
}

fn is_list(value: &Value) -> bool {
    match value {
        Value::List(items) => matches!(items.slice(), [Value::Int(4), Value::Int(7)]),
        _ => false,
    }
}

// Whether the value is the list of 4 and 7.
fn has_value<'p>(alloc: Global, plan: &Plan, run: &mut Run<'p>) -> bool
    requires types { (w : Running) → TypesAt w [] (view plan.now) (coll kind.List int) }
    requires ready { IsReadyRun (⟦<Run<'p> as Ran>⟧.world run.old) }
{
    let mut env = Vec::new(alloc);
    match value_of(alloc, plan, &mut env, run) {
        Ok(value) => is_list(&value),
        Err(_) => false,
    }
}

fn values(alloc: Global) -> Result<bool, Fail> {
    let plan = plan(alloc)?;
    let mut run = run(alloc, &plan)?;
    Ok(has_value(alloc, &plan, &mut run))
}

#[test]
fn a_plan_has_a_value(rt: HostRuntime) -> Result<(), Fail> {
    assert!(rt; values(rt.alloc())?);
    Ok(())
}
