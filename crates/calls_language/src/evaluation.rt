ghost use Rattle.std.specs.Prelude.{◌≡◌, List, [], IfOk};
ghost use Rattle.kl_value.specs.declared.Value.{Value};
ghost use Rattle.kl_core.specs.Trees.{view};
ghost use Rattle.kl_ask.specs.World.{World, IsReady};
ghost use Rattle.kl_eval.specs.Evals.{Sense, SenseList};

use kl_ask::{JoinHow, Seen, Session, Settings, Trace};
use kl_base::Seq;
use kl_core::Term;
use kl_eval::{eval, eval_list};
use kl_value::{Kind, Value};
use std::alloc::{AllocError, Global};
use std::test::Fail;

// A session without sources.
fn session(alloc: Global) -> Session
    ensures { IsReady (⟦<Session as Seen>⟧.world result) }
{
    Session {
        drivers: Vec::new(alloc),
        sources: Seq::of(Vec::new(alloc)),
        settings: Settings {
            block: 256,
            fetch: 64,
            cache: 64,
            join: JoinHow::Index,
            rewrite: true,
            delegate: true,
        },
        trace: Trace::new(alloc),
    }
}

fn four() -> Term
    ensures { (env : List Value) (w : World) → env ≡ [] → IsReady w → Sense (view result) env w }
{
    Term::Const(Value::Int(4))
}

fn list_of(alloc: Global, item: Term) -> Result<Term, AllocError>
    requires { (env : List Value) (w : World) → env ≡ [] → IsReady w → Sense (view item) env w }
    ensures { IfOk result (λ whole. (env : List Value) (w : World) → env ≡ [] → IsReady w → SenseList (view whole) env w) }
{
    let items = vec![in alloc; item]?;
    Ok(Term::Make(Kind::List, Seq::of(items)))
}

#[test]
fn a_term_has_a_value(rt: HostRuntime) {
    let mut env = Vec::new(rt.alloc());
    let mut session = session(rt.alloc());
    let result = eval(rt.alloc(), &four(), &mut env, &mut session);
    assert!(rt; result == Ok(Value::Int(4)));
}

#[test]
fn a_list_is_added(rt: HostRuntime) -> Result<(), Fail> {
    let mut env = Vec::new(rt.alloc());
    let mut into = vec![in rt.alloc(); Value::Int(1)]?;
    let term = list_of(rt.alloc(), four())?;
    let mut session = session(rt.alloc());
    let result = eval_list(rt.alloc(), &term, &mut env, &mut session, &mut into);
    assert!(rt; result == Ok(()));
    assert_eq!(rt; into.len(), 2);
    Ok(())
}
