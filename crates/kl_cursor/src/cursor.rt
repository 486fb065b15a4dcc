//! The public calls.
ghost use Rattle.std.specs.Prelude.{◌≡◌, reverse, IfOk, OnErr};
ghost use Rattle.kl_plan.specs.Nodes.{view};
ghost use Rattle.kl_scans.specs.Held.{Owned};
ghost use Rattle.kl_scans.specs.Moves.{Closes};
ghost use Rattle.kl_cursor.specs.AtHand.{NextsHeld, NextsHeldLazily, PullsAlone};
ghost use Rattle.kl_cursor.specs.Laziness.{NextsLazily};
ghost use Rattle.kl_cursor.specs.Left.{fresh, snap, uses};
ghost use Rattle.kl_cursor.specs.Memos.{IsMemo, KeepsSame};
ghost use Rattle.kl_cursor.specs.Pulling.{SilentUnlessPulls, Silent, pulls};
ghost use Rattle.kl_cursor.specs.Sense.{HasWorth, Stands};
ghost use Rattle.kl_cursor.specs.Steps.{Nexts, Partly};

use crate::held::{Turn, step_held};
use crate::pulling::may_pull;
use crate::scans::Scans;
use crate::state::State;
use crate::stepping::{close, step};
use crate::steps::let_go;
use crate::values::whole;
use kl_base::{NoMemory, Seq};
use kl_eval::{Env, EvalStop, inside};
use kl_plan::Plan;
use kl_scans::{Ran, Run};
use kl_value::{Value, dup_items};
use std::alloc::Global;
use std::mem;

/// The items of a plan of a collection, drawn one at a time. It borrows the plan, and keeps the values of its positions.
#[derive(Drop)]
pub struct Cursor<'p> {
    alloc: Global,
    at: State<'p>,
    env: Seq<Value>,
}

/// What is drawn of the rows at hand.
#[derive(Drop)]
pub enum Draw {
    Item(Value),
    /// No item is left.
    End,
    /// A source must be read on for more.
    NeedsPull,
}

/// The value of a plan, of any type, where the last value of `env` is the nearest position's. Of a set or a bag it is the canonical
/// collection.
///
/// The plan makes sense under the types of what the run's session has attached and those of the values in `env`. Afterwards, also after
/// a stop, no cursor of a driver is open that was not, and all that was done is counted. Where it is a memo, nothing is kept of an
/// evaluation that stopped.
///
/// # Errors
/// `Overflow` exactly where the value is one; `Driver` where the driver of that source refused to go on, with its cause; want of
/// memory. The last two come first.
pub fn value_of<'r>(
    alloc: Global,
    plan: &Plan,
    env: &mut Vec<Value>,
    run: &mut Run<'r>,
) -> Result<Value, EvalStop>
    requires { HasWorth (⟦<Run<'r> as Ran>⟧.world run.old) (view plan.now) (reverse env.old.items) }
    ensures env { env.new.items ≡ env.old.items }
    ensures value { Partly (reverse env.old.items) (view plan.now) result (⟦<Run<'r> as Ran>⟧.world run.old)
        (⟦<Run<'r> as Ran>⟧.world run.new) }
    ensures kept { IsMemo (view plan.now) → OnErr result (KeepsSame (⟦<Run<'r> as Ran>⟧.world run.old) (⟦<Run<'r> as Ran>⟧.world run.new)) }
{
    inside(whole(alloc, plan, &Env::Base(env.as_slice()), run))
}

/// A cursor of a plan, with nothing done yet, where the last value of `env` is the nearest position's. Nothing is opened.
///
/// # Errors
/// Want of memory.
pub fn open_plan<'p>(alloc: Global, plan: &'p Plan, env: &[Value]) -> Result<Cursor<'p>, NoMemory>
    ensures { IfOk result (λ c. (snap c.at ≡ fresh (view plan.now)) × (c.env ≡ env.now)) }
{
    let values = dup_items(alloc, env)?;
    Ok(Cursor {
        alloc,
        at: State::Fresh(plan),
        env: Seq::of(values),
    })
}

impl<'p> Cursor<'p> {
    /// The next item, or None at the end. Items of a plan of kind list come in order, those of a set or a bag in any, and of a
    /// set with repeats.
    ///
    /// To a loop over a scan that makes a list, no row more is handed before it is needed, but for those that come with it. Where
    /// `may_pull` answers no, nothing is started and nothing handed, whatever the answer is.
    ///
    /// The cursor's own cursors of drivers are open, as it left them, and it makes sense under the types of what the run's
    /// session has attached. Those of other cursors are left as they are.
    ///
    /// # Errors
    /// `Overflow` where no item is left and the end is one, of a set or a bag also earlier; `Driver` where the driver of that
    /// source refused to go on, with its cause; want of memory. After a stop its scans are closed, and it gives nothing more.
    pub fn next<'r>(&mut self, run: &mut Run<'r>) -> Result<Option<Value>, EvalStop>
        requires owned { Owned (uses (snap self.old.at)) (⟦<Run<'r> as Ran>⟧.world run.old) }
        requires sense { Stands (⟦<Run<'r> as Ran>⟧.world run.old) (snap self.old.at) (reverse self.old.env) }
        ensures env { self.new.env ≡ self.old.env }
        ensures next { Nexts (reverse self.old.env) (snap self.old.at) result (snap self.new.at)
            (⟦<Run<'r> as Ran>⟧.world run.old) (⟦<Run<'r> as Ran>⟧.world run.new) }
        ensures lazy { NextsLazily (reverse self.old.env) (snap self.old.at) result (snap self.new.at)
            (⟦<Run<'r> as Ran>⟧.world run.old) (⟦<Run<'r> as Ran>⟧.world run.new) }
        ensures quiet { SilentUnlessPulls (snap self.old.at) (⟦<Run<'r> as Ran>⟧.world run.old)
            (⟦<Run<'r> as Ran>⟧.world run.new) }
    {
        self.advance(run)
    }

    // Over whatever gives scans, as the steps are: over a run alone a call of them would want its impl from below.
    fn advance<C: Scans>(&mut self, run: &mut C) -> Result<Option<Value>, EvalStop>
        requires owned { Owned (uses (snap self.old.at)) (C.world run.old) }
        requires sense { Stands (C.world run.old) (snap self.old.at) (reverse self.old.env) }
        ensures env { self.new.env ≡ self.old.env }
        ensures next { Nexts (reverse self.old.env) (snap self.old.at) result (snap self.new.at) (C.world run.old) (C.world run.new) }
        ensures lazy { NextsLazily (reverse self.old.env) (snap self.old.at) result (snap self.new.at) (C.world run.old) (C.world run.new) }
        ensures quiet { SilentUnlessPulls (snap self.old.at) (C.world run.old) (C.world run.new) }
    {
        let at = mem::replace(&mut self.at, State::Done);
        match step(self.alloc, at, &Env::Base(self.env.slice()), run) {
            Ok((item, rest)) => match item {
                Some(item) => {
                    self.at = rest;
                    Ok(Some(item))
                }
                None => {
                    let_go(rest);
                    Ok(None)
                }
            },
            Err(stop) => Err(stop),
        }
    }

    /// The next item, where the rows at hand give it; or that a source must be read on for more. Then nothing is lost: as much is left as
    /// was. No scan is started and no row handed, whatever the answer is, so whoever holds back what it makes of items lets go of it only
    /// where this answers `NeedsPull`, and draws on with `next`.
    ///
    /// # Errors
    /// Those of `next`.
    pub fn next_held<'r>(&mut self, run: &mut Run<'r>) -> Result<Draw, EvalStop>
        requires owned { Owned (uses (snap self.old.at)) (⟦<Run<'r> as Ran>⟧.world run.old) }
        requires sense { Stands (⟦<Run<'r> as Ran>⟧.world run.old) (snap self.old.at) (reverse self.old.env) }
        ensures env { self.new.env ≡ self.old.env }
        ensures next { NextsHeld (reverse self.old.env) (snap self.old.at) result (snap self.new.at)
            (⟦<Run<'r> as Ran>⟧.world run.old) (⟦<Run<'r> as Ran>⟧.world run.new) }
        ensures lazy { NextsHeldLazily (reverse self.old.env) (snap self.old.at) result (snap self.new.at)
            (⟦<Run<'r> as Ran>⟧.world run.old) (⟦<Run<'r> as Ran>⟧.world run.new) }
        ensures silent { Silent (⟦<Run<'r> as Ran>⟧.world run.old) (⟦<Run<'r> as Ran>⟧.world run.new) }
        ensures needed { PullsAlone result (snap self.old.at) }
    {
        self.draw_held(run)
    }

    fn draw_held<C: Scans>(&mut self, run: &mut C) -> Result<Draw, EvalStop>
        requires owned { Owned (uses (snap self.old.at)) (C.world run.old) }
        requires sense { Stands (C.world run.old) (snap self.old.at) (reverse self.old.env) }
        ensures env { self.new.env ≡ self.old.env }
        ensures next { NextsHeld (reverse self.old.env) (snap self.old.at) result (snap self.new.at) (C.world run.old) (C.world run.new) }
        ensures lazy { NextsHeldLazily (reverse self.old.env) (snap self.old.at) result (snap self.new.at) (C.world run.old)
            (C.world run.new) }
        ensures silent { Silent (C.world run.old) (C.world run.new) }
        ensures needed { PullsAlone result (snap self.old.at) }
    {
        let at = mem::replace(&mut self.at, State::Done);
        match step_held(self.alloc, at, &Env::Base(self.env.slice()), run) {
            Ok(turn) => match turn {
                Turn::Stepped(item, rest) => match item {
                    Some(item) => {
                        self.at = rest;
                        Ok(Draw::Item(item))
                    }
                    None => {
                        let_go(rest);
                        Ok(Draw::End)
                    }
                },
                Turn::NeedsPull(rest) => {
                    self.at = rest;
                    Ok(Draw::NeedsPull)
                }
            },
            Err(stop) => Err(stop),
        }
    }

    /// Whether `next` may read on at a source: where it may not, it starts no scan and is handed no row. Whoever holds back what it
    /// makes of items lets go of it before a source is waited for.
    pub fn may_pull(&self) -> bool
        ensures { result ≡ pulls (snap self.now.at) }
    {
        may_pull(&self.at)
    }

    /// Closes the cursors of drivers that it has open. Takes no memory.
    pub fn close<'r>(self, run: &mut Run<'r>)
        requires { Owned (uses (snap self.at)) (⟦<Run<'r> as Ran>⟧.world run.old) }
        ensures { Closes (uses (snap self.entry.at)) (⟦<Run<'r> as Ran>⟧.world run.old) (⟦<Run<'r> as Ran>⟧.world run.new) }
    {
        let Cursor { at, .. } = self;
        close(at, run);
    }
}
