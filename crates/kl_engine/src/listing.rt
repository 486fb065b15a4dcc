//! Lists, which are printed as they are drawn.
ghost use Rattle.std.specs.Prelude.{◌≡◌, ◌++◌, ℕ, Bool, List, [], None, Some, Ok, codes, false, reverse, true, ⊤};
ghost use Rattle.kl_outside.specs.Files.{FilesState};
ghost use Rattle.kl_outside.specs.Sinks.{SinkState, WritesWhole};
ghost use Rattle.kl_exchange.specs.Printing.{Puts, as_stop};
ghost use Rattle.kl_value.specs.declared.Value.{Value};
ghost use Rattle.kl_value.specs.declared.value.Value.TheVariants as value;
ghost use Rattle.kl_value.specs.Written.{separator, text_of};
ghost use Rattle.kl_core.specs.Core.{core};
ghost use Rattle.kl_core.specs.Trees.{Tree};
ghost use Rattle.kl_core.specs.Typing.{HaveSources};
ghost use Rattle.kl_ask.specs.Driver.{DriverKind};
ghost use Rattle.kl_ask.specs.World.{types_of, values_of};
ghost use Rattle.kl_plan.specs.Nodes.{view};
ghost use Rattle.kl_cursor.specs.Left.{snap, uses};
ghost use Rattle.kl_cursor.specs.Sense.{Stands};
ghost use Rattle.kl_scans.specs.Held.{Owned};
ghost use Rattle.kl_scans.specs.Running.{session};
ghost use Rattle.kl_sources.specs.declared.source.Source.{Source};
ghost use Rattle.kl_run.specs.Running.{Runs};
ghost use Rattle.kl_engine.specs.Answering.{PrintsPage};
ghost use Rattle.kl_engine.specs.Faults.{ending};
ghost use Rattle.kl_engine.specs.Outside.{outside_of};
ghost use Rattle.kl_engine.specs.Running.{AnswersTerm, HasList, IsListOutcome, IsListTerm, Scanned, SparesRows, StopsList};
ghost use Rattle.kl_engine.specs.Running.{Draws, TookMore, are_enough, one_more, plan_over};
ghost use Rattle.kl_engine.specs.Verdict.{list_front, value_page};

use crate::fault::Fault;
use crate::page::{put_item, write_fault};
use crate::run::driver_fault;
use kl_cursor::{Cursor, Draw, open_plan};
use kl_eval::EvalStop;
use kl_exchange::{Page, PrintError};
use kl_outside::Sink;
use kl_scans::{Ran, Run};
use kl_ship::Plan;
use kl_value::Value;
use std::alloc::Global;

/// Prints the items of a list as they are drawn, and no more than the first of them, where a number is given: then no more are drawn.
/// What was drawn is written before a source is waited for.
///
/// # Errors
/// `Overflow`, behind the items that come before it; `Read` and `Changed`, where a driver failed or a source is no longer what it
/// was; `Write`, where the sink refused a piece; want of memory.
pub fn print_list<'p, S: Sink>(
    alloc: Global,
    plan: &Plan,
    first: Option<u32>,
    run: &mut Run<'p>,
    out: &mut S,
) -> Result<(), Fault>
    requires { HasList (⟦<Run<'p> as Ran>⟧.world run.old) (view plan.now) }
    ensures prints { (files : FilesState) (ks : List DriverKind) (ss : List Source) (marks : ℕ → Bool) (t : Tree)
        → Runs ks ss marks t (view plan.now) (⟦<Run<'p> as Ran>⟧.world run.old)
        → IsListTerm (types_of (session (⟦<Run<'p> as Ran>⟧.world run.old))) t → AnswersTerm ⊤
        (IsListOutcome first (core (values_of (session (⟦<Run<'p> as Ran>⟧.world run.old))) t []))
        (HaveSources (types_of (session (⟦<Run<'p> as Ran>⟧.world run.old))) (values_of (session (⟦<Run<'p> as Ran>⟧.world run.old))))
        (ending result) (plan_over (session (⟦<Run<'p> as Ran>⟧.world run.old)) (view plan.now))
        (outside_of files (⟦<Run<'p> as Ran>⟧.world run.old).drivers (S.state out.old))
        (outside_of files (⟦<Run<'p> as Ran>⟧.world run.new).drivers (S.state out.new)) }
    ensures scanned { Scanned (view plan.now) (ending result) first (⟦<Run<'p> as Ran>⟧.world run.old)
        (⟦<Run<'p> as Ran>⟧.world run.new) }
    ensures spares { SparesRows (view plan.now) (ending result) first (⟦<Run<'p> as Ran>⟧.world run.old)
        (⟦<Run<'p> as Ran>⟧.world run.new) (S.state out.old) (S.state out.new) }
    ensures none { first ≡ Some 0 → ⟦<Run<'p> as Ran>⟧.world run.new ≡ ⟦<Run<'p> as Ran>⟧.world run.old }
{
    let mut page = Page::new();
    match begin(&mut page, out) {
        Ok(()) => {}
        Err(error) => return Err(write_fault(error)),
    }
    if are_enough(first) {
        return end(&mut page, out);
    }
    print_items(alloc, plan, first, &mut page, run, out)
}

fn begin<S: Sink>(page: &mut Page, out: &mut S) -> Result<(), PrintError>
    requires { page.old ≡ [] }
    ensures { Puts (list_front []) (as_stop result) (S.state out.old) [] (S.state out.new) page.new }
{
    match page.put(b"[|", out) {
        Ok(()) => page.flush(out),
        Err(error) => Err(error),
    }
}

// The end of a list that is whole.
fn end<S: Sink>(page: &mut Page, out: &mut S) -> Result<(), Fault>
    ensures ends { (given : List Value) (first : SinkState)
        → Puts {T = Unit {0}} (list_front given) (Ok tt) first [] (S.state out.old) page.old
        → PrintsPage (value_page (value.List given)) (ending result) first (S.state out.new) }
    ensures more { TookMore (S.state out.old) (S.state out.new) }
{
    match close(page, out) {
        Ok(()) => Ok(()),
        Err(error) => Err(write_fault(error)),
    }
}

fn close<S: Sink>(page: &mut Page, out: &mut S) -> Result<(), PrintError>
    ensures { (text : List ℕ) (first : SinkState) → Puts {T = Unit {0}} text (Ok tt) first [] (S.state out.old) page.old
        → WritesWhole (text ++ codes "|]\n") (as_stop result) first (S.state out.new) }
{
    match page.put(b"|]\n", out) {
        Ok(()) => page.flush(out),
        Err(error) => Err(error),
    }
}

// Whether no more items are wanted, where so many more are.
fn are_enough(left: Option<u32>) -> bool
    ensures { result ≡ are_enough left }
{
    match left {
        None => false,
        Some(left) => left == 0,
    }
}

// How many more items are wanted behind one more.
fn fewer(left: Option<u32>) -> Option<u32>
    requires { are_enough left ≡ false }
    ensures { left ≡ one_more result }
{
    match left {
        None => None,
        Some(left) => Some(left - 1),
    }
}

// Draws items and prints them, up to the end or until there are enough. That a list begins is printed.
fn print_items<'p, S: Sink>(
    alloc: Global,
    plan: &Plan,
    first: Option<u32>,
    page: &mut Page,
    run: &mut Run<'p>,
    out: &mut S,
) -> Result<(), Fault>
    requires sense { HasList (⟦<Run<'p> as Ran>⟧.world run.old) (view plan.now) }
    requires some { are_enough first ≡ false }
    ensures prints { (files : FilesState) (ks : List DriverKind) (ss : List Source) (marks : ℕ → Bool) (t : Tree) (front : SinkState)
        → Runs ks ss marks t (view plan.now) (⟦<Run<'p> as Ran>⟧.world run.old)
        → IsListTerm (types_of (session (⟦<Run<'p> as Ran>⟧.world run.old))) t
        → Puts {T = Unit {0}} (list_front []) (Ok tt) front [] (S.state out.old) page.old → AnswersTerm ⊤
        (IsListOutcome first (core (values_of (session (⟦<Run<'p> as Ran>⟧.world run.old))) t []))
        (HaveSources (types_of (session (⟦<Run<'p> as Ran>⟧.world run.old))) (values_of (session (⟦<Run<'p> as Ran>⟧.world run.old))))
        (ending result) (plan_over (session (⟦<Run<'p> as Ran>⟧.world run.old)) (view plan.now))
        (outside_of files (⟦<Run<'p> as Ran>⟧.world run.old).drivers front)
        (outside_of files (⟦<Run<'p> as Ran>⟧.world run.new).drivers (S.state out.new)) }
    ensures scanned { Scanned (view plan.now) (ending result) first (⟦<Run<'p> as Ran>⟧.world run.old)
        (⟦<Run<'p> as Ran>⟧.world run.new) }
    ensures spares { (front : SinkState) → Puts {T = Unit {0}} (list_front []) (Ok tt) front [] (S.state out.old) page.old
        → SparesRows (view plan.now) (ending result) first (⟦<Run<'p> as Ran>⟧.world run.old)
        (⟦<Run<'p> as Ran>⟧.world run.new) front (S.state out.new) }
{
    match open_plan(alloc, plan, &[]) {
        Ok(cursor) => {
            let mut cursor = cursor;
            let mut left = first;
            let mut place: usize = 0;
            'items: loop {
                match draw(&mut cursor, page, run, out) {
                    Ok(Ok(Some(item))) => match print_item(place, item, page, out) {
                        Ok(()) => {
                            place = 1;
                            left = fewer(left);
                            if are_enough(left) {
                                cursor.close(run);
                                return end(page, out);
                            }
                        }
                        Err(error) => {
                            cursor.close(run);
                            return Err(write_fault(error));
                        }
                    },
                    Ok(Ok(None)) => return end(page, out),
                    Ok(Err(stop)) => return stopped(stop, page, out),
                    Err(error) => {
                        cursor.close(run);
                        return Err(write_fault(error));
                    }
                }
            }
        }
        Err(_) => Err(Fault::NoMemory),
    }
}

// Prints an item, and drops it.
fn print_item<S: Sink>(
    place: usize,
    item: Value,
    page: &mut Page,
    out: &mut S,
) -> Result<(), PrintError>
    ensures { Puts (separator place ++ text_of item) (as_stop result) (S.state out.old) page.old (S.state out.new) page.new }
{
    put_item(place, &item, page, out)
}

// The next item, or why there is none, unless the output refused what was printed before. That is written where a source is read on
// for the item, and only there.
fn draw<'p, S: Sink>(
    cursor: &mut Cursor<'_>,
    page: &mut Page,
    run: &mut Run<'p>,
    out: &mut S,
) -> Result<Result<Option<Value>, EvalStop>, PrintError>
    requires owned { Owned (uses (snap cursor.old.at)) (⟦<Run<'p> as Ran>⟧.world run.old) }
    requires sense { Stands (⟦<Run<'p> as Ran>⟧.world run.old) (snap cursor.old.at) (reverse cursor.old.env) }
    ensures env { cursor.new.env ≡ cursor.old.env }
    ensures puts { Puts [] (as_stop result) (S.state out.old) page.old (S.state out.new) page.new }
    ensures draws { Draws (reverse cursor.old.env) (snap cursor.old.at) result (snap cursor.new.at)
        (⟦<Run<'p> as Ran>⟧.world run.old) (⟦<Run<'p> as Ran>⟧.world run.new) page.new }
{
    match cursor.next_held(run) {
        Ok(Draw::Item(item)) => Ok(Ok(Some(item))),
        Ok(Draw::End) => Ok(Ok(None)),
        Ok(Draw::NeedsPull) => match page.flush(out) {
            Ok(()) => Ok(cursor.next(run)),
            Err(error) => Err(error),
        },
        Err(stop) => Ok(Err(stop)),
    }
}

// The end of a list that was stopped, behind the items that were drawn.
fn stopped<S: Sink>(stop: EvalStop, page: &mut Page, out: &mut S) -> Result<(), Fault>
    ensures stops { (given : List Value) (first : SinkState)
        → Puts {T = Unit {0}} (list_front given) (Ok tt) first [] (S.state out.old) page.old
        → StopsList given stop (ending result) first (S.state out.new) }
    ensures never { ending result ≡ None → ⊥ }
    ensures more { TookMore (S.state out.old) (S.state out.new) }
{
    match stop {
        EvalStop::Overflow => match page.flush(out) {
            Ok(()) => Err(Fault::Overflow),
            Err(error) => Err(write_fault(error)),
        },
        EvalStop::Driver { source, error } => match page.flush(out) {
            Ok(()) | Err(_) => Err(driver_fault(source, error)),
        },
        EvalStop::NoMemory => match page.flush(out) {
            Ok(()) | Err(_) => Err(Fault::NoMemory),
        },
    }
}
