//! What `run` does with a program's text: it prints the value that the program means.
ghost use Rattle.std.specs.Prelude.{◌≡◌, ◌≤◌, ◌<◌, ℕ, Bool, List, [], All, IfOk, None, Some, length, map, true, false};
ghost use Rattle.kl_outside.specs.Files.{FilesState};
ghost use Rattle.kl_ask.specs.Driver.{DriverKind};
ghost use Rattle.kl_ask.specs.World.{types_of, values_of};
ghost use Rattle.kl_core.specs.Core.{core};
ghost use Rattle.kl_core.specs.Counts.{nodes_of};
ghost use Rattle.kl_core.specs.Trees.{Tree, view as term_view};
ghost use Rattle.kl_core.specs.Typing.{HaveSources};
ghost use Rattle.kl_cursor.specs.Sense.{HasWorth};
ghost use Rattle.kl_desugar.specs.Mentioned.{ReadsMentioned};
ghost use Rattle.kl_desugar.specs.Small.{IsSmall};
ghost use Rattle.kl_desugar.specs.Translation.{term_of};
ghost use Rattle.kl_infer.specs.Inferred.{Infers};
ghost use Rattle.kl_rewrite.specs.Steps.{IsClosed};
ghost use Rattle.kl_rows.specs.Schemes.{IsScheme, Instance};
ghost use Rattle.kl_rules.specs.Preserving.{Preserves};
ghost use Rattle.kl_run.specs.Counted.{AsksCounted, IsFreshTrace, Shows};
ghost use Rattle.kl_run.specs.Planned.{IsPlanOf, ships_of};
ghost use Rattle.kl_run.specs.Running.{Runs};
ghost use Rattle.kl_scans.specs.Keeping.{kept_in, room_in};
ghost use Rattle.kl_scans.specs.Log.{Event};
ghost use Rattle.kl_scans.specs.Running.{session};
ghost use Rattle.kl_scope.specs.Breaches.{is_marked};
ghost use Rattle.kl_ship.specs.Contents.{MakesSense};
ghost use Rattle.kl_plan.specs.Nodes.{view as plan_view};
ghost use Rattle.kl_sources.specs.Sources.{ArePlaced, names_of, grounds_of, kinds_of};
ghost use Rattle.kl_sources.specs.declared.source.Source.{Source};
ghost use Rattle.kl_syntax.specs.View.{view, decls_of};
ghost use Rattle.kl_type.specs.Ground.{Ground, IsProper};
ghost use Rattle.kl_engine.specs.Answering.{DoesText, IsIdle};
ghost use Rattle.kl_engine.specs.Faults.{ending};
ghost use Rattle.kl_engine.specs.Outside.{outside_of};
ghost use Rattle.kl_engine.specs.Planned.{AsksOf, CountsPlan, IsEarly, IsShown, IsUnrun, PlanOf, PlansText, RunsPlan};
ghost use Rattle.kl_engine.specs.Planned.{course_of, plan_in};
ghost use Rattle.kl_engine.specs.Reading.{WasInScope};
ghost use Rattle.kl_engine.specs.Rewritten.{IsRewrittenTo};
ghost use Rattle.kl_engine.specs.Running.{AnswersTerm, DoneWith, DoneMeaning, HasList, IsListTerm, Scanned, SparesRows, plan_over};
ghost use Rattle.kl_engine.specs.Running.{IsTermOutcome, IsListScheme, IsListOutcome, IsValueOutcome, fault_of};
ghost use Rattle.kl_engine.specs.Typing.{IsTyped};
ghost use Rattle.kl_engine.specs.Verdict.{GivesList};
ghost use Rattle.kl_engine.specs.declared.top.Purpose.TheVariants as purpose;

use crate::cut::cut;
use crate::drivers::{Drivers, SeenAll};
use crate::fault::Fault;
use crate::listing::print_list;
use crate::page::print_value;
use crate::read::{infer_over, read_over};
use kl_ask::{DriverError, Session, Settings, Trace};
use kl_base::{Label, NoMemory};
use kl_core::Term;
use kl_cursor::value_of;
use kl_desugar::translate;
use kl_eval::EvalStop;
use kl_infer::Typed;
use kl_memo::Memo;
use kl_outside::Sink;
use kl_rewrite::{Normal, rewrite};
use kl_run::{memo_for, plan_of, run_of, trace_of};
use kl_scans::{Ran as Seen, Run};
use kl_scope::Scoped;
use kl_ship::Plan;
use kl_sources::{AttachError, Source, attach_sources};
use kl_value::Kind;
use std::alloc::Global;
use std::mem;

/// How a program is run: the settings, and how many of the first items are wanted, if not all are.
#[derive(Clone, Copy)]
pub struct How {
    pub settings: Settings,
    pub first: Option<u32>,
}

/// What is known of a run beside how it ended.
#[derive(Drop)]
pub struct Ran {
    /// The plan that was run, where it came to one.
    pub plan: Option<Plan>,
    /// What was counted.
    pub trace: Trace,
}

/// Runs the program that a text is, over these sources, and tells in how many steps its term was rewritten.
///
/// # Errors
/// The first that is wrong: the text is no program in scope, the term of a declaration is too large, a declaration has no
/// type, a source that is mentioned is unreadable as its type, the program means an overflow. `Read` and `Changed`, where a
/// driver failed or a source is no longer what it was; `Write`, where the sink refused a piece; want of memory.
pub fn run<S: Sink>(
    alloc: Global,
    text: &[u8],
    sources: Vec<Source>,
    how: How,
    drivers: &mut Drivers,
    out: &mut S,
    ran: &mut Ran,
) -> Result<(), Fault>
    requires few { length text.now ≤ 65536 }
    requires placed { ArePlaced (kinds_of (⟦<Drivers as SeenAll>⟧.states drivers.old)) sources.items }
    requires idle { All IsIdle (⟦<Drivers as SeenAll>⟧.states drivers.old) }
    requires fetch { 0 < how.settings.fetch }
    requires block { 0 < how.settings.block }
    requires unrun { IsUnrun ran.old }
    ensures does { (files : FilesState) → DoesText sources.items (purpose.Run how.first) text.now (ending result)
        (outside_of files (⟦<Drivers as SeenAll>⟧.states drivers.old) (S.state out.old))
        (outside_of files (⟦<Drivers as SeenAll>⟧.states drivers.new) (S.state out.new)) }
    ensures plan { PlanOf (PlansText how sources.items text.now (course_of (ending result) ran.new.trace
        (⟦<Drivers as SeenAll>⟧.states drivers.old) (⟦<Drivers as SeenAll>⟧.states drivers.new) (S.state out.old) (S.state out.new)))
        (ending result) ran.new.trace.steps (plan_in ran.new.plan) }
    ensures asks { AsksOf (plan_in ran.new.plan) ran.new.trace.starts (⟦<Drivers as SeenAll>⟧.states drivers.old)
        (⟦<Drivers as SeenAll>⟧.states drivers.new) }
    ensures shows { IsShown how.settings.block (plan_in ran.new.plan) ran.new.trace }
    ensures silent { plan_in ran.new.plan ≡ None → S.state out.new ≡ S.state out.old }
{
    match read_over(alloc, text, &sources) {
        Ok(scoped) => run_program(alloc, &scoped, sources, how, drivers, out, ran),
        Err(fault) => Err(fault),
    }
}

// Runs a program in scope.
fn run_program<S: Sink>(
    alloc: Global,
    scoped: &Scoped,
    sources: Vec<Source>,
    how: How,
    drivers: &mut Drivers,
    out: &mut S,
    ran: &mut Ran,
) -> Result<(), Fault>
    requires scope { WasInScope (names_of sources.items) scoped.now }
    requires placed { ArePlaced (kinds_of (⟦<Drivers as SeenAll>⟧.states drivers.old)) sources.items }
    requires idle { All IsIdle (⟦<Drivers as SeenAll>⟧.states drivers.old) }
    requires fetch { 0 < how.settings.fetch }
    requires block { 0 < how.settings.block }
    requires unrun { IsUnrun ran.old }
    ensures does { (files : FilesState) → DoneWith sources.items (is_marked scoped.now) (purpose.Run how.first)
        (decls_of scoped.now.program.defs) (view scoped.now.program.last) (ending result)
        (outside_of files (⟦<Drivers as SeenAll>⟧.states drivers.old) (S.state out.old))
        (outside_of files (⟦<Drivers as SeenAll>⟧.states drivers.new) (S.state out.new)) }
    ensures plan { PlanOf (RunsPlan how sources.items (is_marked scoped.now) (decls_of scoped.now.program.defs)
        (view scoped.now.program.last) scoped.now.sources (course_of (ending result) ran.new.trace
        (⟦<Drivers as SeenAll>⟧.states drivers.old) (⟦<Drivers as SeenAll>⟧.states drivers.new) (S.state out.old) (S.state out.new)))
        (ending result) ran.new.trace.steps (plan_in ran.new.plan) }
    ensures asks { AsksOf (plan_in ran.new.plan) ran.new.trace.starts (⟦<Drivers as SeenAll>⟧.states drivers.old)
        (⟦<Drivers as SeenAll>⟧.states drivers.new) }
    ensures shows { IsShown how.settings.block (plan_in ran.new.plan) ran.new.trace }
    ensures silent { plan_in ran.new.plan ≡ None → S.state out.new ≡ S.state out.old }
{
    match infer_over(alloc, scoped, &sources) {
        Ok(typed) => answer(alloc, scoped, &typed, sources, how, drivers, out, ran),
        Err(fault) => Err(fault),
    }
}

// Prints what a program means that has these types.
fn answer<S: Sink>(
    alloc: Global,
    scoped: &Scoped,
    typed: &Typed,
    sources: Vec<Source>,
    how: How,
    drivers: &mut Drivers,
    out: &mut S,
    ran: &mut Ran,
) -> Result<(), Fault>
    requires scope { WasInScope (names_of sources.items) scoped.now }
    requires types { IsTyped (grounds_of sources.items) (decls_of scoped.now.program.defs) (view scoped.now.program.last) typed.now }
    requires placed { ArePlaced (kinds_of (⟦<Drivers as SeenAll>⟧.states drivers.old)) sources.items }
    requires idle { All IsIdle (⟦<Drivers as SeenAll>⟧.states drivers.old) }
    requires fetch { 0 < how.settings.fetch }
    requires block { 0 < how.settings.block }
    requires unrun { IsUnrun ran.old }
    ensures does { (files : FilesState) → DoneMeaning sources.items (is_marked scoped.now) how.first
        (decls_of scoped.now.program.defs) (view scoped.now.program.last) (ending result)
        (outside_of files (⟦<Drivers as SeenAll>⟧.states drivers.old) (S.state out.old))
        (outside_of files (⟦<Drivers as SeenAll>⟧.states drivers.new) (S.state out.new)) }
    ensures plan { PlanOf (RunsPlan how sources.items (is_marked scoped.now) (decls_of scoped.now.program.defs)
        (view scoped.now.program.last) scoped.now.sources (course_of (ending result) ran.new.trace
        (⟦<Drivers as SeenAll>⟧.states drivers.old) (⟦<Drivers as SeenAll>⟧.states drivers.new) (S.state out.old) (S.state out.new)))
        (ending result) ran.new.trace.steps (plan_in ran.new.plan) }
    ensures asks { AsksOf (plan_in ran.new.plan) ran.new.trace.starts (⟦<Drivers as SeenAll>⟧.states drivers.old)
        (⟦<Drivers as SeenAll>⟧.states drivers.new) }
    ensures shows { IsShown how.settings.block (plan_in ran.new.plan) ran.new.trace }
    ensures silent { plan_in ran.new.plan ≡ None → S.state out.new ≡ S.state out.old }
{
    match translate(alloc, scoped) {
        Ok(term) => answer_translated(alloc, term, scoped, typed, sources, how, drivers, out, ran),
        Err(_) => Err(Fault::NoMemory),
    }
}

// Rewrites the term of a program, unless that is not wanted, makes its plan, and prints what that comes to over its sources.
fn answer_translated<S: Sink>(
    alloc: Global,
    term: Term,
    scoped: &Scoped,
    typed: &Typed,
    sources: Vec<Source>,
    how: How,
    drivers: &mut Drivers,
    out: &mut S,
    ran: &mut Ran,
) -> Result<(), Fault>
    requires scope { WasInScope (names_of sources.items) scoped.now }
    requires types { Infers (decls_of scoped.now.program.defs) (view scoped.now.program.last) (grounds_of sources.items) typed.now }
    requires term { term_view term ≡ (term_of (decls_of scoped.now.program.defs) (view scoped.now.program.last) scoped.now.sources) }
    requires mentioned { ReadsMentioned scoped.now (term_view term) }
    requires closed { IsClosed (term_view term) }
    requires small { IsSmall (term_view term) }
    requires placed { ArePlaced (kinds_of (⟦<Drivers as SeenAll>⟧.states drivers.old)) sources.items }
    requires idle { All IsIdle (⟦<Drivers as SeenAll>⟧.states drivers.old) }
    requires fetch { 0 < how.settings.fetch }
    requires block { 0 < how.settings.block }
    requires unrun { IsUnrun ran.old }
    ensures does { (files : FilesState) → DoneMeaning sources.items (is_marked scoped.now) how.first
        (decls_of scoped.now.program.defs) (view scoped.now.program.last) (ending result)
        (outside_of files (⟦<Drivers as SeenAll>⟧.states drivers.old) (S.state out.old))
        (outside_of files (⟦<Drivers as SeenAll>⟧.states drivers.new) (S.state out.new)) }
    ensures plan { PlanOf (RunsPlan how sources.items (is_marked scoped.now) (decls_of scoped.now.program.defs)
        (view scoped.now.program.last) scoped.now.sources (course_of (ending result) ran.new.trace
        (⟦<Drivers as SeenAll>⟧.states drivers.old) (⟦<Drivers as SeenAll>⟧.states drivers.new) (S.state out.old) (S.state out.new)))
        (ending result) ran.new.trace.steps (plan_in ran.new.plan) }
    ensures asks { AsksOf (plan_in ran.new.plan) ran.new.trace.starts (⟦<Drivers as SeenAll>⟧.states drivers.old)
        (⟦<Drivers as SeenAll>⟧.states drivers.new) }
    ensures shows { IsShown how.settings.block (plan_in ran.new.plan) ran.new.trace }
    ensures silent { plan_in ran.new.plan ≡ None → S.state out.new ≡ S.state out.old }
{
    match rewritten(alloc, term, how.settings.rewrite) {
        Ok(Normal { term, steps }) => match planned(
            alloc,
            &term,
            steps,
            &sources,
            drivers,
            how.settings,
        ) {
            Ok((plan, trace)) => {
                let mut trace = trace;
                let result = answer_over(
                    alloc, &plan, scoped, typed, sources, how, drivers, out, &mut trace,
                );
                *ran = Ran {
                    plan: Some(plan),
                    trace,
                };
                result
            }
            Err(_) => Err(Fault::NoMemory),
        },
        Err(_) => Err(Fault::NoMemory),
    }
}

// The plan of a rewritten term, and a trace in which its scans are counted.
pub fn planned(
    alloc: Global,
    term: &Term,
    steps: u32,
    sources: &[Source],
    drivers: &Drivers,
    settings: Settings,
) -> Result<(Plan, Trace), NoMemory>
    requires sense { MakesSense (ships_of (kinds_of (⟦<Drivers as SeenAll>⟧.states drivers.now)) sources.now)
        (term_view term.now) }
    requires small { nodes_of (term_view term.now) ≤ 16384 }
    requires placed { ArePlaced (kinds_of (⟦<Drivers as SeenAll>⟧.states drivers.now)) sources.now }
    ensures plan { IfOk result (λ r. IsPlanOf settings (ships_of
        (kinds_of (⟦<Drivers as SeenAll>⟧.states drivers.now)) sources.now) (term_view term.now) (plan_view r.0)) }
    ensures trace { IfOk result (λ r. IsFreshTrace (plan_view r.0) steps r.1) }
{
    let plan = plan_of(alloc, term, sources, drivers, &settings)?;
    let trace = trace_of(alloc, &plan, steps)?;
    Ok((plan, trace))
}

// Prints what a plan comes to over the sources of a program.
fn answer_over<S: Sink>(
    alloc: Global,
    plan: &Plan,
    scoped: &Scoped,
    typed: &Typed,
    sources: Vec<Source>,
    how: How,
    drivers: &mut Drivers,
    out: &mut S,
    trace: &mut Trace,
) -> Result<(), Fault>
    requires scope { WasInScope (names_of sources.items) scoped.now }
    requires types { Infers (decls_of scoped.now.program.defs) (view scoped.now.program.last) (grounds_of sources.items) typed.now }
    requires planned { (u : Tree) × IsPlanOf how.settings (ships_of
        (kinds_of (⟦<Drivers as SeenAll>⟧.states drivers.old)) sources.items) u (plan_view plan.now)
        × Preserves (term_of (decls_of scoped.now.program.defs) (view scoped.now.program.last) scoped.now.sources) u }
    requires mentioned { ReadsMentioned scoped.now
        (term_of (decls_of scoped.now.program.defs) (view scoped.now.program.last) scoped.now.sources) }
    requires traced { (steps : ℕ) × IsFreshTrace (plan_view plan.now) steps trace.old }
    requires placed { ArePlaced (kinds_of (⟦<Drivers as SeenAll>⟧.states drivers.old)) sources.items }
    requires idle { All IsIdle (⟦<Drivers as SeenAll>⟧.states drivers.old) }
    requires fetch { 0 < how.settings.fetch }
    requires block { 0 < how.settings.block }
    ensures does { (files : FilesState) → DoneMeaning sources.items (is_marked scoped.now) how.first
        (decls_of scoped.now.program.defs) (view scoped.now.program.last) (ending result)
        (outside_of files (⟦<Drivers as SeenAll>⟧.states drivers.old) (S.state out.old))
        (outside_of files (⟦<Drivers as SeenAll>⟧.states drivers.new) (S.state out.new)) }
    ensures late { IsEarly (ending result) → ⊥ }
    ensures asks { AsksCounted (plan_view plan.now) trace.new.starts (⟦<Drivers as SeenAll>⟧.states drivers.old)
        (⟦<Drivers as SeenAll>⟧.states drivers.new) }
    ensures shows { (es : List Event) × Shows how.settings.block (plan_view plan.now) es trace.new }
    ensures steps { trace.new.steps ≡ trace.old.steps }
    ensures counts { CountsPlan how sources.items (is_marked scoped.now)
        (GivesList (grounds_of sources.items) (decls_of scoped.now.program.defs) (view scoped.now.program.last))
        (course_of (ending result) trace.new (⟦<Drivers as SeenAll>⟧.states drivers.old) (⟦<Drivers as SeenAll>⟧.states drivers.new)
        (S.state out.old) (S.state out.new)) (plan_view plan.now) }
{
    match memo_for(alloc, &how.settings) {
        Ok(memo) => answer_kept(
            alloc, plan, memo, scoped, typed, sources, how, drivers, out, trace,
        ),
        Err(_) => Err(Fault::NoMemory),
    }
}

// The same, with a cache for the values of its subqueries.
fn answer_kept<S: Sink>(
    alloc: Global,
    plan: &Plan,
    memo: Option<Memo>,
    scoped: &Scoped,
    typed: &Typed,
    sources: Vec<Source>,
    how: How,
    drivers: &mut Drivers,
    out: &mut S,
    trace: &mut Trace,
) -> Result<(), Fault>
    requires kept { kept_in memo ≡ [] }
    requires room { room_in memo ≡ how.settings.cache }
    requires scope { WasInScope (names_of sources.items) scoped.now }
    requires types { Infers (decls_of scoped.now.program.defs) (view scoped.now.program.last) (grounds_of sources.items) typed.now }
    requires planned { (u : Tree) × IsPlanOf how.settings (ships_of
        (kinds_of (⟦<Drivers as SeenAll>⟧.states drivers.old)) sources.items) u (plan_view plan.now)
        × Preserves (term_of (decls_of scoped.now.program.defs) (view scoped.now.program.last) scoped.now.sources) u }
    requires mentioned { ReadsMentioned scoped.now
        (term_of (decls_of scoped.now.program.defs) (view scoped.now.program.last) scoped.now.sources) }
    requires traced { (steps : ℕ) × IsFreshTrace (plan_view plan.now) steps trace.old }
    requires placed { ArePlaced (kinds_of (⟦<Drivers as SeenAll>⟧.states drivers.old)) sources.items }
    requires idle { All IsIdle (⟦<Drivers as SeenAll>⟧.states drivers.old) }
    requires fetch { 0 < how.settings.fetch }
    requires block { 0 < how.settings.block }
    ensures does { (files : FilesState) → DoneMeaning sources.items (is_marked scoped.now) how.first
        (decls_of scoped.now.program.defs) (view scoped.now.program.last) (ending result)
        (outside_of files (⟦<Drivers as SeenAll>⟧.states drivers.old) (S.state out.old))
        (outside_of files (⟦<Drivers as SeenAll>⟧.states drivers.new) (S.state out.new)) }
    ensures late { IsEarly (ending result) → ⊥ }
    ensures asks { AsksCounted (plan_view plan.now) trace.new.starts (⟦<Drivers as SeenAll>⟧.states drivers.old)
        (⟦<Drivers as SeenAll>⟧.states drivers.new) }
    ensures shows { (es : List Event) × Shows how.settings.block (plan_view plan.now) es trace.new }
    ensures steps { trace.new.steps ≡ trace.old.steps }
    ensures counts { CountsPlan how sources.items (is_marked scoped.now)
        (GivesList (grounds_of sources.items) (decls_of scoped.now.program.defs) (view scoped.now.program.last))
        (course_of (ending result) trace.new (⟦<Drivers as SeenAll>⟧.states drivers.old) (⟦<Drivers as SeenAll>⟧.states drivers.new)
        (S.state out.old) (S.state out.new)) (plan_view plan.now) }
{
    let is_list = gives_list(typed);
    match attach_sources(alloc, sources, scoped, drivers) {
        Ok(attached) => {
            let session = Session {
                drivers: mem::replace(drivers, Vec::new(alloc)),
                sources: attached,
                settings: how.settings,
                trace: mem::replace(trace, Trace::new(alloc)),
            };
            let mut run = run_of(session, memo, plan);
            let result = answer_plan(alloc, plan, is_list, how.first, &mut run, out);
            let Run { session, .. } = run;
            let Session {
                drivers: back,
                trace: counted,
                ..
            } = session;
            *drivers = back;
            *trace = counted;
            result
        }
        Err(AttachError { source, error }) => Err(driver_fault(source, error)),
    }
}

// The term rewritten, or as it is.
pub fn rewritten(alloc: Global, term: Term, on: bool) -> Result<Normal, NoMemory>
    requires closed { IsClosed (term_view term) }
    requires small { IsSmall (term_view term) }
    ensures rewritten { IfOk result (λ r. IsRewrittenTo on (term_view term) r.steps (term_view r.term)) }
    ensures small { IfOk result (λ r. nodes_of (term_view r.term) ≤ 16384) }
{
    if on {
        rewrite(alloc, term)
    } else {
        Ok(Normal { term, steps: 0 })
    }
}

// Prints what a plan comes to.
fn answer_plan<'p, S: Sink>(
    alloc: Global,
    plan: &Plan,
    is_list: bool,
    first: Option<u32>,
    run: &mut Run<'p>,
    out: &mut S,
) -> Result<(), Fault>
    requires sense { HasWorth (⟦<Run<'p> as Seen>⟧.world run.old) (plan_view plan.now) [] }
    requires list { is_list ≡ true → HasList (⟦<Run<'p> as Seen>⟧.world run.old) (plan_view plan.now) }
    ensures prints { (files : FilesState) (ks : List DriverKind) (ss : List Source) (marks : ℕ → Bool) (t : Tree)
        → Runs ks ss marks t (plan_view plan.now) (⟦<Run<'p> as Seen>⟧.world run.old)
        → (is_list ≡ true → IsListTerm (types_of (session (⟦<Run<'p> as Seen>⟧.world run.old))) t) → AnswersTerm (is_list ≡ true)
        (IsTermOutcome is_list first (core (values_of (session (⟦<Run<'p> as Seen>⟧.world run.old))) t []))
        (HaveSources (types_of (session (⟦<Run<'p> as Seen>⟧.world run.old))) (values_of (session (⟦<Run<'p> as Seen>⟧.world run.old))))
        (ending result) (plan_over (session (⟦<Run<'p> as Seen>⟧.world run.old)) (plan_view plan.now))
        (outside_of files (⟦<Run<'p> as Seen>⟧.world run.old).drivers (S.state out.old))
        (outside_of files (⟦<Run<'p> as Seen>⟧.world run.new).drivers (S.state out.new)) }
    ensures scanned { Scanned (plan_view plan.now) (ending result) first (⟦<Run<'p> as Seen>⟧.world run.old)
        (⟦<Run<'p> as Seen>⟧.world run.new) }
    ensures spares { is_list ≡ true → SparesRows (plan_view plan.now) (ending result) first (⟦<Run<'p> as Seen>⟧.world run.old)
        (⟦<Run<'p> as Seen>⟧.world run.new) (S.state out.old) (S.state out.new) }
    ensures none { is_list ≡ true → first ≡ Some 0
        → ⟦<Run<'p> as Seen>⟧.world run.new ≡ ⟦<Run<'p> as Seen>⟧.world run.old }
{
    if is_list {
        print_list(alloc, plan, first, run, out)
    } else {
        answer_value(alloc, plan, first, run, out)
    }
}

// The fault of a source that its driver refuses.
pub fn driver_fault(source: Label, error: DriverError) -> Fault
    ensures { result ≡ fault_of source error }
{
    match error {
        DriverError::Failed => Fault::Read,
        DriverError::BadSource { place } => Fault::BadSource(source, place),
        DriverError::TooLong { .. } => Fault::FileBytes,
        DriverError::TooDeep { .. } => Fault::ItemNesting,
        DriverError::Changed { .. } => Fault::Changed(source),
        DriverError::NoMemory => Fault::NoMemory,
    }
}

// Whether each type of the result is that of a list.
fn gives_list(typed: &Typed) -> bool
    requires good { IsScheme typed.now.result }
    requires some { (t : Ground) × Instance typed.now.result t }
    ensures list { result ≡ true → IsListScheme typed.now.result }
    ensures other { result ≡ false → IsListScheme typed.now.result → ⊥ }
{
    match typed.result_kind() {
        Some(Kind::List) => true,
        Some(Kind::Set) => false,
        Some(Kind::Bag) => false,
        None => false,
    }
}

// Prints a value that is no list.
fn answer_value<'p, S: Sink>(
    alloc: Global,
    plan: &Plan,
    first: Option<u32>,
    run: &mut Run<'p>,
    out: &mut S,
) -> Result<(), Fault>
    requires { HasWorth (⟦<Run<'p> as Seen>⟧.world run.old) (plan_view plan.now) [] }
    ensures prints { (files : FilesState) (ks : List DriverKind) (ss : List Source) (marks : ℕ → Bool) (t : Tree)
        → Runs ks ss marks t (plan_view plan.now) (⟦<Run<'p> as Seen>⟧.world run.old) → AnswersTerm ⊥
        (IsValueOutcome first (core (values_of (session (⟦<Run<'p> as Seen>⟧.world run.old))) t []))
        (HaveSources (types_of (session (⟦<Run<'p> as Seen>⟧.world run.old))) (values_of (session (⟦<Run<'p> as Seen>⟧.world run.old))))
        (ending result) (plan_over (session (⟦<Run<'p> as Seen>⟧.world run.old)) (plan_view plan.now))
        (outside_of files (⟦<Run<'p> as Seen>⟧.world run.old).drivers (S.state out.old))
        (outside_of files (⟦<Run<'p> as Seen>⟧.world run.new).drivers (S.state out.new)) }
    ensures scanned { Scanned (plan_view plan.now) (ending result) first (⟦<Run<'p> as Seen>⟧.world run.old)
        (⟦<Run<'p> as Seen>⟧.world run.new) }
{
    let mut env = Vec::new(alloc);
    match value_of(alloc, plan, &mut env, run) {
        Ok(value) => print_value(&cut(value, first), out),
        Err(EvalStop::Overflow) => Err(Fault::Overflow),
        Err(EvalStop::Driver { source, error }) => Err(driver_fault(source, error)),
        Err(EvalStop::NoMemory) => Err(Fault::NoMemory),
    }
}
