//! What `explain` does with a program's text: it makes the program's plan, and prints what that asks of the drivers.
ghost use Rattle.std.specs.Prelude.{◌≡◌, ◌≤◌, length};
ghost use Rattle.kl_outside.specs.Files.{FilesState};
ghost use Rattle.kl_core.specs.Trees.{view as term_view};
ghost use Rattle.kl_desugar.specs.Small.{IsSmall};
ghost use Rattle.kl_desugar.specs.Translation.{term_of};
ghost use Rattle.kl_rewrite.specs.Steps.{IsClosed};
ghost use Rattle.kl_run.specs.Planned.{ships_of};
ghost use Rattle.kl_scope.specs.Breaches.{is_marked};
ghost use Rattle.kl_plan.specs.Nodes.{view as plan_view};
ghost use Rattle.kl_sources.specs.Sources.{ArePlaced, grounds_of, kinds_of, names_of};
ghost use Rattle.kl_syntax.specs.View.{view, decls_of};
ghost use Rattle.kl_engine.specs.Answering.{DoesText, PrintsPage};
ghost use Rattle.kl_engine.specs.Explaining.{plan_lines};
ghost use Rattle.kl_engine.specs.Faults.{ending};
ghost use Rattle.kl_engine.specs.Outside.{outside_of};
ghost use Rattle.kl_engine.specs.Planned.{AsksOf, ExplainsPlan, IsUndone, IsUnrun, PlanOf, PlansAlone, PlansTerm, plan_in};
ghost use Rattle.kl_engine.specs.Reading.{WasInScope};
ghost use Rattle.kl_engine.specs.Running.{DoneWith};
ghost use Rattle.kl_engine.specs.Typing.{IsTyped};
ghost use Rattle.kl_engine.specs.Verdict.{well};
ghost use Rattle.kl_engine.specs.declared.top.Purpose.TheVariants.{Explain};

use crate::drivers::{Drivers, SeenAll};
use crate::fault::Fault;
use crate::page::print_page;
use crate::read::{infer_over, read_over};
use crate::run::{Ran, planned, rewritten};
use kl_ask::Settings;
use kl_core::Term;
use kl_desugar::translate;
use kl_infer::Typed;
use kl_outside::Sink;
use kl_rewrite::Normal;
use kl_scope::Scoped;
use kl_ship::Plan;
use kl_sources::Source;
use kl_tools::explain as explain_plan;
use std::alloc::Global;

/// Prints what the plan of the program that a text is asks of the drivers, over these sources, of which none is attached.
///
/// # Errors
/// The first that is wrong: the text is no program in scope, the term of a declaration is too large, a declaration has no
/// type. `Write`, where the sink refused the lines; want of memory.
pub fn explain<S: Sink>(
    alloc: Global,
    text: &[u8],
    sources: &[Source],
    settings: Settings,
    drivers: &Drivers,
    out: &mut S,
    ran: &mut Ran,
) -> Result<(), Fault>
    requires few { length text.now ≤ 65536 }
    requires placed { ArePlaced (kinds_of (⟦<Drivers as SeenAll>⟧.states drivers.now)) sources.now }
    requires unrun { IsUnrun ran.old }
    ensures does { (files : FilesState) → DoesText sources.now (Explain settings) text.now (ending result)
        (outside_of files (⟦<Drivers as SeenAll>⟧.states drivers.now) (S.state out.old))
        (outside_of files (⟦<Drivers as SeenAll>⟧.states drivers.now) (S.state out.new)) }
    ensures plan { PlanOf (PlansAlone (kinds_of (⟦<Drivers as SeenAll>⟧.states drivers.now)) settings sources.now text.now
        ran.new.trace.steps) (ending result) ran.new.trace.steps (plan_in ran.new.plan) }
    ensures lines { ExplainsPlan (kinds_of (⟦<Drivers as SeenAll>⟧.states drivers.now)) (plan_in ran.new.plan) (ending result)
        (S.state out.old) (S.state out.new) }
    ensures asks { AsksOf (plan_in ran.new.plan) ran.new.trace.starts (⟦<Drivers as SeenAll>⟧.states drivers.now)
        (⟦<Drivers as SeenAll>⟧.states drivers.now) }
    ensures shows { IsUndone settings.block (plan_in ran.new.plan) ran.new.trace }
{
    match read_over(alloc, text, sources) {
        Ok(scoped) => explain_program(alloc, &scoped, sources, settings, drivers, out, ran),
        Err(fault) => Err(fault),
    }
}

// Explains a program in scope.
fn explain_program<S: Sink>(
    alloc: Global,
    scoped: &Scoped,
    sources: &[Source],
    settings: Settings,
    drivers: &Drivers,
    out: &mut S,
    ran: &mut Ran,
) -> Result<(), Fault>
    requires scope { WasInScope (names_of sources.now) scoped.now }
    requires placed { ArePlaced (kinds_of (⟦<Drivers as SeenAll>⟧.states drivers.now)) sources.now }
    requires unrun { IsUnrun ran.old }
    ensures does { (files : FilesState) → DoneWith sources.now (is_marked scoped.now) (Explain settings)
        (decls_of scoped.now.program.defs) (view scoped.now.program.last) (ending result)
        (outside_of files (⟦<Drivers as SeenAll>⟧.states drivers.now) (S.state out.old))
        (outside_of files (⟦<Drivers as SeenAll>⟧.states drivers.now) (S.state out.new)) }
    ensures plan { PlanOf (PlansTerm settings (ships_of (kinds_of (⟦<Drivers as SeenAll>⟧.states drivers.now)) sources.now)
        (term_of (decls_of scoped.now.program.defs) (view scoped.now.program.last) scoped.now.sources) ran.new.trace.steps)
        (ending result) ran.new.trace.steps (plan_in ran.new.plan) }
    ensures lines { ExplainsPlan (kinds_of (⟦<Drivers as SeenAll>⟧.states drivers.now)) (plan_in ran.new.plan) (ending result)
        (S.state out.old) (S.state out.new) }
    ensures asks { AsksOf (plan_in ran.new.plan) ran.new.trace.starts (⟦<Drivers as SeenAll>⟧.states drivers.now)
        (⟦<Drivers as SeenAll>⟧.states drivers.now) }
    ensures shows { IsUndone settings.block (plan_in ran.new.plan) ran.new.trace }
{
    match infer_over(alloc, scoped, sources) {
        Ok(typed) => explain_typed(alloc, scoped, &typed, sources, settings, drivers, out, ran),
        Err(fault) => Err(fault),
    }
}

// Explains a program that has these types.
fn explain_typed<S: Sink>(
    alloc: Global,
    scoped: &Scoped,
    typed: &Typed,
    sources: &[Source],
    settings: Settings,
    drivers: &Drivers,
    out: &mut S,
    ran: &mut Ran,
) -> Result<(), Fault>
    requires scope { WasInScope (names_of sources.now) scoped.now }
    requires types { IsTyped (grounds_of sources.now) (decls_of scoped.now.program.defs) (view scoped.now.program.last) typed.now }
    requires placed { ArePlaced (kinds_of (⟦<Drivers as SeenAll>⟧.states drivers.now)) sources.now }
    requires unrun { IsUnrun ran.old }
    ensures does { (files : FilesState) → DoneWith sources.now (is_marked scoped.now) (Explain settings)
        (decls_of scoped.now.program.defs) (view scoped.now.program.last) (ending result)
        (outside_of files (⟦<Drivers as SeenAll>⟧.states drivers.now) (S.state out.old))
        (outside_of files (⟦<Drivers as SeenAll>⟧.states drivers.now) (S.state out.new)) }
    ensures plan { PlanOf (PlansTerm settings (ships_of (kinds_of (⟦<Drivers as SeenAll>⟧.states drivers.now)) sources.now)
        (term_of (decls_of scoped.now.program.defs) (view scoped.now.program.last) scoped.now.sources) ran.new.trace.steps)
        (ending result) ran.new.trace.steps (plan_in ran.new.plan) }
    ensures lines { ExplainsPlan (kinds_of (⟦<Drivers as SeenAll>⟧.states drivers.now)) (plan_in ran.new.plan) (ending result)
        (S.state out.old) (S.state out.new) }
    ensures asks { AsksOf (plan_in ran.new.plan) ran.new.trace.starts (⟦<Drivers as SeenAll>⟧.states drivers.now)
        (⟦<Drivers as SeenAll>⟧.states drivers.now) }
    ensures shows { IsUndone settings.block (plan_in ran.new.plan) ran.new.trace }
{
    match translate(alloc, scoped) {
        Ok(term) => explain_term(
            alloc, term, scoped, typed, sources, settings, drivers, out, ran,
        ),
        Err(_) => Err(Fault::NoMemory),
    }
}

// Rewrites the term of a program, unless that is not wanted, makes its plan, and prints the lines of that.
fn explain_term<S: Sink>(
    alloc: Global,
    term: Term,
    scoped: &Scoped,
    typed: &Typed,
    sources: &[Source],
    settings: Settings,
    drivers: &Drivers,
    out: &mut S,
    ran: &mut Ran,
) -> Result<(), Fault>
    requires scope { WasInScope (names_of sources.now) scoped.now }
    requires types { IsTyped (grounds_of sources.now) (decls_of scoped.now.program.defs) (view scoped.now.program.last) typed.now }
    requires term { term_view term ≡ term_of (decls_of scoped.now.program.defs) (view scoped.now.program.last) scoped.now.sources }
    requires closed { IsClosed (term_view term) }
    requires small { IsSmall (term_view term) }
    requires placed { ArePlaced (kinds_of (⟦<Drivers as SeenAll>⟧.states drivers.now)) sources.now }
    requires unrun { IsUnrun ran.old }
    ensures does { (files : FilesState) → DoneWith sources.now (is_marked scoped.now) (Explain settings)
        (decls_of scoped.now.program.defs) (view scoped.now.program.last) (ending result)
        (outside_of files (⟦<Drivers as SeenAll>⟧.states drivers.now) (S.state out.old))
        (outside_of files (⟦<Drivers as SeenAll>⟧.states drivers.now) (S.state out.new)) }
    ensures plan { PlanOf (PlansTerm settings (ships_of (kinds_of (⟦<Drivers as SeenAll>⟧.states drivers.now)) sources.now)
        (term_of (decls_of scoped.now.program.defs) (view scoped.now.program.last) scoped.now.sources) ran.new.trace.steps)
        (ending result) ran.new.trace.steps (plan_in ran.new.plan) }
    ensures lines { ExplainsPlan (kinds_of (⟦<Drivers as SeenAll>⟧.states drivers.now)) (plan_in ran.new.plan) (ending result)
        (S.state out.old) (S.state out.new) }
    ensures asks { AsksOf (plan_in ran.new.plan) ran.new.trace.starts (⟦<Drivers as SeenAll>⟧.states drivers.now)
        (⟦<Drivers as SeenAll>⟧.states drivers.now) }
    ensures shows { IsUndone settings.block (plan_in ran.new.plan) ran.new.trace }
{
    match rewritten(alloc, term, settings.rewrite) {
        Ok(Normal { term, steps }) => match planned(
            alloc, &term, steps, sources, drivers, settings,
        ) {
            Ok((plan, trace)) => {
                let result = print_plan(alloc, &plan, drivers, out);
                *ran = Ran {
                    plan: Some(plan),
                    trace,
                };
                result
            }
            Err(_) => Err(Fault::NoMemory),
        },
        Err(_) => Err(Fault::NoMemory),
    }
}

// Prints the lines of a plan, if it has any.
fn print_plan<S: Sink>(
    alloc: Global,
    plan: &Plan,
    drivers: &Drivers,
    out: &mut S,
) -> Result<(), Fault>
    ensures { PrintsPage (well (plan_lines (kinds_of (⟦<Drivers as SeenAll>⟧.states drivers.now)) (plan_view plan.now)))
        (ending result) (S.state out.old) (S.state out.new) }
{
    match explain_plan(alloc, plan, drivers) {
        Ok(text) => print_lines(text.slice(), out),
        Err(_) => Err(Fault::NoMemory),
    }
}

fn print_lines<S: Sink>(lines: &[u8], out: &mut S) -> Result<(), Fault>
    ensures { PrintsPage (well lines.now) (ending result) (S.state out.old) (S.state out.new) }
{
    if lines.is_empty() {
        Ok(())
    } else {
        print_page(lines, out)
    }
}
