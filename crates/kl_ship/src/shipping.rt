//! Plans of terms.
ghost use Rattle.std.specs.Prelude.{◌≡◌, ◌≤◌, ◌<◌, ◌+◌, ◌^◌, ◌&&◌, Bool, IfOk, Some, true, false, length, slice_get};
ghost use Rattle.std.specs.List.{AllByRecursion};
ghost use Rattle.std.specs.Option.{option_map};
ghost use Rattle.kl_core.specs.Trees.{Source, trees_view, parts_view, view as term_view};
ghost use Rattle.kl_core.specs.Counts.{nodes_of};
ghost use Rattle.kl_core.specs.Building.{Makes};
ghost use Rattle.kl_type.specs.Ground.{IsGround};
ghost use Rattle.kl_ship.specs.declared.source.ShipSource.{ShipSource as ASource};
ghost use Rattle.kl_ship.specs.declared.needs.Need.TheVariants as need;
ghost use Rattle.kl_plan.specs.declared.plan.Plan.TheVariants as plan;
ghost use Rattle.kl_ship.specs.Contents.{AreSources, MakesSense};
ghost use Rattle.kl_ship.specs.Delegation.{body_left, left};
ghost use Rattle.kl_ship.specs.Full.{FullyShipped};
ghost use Rattle.kl_plan.specs.Nodes.{view, nodes_view, fields_view};
ghost use Rattle.kl_plan.specs.Numbers.{NumbersDiffer, scans_in};
ghost use Rattle.kl_joins.specs.Bare.{Bare};
ghost use Rattle.kl_joins.specs.Finished.{AreKept, Finishes};
ghost use Rattle.kl_joins.specs.Keeping.{HasNoMemo};
ghost use Rattle.kl_ship.specs.Shipping.{IsSound, TreesSound, PartsSound, ArmsSound, LoopSense, arms_view, other_view};
ghost use Rattle.kl_plan.specs.Joins.{other_node};
ghost use Rattle.kl_ship.specs.Shipping.{IsBehind, behind_statement};
ghost use Rattle.kl_ship.specs.Shipping.{UnionBecomes, LoopBecomes, LetBecomes, IfBecomes, CaseBecomes};
ghost use Rattle.kl_ship.specs.Ships.{Becomes, TreesBecome, PartsBecome, ArmsBecome};
ghost use Rattle.kl_ship.specs.Ships.{MayStay, passed_on, is_single};
ghost use Rattle.kl_plan.specs.Typing.{NoSource};
ghost use Rattle.kl_ship.specs.Sizes.{sources_in, sources_trees, sources_parts, sources_arms};
ghost use Rattle.kl_ship.specs.Sizes.{loops_in, loops_trees, loops_parts, loops_arms};
ghost use Rattle.kl_ship.specs.Sources.{fits, ground};
ghost use Rattle.kl_ship.specs.Sense.{KeepsTypes};
ghost use Rattle.kl_ship.specs.Whole.{Ships};

use crate::building::{
    binding, case, collection, extension, injection, plain, primitive, projection, record,
    scanning, test, union,
};
use crate::conditions::{is_front, is_test};
use crate::needs::Need;
use crate::reads::reads;
use crate::scanning::{fits_loop, rows_scan, whole_scan};
use crate::source::ShipSource;
use crate::sql_scan::statement_scan;
use kl_ask::Settings;
use kl_base::{Box, Label, NoMemory, Seq};
use kl_core::{Term, TermBranches};
use kl_joins::{join_loops, keep};
use kl_plan::{Plan, PlanFields, Plans, Scan};
use kl_value::Kind;
use std::alloc::Global;

/// The plan of a term that makes sense over these sources. With `settings.delegate` as much work as can be is left to the drivers
/// of the sources: tests, columns and joins; without it every scan is for all rows of a source with all columns. Then loops over
/// scans inside other loops become joins, in the way of `settings.join` where it serves; where `settings.cache` has room for any,
/// values of parts that may be asked for again are kept; and scans, joins and memos are numbered.
///
/// Each source has a proper type that a driver with its abilities may suit, the sources of one driver have the same abilities, and
/// the term has no free position.
///
/// # Errors
/// Want of memory.
pub fn ship(
    alloc: Global,
    term: &Term,
    sources: &[ShipSource],
    settings: &Settings,
) -> Result<Plan, NoMemory>
    requires sense { MakesSense sources.now (term_view term.now) }
    requires small { nodes_of (term_view term.now) ≤ 16384 }
    requires sources { AreSources sources.now }
    requires proper { AllByRecursion (λ s. IsGround (ground s)) sources.now }
    ensures ships { IfOk result (λ p. Ships settings.now sources.now (term_view term.now) (view p)) }
    ensures sense { IfOk result (λ p. KeepsTypes sources.now (term_view term.now) (view p)) }
    ensures numbers { IfOk result (λ p. NumbersDiffer (view p)) }
    ensures full { settings.now.delegate ≡ true → IfOk result (λ p. FullyShipped sources.now (view p)) }
{
    let mut next = 0;
    let sent = part(
        alloc,
        term,
        Need::Items,
        settings.delegate,
        sources,
        &mut next,
    )?;
    finished(alloc, sent, settings)
}

// Joins and memos are made, and all is numbered.
fn finished(alloc: Global, sent: Plan, settings: &Settings) -> Result<Plan, NoMemory>
    requires bare { Bare (view sent) }
    requires few { length (scans_in (view sent)) ≤ 16384 }
    ensures { IfOk result (λ p. Finishes settings.now.join settings.now.cache (view sent) (view p)) }
{
    let mut plan = sent;
    join_loops(alloc, &mut plan, settings.join)?;
    keep_values(alloc, &mut plan, settings.cache)?;
    kl_joins::number(&mut plan);
    Ok(plan)
}

fn keep_values(alloc: Global, plan: &mut Plan, cache: u32) -> Result<(), NoMemory>
    requires bare { HasNoMemo (view plan.old) }
    ensures { IfOk result (λ _. AreKept cache (view plan.old) (view plan.new)) }
{
    if cache > 0 {
        return keep(alloc, plan);
    }
    Ok(())
}

// Whether the value of a term is made whole in any case.
fn is_one(term: &Term) -> bool
    ensures { result ≡ is_single (term_view term.now) }
{
    match term {
        Term::Var(_) | Term::Const(_) | Term::Rec(_) => true,
        Term::Proj(_, _) | Term::Inj(_, _) | Term::Prim(_, _) => true,
        Term::Source(_) | Term::Case(_, _, _) | Term::Make(_, _) | Term::Union(_, _) => false,
        Term::Ext(_, _, _) | Term::If(_, _, _) | Term::Let(_, _) => false,
    }
}

fn may_stay(term: &Term, need: Need) -> bool
    ensures { result ≡ true → MayStay need (term_view term.now) }
{
    match need {
        Need::Whole => true,
        Need::Items | Need::Source(_) => is_one(term),
    }
}

// Whether a part is run as it stands: its value is needed whole, or made whole, and it reads no source.
fn stays(term: &Term, need: Need) -> bool
    ensures { result ≡ true → MayStay need (term_view term.now) × NoSource (term_view term.now) }
{
    if may_stay(term, need) {
        !reads(term)
    } else {
        false
    }
}

fn passes_on(need: Need) -> Need
    ensures { result ≡ passed_on need }
{
    match need {
        Need::Whole => Need::Whole,
        Need::Items | Need::Source(_) => Need::Items,
    }
}

/// The plan of a part. Its scans are numbered from `number` on, which becomes the number after them.
///
/// # Errors
/// Want of memory.
#[cycle(part)]
pub fn part(
    alloc: Global,
    term: &Term,
    need: Need,
    delegate: bool,
    sources: &[ShipSource],
    number: &mut u32,
) -> Result<Plan, NoMemory>
    requires sound { IsSound sources.now (term_view term.now) }
    requires sources { AreSources sources.now }
    requires proper { AllByRecursion (λ s. IsGround (ground s)) sources.now }
    requires room { number.old + sources_in (term_view term.now) < 2 ^ 32 }
    requires few { loops_in (term_view term.now) ≤ 9000 }
    ensures becomes { IfOk result (λ p. Becomes delegate sources.now need (term_view term.now) number.old (view p) number.new) }
    ensures counts { number.new ≤ number.old + sources_in (term_view term.now) }
{
    if stays(term, need) {
        return plain(term.dup(alloc));
    }
    match term {
        Term::Var(x) => Ok(Plan::Var(*x)),
        Term::Const(_) => plain(term.dup(alloc)),
        Term::Source(place) => reading(alloc, *place, need, sources, number),
        Term::Rec(fields) => record(labelled(
            alloc,
            fields.slice(),
            Need::Whole,
            delegate,
            sources,
            number,
        )),
        Term::Proj(label, a) => projection(
            label,
            boxed(alloc, a, Need::Whole, delegate, sources, number),
        ),
        Term::Inj(label, a) => injection(
            label,
            boxed(alloc, a, Need::Whole, delegate, sources, number),
        ),
        Term::Case(a, branches, other) => cased(
            alloc,
            a,
            branches,
            other,
            passes_on(need),
            delegate,
            sources,
            number,
        ),
        Term::Make(kind, terms) => collection(
            *kind,
            all(alloc, terms.slice(), delegate, sources, number),
        ),
        Term::Union(a, b) => united(alloc, a, b, passes_on(need), delegate, sources, number),
        Term::Ext(kind, body, over) => looped(alloc, *kind, body, over, delegate, sources, number),
        Term::If(a, b, c) => tested(alloc, a, b, c, passes_on(need), delegate, sources, number),
        Term::Let(a, b) => bound(alloc, a, b, passes_on(need), delegate, sources, number),
        Term::Prim(code, terms) => primitive(
            *code,
            all(alloc, terms.slice(), delegate, sources, number),
        ),
    }
}

fn next(number: &mut u32) -> u32
    requires { number.old + 1 < 2 ^ 32 }
    ensures before { result ≡ number.old }
    ensures after { number.new ≡ number.old + 1 }
{
    let before = *number;
    *number = before + 1;
    before
}

fn reading(
    alloc: Global,
    place: u32,
    need: Need,
    sources: &[ShipSource],
    number: &mut u32,
) -> Result<Plan, NoMemory>
    requires listed { place < length sources.now }
    requires room { number.old + 1 < 2 ^ 32 }
    ensures becomes { (on : Bool) → IfOk result (λ p. Becomes on sources.now need (Source place) number.old (view p) number.new) }
    ensures counts { number.new ≤ number.old + 1 }
{
    let here = next(number);
    scanning(whole_scan(alloc, &sources[place as usize], need, here))
}

#[cycle(part)]
fn boxed(
    alloc: Global,
    term: &Box<Term>,
    need: Need,
    delegate: bool,
    sources: &[ShipSource],
    number: &mut u32,
) -> Result<Box<Plan>, NoMemory>
    requires sound { IsSound sources.now (term_view term.now) }
    requires sources { AreSources sources.now }
    requires proper { AllByRecursion (λ s. IsGround (ground s)) sources.now }
    requires room { number.old + sources_in (term_view term.now) < 2 ^ 32 }
    requires few { loops_in (term_view term.now) ≤ 9000 }
    ensures becomes { IfOk result (λ p. Becomes delegate sources.now need (term_view term.now) number.old (view p) number.new) }
    ensures counts { number.new ≤ number.old + sources_in (term_view term.now) }
{
    Box::new(
        alloc,
        part(alloc, term.get(), need, delegate, sources, number)?,
    )
}

#[cycle(part)]
fn united(
    alloc: Global,
    a: &Box<Term>,
    b: &Box<Term>,
    need: Need,
    delegate: bool,
    sources: &[ShipSource],
    number: &mut u32,
) -> Result<Plan, NoMemory>
    requires first { IsSound sources.now (term_view a.now) }
    requires second { IsSound sources.now (term_view b.now) }
    requires sources { AreSources sources.now }
    requires proper { AllByRecursion (λ s. IsGround (ground s)) sources.now }
    requires room { number.old + (sources_in (term_view a.now) + sources_in (term_view b.now)) < 2 ^ 32 }
    requires few { (loops_in (term_view a.now) + loops_in (term_view b.now)) ≤ 9000 }
    ensures becomes { IfOk result (λ p. UnionBecomes delegate sources.now need (term_view a.now) (term_view b.now) number.old
        (view p) number.new) }
    ensures counts { number.new ≤ number.old + (sources_in (term_view a.now) + sources_in (term_view b.now)) }
{
    let first = boxed(alloc, a, need, delegate, sources, number);
    let second = boxed(alloc, b, need, delegate, sources, number);
    union(first, second)
}

#[cycle(part)]
fn looped(
    alloc: Global,
    kind: Kind,
    body: &Box<Term>,
    over: &Box<Term>,
    delegate: bool,
    sources: &[ShipSource],
    number: &mut u32,
) -> Result<Plan, NoMemory>
    requires body { IsSound sources.now (term_view body.now) }
    requires over { IsSound sources.now (term_view over.now) }
    requires sense { LoopSense sources.now kind (term_view body.now) (term_view over.now) }
    requires sources { AreSources sources.now }
    requires proper { AllByRecursion (λ s. IsGround (ground s)) sources.now }
    requires room { number.old + (sources_in (term_view body.now) + sources_in (term_view over.now)) < 2 ^ 32 }
    requires few { 1 + (loops_in (term_view body.now) + loops_in (term_view over.now)) ≤ 9000 }
    ensures becomes { IfOk result (λ p. LoopBecomes delegate sources.now kind (term_view body.now) (term_view over.now) number.old
        (view p) number.new) }
    ensures counts { number.new ≤ number.old + (sources_in (term_view body.now) + sources_in (term_view over.now)) }
{
    if delegate {
        if let Term::Source(place) = over.get() {
            return generator(alloc, kind, body, *place, sources, number);
        }
    }
    let source = boxed(alloc, over, Need::Source(kind), delegate, sources, number);
    let inside = boxed(alloc, body, Need::Items, delegate, sources, number);
    extension(kind, source, inside)
}

#[cycle(part)]
fn bound(
    alloc: Global,
    a: &Box<Term>,
    b: &Box<Term>,
    need: Need,
    delegate: bool,
    sources: &[ShipSource],
    number: &mut u32,
) -> Result<Plan, NoMemory>
    requires first { IsSound sources.now (term_view a.now) }
    requires second { IsSound sources.now (term_view b.now) }
    requires sources { AreSources sources.now }
    requires proper { AllByRecursion (λ s. IsGround (ground s)) sources.now }
    requires room { number.old + (sources_in (term_view a.now) + sources_in (term_view b.now)) < 2 ^ 32 }
    requires few { (loops_in (term_view a.now) + loops_in (term_view b.now)) ≤ 9000 }
    ensures becomes { IfOk result (λ p. LetBecomes delegate sources.now need (term_view a.now) (term_view b.now) number.old
        (view p) number.new) }
    ensures counts { number.new ≤ number.old + (sources_in (term_view a.now) + sources_in (term_view b.now)) }
{
    let first = boxed(alloc, a, Need::Whole, delegate, sources, number);
    let second = boxed(alloc, b, need, delegate, sources, number);
    binding(first, second)
}

#[cycle(part)]
fn tested(
    alloc: Global,
    a: &Box<Term>,
    b: &Box<Term>,
    c: &Box<Term>,
    need: Need,
    delegate: bool,
    sources: &[ShipSource],
    number: &mut u32,
) -> Result<Plan, NoMemory>
    requires condition { IsSound sources.now (term_view a.now) }
    requires yes { IsSound sources.now (term_view b.now) }
    requires no { IsSound sources.now (term_view c.now) }
    requires sources { AreSources sources.now }
    requires proper { AllByRecursion (λ s. IsGround (ground s)) sources.now }
    requires room { number.old + (sources_in (term_view a.now) + (sources_in (term_view b.now) + sources_in (term_view c.now))) < 2 ^ 32 }
    requires few { (loops_in (term_view a.now) + (loops_in (term_view b.now) + loops_in (term_view c.now))) ≤ 9000 }
    ensures becomes { IfOk result (λ p. IfBecomes delegate sources.now need (term_view a.now) (term_view b.now) (term_view c.now) number.old
        (view p) number.new) }
    ensures counts { number.new ≤ number.old
        + (sources_in (term_view a.now) + (sources_in (term_view b.now) + sources_in (term_view c.now))) }
{
    let condition = boxed(alloc, a, Need::Whole, delegate, sources, number);
    let yes = boxed(alloc, b, need, delegate, sources, number);
    let no = boxed(alloc, c, need, delegate, sources, number);
    test(condition, yes, no)
}

#[cycle(part)]
fn cased(
    alloc: Global,
    a: &Box<Term>,
    branches: &TermBranches,
    other: &Option<Box<Term>>,
    need: Need,
    delegate: bool,
    sources: &[ShipSource],
    number: &mut u32,
) -> Result<Plan, NoMemory>
    requires subject { IsSound sources.now (term_view a.now) }
    requires branches { PartsSound sources.now (parts_view branches.now) }
    requires other { ArmsSound sources.now (other_view other.now) }
    requires sources { AreSources sources.now }
    requires proper { AllByRecursion (λ s. IsGround (ground s)) sources.now }
    requires room { number.old
        + (sources_in (term_view a.now) + (sources_parts (parts_view branches.now) + sources_arms (other_view other.now))) < 2 ^ 32 }
    requires few { (loops_in (term_view a.now) + (loops_parts (parts_view branches.now) + loops_arms (other_view other.now))) ≤ 9000 }
    ensures becomes { IfOk result (λ p. CaseBecomes delegate sources.now need (term_view a.now) (arms_view branches.now other.now)
        number.old (view p) number.new) }
    ensures counts { number.new ≤ number.old
        + (sources_in (term_view a.now) + (sources_parts (parts_view branches.now) + sources_arms (other_view other.now))) }
{
    let subject = boxed(alloc, a, Need::Whole, delegate, sources, number);
    let made = labelled(alloc, branches.slice(), need, delegate, sources, number);
    let last = otherwise(alloc, other, need, delegate, sources, number);
    case(subject, made, last)
}

#[cycle(part)]
fn otherwise(
    alloc: Global,
    other: &Option<Box<Term>>,
    need: Need,
    delegate: bool,
    sources: &[ShipSource],
    number: &mut u32,
) -> Result<Option<Box<Plan>>, NoMemory>
    requires sound { ArmsSound sources.now (other_view other.now) }
    requires sources { AreSources sources.now }
    requires proper { AllByRecursion (λ s. IsGround (ground s)) sources.now }
    requires room { number.old + sources_arms (other_view other.now) < 2 ^ 32 }
    requires few { loops_arms (other_view other.now) ≤ 9000 }
    ensures becomes { IfOk result (λ o. ArmsBecome delegate sources.now need (other_view other.now) number.old (other_node o) number.new) }
    ensures counts { number.new ≤ number.old + sources_arms (other_view other.now) }
{
    match other {
        Some(other) => Ok(Some(boxed(alloc, other, need, delegate, sources, number)?)),
        None => Ok(None),
    }
}

#[cycle(part)]
fn all(
    alloc: Global,
    terms: &[Term],
    delegate: bool,
    sources: &[ShipSource],
    number: &mut u32,
) -> Result<Plans, NoMemory>
    requires sound { TreesSound sources.now (trees_view terms.now) }
    requires sources { AreSources sources.now }
    requires proper { AllByRecursion (λ s. IsGround (ground s)) sources.now }
    requires room { number.old + sources_trees (trees_view terms.now) < 2 ^ 32 }
    requires few { loops_trees (trees_view terms.now) ≤ 9000 }
    ensures becomes { IfOk result (λ ps. TreesBecome delegate sources.now (trees_view terms.now) number.old (nodes_view ps) number.new) }
    ensures counts { number.new ≤ number.old + sources_trees (trees_view terms.now) }
{
    let mut made = Vec::with_capacity(alloc, terms.len())?;
    for term in terms {
        made.push(part(alloc, term, Need::Whole, delegate, sources, number)?)?;
    }
    Ok(Seq::of(made))
}

#[cycle(part)]
fn labelled(
    alloc: Global,
    parts: &[(Label, Term)],
    need: Need,
    delegate: bool,
    sources: &[ShipSource],
    number: &mut u32,
) -> Result<PlanFields, NoMemory>
    requires sound { PartsSound sources.now (parts_view parts.now) }
    requires sources { AreSources sources.now }
    requires proper { AllByRecursion (λ s. IsGround (ground s)) sources.now }
    requires room { number.old + sources_parts (parts_view parts.now) < 2 ^ 32 }
    requires few { loops_parts (parts_view parts.now) ≤ 9000 }
    ensures becomes { IfOk result (λ ps. PartsBecome delegate sources.now need (parts_view parts.now)
        number.old (fields_view ps) number.new) }
    ensures counts { number.new ≤ number.old + sources_parts (parts_view parts.now) }
{
    let mut made = Vec::with_capacity(alloc, parts.len())?;
    for item in parts {
        let label = item.0.dup()?;
        made.push((
            label,
            part(alloc, &item.1, need, delegate, sources, number)?,
        ))?;
    }
    Ok(Seq::of(made))
}

// A loop over a source whose driver is left work of its body.
#[cycle(part)]
fn generator(
    alloc: Global,
    kind: Kind,
    body: &Box<Term>,
    place: u32,
    sources: &[ShipSource],
    number: &mut u32,
) -> Result<Plan, NoMemory>
    requires body { IsSound sources.now (term_view body.now) }
    requires listed { place < length sources.now }
    requires sense { LoopSense sources.now kind (term_view body.now) (Source place) }
    requires sources { AreSources sources.now }
    requires proper { AllByRecursion (λ s. IsGround (ground s)) sources.now }
    requires room { number.old + (sources_in (term_view body.now) + 1) < 2 ^ 32 }
    requires few { 1 + loops_in (term_view body.now) ≤ 9000 }
    ensures becomes { IfOk result (λ p. LoopBecomes true sources.now kind (term_view body.now) (Source place)
        number.old (view p) number.new) }
    ensures counts { number.new ≤ number.old + (sources_in (term_view body.now) + 1) }
{
    let source = &sources[place as usize];
    if source.abilities.join && fits_loop(kind, source) {
        stated(alloc, kind, body, place, sources, number)
    } else {
        asked(alloc, kind, body, place, sources, number)
    }
}

// The driver is asked for rows: it makes the tests of the front that it can, and shows the columns in use.
#[cycle(part)]
fn asked(
    alloc: Global,
    kind: Kind,
    body: &Box<Term>,
    place: u32,
    sources: &[ShipSource],
    number: &mut u32,
) -> Result<Plan, NoMemory>
    requires body { IsSound sources.now (term_view body.now) }
    requires listed { place < length sources.now }
    requires sense { LoopSense sources.now kind (term_view body.now) (Source place) }
    requires sources { AreSources sources.now }
    requires proper { AllByRecursion (λ s. IsGround (ground s)) sources.now }
    requires room { number.old + (sources_in (term_view body.now) + 1) < 2 ^ 32 }
    requires few { 1 + loops_in (term_view body.now) ≤ 9000 }
    requires rows { (s : ASource) → slice_get sources.now place ≡ Some s → (fits kind s && s.abilities.join) ≡ false }
    ensures becomes { IfOk result (λ p. LoopBecomes true sources.now kind (term_view body.now) (Source place)
        number.old (view p) number.new) }
    ensures counts { number.new ≤ number.old + (sources_in (term_view body.now) + 1) }
{
    let here = next(number);
    let source = &sources[place as usize];
    let scan = boxed_scan(alloc, rows_scan(alloc, source, kind, body.get(), here));
    let inside = drawn(alloc, source.abilities.select, kind, body, sources, number);
    extension(kind, scan, inside)
}

// The driver is asked by a statement, which joins the loops inside that it can.
#[cycle(part)]
fn stated(
    alloc: Global,
    kind: Kind,
    body: &Box<Term>,
    place: u32,
    sources: &[ShipSource],
    number: &mut u32,
) -> Result<Plan, NoMemory>
    requires body { IsSound sources.now (term_view body.now) }
    requires listed { place < length sources.now }
    requires sense { LoopSense sources.now kind (term_view body.now) (Source place) }
    requires sources { AreSources sources.now }
    requires proper { AllByRecursion (λ s. IsGround (ground s)) sources.now }
    requires room { number.old + (sources_in (term_view body.now) + 1) < 2 ^ 32 }
    requires few { 1 + loops_in (term_view body.now) ≤ 9000 }
    requires joins { (s : ASource) → slice_get sources.now place ≡ Some s → (fits kind s && s.abilities.join) ≡ true }
    ensures becomes { IfOk result (λ p. LoopBecomes true sources.now kind (term_view body.now) (Source place)
        number.old (view p) number.new) }
    ensures counts { number.new ≤ number.old + (sources_in (term_view body.now) + 1) }
{
    let here = next(number);
    let (scan, packed) = statement_scan(alloc, sources, place, kind, body.get(), here)?;
    let inside = behind(alloc, kind, body, place, &packed, sources, number);
    extension(kind, Ok(scan), inside)
}

// The body over what a statement shows.
#[cycle(part)]
fn behind(
    alloc: Global,
    kind: Kind,
    body: &Box<Term>,
    place: u32,
    packed: &Option<Box<Term>>,
    sources: &[ShipSource],
    number: &mut u32,
) -> Result<Box<Plan>, NoMemory>
    requires body { IsSound sources.now (term_view body.now) }
    requires listed { place < length sources.now }
    requires sense { LoopSense sources.now kind (term_view body.now) (Source place) }
    requires sources { AreSources sources.now }
    requires proper { AllByRecursion (λ s. IsGround (ground s)) sources.now }
    requires room { number.old + sources_in (term_view body.now) < 2 ^ 32 }
    requires few { 1 + loops_in (term_view body.now) ≤ 9000 }
    requires joins { (s : ASource) → slice_get sources.now place ≡ Some s → (fits kind s && s.abilities.join) ≡ true }
    requires stated { (s : ASource) → slice_get sources.now place ≡ Some s
        → IsBehind sources.now s kind (term_view body.now) (option_map term_view packed.now) }
    ensures becomes { (s : ASource) → slice_get sources.now place ≡ Some s
        → IfOk result (λ p. Becomes true sources.now need.Items
        (behind_statement s kind (term_view body.now) (option_map term_view packed.now)) number.old (view p) number.new) }
    ensures counts { number.new ≤ number.old + sources_in (term_view body.now) }
{
    match packed {
        Some(packed) => boxed(alloc, packed, Need::Items, true, sources, number),
        None => {
            let select = sources[place as usize].abilities.select;
            drawn(alloc, select, kind, body, sources, number)
        }
    }
}

fn boxed_scan(alloc: Global, scan: Result<Scan, NoMemory>) -> Result<Box<Plan>, NoMemory>
    ensures { Makes (λ c. plan.Scan c) scan result }
{
    Box::new(alloc, Plan::Scan(scan?))
}

// What is left of a body where the driver makes the tests of its front.
#[cycle(part)]
fn drawn(
    alloc: Global,
    select: bool,
    kind: Kind,
    body: &Box<Term>,
    sources: &[ShipSource],
    number: &mut u32,
) -> Result<Box<Plan>, NoMemory>
    requires sound { IsSound sources.now (term_view body.now) }
    requires sources { AreSources sources.now }
    requires proper { AllByRecursion (λ s. IsGround (ground s)) sources.now }
    requires room { number.old + sources_in (term_view body.now) < 2 ^ 32 }
    requires few { loops_in (term_view body.now) ≤ 9000 }
    ensures becomes { IfOk result (λ p. Becomes true sources.now need.Items (body_left select kind 1 (term_view body.now)) number.old
        (view p) number.new) }
    ensures counts { number.new ≤ number.old + sources_in (term_view body.now) }
{
    if select {
        if let Term::If(condition, yes, no) = body.get() {
            if is_front(kind, condition.get(), no.get()) {
                if is_test(1, condition.get()) {
                    return drawn(alloc, select, kind, yes, sources, number);
                }
                return Box::new(
                    alloc,
                    chosen(alloc, kind, condition, yes, no, sources, number)?,
                );
            }
        }
    }
    boxed(alloc, body, Need::Items, true, sources, number)
}

// A condition of a front that is no test of the row alone.
#[cycle(part)]
fn chosen(
    alloc: Global,
    kind: Kind,
    condition: &Box<Term>,
    yes: &Box<Term>,
    no: &Box<Term>,
    sources: &[ShipSource],
    number: &mut u32,
) -> Result<Plan, NoMemory>
    requires condition { IsSound sources.now (term_view condition.now) }
    requires yes { IsSound sources.now (term_view yes.now) }
    requires no { IsSound sources.now (term_view no.now) }
    requires sources { AreSources sources.now }
    requires proper { AllByRecursion (λ s. IsGround (ground s)) sources.now }
    requires room { number.old
        + (sources_in (term_view condition.now) + (sources_in (term_view yes.now) + sources_in (term_view no.now))) < 2 ^ 32 }
    requires few { (loops_in (term_view condition.now) + (loops_in (term_view yes.now) + loops_in (term_view no.now))) ≤ 9000 }
    ensures becomes { IfOk result (λ p. IfBecomes true sources.now need.Items (term_view condition.now) (left kind 1 (term_view yes.now))
        (term_view no.now) number.old (view p) number.new) }
    ensures counts { number.new ≤ number.old
        + (sources_in (term_view condition.now) + (sources_in (term_view yes.now) + sources_in (term_view no.now))) }
{
    let made = boxed(alloc, condition, Need::Whole, true, sources, number);
    let drawn = drawn(alloc, true, kind, yes, sources, number);
    let other = boxed(alloc, no, Need::Items, true, sources, number);
    test(made, drawn, other)
}
