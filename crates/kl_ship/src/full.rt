//! Whether a plan leaves no work that the drivers of its sources could do.
ghost use Rattle.std.specs.Prelude.{◌≡◌, ◌⊎◌, ◌≤◌, ◌&&◌, List, length, map, nat_eq, IfOk};
ghost use Rattle.std.specs.Bool.{Decides};
ghost use Rattle.std.specs.Cmp.Lexicographic.{pointwise};
ghost use Rattle.std.specs.List.{AllByRecursion, list_all};
ghost use Rattle.kl_outcome.specs.Outcome.{Name};
ghost use Rattle.kl_ship.specs.Bodies.{body_view};
ghost use Rattle.kl_ship.specs.Full.{Shows, IsUsed, IsFull, IsFullAt, FullyShipped, FullNodes, FullFields, FullKey, InnerFull};
ghost use Rattle.kl_plan.specs.Joins.{join_view, keys_view};
ghost use Rattle.kl_plan.specs.Nodes.{Scan as scan_node, view, nodes_view, fields_view};
ghost use Rattle.kl_ship.specs.Whether.{has_tests, has_loop};

use crate::bodies::{Body, column_use, is_loop_by, takes_none, whole_use};
use crate::source::ShipSource;
use kl_ask::Ask;
use kl_base::{Label, NoMemory};
use kl_joins::is_same;
use kl_plan::{Join, JoinKey, Plan, Scan};
use kl_sqltext::{SqlError, read_sql};
use kl_value::Kind;
use std::alloc::Global;

/// Whether no place of the plan has a test, a column or a loop that the driver there could take over.
///
/// # Errors
/// Want of memory: the columns that a statement shows stand in its text, which is read.
#[cycle(fully_shipped)]
pub fn fully_shipped(alloc: Global, plan: &Plan, sources: &[ShipSource]) -> Result<bool, NoMemory>
    ensures { IfOk result (λ b. Decides b (FullyShipped sources.now (view plan.now))) }
{
    match plan {
        Plan::Plain(_) | Plan::Var(_) | Plan::Scan(_) => Ok(true),
        Plan::Rec(fields) => are_full_labelled(alloc, fields.slice(), sources),
        Plan::Proj(_, a) => fully_shipped(alloc, a.get(), sources),
        Plan::Inj(_, a) => fully_shipped(alloc, a.get(), sources),
        Plan::Case(a, branches, other) => {
            if !fully_shipped(alloc, a.get(), sources)? {
                return Ok(false);
            }
            if !are_full_labelled(alloc, branches.slice(), sources)? {
                return Ok(false);
            }
            match other {
                Some(other) => fully_shipped(alloc, other.get(), sources),
                None => Ok(true),
            }
        }
        Plan::Make(_, plans) => are_full(alloc, plans.slice(), sources),
        Plan::Union(a, b) => {
            if !fully_shipped(alloc, a.get(), sources)? {
                return Ok(false);
            }
            fully_shipped(alloc, b.get(), sources)
        }
        Plan::Ext(kind, body, source) => {
            if !fully_shipped(alloc, source.get(), sources)? {
                return Ok(false);
            }
            if !fully_shipped(alloc, body.get(), sources)? {
                return Ok(false);
            }
            leaves_nothing(alloc, *kind, &Body::Own(body.get()), source.get(), sources)
        }
        Plan::If(a, b, c) => {
            if !fully_shipped(alloc, a.get(), sources)? {
                return Ok(false);
            }
            if !fully_shipped(alloc, b.get(), sources)? {
                return Ok(false);
            }
            fully_shipped(alloc, c.get(), sources)
        }
        Plan::Let(a, b) => {
            if !fully_shipped(alloc, a.get(), sources)? {
                return Ok(false);
            }
            fully_shipped(alloc, b.get(), sources)
        }
        Plan::Prim(_, plans) => are_full(alloc, plans.slice(), sources),
        Plan::Join(join) => join_shipped(alloc, join.get(), sources),
        Plan::Memo(_, _, part) => fully_shipped(alloc, part.get(), sources),
    }
}

#[cycle(fully_shipped)]
fn are_full(alloc: Global, plans: &[Plan], sources: &[ShipSource]) -> Result<bool, NoMemory>
    ensures { IfOk result (λ b. Decides b (FullNodes sources.now (nodes_view plans.now))) }
{
    for plan in plans {
        if !fully_shipped(alloc, plan, sources)? {
            return Ok(false);
        }
    }
    Ok(true)
}

#[cycle(fully_shipped)]
fn are_full_labelled(
    alloc: Global,
    parts: &[(Label, Plan)],
    sources: &[ShipSource],
) -> Result<bool, NoMemory>
    ensures { IfOk result (λ b. Decides b (FullFields sources.now (fields_view parts.now))) }
{
    for part in parts {
        if !fully_shipped(alloc, &part.1, sources)? {
            return Ok(false);
        }
    }
    Ok(true)
}

// A join counts as its loops, the key a condition in front of the inner body.
#[cycle(fully_shipped)]
fn join_shipped(alloc: Global, join: &Join, sources: &[ShipSource]) -> Result<bool, NoMemory>
    ensures { IfOk result (λ b. Decides b (FullyShipped sources.now (join_view join.now))) }
{
    if !fully_shipped(alloc, &join.outer, sources)? {
        return Ok(false);
    }
    if !are_full(alloc, join.conds.slice(), sources)? {
        return Ok(false);
    }
    if !key_shipped(alloc, &join.key, sources)? {
        return Ok(false);
    }
    if !fully_shipped(alloc, &join.body, sources)? {
        return Ok(false);
    }
    if !join_leaves_nothing(alloc, join, sources)? {
        return Ok(false);
    }
    leaves_nothing(alloc, join.kind, &Body::Outer(join), &join.outer, sources)
}

#[cycle(fully_shipped)]
fn key_shipped(
    alloc: Global,
    key: &Option<JoinKey>,
    sources: &[ShipSource],
) -> Result<bool, NoMemory>
    ensures { IfOk result (λ b. Decides b (FullKey sources.now (keys_view key.now))) }
{
    match key {
        Some(key) => fully_shipped(alloc, &key.value, sources),
        None => Ok(true),
    }
}

// Whether the inner loop of a join leaves nothing to the source of its scan.
fn join_leaves_nothing(alloc: Global, join: &Join, sources: &[ShipSource]) -> Result<bool, NoMemory>
    ensures { IfOk result (λ b. Decides b (InnerFull sources.now (join_view join.now))) }
{
    scan_leaves_nothing(alloc, join.kind, &Body::Inner(join), &join.inner, sources)
}

// Whether a loop of a kind leaves nothing to the source that it reads, if it reads one.
fn leaves_nothing(
    alloc: Global,
    kind: Kind,
    body: &Body,
    plan: &Plan,
    sources: &[ShipSource],
) -> Result<bool, NoMemory>
    ensures { IfOk result (λ b. Decides b (IsFullAt sources.now kind (body_view body.now) (view plan.now))) }
{
    match plan {
        Plan::Scan(scan) => scan_leaves_nothing(alloc, kind, body, scan, sources),
        Plan::Memo(_, _, part) => leaves_nothing(alloc, kind, body, part.get(), sources),
        _ => Ok(true),
    }
}

// Whether a loop of a kind over a scan leaves nothing to the scan's source, whichever of these it is.
fn scan_leaves_nothing(
    alloc: Global,
    kind: Kind,
    body: &Body,
    scan: &Scan,
    sources: &[ShipSource],
) -> Result<bool, NoMemory>
    ensures { IfOk result (λ b. Decides b (IsFullAt sources.now kind (body_view body.now) (scan_node scan.now))) }
{
    for source in sources {
        if !is_full(alloc, kind, body, scan, source)? {
            return Ok(false);
        }
    }
    Ok(true)
}

// Whether the loop leaves nothing to this source, if the scan is of it.
fn is_full(
    alloc: Global,
    kind: Kind,
    body: &Body,
    scan: &Scan,
    source: &ShipSource,
) -> Result<bool, NoMemory>
    ensures { IfOk result (λ b. Decides b (source.now.driver ≡ scan.now.driver → source.now.name ≡ scan.now.source
        → IsFull source.now kind (body_view body.now) scan.now)) }
{
    if !is_of(scan, source) {
        return Ok(true);
    }
    if has_tests(source, kind, body) {
        return Ok(false);
    }
    if !is_same(scan.kind, kind) {
        return Ok(true);
    }
    if has_loop(source, scan.driver, kind, body) {
        return Ok(false);
    }
    if !source.abilities.project {
        return Ok(true);
    }
    uses_shown(alloc, body, &scan.ask)
}

fn is_of(scan: &Scan, source: &ShipSource) -> bool
    ensures { result ≡ (nat_eq source.now.driver scan.now.driver && pointwise nat_eq source.now.name scan.now.source) }
{
    source.driver == scan.driver && source.name == scan.source
}

fn has_tests(source: &ShipSource, kind: Kind, body: &Body) -> bool
    ensures { result ≡ has_tests source.now kind (body_view body.now) }
{
    source.abilities.select && !takes_none(kind, body)
}

fn has_loop(source: &ShipSource, driver: u32, kind: Kind, body: &Body) -> bool
    ensures { result ≡ has_loop source.now driver kind (body_view body.now) }
{
    source.abilities.join && is_loop_by(driver, kind, body)
}

// Whether each column that an ask shows is used in the body, or there is one at most.
fn uses_shown(alloc: Global, body: &Body, ask: &Ask) -> Result<bool, NoMemory>
    ensures { IfOk result (λ b. Decides b ((ls : List Name) → Shows ask.now ls → AllByRecursion (IsUsed (body_view body.now)) ls
        ⊎ (length ls ≤ 1))) }
{
    match ask {
        Ask::Rows { keep, .. } => Ok(uses_labels(body, keep.slice())),
        Ask::Sql { text } => match read_sql(alloc, text.slice()) {
            Ok(statement) => Ok(uses_columns(body, statement.columns.slice())),
            Err(SqlError::Bad { .. }) => Ok(true),
            Err(SqlError::NoMemory) => Err(NoMemory),
        },
    }
}

fn uses_labels(body: &Body, labels: &[Label]) -> bool
    ensures { Decides result (AllByRecursion (IsUsed (body_view body.now)) labels.now ⊎ (length labels.now ≤ 1)) }
{
    if labels.len() <= 1 {
        return true;
    }
    if whole_use(body) {
        return true;
    }
    for label in labels {
        if !column_use(label, body) {
            return false;
        }
    }
    true
}

fn uses_columns(body: &Body, columns: &[(u32, Label, Label)]) -> bool
    ensures { Decides result (AllByRecursion (IsUsed (body_view body.now)) (map (λ c. c.2) columns.now) ⊎ (length columns.now ≤ 1)) }
{
    if columns.len() <= 1 {
        return true;
    }
    if whole_use(body) {
        return true;
    }
    for column in columns {
        if !column_use(&column.2, body) {
            return false;
        }
    }
    true
}
