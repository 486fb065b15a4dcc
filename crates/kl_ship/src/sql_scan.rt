//! Scans by statements of SQL.
ghost use Rattle.std.specs.Prelude.{◌≡◌, ◌<◌, ◌≤◌, ◌+◌, ◌^◌, ◌&&◌, IfOk, Some, true, length, slice_get};
ghost use Rattle.std.specs.List.{AllByRecursion};
ghost use Rattle.std.specs.Option.{option_map};
ghost use Rattle.kl_core.specs.Trees.{Source, view};
ghost use Rattle.kl_type.specs.Ground.{IsGround};
ghost use Rattle.kl_ship.specs.declared.source.ShipSource.{ShipSource as ASource};
ghost use Rattle.kl_ship.specs.Contents.{AreSources};
ghost use Rattle.kl_ship.specs.Packed.{over_more};
ghost use Rattle.kl_ship.specs.Shipping.{IsStated, LoopSense};
ghost use Rattle.kl_ship.specs.Sizes.{loops_in};
ghost use Rattle.kl_ship.specs.Sources.{fits, ground};

use crate::needs::Need;
use crate::one_row::{Shown, packed_left};
use crate::scanning::scan_by;
use crate::source::ShipSource;
use crate::statements::statement;
use kl_ask::Ask;
use kl_base::{Box, Label, NoMemory, Seq};
use kl_core::Term;
use kl_plan::Plan;
use kl_sqltext::SqlColumns;
use kl_value::Kind;
use std::alloc::Global;

// What is left of a body over the row that is shown of more tables than one.
#[tactic(auto, using(crate::proofs::SqlScans::over_none, crate::proofs::SqlScans::over_some))]
fn packed_more(
    alloc: Global,
    select: bool,
    kind: Kind,
    body: &Term,
    columns: SqlColumns,
    all: Vec<Seq<Label>>,
) -> Result<Option<Box<Term>>, NoMemory>
    requires few { length all.items < 2 ^ 32 }
    ensures { IfOk result (λ o. option_map view o ≡ over_more select kind columns all.items (view body.now)) }
{
    if all.len() <= 1 {
        return Ok(None);
    }
    let shown = Shown {
        columns: columns.into_vec(),
        all,
    };
    let packed = packed_left(alloc, select, kind, body, &shown)?;
    Ok(Some(Box::new(alloc, packed)?))
}

/// The scan by a statement for a loop over the source at a place, and the body over what the statement shows, where other loops join
/// it: else the body stays, but for its tests.
///
/// # Errors
/// Want of memory.
pub fn statement_scan(
    alloc: Global,
    sources: &[ShipSource],
    place: u32,
    kind: Kind,
    body: &Term,
    number: u32,
) -> Result<(Box<Plan>, Option<Box<Term>>), NoMemory>
    requires listed { place < length sources.now }
    requires sense { LoopSense sources.now kind (view body.now) (Source place) }
    requires sources { AreSources sources.now }
    requires proper { AllByRecursion (λ s. IsGround (ground s)) sources.now }
    requires few { 1 + loops_in (view body.now) ≤ 9000 }
    requires joins { (s : ASource) → slice_get sources.now place ≡ Some s → (fits kind s && s.abilities.join) ≡ true }
    ensures { (s : ASource) → slice_get sources.now place ≡ Some s
        → IfOk result (λ r. IsStated sources.now s kind (view body.now) number r.0 (option_map view r.1)) }
{
    let source = &sources[place as usize];
    let stated = statement(alloc, sources, source, kind, body)?;
    let packed = packed_more(
        alloc,
        stated.select,
        kind,
        stated.body,
        stated.columns,
        stated.all,
    )?;
    let ask = Ask::Sql { text: stated.text };
    let scan = scan_by(source, Need::Source(kind), number, ask)?;
    Ok((Box::new(alloc, Plan::Scan(scan))?, packed))
}
