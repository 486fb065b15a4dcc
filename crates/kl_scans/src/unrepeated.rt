//! Scans that repeat no row.
ghost use Rattle.std.specs.Prelude.{◌≡◌, Some, true};
ghost use Rattle.kl_type.specs.Ground.{ground_of};
ghost use Rattle.kl_ask.specs.Asks.{kind_of};
ghost use Rattle.kl_value.specs.declared.Kind.TheVariants as kind;
ghost use Rattle.kl_scans.specs.Right.{IsReadyRun};
ghost use Rattle.kl_scans.specs.Scans.{CanScan, IsWholeSet, ListsWholeSet};
ghost use Rattle.kl_scans.specs.Stage.{RepeatsNone, stage, only_selects};

use crate::drivers::abilities_at;
use crate::run::{Ran, Run};
use kl_ask::{Abilities, Attached, allows};
use kl_plan::Scan;
use kl_type::Ty;
use kl_value::Kind;

/// Whether a scan is one of whole rows of a set, all or those that pass its tests, at a driver that states that it repeats no
/// row of a set. Takes no memory.
pub fn repeats_none<'p>(run: &Run<'p>, scan: &Scan) -> bool
    requires ready { IsReadyRun (⟦<Run<'p> as Ran>⟧.world run.now) }
    requires scan { CanScan (⟦<Run<'p> as Ran>⟧.world run.now) scan.now }
    ensures yes { result ≡ true → RepeatsNone (stage (⟦<Run<'p> as Ran>⟧.world run.now)) scan.now }
    ensures no { RepeatsNone (stage (⟦<Run<'p> as Ran>⟧.world run.now)) scan.now → result ≡ true }
{
    abilities_at(&run.session.drivers, scan).unique
        && lists_whole_set(run.session.sources.slice(), scan)
}

// Whether one of these is the source of the scan, a set, of which whole rows are asked.
fn lists_whole_set(sources: &[Attached], scan: &Scan) -> bool
    ensures yes { result ≡ true → ListsWholeSet sources.now scan.now }
    ensures no { ListsWholeSet sources.now scan.now → result ≡ true }
{
    'sources: for source in sources {
        if is_whole_set(source, scan) {
            return true;
        }
    }
    false
}

fn is_whole_set(source: &Attached, scan: &Scan) -> bool
    ensures yes { result ≡ true → IsWholeSet source.now scan.now }
    ensures no { IsWholeSet source.now scan.now → result ≡ true }
{
    is_at(source, scan.driver)
        && source.source == scan.source
        && is_set(&source.ty)
        && allows(&only_selects(), &source.ty, &scan.ask)
}

fn is_at(source: &Attached, driver: u32) -> bool
    ensures yes { result ≡ true → source.now.driver ≡ Some driver }
    ensures no { source.now.driver ≡ Some driver → result ≡ true }
{
    match source.driver {
        Some(at) => at == driver,
        None => false,
    }
}

#[tactic(auto, using(kl_plan::proofs::Grounds::kind_rules))]
fn is_set(ty: &Ty) -> bool
    ensures yes { result ≡ true → kind_of (ground_of ty.now) ≡ kind.Set }
    ensures no { kind_of (ground_of ty.now) ≡ kind.Set → result ≡ true }
{
    match ty {
        Ty::Coll(kind, _) => match kind {
            Kind::Set => true,
            Kind::Bag | Kind::List => false,
        },
        Ty::Bool | Ty::Int | Ty::Str | Ty::Rec(_) | Ty::Var(_) => false,
    }
}

// What is allowed of a driver that can test rows and do nothing more is whole rows.
fn only_selects() -> Abilities
    ensures { result ≡ only_selects }
{
    Abilities {
        select: true,
        project: false,
        join: false,
        unique: false,
    }
}
