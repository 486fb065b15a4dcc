ghost use Rattle.std.specs.Prelude.{◌≡◌, ◌≤◌, ◌∷◌, [], false, IfOk};
ghost use Rattle.std.specs.List.{AllByRecursion};
ghost use Rattle.kl_value.specs.declared.Kind.TheVariants as kind;
ghost use Rattle.kl_type.specs.Ground.{IsGround, coll, int};
ghost use Rattle.kl_core.specs.Trees.{Source, Union, view};
ghost use Rattle.kl_core.specs.Counts.{nodes_of};
ghost use Rattle.kl_ship.specs.Contents.{AreSources, MakesSense};
ghost use Rattle.kl_ship.specs.Sources.{ground};

use kl_ask::{Abilities, Settings};
use kl_base::{Box, Label};
use kl_core::Term;
use kl_ship::{Plan, ShipSource, count_scans, fully_shipped, plan_laws, ship};
use kl_type::Ty;
use kl_value::Kind;
use std::alloc::Global;
use std::test::Fail;

// A list of integers, whose driver does no more than handing rows.
fn numbers(alloc: Global) -> Result<ShipSource, Fail>
    ensures ty { IfOk result (λ s. ground s ≡ coll kind.List int) }
    ensures abilities { IfOk result (λ s. s.abilities ≡ record { select = false; project = false; join = false; unique = false }) }
{
    let item = Box::new(alloc, Ty::Int)?;
    let name = Label::new(alloc, b"n")?.ok_or("no word")?;
    Ok(ShipSource {
        ty: Ty::Coll(Kind::List, item),
        driver: 0,
        abilities: Abilities {
            select: false,
            project: false,
            join: false,
            unique: false,
        },
        name,
    })
}

// The list of the source, twice.
fn twice(alloc: Global) -> Result<Term, Fail>
    ensures { IfOk result (λ t. view t ≡ Union (Source 0) (Source 0)) }
{
    let first = Box::new(alloc, Term::Source(0))?;
    let second = Box::new(alloc, Term::Source(0))?;
    Ok(Term::Union(first, second))
}

fn is_scan(plan: &Plan, number: u32) -> bool {
    matches!(plan, Plan::Scan(scan) if scan.number == number && scan.kind == Kind::List)
}

fn reads_twice(plan: &Plan) -> bool {
    matches!(plan, Plan::Union(a, b) if is_scan(a.get(), 0) && is_scan(b.get(), 1))
}

// Whether the plan has a scan for each mention of the source, whose driver can do nothing more.
fn is_shipped(alloc: Global, term: &Term, sources: &[ShipSource]) -> Result<bool, Fail>
    requires sense { MakesSense sources.now (view term.now) }
    requires small { nodes_of (view term.now) ≤ 16384 }
    requires sources { AreSources sources.now }
    requires proper { AllByRecursion (λ s. IsGround (ground s)) sources.now }
{
    let plan = ship(alloc, term, sources, &Settings::usual())?;
    let full = fully_shipped(alloc, &plan, sources)?;
    Ok(full && reads_twice(&plan) && count_scans(&plan) == 2)
}

fn ships(alloc: Global) -> Result<bool, Fail> {
    let numbers = numbers(alloc)?;
    let sources = vec![in alloc; numbers]?;
    let term = twice(alloc)?;
    is_shipped(alloc, &term, &sources)
}

#[test]
fn a_term_is_shipped(rt: HostRuntime) -> Result<(), Fail> {
    plan_laws();
    assert!(rt; ships(rt.alloc())?);
    Ok(())
}
