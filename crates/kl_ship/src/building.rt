//! Plans of parts that may be wanting: each takes its parts with their want of memory, so that whoever makes the parts holds
//! nothing where that is told.
ghost use Rattle.std.specs.Prelude.{◌≡◌, IfOk};
ghost use Rattle.kl_core.specs.Building.{Makes, MakesOfTwo, MakesOfThree};
ghost use Rattle.kl_plan.specs.declared.plan.Plan.TheVariants as plan;

use kl_base::{Box, Label, NoMemory};
use kl_core::Term;
use kl_plan::{Plan, PlanBranches, PlanFields, Plans, Scan};
use kl_value::Kind;

/// A term, as it stands.
///
/// # Errors
/// Want of memory.
pub fn plain(term: Result<Term, NoMemory>) -> Result<Plan, NoMemory>
    ensures { Makes (λ t. plan.Plain t) term result }
{
    Ok(Plan::Plain(term?))
}

/// A scan.
///
/// # Errors
/// Want of memory.
pub fn scanning(scan: Result<Scan, NoMemory>) -> Result<Plan, NoMemory>
    ensures { Makes (λ c. plan.Scan c) scan result }
{
    Ok(Plan::Scan(scan?))
}

/// A record of these fields.
///
/// # Errors
/// Want of memory.
pub fn record(fields: Result<PlanFields, NoMemory>) -> Result<Plan, NoMemory>
    ensures { Makes (λ fs. plan.Rec fs) fields result }
{
    Ok(Plan::Rec(fields?))
}

/// The field under this label.
///
/// # Errors
/// Want of memory.
pub fn projection(label: &Label, whole: Result<Box<Plan>, NoMemory>) -> Result<Plan, NoMemory>
    ensures { Makes (λ a. plan.Proj label.now a) whole result }
{
    let whole = whole?;
    Ok(Plan::Proj(label.dup()?, whole))
}

/// A variant of this label.
///
/// # Errors
/// Want of memory.
pub fn injection(label: &Label, carried: Result<Box<Plan>, NoMemory>) -> Result<Plan, NoMemory>
    ensures { Makes (λ a. plan.Inj label.now a) carried result }
{
    let carried = carried?;
    Ok(Plan::Inj(label.dup()?, carried))
}

/// A collection of these items.
///
/// # Errors
/// Want of memory.
pub fn collection(kind: Kind, items: Result<Plans, NoMemory>) -> Result<Plan, NoMemory>
    ensures { Makes (λ ps. plan.Make kind ps) items result }
{
    Ok(Plan::Make(kind, items?))
}

/// Two collections as one.
///
/// # Errors
/// Want of memory.
pub fn union(
    first: Result<Box<Plan>, NoMemory>,
    second: Result<Box<Plan>, NoMemory>,
) -> Result<Plan, NoMemory>
    ensures { MakesOfTwo (λ a b. plan.Union a b) first second result }
{
    Ok(Plan::Union(first?, second?))
}

/// The items of a body for each item of a source.
///
/// # Errors
/// Want of memory.
pub fn extension(
    kind: Kind,
    source: Result<Box<Plan>, NoMemory>,
    body: Result<Box<Plan>, NoMemory>,
) -> Result<Plan, NoMemory>
    ensures { MakesOfTwo (λ s b. plan.Ext kind b s) source body result }
{
    let source = source?;
    Ok(Plan::Ext(kind, body?, source))
}

/// A body where position 0 stands for a bound value.
///
/// # Errors
/// Want of memory.
pub fn binding(
    bound: Result<Box<Plan>, NoMemory>,
    body: Result<Box<Plan>, NoMemory>,
) -> Result<Plan, NoMemory>
    ensures { MakesOfTwo (λ a b. plan.Let a b) bound body result }
{
    Ok(Plan::Let(bound?, body?))
}

/// One of two parts, by a condition.
///
/// # Errors
/// Want of memory.
pub fn test(
    condition: Result<Box<Plan>, NoMemory>,
    yes: Result<Box<Plan>, NoMemory>,
    no: Result<Box<Plan>, NoMemory>,
) -> Result<Plan, NoMemory>
    ensures { MakesOfThree (λ a b c. plan.If a b c) condition yes no result }
{
    Ok(Plan::If(condition?, yes?, no?))
}

/// The branch for the label of a variant, or the last part.
///
/// # Errors
/// Want of memory.
pub fn case(
    subject: Result<Box<Plan>, NoMemory>,
    branches: Result<PlanBranches, NoMemory>,
    other: Result<Option<Box<Plan>>, NoMemory>,
) -> Result<Plan, NoMemory>
    ensures { MakesOfThree (λ a bs c. plan.Case a bs c) subject branches other result }
{
    Ok(Plan::Case(subject?, branches?, other?))
}

/// A primitive, by its code, of these arguments.
///
/// # Errors
/// Want of memory.
pub fn primitive(code: u8, args: Result<Plans, NoMemory>) -> Result<Plan, NoMemory>
    ensures { Makes (λ ps. plan.Prim code ps) args result }
{
    Ok(Plan::Prim(code, args?))
}
