ghost use Rattle.std.specs.Prelude.{◌≡◌, ◌<◌, [], IfOk, IfSome};
ghost use Rattle.kl_value.specs.declared.Kind.TheVariants as kind;
ghost use Rattle.kl_type.specs.Ground.{coll, int, ground_of};
ghost use Rattle.kl_ask.specs.Settings.{usual_settings};
ghost use Rattle.kl_ask.specs.World.{IsReady};
ghost use Rattle.kl_ask.specs.declared.ask.Ask.TheVariants as asks;
ghost use Rattle.kl_outside.specs.Files.{NoneOpen};
ghost use Rattle.kl_outside.specs.Memory.{files_state};
ghost use Rattle.kl_plan.specs.Nodes.{Node, view};
ghost use Rattle.kl_plan.specs.Parts.{memos_of};
ghost use Rattle.kl_run.specs.Running.{fresh_run};
ghost use Rattle.kl_scans.specs.Right.{IsReadyRun};
ghost use Rattle.kl_scans.specs.Scans.{CanScan};
ghost use Rattle.calls_plans.specs.Reading.{HoldsNumbers, IsReading};

use kl_ask::{Ask, Attached, Drift, Driver, DriverError, Head, Seen, Session, Settings, Trace};
use kl_base::{Box, Label, Seq, Text};
use kl_eval::EvalStop;
use kl_nested::NestedDriver;
use kl_outside::MemFiles;
use kl_run::{memo_for, run_of};
use kl_scans::{Ran, Run, finish_scan, pull_scan, repeats_none, start_scan};
use kl_ship::{Plan, Scan};
use kl_tools::explain;
use kl_type::Ty;
use kl_value::{Kind, Value};
use std::alloc::Global;
use std::boxed::Box as HeapBox;
use std::test::Fail;

// `[|int|]`
fn list_type(alloc: Global) -> Result<Ty, Fail>
    ensures { IfOk result (λ t. ground_of t ≡ coll kind.List int) }
{
    let item = Box::new(alloc, Ty::Int)?;
    Ok(Ty::Coll(Kind::List, item))
}

// A scan of all rows of a source at the first driver.
fn scan(alloc: Global) -> Result<Scan, Fail>
    ensures driver { IfOk result (λ c. c.driver ≡ 0) }
    ensures ask { IfOk result (λ c. c.ask ≡ asks.Rows c.source [] []) }
{
    let source = Label::new(alloc, b"n")?.ok_or("no word")?;
    let ask = Ask::Rows {
        source: source.dup()?,
        keep: Seq::of(Vec::new(alloc)),
        tests: Seq::of(Vec::new(alloc)),
    };
    Ok(Scan {
        number: 0,
        driver: 0,
        source,
        ask,
        kind: Kind::List,
    })
}

fn text(alloc: Global, bytes: &[u8]) -> Result<Text, Fail> {
    Ok(Text::of(Vec::from_slice(alloc, bytes)?))
}

// A file of two integers.
fn files(alloc: Global) -> Result<MemFiles, Fail>
    ensures { IfOk result (λ f. NoneOpen (files_state f)) }
{
    let path = text(alloc, b"n.kx")?;
    let items = text(alloc, b"4; 5;")?;
    Ok(MemFiles::new(alloc, vec![in alloc; (path, items)]?))
}

// The file, which has other bytes from its second opening on.
fn changing(alloc: Global, bytes: &[u8]) -> Result<MemFiles, Fail>
    ensures { IfOk result (λ f. NoneOpen (files_state f)) }
{
    let mut files = files(alloc)?;
    files.change_at(2, text(alloc, b"n.kx")?, text(alloc, bytes)?)?;
    Ok(files)
}

// A driver at which the file is attached.
fn attached(
    alloc: Global,
    files: MemFiles,
    name: &Label,
    ty: &Ty,
) -> Result<NestedDriver<MemFiles>, Fail>
    requires open { NoneOpen (files_state files) }
    requires ty { ground_of ty.now ≡ coll kind.List int }
    ensures { IfOk result (λ d. HoldsNumbers (⟦<NestedDriver<MemFiles> as Driver>⟧.state d) name.now ty.now) }
{
    let path = text(alloc, b"n.kx")?;
    let mut driver = NestedDriver::new(alloc, files);
    if !driver.suits(ty) {
        return Err(Fail::from("not suited"));
    }
    match driver.attach(name, &path, ty) {
        Ok(_) => Ok(driver),
        Err(_) => Err(Fail::from("not attached")),
    }
}

// A driver of its kind as one of any kind.
fn boxed(alloc: Global, driver: NestedDriver<MemFiles>) -> Result<HeapBox<dyn Driver>, Fail>
    ensures { IfOk result (λ d. state d ≡ ⟦<NestedDriver<MemFiles> as Driver>⟧.state driver) }
{
    let boxed = HeapBox::new(alloc, driver)?;
    Ok(boxed)
}

// A session of the source of a scan, in which the starts of the scan are counted.
fn session(alloc: Global, driver: HeapBox<dyn Driver>, ty: Ty, scan: &Scan) -> Result<Session, Fail>
    requires attached { HoldsNumbers (state driver) scan.now.source ty }
    requires ty { ground_of ty ≡ coll kind.List int }
    requires driver { scan.now.driver ≡ 0 }
    requires ask { scan.now.ask ≡ asks.Rows scan.now.source [] [] }
    ensures settings { IfOk result (λ s. (⟦<Session as Seen>⟧.world s).settings ≡ usual_settings) }
    ensures can { IfOk result (λ s. (p : Node) → CanScan (fresh_run p (⟦<Session as Seen>⟧.world s)) scan.now) }
    ensures ready { IfOk result (λ s. IsReady (⟦<Session as Seen>⟧.world s)) }
{
    let mut drivers = Vec::new(alloc);
    drivers.push(driver)?;
    let source = scan.source.dup()?;
    let driver = Some(0);
    let listed = vec![in alloc; Attached { source, ty, driver }]?;
    let mut trace = Trace::new(alloc);
    trace.starts = Seq::of(vec![in alloc; (0, 0)]?);
    Ok(Session {
        drivers,
        sources: Seq::of(listed),
        settings: Settings::usual(),
        trace,
    })
}

fn starts<'p>(run: &mut Run<'p>, scan: &Scan) -> Option<u64>
    requires can { CanScan (⟦<Run<'p> as Ran>⟧.world run.old) scan.now }
    requires room { 0 < (⟦<Run<'p> as Ran>⟧.world run.old).settings.fetch }
    ensures { IfSome result (IsReading (⟦<Run<'p> as Ran>⟧.world run.new) scan.now) }
{
    match start_scan(run, scan) {
        Ok(cursor) => Some(cursor),
        Err(_stop) => None,
    }
}

// What two pulls of a scan come to.
#[derive(Drop)]
enum Reading {
    // Rows by the first, and none by the second.
    Rows(Vec<Value>),
    Change(Drift),
    Other,
}

fn change_of(stop: EvalStop) -> Reading {
    match stop {
        EvalStop::Driver { source: _, error } => match error {
            DriverError::Changed { drift } => Reading::Change(drift),
            _ => Reading::Other,
        },
        _ => Reading::Other,
    }
}

// Whether the next pull gives rows, or what stopped it.
fn pulls<'p>(
    run: &mut Run<'p>,
    scan: &Scan,
    cursor: u64,
    into: &mut Vec<Value>,
) -> Result<bool, Reading>
    requires { IsReading (⟦<Run<'p> as Ran>⟧.world run.old) scan.now cursor }
    ensures { IfOk result (λ more. IsReading (⟦<Run<'p> as Ran>⟧.world run.new) scan.now cursor) }
{
    match pull_scan(run, scan, cursor, into) {
        Ok(more) => Ok(more),
        Err(stop) => Err(change_of(stop)),
    }
}

fn reads<'p>(alloc: Global, run: &mut Run<'p>, scan: &Scan) -> Reading
    requires can { CanScan (⟦<Run<'p> as Ran>⟧.world run.old) scan.now }
    requires ready { IsReadyRun (⟦<Run<'p> as Ran>⟧.world run.old) }
{
    let mut rows = Vec::new(alloc);
    let Some(cursor) = starts(run, scan) else {
        return Reading::Other;
    };
    match pulls(run, scan, cursor, &mut rows) {
        Err(reading) => reading,
        Ok(first) => match pulls(run, scan, cursor, &mut rows) {
            Err(reading) => reading,
            Ok(second) => {
                finish_scan(run, scan, cursor);
                if first && !second {
                    Reading::Rows(rows)
                } else {
                    Reading::Other
                }
            }
        },
    }
}

fn is_counted(run: &Run<'_>) -> bool {
    let starts = run.session.trace.starts.slice();
    matches!(starts, [only] if only.0 == 0 && only.1 == 1)
}

// A scan that may repeat rows is read and counted.
fn scans<'p>(alloc: Global, run: &mut Run<'p>, scan: &Scan) -> Reading
    requires can { CanScan (⟦<Run<'p> as Ran>⟧.world run.old) scan.now }
    requires ready { IsReadyRun (⟦<Run<'p> as Ran>⟧.world run.old) }
{
    let may_repeat = !repeats_none(run, scan);
    let reading = reads(alloc, run, scan);
    if may_repeat && is_counted(run) {
        reading
    } else {
        Reading::Other
    }
}

// A plan without subqueries.
fn variable() -> Plan
    ensures { memos_of (view result) ≡ [] }
{
    Plan::Var(0)
}

fn read_by(
    alloc: Global,
    driver: HeapBox<dyn Driver>,
    ty: Ty,
    scan: &Scan,
    plan: &Plan,
) -> Result<Reading, Fail>
    requires plan { memos_of (view plan.now) ≡ [] }
    requires attached { HoldsNumbers (state driver) scan.now.source ty }
    requires ty { ground_of ty ≡ coll kind.List int }
    requires driver { scan.now.driver ≡ 0 }
    requires ask { scan.now.ask ≡ asks.Rows scan.now.source [] [] }
{
    let session = session(alloc, driver, ty, scan)?;
    let memo = memo_for(alloc, &session.settings)?;
    let mut run = run_of(session, memo, plan);
    Ok(scans(alloc, &mut run, scan))
}

// What a scan of the file comes to, beside a plan that names no source. Who calls it makes the plan: what holds both it and a
// driver takes the prover gigabytes.
fn read_of(alloc: Global, plan: &Plan, files: MemFiles) -> Result<Reading, Fail>
    requires plan { memos_of (view plan.now) ≡ [] }
    requires open { NoneOpen (files_state files) }
{
    let scan = scan(alloc)?;
    let ty = list_type(alloc)?;
    let driver = attached(alloc, files, &scan.source, &ty)?;
    let boxed = boxed(alloc, driver)?;
    read_by(alloc, boxed, ty, &scan, plan)
}

fn unchanged(alloc: Global, plan: &Plan) -> Result<Reading, Fail>
    requires { memos_of (view plan.now) ≡ [] }
{
    read_of(alloc, plan, files(alloc)?)
}

// What is told of a file that has these bytes when it is scanned.
fn changed_to(alloc: Global, plan: &Plan, bytes: &[u8]) -> Result<Reading, Fail>
    requires { memos_of (view plan.now) ≡ [] }
{
    read_of(alloc, plan, changing(alloc, bytes)?)
}

fn are_numbers(reading: &Reading, first: i64, second: i64) -> bool {
    match reading {
        Reading::Rows(rows) => {
            matches!(rows.as_slice(), [Value::Int(a), Value::Int(b)] if *a == first && *b == second)
        }
        _ => false,
    }
}

fn is_change(reading: &Reading, drift: &Drift) -> bool {
    match reading {
        Reading::Change(found) => found == drift,
        _ => false,
    }
}

#[test]
fn a_source_is_scanned(rt: HostRuntime) -> Result<(), Fail> {
    let plan = variable();
    let reading = unchanged(rt.alloc(), &plan)?;
    assert!(rt; are_numbers(&reading, 4, 5));
    Ok(())
}

// Text that stops, an item of another type, fewer bytes and items, and a type where none was stated.
#[test]
fn a_change_is_told_by_what_it_is(rt: HostRuntime) -> Result<(), Fail> {
    let plan = variable();
    let stops = changed_to(rt.alloc(), &plan, b"4; 5")?;
    assert!(rt; matches!(stops, Reading::Change(Drift::Unread { place: 4 })));
    let lacks = changed_to(rt.alloc(), &plan, b"4; true;")?;
    assert!(rt; matches!(lacks, Reading::Change(Drift::Misfit { item: 1 })));
    let fewer = changed_to(rt.alloc(), &plan, b"4;")?;
    assert!(rt;
        matches!(
            fewer,
            Reading::Change(Drift::Bytes { kept: 5, found: 2 } | Drift::Count { kept: 2, found: 1 })
        )
    );
    let states = changed_to(rt.alloc(), &plan, b"type int; 4; 5;")?;
    let kept = Box::new(rt.alloc(), Head::Absent)?;
    let found = Box::new(rt.alloc(), Head::Stated(Ty::Int))?;
    assert!(rt; is_change(&states, &Drift::Header { kept, found }));
    Ok(())
}

// Other items of the type in as many bytes are read as they are.
#[test]
fn a_change_in_kind_is_none(rt: HostRuntime) -> Result<(), Fail> {
    let plan = variable();
    let other = changed_to(rt.alloc(), &plan, b"4; 9;")?;
    assert!(rt; are_numbers(&other, 4, 9));
    Ok(())
}

// Whether it is told what a plan asks of these drivers.
fn is_told(alloc: Global, plan: &Plan, drivers: &Vec<HeapBox<dyn Driver>>) -> bool {
    match explain(alloc, plan, drivers) {
        Ok(lines) => lines.slice() == b"scan 0 as list nested rows n\n".as_slice(),
        Err(_) => false,
    }
}

// A driver of files, alone.
fn drivers(alloc: Global) -> Result<Vec<HeapBox<dyn Driver>>, Fail> {
    let driver = NestedDriver::new(alloc, files(alloc)?);
    let mut drivers = Vec::new(alloc);
    drivers.push(boxed(alloc, driver)?)?;
    Ok(drivers)
}

fn tells(alloc: Global, drivers: &Vec<HeapBox<dyn Driver>>) -> Result<bool, Fail> {
    let scan = scan(alloc)?;
    Ok(is_told(alloc, &Plan::Scan(scan), drivers))
}

#[test]
fn a_plan_is_told(rt: HostRuntime) -> Result<(), Fail> {
    let drivers = drivers(rt.alloc())?;
    assert!(rt; tells(rt.alloc(), &drivers)?);
    Ok(())
}
