//! Scans files of nested values.
ghost use Rattle.std.specs.Prelude.{◌≡◌, IfOk, IsSome, true};
ghost use Rattle.kl_ask.specs.Driver.{CanStart};
ghost use Rattle.kl_nested.specs.Nested.{is_collection};
ghost use Rattle.kl_type.specs.Ground.{IsProper, coll, ground_of, str};
ghost use Rattle.kl_value.specs.declared.Kind.TheVariants as kinds;

use anyhow::{Context, Result, bail};
use kl_ask::{Ask, Driver};
use kl_base::{Box, Seq};
use kl_nested::NestedDriver;
use kl_outside::HostFiles;
use kl_type::Ty;
use kl_value::{Kind, Label, Text};
use std::alloc::Global;
use std::time::Instant;

// How many rows are pulled at once.
const ROWS: u32 = 64;

/// Attaches a file of sets of texts, and pulls its rows, of which it keeps none.
pub fn scan(rt: HostRuntime, path: &str) -> Result<()> {
    let alloc = rt.alloc();
    let start = Instant::now(&rt)?;
    let name = Label::new(alloc, b"n")?.context("no word")?;
    let path = Text::of(Vec::from_slice(alloc, path.as_bytes())?);
    let rows = scan_whole(rt, &name, &path)?;
    eprintln!(rt; "{} ms", start.elapsed(&rt)?.as_millis())?;
    println!(rt; "{rows} rows")?;
    Ok(())
}

// `[|{string}|]`
fn lists_of_sets(alloc: Global) -> Result<Ty>
    ensures ground { IfOk result (λ t. ground_of t ≡ coll kinds.List (coll kinds.Set str)) }
    ensures suits { IfOk result (λ t. is_collection t ≡ true) }
    ensures proper { IfOk result (λ t. IsProper t) }
{
    let text = Box::new(alloc, Ty::Str)?;
    let set = Box::new(alloc, Ty::Coll(Kind::Set, text))?;
    Ok(Ty::Coll(Kind::List, set))
}

fn scan_whole(rt: HostRuntime, name: &Label, path: &Text) -> Result<u64> {
    let ty = lists_of_sets(rt.alloc())?;
    let mut driver = NestedDriver::new(rt.alloc(), HostFiles::new(rt));
    match driver.attach(name, path, &ty) {
        Ok(_) => {}
        Err(_) => bail!("no such file of values"),
    }
    let ask = Ask::Rows {
        source: name.dup()?,
        keep: Seq::of(Vec::new(rt.alloc())),
        tests: Seq::of(Vec::new(rt.alloc())),
    };
    pull_all(rt.alloc(), &mut driver, &ask)?;
    Ok(driver.handed())
}

/// Starts an ask, and pulls its rows, which are dropped.
pub fn pull_all<D: Driver>(alloc: Global, driver: &mut D, ask: &Ask) -> Result<()>
    requires { CanStart (D.state driver.old) ask.now }
{
    let Ok(cursor) = driver.start(ask) else {
        bail!("no cursor");
    };
    'pulls: for _ in 0..u64::MAX {
        if !pull_some(alloc, driver, cursor)? {
            break;
        }
    }
    driver.finish(cursor);
    Ok(())
}

// Whether there were rows, which are dropped. The cursor stays open.
fn pull_some<D: Driver>(alloc: Global, driver: &mut D, cursor: u64) -> Result<bool>
    requires { IsSome ((D.state driver.old).cursors cursor) }
    ensures { IfOk result (λ some. IsSome ((D.state driver.new).cursors cursor)) }
{
    let mut rows = Vec::new(alloc);
    match driver.pull(cursor, ROWS, &mut rows) {
        Ok(true) => Ok(true),
        Ok(false) => Ok(false),
        Err(_) => bail!("a row is not read"),
    }
}
