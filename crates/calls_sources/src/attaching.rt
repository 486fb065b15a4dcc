ghost use Rattle.std.specs.Prelude.{◌≡◌, ◌<◌, ◌^◌, IfOk, None, length, map};
ghost use Rattle.kl_outcome.specs.Outcome.{Name};
ghost use Rattle.kl_sources.specs.Attaching.{HaveNone};
ghost use Rattle.kl_sources.specs.Sources.{ArePlaced, kinds_of};
ghost use Rattle.kl_outside.specs.Files.{NoneOpen};
ghost use Rattle.kl_outside.specs.Memory.{files_state};

use kl_ask::{Attached, Driver};
use kl_base::{Label, Seq, Text};
use kl_catalogue::read_catalogue;
use kl_flat::FlatDriver;
use kl_outside::MemFiles;
use kl_scope::{Scoped, resolve};
use kl_sources::{Source, attach_sources, names_of, place_sources};
use kl_syntax::{Expr, Meaning, Program, Word};
use std::alloc::Global;
use std::test::Fail;

fn text(alloc: Global, bytes: &[u8]) -> Result<Text, Fail> {
    Ok(Text::of(Vec::from_slice(alloc, bytes)?))
}

// A table of two years.
fn files(alloc: Global) -> Result<MemFiles, Fail>
    ensures { IfOk result (λ f. NoneOpen (files_state f)) }
{
    let path = text(alloc, b"pubs.csv")?;
    let table = text(alloc, b"year\n1999\n2001\n")?;
    Ok(MemFiles::new(alloc, vec![in alloc; (path, table)]?))
}

// A list of one driver, at which nothing is attached.
fn alone(alloc: Global, driver: Box<dyn Driver>) -> Result<Vec<Box<dyn Driver>>, Fail>
    requires { (x : Name) → (state driver).attached x ≡ None }
    ensures clear { IfOk result (λ drivers. HaveNone (map (λ d. state d) drivers.items)) }
    ensures few { IfOk result (λ drivers. length drivers.items < 2 ^ 32) }
{
    let mut drivers = Vec::new(alloc);
    drivers.push(driver)?;
    Ok(drivers)
}

fn placed(alloc: Global, drivers: &Vec<Box<dyn Driver>>) -> Result<Vec<Source>, Fail>
    requires { length drivers.now.items < 2 ^ 32 }
    ensures { IfOk result (λ sources. ArePlaced (kinds_of (map (λ d. state d) drivers.now.items)) sources.items) }
{
    let entries = read_catalogue(alloc, b"source pubs : {[year: int]} = flat \"pubs.csv\";")?;
    Ok(place_sources(alloc, entries.slice(), drivers)?)
}

// The program `pubs;`.
fn program(alloc: Global) -> Result<Program, Fail> {
    let text = Label::new(alloc, b"pubs")?.ok_or("no word")?;
    let means = Meaning::Open;
    let last = Expr::Name(Word {
        text,
        token: 0,
        means,
    });
    Ok(Program {
        defs: Seq::of(Vec::new(alloc)),
        last,
    })
}

fn scoped(alloc: Global, sources: &[Source]) -> Result<Scoped, Fail> {
    let names = names_of(alloc, sources)?;
    match resolve(alloc, program(alloc)?, names.as_slice()) {
        Ok(scoped) => Ok(scoped),
        Err(_) => Err(Fail::from("not in scope")),
    }
}

fn is_first(list: &[Attached]) -> bool {
    matches!(list, [pubs] if pubs.source.slice() == b"pubs".as_slice() && pubs.driver == Some(0))
}

// Whether the one source is attached at the first driver.
fn attaches(alloc: Global, drivers: &mut Vec<Box<dyn Driver>>) -> Result<bool, Fail>
    requires clear { HaveNone (map (λ d. state d) drivers.old.items) }
    requires few { length drivers.old.items < 2 ^ 32 }
{
    let sources = placed(alloc, drivers)?;
    let scoped = scoped(alloc, &sources)?;
    match attach_sources(alloc, sources, &scoped, drivers) {
        Ok(list) => Ok(is_first(list.slice())),
        Err(_) => Ok(false),
    }
}

#[test]
fn a_source_is_attached(rt: HostRuntime) -> Result<(), Fail> {
    let files = files(rt.alloc())?;
    let driver = Box::new(rt.alloc(), FlatDriver::new(rt.alloc(), files))?;
    let mut drivers = alone(rt.alloc(), driver)?;
    assert!(rt; attaches(rt.alloc(), &mut drivers)?);
    Ok(())
}
