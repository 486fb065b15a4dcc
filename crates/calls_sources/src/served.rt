ghost use Rattle.kl_ask.specs.Driver.{CanStart};
ghost use Rattle.std.specs.Prelude.{IfOk};
ghost use Rattle.kl_outside.specs.Files.{NoneOpen};
ghost use Rattle.kl_outside.specs.Memory.{files_state};

use kl_ask::{Ask, Driver};
use kl_base::{Label, Text};
use kl_outside::MemFiles;
use kl_sqlserve::SqlServer;
use kl_type::read_type;
use kl_value::Value;
use std::alloc::Global;
use std::test::Fail;

fn text(alloc: Global, bytes: &[u8]) -> Result<Text, Fail> {
    Ok(Text::of(Vec::from_slice(alloc, bytes)?))
}

fn files(alloc: Global) -> Result<MemFiles, Fail>
    ensures { IfOk result (λ f. NoneOpen (files_state f)) }
{
    let path = text(alloc, b"posts.csv")?;
    let posts = text(alloc, b"id,who\n10,1\n11,2\n12,1\n")?;
    Ok(MemFiles::new(alloc, vec![in alloc; (path, posts)]?))
}

// A server of three posts.
fn served(alloc: Global) -> Result<SqlServer<MemFiles>, Fail> {
    let ty = read_type(alloc, b"{[id: int, who: int]}")?;
    let mut driver = SqlServer::new(alloc, files(alloc)?);
    if !driver.suits(&ty) {
        return Err(Fail::from("not suited"));
    }
    let name = Label::new(alloc, b"posts")?.ok_or("no word")?;
    let path = text(alloc, b"posts.csv")?;
    match driver.attach(&name, &path, &ty) {
        Ok(_) => Ok(driver),
        Err(_) => Err(Fail::from("not attached")),
    }
}

fn first_rows<D: Driver>(alloc: Global, driver: &mut D, ask: &Ask) -> Result<Vec<Value>, Fail>
    requires { CanStart (D.state driver.old) ask.now }
{
    let Ok(cursor) = driver.start(ask) else {
        return Err(Fail::from("not started"));
    };
    let mut rows = Vec::new(alloc);
    match driver.pull(cursor, 64, &mut rows) {
        Ok(_) => Ok(rows),
        Err(_) => Err(Fail::from("not pulled")),
    }
}

// How many rows a statement has.
fn count(alloc: Global, statement: &[u8]) -> Result<usize, Fail> {
    let mut server = served(alloc)?;
    let Some(ask) = server.ask_of(alloc, statement)? else {
        return Err(Fail::from("not asked"));
    };
    Ok(first_rows(alloc, &mut server, &ask)?.len())
}

#[test]
fn statements_are_asked(rt: HostRuntime) -> Result<(), Fail> {
    let pairs =
        b"SELECT t0.\"id\" AS \"a\", t1.\"id\" AS \"b\" FROM \"posts\" t0, \"posts\" t1 WHERE t0.\"who\" = t1.\"who\"";
    assert_eq!(rt; count(rt.alloc(), pairs)?, 5);
    let people = b"SELECT DISTINCT t0.\"who\" AS \"who\" FROM \"posts\" t0";
    assert_eq!(rt; count(rt.alloc(), people)?, 2);
    Ok(())
}

#[test]
fn a_table_is_attached_to_a_server(rt: HostRuntime) -> Result<(), Fail> {
    let name = Label::new(rt.alloc(), b"posts")?.ok_or("no word")?;
    assert!(rt; served(rt.alloc())?.is_attached(&name));
    Ok(())
}
