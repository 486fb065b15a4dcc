//! Asks a server of SQL.
use crate::scans::pull_all;
use anyhow::{Context, Result, bail};
use kl_ask::Driver;
use kl_outside::HostFiles;
use kl_sqlserve::SqlServer;
use kl_type::read_type;
use kl_value::{Label, Text};
use std::alloc::Global;
use std::env::Args;
use std::time::Instant;

/// Attaches tables, of each of which the words are its name, its type and its file, asks a statement of them, and pulls its
/// rows, of which it keeps none.
pub fn sql(rt: HostRuntime, statement: &str, words: &mut Args) -> Result<()> {
    let alloc = rt.alloc();
    let mut server = SqlServer::new(alloc, HostFiles::new(rt));
    'tables: for _ in 0..u64::MAX {
        let Some(name) = words.next() else {
            break;
        };
        let ty = words.next().context("no type")?;
        let path = words.next().context("no file")?;
        attach_table(alloc, &mut server, &name, &ty, &path)?;
    }
    ask(rt, &mut server, statement)
}

fn attach_table(
    alloc: Global,
    server: &mut SqlServer<HostFiles>,
    name: &str,
    ty: &str,
    path: &str,
) -> Result<()> {
    let name = Label::new(alloc, name.as_bytes())?.context("no word")?;
    let Ok(ty) = read_type(alloc, ty.as_bytes()) else {
        bail!("no type");
    };
    if !server.suits(&ty) {
        bail!("no type of tables");
    }
    if server.is_attached(&name) {
        bail!("a name twice");
    }
    let path = Text::of(Vec::from_slice(alloc, path.as_bytes())?);
    match server.attach(&name, &path, &ty) {
        Ok(_) => Ok(()),
        Err(_) => bail!("no table"),
    }
}

fn ask(rt: HostRuntime, server: &mut SqlServer<HostFiles>, statement: &str) -> Result<()> {
    let alloc = rt.alloc();
    let Some(ask) = server.ask_of(alloc, statement.as_bytes())? else {
        bail!("no statement of these tables");
    };
    let start = Instant::now(&rt)?;
    pull_all(alloc, server, &ask)?;
    eprintln!(rt; "{} ms", start.elapsed(&rt)?.as_millis())?;
    println!(rt; "{} rows", server.handed())?;
    Ok(())
}
