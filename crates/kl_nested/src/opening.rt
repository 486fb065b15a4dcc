//! The opening of cursors.
ghost use Rattle.std.specs.Prelude.{IsSome};
ghost use Rattle.kl_nested.specs.Opening.{OpensAsked, OpensLast, OpensOne, PutsLast};
ghost use Rattle.kl_ask.specs.Named.{asked_source};

use crate::parts::{Open, Source};
use crate::through::{PIECE, stopped};
use kl_ask::{Ask, DriverError, asked_source};
use kl_base::{Label, Shared};
use kl_heads::FileReader;
use kl_outside::Files;
use std::alloc::Global;
use std::collections::HashMap;

/// Opens a cursor for an ask behind the others, before the first row of the source that is asked, whose file is opened.
///
/// # Errors
/// `Failed` on a fault, or where the file is told to be missing; `NoMemory`. No cursor and no file is opened then.
pub fn open_asked<F: Files>(
    alloc: Global,
    files: &mut F,
    sources: &HashMap<Label, Shared<Source>>,
    ask: &Ask,
    limit: u64,
    cursors: &mut Vec<Option<Open>>,
) -> Result<(), DriverError>
    requires { IsSome (asked_source sources.now ask.now) }
    ensures { OpensAsked limit sources.now ask.now result cursors.old.items cursors.new.items (F.state files.old) (F.state files.new) }
{
    let Some(source) = asked_source(sources, ask) else {
        unreachable!()
    };
    open_last(alloc, files, source, ask, limit, cursors)
}

// Opens a cursor for an ask behind the others, before the first row of a source, whose file is opened.
fn open_last<F: Files>(
    alloc: Global,
    files: &mut F,
    source: &Shared<Source>,
    ask: &Ask,
    limit: u64,
    cursors: &mut Vec<Option<Open>>,
) -> Result<(), DriverError>
    ensures { OpensLast limit source.now ask.now result cursors.old.items cursors.new.items (F.state files.old) (F.state files.new) }
{
    match opened(alloc, files, source, ask, limit) {
        Ok(cursor) => put_last(files, cursors, cursor),
        Err(error) => Err(error),
    }
}

// A cursor before the first row of a source, whose file is opened.
fn opened<F: Files>(
    alloc: Global,
    files: &mut F,
    source: &Shared<Source>,
    ask: &Ask,
    limit: u64,
) -> Result<Open, DriverError>
    ensures { OpensOne limit source.now ask.now result (F.state files.old) (F.state files.new) }
{
    let ask = ask.dup(alloc)?;
    let source = source.dup()?;
    let file = match files.open_path(source.get().path.slice()) {
        Ok(file) => file,
        Err(stop) => return Err(stopped(stop)),
    };
    Ok(Open {
        ask,
        source,
        file,
        reader: FileReader::new(alloc, file, limit, PIECE),
        taken: 0,
    })
}

// Puts a cursor behind the others, or closes its file again.
fn put_last<F: Files>(
    files: &mut F,
    cursors: &mut Vec<Option<Open>>,
    cursor: Open,
) -> Result<(), DriverError>
    requires { IsSome ((F.state files.old).left cursor.file) }
    ensures { PutsLast cursor result cursors.old.items cursors.new.items (F.state files.old) (F.state files.new) }
{
    let file = cursor.file;
    match cursors.push(Some(cursor)) {
        Ok(()) => Ok(()),
        Err(_) => {
            files.close(file);
            Err(DriverError::NoMemory)
        }
    }
}
