//! The driver of tables.
ghost use Rattle.std.specs.Prelude.{◌≡◌, ◌<◌, ◌^◌, ℕ, length, true, IfOk, None, OnErr, OnOk, IsSome};
ghost use Rattle.std.specs.HashMap.{IsUnchanged};
ghost use Rattle.kl_ask.specs.Named.{asked_source};
ghost use Rattle.kl_flat.specs.Attaching.{AddsSource, ReadsTable};
ghost use Rattle.kl_flat.specs.ColumnTable.{rows_of};
ghost use Rattle.kl_flat.specs.Columns.{is_table_type};
ghost use Rattle.kl_flat.specs.Cursors.{HandsNext, OpensLast};
ghost use Rattle.kl_flat.specs.Fitting.{are_rows};
ghost use Rattle.kl_flat.specs.Flat.{flat_state, fresh_state};
ghost use Rattle.kl_outside.specs.Files.{NoneOpen};

use crate::answering::add_answers;
use crate::column_table::ColumnTable;
use crate::columns::is_table_type;
use crate::parts::{Open, Source};
use crate::sources::{opened, put_source};
use crate::table::read_columns;
use kl_ask::{
    Abilities, Ask, Driver, DriverError, asked_source, close_cursor, count_ask, sum_asked,
    unread_by,
};
use kl_base::{Label, NoMemory, Shared, Text};
use kl_outside::{Files, Stop, Whole, read_whole};
use kl_type::Ty;
use kl_value::Value;
use std::alloc::Global;
use std::collections::HashMap;

// The greatest length of a table's file.
const MOST_BYTES: u64 = 268_435_456;

/// A driver over files that are tables. A locator is the path of a file, which is read whole when its source is attached;
/// rows come in the order of the file.
///
/// It leaves no file open. It tells its contents exactly where its files tell their bytes, and its count of faults is
/// theirs. Its count of sources that it could not read rises where a table has a bad record or too many bytes. RFC 4180 has
/// the form of the files.
#[derive(Drop)]
pub struct FlatDriver<F: Files + Drop> {
    alloc: Global,
    files: F,
    sources: HashMap<Label, Source>,
    cursors: Vec<Option<Open>>,
    asked: Vec<(Ask, u64)>,
    handed: u64,
    unread: u64,
    ghost closed: { NoneOpen (F.state files) },
}

impl<F: Files + Drop> FlatDriver<F> {
    /// A driver over these files, of which none is open, with nothing attached, no cursor open, and its other counts at 0.
    pub fn new(alloc: Global, files: F) -> FlatDriver<F>
        requires { NoneOpen (F.state files) }
        ensures { ⟦<FlatDriver<F> as Driver>⟧.state result ≡ fresh_state (F.state files) }
    {
        FlatDriver {
            alloc,
            files,
            sources: HashMap::new(alloc),
            cursors: Vec::new(alloc),
            asked: Vec::new(alloc),
            handed: 0,
            unread: 0,
        }
    }
}

impl<F: Files + Drop> Driver for FlatDriver<F> {
    ghost state = { λ d. flat_state (F.state d.files) d.sources d.cursors.items d.asked.items d.handed d.unread };

    fn name(&self) -> &[u8] {
        b"flat"
    }

    fn abilities(&self) -> Abilities {
        Abilities {
            select: true,
            project: true,
            join: false,
            unique: false,
        }
    }

    fn suits(&self, ty: &Ty) -> bool {
        is_table_type(ty)
    }

    fn attach(&mut self, source: &Label, locator: &Text, ty: &Ty) -> Result<u64, DriverError> {
        match table_of_file(self.alloc, &mut self.files, locator.slice(), ty) {
            Ok(table) => Ok(add_source(self.alloc, &mut self.sources, source, ty, table)?),
            Err(error) => {
                self.unread = unread_by(&error, self.unread);
                Err(error)
            }
        }
    }

    fn start(&mut self, ask: &Ask) -> Result<u64, DriverError> {
        let cursor = self.cursors.len();
        open_cursor(self.alloc, &self.sources, ask, &mut self.cursors)?;
        match count_ask(self.alloc, &mut self.asked, ask) {
            Ok(()) => Ok(cursor as u64),
            Err(NoMemory) => {
                self.cursors.truncate(cursor);
                Err(DriverError::NoMemory)
            }
        }
    }

    fn pull(&mut self, cursor: u64, most: u32, into: &mut Vec<Value>) -> Result<bool, DriverError> {
        let cursor = cursor as usize;
        let Some(open) = &mut self.cursors[cursor] else {
            unreachable!()
        };
        match hand_next(self.alloc, open, most, into) {
            Ok(count) => {
                self.handed = self.handed.saturating_add(count);
                Ok(count > 0)
            }
            Err(NoMemory) => {
                close_cursor(&mut self.cursors, cursor);
                Err(DriverError::NoMemory)
            }
        }
    }

    fn finish(&mut self, cursor: u64) {
        close_cursor(&mut self.cursors, cursor as usize);
    }

    fn starts(&self) -> u64 {
        sum_asked(&self.asked)
    }

    fn handed(&self) -> u64 {
        self.handed
    }
}

/// The table that a file is, which is read whole.
///
/// # Errors
/// As `Driver::attach`.
pub fn table_of_file<F: Files>(
    alloc: Global,
    files: &mut F,
    path: &[u8],
    ty: &Ty,
) -> Result<ColumnTable, DriverError>
    requires { is_table_type ty.now ≡ true }
    ensures { ReadsTable path.now ty.now result (F.state files.old) (F.state files.new) }
{
    let bytes = match read_whole(alloc, files, path, MOST_BYTES) {
        Ok(Whole::Bytes(bytes)) => bytes,
        Ok(Whole::TooLong) => return Err(DriverError::TooLong { most: MOST_BYTES }),
        Err(Stop::Failed) => return Err(DriverError::Failed),
        Err(Stop::NoMemory) => return Err(DriverError::NoMemory),
    };
    match read_columns(alloc, bytes.slice(), ty) {
        Ok(front) => match front.bad {
            Some(place) => Err(DriverError::BadSource { place }),
            None => Ok(front.table),
        },
        Err(NoMemory) => Err(DriverError::NoMemory),
    }
}

// Adds a source of this name, with this table, and says how many rows it has.
fn add_source(
    alloc: Global,
    sources: &mut HashMap<Label, Source>,
    name: &Label,
    ty: &Ty,
    table: ColumnTable,
) -> Result<u64, NoMemory>
    requires { are_rows ty.now (rows_of table) ≡ true }
    ensures added { IfOk result (AddsSource name.now ty.now (rows_of table) sources.old sources.new) }
    ensures refused { OnErr result (IsUnchanged sources.old sources.new) }
{
    let count = table.len() as u64;
    let made = new_source(alloc, name, ty, table)?;
    put_source(sources, name, made)?;
    Ok(count)
}

/// A source of this name, with this table.
///
/// # Errors
/// Want of memory.
pub fn new_source(
    alloc: Global,
    name: &Label,
    ty: &Ty,
    table: ColumnTable,
) -> Result<Source, NoMemory>
    requires small { length (rows_of table) < 2 ^ 64 }
    requires typed { are_rows ty.now (rows_of table) ≡ true }
    ensures name { IfOk result (λ s. s.name ≡ name.now) }
    ensures ty { IfOk result (λ s. s.ty ≡ ty.now) }
    ensures table { IfOk result (λ s. s.table ≡ table) }
{
    let table = Shared::new(alloc, table)?;
    let name = name.dup()?;
    let ty = Shared::new(alloc, ty.dup(alloc)?)?;
    Ok(Source { name, ty, table })
}

// Opens a cursor for an ask, behind the others.
fn open_cursor(
    alloc: Global,
    sources: &HashMap<Label, Source>,
    ask: &Ask,
    cursors: &mut Vec<Option<Open>>,
) -> Result<(), NoMemory>
    requires { IsSome (asked_source sources.now ask.now) }
    ensures opened { OnOk result (OpensLast sources.now ask.now cursors.old.items cursors.new.items) }
    ensures refused { OnErr result (cursors.new.items ≡ cursors.old.items) }
{
    let Some(source) = asked_source(sources, ask) else {
        unreachable!()
    };
    let open = opened(alloc, source, ask)?;
    cursors.push(Some(open))?;
    Ok(())
}

/// Appends the next answers of a cursor, which then stands behind the last row that was looked at, and says how many.
///
/// # Errors
/// Want of memory; no row is appended then.
pub fn hand_next(
    alloc: Global,
    cursor: &mut Open,
    most: u32,
    into: &mut Vec<Value>,
) -> Result<u64, NoMemory>
    ensures handed { IfOk result (HandsNext most into.old.items into.new.items cursor.old cursor.new) }
    ensures refused { OnErr result (into.new.items ≡ into.old.items) }
{
    let before = into.len();
    match add_answers(alloc, cursor, most, into) {
        Ok(at) => {
            let count = (into.len() - before) as u64;
            cursor.at = at;
            Ok(count)
        }
        Err(NoMemory) => {
            into.truncate(before);
            Err(NoMemory)
        }
    }
}
