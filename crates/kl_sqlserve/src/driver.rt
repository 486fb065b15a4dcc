//! The server.
ghost use Rattle.std.specs.Prelude.{◌≡◌, IfOk, IfSome, MatchOption, OnErr};
ghost use Rattle.std.specs.Option.{is_some};
ghost use Rattle.kl_ask.specs.Driver.{CanStart};
ghost use Rattle.kl_ask.specs.declared.ask.Ask.TheVariants as asks;
ghost use Rattle.kl_outside.specs.Files.{NoneOpen};
ghost use Rattle.kl_sqlserve.specs.Hands.{HandsRows};
ghost use Rattle.kl_sqlserve.specs.Server.{fresh_state, sql_state};

use crate::asking::is_served;
use crate::attaching::add_source;
use crate::fitting::ask_for;
use crate::handing::hand_joined;
use crate::joined::Open;
use crate::opening::{find, open_asked};
use kl_ask::{Abilities, Ask, Driver, DriverError, close_cursor, count_ask, sum_asked, unread_by};
use kl_base::{Label, NoMemory, Text};
use kl_flat::{Source, hand_next, table_of_file};
use kl_outside::Files;
use kl_type::Ty;
use kl_value::Value;
use std::alloc::Global;
use std::collections::HashMap;

/// A server of sets and bags that are tables. A locator is the path of a file, which is read whole when its source is
/// attached; of a set, the first of equal rows is kept alone. Rows come in no stated order.
///
/// It answers statements of SQL as ISO 9075 has them for tables without NULL. It leaves no file open, and tells its contents
/// exactly where its files tell their bytes, and its count of faults is theirs. Its count of sources that it could not read
/// rises where a table has a bad record or too many bytes. RFC 4180 has the form of the files.
#[derive(Drop)]
pub struct SqlServer<F: Files + Drop> {
    alloc: Global,
    files: F,
    sources: HashMap<Label, Source>,
    cursors: Vec<Option<Open>>,
    asked: Vec<(Ask, u64)>,
    handed: u64,
    unread: u64,
    ghost closed: { NoneOpen (F.state files) },
}

impl<F: Files + Drop> SqlServer<F> {
    /// A server over these files, of which none is open, with nothing attached, no cursor open, and its other counts at 0.
    pub fn new(alloc: Global, files: F) -> SqlServer<F>
        requires { NoneOpen (F.state files) }
        ensures { ⟦<SqlServer<F> as Driver>⟧.state result ≡ fresh_state (F.state files) }
    {
        SqlServer {
            alloc,
            files,
            sources: HashMap::new(alloc),
            cursors: Vec::new(alloc),
            asked: Vec::new(alloc),
            handed: 0,
            unread: 0,
        }
    }

    /// Whether a source is attached under the name.
    pub fn is_attached(&self, name: &Label) -> bool
        ensures { result ≡ is_some ((⟦<SqlServer<F> as Driver>⟧.state self.now).attached name.now) }
    {
        find(&self.sources, name).is_some()
    }

    /// The ask for the statement that the bytes are, as ISO 9075 has it. None exactly where it may not be started: they are no
    /// statement, a table of it is not attached, a column is not there or shown under one label with another, or the sides
    /// of a test have two types.
    ///
    /// # Errors
    /// Want of memory.
    pub fn ask_of(&self, alloc: Global, text: &[u8]) -> Result<Option<Ask>, NoMemory>
        ensures can { IfOk result (λ found. MatchOption found (CanStart (⟦<SqlServer<F> as Driver>⟧.state self.now) (asks.Sql text.now) → ⊥)
            (CanStart (⟦<SqlServer<F> as Driver>⟧.state self.now))) }
        ensures text { IfOk result (λ found. IfSome found (λ ask. ask ≡ asks.Sql text.now)) }
    {
        ask_for(alloc, &self.sources, text)
    }
}

impl<F: Files + Drop> Driver for SqlServer<F> {
    ghost state = { λ d. sql_state (F.state d.files) d.sources d.cursors.items d.asked.items d.handed d.unread };

    fn name(&self) -> &[u8] {
        b"sql"
    }

    fn abilities(&self) -> Abilities {
        Abilities {
            select: true,
            project: true,
            join: true,
            unique: true,
        }
    }

    fn suits(&self, ty: &Ty) -> bool {
        is_served(ty)
    }

    fn attach(&mut self, source: &Label, locator: &Text, ty: &Ty) -> Result<u64, DriverError> {
        match table_of_file(self.alloc, &mut self.files, locator.slice(), ty) {
            Ok(table) => Ok(add_source(self.alloc, &mut self.sources, source, ty, table)?),
            Err(error) => {
                self.unread = unread_by(&error, self.unread);
                Err(error)
            }
        }
    }

    fn start(&mut self, ask: &Ask) -> Result<u64, DriverError> {
        let cursor = self.cursors.len();
        let open = open_asked(self.alloc, &self.sources, ask)?;
        self.cursors.push(Some(open))?;
        match count_ask(self.alloc, &mut self.asked, ask) {
            Ok(()) => Ok(cursor as u64),
            Err(NoMemory) => {
                self.cursors.truncate(cursor);
                Err(DriverError::NoMemory)
            }
        }
    }

    fn pull(&mut self, cursor: u64, most: u32, into: &mut Vec<Value>) -> Result<bool, DriverError> {
        let cursor = cursor as usize;
        let Some(open) = &mut self.cursors[cursor] else {
            unreachable!()
        };
        match hand(self.alloc, open, most, into) {
            Ok(count) => {
                self.handed = self.handed.saturating_add(count);
                Ok(count > 0)
            }
            Err(NoMemory) => {
                close_cursor(&mut self.cursors, cursor);
                Err(DriverError::NoMemory)
            }
        }
    }

    fn finish(&mut self, cursor: u64) {
        close_cursor(&mut self.cursors, cursor as usize);
    }

    fn starts(&self) -> u64 {
        sum_asked(&self.asked)
    }

    fn handed(&self) -> u64 {
        self.handed
    }
}

// Appends the next rows of a cursor, and says how many.
fn hand(alloc: Global, cursor: &mut Open, most: u32, into: &mut Vec<Value>) -> Result<u64, NoMemory>
    ensures handed { IfOk result (HandsRows most into.old.items into.new.items cursor.old cursor.new) }
    ensures refused { OnErr result (into.new.items ≡ into.old.items) }
{
    match cursor {
        Open::Rows(rows) => hand_next(alloc, rows, most, into),
        Open::Joined(joined) => hand_joined(alloc, joined, most, into),
    }
}
