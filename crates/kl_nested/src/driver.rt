//! The driver of files of values.
ghost use Rattle.std.specs.Prelude.{◌≡◌, ℕ, IsSome, Some};
ghost use Rattle.kl_ask.specs.Cursors.{open_at};
ghost use Rattle.kl_exchange.specs.FileItems.{most_read};
ghost use Rattle.kl_outside.specs.Files.{NoneOpen};
ghost use Rattle.kl_nested.specs.Nested.{fresh_state, nested_state};
ghost use Rattle.kl_nested.specs.Closing.{ClosesOpen, drifts_by};
ghost use Rattle.kl_nested.specs.declared.parts.Open.{Open as Opened};

use crate::handing::hand_at;
use crate::opening::open_asked;
use crate::parts::{Open, Source};
use crate::sources::attach_file;
use crate::types::is_collection;
use kl_ask::{Abilities, Ask, Driver, DriverError, close_cursor, count_ask, sum_asked, unread_by};
use kl_base::{Label, NoMemory, Shared, Text};
use kl_exchange::MOST_READ;
use kl_outside::Files;
use kl_type::Ty;
use kl_value::Value;
use std::alloc::Global;
use std::collections::HashMap;
use std::marker::Model;

/// A driver over files of values. A locator is the path of an exchange file, whose items are the rows; where it has a head,
/// that states the type of the source's items. The file is read through when its source is attached, and each cursor opens
/// it anew and reads it at its own place, so that no rows are held but those that were handed. A file is open as long as
/// its cursor is, and no other is.
///
/// It tells its contents exactly where its files tell their bytes, and its count of faults is theirs. Its count of sources
/// that it could not read rises where the head or an item is none, nests too deep, states another type or lacks the type,
/// or the file has too many bytes.
/// Its count of drifts rises where a cursor finds that its file has changed since it was attached:
/// - `Header` tells the head, or that there was none, and what stands in its place now.
/// - `Unread` tells the byte where no head and no item goes on or the 257th bracket opens, in place of the next row or
///   behind the last.
/// - `Misfit` tells the number of the next item, which lacks the type.
/// - `Count` tells how many items were read: where the file ended too early all that it has, and where it goes on one
///   more than were kept.
/// - `Bytes` tells how many bytes the file has where its items were as many as were kept, and where it has more bytes
///   than are looked at one more than these.
#[derive(Drop)]
pub struct NestedDriver<F: Files + Drop> {
    alloc: Global,
    files: F,
    sources: HashMap<Label, Shared<Source>>,
    cursors: Vec<Option<Open>>,
    asked: Vec<(Ask, u64)>,
    handed: u64,
    drifts: u64,
    unread: u64,
}

impl<F: Files + Drop> Model for NestedDriver<F> {
    ghost use Rattle.kl_exchange.specs.FileItems.{most_read};
    ghost use Rattle.std.specs.Coded.{codes};
    ghost use Rattle.std_collections.specs.Layout.HashMap.{hash_map_code};
    ghost use Rattle.kl_type.specs.contracts.ground.Ty as ty;
    ghost use Rattle.kl_value.specs.contracts.value.Value as value;
    ghost use Rattle.kl_nested.specs.Desk.{Desk, IsDesk};

    ghost Value = { Desk F };

    ghost coded = { Prim.hlevel (codes, hash_map_code, ty.the_row.coded, value.the_row.coded) };

    ghost view = { λ d. record {
      files = d.files;
      sources = d.sources;
      cursors = d.cursors.items;
      asked = d.asked.items;
      handed = d.handed;
      drifts = d.drifts;
      unread = d.unread;
    } };

    ghost invariant = { λ d. IsDesk most_read (F.state d.files) d.sources d.cursors.items };
}

impl<F: Files + Drop> NestedDriver<F> {
    /// A driver over these files, none of which is open, with nothing attached, no cursor open, and its other counts at 0.
    pub fn new(alloc: Global, files: F) -> NestedDriver<F>
        requires { NoneOpen (F.state files) }
        ensures { ⟦<NestedDriver<F> as Driver>⟧.state result ≡ fresh_state most_read (F.state files) }
    {
        NestedDriver {
            alloc,
            files,
            sources: HashMap::new(alloc),
            cursors: Vec::new(alloc),
            asked: Vec::new(alloc),
            handed: 0,
            drifts: 0,
            unread: 0,
        }
    }
}

impl<F: Files + Drop> Driver for NestedDriver<F> {
    ghost state = { λ d. nested_state most_read (F.state d.files) d.sources d.cursors d.asked d.handed d.drifts d.unread };

    fn name(&self) -> &[u8] {
        b"nested"
    }

    fn abilities(&self) -> Abilities {
        Abilities {
            select: false,
            project: false,
            join: false,
            unique: false,
        }
    }

    fn suits(&self, ty: &Ty) -> bool {
        is_collection(ty)
    }

    fn attach(&mut self, source: &Label, locator: &Text, ty: &Ty) -> Result<u64, DriverError> {
        match attach_file(
            self.alloc,
            &mut self.files,
            &mut self.sources,
            source,
            locator,
            ty,
            MOST_READ,
        ) {
            Ok(count) => Ok(count),
            Err(error) => {
                self.unread = unread_by(&error, self.unread);
                Err(error)
            }
        }
    }

    fn start(&mut self, ask: &Ask) -> Result<u64, DriverError> {
        let cursor = self.cursors.len();
        match open_asked(
            self.alloc,
            &mut self.files,
            &self.sources,
            ask,
            MOST_READ,
            &mut self.cursors,
        ) {
            Ok(()) => {}
            Err(error) => return Err(error),
        }
        match count_ask(self.alloc, &mut self.asked, ask) {
            Ok(()) => Ok(cursor as u64),
            Err(NoMemory) => {
                close_open(&mut self.files, &mut self.cursors, cursor);
                Err(DriverError::NoMemory)
            }
        }
    }

    fn pull(&mut self, cursor: u64, most: u32, into: &mut Vec<Value>) -> Result<bool, DriverError> {
        let cursor = cursor as usize;
        match hand_at(
            self.alloc,
            &mut self.files,
            &mut self.cursors,
            cursor,
            MOST_READ,
            most,
            into,
        ) {
            Ok(count) => {
                self.handed = self.handed.saturating_add(count);
                Ok(count > 0)
            }
            Err(error) => {
                self.drifts = drifts_by(&error, self.drifts);
                close_open(&mut self.files, &mut self.cursors, cursor);
                Err(error)
            }
        }
    }

    fn finish(&mut self, cursor: u64) {
        close_open(&mut self.files, &mut self.cursors, cursor as usize);
    }

    fn starts(&self) -> u64 {
        sum_asked(&self.asked)
    }

    fn handed(&self) -> u64 {
        self.handed
    }
}

// Closes the cursor at a place, and its file.
fn close_open<F: Files>(files: &mut F, cursors: &mut Vec<Option<Open>>, cursor: usize)
    requires is_open { IsSome (open_at cursors.old.items cursor) }
    requires file { (o : Opened) → open_at cursors.old.items cursor ≡ Some o → IsSome ((F.state files.old).left o.file) }
    ensures { ClosesOpen cursor cursors.old.items cursors.new.items (F.state files.old) (F.state files.new) }
{
    let Some(open) = &cursors[cursor] else {
        unreachable!()
    };
    files.close(open.file);
    close_cursor(cursors, cursor);
}

// The count of drifts after a refusal. It stands still at its greatest value.
fn drifts_by(error: &DriverError, drifts: u64) -> u64
    ensures { result ≡ drifts_by error.now drifts }
{
    match error {
        DriverError::Changed { .. } => drifts.saturating_add(1),
        _ => drifts,
    }
}
