ghost use Rattle.std.specs.Prelude.{◌≡◌, ◌↔◌, ◌⊎◌, ◌<◌, ◌+◌, ◌^◌, ℕ, List, Option, [], Some, None, length, take, drop, min, map};
ghost use Rattle.std.specs.Prelude.{MatchOption, MatchResult, IfOk, IsTrue, IsErrOf, IsSome};
ghost use Rattle.kl_outside.specs.Files.{OpensPath, ReadsPiece, Closes, OtherFiles};
ghost use Rattle.kl_outside.specs.Entries.{bytes_of, bytes_at};
ghost use Rattle.kl_outside.specs.Changes.{bytes_by, change_bytes, has_come, opened_once};
ghost use Rattle.kl_outside.specs.Memory.{bytes_held};

use crate::schedule::Schedule;
use crate::{Files, Stop};
use kl_base::{NoMemory, Text};
use slab::Slab;
use std::alloc::Global;

/// Whose bytes an open file has: those of an entry, or of a change.
#[derive(Clone, Copy)]
pub enum Held {
    Entry(usize),
    Change(usize),
}

/// Where an open file stands: in which bytes, and at which of them.
#[derive(Clone, Copy)]
pub struct Place {
    held: Held,
    at: usize,
}

/// Other bytes of a path, and how many openings of it come before it has them.
#[derive(Drop)]
pub struct Change {
    path: Text,
    bytes: Text,
    before: u64,
}

/// Files in memory, which can be told to fail and to change. They tell their bytes as long as they are not told to change.
#[derive(Drop)]
pub struct MemFiles {
    entries: Vec<(Text, Text)>,
    changes: Vec<Change>,
    places: Slab<Place>,
    schedule: Schedule,
}

impl MemFiles {
    ghost use Rattle.kl_outside.specs.Schedule.{list_call};
    ghost use Rattle.kl_outside.specs.Memory.{files_state, files_calls, stored, untold, with_change};

    /// Files with these paths and bytes, none of them open, with no call listed to fail. Where a path is given more
    /// than once, its first bytes count.
    pub fn new(alloc: Global, files: Vec<(Text, Text)>) -> MemFiles
        ensures state { files_state result ≡ record { told = Some (bytes_of files.items); left = λ _. None; log = None; faults = 0 } }
        ensures calls { files_calls result ≡ record { listed = []; made = 0; faults = 0 } }
        ensures stored { stored result ≡ record { entries = files.items; changes = [] } }
    {
        MemFiles {
            entries: files,
            changes: Vec::new(alloc),
            places: Slab::new(alloc),
            schedule: Schedule::new(alloc),
        }
    }

    /// Has a call of `open_path` or `read` fail, counted from 1 over both.
    ///
    /// # Errors
    /// Want of memory; the files are as they were then.
    pub fn fail_at(&mut self, call: u64) -> Result<(), NoMemory>
        ensures state { files_state self.new ≡ files_state self.old }
        ensures calls { MatchResult result (λ _. files_calls self.new ≡ list_call call (files_calls self.old))
            (λ _. files_calls self.new ≡ files_calls self.old) }
        ensures stored { stored self.new ≡ stored self.old }
    {
        self.schedule.list(call)
    }

    /// Gives a path other bytes from an opening of it on, counted from 1 over the calls of `open_path` with this path that come
    /// behind this one. Where several changes of a path have come, the last one that was given counts. From this call on the
    /// files tell no bytes, and the opening of a missing path is a fault.
    ///
    /// # Errors
    /// Want of memory; the files are as they were then.
    pub fn change_at(&mut self, opening: u64, path: Text, bytes: Text) -> Result<(), NoMemory>
        ensures state { MatchResult result (λ _. files_state self.new ≡ untold (files_state self.old))
            (λ _. files_state self.new ≡ files_state self.old) }
        ensures calls { files_calls self.new ≡ files_calls self.old }
        ensures stored { MatchResult result (λ _. stored self.new ≡ with_change opening path bytes (stored self.old))
            (λ _. stored self.new ≡ stored self.old) }
    {
        self.changes.push(Change {
            path,
            bytes,
            before: opening.saturating_sub(1),
        })?;
        Ok(())
    }
}

// What a path has at its next opening, if it is there.
fn find(entries: &[(Text, Text)], changes: &[Change], path: &[u8]) -> Option<Held>
    ensures { MatchOption result (bytes_by changes.now path.now (bytes_of entries.now path.now) ≡ None)
        (λ held. bytes_by changes.now path.now (bytes_of entries.now path.now) ≡ Some (bytes_held entries.now changes.now held)) }
{
    if let Some(change) = find_change(changes, path) {
        return Some(Held::Change(change));
    }
    match find_entry(entries, path) {
        Some(entry) => Some(Held::Entry(entry)),
        None => None,
    }
}

// The last change that has come to a path.
fn find_change(changes: &[Change], path: &[u8]) -> Option<usize>
    ensures { MatchOption result ((first : Option (List ℕ)) → bytes_by changes.now path.now first ≡ first)
        (λ i. (first : Option (List ℕ)) → bytes_by changes.now path.now first ≡ Some (change_bytes changes.now i)) }
{
    let mut found = None;
    for (i, change) in changes.iter().enumerate() {
        if has_come(change, path) {
            found = Some(i);
        }
    }
    found
}

// Whether the path has the bytes of the change at its next opening.
fn has_come(change: &Change, path: &[u8]) -> bool
    ensures { result ≡ has_come path.now change.now }
{
    change.path.slice() == path && change.before == 0
}

// Counts an opening of a path.
fn count_opening(changes: &mut [Change], path: &[u8])
    ensures { changes.new ≡ map (opened_once path.now) changes.old }
{
    for change in changes.iter_mut() {
        open_once(change, path);
    }
}

fn open_once(change: &mut Change, path: &[u8])
    ensures { change.new ≡ opened_once path.now change.old }
{
    if change.path.slice() == path {
        change.before = change.before.saturating_sub(1);
    }
}

// The first entry with a path.
fn find_entry(entries: &[(Text, Text)], path: &[u8]) -> Option<usize>
    ensures { MatchOption result (bytes_of entries.now path.now ≡ None)
        (λ i. bytes_of entries.now path.now ≡ Some (bytes_at entries.now i)) }
{
    for (i, entry) in entries.iter().enumerate() {
        if entry.0.slice() == path {
            return Some(i);
        }
    }
    None
}

// The bytes of an entry.
fn entry_bytes(entries: &[(Text, Text)], entry: usize) -> &[u8]
    ensures { result.now ≡ bytes_at entries.now entry }
{
    match entries.get(entry) {
        Some(entry) => entry.1.slice(),
        None => &[],
    }
}

// The bytes of a change.
fn change_bytes(changes: &[Change], change: usize) -> &[u8]
    ensures { result.now ≡ change_bytes changes.now change }
{
    match changes.get(change) {
        Some(change) => change.bytes.slice(),
        None => &[],
    }
}

fn held_bytes<'a>(entries: &'a [(Text, Text)], changes: &'a [Change], held: Held) -> &'a [u8]
    ensures { result.now ≡ bytes_held entries.now changes.now held }
{
    match held {
        Held::Entry(entry) => entry_bytes(entries, entry),
        Held::Change(change) => change_bytes(changes, change),
    }
}

// Copies the bytes from a place on, as far as they fit.
fn copy_from(bytes: &[u8], at: usize, into: &mut [u8]) -> usize
    ensures size { length into.new ≡ length into.old }
    ensures count { result ≡ min (length (drop at bytes.now)) (length into.old) }
    ensures copied { take result into.new ≡ take result (drop at bytes.now) }
    ensures fits { at + result < 2 ^ 64 }
{
    let Some(left) = bytes.get(at..) else {
        return 0;
    };
    let count = left.len().min(into.len());
    into[..count].copy_from_slice(&left[..count]);
    count
}

impl Files for MemFiles {
    ghost use Rattle.kl_outside.specs.Schedule.{is_next_listed, after_call, after_opening};
    ghost use Rattle.kl_outside.specs.Memory.{files_state, files_calls, shown_state, stored, next_bytes, with_opening};

    ghost state = { λ m. files_state m };

    /// It is `Failed` exactly where the path is missing or the call is listed. A missing path comes first, and counts
    /// no fault where bytes are told.
    fn open_path(&mut self, path: &[u8]) -> Result<u64, Stop>
        ensures opens { OpensPath path.now result (files_state self.old) (files_state self.new) }
        ensures failed { IsErrOf result Stop.Failed ↔
            ((next_bytes (stored self.old) path.now ≡ None) ⊎ IsTrue (is_next_listed (files_calls self.old))) }
        ensures calls { files_calls self.new ≡
            after_opening (files_state self.old).told (next_bytes (stored self.old) path.now) (files_calls self.old) }
        ensures stored { stored self.new ≡ with_opening path.now (stored self.old) }
        ensures starts { IfOk result (λ file. (shown_state self.new).left file ≡ Some (next_bytes (stored self.old) path.now)) }
        ensures others { IfOk result (λ file. OtherFiles file (shown_state self.old) (shown_state self.new)) }
    {
        let is_listed = self.schedule.make_call();
        let found = find(&self.entries, &self.changes, path);
        count_opening(&mut self.changes, path);
        let Some(held) = found else {
            if !self.changes.is_empty() {
                self.schedule.fail_call();
            }
            return Err(Stop::Failed);
        };
        if is_listed {
            self.schedule.fail_call();
            return Err(Stop::Failed);
        }
        let file = self.places.insert(Place { held, at: 0 })?;
        Ok(file as u64)
    }

    /// It is `Failed` exactly where the call is listed, and takes no memory.
    fn read(&mut self, file: u64, into: &mut [u8]) -> Result<usize, Stop>
        requires is_open { IsSome ((files_state self.old).left file) }
        requires room { 0 < length into.old }
        ensures reads { ReadsPiece file into.new result (files_state self.old) (files_state self.new) }
        ensures shown { ReadsPiece file into.new result (shown_state self.old) (shown_state self.new) }
        ensures failed { IsErrOf result Stop.Failed ↔ IsTrue (is_next_listed (files_calls self.old)) }
        ensures calls { files_calls self.new ≡ after_call (files_calls self.old) }
        ensures stored { stored self.new ≡ stored self.old }
    {
        if self.schedule.make_call() {
            self.schedule.fail_call();
            return Err(Stop::Failed);
        }
        let Some(place) = self.places.get_mut(file as usize) else {
            return Ok(0);
        };
        let bytes = held_bytes(&self.entries, &self.changes, place.held);
        let count = copy_from(bytes, place.at, into);
        place.at += count;
        Ok(count)
    }

    /// It is no call that can be listed.
    fn close(&mut self, file: u64)
        requires { IsSome ((files_state self.old).left file) }
        ensures closes { Closes file (files_state self.old) (files_state self.new) }
        ensures shown { Closes file (shown_state self.old) (shown_state self.new) }
        ensures calls { files_calls self.new ≡ files_calls self.old }
        ensures stored { stored self.new ≡ stored self.old }
    {
        let _ = self.places.try_remove(file as usize);
    }
}
