//! What answers asks.
ghost use Rattle.std.specs.Prelude.{◌≡◌, ◌<◌, ◌^◌, ◌-◌, min, true, None, IsSome};
ghost use Rattle.kl_type.specs.Ground.{IsProper, ground_of};
ghost use Rattle.kl_ask.specs.Asked.{all_times};
ghost use Rattle.kl_ask.specs.Driver.{State, Suits, CanStart, Attaches, Starts, Pulls, Finishes};

use crate::ask::{Abilities, Ask, DriverError};
use kl_base::{Label, Text};
use kl_type::Ty;
use kl_value::Value;

/// A server of sources: it attaches them, and hands the rows that asks of them answer.
///
/// What it means is one `State`: what it is, its attached sources, its open cursors, what they have read of their sources,
/// where they read them anew, what it was asked, and counts that never fall, of rows handed, of faults, of drifts and of
/// sources that it could not read. Where it tells its contents, what comes of each call is exact. Where it does not, types,
/// causes and frames are, and how many rows come: each cursor has a number of rows that it may still hand, which falls with
/// each row.
///
/// No call changes what the driver is, contents that are told, or anything that its entry does not name, counts too.
pub trait Driver: Drop {
    /// What the driver means.
    ghost state: { Self → State };

    /// The name by which a catalogue names it.
    fn name(&self) -> &[u8]
        ensures { result.now ≡ (state self.now).kind.name };

    /// What it can do beside handing whole rows.
    fn abilities(&self) -> Abilities
        ensures { result ≡ (state self.now).kind.abilities };

    /// Whether it can hold a source of this type: a collection, of flat records where it does more than handing whole
    /// rows, and no list where it joins. Takes no memory.
    fn suits(&self, ty: &Ty) -> bool
        ensures gives { result ≡ (state self.now).kind.suits ty.now }
        ensures only { result ≡ true → Suits (state self.now).kind.abilities (ground_of ty.now) };

    /// Attaches the source at a locator under a name that has none, and answers the number of rows that a whole scan
    /// hands, also where contents are not told. Told rows have the type's items, and where the driver has `unique`, those
    /// of a set differ. Where cursors read their sources anew, it keeps of how many bytes the source is and what it states of
    /// its type. The count of faults rises with `Failed` alone, and that of unreadable sources with `BadSource`,
    /// `TooLong` or `TooDeep` alone.
    ///
    /// # Errors
    /// `Failed` where the file is told to be missing, and then no count rises, or on a fault; `BadSource`, `TooLong` and
    /// `TooDeep` where what is told is unreadable as this type, or, where nothing is told, where the count of unreadable
    /// sources rose; `NoMemory`. Nothing is attached then.
    fn attach(&mut self, source: &Label, locator: &Text, ty: &Ty) -> Result<u64, DriverError>
        requires proper { IsProper ty.now }
        requires suits { (state self.old).kind.suits ty.now ≡ true }
        requires fresh { (state self.old).attached source.now ≡ None }
        ensures { Attaches source.now locator.now ty.now result (state self.old) (state self.new) };

    /// Opens a cursor for an ask, and answers its number, which no open cursor has. Without tests the cursor may hand as
    /// many rows as `attach` answered, and with tests at most as many; where contents are told, it has the rows that the
    /// ask answers, of a list in order. An ask of SQL is of a driver that joins, for a statement whose tables are attached
    /// and whose columns are there, none of them shown under one label with another, with one type on both sides of each
    /// test. Its cursor has the rows that the statement means (`kl_sqltext`), in some order, and of n tables at most 2^64 to
    /// the n, a table named twice counting twice. Where cursors read their sources anew, this one has a source to read, of
    /// which it has read nothing yet. The ask is counted once more, and no other count rises.
    ///
    /// # Errors
    /// `Failed` on a fault, and the count of faults rose; `NoMemory`. Nothing is opened or counted then.
    fn start(&mut self, ask: &Ask) -> Result<u64, DriverError>
        requires { CanStart (state self.old) ask.now }
        ensures { Starts ask.now result (state self.old) (state self.new) };

    /// Appends the next rows of an open cursor, at least one and at most `most`, or answers false: no row is left. Where
    /// contents are told, it appends `most` rows, or all that are left. Where they are not, an ask with tests, or of a
    /// statement with WHERE, may answer false while more rows were possible, and none is left from then on. A driver that
    /// reads the source anew appends rows only where what it read states of its type what it stated when it was attached, and
    /// answers false only where all of it was read, with as many bytes and rows as then, and the same statement of its type
    /// or none. The count of rows handed rises by the number of rows appended.
    ///
    /// # Errors
    /// After an error the cursor is closed, and `into` is as before.
    /// - `Failed`: a fault, and the count of faults rose.
    /// - `Changed`: contents are not told, the source is not what it was when it was attached, and the count of drifts rose.
    ///   - `Bytes` tells how many bytes there were, and how many were read up to the end, behind all rows; or, where there
    ///     are more than are looked at, one more than these.
    ///   - `Count` tells how many rows there were, and how many were read up to the end; or, where there are more than there
    ///     were, one more.
    ///   - `Unread` tells the byte from which on what was read is no text of rows, or where it nests too deep.
    ///   - `Misfit` tells the number, from 0 on, of the row that lacks the type.
    ///   - `Header` tells the type that the source stated, or that it stated none, and what it states in its place.
    ///
    ///   What is told lies ahead of the rows that this cursor handed, unless its ask has tests.
    /// - `NoMemory`.
    fn pull(&mut self, cursor: u64, most: u32, into: &mut Vec<Value>) -> Result<bool, DriverError>
        requires is_open { IsSome ((state self.old).cursors cursor) }
        requires room { 0 < most }
        ensures { Pulls cursor most into.old.items into.new.items result (state self.old) (state self.new) };

    /// Closes an open cursor. No count rises. Takes no memory.
    fn finish(&mut self, cursor: u64)
        requires { IsSome ((state self.old).cursors cursor) }
        ensures { Finishes cursor (state self.old) (state self.new) };

    /// How many cursors were started. The count stands still at its greatest value.
    fn starts(&self) -> u64
        ensures { result ≡ min (all_times (state self.now).asked) (2 ^ 64 - 1) };

    /// How many rows were handed. The count stands still at its greatest value.
    fn handed(&self) -> u64
        ensures { result ≡ (state self.now).handed };
}
