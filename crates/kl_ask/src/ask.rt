//! What drivers are asked.
ghost use Rattle.std.specs.Prelude.{◌≡◌};
ghost use Rattle.kl_ask.specs.declared.ask.DriverError.TheVariants.{NoMemory as WantOfMemory};

use kl_base::{Box, Label, NoMemory, Seq, Text};
use kl_type::Ty;
use kl_value::Value;
use std::alloc::{AllocError, AllocFailed};

/// What a driver can do beside handing whole rows.
#[derive(Clone, Copy, PartialEq, Eq)]
pub struct Abilities {
    /// It tests rows.
    pub select: bool,
    /// It leaves columns out.
    pub project: bool,
    /// It joins its sources, by a statement of SQL.
    pub join: bool,
    /// A set source of it repeats no row, which `Driver::attach` says where contents are told.
    pub unique: bool,
}

/// A comparison, by the order of values.
#[derive(Clone, Copy, PartialEq, Eq)]
pub enum Cmp {
    Eq,
    Ne,
    Lt,
    Le,
    Gt,
    Ge,
}

/// What a column is compared with.
#[derive(Drop, PartialEq, Eq)]
pub enum Right {
    /// Another column of the row.
    Col(Label),
    /// A constant.
    Const(Value),
}

/// A test of a row: its column stands so to the right side.
#[derive(Drop, PartialEq, Eq)]
pub struct ColTest {
    pub left: Label,
    pub op: Cmp,
    pub right: Right,
}

/// What a driver is asked for.
#[derive(Drop, PartialEq, Eq)]
pub enum Ask {
    /// The rows of a source that pass all tests, each with the columns that are kept, which stand in rising order. Where
    /// the rows are no records, none is kept and whole values are handed.
    Rows {
        source: Label,
        keep: Seq<Label>,
        tests: Seq<ColTest>,
    },
    /// The rows that a statement of SQL means, as `read_sql` of `kl_sqltext` reads it.
    Sql {
        text: Text,
    },
}

/// What a source states of its type.
#[derive(Drop, PartialEq, Eq)]
pub enum Head {
    /// Nothing.
    Absent,
    /// The type of its items.
    Stated(Ty),
}

/// What was found to have changed since a source was attached.
#[derive(Drop, PartialEq, Eq)]
pub enum Drift {
    /// It had so many bytes, and has others.
    Bytes { kept: u64, found: u64 },
    /// It had so many items, and has others.
    Count { kept: u64, found: u64 },
    /// What stands at this byte is no exchange text any more, or nests too deep.
    Unread { place: u64 },
    /// The item of this number, counted from 0, lacks the type.
    Misfit { item: u64 },
    /// It stated one type, or none, and states another or none. In boxes, since all that may end an evaluation has room for a
    /// drift.
    Header { kept: Box<Head>, found: Box<Head> },
}

/// Why a driver refuses.
#[derive(Drop, PartialEq, Eq)]
pub enum DriverError {
    /// A file is missing or could not be read.
    Failed,
    /// The source is unreadable as its type: from this byte on, or, of a table, at the record of this number, the header
    /// being 0.
    BadSource { place: u64 },
    /// The source has more than so many bytes.
    TooLong { most: u64 },
    /// An item of the source has a bracket inside 256 others, at this byte.
    TooDeep { place: u64 },
    /// The source is not what it was when it was attached.
    Changed { drift: Drift },
    /// Want of memory.
    NoMemory,
}

impl From<NoMemory> for DriverError {
    ghost from_gives = { λ _ e. e ≡ WantOfMemory };

    fn from(_error: NoMemory) -> DriverError {
        DriverError::NoMemory
    }
}

impl From<AllocError> for DriverError {
    ghost from_gives = { λ _ e. e ≡ WantOfMemory };

    fn from(_error: AllocError) -> DriverError {
        DriverError::NoMemory
    }
}

impl<T: Drop> From<AllocFailed<T>> for DriverError {
    ghost from_gives = { λ _ e. e ≡ WantOfMemory };

    fn from(_error: AllocFailed<T>) -> DriverError {
        DriverError::NoMemory
    }
}
