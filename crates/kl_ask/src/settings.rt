//! How a program is run, and what is counted while it runs.
ghost use Rattle.std.specs.Prelude.{◌≡◌};
ghost use Rattle.kl_ask.specs.Settings.{usual_settings};
ghost use Rattle.kl_ask.specs.Trace.{IsBlank};

use kl_base::Seq;
use std::alloc::Global;

/// How a loop over a source inside another loop is joined.
#[derive(Clone, Copy, PartialEq, Eq)]
pub enum JoinHow {
    /// Rows of the outer loop are taken in blocks, and the inner source is read once for each.
    Block,
    /// The inner source is read once, and its rows are found by a key.
    Index,
}

/// How a program is run. No setting changes what it means.
#[derive(Clone, Copy, PartialEq, Eq)]
pub struct Settings {
    /// How many rows a block of a join holds: 1 to 65,536.
    pub block: u32,
    /// How many rows are pulled at once: 1 to 4,096.
    pub fetch: u32,
    /// How many answers of subqueries are kept: 0 to 4,096.
    pub cache: u32,
    /// How loops are joined.
    pub join: JoinHow,
    /// Whether the term is rewritten before it is run.
    pub rewrite: bool,
    /// Whether work is sent to the drivers that can do it.
    pub delegate: bool,
}

impl Settings {
    /// The settings of a run for which none are given.
    pub fn usual() -> Settings
        ensures { result ≡ usual_settings }
    {
        Settings {
            block: 256,
            fetch: 64,
            cache: 64,
            join: JoinHow::Index,
            rewrite: true,
            delegate: true,
        }
    }
}

/// One execution of a join.
#[derive(Clone, Copy, PartialEq, Eq)]
pub struct JoinRun {
    /// The number of the join.
    pub join: u32,
    /// How many rows of the outer loop passed the conditions of the join.
    pub outer: u64,
    /// How often the inner source was started.
    pub starts: u64,
}

/// What is counted while a program runs. A count whose mechanism does not run is 0 or empty.
#[derive(Drop, PartialEq, Eq)]
pub struct Trace {
    /// Steps of rewriting.
    pub steps: u32,
    /// How often each scan was started, by its number.
    pub starts: Seq<(u32, u64)>,
    /// The executions of joins.
    pub joins: Seq<JoinRun>,
    /// Look-ups in the cache of subqueries that found their answer.
    pub hits: u64,
    /// Look-ups in the cache of subqueries that found none, and whose value was then worked out and kept.
    pub misses: u64,
    /// The most rows that a block of a join held.
    pub peak: u32,
}

impl Trace {
    /// Nothing is counted yet. Takes no memory.
    pub fn new(alloc: Global) -> Trace
        ensures { IsBlank result }
    {
        Trace {
            steps: 0,
            starts: Seq::of(Vec::new(alloc)),
            joins: Seq::of(Vec::new(alloc)),
            hits: 0,
            misses: 0,
            peak: 0,
        }
    }
}
