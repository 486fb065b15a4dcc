//! What plans are run over.
ghost use Rattle.std.specs.Prelude.{◌≡◌, ◌<◌, true};
ghost use Rattle.std.specs.List.{Contains};
ghost use Rattle.kl_core.specs.Trees.{view};
ghost use Rattle.kl_eval.specs.Evals.{SensePlain, TellsPart, TellsPlain};
ghost use Rattle.kl_eval.specs.Values.{arg_in, values};
ghost use Rattle.kl_lookups.specs.Lookups.{has};
ghost use Rattle.kl_scans.specs.Held.{Owned, one_at};
ghost use Rattle.kl_scans.specs.Keeping.{subquery};
ghost use Rattle.kl_scans.specs.Moves.{Closes};
ghost use Rattle.kl_scans.specs.Over.{IsSomeEntry, IsUndriven, IsUndrivenPart, Keeps, MayKeep, Recalls, TellsEntry};
ghost use Rattle.kl_scans.specs.Right.{IsReadyRun};
ghost use Rattle.kl_scans.specs.Running.{session};
ghost use Rattle.kl_scans.specs.Same.{same_subquery};
ghost use Rattle.kl_scans.specs.Scans.{CanScan, IsOpen, Starts, Pulls};
ghost use Rattle.kl_scans.specs.Stage.{RepeatsNone, stage};

use kl_ask::JoinRun;
use kl_base::NoMemory;
use kl_core::Term;
use kl_eval::{Env, EvalStop, Halt, part, plain};
use kl_memo::MemoKey;
use kl_plan::Scan;
use kl_prim::Arg;
use kl_scans::{
    Ran, Run, finish_scan, keep, kept_value, pull_scan, ran, recall, repeats_none, start_scan,
};
use kl_value::Value;
use std::alloc::Global;

/// What gives the rows of scans, some at a time, the values of parts without sources, and what is kept of subqueries.
///
/// It stands here with its impl: of an impl from another crate a caller does not know that it makes no driver.
pub trait Scans: Ran {
    /// How many rows are pulled at once.
    fn fetch(&self) -> u32
        ensures { result ≡ (Self.world self.now).settings.fetch };

    /// The most rows that a block of a join holds.
    fn block(&self) -> u32
        ensures { result ≡ (Self.world self.now).settings.block };

    /// Whether a value is kept under a key. Where one is, that is counted, and the value is used. Takes no memory.
    fn recall(&mut self, key: &MemoKey) -> bool
        ensures { Recalls (subquery key.now) result (Self.world self.old) (Self.world self.new) };

    /// The value that is kept under a key, lent; nothing is counted.
    fn kept(&self, key: &MemoKey) -> &Value
        requires { has same_subquery (subquery key.now) (Self.world self.now).kept ≡ true }
        ensures { Contains (Self.world self.now).kept (subquery key.now, result.now) };

    /// Keeps a value under a key that was looked up and not found, and counts that.
    ///
    /// # Errors
    /// Want of memory; nothing is kept or counted then.
    fn keep(&mut self, key: MemoKey, value: Value) -> Result<(), NoMemory>
        requires { MayKeep (subquery key) value (Self.world self.old) }
        ensures { Keeps (subquery key) value result (Self.world self.old) (Self.world self.new) };

    /// Counts an execution of a join that has ended, of whose blocks the greatest had so many rows.
    ///
    /// # Errors
    /// Want of memory; nothing is counted then.
    fn ran(&mut self, alloc: Global, entry: JoinRun, peak: u32) -> Result<(), NoMemory>
        requires { IsSomeEntry (Self.world self.old).settings.block entry peak }
        ensures { TellsEntry entry peak result (Self.world self.old) (Self.world self.new) };

    /// Opens a cursor of a scan, as `start_scan` does.
    ///
    /// # Errors
    /// Those of `start_scan`.
    fn start(&mut self, scan: &Scan) -> Result<u64, EvalStop>
        requires { CanScan (Self.world self.old) scan.now }
        ensures { Starts scan.now result (Self.world self.old) (Self.world self.new) };

    /// Appends the next rows of a cursor of a scan, as `pull_scan` does.
    ///
    /// # Errors
    /// Those of `pull_scan`.
    fn pull(&mut self, scan: &Scan, cursor: u64, into: &mut Vec<Value>) -> Result<bool, EvalStop>
        requires scan { CanScan (Self.world self.old) scan.now }
        requires is_open { IsOpen (Self.world self.old) scan.now cursor }
        requires room { 0 < (Self.world self.old).settings.fetch }
        ensures { Pulls scan.now cursor into.old.items into.new.items result (Self.world self.old) (Self.world self.new) };

    /// Closes a cursor of a scan. Takes no memory.
    fn finish(&mut self, scan: &Scan, cursor: u64)
        requires { Owned (one_at scan.now.driver cursor) (Self.world self.old) }
        ensures { Closes (one_at scan.now.driver cursor) (Self.world self.old) (Self.world self.new) };

    /// Whether a scan is one of whole rows of a set that repeats none, as `repeats_none` tells. Takes no memory.
    fn repeats_none(&self, scan: &Scan) -> bool
        requires ready { IsReadyRun (Self.world self.now) }
        requires scan { CanScan (Self.world self.now) scan.now }
        ensures yes { result ≡ true → RepeatsNone (stage (Self.world self.now)) scan.now }
        ensures no { RepeatsNone (stage (Self.world self.now)) scan.now → result ≡ true };

    /// The value of a term in which no source stands. Nothing is read, so no driver stops it.
    ///
    /// # Errors
    /// An overflow and want of memory, as of `kl_eval::plain`.
    fn plain(&mut self, alloc: Global, term: &Term, env: &Env) -> Result<Value, Halt>
        requires { SensePlain (view term.now) (values env.now) (session (Self.world self.old)) }
        ensures same { Self.world self.new ≡ Self.world self.old }
        ensures gives { TellsPlain (session (Self.world self.old)) (view term.now) (values env.now) result }
        ensures undriven { IsUndriven result };

    /// The same where the term is a part: lent where it stands in the term or in the environment.
    ///
    /// # Errors
    /// Those of `plain`.
    fn part<'a>(
        &mut self,
        alloc: Global,
        term: &'a Term,
        env: &'a Env<'a>,
    ) -> Result<Arg<'a>, EvalStop>
        requires { SensePlain (view term.now) (values env.now) (session (Self.world self.old)) }
        ensures same { Self.world self.new ≡ Self.world self.old }
        ensures gives { TellsPart (session (Self.world self.old)) (view term.now) (values env.now) (arg_in result) }
        ensures undriven { IsUndrivenPart (arg_in result) };
}

impl<'p> Scans for Run<'p> {
    fn fetch(&self) -> u32 {
        self.session.settings.fetch
    }

    fn block(&self) -> u32 {
        self.session.settings.block
    }

    fn recall(&mut self, key: &MemoKey) -> bool {
        recall(self, key)
    }

    fn kept(&self, key: &MemoKey) -> &Value {
        kept_value(self, key)
    }

    fn keep(&mut self, key: MemoKey, value: Value) -> Result<(), NoMemory> {
        keep(self, key, value)
    }

    fn ran(&mut self, alloc: Global, entry: JoinRun, peak: u32) -> Result<(), NoMemory> {
        ran(self, alloc, entry, peak)
    }

    fn start(&mut self, scan: &Scan) -> Result<u64, EvalStop> {
        start_scan(self, scan)
    }

    fn pull(&mut self, scan: &Scan, cursor: u64, into: &mut Vec<Value>) -> Result<bool, EvalStop> {
        pull_scan(self, scan, cursor, into)
    }

    fn finish(&mut self, scan: &Scan, cursor: u64) {
        finish_scan(self, scan, cursor)
    }

    fn repeats_none(&self, scan: &Scan) -> bool {
        repeats_none(self, scan)
    }

    fn plain(&mut self, alloc: Global, term: &Term, env: &Env) -> Result<Value, Halt> {
        match plain(alloc, term, &*env, &mut self.session) {
            Ok(value) => Ok(value),
            Err(Halt::Over(items)) => Err(Halt::Over(items)),
            // No driver is asked where no source stands; `kl_eval` says only that the cause would be there already.
            Err(Halt::Driver { .. }) | Err(Halt::NoMemory) => Err(Halt::NoMemory),
        }
    }

    fn part<'a>(
        &mut self,
        alloc: Global,
        term: &'a Term,
        env: &'a Env<'a>,
    ) -> Result<Arg<'a>, EvalStop> {
        match part(alloc, term, env, &mut self.session) {
            Ok(value) => Ok(value),
            Err(EvalStop::Overflow) => Err(EvalStop::Overflow),
            Err(EvalStop::Driver { .. }) | Err(EvalStop::NoMemory) => Err(EvalStop::NoMemory),
        }
    }
}
