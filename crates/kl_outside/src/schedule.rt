ghost use Rattle.std.specs.Prelude.{◌≡◌, ◌≤◌, [], MatchResult};
ghost use Rattle.kl_outside.specs.Schedule.{Calls, is_next_listed, list_call, fail_call, make_call};

use kl_base::NoMemory;
use std::alloc::Global;
use std::marker::Model;

/// Calls that are listed to fail, and how many calls were made and failed.
#[derive(Drop)]
pub struct Schedule {
    listed: Vec<u64>,
    made: u64,
    faults: u64,
}

impl Model for Schedule {
    ghost Value = { Calls };

    ghost view = { λ s. record { listed = s.listed.items; made = s.made; faults = s.faults } };
}

impl Schedule {
    pub fn new(alloc: Global) -> Schedule
        ensures { result ≡ record { listed = []; made = 0; faults = 0 } }
    {
        Schedule {
            listed: Vec::new(alloc),
            made: 0,
            faults: 0,
        }
    }

    /// Has a call fail, counted from 1.
    pub fn list(&mut self, call: u64) -> Result<(), NoMemory>
        ensures { MatchResult result (λ _. self.new ≡ list_call call self.old) (λ _. self.new ≡ self.old) }
    {
        self.listed.push(call)?;
        Ok(())
    }

    /// Counts a call, and answers whether it is listed.
    pub fn make_call(&mut self) -> bool
        ensures listed { result ≡ is_next_listed self.old }
        ensures made { self.new ≡ make_call self.old }
    {
        self.made = self.made.saturating_add(1);
        self.listed.contains(&self.made)
    }

    /// Counts a fault.
    pub fn fail_call(&mut self)
        ensures faults { self.new ≡ fail_call self.old }
        ensures later { self.old.faults ≤ self.new.faults }
    {
        self.faults = self.faults.saturating_add(1);
    }
}
