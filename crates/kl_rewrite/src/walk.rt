//! From one step to the next.
ghost use Rattle.std.specs.Prelude.{IfOk};
ghost use Rattle.kl_core.specs.Trees.{view};
ghost use Rattle.kl_rewrite.specs.Steps.{IsClosed, IsWithin};
ghost use Rattle.kl_rewrite.specs.Walking.{IsAt, Advances};

use crate::place::Allowance;
use crate::search::Search;
use kl_base::NoMemory;
use kl_core::{Term, nodes};
use std::alloc::Global;
use std::mem;

/// A term may have so many nodes while it is rewritten.
const MOST_NODES: u64 = 16_384;

/// The search in a term, with the trail to its last step.
#[derive(Drop)]
pub struct Walk {
    pub search: Search,
    pub trail: Vec<usize>,
}

impl Walk {
    /// Before the first step.
    pub fn new(alloc: Global, term: &Term) -> Walk
        requires closed { IsClosed (view term.now) }
        requires within { IsWithin (view term.now) }
        ensures { IsAt (view term.now) result }
    {
        let room = MOST_NODES - nodes(term);
        let allowance = Allowance {
            room,
            calm: MOST_NODES,
        };
        let search = Search {
            alloc,
            allowance,
            path: Vec::new(alloc),
        };
        Walk {
            search,
            trail: Vec::new(alloc),
        }
    }

    /// Makes the next step, if there is one. Where it leaves more room than the parts before the trail were searched for, the
    /// trail is given up.
    pub fn advance(&mut self, term: &mut Term) -> Result<bool, NoMemory>
        requires at { IsAt (view term.old) self.old }
        ensures { IfOk result (λ b. Advances (view term.old) (view term.new) b self.new) }
    {
        if !self.search.step(term, &self.trail, 0)? {
            return Ok(false);
        }
        let alloc = self.search.alloc;
        let path = mem::replace(&mut self.search.path, Vec::new(alloc));
        if self.search.allowance.room <= self.search.allowance.calm {
            self.trail = path;
        } else {
            self.search.allowance.calm = MOST_NODES;
            self.trail = Vec::new(alloc);
        }
        Ok(true)
    }
}
