//! The search at one place.
ghost use Rattle.std.specs.Prelude.{◌≡◌, ◌≤◌, IfOk};
ghost use Rattle.kl_core.specs.Trees.{view};
ghost use Rattle.kl_rewrite.specs.RuleForms.{first_rule, behind_rules};
ghost use Rattle.kl_rewrite.specs.Searched.{IsSearchable, Given, Tried, Found};

use kl_base::NoMemory;
use kl_core::{Term, depth, nodes};
use kl_rules::{exchange, promote, rule};
use std::alloc::Global;

/// A term may nest so deep while it is rewritten.
const MOST_DEPTH: u64 = 512;

/// How many nodes a result may have more than what it replaces, and up to how many it is known of the parts passed over that
/// no rule makes anything there.
#[derive(Drop)]
pub struct Allowance {
    pub room: u64,
    pub calm: u64,
}

impl Allowance {
    /// Puts what the lowest rule makes of the term, which stands at the level, in its place, where that keeps the limits.
    ///
    /// # Errors
    /// Want of memory.
    pub fn find(&mut self, alloc: Global, term: &mut Term, level: u64) -> Result<bool, NoMemory>
        requires searchable { IsSearchable self.old.room level (view term.old) }
        requires least { self.old.room ≤ self.old.calm }
        ensures { IfOk result (λ b. Found level term.old term.new b self.old self.new) }
    {
        let (from, to) = numbers_of(term);
        'rules: for number in from..to {
            if self.tried(alloc, number, term, level)? {
                return Ok(true);
            }
        }
        Ok(false)
    }

    // Puts what the rule makes in place of the term, where that keeps the limits. The rules that move parts keep the number of
    // nodes.
    fn tried(
        &mut self,
        alloc: Global,
        number: u8,
        term: &mut Term,
        level: u64,
    ) -> Result<bool, NoMemory>
        requires searchable { IsSearchable self.old.room level (view term.old) }
        requires least { self.old.room ≤ self.old.calm }
        ensures { IfOk result (λ b. Tried level number term.old term.new b self.old self.new) }
    {
        match number {
            3 => promote(alloc, term, MOST_DEPTH - level),
            17 => Ok(exchange(term, MOST_DEPTH - level)),
            _ => self.replaced(alloc, number, term, level),
        }
    }

    fn replaced(
        &mut self,
        alloc: Global,
        number: u8,
        term: &mut Term,
        level: u64,
    ) -> Result<bool, NoMemory>
        requires searchable { IsSearchable self.old.room level (view term.old) }
        requires least { self.old.room ≤ self.old.calm }
        ensures { IfOk result (λ b. Tried level number term.old term.new b self.old self.new) }
    {
        match self.made(alloc, number, term, level)? {
            Some(next) => {
                *term = next;
                Ok(true)
            }
            None => Ok(false),
        }
    }

    // What the rule makes, where that keeps the limits.
    fn made(
        &mut self,
        alloc: Global,
        number: u8,
        term: &Term,
        level: u64,
    ) -> Result<Option<Term>, NoMemory>
        requires searchable { IsSearchable self.old.room level (view term.now) }
        requires least { self.old.room ≤ self.old.calm }
        ensures { IfOk result (λ o. Given level number (view term.now) o self.old self.new) }
    {
        let next = match rule(alloc, number, term)? {
            Some(next) => next,
            None => return Ok(None),
        };
        if depth(&next) > MOST_DEPTH - level {
            return Ok(None);
        }
        let before = nodes(term);
        let after = nodes(&next);
        if after > before + self.room {
            self.calm = self.calm.min(after - before - 1);
            return Ok(None);
        }
        self.room = self.room + before - after;
        Ok(Some(next))
    }
}

// The rules that may fit a term of its form: those from the first number up to the second, which is left out.
fn numbers_of(term: &Term) -> (u8, u8)
    ensures first { result.0 ≡ first_rule (view term.now) }
    ensures behind { result.1 ≡ behind_rules (view term.now) }
{
    match term {
        Term::Ext(_, _, _) => (1, 8),
        Term::Union(_, _) => (2, 3),
        Term::Let(_, _) => (8, 13),
        Term::Proj(_, _) => (13, 14),
        Term::Case(_, _, _) => (14, 15),
        Term::If(_, _, _) => (15, 18),
        Term::Var(_)
        | Term::Const(_)
        | Term::Source(_)
        | Term::Rec(_)
        | Term::Inj(_, _)
        | Term::Make(_, _)
        | Term::Prim(_, _) => (0, 0),
    }
}
