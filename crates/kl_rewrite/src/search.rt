//! The search for the first place at which a rule makes something.
ghost use Rattle.std.specs.Prelude.{◌≡◌, ◌^◌, ◌<◌, IfOk, length, reverse, true};
ghost use Rattle.std.specs.Option.{option_copied, option_map};
ghost use Rattle.kl_core.specs.Trees.{view, rest_of, trees_view, parts_view};
ghost use Rattle.kl_rewrite.specs.Places.{tree_at, field_at, arm_at, part_at, with_tree, with_field, with_arm, with_part};
ghost use Rattle.kl_rewrite.specs.Beyond.{is_beyond, stays_tested, stays_drawn, behind_test};
ghost use Rattle.kl_rewrite.specs.Searched.{Found, IsTraced, Searched, IsOpen, IsTrailIn, SearchedPart, AreOpen, SearchedAll, AfterNone, Behind};

use crate::place::Allowance;
use kl_base::{Box, NoMemory};
use kl_core::{Term, TermFields, Terms};
use std::alloc::Global;

/// The state of the search. A place is the path of the numbers of parts that lead to it, level by level. The path to a step is
/// kept with its last number first, and is the trail of the next search: in the parts before the trail no rule makes
/// anything, so they are passed over.
#[derive(Drop)]
pub struct Search {
    pub alloc: Global,
    pub allowance: Allowance,
    pub path: Vec<usize>,
}

impl Search {
    /// Makes the first step in the term, which stands at the level, if there is one.
    ///
    /// # Errors
    /// Want of memory.
    #[cycle(step)]
    pub fn step(&mut self, term: &mut Term, trail: &[usize], level: u64) -> Result<bool, NoMemory>
        requires traced { IsTraced level (view term.old) trail.now self.old }
        ensures { IfOk result (λ b. Searched level (view term.old) (view term.new) b self.old self.new) }
    {
        if self.here(term, trail, level)? {
            return Ok(true);
        }
        self.parts(term, trail, level + 1)
    }

    // At the term itself. Where the last step was made beyond what the rules see there, none fits that did not before it.
    fn here(&mut self, term: &mut Term, trail: &[usize], level: u64) -> Result<bool, NoMemory>
        requires traced { IsTraced level (view term.old) trail.now self.old }
        ensures found { IfOk result (λ b. Found level term.old term.new b self.old.allowance self.new.allowance) }
        ensures path { self.new.path ≡ self.old.path }
    {
        if is_beyond(term, trail) {
            return Ok(false);
        }
        self.allowance.find(self.alloc, term, level)
    }

    // In the parts of a term, which stand at the level.
    #[cycle(step)]
    fn parts(&mut self, term: &mut Term, trail: &[usize], level: u64) -> Result<bool, NoMemory>
        requires ready { AreOpen part_at level 0 (view term.old) trail.now self.old }
        ensures { IfOk result (λ b. SearchedAll part_at with_part level 0 (view term.old) (view term.new) b self.old self.new) }
    {
        match term {
            Term::Var(_) | Term::Const(_) | Term::Source(_) => Ok(false),
            Term::Rec(fields) => self.labelled(Ok(false), 0, fields, trail, level),
            Term::Proj(_, a) => self.part(0, a, trail, level),
            Term::Inj(_, a) => self.part(0, a, trail, level),
            Term::Case(a, branches, other) => {
                let count = branches.slice().len();
                let subject = self.part(0, a, trail, level);
                let branch = self.labelled(subject, 1, branches, trail, level);
                self.other(branch, count + 1, other, trail, level)
            }
            Term::Make(_, terms) => self.all(terms, trail, level),
            Term::Union(a, b) => {
                let first = self.part(0, a, trail, level);
                self.next(first, 1, b, trail, level)
            }
            Term::Ext(_, body, source) => {
                let first = self.part(0, body, trail, level);
                self.next(first, 1, source, trail, level)
            }
            Term::If(a, b, c) => {
                let first = self.part(0, a, trail, level);
                let second = self.next(first, 1, b, trail, level);
                self.next(second, 2, c, trail, level)
            }
            Term::Let(a, b) => {
                let first = self.part(0, a, trail, level);
                self.next(first, 1, b, trail, level)
            }
            Term::Prim(_, terms) => self.all(terms, trail, level),
        }
    }

    // In the part with the number, unless the trail is past it.
    #[cycle(step)]
    fn at(
        &mut self,
        number: usize,
        part: &mut Term,
        trail: &[usize],
        level: u64,
    ) -> Result<bool, NoMemory>
        requires ready { IsOpen level number (view part.old) trail.now self.old }
        ensures { IfOk result (λ b. SearchedPart level number (view part.old) (view part.new) b self.old self.new) }
    {
        match trail_in(number, trail) {
            Some(rest) => {
                if self.step(part, rest, level)? {
                    self.path.push(number)?;
                    return Ok(true);
                }
                Ok(false)
            }
            None => Ok(false),
        }
    }

    #[cycle(step)]
    fn part(
        &mut self,
        number: usize,
        part: &mut Box<Term>,
        trail: &[usize],
        level: u64,
    ) -> Result<bool, NoMemory>
        requires ready { IsOpen level number (view part.old) trail.now self.old }
        ensures { IfOk result (λ b. SearchedPart level number (view part.old) (view part.new) b self.old self.new) }
    {
        self.at(number, part.get_mut(), trail, level)
    }

    // These take what came of the parts before theirs, so that the search in a term ends in one place for each form.
    #[cycle(step)]
    fn next(
        &mut self,
        before: Result<bool, NoMemory>,
        number: usize,
        part: &mut Box<Term>,
        trail: &[usize],
        level: u64,
    ) -> Result<bool, NoMemory>
        requires ready { AfterNone before (IsOpen level number (view part.old) trail.now self.old) }
        ensures { IfOk result (Behind before (view part.old) (view part.new) self.old self.new
            (λ b. SearchedPart level number (view part.old) (view part.new) b self.old self.new)) }
    {
        if before? {
            return Ok(true);
        }
        self.at(number, part.get_mut(), trail, level)
    }

    #[cycle(step)]
    fn other(
        &mut self,
        before: Result<bool, NoMemory>,
        number: usize,
        other: &mut Option<Box<Term>>,
        trail: &[usize],
        level: u64,
    ) -> Result<bool, NoMemory>
        requires ready { AfterNone before (AreOpen arm_at level number (rest_of (option_map view other.old)) trail.now self.old) }
        ensures { IfOk result (Behind before (rest_of (option_map view other.old)) (rest_of (option_map view other.new)) self.old self.new
            (λ b. SearchedAll arm_at with_arm level number (rest_of (option_map view other.old)) (rest_of (option_map view other.new))
            b self.old self.new)) }
    {
        if before? {
            return Ok(true);
        }
        match other {
            Some(part) => self.at(number, part.get_mut(), trail, level),
            None => Ok(false),
        }
    }

    #[cycle(step)]
    fn all(&mut self, terms: &mut Terms, trail: &[usize], level: u64) -> Result<bool, NoMemory>
        requires ready { AreOpen tree_at level 0 (trees_view terms.old) trail.now self.old }
        ensures { IfOk result (λ b. SearchedAll tree_at with_tree level 0 (trees_view terms.old)
            (trees_view terms.new) b self.old self.new) }
    {
        let terms = terms.slice_mut();
        'terms: for i in 0..terms.len() {
            if self.at(i, &mut terms[i], trail, level)? {
                return Ok(true);
            }
        }
        Ok(false)
    }

    // The first of the parts has the number.
    #[cycle(step)]
    fn labelled(
        &mut self,
        before: Result<bool, NoMemory>,
        number: usize,
        parts: &mut TermFields,
        trail: &[usize],
        level: u64,
    ) -> Result<bool, NoMemory>
        requires low { number < 2 ^ 32 }
        requires ready { AfterNone before (AreOpen field_at level number (parts_view parts.old) trail.now self.old) }
        ensures { IfOk result (Behind before (parts_view parts.old) (parts_view parts.new) self.old self.new
            (λ b. SearchedAll field_at with_field level number (parts_view parts.old) (parts_view parts.new) b self.old self.new)) }
    {
        if before? {
            return Ok(true);
        }
        let parts = parts.slice_mut();
        'parts: for i in 0..parts.len() {
            if self.at(number + i, &mut parts[i].1, trail, level)? {
                return Ok(true);
            }
        }
        Ok(false)
    }
}

// Whether the trail leads beyond what the rules see at the term.
fn is_beyond(term: &Term, trail: &[usize]) -> bool
    ensures { result ≡ true → is_beyond (reverse trail.now) (view term.now) ≡ true }
{
    if trail.len() < 2 {
        return false;
    }
    let first = trail[trail.len() - 1];
    let second = trail[trail.len() - 2];
    match term {
        Term::If(test, inside, _) => {
            first == 1 && stays_tested(test.get()) && is_behind_test(inside.get(), second)
        }
        Term::Ext(_, body, source) => {
            first == 0 && stays_drawn(source.get()) && is_behind_test(body.get(), second)
        }
        _ => false,
    }
}

fn stays_tested(test: &Term) -> bool
    ensures { result ≡ stays_tested (view test.now) }
{
    !matches!(test, Term::Const(_) | Term::If(_, _, _))
}

fn stays_drawn(source: &Term) -> bool
    ensures { result ≡ stays_drawn (view source.now) }
{
    !matches!(
        source,
        Term::Ext(_, _, _) | Term::If(_, _, _) | Term::Let(_, _)
    )
}

fn is_behind_test(term: &Term, number: usize) -> bool
    ensures { result ≡ behind_test (view term.now) number }
{
    match term {
        Term::If(_, _, _) => number == 1,
        _ => true,
    }
}

// The rest of the trail in the part with the number, none where the part is before the trail.
fn trail_in(number: usize, trail: &[usize]) -> Option<&[usize]>
    ensures { IsTrailIn number trail.now (option_copied result) }
{
    if trail.is_empty() {
        return Some(trail);
    }
    let last = trail.len() - 1;
    if number < trail[last] {
        return None;
    }
    if number == trail[last] {
        return Some(&trail[..last]);
    }
    Some(&trail[..0])
}
