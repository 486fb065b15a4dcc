//! What the walk through a program finds.
ghost use Rattle.std.specs.Prelude.{◌≡◌, [], map, true, false, replicate, IfOk};
ghost use Rattle.std.specs.BTreeSet.{Updates, contains};
ghost use Rattle.kl_base.specs.Fields.{bytes_cmp};
ghost use Rattle.kl_scope.specs.declared.refusal.ScopeError.TheVariants.{Twice};
ghost use Rattle.kl_syntax.specs.declared.tree.Branch.{out-Branch};
ghost use Rattle.kl_syntax.specs.View.{pattern_view, patterns_view};
ghost use Rattle.kl_scope.specs.Ranks.{token_of, rule_of};
ghost use Rattle.kl_scope.specs.Findings.{breach, mention, used, repeated, may_fail, only_if};
ghost use Rattle.kl_scope.specs.Gathering.{noted, gathered, is_before};
ghost use Rattle.kl_scope.specs.Patterns.{tests, tests_all};
ghost use Rattle.kl_scope.specs.Resolved.{meant};
ghost use Rattle.kl_scope.specs.Senses.{behind_each};

use crate::names::Sense;
use crate::refusal::ScopeError;
use kl_base::{Label, NoMemory};
use kl_syntax::{Branch, Meaning, Pattern, Word};
use std::alloc::Global;
use std::collections::BTreeSet;
use std::marker::Model;

/// The first breach so far, and which sources are named.
#[derive(Drop)]
pub struct Findings {
    first: Option<ScopeError>,
    mentioned: Vec<bool>,
}

impl Model for Findings {
    ghost use Rattle.kl_scope.specs.Gathering.{Gathered};

    ghost Value = { Gathered };

    ghost view = { λ f. record { first = f.first; marks = f.mentioned.items } };
}

impl Findings {
    /// Nothing yet, of so many sources.
    pub fn new(alloc: Global, sources: usize) -> Result<Findings, NoMemory>
        ensures { IfOk result (λ f. f ≡ record { first = None; marks = replicate sources false }) }
    {
        Ok(Findings {
            first: None,
            mentioned: vec![in alloc; false; sources]?,
        })
    }

    /// The first breach, or the table of the sources that are named.
    pub fn into_parts(self) -> (Option<ScopeError>, Vec<bool>)
        ensures first { result.0 ≡ self.first }
        ensures marks { result.1.items ≡ self.marks }
    {
        let Findings { first, mentioned } = self;
        (first, mentioned)
    }

    fn breach(&mut self, error: ScopeError)
        ensures { self.new ≡ noted self.old (breach error) }
    {
        let is_first = match &self.first {
            Some(first) => is_before(&error, first),
            None => true,
        };
        if is_first {
            self.first = Some(error);
        }
    }

    fn mention(&mut self, source: u32)
        ensures { self.new ≡ noted self.old (mention source) }
    {
        let source = source as usize;
        if source < self.mentioned.len() {
            self.mentioned[source] = true;
        }
    }

    /// Writes into a name what it means, and finds what is wrong with it where it has so many arguments.
    pub fn name(
        &mut self,
        sense: Option<Sense>,
        word: &mut Word,
        given: usize,
    ) -> Result<(), NoMemory>
        ensures meant { IfOk result (λ _. word.new ≡ meant sense word.old) }
        ensures found { IfOk result (λ _. self.new ≡ gathered self.old (used sense word.old given)) }
    {
        match sense {
            Some(sense) => {
                word.means = sense.means;
                if let Meaning::Source(source) = sense.means {
                    self.mention(source);
                }
                if usize::from(sense.takes) != given {
                    let name = word.text.dup()?;
                    let token = word.token;
                    self.breach(ScopeError::Misapplied { name, token });
                }
            }
            None => {
                let name = word.text.dup()?;
                let token = word.token;
                self.breach(ScopeError::Unknown { name, token });
            }
        }
        Ok(())
    }

    /// Finds each word that stands among those before it.
    pub fn repeats(&mut self, alloc: Global, words: &[&Word]) -> Result<(), NoMemory>
        ensures { IfOk result (λ _. self.new ≡ gathered self.old (repeated [] (behind_each words.now))) }
    {
        let mut before = BTreeSet::new(alloc);
        'words: for word in words {
            self.look(&mut before, word)?;
        }
        Ok(())
    }

    // Finds the word where it is among those before it, and puts it there.
    fn look(&mut self, before: &mut BTreeSet<Label>, word: &Word) -> Result<(), NoMemory>
        ensures before { IfOk result (λ _. Updates bytes_cmp before.old before.new word.now.text true) }
        ensures found { IfOk result (λ _. self.new ≡ gathered self.old
            (only_if (contains bytes_cmp before.old word.now.text) (breach (Twice word.now.text word.now.token)))) }
    {
        if before.insert(word.text.dup()?)? {
            Ok(())
        } else {
            self.twice(word)
        }
    }

    /// Finds each label of a record that stands among those before it.
    pub fn labels<T>(&mut self, alloc: Global, fields: &[(Word, T)]) -> Result<(), NoMemory>
        ensures { IfOk result (λ _. self.new ≡ gathered self.old (repeated [] (map (λ f. f.0) fields.now))) }
    {
        let mut words = Vec::with_capacity(alloc, fields.len())?;
        'fields: for field in fields {
            words.push(&field.0)?;
        }
        self.repeats(alloc, &words)
    }

    /// The same of the branches of a `case`.
    pub fn branch_labels(&mut self, alloc: Global, branches: &[Branch]) -> Result<(), NoMemory>
        ensures { IfOk result (λ _. self.new ≡ gathered self.old (repeated [] (map (λ b. (out-Branch b).label) branches.now))) }
    {
        let mut words = Vec::with_capacity(alloc, branches.len())?;
        'branches: for branch in branches {
            words.push(&branch.label)?;
        }
        self.repeats(alloc, &words)
    }

    /// Finds that the word stands twice.
    pub fn twice(&mut self, word: &Word) -> Result<(), NoMemory>
        ensures { IfOk result (λ _. self.new ≡ noted self.old (breach (Twice word.now.text word.now.token))) }
    {
        let name = word.text.dup()?;
        let token = word.token;
        self.breach(ScopeError::Twice { name, token });
        Ok(())
    }

    /// Finds the parts of a pattern that may fail to match.
    #[cycle(tests)]
    pub fn tests(&mut self, pattern: &Pattern)
        ensures { self.new ≡ gathered self.old (map may_fail (tests (pattern_view pattern.now))) }
    {
        match pattern {
            Pattern::Bind(_) | Pattern::Any => {}
            Pattern::Same(word) => self.may_fail(word.token),
            Pattern::Is(_, token) => self.may_fail(*token),
            Pattern::Rec(fields, _) => self.tests_all(fields.slice()),
            Pattern::Inj(label, inner) => {
                self.may_fail(label.token.saturating_sub(1));
                self.tests(inner.get());
            }
        }
    }

    #[cycle(tests)]
    fn tests_all(&mut self, fields: &[(Word, Pattern)])
        ensures { self.new ≡ gathered self.old (map may_fail (tests_all (patterns_view fields.now))) }
    {
        'fields: for field in fields {
            self.tests(&field.1);
        }
    }

    fn may_fail(&mut self, token: u32)
        ensures { self.new ≡ noted self.old (may_fail token) }
    {
        self.breach(ScopeError::Refutable { token });
    }
}

/// Whether an error stands before another one.
fn is_before(error: &ScopeError, other: &ScopeError) -> bool
    ensures { result ≡ is_before error.now other.now }
{
    let token = token_of(error);
    let other_token = token_of(other);
    token < other_token || token == other_token && rule_of(error) < rule_of(other)
}

fn token_of(error: &ScopeError) -> u32
    ensures { result ≡ token_of error.now }
{
    match error {
        ScopeError::Unknown { token, .. }
        | ScopeError::Twice { token, .. }
        | ScopeError::Misapplied { token, .. }
        | ScopeError::Refutable { token } => *token,
        ScopeError::NoMemory => 0,
    }
}

// Its number in the list of errors.
fn rule_of(error: &ScopeError) -> u8
    ensures { result ≡ rule_of error.now }
{
    match error {
        ScopeError::Unknown { .. } => 1,
        ScopeError::Twice { .. } => 2,
        ScopeError::Misapplied { .. } => 3,
        ScopeError::Refutable { .. } => 4,
        ScopeError::NoMemory => 5,
    }
}
