//! What can be named at a place.
ghost use Rattle.std.specs.Prelude.{◌≡◌, ◌-◌, length, drop, is_some, IfOk, if◌then◌else◌, bytes_eq};
ghost use Rattle.std.specs.BTreeMap.{get};
ghost use Rattle.std.specs.Option.{option_or};
ghost use Rattle.kl_base.specs.Fields.{bytes_cmp};
ghost use Rattle.kl_syntax.specs.declared.tree.Meaning.TheVariants.{Source};
ghost use Rattle.kl_scope.specs.Senses as sense;
ghost use Rattle.kl_prim.specs.Table.{entry_of};
ghost use Rattle.kl_scope.specs.Senses.{Name, at_first, bound, all_bound, defined, by_name, primitive_of, entry_named};

use kl_base::{Label, NoMemory, Seq};
use kl_prim::{PrimRow, table};
use kl_syntax::{Meaning, Word};
use std::alloc::Global;
use std::collections::BTreeMap;
use std::marker::Model;

/// What a name means, and how many arguments it takes.
#[derive(Clone, Copy)]
pub struct Sense {
    pub means: Meaning,
    pub takes: u8,
}

/// A variable, and the level of the one of its name that it hides.
#[derive(Drop)]
struct Bound {
    name: Label,
    hidden: Option<usize>,
}

/// What can be named at a place. The level of a variable is the number of those that are bound outside it.
#[derive(Drop)]
pub struct Names {
    // The innermost last.
    variables: Vec<Bound>,
    // The levels of the variables that are not hidden.
    innermost: BTreeMap<Label, usize>,
    definitions: Vec<(Label, bool)>,
    sources: Seq<Label>,
    // The definitions and the sources.
    fixed: BTreeMap<Label, Sense>,
}

impl Model for Names {
    ghost use Rattle.std.specs.Prelude.{List, reverse};
    ghost use Rattle.kl_scope.specs.Senses.{Scope};
    ghost use Rattle.kl_scope.specs.Tables.{names_of, Kept};

    ghost Value = { Scope };

    ghost view = { λ n. record {
      variables = names_of
          (reverse n.variables.items);
      definitions = reverse n.definitions.items;
      sources = n.sources;
    } };

    ghost invariant = { λ n. Kept n.variables.items n.innermost n.definitions.items n.sources n.fixed };
}

impl Names {
    /// These sources alone.
    pub fn new(alloc: Global, sources: &[Label]) -> Result<Names, NoMemory>
        ensures { IfOk result (λ names. names ≡ at_first sources.now) }
    {
        let mut fixed = BTreeMap::new(alloc);
        let mut kept = Vec::with_capacity(alloc, sources.len())?;
        'sources: for i in 0..sources.len() {
            let name = &sources[i];
            add_source(&mut fixed, name, i)?;
            kept.push(name.dup()?)?;
        }
        Ok(Names {
            variables: Vec::new(alloc),
            innermost: BTreeMap::new(alloc),
            definitions: Vec::new(alloc),
            sources: Seq::of(kept),
            fixed,
        })
    }

    /// The sources, handed back.
    pub fn into_sources(self) -> Seq<Label>
        ensures { result ≡ self.sources }
    {
        let Names { sources, .. } = self;
        sources
    }

    /// How many variables there are.
    pub fn depth(&self) -> usize
        ensures { result ≡ length self.now.variables }
    {
        self.variables.len()
    }

    /// What a name stands for that has no arguments.
    pub fn named(&self, name: &Label) -> Option<Sense>
        ensures { result ≡ sense.named self.now name.now }
    {
        match self.innermost.get(name) {
            Some(level) => Some(Sense {
                means: Meaning::Variable((self.variables.len() - 1 - *level) as u64),
                takes: 0,
            }),
            None => self.fixed.get(name).copied(),
        }
    }

    /// What a name stands for that has arguments.
    pub fn called(&self, name: &Label) -> Option<Sense>
        ensures { result ≡ sense.called self.now name.now }
    {
        match self.named(name) {
            Some(found) => Some(found),
            None => primitive(name),
        }
    }

    /// Whether a new definition can't have the name.
    pub fn is_taken(&self, name: &Label) -> bool
        ensures { result ≡ sense.is_taken self.now name.now }
    {
        match self.named(name) {
            Some(_) => true,
            None => is_primitive(name),
        }
    }

    /// Binds a variable.
    pub fn bind(&mut self, name: &Label) -> Result<(), NoMemory>
        ensures { IfOk result (λ _. self.new ≡ bound self.old name.now) }
    {
        let level = self.variables.len();
        let key = name.dup()?;
        let hidden = self.innermost.get(name).copied();
        self.variables.push(Bound {
            name: name.dup()?,
            hidden,
        })?;
        if self.innermost.insert(key, level).is_err() {
            self.variables.pop();
            return Err(NoMemory);
        }
        Ok(())
    }

    /// Binds variables in this order.
    pub fn bind_all(&mut self, words: &[&Word]) -> Result<(), NoMemory>
        ensures { IfOk result (λ _. self.new ≡ all_bound self.old (sense.behind_each words.now)) }
    {
        'words: for word in words {
            self.bind(&word.text)?;
        }
        Ok(())
    }

    /// Forgets the variables that were bound last, down to so many.
    pub fn leave(&mut self, depth: usize) -> Result<(), NoMemory>
        ensures { IfOk result (λ _. self.new ≡ record self.old {
          variables = drop
              (length self.old.variables - depth) self.old.variables;
        }) }
    {
        let count = self.depth().saturating_sub(depth);
        'levels: for _ in 0..count {
            self.forget()?;
        }
        Ok(())
    }

    /// Forgets the variable that was bound last.
    fn forget(&mut self) -> Result<(), NoMemory>
        ensures { IfOk result (λ _. self.new ≡ record self.old { variables = drop 1 self.old.variables }) }
    {
        if let Some(last) = self.variables.pop() {
            match last.hidden {
                Some(level) => {
                    self.innermost.insert(last.name, level)?;
                }
                None => {
                    self.innermost.remove(&last.name);
                }
            }
        }
        Ok(())
    }

    /// Adds a definition.
    pub fn define(&mut self, name: &Label, is_function: bool) -> Result<(), NoMemory>
        ensures { IfOk result (λ _. self.new ≡ defined self.old name.now is_function) }
    {
        let number = number(self.definitions.len())?;
        let sense = Sense {
            means: Meaning::Definition(number),
            takes: arity(is_function),
        };
        let key = name.dup()?;
        self.definitions.push((name.dup()?, is_function))?;
        if self.fixed.insert(key, sense).is_err() {
            self.definitions.pop();
            return Err(NoMemory);
        }
        Ok(())
    }
}

/// Adds the source of this number, if its name is new.
fn add_source(
    fixed: &mut BTreeMap<Label, Sense>,
    name: &Label,
    place: usize,
) -> Result<(), NoMemory>
    ensures { IfOk result (λ _. (x : Name) → get bytes_cmp fixed.new x ≡ option_or (get bytes_cmp fixed.old x)
        (if bytes_eq name.now x then Some (sense.sense (Source place) 0) else None)) }
{
    if fixed.get(name).is_some() {
        return Ok(());
    }
    let number = number(place)?;
    let sense = Sense {
        means: Meaning::Source(number),
        takes: 0,
    };
    fixed.insert(name.dup()?, sense)?;
    Ok(())
}

// A function takes one argument.
fn arity(is_function: bool) -> u8
    ensures { result ≡ (if is_function then 1 else 0) }
{
    if is_function { 1 } else { 0 }
}

fn number(place: usize) -> Result<u32, NoMemory>
    ensures { IfOk result (λ n. n ≡ place) }
{
    match u32::try_from(place) {
        Ok(number) => Ok(number),
        Err(_) => Err(NoMemory),
    }
}

/// The primitive that a name calls.
fn primitive(name: &Label) -> Option<Sense>
    ensures { result ≡ primitive_of name.now }
{
    match table().find(name.slice()) {
        Some(row) => by_name(row),
        None => None,
    }
}

// An operator is not called by its name, nor is a form of records.
fn by_name(row: &PrimRow) -> Option<Sense>
    ensures { result ≡ by_name (entry_of row.now) }
{
    if row.code != 10 && (row.code <= 12 || row.code == 27 || row.code == 28) {
        None
    } else {
        Some(Sense {
            means: Meaning::Primitive(row.code),
            takes: row.arity,
        })
    }
}

/// Whether a primitive of the table has the name.
pub fn is_primitive(name: &Label) -> bool
    ensures { result ≡ is_some (entry_named name.now) }
{
    match table().find(name.slice()) {
        Some(_) => true,
        None => false,
    }
}
