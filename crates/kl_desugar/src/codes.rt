//! What names stand for.
ghost use Rattle.std.specs.Prelude.{◌≡◌, IfOk};
ghost use Rattle.std.specs.Option.{option_map};
ghost use Rattle.kl_core.specs.Trees.{view};
ghost use Rattle.kl_desugar.specs.Translation.{codes_first, name_tree, number_of};
ghost use Rattle.kl_desugar.specs.States.{codes_of, found_code};

use crate::scope::{Slot, at_level, level};
use crate::terms::no_sense;
use kl_base::{Box, Label, NoMemory, Shared};
use kl_core::Term;
use kl_meaning::code_named;
use std::alloc::Global;

/// A definition: a value, or a function of position 0. Definitions that are one another's names share a term.
#[derive(Drop)]
pub(crate) struct Definition {
    pub(crate) name: Label,
    pub(crate) function: bool,
    pub(crate) term: Shared<Term>,
}

/// The sources, and the definitions so far, the last first.
#[derive(Drop)]
pub(crate) struct Codes<'a> {
    pub(crate) sources: &'a [Label],
    pub(crate) definitions: Vec<Definition>,
}

/// What a name that is no variable stands for: nothing, the value of a term, a function whose argument is at position 0
/// of a term, a source by its number, or a primitive by its code.
#[derive(Drop)]
pub(crate) enum Found<'a> {
    Nothing,
    Value(&'a Shared<Term>),
    Function(&'a Shared<Term>),
    Source(u32),
    Primitive(u8),
}

/// The number of the source with a name.
pub(crate) fn number_of(name: &Label, sources: &[Label]) -> Option<usize>
    ensures { result ≡ number_of name.now sources.now 0 }
{
    for i in 0..sources.len() {
        if *name == sources[i] {
            return Some(i);
        }
    }
    None
}

/// Looks a name up among the definitions, the last first, then the sources, then the primitives.
pub(crate) fn find<'a>(codes: &'a Codes, name: &Label) -> Result<Found<'a>, NoMemory>
    ensures { IfOk result (λ f. found_code f ≡ codes_of codes.now name.now) }
{
    'definitions: for definition in codes.definitions.as_slice() {
        if *name == definition.name {
            return Ok(if definition.function {
                Found::Function(&definition.term)
            } else {
                Found::Value(&definition.term)
            });
        }
    }
    find_first(codes.sources, name)
}

fn find_first<'a>(sources: &[Label], name: &Label) -> Result<Found<'a>, NoMemory>
    ensures { IfOk result (λ f. found_code f ≡ codes_first sources.now name.now) }
{
    match number_of(name, sources) {
        Some(number) => match u32::try_from(number) {
            Ok(number) => Ok(Found::Source(number)),
            Err(_) => Err(NoMemory),
        },
        None => match code_named(name) {
            Some(code) => Ok(Found::Primitive(code)),
            None => Ok(Found::Nothing),
        },
    }
}

/// The term of a name.
pub(crate) fn name_term(
    alloc: Global,
    codes: &Codes,
    outer: &[Slot],
    name: &Label,
    count: usize,
) -> Result<Term, NoMemory>
    ensures { IfOk result (λ t. view t ≡ name_tree (codes_of codes.now) outer.now name.now count) }
{
    if let Some(level) = level(name, outer) {
        return at_level(level, count);
    }
    match find(codes, name)? {
        Found::Value(term) => term.get().dup(alloc),
        Found::Source(number) => Ok(Term::Source(number)),
        _ => Ok(no_sense(alloc)),
    }
}

/// The same, on the heap.
pub(crate) fn name_box(
    alloc: Global,
    codes: &Codes,
    outer: &[Slot],
    name: &Label,
    count: usize,
) -> Result<Box<Term>, NoMemory>
    ensures { IfOk result (λ t. view t ≡ name_tree (codes_of codes.now) outer.now name.now count) }
{
    Box::new(alloc, name_term(alloc, codes, outer, name, count)?)
}
