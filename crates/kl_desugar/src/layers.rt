//! Patterns and qualifiers as layers of terms round what they go on with.
ghost use Rattle.std.specs.Prelude.{◌≡◌, ◌∷◌, [], ◌++◌, length, None as none, IfOk};
ghost use Rattle.kl_core.specs.Trees.{view};
ghost use Rattle.kl_core.specs.Trees as term;
ghost use Rattle.kl_syntax.specs.View.{pattern_view, patterns_view};
ghost use Rattle.kl_desugar.specs.Translation.{here, place_tree, others};
ghost use Rattle.kl_desugar.specs.Layers.{bound, opened, missed, wrap_one, wrapped, equals, after_tail, tail_layers, after_pat, pat_layers};
ghost use Rattle.kl_desugar.specs.States.{layer_view, layers_view, place_view, codes_of, AsksPattern};

use crate::codes::{Codes, name_box};
use crate::scope::{Place, Slot, copy, place_term};
use crate::terms::{constant_box, mask, no_sense, two};
use kl_base::{Box, Label, NoMemory, Seq};
use kl_core::Term;
use kl_syntax::{Pattern, Tail, Word};
use kl_value::Kind;
use std::alloc::Global;

/// One layer.
#[derive(Drop)]
pub(crate) enum Layer {
    /// The value of a term, bound.
    Bound(Box<Term>),
    /// A condition, without which nothing fits.
    Guard(Box<Term>),
    /// The value under the label of a variant, bound; nothing fits another label.
    Opened(Box<Term>, Label),
    /// Each item of a source, bound.
    Drawn(Kind, Box<Term>),
}

// What stands where nothing fits.
fn missed(alloc: Global, at: Option<Kind>) -> Result<Term, NoMemory>
    ensures { IfOk result (λ t. view t ≡ missed at) }
{
    match at {
        Some(kind) => Ok(Term::Make(kind, Seq::of(Vec::new(alloc)))),
        None => Ok(no_sense(alloc)),
    }
}

fn missed_box(alloc: Global, at: Option<Kind>) -> Result<Box<Term>, NoMemory>
    ensures { IfOk result (λ t. view t ≡ missed at) }
{
    Box::new(alloc, missed(alloc, at)?)
}

fn choose(
    alloc: Global,
    test: Box<Term>,
    body: Box<Term>,
    at: Option<Kind>,
) -> Result<Box<Term>, NoMemory>
    ensures { IfOk result (λ t. view t ≡ term.If (view test) (view body) (missed at)) }
{
    let other = missed_box(alloc, at)?;
    Box::new(alloc, Term::If(test, body, other))
}

fn one_arm(alloc: Global, label: Label, body: Box<Term>) -> Result<Seq<(Label, Term)>, NoMemory>
    ensures { IfOk result (λ arms. arms ≡ (label, body) ∷ []) }
{
    let arms = vec![in alloc; (label, body.into_inner())]?;
    Ok(Seq::of(arms))
}

#[tactic(auto, using(crate::proofs::Views::open_is))]
fn open(
    alloc: Global,
    subject: Box<Term>,
    label: Label,
    body: Box<Term>,
    at: Option<Kind>,
) -> Result<Box<Term>, NoMemory>
    ensures { IfOk result (λ t. view t ≡ term.Case (view subject) (term.arm label (view body) (term.rest (missed at)))) }
{
    let other = missed_box(alloc, at)?;
    let arms = one_arm(alloc, label, body)?;
    Box::new(alloc, Term::Case(subject, arms, Some(other)))
}

fn wrap_one(
    alloc: Global,
    layer: Layer,
    at: Option<Kind>,
    body: Box<Term>,
) -> Result<Box<Term>, NoMemory>
    ensures { IfOk result (λ t. view t ≡ wrap_one (missed at) (layer_view layer) (view body)) }
{
    match layer {
        Layer::Bound(bound) => Box::new(alloc, Term::Let(bound, body)),
        Layer::Guard(test) => choose(alloc, test, body, at),
        Layer::Opened(subject, label) => open(alloc, subject, label, body, at),
        Layer::Drawn(kind, source) => Box::new(alloc, Term::Ext(kind, body, source)),
    }
}

/// The layers round a term.
#[tactic(auto, using(crate::proofs::Views::wrapped_pop))]
pub(crate) fn wrap(
    alloc: Global,
    layers: Vec<Layer>,
    at: Option<Kind>,
    body: Box<Term>,
) -> Result<Box<Term>, NoMemory>
    ensures { IfOk result (λ t. view t ≡ wrapped (missed at) (layers_view layers.items) (view body)) }
{
    let mut layers = layers;
    let mut term = body;
    'layers: while let Some(layer) = layers.pop() {
        term = wrap_one(alloc, layer, at, term)?;
    }
    Ok(term)
}

// Adds that the value at a place equals another one.
fn ask_equal(
    alloc: Global,
    place: &Place,
    other: Box<Term>,
    count: usize,
    layers: &mut Vec<Layer>,
) -> Result<(), NoMemory>
    ensures { IfOk result (λ _. layers_view layers.new.items ≡ layers_view layers.old.items
        ++ equals (place_tree (place_view place.now) count) (view other) ∷ []) }
{
    let value = place_term(alloc, place, count)?;
    layers.push(Layer::Guard(two(alloc, 1, value, other)?))?;
    Ok(())
}

// Binds the value at a place.
fn ask_bound(
    alloc: Global,
    word: &Word,
    place: &Place,
    scope: &mut Vec<Slot>,
    layers: &mut Vec<Layer>,
) -> Result<(), NoMemory>
    ensures scope { IfOk result (λ _. scope.new.items ≡ Some word.now.text ∷ scope.old.items) }
    ensures layers { IfOk result (λ _. layers_view layers.new.items ≡ layers_view layers.old.items
        ++ bound (place_tree (place_view place.now) (length scope.old.items)) ∷ []) }
{
    let value = place_term(alloc, place, scope.len())?;
    layers.push(Layer::Bound(value))?;
    let name = word.text.dup()?;
    scope.insert(0, Some(name))?;
    Ok(())
}

// Opens the variant at a place.
fn ask_opened(
    alloc: Global,
    word: &Word,
    place: &Place,
    scope: &mut Vec<Slot>,
    layers: &mut Vec<Layer>,
) -> Result<(), NoMemory>
    ensures scope { IfOk result (λ _. scope.new.items ≡ none ∷ scope.old.items) }
    ensures layers { IfOk result (λ _. layers_view layers.new.items ≡ layers_view layers.old.items
        ++ opened (place_tree (place_view place.now) (length scope.old.items)) word.now.text ∷ []) }
{
    let value = place_term(alloc, place, scope.len())?;
    let label = word.text.dup()?;
    layers.push(Layer::Opened(value, label))?;
    scope.insert(0, None)?;
    Ok(())
}

// The fields of a record at a place whose labels a pattern does not have.
fn others(
    alloc: Global,
    fields: &[(Word, Pattern)],
    place: &Place,
    count: usize,
) -> Result<Box<Term>, NoMemory>
    ensures { IfOk result (λ t. view t ≡ others (patterns_view fields.now) (place_view place.now) count) }
{
    let whole = place_term(alloc, place, count)?;
    let mask = mask(alloc, fields)?;
    two(alloc, 28, whole, mask)
}

// Binds the rest of the record at a place, where the pattern ends with its name.
fn ask_rest(
    alloc: Global,
    tail: &Tail,
    fields: &[(Word, Pattern)],
    place: &Place,
    scope: &mut Vec<Slot>,
    layers: &mut Vec<Layer>,
) -> Result<(), NoMemory>
    ensures scope { IfOk result (λ _. scope.new.items ≡ after_tail tail.now scope.old.items) }
    ensures layers { IfOk result (λ _. layers_view layers.new.items ≡ layers_view layers.old.items
        ++ tail_layers tail.now (patterns_view fields.now) (place_view place.now) scope.old.items) }
{
    match tail {
        Tail::Exact | Tail::Open => Ok(()),
        Tail::Rest(word) => {
            let rest = others(alloc, fields, place, scope.len())?;
            layers.push(Layer::Bound(rest))?;
            let name = word.text.dup()?;
            scope.insert(0, Some(name))?;
            Ok(())
        }
    }
}

/// Adds what a pattern asks of a place, and what it binds.
pub(crate) fn ask(
    alloc: Global,
    pattern: &Pattern,
    place: &Place,
    codes: &Codes,
    outer: &[Slot],
    scope: &mut Vec<Slot>,
    layers: &mut Vec<Layer>,
) -> Result<(), NoMemory>
    ensures { IfOk result (λ _. AsksPattern (pattern_view pattern.now) (place_view place.now) (codes_of codes.now) outer.now
        scope.old.items scope.new.items (layers_view layers.old.items) (layers_view layers.new.items)) }
{
    match pattern {
        Pattern::Bind(word) => ask_bound(alloc, word, place, scope, layers),
        Pattern::Any => Ok(()),
        Pattern::Same(word) => {
            let other = name_box(alloc, codes, outer, &word.text, scope.len())?;
            ask_equal(alloc, place, other, scope.len(), layers)
        }
        Pattern::Is(other, _) => {
            let other = constant_box(alloc, other)?;
            ask_equal(alloc, place, other, scope.len(), layers)
        }
        Pattern::Rec(fields, tail) => {
            'fields: for field in fields.slice() {
                ask(
                    alloc,
                    &field.1,
                    &Place::Inside(&field.0.text, &*place),
                    codes,
                    outer,
                    scope,
                    layers,
                )?;
            }
            ask_rest(alloc, tail, fields.slice(), place, scope, layers)
        }
        Pattern::Inj(word, inner) => {
            let level = scope.len();
            ask_opened(alloc, word, place, scope, layers)?;
            ask(
                alloc,
                inner.get(),
                &Place::Here(level),
                codes,
                outer,
                scope,
                layers,
            )
        }
    }
}

/// A scope, and the layers up to it.
#[derive(Drop)]
pub(crate) struct Entered {
    pub(crate) scope: Vec<Slot>,
    pub(crate) layers: Vec<Layer>,
}

/// The scope and the layers of a pattern that is matched with a value just bound.
pub(crate) fn enter(
    alloc: Global,
    pattern: &Pattern,
    codes: &Codes,
    outer: &[Slot],
) -> Result<Entered, NoMemory>
    ensures { IfOk result (λ e. AsksPattern (pattern_view pattern.now) (here (length outer.now))
        (codes_of codes.now) outer.now (none ∷ outer.now) e.scope.items [] (layers_view e.layers.items)) }
{
    let mut scope = copy(alloc, outer)?;
    let mut layers = Vec::new(alloc);
    let level = scope.len();
    scope.insert(0, None)?;
    ask(
        alloc,
        pattern,
        &Place::Here(level),
        codes,
        outer,
        &mut scope,
        &mut layers,
    )?;
    Ok(Entered { scope, layers })
}
