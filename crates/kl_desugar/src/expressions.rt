//! Expressions as terms.
ghost use Rattle.std.specs.Prelude.{◌≡◌, ◌∷◌, [], ◌++◌, length, map, IfOk};
ghost use Rattle.std.specs.Option.{option_map};
ghost use Rattle.kl_prim.specs.Records.{in_order};
ghost use Rattle.kl_syntax.specs.Syntax.{no_quals, Call as called};
ghost use Rattle.kl_syntax.specs.View.{pattern_view, qual_view, view, rest_of, exps_view, quals_view, steps_view};
ghost use Rattle.kl_core.specs.declared.term.Term.TheVariants.{Make, Prim};
ghost use Rattle.kl_core.specs.Building.{MakesOfTwo};
ghost use Rattle.kl_core.specs.Trees as term;
ghost use Rattle.kl_core.specs.Trees.{view_part};
ghost use Rattle.kl_desugar.specs.Translation.{tree, tree_steps, tree_branches, matched_here, no_sense};
ghost use Rattle.kl_desugar.specs.Layers.{missed, wrapped};
ghost use Rattle.kl_desugar.specs.States.{layers_view, codes_of, field_of, arm_of, Given};
ghost use Rattle.kl_desugar.specs.Opening.{OpensQuals};

use crate::calls::{call, operate, project};
use crate::codes::{Codes, name_term};
use crate::layers::{Entered, Layer, ask, enter, wrap};
use crate::scope::{Place, Slot, copy};
use kl_base::{Box, Label, NoMemory, Seq};
use kl_core::building::{binding, case, constant, injection, test};
use kl_core::{Term, TermBranches};
use kl_syntax::{Branch, Expr, Exprs, Op, Pattern, Qual, Word};
use kl_value::Kind;
use std::alloc::Global;

#[tactic(auto, using(kl_core::proofs::Views::view_Make))]
fn made(alloc: Global, kind: Kind, head: Box<Term>) -> Result<Box<Term>, NoMemory>
    ensures { IfOk result (λ t. term.view t ≡ term.Make kind (term.trees (term.view head) term.no_trees)) }
{
    let items = vec![in alloc; head.into_inner()]?;
    Box::new(alloc, Term::Make(kind, Seq::of(items)))
}

// The functions from here to `record` take a part with its want of memory, so that `tree` holds none where that is told.
fn coll(kind: Kind, items: Result<Vec<Term>, NoMemory>) -> Result<Term, NoMemory>
    ensures { IfOk result (λ t. Given items (λ ts. t ≡ Make kind ts.items)) }
{
    Ok(Term::Make(kind, Seq::of(items?)))
}

fn one(alloc: Global, code: u8, a: Result<Box<Term>, NoMemory>) -> Result<Term, NoMemory>
    ensures { IfOk result (λ t. Given a (λ a. t ≡ Prim code (a ∷ []))) }
{
    let args = vec![in alloc; a?.into_inner()]?;
    Ok(Term::Prim(code, Seq::of(args)))
}

// A record of these fields.
fn record(fields: Result<Vec<(Label, Term)>, NoMemory>) -> Result<Term, NoMemory>
    ensures { IfOk result (λ t. Given fields (λ fs. term.view t ≡ term.Rec (term.parts_of (in_order (map view_part fs.items))))) }
{
    let mut fields = fields?;
    fields.sort_by(|a, b| a.0.cmp(&b.0))?;
    Ok(Term::Rec(Seq::of(fields)))
}

// A record with the fields of another.
fn extended(
    alloc: Global,
    fields: Result<Term, NoMemory>,
    others: Result<Box<Term>, NoMemory>,
) -> Result<Term, NoMemory>
    ensures { MakesOfTwo (λ a b. Prim 27 (a ∷ b ∷ [])) fields others result }
{
    let fields = fields?;
    let args = vec![in alloc; fields, others?.into_inner()]?;
    Ok(Term::Prim(27, Seq::of(args)))
}

/// The term of an expression.
#[cycle(tree)]
pub(crate) fn tree(alloc: Global, e: &Expr, codes: &Codes, scope: &[Slot]) -> Result<Term, NoMemory>
    ensures { IfOk result (λ t. term.view t ≡ tree (view e.now) (codes_of codes.now) scope.now) }
{
    match e {
        Expr::Const(v) => constant(alloc, v),
        Expr::Name(word) => name_term(alloc, codes, scope, &word.text, scope.len()),
        Expr::Coll(kind, items) => coll(*kind, tree_all(alloc, items.slice(), codes, scope)),
        Expr::Comp(kind, head, quals) => {
            let opened = tree_opened(alloc, quals.slice(), *kind, codes, scope);
            tree_head(alloc, head.get(), *kind, opened, codes)
        }
        Expr::If(a, b, c) => test(
            tree_box(alloc, a.get(), codes, scope),
            tree_box(alloc, b.get(), codes, scope),
            tree_box(alloc, c.get(), codes, scope),
        ),
        Expr::Let(pattern, a, b) => binding(
            tree_box(alloc, a.get(), codes, scope),
            tree_within(alloc, b.get(), pattern, codes, scope),
        ),
        Expr::Not(a) => one(alloc, 11, tree_box(alloc, a.get(), codes, scope)),
        Expr::Neg(a) => one(alloc, 10, tree_box(alloc, a.get(), codes, scope)),
        Expr::Call(word, args) => tree_call(alloc, word, args, codes, scope),
        Expr::Inj(word, a) => injection(&word.text, tree_box(alloc, a.get(), codes, scope)),
        Expr::Path(a, words) => {
            project(alloc, words.slice(), tree_box(alloc, a.get(), codes, scope))
        }
        Expr::Chain(a, steps) => {
            let first = tree_box(alloc, a.get(), codes, scope);
            tree_steps(alloc, steps.slice(), first, codes, scope)
        }
        Expr::Rec(fields) => record(tree_fields(alloc, fields.slice(), codes, scope)),
        Expr::More(fields, a) => extended(
            alloc,
            record(tree_fields(alloc, fields.slice(), codes, scope)),
            tree_box(alloc, a.get(), codes, scope),
        ),
        Expr::Case(a, branches, other) => case(
            tree_box(alloc, a.get(), codes, scope),
            tree_branches(alloc, branches.slice(), codes, scope),
            tree_other(alloc, other, codes, scope),
        ),
    }
}

// A comprehension, of its head in the scope of its qualifiers.
#[cycle(tree)]
fn tree_head(
    alloc: Global,
    head: &Expr,
    kind: Kind,
    opened: Result<Entered, NoMemory>,
    codes: &Codes,
) -> Result<Term, NoMemory>
    ensures { IfOk result (λ t. Given opened (λ o. term.view t ≡ wrapped (missed (Some kind)) (layers_view o.layers.items)
        (term.Make kind (term.trees (tree (view head.now) (codes_of codes.now) o.scope.items) term.no_trees)))) }
{
    let opened = opened?;
    let head = tree_box(alloc, head, codes, &opened.scope)?;
    let items = made(alloc, kind, head)?;
    Ok(wrap(alloc, opened.layers, Some(kind), items)?.into_inner())
}

#[cycle(tree)]
fn tree_box(alloc: Global, e: &Expr, codes: &Codes, scope: &[Slot]) -> Result<Box<Term>, NoMemory>
    ensures { IfOk result (λ t. term.view t ≡ tree (view e.now) (codes_of codes.now) scope.now) }
{
    Box::new(alloc, tree(alloc, e, codes, scope)?)
}

#[cycle(tree)]
fn tree_call(
    alloc: Global,
    word: &Word,
    args: &Exprs,
    codes: &Codes,
    scope: &[Slot],
) -> Result<Term, NoMemory>
    ensures { IfOk result (λ t. term.view t ≡ tree (called word.now (exps_view args.now)) (codes_of codes.now) scope.now) }
{
    let args = tree_all(alloc, args.slice(), codes, scope)?;
    call(alloc, codes, &word.text, args)
}

#[cycle(tree)]
fn tree_all(
    alloc: Global,
    es: &[Expr],
    codes: &Codes,
    scope: &[Slot],
) -> Result<Vec<Term>, NoMemory>
    ensures { IfOk result (λ ts. map term.view ts.items ≡ map (λ e. tree (view e) (codes_of codes.now) scope.now) es.now) }
{
    let mut terms = Vec::with_capacity(alloc, es.len())?;
    for e in es {
        terms.push(tree(alloc, e, codes, scope)?)?;
    }
    Ok(terms)
}

#[cycle(tree)]
fn tree_fields(
    alloc: Global,
    fields: &[(Word, Expr)],
    codes: &Codes,
    scope: &[Slot],
) -> Result<Vec<(Label, Term)>, NoMemory>
    ensures { IfOk result (λ ts. map view_part ts.items ≡ map (field_of (codes_of codes.now) scope.now) fields.now) }
{
    let mut terms = Vec::with_capacity(alloc, fields.len())?;
    for field in fields {
        let label = field.0.text.dup()?;
        terms.push((label, tree(alloc, &field.1, codes, scope)?))?;
    }
    Ok(terms)
}

/// The term of what stands behind a pattern, where the pattern is to match the value bound last.
#[cycle(tree)]
pub(crate) fn tree_within(
    alloc: Global,
    body: &Expr,
    pattern: &Pattern,
    codes: &Codes,
    scope: &[Slot],
) -> Result<Box<Term>, NoMemory>
    ensures { IfOk result (λ t. term.view t ≡ matched_here (pattern_view pattern.now) (codes_of codes.now) scope.now no_sense
        (λ R. tree (view body.now) (codes_of codes.now) R)) }
{
    let entered = enter(alloc, pattern, codes, scope)?;
    let body = tree_box(alloc, body, codes, &entered.scope)?;
    wrap(alloc, entered.layers, None, body)
}

#[cycle(tree)]
fn tree_branches(
    alloc: Global,
    branches: &[Branch],
    codes: &Codes,
    scope: &[Slot],
) -> Result<TermBranches, NoMemory>
    ensures { IfOk result (λ ts. map view_part ts ≡ map (arm_of (codes_of codes.now) scope.now) branches.now) }
{
    let mut terms = Vec::with_capacity(alloc, branches.len())?;
    for branch in branches {
        let label = branch.label.text.dup()?;
        let body = tree_within(alloc, &branch.body, &branch.pat, codes, scope)?;
        terms.push((label, body.into_inner()))?;
    }
    Ok(Seq::of(terms))
}

#[cycle(tree)]
fn tree_other(
    alloc: Global,
    other: &Option<Box<Expr>>,
    codes: &Codes,
    scope: &[Slot],
) -> Result<Option<Box<Term>>, NoMemory>
    ensures { IfOk result (λ t. term.rest_of (option_map term.view t)
        ≡ tree_branches (rest_of (option_map view other.now)) (codes_of codes.now) scope.now) }
{
    match other {
        Some(other) => Ok(Some(tree_box(alloc, other.get(), codes, scope)?)),
        None => Ok(None),
    }
}

#[cycle(tree)]
fn tree_steps(
    alloc: Global,
    steps: &[(Op, Expr)],
    first: Result<Box<Term>, NoMemory>,
    codes: &Codes,
    scope: &[Slot],
) -> Result<Term, NoMemory>
    ensures { IfOk result (λ t. Given first (λ a. term.view t
        ≡ tree_steps (steps_view steps.now) (term.view a) (codes_of codes.now) scope.now)) }
{
    let mut term = first?;
    for step in steps {
        let right = tree_box(alloc, &step.1, codes, scope)?;
        term = operate(alloc, step.0, term, right)?;
    }
    Ok(term.into_inner())
}

/// The scope and the layers of qualifiers.
#[cycle(tree)]
fn tree_opened(
    alloc: Global,
    quals: &[Qual],
    kind: Kind,
    codes: &Codes,
    outer: &[Slot],
) -> Result<Entered, NoMemory>
    ensures { IfOk result (λ e. OpensQuals (quals_view quals.now) kind (codes_of codes.now) outer.now e.scope.items []
        (layers_view e.layers.items)) }
{
    let mut scope = copy(alloc, outer)?;
    let mut layers = Vec::new(alloc);
    tree_quals(alloc, quals, kind, codes, &mut scope, &mut layers)?;
    Ok(Entered { scope, layers })
}

#[cycle(tree)]
fn tree_quals(
    alloc: Global,
    quals: &[Qual],
    kind: Kind,
    codes: &Codes,
    scope: &mut Vec<Slot>,
    layers: &mut Vec<Layer>,
) -> Result<(), NoMemory>
    ensures { IfOk result (λ _. OpensQuals (quals_view quals.now) kind (codes_of codes.now) scope.old.items scope.new.items
        (layers_view layers.old.items) (layers_view layers.new.items)) }
{
    for qual in quals {
        tree_qual(alloc, qual, kind, codes, scope, layers)?;
    }
    Ok(())
}

#[cycle(tree)]
fn tree_qual(
    alloc: Global,
    qual: &Qual,
    kind: Kind,
    codes: &Codes,
    scope: &mut Vec<Slot>,
    layers: &mut Vec<Layer>,
) -> Result<(), NoMemory>
    ensures { IfOk result (λ _. OpensQuals (qual_view qual.now no_quals) kind (codes_of codes.now)
        scope.old.items scope.new.items (layers_view layers.old.items) (layers_view layers.new.items)) }
{
    match qual {
        Qual::Gen(pattern, source) => {
            let source = tree_box(alloc, source, codes, &*scope)?;
            layers.push(Layer::Drawn(kind, source))?;
            let level = scope.len();
            let outer = copy(alloc, &*scope)?;
            scope.insert(0, None)?;
            ask(
                alloc,
                pattern,
                &Place::Here(level),
                codes,
                &outer,
                scope,
                layers,
            )
        }
        Qual::Cond(test) => {
            let test = tree_box(alloc, test, codes, &*scope)?;
            layers.push(Layer::Guard(test))?;
            Ok(())
        }
    }
}
