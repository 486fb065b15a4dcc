//! How large the core terms of a program are, counted without making them.
ghost use Rattle.std.specs.Prelude.{◌≡◌, get_or, map, IfOk};
ghost use Rattle.kl_syntax.specs.Syntax.{Quals, Branches};
ghost use Rattle.kl_syntax.specs.View.{view, qual_view, branch_view, branches_of, rest_of, exps_view, fields_view, quals_view, steps_view};
ghost use Rattle.kl_syntax.specs.View.{pattern_view, patterns_view};
ghost use Rattle.kl_scope.specs.Caps.{capped, decl_size, Judges};
ghost use Rattle.kl_scope.specs.Limits.{Tells, program_sizes};
ghost use Rattle.kl_scope.specs.Sizes as size;
ghost use Rattle.kl_scope.specs.Sizes.{leaf, node, beside, sized, sized_all, sized_fields, sized_branches};
ghost use Rattle.std.specs.Option.{option_map};

use crate::scoped::Scoped;
use crate::terms::{LEAF, NO_PARTS, Size};
use kl_base::{Box, NoMemory};
use kl_syntax::{Branch, Decl, Expr, Meaning, Op, Pattern, Qual, Tail, Word};
use std::alloc::Global;

/// What a declaration passes. Declarations are counted from 0; the last expression is the one behind the definitions.
#[derive(Clone, Copy, Debug, PartialEq, Eq)]
pub enum SizeBreach {
    /// More than 4,096 nodes.
    Nodes { decl: u32 },
    /// A depth of more than 512, and at most 4,096 nodes.
    Depth { decl: u32 },
}

const MOST_NODES: u32 = 4096;

const MOST_DEPTH: u32 = 512;

/// The first declaration whose translation to a core term has too many nodes or is too deep, and `None` exactly where
/// none has. A name counts as what it is defined to be, at each use.
///
/// # Errors
/// Want of memory, and more definitions than 32 bits can number.
pub fn sizes(alloc: Global, scoped: &Scoped) -> Result<Option<SizeBreach>, NoMemory>
    ensures { IfOk result (λ found. Tells found (program_sizes scoped.now.program)) }
{
    let program = scoped.program();
    let defs = program.defs.slice();
    let mut known = Vec::new(alloc);
    'defs: for i in 0..defs.len() {
        let size = declaration(&defs[i], &known);
        match breach(i, size)? {
            Some(found) => return Ok(Some(found)),
            None => known.push(size)?,
        }
    }
    let size = expr(&program.last, &known);
    breach(defs.len(), size)
}

// What the declaration of this place passes.
fn breach(place: usize, size: Size) -> Result<Option<SizeBreach>, NoMemory>
    ensures { IfOk result (λ found. Judges found place size) }
{
    let Ok(decl) = u32::try_from(place) else {
        return Err(NoMemory);
    };
    if size.nodes > MOST_NODES {
        Ok(Some(SizeBreach::Nodes { decl }))
    } else if size.depth > MOST_DEPTH {
        Ok(Some(SizeBreach::Depth { decl }))
    } else {
        Ok(None)
    }
}

fn declaration(decl: &Decl, known: &[Size]) -> Size
    ensures { result ≡ capped (decl_size decl.now.param decl.now known.now) }
{
    let body = expr(&decl.body, known);
    match &decl.param {
        Some(pattern) => matched(pattern, LEAF, body, known),
        None => body,
    }
}

#[tactic(auto, unfolding(crate::specs::Caps::capped))]
fn definition(number: u32, known: &[Size]) -> Size
    ensures { result ≡ capped (get_or known.now number leaf) }
{
    match known.get(number as usize) {
        Some(size) => size.kept(),
        None => LEAF,
    }
}

#[tactic(auto, unfolding(crate::specs::Caps::capped))]
fn named(means: Meaning, known: &[Size]) -> Size
    ensures { result ≡ capped (size.named means known.now) }
{
    match means {
        Meaning::Definition(number) => definition(number, known),
        _ => LEAF,
    }
}

#[tactic(auto, unfolding(crate::specs::Caps::capped))]
fn callee(means: Meaning, known: &[Size]) -> Size
    ensures { result ≡ capped (size.callee means known.now) }
{
    match means {
        Meaning::Definition(number) => definition(number, known),
        _ => NO_PARTS,
    }
}

/// A term is matched with a pattern, and it goes on with another one.
#[cycle(matched)]
fn matched(pattern: &Pattern, term: Size, after: Size, known: &[Size]) -> Size
    ensures { result ≡ capped (size.matched (pattern_view pattern.now) term after known.now) }
{
    match pattern {
        Pattern::Bind(_) => term.beside(after).node(),
        Pattern::Any => after.kept(),
        Pattern::Same(word) => compared(term, named(word.means, known), after),
        Pattern::Is(_, _) => compared(term, LEAF, after),
        Pattern::Rec(fields, tail) => {
            let after = with_rest(tail, term, after);
            matched_fields(fields.slice(), term, after, known)
        }
        Pattern::Inj(_, inner) => chosen(term, matched(inner.get(), LEAF, after, known)),
    }
}

/// The rest of a record is bound before the term goes on.
#[tactic(auto, unfolding(crate::specs::Caps::capped, crate::specs::Sizes::beside, crate::specs::Sizes::node))]
fn with_rest(tail: &Tail, term: Size, after: Size) -> Size
    ensures { result ≡ capped (size.with_rest tail.now term after) }
{
    match tail {
        Tail::Rest(_) => term.beside(LEAF).node().beside(after).node(),
        Tail::Exact | Tail::Open => after.kept(),
    }
}

#[cycle(matched)]
fn matched_fields(fields: &[(Word, Pattern)], term: Size, after: Size, known: &[Size]) -> Size
    ensures { result ≡ capped (size.matched_fields (patterns_view fields.now) term after known.now) }
{
    let part = term.node();
    let mut size = after.kept();
    'fields: for i in (0..fields.len()).rev() {
        size = matched(&fields[i].1, part, size, known);
    }
    size
}

#[tactic(auto, unfolding(crate::specs::Caps::capped, crate::specs::Sizes::beside, crate::specs::Sizes::node))]
fn compared(term: Size, with: Size, after: Size) -> Size
    ensures { result ≡ capped (node (beside (node (beside term with)) (beside after leaf))) }
{
    term.beside(with).node().beside(after.beside(LEAF)).node()
}

#[tactic(auto, unfolding(crate::specs::Caps::capped, crate::specs::Sizes::beside, crate::specs::Sizes::node))]
fn chosen(term: Size, branch: Size) -> Size
    ensures { result ≡ capped (node (beside term (beside branch leaf))) }
{
    term.beside(branch.beside(LEAF)).node()
}

#[cycle(expr)]
fn expr(e: &Expr, known: &[Size]) -> Size
    ensures { result ≡ capped (sized (view e.now) known.now) }
{
    match e {
        Expr::Const(_) => LEAF,
        Expr::Name(word) => named(word.means, known),
        Expr::Call(word, args) => {
            let callee = callee(word.means, known);
            items(args.slice(), known).beside(callee).node()
        }
        Expr::Rec(entries) => fields(entries.slice(), known).node(),
        Expr::More(entries, base) => {
            let base = expr(base.get(), known);
            fields(entries.slice(), known).node().beside(base).node()
        }
        Expr::Inj(_, a) => expr(a.get(), known).node(),
        Expr::Coll(_, parts) => items(parts.slice(), known).node(),
        Expr::Comp(_, head, qualifiers) => {
            let last = expr(head.get(), known).node();
            quals(qualifiers.slice(), last, known)
        }
        Expr::If(a, b, c) => {
            let last = expr(c.get(), known);
            let rest = expr(b.get(), known).beside(last);
            expr(a.get(), known).beside(rest).node()
        }
        Expr::Let(pattern, a, b) => {
            let body = expr(b.get(), known);
            let rest = matched(pattern, LEAF, body, known);
            expr(a.get(), known).beside(rest).node()
        }
        Expr::Case(subject, choices, rest) => {
            let last = otherwise(rest, known);
            let rest = branches(choices.slice(), last, known);
            expr(subject.get(), known).beside(rest).node()
        }
        Expr::Path(a, labels) => projected(expr(a.get(), known), labels.slice()),
        Expr::Not(a) => expr(a.get(), known).node(),
        Expr::Neg(a) => expr(a.get(), known).node(),
        Expr::Chain(first, rest) => steps(expr(first.get(), known), rest.slice(), known),
    }
}

#[cycle(expr)]
fn items(items: &[Expr], known: &[Size]) -> Size
    ensures { result ≡ capped (sized_all (exps_view items.now) known.now) }
{
    let mut size = NO_PARTS;
    'items: for i in (0..items.len()).rev() {
        size = expr(&items[i], known).beside(size);
    }
    size
}

#[cycle(expr)]
fn fields(fields: &[(Word, Expr)], known: &[Size]) -> Size
    ensures { result ≡ capped (sized_fields (fields_view fields.now) known.now) }
{
    let mut size = NO_PARTS;
    'fields: for i in (0..fields.len()).rev() {
        size = expr(&fields[i].1, known).beside(size);
    }
    size
}

/// Qualifiers before a term.
#[cycle(expr)]
fn quals(quals: &[Qual], last: Size, known: &[Size]) -> Size
    ensures { result ≡ capped (size.qualified (quals_view quals.now) last known.now) }
{
    let mut size = last.kept();
    'quals: for i in (0..quals.len()).rev() {
        size = qual(&quals[i], size, known);
    }
    size
}

#[cycle(expr)]
fn qual(qual: &Qual, after: Size, known: &[Size]) -> Size
    ensures { (rest : Quals) (last : Size) → after ≡ capped (size.qualified rest last known.now)
        → result ≡ capped (size.qualified (qual_view qual.now rest) last known.now) }
{
    match qual {
        Qual::Gen(pattern, e) => {
            let items = expr(e, known);
            matched(pattern, LEAF, after, known).beside(items).node()
        }
        Qual::Cond(e) => chosen(expr(e, known), after),
    }
}

/// Branches before others.
#[cycle(expr)]
fn branches(branches: &[Branch], last: Size, known: &[Size]) -> Size
    ensures { (rest : Branches) → last ≡ capped (sized_branches rest known.now)
        → result ≡ capped (sized_branches (branches_of (map branch_view branches.now) rest) known.now) }
{
    let mut size = last;
    'branches: for i in (0..branches.len()).rev() {
        size = branch(&branches[i], size, known);
    }
    size
}

#[cycle(expr)]
fn branch(branch: &Branch, after: Size, known: &[Size]) -> Size
    ensures { (rest : Branches) → after ≡ capped (sized_branches rest known.now)
        → result ≡ capped (sized_branches (branch_view branch.now rest) known.now) }
{
    let body = expr(&branch.body, known);
    matched(&branch.pat, LEAF, body, known).beside(after)
}

#[cycle(expr)]
fn otherwise(rest: &Option<Box<Expr>>, known: &[Size]) -> Size
    ensures { result ≡ capped (sized_branches (rest_of (option_map view rest.now)) known.now) }
{
    match rest {
        Some(e) => expr(e.get(), known),
        None => NO_PARTS,
    }
}

#[cycle(expr)]
fn steps(first: Size, steps: &[(Op, Expr)], known: &[Size]) -> Size
    ensures { result ≡ capped (size.chained first (steps_view steps.now) known.now) }
{
    let mut size = first;
    'steps: for step in steps {
        let parts = expr(&step.1, known).beside(third(step.0));
        size = size.beside(parts).node();
    }
    size.kept()
}

#[tactic(auto, unfolding(crate::specs::Caps::capped))]
fn third(op: Op) -> Size
    ensures { result ≡ capped (size.third op) }
{
    match op {
        Op::And | Op::Or => LEAF,
        _ => NO_PARTS,
    }
}

fn projected(first: Size, labels: &[Word]) -> Size
    ensures { result ≡ capped (size.projected first labels.now) }
{
    let mut size = first;
    'labels: for _label in labels {
        size = size.node();
    }
    size.kept()
}
