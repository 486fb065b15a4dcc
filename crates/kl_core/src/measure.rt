//! How large and how deep a term is. None of it takes memory.
ghost use Rattle.std.specs.Prelude.{◌≡◌, ◌-◌, ◌^◌, min};
ghost use Rattle.kl_core.specs.Trees.{view, trees_view, parts_view};
ghost use Rattle.kl_core.specs.Counts.{nodes_of, nodes_trees, nodes_parts, depth_of, depth_trees, depth_parts};

use crate::term::Term;
use kl_base::Label;

/// How many nodes the term has: one more than its parts. A count past u64 is answered as the greatest u64.
#[cycle(nodes)]
pub fn nodes(t: &Term) -> u64
    ensures { result ≡ min (nodes_of (view t.now)) (2 ^ 64 - 1) }
{
    match t {
        Term::Var(_) | Term::Const(_) | Term::Source(_) => 1,
        Term::Rec(fields) => nodes_labelled(fields.slice()).saturating_add(1),
        Term::Proj(_, a) => nodes(a.get()).saturating_add(1),
        Term::Inj(_, a) => nodes(a.get()).saturating_add(1),
        Term::Case(a, branches, other) => {
            let count = nodes(a.get())
                .saturating_add(nodes_labelled(branches.slice()))
                .saturating_add(1);
            match other {
                Some(other) => count.saturating_add(nodes(other.get())),
                None => count,
            }
        }
        Term::Make(_, terms) => nodes_all(terms.slice()).saturating_add(1),
        Term::Union(a, b) => nodes(a.get())
            .saturating_add(nodes(b.get()))
            .saturating_add(1),
        Term::Ext(_, body, source) => nodes(body.get())
            .saturating_add(nodes(source.get()))
            .saturating_add(1),
        Term::If(a, b, c) => nodes(a.get())
            .saturating_add(nodes(b.get()))
            .saturating_add(nodes(c.get()))
            .saturating_add(1),
        Term::Let(a, b) => nodes(a.get())
            .saturating_add(nodes(b.get()))
            .saturating_add(1),
        Term::Prim(_, terms) => nodes_all(terms.slice()).saturating_add(1),
    }
}

#[cycle(nodes)]
fn nodes_all(terms: &[Term]) -> u64
    ensures { result ≡ min (nodes_trees (trees_view terms.now)) (2 ^ 64 - 1) }
{
    let mut count = 0u64;
    for term in terms {
        count = count.saturating_add(nodes(term));
    }
    count
}

#[cycle(nodes)]
fn nodes_labelled(parts: &[(Label, Term)]) -> u64
    ensures { result ≡ min (nodes_parts (parts_view parts.now)) (2 ^ 64 - 1) }
{
    let mut count = 0u64;
    for part in parts {
        count = count.saturating_add(nodes(&part.1));
    }
    count
}

/// How many terms stand in one another: one more than in the deepest part. A count past u64 is answered as the greatest
/// u64.
#[cycle(depth)]
pub fn depth(t: &Term) -> u64
    ensures { result ≡ min (depth_of (view t.now)) (2 ^ 64 - 1) }
{
    match t {
        Term::Var(_) | Term::Const(_) | Term::Source(_) => 1,
        Term::Rec(fields) => depth_labelled(fields.slice()).saturating_add(1),
        Term::Proj(_, a) => depth(a.get()).saturating_add(1),
        Term::Inj(_, a) => depth(a.get()).saturating_add(1),
        Term::Case(a, branches, other) => {
            let most = depth(a.get()).max(depth_labelled(branches.slice()));
            match other {
                Some(other) => most.max(depth(other.get())).saturating_add(1),
                None => most.saturating_add(1),
            }
        }
        Term::Make(_, terms) => depth_all(terms.slice()).saturating_add(1),
        Term::Union(a, b) => depth(a.get()).max(depth(b.get())).saturating_add(1),
        Term::Ext(_, body, source) => depth(body.get()).max(depth(source.get())).saturating_add(1),
        Term::If(a, b, c) => depth(a.get())
            .max(depth(b.get()))
            .max(depth(c.get()))
            .saturating_add(1),
        Term::Let(a, b) => depth(a.get()).max(depth(b.get())).saturating_add(1),
        Term::Prim(_, terms) => depth_all(terms.slice()).saturating_add(1),
    }
}

#[cycle(depth)]
fn depth_all(terms: &[Term]) -> u64
    ensures { result ≡ min (depth_trees (trees_view terms.now)) (2 ^ 64 - 1) }
{
    let mut most = 0u64;
    for term in terms {
        most = most.max(depth(term));
    }
    most
}

#[cycle(depth)]
fn depth_labelled(parts: &[(Label, Term)]) -> u64
    ensures { result ≡ min (depth_parts (parts_view parts.now)) (2 ^ 64 - 1) }
{
    let mut most = 0u64;
    for part in parts {
        most = most.max(depth(&part.1));
    }
    most
}
