//! Whether two terms are one. None of it takes memory.
ghost use Rattle.std.specs.Prelude.{◌≡◌, ◌↔◌, true};
ghost use Rattle.std.specs.Option.{option_map};
ghost use Rattle.kl_core.specs.Trees.{Var, Const, Source, view, trees_view, parts_view, rest_of};
ghost use Rattle.kl_rules.specs.Sameness.{same_kind, same_in, same_trees, same_parts, same_arms};

use kl_base::{Box, Label};
use kl_core::Term;
use kl_value::{Kind, Value, cmp};

/// Whether the terms are one.
pub fn is_same(a: &Term, b: &Term) -> bool
    ensures { (result ≡ true) ↔ (view a.now ≡ view b.now) }
{
    same(a, b)
}

fn is_same_kind(k: Kind, j: Kind) -> bool
    ensures { result ≡ same_kind k j }
{
    match k {
        Kind::Set => matches!(j, Kind::Set),
        Kind::Bag => matches!(j, Kind::Bag),
        Kind::List => matches!(j, Kind::List),
    }
}

fn same_var(x: u32, b: &Term) -> bool
    ensures { result ≡ same_in (Var x) (view b.now) }
{
    match b {
        Term::Var(y) => x == *y,
        _ => false,
    }
}

fn same_const(v: &Value, b: &Term) -> bool
    ensures { result ≡ same_in (Const v.now) (view b.now) }
{
    match b {
        Term::Const(w) => cmp(v, w).is_eq(),
        _ => false,
    }
}

fn same_source(i: u32, b: &Term) -> bool
    ensures { result ≡ same_in (Source i) (view b.now) }
{
    match b {
        Term::Source(j) => i == *j,
        _ => false,
    }
}

#[cycle(same)]
fn same(a: &Term, b: &Term) -> bool
    ensures { result ≡ same_in (view a.now) (view b.now) }
{
    match a {
        Term::Var(x) => same_var(*x, b),
        Term::Const(v) => same_const(v, b),
        Term::Source(i) => same_source(*i, b),
        Term::Rec(ps) => match b {
            Term::Rec(qs) => same_labelled(ps.slice(), qs.slice()),
            _ => false,
        },
        Term::Proj(l, a) => match b {
            Term::Proj(m, b) => *l == *m && same(a.get(), b.get()),
            _ => false,
        },
        Term::Inj(l, a) => match b {
            Term::Inj(m, b) => *l == *m && same(a.get(), b.get()),
            _ => false,
        },
        Term::Case(a, ps, c) => match b {
            Term::Case(b, qs, d) => {
                same(a.get(), b.get()) && same_labelled(ps.slice(), qs.slice()) && same_other(c, d)
            }
            _ => false,
        },
        Term::Make(k, ts) => match b {
            Term::Make(j, us) => is_same_kind(*k, *j) && same_all(ts.slice(), us.slice()),
            _ => false,
        },
        Term::Union(a, c) => match b {
            Term::Union(b, d) => same(a.get(), b.get()) && same(c.get(), d.get()),
            _ => false,
        },
        Term::Ext(k, a, s) => match b {
            Term::Ext(j, b, r) => {
                is_same_kind(*k, *j) && same(a.get(), b.get()) && same(s.get(), r.get())
            }
            _ => false,
        },
        Term::If(a, c, e) => match b {
            Term::If(b, d, f) => {
                same(a.get(), b.get()) && same(c.get(), d.get()) && same(e.get(), f.get())
            }
            _ => false,
        },
        Term::Let(a, c) => match b {
            Term::Let(b, d) => same(a.get(), b.get()) && same(c.get(), d.get()),
            _ => false,
        },
        Term::Prim(x, ts) => match b {
            Term::Prim(y, us) => *x == *y && same_all(ts.slice(), us.slice()),
            _ => false,
        },
    }
}

#[cycle(same)]
fn same_other(c: &Option<Box<Term>>, d: &Option<Box<Term>>) -> bool
    ensures { result ≡ same_arms (rest_of (option_map view c.now)) (rest_of (option_map view d.now)) }
{
    match c {
        Some(c) => match d {
            Some(d) => same(c.get(), d.get()),
            None => false,
        },
        None => d.is_none(),
    }
}

#[cycle(same)]
fn same_all(ts: &[Term], us: &[Term]) -> bool
    ensures { result ≡ same_trees (trees_view ts.now) (trees_view us.now) }
{
    if ts.len() != us.len() {
        return false;
    }
    for i in 0..ts.len() {
        if !same(&ts[i], &us[i]) {
            return false;
        }
    }
    true
}

#[cycle(same)]
fn same_labelled(ps: &[(Label, Term)], qs: &[(Label, Term)]) -> bool
    ensures { result ≡ same_parts (parts_view ps.now) (parts_view qs.now) }
{
    if ps.len() != qs.len() {
        return false;
    }
    for i in 0..ps.len() {
        if ps[i].0 != qs[i].0 {
            return false;
        }
        if !same(&ps[i].1, &qs[i].1) {
            return false;
        }
    }
    true
}
