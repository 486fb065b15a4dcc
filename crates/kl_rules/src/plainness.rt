//! Which terms have one type by their form. None of it takes memory.
ghost use Rattle.std.specs.Prelude.{◌≡◌, map};
ghost use Rattle.std.specs.Option.{option_map};
ghost use Rattle.kl_core.specs.Trees.{view, trees_view, parts_view, rest_of};
ghost use Rattle.kl_rules.specs.Guards.{plain_value, all_plain, fields_plain, some_plain, plain_in, plain_trees, plain_parts, plain_arms};

use kl_base::{Box, Label};
use kl_core::Term;
use kl_value::Value;

/// Whether no variant and no empty collection stands in the term, nor in a constant in it, so that it has one type.
#[cycle(is_plain)]
pub fn is_plain(term: &Term) -> bool
    ensures { result ≡ plain_in (view term.now) }
{
    match term {
        Term::Var(_) | Term::Source(_) => true,
        Term::Const(v) => is_plain_value(v),
        Term::Rec(fields) => are_plain_labelled(fields.slice()),
        Term::Proj(_, a) => is_plain(a.get()),
        Term::Inj(_, _) => false,
        Term::Case(a, branches, other) => {
            is_plain(a.get()) && are_plain_labelled(branches.slice()) && is_plain_other(other)
        }
        Term::Make(_, terms) => !terms.is_empty() && are_plain(terms.slice()),
        Term::Union(a, b) => is_plain(a.get()) && is_plain(b.get()),
        Term::Ext(_, body, source) => is_plain(body.get()) && is_plain(source.get()),
        Term::If(a, b, c) => is_plain(a.get()) && is_plain(b.get()) && is_plain(c.get()),
        Term::Let(a, b) => is_plain(a.get()) && is_plain(b.get()),
        Term::Prim(_, terms) => are_plain(terms.slice()),
    }
}

#[cycle(is_plain)]
fn is_plain_other(other: &Option<Box<Term>>) -> bool
    ensures { result ≡ plain_arms (rest_of (option_map view other.now)) }
{
    match other {
        Some(other) => is_plain(other.get()),
        None => true,
    }
}

#[cycle(is_plain)]
fn are_plain(terms: &[Term]) -> bool
    ensures { result ≡ plain_trees (trees_view terms.now) }
{
    for term in terms {
        if !is_plain(term) {
            return false;
        }
    }
    true
}

#[cycle(is_plain)]
fn are_plain_labelled(parts: &[(Label, Term)]) -> bool
    ensures { result ≡ plain_parts (parts_view parts.now) }
{
    for part in parts {
        if !is_plain(&part.1) {
            return false;
        }
    }
    true
}

#[cycle(is_plain_value)]
fn is_plain_value(v: &Value) -> bool
    ensures { result ≡ plain_value v.now }
{
    match v {
        Value::Bool(_) | Value::Int(_) | Value::Text(_) => true,
        Value::Rec(fields) => are_plain_fields(fields.slice()),
        Value::Inj(_, _) => false,
        Value::Set(items) => !items.is_empty() && are_plain_values(items.slice()),
        Value::Bag(items) => !items.is_empty() && are_plain_values(items.slice()),
        Value::List(items) => !items.is_empty() && are_plain_values(items.slice()),
    }
}

#[cycle(is_plain_value)]
fn are_plain_values(items: &[Value]) -> bool
    ensures { result ≡ all_plain (map plain_value items.now) }
{
    for item in items {
        if !is_plain_value(item) {
            return false;
        }
    }
    true
}

#[cycle(is_plain_value)]
fn are_plain_fields(fields: &[(Label, Value)]) -> bool
    ensures { result ≡ fields_plain (map (λ f. (f.0, plain_value f.1)) fields.now) }
{
    for field in fields {
        if !is_plain_value(&field.1) {
            return false;
        }
    }
    true
}
