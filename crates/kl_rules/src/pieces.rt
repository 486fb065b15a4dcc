//! Terms made of parts.
ghost use Rattle.std.specs.Prelude.{◌≡◌, IfOk};
ghost use Rattle.kl_core.specs.Trees.{view, Union, Ext, Let, If};
ghost use Rattle.kl_rules.specs.Rules.{empty_of};
ghost use Rattle.kl_rules.specs.Rewriting.{IsEmptyCollection};

use kl_base::{Box, NoMemory, Seq};
use kl_core::Term;
use kl_value::Kind;
use std::alloc::Global;

pub fn looped(alloc: Global, kind: Kind, body: Term, source: Term) -> Result<Term, NoMemory>
    ensures { IfOk result (λ t. view t ≡ Ext kind (view body) (view source)) }
{
    let body = Box::new(alloc, body)?;
    Ok(Term::Ext(kind, body, Box::new(alloc, source)?))
}

pub fn bound(alloc: Global, first: Term, body: Term) -> Result<Term, NoMemory>
    ensures { IfOk result (λ t. view t ≡ Let (view first) (view body)) }
{
    let first = Box::new(alloc, first)?;
    Ok(Term::Let(first, Box::new(alloc, body)?))
}

pub fn united(alloc: Global, first: Term, second: Term) -> Result<Term, NoMemory>
    ensures { IfOk result (λ t. view t ≡ Union (view first) (view second)) }
{
    let first = Box::new(alloc, first)?;
    Ok(Term::Union(first, Box::new(alloc, second)?))
}

pub fn tested(alloc: Global, test: Term, yes: Term, no: Term) -> Result<Term, NoMemory>
    ensures { IfOk result (λ t. view t ≡ If (view test) (view yes) (view no)) }
{
    let test = Box::new(alloc, test)?;
    let yes = Box::new(alloc, yes)?;
    Ok(Term::If(test, yes, Box::new(alloc, no)?))
}

pub fn nothing(alloc: Global, kind: Kind) -> Term
    ensures { view result ≡ empty_of kind }
{
    Term::Make(kind, Seq::of(Vec::new(alloc)))
}

/// The kind of an empty collection.
pub fn empty_kind(term: &Term) -> Option<Kind>
    ensures { IsEmptyCollection (view term.now) result }
{
    let Term::Make(kind, items) = term else {
        return None;
    };
    if items.is_empty() {
        return Some(*kind);
    }
    None
}
