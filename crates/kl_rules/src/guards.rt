//! What the rules ask of the parts of a term.
ghost use Rattle.std.specs.Prelude.{◌≡◌, ◌↔◌, true};
ghost use Rattle.kl_core.specs.Trees.{view};
ghost use Rattle.kl_rules.specs.Guards.{IsPath, IsCheap};
ghost use Rattle.kl_rules.specs.Rewriting.{IsShiftable, Lowers};

use kl_base::NoMemory;
use kl_core::{Term, occurs, subst};
use std::alloc::Global;

/// The term outside a binder, where it does not mention what that binds. What is put for the position is of no account
/// then; it is the term itself, so that none is made for it.
pub fn lowered(alloc: Global, term: &Term) -> Result<Option<Term>, NoMemory>
    requires small { IsShiftable (view term.now) }
    ensures { Lowers (view term.now) result }
{
    if occurs(term, 0) {
        return Ok(None);
    }
    Ok(Some(subst(alloc, term, 0, term)?))
}

/// Whether the term is a path, a constant or a source.
pub fn is_cheap(term: &Term) -> bool
    ensures { (result ≡ true) ↔ IsCheap (view term.now) }
{
    match term {
        Term::Const(_) | Term::Source(_) => true,
        _ => is_path(term),
    }
}

fn is_path(term: &Term) -> bool
    ensures { (result ≡ true) ↔ IsPath (view term.now) }
{
    match term {
        Term::Var(_) => true,
        Term::Proj(_, a) => is_path(a.get()),
        _ => false,
    }
}
