//! Whether a term reads a source. Takes no memory.
ghost use Rattle.std.specs.Prelude.{◌≡◌};
ghost use Rattle.kl_core.specs.Trees.{view, trees_view, parts_view};
ghost use Rattle.kl_ship.specs.Reads.{reads_in, reads_trees, reads_parts};

use kl_base::Label;
use kl_core::Term;

/// Whether a source stands in the term.
#[cycle(reads)]
pub fn reads(term: &Term) -> bool
    ensures { result ≡ reads_in (view term.now) }
{
    match term {
        Term::Var(_) | Term::Const(_) => false,
        Term::Source(_) => true,
        Term::Rec(fields) => reads_labelled(fields.slice()),
        Term::Proj(_, a) => reads(a.get()),
        Term::Inj(_, a) => reads(a.get()),
        Term::Case(a, branches, other) => {
            if reads(a.get()) {
                return true;
            }
            if reads_labelled(branches.slice()) {
                return true;
            }
            match other {
                Some(other) => reads(other.get()),
                None => false,
            }
        }
        Term::Make(_, terms) => reads_all(terms.slice()),
        Term::Union(a, b) => reads(a.get()) || reads(b.get()),
        Term::Ext(_, body, source) => reads(body.get()) || reads(source.get()),
        Term::If(a, b, c) => reads(a.get()) || reads(b.get()) || reads(c.get()),
        Term::Let(a, b) => reads(a.get()) || reads(b.get()),
        Term::Prim(_, terms) => reads_all(terms.slice()),
    }
}

#[cycle(reads)]
fn reads_all(terms: &[Term]) -> bool
    ensures { result ≡ reads_trees (trees_view terms.now) }
{
    for term in terms {
        if reads(term) {
            return true;
        }
    }
    false
}

#[cycle(reads)]
fn reads_labelled(parts: &[(Label, Term)]) -> bool
    ensures { result ≡ reads_parts (parts_view parts.now) }
{
    for part in parts {
        if reads(&part.1) {
            return true;
        }
    }
    false
}
