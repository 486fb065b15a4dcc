use crate::programs::{constant, draws, label, let_go, scoped};
use kl_scope::{ScopeError, Scoped, resolve, sizes};
use kl_syntax::{Expr, Meaning, Pattern, Program, Qual, Word};
use kl_value::Kind;
use std::alloc::Global;
use std::test::Fail;

fn is_word(word: &Word, text: &[u8], token: u32, means: Meaning) -> bool {
    word.text.slice() == text && word.token == token && word.means == means
}

fn is_name(expr: &Expr, text: &[u8], token: u32, means: Meaning) -> bool {
    match expr {
        Expr::Name(word) => is_word(word, text, token, means),
        _ => false,
    }
}

fn is_drawn(qual: &Qual) -> bool {
    match qual {
        Qual::Gen(Pattern::Bind(x), pubs) => {
            is_word(x, b"x", 4, Meaning::Open) && is_name(pubs, b"pubs", 6, Meaning::Source(1))
        }
        _ => false,
    }
}

// {x | \x <- pubs}, each name with what it means.
fn is_marked(last: &Expr) -> bool {
    match last {
        Expr::Comp(Kind::Set, head, quals) => {
            is_name(head.get(), b"x", 1, Meaning::Variable(0))
                && matches!(quals.slice(), [qual] if is_drawn(qual))
        }
        _ => false,
    }
}

fn has_marks(program: &Program) -> bool {
    program.defs.is_empty() && is_marked(&program.last)
}

fn has_sources(scoped: &Scoped) -> bool {
    scoped.mentions(1) && !scoped.mentions(0) && scoped.sources().len() == 2
}

fn resolves(alloc: Global) -> Result<bool, Fail> {
    let scoped = scoped(alloc)?;
    let holds = has_marks(scoped.program()) && has_sources(&scoped);
    let_go(scoped);
    Ok(holds)
}

#[test]
fn names_carry_what_they_mean(rt: HostRuntime) -> Result<(), Fail> {
    assert!(rt; resolves(rt.alloc())?);
    Ok(())
}

// Of a program whose source is not there.
fn refusal(alloc: Global) -> Result<ScopeError, Fail> {
    match resolve(alloc, draws(alloc)?, &[]) {
        Err(error) => Ok(error),
        Ok(scoped) => {
            let_go(scoped);
            Err(Fail::from("in scope"))
        }
    }
}

#[test]
fn the_first_breach_is_answered(rt: HostRuntime) -> Result<(), Fail> {
    let name = label(rt.alloc(), b"pubs")?;
    let error = refusal(rt.alloc())?;
    assert!(rt; error == ScopeError::Unknown { name, token: 6 });
    Ok(())
}

fn is_within(alloc: Global) -> Result<bool, Fail> {
    let scoped = constant(alloc)?;
    let found = sizes(alloc, &scoped);
    let_go(scoped);
    Ok(found?.is_none())
}

#[test]
fn a_constant_is_within_the_limits(rt: HostRuntime) -> Result<(), Fail> {
    assert!(rt; is_within(rt.alloc())?);
    Ok(())
}
