use kl_lex::{Token, lex};
use kl_parse::{Expr, Pattern, Program, Qual, Tail, parse};
use kl_value::Kind;
use std::alloc::Global;
use std::test::Fail;

fn parsed(alloc: Global, tokens: &[Token]) -> Result<Program, Fail> {
    if tokens.len() > 100 {
        return Err(Fail::from("too many tokens"));
    }
    Ok(parse(alloc, tokens)?)
}

fn example(alloc: Global) -> Result<Program, Fail> {
    let tokens = lex(
        alloc,
        b"define f == \\x => x + 1; {f(y) | [a=\\y, ...] <- s, not y = 2};",
    )?;
    parsed(alloc, tokens.slice())
}

fn is_function(program: &Program) -> bool {
    matches!(program.defs.slice(), [def] if def.param.is_some())
}

fn draws_and_tests(last: &Expr) -> bool {
    match last {
        Expr::Comp(Kind::Set, _, quals) => matches!(
            quals.slice(),
            [
                Qual::Gen(Pattern::Rec(_, Tail::Open), _),
                Qual::Cond(Expr::Not(_))
            ]
        ),
        _ => false,
    }
}

fn is_parsed(alloc: Global) -> Result<bool, Fail> {
    let found = example(alloc)?;
    Ok(is_function(&found) && draws_and_tests(&found.last))
}

#[test]
fn a_program_as_a_tree(rt: HostRuntime) -> Result<(), Fail> {
    assert!(rt; is_parsed(rt.alloc())?);
    Ok(())
}
