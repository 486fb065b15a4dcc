use kl_lex::{LexError, Lexed, Lexer, Next, Sym, Tok, Token, lex, lex_all};
use std::test::Fail;

// At bytes 2 and 3.
fn is_draw(token: &Token) -> bool {
    token.from == 2 && token.to == 4 && matches!(token.what, Tok::Sym(Sym::Draw))
}

#[test]
fn a_text_is_cut_into_tokens(rt: HostRuntime) -> Result<(), Fail> {
    let Ok(tokens) = lex(rt.alloc(), b"x <-7 # none") else {
        return Err(Fail::from("refused"));
    };
    assert!(rt; matches!(tokens.slice(), [_, token, _] if is_draw(token)));
    Ok(())
}

#[test]
fn a_byte_begins_no_token(rt: HostRuntime) {
    assert!(rt; lex(rt.alloc(), b"a $") == Err(LexError::Bad { byte: 2 }));
}

#[test]
fn a_text_of_any_length_is_cut_into_tokens(rt: HostRuntime) -> Result<(), Fail> {
    let Ok(Lexed::Tokens(tokens)) = lex_all(rt.alloc(), b"{ int }") else {
        return Err(Fail::from("refused"));
    };
    assert!(rt; tokens.slice().len() == 3);
    Ok(())
}

#[test]
fn a_byte_of_a_long_text_begins_no_token(rt: HostRuntime) {
    assert!(rt; matches!(lex_all(rt.alloc(), b"a $"), Ok(Lexed::Bad { byte: 2 })));
}

#[test]
fn a_token_is_taken(rt: HostRuntime) -> Result<(), Fail> {
    let next = Lexer::new(b"7;").next(rt.alloc())?;
    assert!(rt; matches!(next, Next::Token(_, _)));
    Ok(())
}
