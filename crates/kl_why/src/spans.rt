//! Where the parts of a declaration stand among its tokens.
//!
//! The tokens are those of a program, so brackets close, and each `let`, `if` and `case` has what belongs to it. Nothing here is
//! promised of them: what is asked of a part is asked of its bytes.
use kl_base::NoMemory;
use kl_lex::{Keyword, Sym, Tok, Token, keyword_of};
use std::alloc::Global;

/// Tokens from a number on, and up to another.
#[derive(Clone, Copy, PartialEq, Eq)]
pub struct Span {
    pub from: usize,
    pub to: usize,
}

/// The keyword that the token of a number is.
pub fn keyword_at(tokens: &[Token], at: usize) -> Option<Keyword> {
    match tokens.get(at) {
        Some(
            Token {
                what: Tok::Word(word),
                ..
            },
        ) => keyword_of(word.slice()),
        _ => None,
    }
}

/// The symbol that the token of a number is.
pub fn symbol_at(tokens: &[Token], at: usize) -> Option<Sym> {
    match tokens.get(at) {
        Some(
            Token {
                what: Tok::Sym(sym),
                ..
            },
        ) => Some(*sym),
        _ => None,
    }
}

/// Whether the token of a number is a word.
pub fn is_word(tokens: &[Token], at: usize) -> bool {
    matches!(
        tokens.get(at),
        Some(Token {
            what: Tok::Word(_),
            ..
        })
    )
}

/// For each token that opens a bracket the number of that which closes it, and for each other its own. `let` is closed by its
/// `in`, `if` by its `then`, that by its `else`, and `case` by its `end`.
///
/// # Errors
/// Want of memory.
pub fn closers(alloc: Global, tokens: &[Token]) -> Result<Vec<usize>, NoMemory> {
    let mut closers = Vec::with_capacity(alloc, tokens.len())?;
    let mut open = Vec::new(alloc);
    let mut wants = true;
    for at in 0..tokens.len() {
        closers.push(at)?;
        let step = step_at(tokens, at, wants, open.last().copied());
        if step.closes {
            if let Some(opener) = open.pop() {
                close(&mut closers, opener, at);
            }
        }
        if step.opens {
            open.push(at)?;
        }
        wants = step.wants;
    }
    Ok(closers)
}

fn close(closers: &mut Vec<usize>, opener: usize, at: usize) {
    if let Some(closer) = closers.get_mut(opener) {
        *closer = at;
    }
}

// What a token does to the brackets that are open, and whether an operand is wanted behind it.
#[derive(Clone, Copy)]
struct Step {
    closes: bool,
    opens: bool,
    wants: bool,
}

fn stepped(closes: bool, opens: bool, wants: bool) -> Step {
    Step {
        closes,
        opens,
        wants,
    }
}

fn step_at(tokens: &[Token], at: usize, wants: bool, open: Option<usize>) -> Step {
    match symbol_at(tokens, at) {
        Some(sym) => step_of(sym, wants, open.and_then(|it| symbol_at(tokens, it))),
        None => {
            if is_label(tokens, at, open) {
                return stepped(false, false, false);
            }
            match keyword_at(tokens, at) {
                Some(Keyword::Case | Keyword::Let | Keyword::If) => stepped(false, true, true),
                Some(Keyword::Then) => stepped(true, true, true),
                Some(Keyword::In | Keyword::Else) => stepped(true, false, true),
                Some(Keyword::End) => stepped(true, false, false),
                Some(Keyword::True | Keyword::False) | None => stepped(false, false, false),
                Some(_) => stepped(false, false, true),
            }
        }
    }
}

fn step_of(sym: Sym, wants: bool, open: Option<Sym>) -> Step {
    match sym {
        Sym::OpenList | Sym::OpenBag | Sym::OpenSet | Sym::OpenRec | Sym::OpenPar => {
            stepped(false, true, true)
        }
        Sym::CloseList | Sym::CloseBag | Sym::CloseSet | Sym::CloseRec | Sym::ClosePar => {
            stepped(true, false, false)
        }
        Sym::Lt => stepped(false, wants, true),
        Sym::Gt => {
            let closes = open == Some(Sym::Lt);
            stepped(closes, false, !closes)
        }
        Sym::Any => stepped(false, false, false),
        _ => stepped(false, false, true),
    }
}

// Whether a word is a label: behind a dot, and first in a variant or in a field.
fn is_label(tokens: &[Token], at: usize, open: Option<usize>) -> bool {
    if at == 0 {
        return false;
    }
    match symbol_at(tokens, at - 1) {
        Some(Sym::Dot) => true,
        Some(Sym::OpenRec | Sym::Lt) => open == Some(at - 1),
        Some(Sym::Comma) => match open {
            Some(opener) => symbol_at(tokens, opener) == Some(Sym::OpenRec),
            None => false,
        },
        _ => false,
    }
}

/// The number behind a token, and behind what it opens.
pub fn behind(closers: &[usize], at: usize) -> usize {
    match closers.get(at) {
        Some(closer) => (*closer).max(at).saturating_add(1),
        None => at.saturating_add(1),
    }
}

/// The number of the token that closes what a token opens.
pub fn closer_of(closers: &[usize], at: usize) -> usize {
    match closers.get(at) {
        Some(closer) => *closer,
        None => at,
    }
}

/// The first of some tokens, outside brackets, that is this symbol.
pub fn find_symbol(tokens: &[Token], closers: &[usize], span: Span, sym: Sym) -> Option<usize> {
    let mut at = span.from;
    for _ in span.from..span.to {
        if at >= span.to {
            return None;
        }
        if symbol_at(tokens, at) == Some(sym) {
            return Some(at);
        }
        at = behind(closers, at);
    }
    None
}

/// The same of a keyword.
pub fn find_keyword(
    tokens: &[Token],
    closers: &[usize],
    span: Span,
    keyword: Keyword,
) -> Option<usize> {
    let mut at = span.from;
    for _ in span.from..span.to {
        if at >= span.to {
            return None;
        }
        if keyword_at(tokens, at) == Some(keyword) {
            return Some(at);
        }
        at = behind(closers, at);
    }
    None
}

/// The part of some tokens up to the first comma outside brackets, and the number behind that.
pub fn up_to_comma(tokens: &[Token], closers: &[usize], span: Span) -> (Span, usize) {
    match find_symbol(tokens, closers, span, Sym::Comma) {
        Some(comma) => (
            Span {
                from: span.from,
                to: comma,
            },
            comma.saturating_add(1),
        ),
        None => (span, span.to),
    }
}

/// Some tokens without the parentheses round all of them.
pub fn stripped(tokens: &[Token], closers: &[usize], span: Span) -> Span {
    let mut span = span;
    for _ in span.from..span.to {
        let closer = closer_of(closers, span.from);
        if symbol_at(tokens, span.from) != Some(Sym::OpenPar)
            || closer.saturating_add(1) != span.to
        {
            return span;
        }
        span = Span {
            from: span.from.saturating_add(1),
            to: closer,
        };
    }
    span
}

/// How weakly a symbol or a keyword binds its operands, the weakest first; none for what is no operator between two.
fn level_at(tokens: &[Token], at: usize) -> Option<u8> {
    match symbol_at(tokens, at) {
        Some(Sym::Eq | Sym::Ne | Sym::Lt | Sym::Le | Sym::Gt | Sym::Ge) => Some(3),
        Some(Sym::Add | Sym::Sub | Sym::Append | Sym::Cat) => Some(4),
        Some(Sym::Mul) => Some(5),
        Some(_) => None,
        None => match keyword_at(tokens, at) {
            Some(Keyword::Or) => Some(1),
            Some(Keyword::And) => Some(2),
            _ => None,
        },
    }
}

/// The last operator between two operands, of those that bind most weakly, which splits a chain in two.
pub fn last_operator(tokens: &[Token], closers: &[usize], span: Span) -> Option<usize> {
    let mut found = None;
    let mut weakest = 6;
    let mut wants = true;
    let mut at = span.from;
    for _ in span.from..span.to {
        if at >= span.to {
            return found;
        }
        if !wants {
            if let Some(level) = level_at(tokens, at) {
                if level <= weakest {
                    weakest = level;
                    found = Some(at);
                }
            }
        }
        wants = wants_behind(tokens, closers, at) && !is_behind_dot(tokens, at);
        at = behind(closers, at);
    }
    found
}

// Whether an operand is wanted behind a token, and behind what it opens.
fn wants_behind(tokens: &[Token], closers: &[usize], at: usize) -> bool {
    if closer_of(closers, at) > at {
        return false;
    }
    match symbol_at(tokens, at) {
        Some(Sym::Any) => false,
        Some(_) => true,
        None => matches!(
            keyword_at(tokens, at),
            Some(Keyword::And | Keyword::Or | Keyword::Not)
        ),
    }
}

fn is_behind_dot(tokens: &[Token], at: usize) -> bool {
    at > 0 && symbol_at(tokens, at - 1) == Some(Sym::Dot)
}
