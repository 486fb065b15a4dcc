ghost use Rattle.std.specs.Prelude.{◌≡◌, MatchOption};
ghost use Rattle.kl_lex.specs.Reading.{NoSymbol, LongestSymbol};
ghost use Rattle.kl_lex.specs.Spelling.{spelling};
ghost use Rattle.kl_lex.specs.declared.token.Sym.{Sym as Symbol};

use crate::token::Sym;

/// How many bytes the longest symbol has.
const LONGEST: usize = 3;

/// The longest symbol at the front, and the bytes behind it.
pub fn symbol_at(bytes: &[u8]) -> Option<(Sym, &[u8])>
    ensures { MatchOption result (NoSymbol bytes.now) (λ found. LongestSymbol bytes.now found.0 found.1.now) }
{
    let mut size = LONGEST;
    'sizes: while size > 0 {
        if size <= bytes.len() {
            let (front, rest) = bytes.split_at(size);
            if let Some(sym) = symbol_of(front) {
                return Some((sym, rest));
            }
        }
        size -= 1;
    }
    None
}

/// The symbol that these bytes spell.
fn symbol_of(bytes: &[u8]) -> Option<Sym>
    ensures { MatchOption result ((s : Symbol) → bytes.now ≡ spelling s → ⊥) (λ s. bytes.now ≡ spelling s) }
{
    match bytes {
        [b'[', b'|'] => Some(Sym::OpenList),
        [b'|', b']'] => Some(Sym::CloseList),
        [b'{', b'|'] => Some(Sym::OpenBag),
        [b'|', b'}'] => Some(Sym::CloseBag),
        [b'{'] => Some(Sym::OpenSet),
        [b'}'] => Some(Sym::CloseSet),
        [b'['] => Some(Sym::OpenRec),
        [b']'] => Some(Sym::CloseRec),
        [b'('] => Some(Sym::OpenPar),
        [b')'] => Some(Sym::ClosePar),
        [b'<', b'='] => Some(Sym::Le),
        [b'>', b'='] => Some(Sym::Ge),
        [b'<', b'>'] => Some(Sym::Ne),
        [b'<', b'-'] => Some(Sym::Draw),
        [b'<'] => Some(Sym::Lt),
        [b'>'] => Some(Sym::Gt),
        [b'=', b'='] => Some(Sym::Equals),
        [b'=', b'>'] => Some(Sym::Arrow),
        [b'='] => Some(Sym::Eq),
        [b'|'] => Some(Sym::Bar),
        [b','] => Some(Sym::Comma),
        [b';'] => Some(Sym::Semi),
        [b'.', b'.', b'.'] => Some(Sym::Dots),
        [b'.'] => Some(Sym::Dot),
        [b':'] => Some(Sym::Colon),
        [b'+', b'+'] => Some(Sym::Append),
        [b'+'] => Some(Sym::Add),
        [b'-'] => Some(Sym::Sub),
        [b'*'] => Some(Sym::Mul),
        [b'^'] => Some(Sym::Cat),
        [b'\\'] => Some(Sym::Bind),
        [b'_'] => Some(Sym::Any),
        _ => None,
    }
}
