//! Tokens of programs, types and catalogues, by longest match.
//!
//! What the tokens of some bytes are is a relation that knows nothing of the scan: the longest front that is a word, a
//! run of digits, a text or a symbol, with white space and comments between. `lex` answers that list, which is the
//! only one, or the byte at which there is none. A `Lexer` answers one token after the other, of bytes of any length.
//!
//! What `rt plant` lets through here: a body that answers want of memory, which no contract of this project ties to
//! a refused growth. It plants nothing in `lex`, for which the edits in `wrong` stand.
#![tactic(auto)]

mod bracket;
mod keyword;
mod laws;
mod lexer;
mod number;
mod quoted;
mod symbol;
mod token;

pub use bracket::closer;
pub use keyword::{Keyword, is_keyword, keyword_of};
pub use laws::lex_laws;
pub use lexer::{LexError, Lexed, Lexer, Next, lex, lex_all};
pub use token::{Placed, Sym, Tok, Token, Tokens};
