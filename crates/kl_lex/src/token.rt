use kl_base::{Label, Seq, Text};

/// A symbol, in the order of the language's list of symbols.
#[derive(Clone, Copy, PartialEq, Eq)]
pub enum Sym {
    /// `[|`
    OpenList,
    /// `|]`
    CloseList,
    /// `{|`
    OpenBag,
    /// `|}`
    CloseBag,
    /// `{`
    OpenSet,
    /// `}`
    CloseSet,
    /// `[`
    OpenRec,
    /// `]`
    CloseRec,
    /// `(`
    OpenPar,
    /// `)`
    ClosePar,
    /// `<=`
    Le,
    /// `>=`
    Ge,
    /// `<>`
    Ne,
    /// `<-`
    Draw,
    /// `<`
    Lt,
    /// `>`
    Gt,
    /// `==`
    Equals,
    /// `=>`
    Arrow,
    /// `=`
    Eq,
    /// `|`
    Bar,
    /// `,`
    Comma,
    /// `;`
    Semi,
    /// `...`
    Dots,
    /// `.`
    Dot,
    /// `:`
    Colon,
    /// `++`
    Append,
    /// `+`
    Add,
    /// `-`
    Sub,
    /// `*`
    Mul,
    /// `^`
    Cat,
    /// `\`
    Bind,
    /// `_`
    Any,
}

/// What a token is.
#[derive(Drop, PartialEq, Eq)]
pub enum Tok {
    /// A letter, then letters, digits and `_`. Keywords are words too.
    Word(Label),
    /// A run of digits of value at most 9223372036854775807.
    Int(i64),
    /// A run of digits of value 9223372036854775808, which a `-` makes the least integer.
    Big,
    /// A text between double quotes, its escapes resolved.
    Text(Text),
    /// A symbol.
    Sym(Sym),
}

/// A token, which stands in the bytes from `from` to before `to`.
#[derive(Drop, PartialEq, Eq)]
pub struct Token {
    /// What it is.
    pub what: Tok,
    /// The place of its first byte.
    pub from: u32,
    /// The place behind its last byte.
    pub to: u32,
}

/// The tokens of a text, in their order.
pub type Tokens = Seq<Token>;

/// A token of a text of any length, which stands in the bytes from `from` to before `to`.
#[derive(Drop, PartialEq, Eq)]
pub struct Placed {
    /// What it is.
    pub what: Tok,
    /// The place of its first byte.
    pub from: u64,
    /// The place behind its last byte.
    pub to: u64,
}
