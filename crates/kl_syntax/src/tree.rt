//! Programs as trees.

use kl_base::{Box, Label, Seq};
use kl_value::{Kind, Value};

/// A word of a program and the number of its token, counted from 0.
#[derive(Drop, PartialEq, Eq)]
pub struct Word {
    pub text: Label,
    pub token: u32,
    /// What it names. A parser leaves it open; once names are resolved, each name of an expression or a pattern has
    /// its meaning here. A label, and a name where it is bound or defined, stay open.
    pub means: Meaning,
}

/// What a name means where it stands.
#[derive(Clone, Copy, PartialEq, Eq)]
pub enum Meaning {
    /// Not resolved.
    Open,
    /// A variable, by the number of variables that are bound inside its binding, hidden ones too: 0 is the innermost.
    Variable(u64),
    /// A definition, by its place in the program, from 0.
    Definition(u32),
    /// A source, by its place among the sources, from 0.
    Source(u32),
    /// A primitive, by its code.
    Primitive(u8),
}

/// An operator of a chain.
#[derive(Clone, Copy, PartialEq, Eq)]
pub enum Op {
    Or,
    And,
    Eq,
    Ne,
    Lt,
    Le,
    Gt,
    Ge,
    Add,
    Sub,
    /// `++`.
    Append,
    /// `^`.
    Cat,
    Mul,
}

/// The fields of a record pattern, in written order.
pub type PatFields = Seq<(Word, Pattern)>;

/// How a record pattern ends.
#[derive(Drop, PartialEq, Eq)]
pub enum Tail {
    /// The record has exactly the fields.
    Exact,
    /// `...`: other fields may be there.
    Open,
    /// `...\r`: other fields may be there, and they are a record under this name.
    Rest(Word),
}

/// What a value is matched with.
#[derive(Drop, PartialEq, Eq)]
pub enum Pattern {
    /// `\x`: any value, under this name.
    Bind(Word),
    /// `_`: any value.
    Any,
    /// A bare name: the value that it has outside the pattern.
    Same(Word),
    /// A constant, and the number of its first token.
    Is(Value, u32),
    /// A record pattern: its fields, one or more where no dots end it, and how it ends.
    Rec(PatFields, Tail),
    /// `<l=p>`: a variant of this label.
    Inj(Word, Box<Pattern>),
}

/// Expressions in their order.
pub type Exprs = Seq<Expr>;

/// The fields of a record, in written order.
pub type ExprFields = Seq<(Word, Expr)>;

/// The qualifiers of a comprehension, in their order: one or more.
pub type Quals = Seq<Qual>;

/// The branches of a `case`, in written order: one or more.
pub type Branches = Seq<Branch>;

/// The labels of a path, in their order: one or more.
pub type Words = Seq<Word>;

/// The operators of a chain, each with what stands behind it: one or more, all of one level, read from the left.
pub type Steps = Seq<(Op, Expr)>;

/// An expression.
#[derive(Drop, PartialEq, Eq)]
#[cycle(tree)]
pub enum Expr {
    Const(Value),
    Name(Word),
    /// `f(e, ..)`: a function or a primitive with its arguments, one or more.
    Call(Word, Exprs),
    Rec(ExprFields),
    /// `[l=e, .., ...a]`: the record that a gives, with more fields, one or more.
    More(ExprFields, Box<Expr>),
    /// `<l=e>`.
    Inj(Word, Box<Expr>),
    /// A collection by its items.
    Coll(Kind, Exprs),
    /// A comprehension: its head and its qualifiers.
    Comp(Kind, Box<Expr>, Quals),
    If(Box<Expr>, Box<Expr>, Box<Expr>),
    /// `let p == a in b`.
    Let(Pattern, Box<Expr>, Box<Expr>),
    /// `case e of b, .. otherwise c end`.
    Case(Box<Expr>, Branches, Option<Box<Expr>>),
    /// `e.l.m`.
    Path(Box<Expr>, Words),
    Not(Box<Expr>),
    /// Unary minus.
    Neg(Box<Expr>),
    /// `a + b - c`.
    Chain(Box<Expr>, Steps),
}

/// A qualifier of a comprehension.
#[derive(Drop, PartialEq, Eq)]
#[cycle(tree)]
pub enum Qual {
    /// `p <- e`.
    Gen(Pattern, Expr),
    Cond(Expr),
}

/// A branch of a `case`: `<l=p> => e`.
#[derive(Drop, PartialEq, Eq)]
#[cycle(tree)]
pub struct Branch {
    pub label: Word,
    pub pat: Pattern,
    pub body: Expr,
}

/// Definitions in their order.
pub type Decls = Seq<Decl>;

/// A definition: `define name == body;`, or with a parameter `define name == p => body;`.
#[derive(Drop, PartialEq, Eq)]
pub struct Decl {
    pub name: Word,
    pub param: Option<Pattern>,
    pub body: Expr,
}

/// A program: its definitions, and the expression that is asked for.
#[derive(Drop, PartialEq, Eq)]
pub struct Program {
    pub defs: Decls,
    pub last: Expr,
}
