//! Programs as trees: what a parser makes, names are resolved in, and all later layers read.
//!
//! Definitions over programs speak of trees whose lists are data (`specs/Syntax.antt`); `specs/View.antt` shows each tree of
//! the code as one of these.
#![tactic(auto)]

mod tree;

pub use tree::{
    Branch, Branches, Decl, Decls, Expr, ExprFields, Exprs, Meaning, Op, PatFields, Pattern,
    Program, Qual, Quals, Steps, Tail, Word, Words,
};
