//! Expressions, read off their tokens. `total`: how many tokens there are in all; `depth`: how much deeper they may
//! nest.

ghost use Rattle.std.specs.Prelude.{◌≡◌, ◌∷◌, [], MatchOption, IfOk, true, false};
ghost use Rattle.kl_syntax.specs.declared.tree.Expr.TheVariants as exprs_of;
ghost use Rattle.kl_lex.specs.declared.token.Token.{Token as AToken};
ghost use Rattle.kl_lex.specs.declared.token.Sym.TheVariants as symbols;
ghost use Rattle.kl_phrase.specs.Words.{heads};
ghost use Rattle.kl_phrase.specs.Readers.{before, behind, both, made, ok, one, others, parted, tails};
ghost use Rattle.kl_parse.specs.declared.operator.Level.TheVariants as levels;
ghost use Rattle.kl_phrase.specs.Gives.{Gives};
ghost use Rattle.kl_lex.specs.Brackets.{opener};
ghost use Rattle.kl_parse.specs.Grammar.{branch_of, rec_of, let_of, if_of, inject_of, case_of, whole, negated, signed};
ghost use Rattle.kl_parse.specs.Kinds.{among, is_symbol, op_kinds, an_op};
ghost use Rattle.kl_parse.specs.Descent.{mark, read_pat, labels, reads, chain_at, operand_at, sort_at, compare_at, post_at};
ghost use Rattle.kl_parse.specs.Descent.{prim_at, named_at};
ghost use Rattle.kl_parse.specs.Descent.{branch_at, exprs, in_args, in_group, in_rec, rec_body, field_turn, unsigned};
ghost use Rattle.kl_parse.specs.Descent.{in_inject, in_coll, in_let, in_if, in_case, case_end};
ghost use Rattle.kl_parse.specs.Descent.{expr_before, field, condition, qualifier, quals, beyond, otherwise};

use crate::front::{
    boxed, closed, closed_word, constant, eat, eat_word, is_word, label, labelled, least, name,
    or_bad, or_deep, want,
};
use crate::operator::{Level, operator};
use crate::patterns::{pattern_before, variant_rest};
use kl_base::{Box, Seq};
use kl_lex::{Keyword, Sym, Token, closer};
use kl_phrase::Fault;
use kl_syntax::{Branch, Branches, Expr, ExprFields, Exprs, Op, Pattern, Qual, Quals, Word};
use kl_value::Kind;
use std::alloc::Global;

/// `{ "." LABEL }`
fn labels(
    alloc: Global,
    total: u32,
    tokens: &[Token],
) -> Result<(Vec<Word>, &[Token]), Fault<'_, Token>>
    ensures { Gives (λ x. x.0.items) (λ x. x.1.now) result (labels total tokens.now) }
{
    let mut found = Vec::new(alloc);
    let mut rest = tokens;
    'labels: while let Some(after) = eat(rest, Sym::Dot) {
        let (next, after) = label(total, after)?;
        found.push(next)?;
        rest = after;
    }
    Ok((found, rest))
}

/// The kind of collection that a bracket opens, and what stands behind it.
fn opened(tokens: &[Token]) -> Option<(Kind, &[Token])>
    ensures { MatchOption result ((heads (is_symbol symbols.OpenSet) tokens.now ≡ false)
        × (heads (is_symbol symbols.OpenBag) tokens.now ≡ false)
        × (heads (is_symbol symbols.OpenList) tokens.now ≡ false))
        (λ x. (t : AToken) × (tokens.now ≡ t ∷ x.1.now) × (is_symbol (opener x.0) t ≡ true)) }
{
    if let Some(rest) = eat(tokens, Sym::OpenSet) {
        return Some((Kind::Set, rest));
    }
    if let Some(rest) = eat(tokens, Sym::OpenBag) {
        return Some((Kind::Bag, rest));
    }
    let rest = eat(tokens, Sym::OpenList)?;
    Some((Kind::List, rest))
}

/// Whether what follows may stand behind a condition.
fn ends_condition(tokens: &[Token]) -> bool
    ensures { result ≡ heads (among Rattle.kl_parse.specs.Descent.after_qual) tokens.now }
{
    eat(tokens, Sym::Comma).is_some()
        || eat(tokens, Sym::CloseSet).is_some()
        || eat(tokens, Sym::CloseBag).is_some()
        || eat(tokens, Sym::CloseList).is_some()
}

/// A chain of one operator.
fn compared<'a>(
    alloc: Global,
    first: Box<Expr>,
    op: Op,
    second: Box<Expr>,
    rest: &'a [Token],
) -> Result<(Box<Expr>, &'a [Token]), Fault<'a, Token>>
    ensures { Gives (λ x. x.0) (λ x. x.1.now) result (ok (exprs_of.Chain first ((op, second) ∷ [])) rest.now) }
{
    let mut steps = Vec::new(alloc);
    steps.push((op, second.into_inner()))?;
    boxed(alloc, Expr::Chain(first, Seq::of(steps)), rest)
}

/// The record of these fields, and of those of the base.
fn record(
    alloc: Global,
    fields: ExprFields,
    base: Option<Box<Expr>>,
    rest: &[Token],
) -> Result<(Box<Expr>, &[Token]), Fault<'_, Token>>
    ensures { Gives (λ x. x.0) (λ x. x.1.now) result (ok (rec_of (fields, base)) rest.now) }
{
    match base {
        None => boxed(alloc, Expr::Rec(fields), rest),
        Some(base) => boxed(alloc, Expr::More(fields, base), rest),
    }
}

/// `"let" .. | "if" .. | or`
#[cycle(expr)]
pub fn expr(
    alloc: Global,
    total: u32,
    depth: u32,
    tokens: &[Token],
) -> Result<(Box<Expr>, &[Token]), Fault<'_, Token>>
    ensures { Gives (λ x. x.0) (λ x. x.1.now) result (reads total depth whole tokens.now) }
{
    if let Some(rest) = eat_word(tokens, Keyword::Let) {
        if depth == 0 {
            return Err(Fault::Deep(tokens));
        }
        return let_rest(alloc, total, depth - 1, rest);
    }
    if let Some(rest) = eat_word(tokens, Keyword::If) {
        if depth == 0 {
            return Err(Fault::Deep(tokens));
        }
        return if_rest(alloc, total, depth - 1, rest);
    }
    chain(alloc, total, depth, Level::Or, tokens)
}

/// An expression and this keyword.
#[cycle(expr)]
fn expr_before(
    alloc: Global,
    total: u32,
    depth: u32,
    keyword: Keyword,
    tokens: &[Token],
) -> Result<(Box<Expr>, &[Token]), Fault<'_, Token>>
    ensures { Gives (λ x. x.0) (λ x. x.1.now) result (expr_before (reads total depth whole) keyword tokens.now) }
{
    let (found, rest) = expr(alloc, total, depth, tokens)?;
    closed_word(found, rest, keyword)
}

/// `pat "==" expr "in" expr`
#[cycle(expr)]
fn let_rest(
    alloc: Global,
    total: u32,
    depth: u32,
    tokens: &[Token],
) -> Result<(Box<Expr>, &[Token]), Fault<'_, Token>>
    ensures { Gives (λ x. x.0) (λ x. x.1.now) result (made let_of (in_let (read_pat total depth) (reads total depth whole)) tokens.now) }
{
    let (bound, rest) = pattern_before(alloc, total, depth, Sym::Equals, tokens)?;
    let (value, rest) = expr_before(alloc, total, depth, Keyword::In, rest)?;
    let (body, rest) = expr(alloc, total, depth, rest)?;
    boxed(alloc, Expr::Let(bound.into_inner(), value, body), rest)
}

/// `expr "then" expr "else" expr`
#[cycle(expr)]
fn if_rest(
    alloc: Global,
    total: u32,
    depth: u32,
    tokens: &[Token],
) -> Result<(Box<Expr>, &[Token]), Fault<'_, Token>>
    ensures { Gives (λ x. x.0) (λ x. x.1.now) result (made if_of (in_if (reads total depth whole)) tokens.now) }
{
    let (test, rest) = expr_before(alloc, total, depth, Keyword::Then, tokens)?;
    let (yes, rest) = expr_before(alloc, total, depth, Keyword::Else, rest)?;
    let (no, rest) = expr(alloc, total, depth, rest)?;
    boxed(alloc, Expr::If(test, yes, no), rest)
}

/// `operand { op operand }`, with the operators of one level.
#[cycle(expr)]
fn chain(
    alloc: Global,
    total: u32,
    depth: u32,
    level: Level,
    tokens: &[Token],
) -> Result<(Box<Expr>, &[Token]), Fault<'_, Token>>
    ensures { Gives (λ x. x.0) (λ x. x.1.now) result (chain_at total depth level tokens.now) }
{
    let (first, rest) = operand(alloc, total, depth, level, tokens)?;
    let (more, rest) = more_steps(alloc, total, depth, level, rest)?;
    if more.is_empty() {
        return Ok((first, rest));
    }
    boxed(alloc, Expr::Chain(first, Seq::of(more)), rest)
}

#[cycle(expr)]
fn more_steps(
    alloc: Global,
    total: u32,
    depth: u32,
    level: Level,
    tokens: &[Token],
) -> Result<(Vec<(Op, Expr)>, &[Token]), Fault<'_, Token>>
    ensures { Gives (λ x. x.0.items) (λ x. x.1.now) result
        (others (among (op_kinds level)) (both (one (an_op level)) (operand_at total depth level)) [] tokens.now) }
{
    let mut found = Vec::new(alloc);
    let mut rest = tokens;
    'steps: while let Some((op, after)) = operator(rest, level) {
        let (next, after) = operand(alloc, total, depth, level, after)?;
        found.push((op, next.into_inner()))?;
        rest = after;
    }
    Ok((found, rest))
}

/// What stands between the operators of a level.
#[cycle(expr)]
fn operand(
    alloc: Global,
    total: u32,
    depth: u32,
    level: Level,
    tokens: &[Token],
) -> Result<(Box<Expr>, &[Token]), Fault<'_, Token>>
    ensures { Gives (λ x. x.0) (λ x. x.1.now) result (operand_at total depth level tokens.now) }
{
    match level {
        Level::Or => chain(alloc, total, depth, Level::And, tokens),
        Level::And => negation(alloc, total, depth, tokens),
        Level::Compare => chain(alloc, total, depth, Level::Add, tokens),
        Level::Add => chain(alloc, total, depth, Level::Mul, tokens),
        Level::Mul => signed(alloc, total, depth, tokens),
    }
}

/// `"not" not | cmp`
#[cycle(expr)]
fn negation(
    alloc: Global,
    total: u32,
    depth: u32,
    tokens: &[Token],
) -> Result<(Box<Expr>, &[Token]), Fault<'_, Token>>
    ensures { Gives (λ x. x.0) (λ x. x.1.now) result (sort_at total depth negated tokens.now) }
{
    if let Some(rest) = eat_word(tokens, Keyword::Not) {
        if depth == 0 {
            return Err(Fault::Deep(tokens));
        }
        let (inner, rest) = negation(alloc, total, depth - 1, rest)?;
        return boxed(alloc, Expr::Not(inner), rest);
    }
    comparison(alloc, total, depth, tokens)
}

/// `add [ op add ]`, with the operators that compare.
#[cycle(expr)]
fn comparison(
    alloc: Global,
    total: u32,
    depth: u32,
    tokens: &[Token],
) -> Result<(Box<Expr>, &[Token]), Fault<'_, Token>>
    ensures { Gives (λ x. x.0) (λ x. x.1.now) result (compare_at total depth tokens.now) }
{
    let (first, rest) = operand(alloc, total, depth, Level::Compare, tokens)?;
    match operator(rest, Level::Compare) {
        None => Ok((first, rest)),
        Some((op, after)) => {
            let (second, rest) = operand(alloc, total, depth, Level::Compare, after)?;
            compared(alloc, first, op, second, rest)
        }
    }
}

/// `"-" BIG | "-" un | post`
#[cycle(expr)]
fn signed(
    alloc: Global,
    total: u32,
    depth: u32,
    tokens: &[Token],
) -> Result<(Box<Expr>, &[Token]), Fault<'_, Token>>
    ensures { Gives (λ x. x.0) (λ x. x.1.now) result (sort_at total depth signed tokens.now) }
{
    if let Some(rest) = eat(tokens, Sym::Sub) {
        if let Some((found, rest)) = least(rest) {
            return boxed(alloc, found, rest);
        }
        if depth == 0 {
            return Err(Fault::Deep(rest));
        }
        let (inner, rest) = signed(alloc, total, depth - 1, rest)?;
        return boxed(alloc, Expr::Neg(inner), rest);
    }
    path(alloc, total, depth, tokens)
}

/// `prim { "." LABEL }`
#[cycle(expr)]
fn path(
    alloc: Global,
    total: u32,
    depth: u32,
    tokens: &[Token],
) -> Result<(Box<Expr>, &[Token]), Fault<'_, Token>>
    ensures { Gives (λ x. x.0) (λ x. x.1.now) result (post_at total depth tokens.now) }
{
    let (first, rest) = primary(alloc, total, depth, tokens)?;
    let (words, rest) = labels(alloc, total, rest)?;
    if words.is_empty() {
        return Ok((first, rest));
    }
    boxed(alloc, Expr::Path(first, Seq::of(words)), rest)
}

#[cycle(expr)]
fn primary(
    alloc: Global,
    total: u32,
    depth: u32,
    tokens: &[Token],
) -> Result<(Box<Expr>, &[Token]), Fault<'_, Token>>
    ensures { Gives (λ x. x.0) (λ x. x.1.now) result (prim_at total depth tokens.now) }
{
    if let Some((value, rest)) = constant(alloc, tokens)? {
        return boxed(alloc, Expr::Const(value), rest);
    }
    if let Some(rest) = eat(tokens, Sym::OpenPar) {
        if depth == 0 {
            return Err(Fault::Deep(tokens));
        }
        return group_rest(alloc, total, depth - 1, rest);
    }
    if let Some(rest) = eat(tokens, Sym::OpenRec) {
        if depth == 0 {
            return Err(Fault::Deep(tokens));
        }
        return rec_rest(alloc, total, depth - 1, rest);
    }
    if let Some(rest) = eat(tokens, Sym::Lt) {
        if depth == 0 {
            return Err(Fault::Deep(tokens));
        }
        return inject_rest(alloc, total, depth - 1, rest);
    }
    if let Some((kind, rest)) = opened(tokens) {
        if depth == 0 {
            return Err(Fault::Deep(tokens));
        }
        return coll_rest(alloc, total, depth - 1, kind, rest);
    }
    if let Some(rest) = eat_word(tokens, Keyword::Case) {
        if depth == 0 {
            return Err(Fault::Deep(tokens));
        }
        return case_rest(alloc, total, depth - 1, rest);
    }
    named(alloc, total, depth, tokens)
}

/// `NAME [ "(" exprs ")" ]`
#[cycle(expr)]
fn named(
    alloc: Global,
    total: u32,
    depth: u32,
    tokens: &[Token],
) -> Result<(Box<Expr>, &[Token]), Fault<'_, Token>>
    ensures { Gives (λ x. x.0) (λ x. x.1.now) result (named_at total depth tokens.now) }
{
    let (word, rest) = name(total, tokens)?;
    match eat(rest, Sym::OpenPar) {
        None => boxed(alloc, Expr::Name(word), rest),
        Some(after) => {
            if depth == 0 {
                return Err(Fault::Deep(rest));
            }
            call_rest(alloc, total, depth - 1, word, after)
        }
    }
}

/// What stands behind the `(` of a call of this name.
#[cycle(expr)]
fn call_rest(
    alloc: Global,
    total: u32,
    depth: u32,
    word: Word,
    tokens: &[Token],
) -> Result<(Box<Expr>, &[Token]), Fault<'_, Token>>
    ensures { Gives (λ x. x.0) (λ x. x.1.now) result
        (made (λ args. exprs_of.Call word args) (in_args (reads total depth whole)) tokens.now) }
{
    let (args, rest) = args_rest(alloc, total, depth, tokens)?;
    boxed(alloc, Expr::Call(word, args), rest)
}

/// `exprs ")"`
#[cycle(expr)]
fn args_rest(
    alloc: Global,
    total: u32,
    depth: u32,
    tokens: &[Token],
) -> Result<(Exprs, &[Token]), Fault<'_, Token>>
    ensures { Gives (λ x. x.0) (λ x. x.1.now) result (in_args (reads total depth whole) tokens.now) }
{
    let (first, rest) = expr(alloc, total, depth, tokens)?;
    let (found, rest) = more_exprs(alloc, total, depth, first, rest)?;
    closed(found, rest, Sym::ClosePar)
}

/// The first expression and those that follow, each behind a comma.
#[cycle(expr)]
fn more_exprs(
    alloc: Global,
    total: u32,
    depth: u32,
    first: Box<Expr>,
    tokens: &[Token],
) -> Result<(Exprs, &[Token]), Fault<'_, Token>>
    ensures { Gives (λ x. x.0) (λ x. x.1.now) result
        (others (is_symbol symbols.Comma) (behind (mark symbols.Comma) (reads total depth whole)) (first ∷ []) tokens.now) }
{
    let mut found = Vec::new(alloc);
    found.push(first.into_inner())?;
    let mut rest = tokens;
    'exprs: while let Some(after) = eat(rest, Sym::Comma) {
        let (next, after) = expr(alloc, total, depth, after)?;
        found.push(next.into_inner())?;
        rest = after;
    }
    Ok((Seq::of(found), rest))
}

/// `expr ")"`
#[cycle(expr)]
fn group_rest(
    alloc: Global,
    total: u32,
    depth: u32,
    tokens: &[Token],
) -> Result<(Box<Expr>, &[Token]), Fault<'_, Token>>
    ensures { Gives (λ x. x.0) (λ x. x.1.now) result (in_group (reads total depth whole) tokens.now) }
{
    let (inner, rest) = expr(alloc, total, depth, tokens)?;
    closed(inner, rest, Sym::ClosePar)
}

/// What stands behind the `[` of a record.
#[cycle(expr)]
fn rec_rest(
    alloc: Global,
    total: u32,
    depth: u32,
    tokens: &[Token],
) -> Result<(Box<Expr>, &[Token]), Fault<'_, Token>>
    ensures { Gives (λ x. x.0) (λ x. x.1.now) result
        (in_rec total (reads total depth whole) (sort_at total depth signed) tokens.now) }
{
    let (found, rest) = rec_body(alloc, total, depth, tokens)?;
    closed(found, rest, Sym::CloseRec)
}

/// `[ field { "," field } [ "," "..." post ] ]`
#[cycle(expr)]
fn rec_body(
    alloc: Global,
    total: u32,
    depth: u32,
    tokens: &[Token],
) -> Result<(Box<Expr>, &[Token]), Fault<'_, Token>>
    ensures { Gives (λ x. x.0) (λ x. x.1.now) result
        (rec_body total (reads total depth whole) (sort_at total depth signed) tokens.now) }
{
    if !is_word(tokens) {
        return boxed(alloc, Expr::Rec(Seq::of(Vec::new(alloc))), tokens);
    }
    let (first, rest) = field(alloc, total, depth, tokens)?;
    let ((fields, base), rest) = more_fields(alloc, total, depth, first, rest)?;
    record(alloc, fields, base, rest)
}

#[cycle(expr)]
fn field(
    alloc: Global,
    total: u32,
    depth: u32,
    tokens: &[Token],
) -> Result<((Word, Expr), &[Token]), Fault<'_, Token>>
    ensures { Gives (λ x. x.0) (λ x. x.1.now) result (field total (reads total depth whole) tokens.now) }
{
    let (word, rest) = labelled(total, tokens)?;
    let (found, rest) = expr(alloc, total, depth, rest)?;
    Ok(((word, found.into_inner()), rest))
}

/// The first field, those that follow, and what stands behind `...` at their end.
#[cycle(expr)]
fn more_fields(
    alloc: Global,
    total: u32,
    depth: u32,
    first: (Word, Expr),
    tokens: &[Token],
) -> Result<((ExprFields, Option<Box<Expr>>), &[Token]), Fault<'_, Token>>
    ensures { Gives (λ x. x.0) (λ x. x.1.now) result
        (tails (field_turn total (reads total depth whole) (sort_at total depth signed)) (first ∷ []) tokens.now) }
{
    let mut found = Vec::new(alloc);
    found.push(first)?;
    let mut rest = tokens;
    'fields: while let Some(after) = eat(rest, Sym::Comma) {
        if let Some(after) = eat(after, Sym::Dots) {
            let (base, after) = unsigned(alloc, total, depth, after)?;
            return Ok(((Seq::of(found), Some(base)), after));
        }
        let (next, after) = field(alloc, total, depth, after)?;
        found.push(next)?;
        rest = after;
    }
    Ok(((Seq::of(found), None), rest))
}

/// What stands behind the `...` of a record: a `post`, which is a signed expression whose first token is no minus.
#[cycle(expr)]
fn unsigned(
    alloc: Global,
    total: u32,
    depth: u32,
    tokens: &[Token],
) -> Result<(Box<Expr>, &[Token]), Fault<'_, Token>>
    ensures { Gives (λ x. x.0) (λ x. x.1.now) result (unsigned (sort_at total depth signed) tokens.now) }
{
    if eat(tokens, Sym::Sub).is_some() {
        return Err(Fault::Bad(tokens));
    }
    signed(alloc, total, depth, tokens)
}

/// `LABEL "=" add ">"`
#[cycle(expr)]
fn inject_rest(
    alloc: Global,
    total: u32,
    depth: u32,
    tokens: &[Token],
) -> Result<(Box<Expr>, &[Token]), Fault<'_, Token>>
    ensures { Gives (λ x. x.0) (λ x. x.1.now) result (made inject_of (in_inject total (chain_at total depth levels.Add)) tokens.now) }
{
    let (word, rest) = labelled(total, tokens)?;
    let (found, rest) = injected(alloc, total, depth, rest)?;
    boxed(alloc, Expr::Inj(word, found), rest)
}

/// `add ">"`
#[cycle(expr)]
fn injected(
    alloc: Global,
    total: u32,
    depth: u32,
    tokens: &[Token],
) -> Result<(Box<Expr>, &[Token]), Fault<'_, Token>>
    ensures { Gives (λ x. x.0) (λ x. x.1.now) result (before (chain_at total depth levels.Add) (mark symbols.Gt) tokens.now) }
{
    let (found, rest) = chain(alloc, total, depth, Level::Add, tokens)?;
    closed(found, rest, Sym::Gt)
}

/// What stands behind the bracket of a collection.
#[cycle(expr)]
fn coll_rest(
    alloc: Global,
    total: u32,
    depth: u32,
    kind: Kind,
    tokens: &[Token],
) -> Result<(Box<Expr>, &[Token]), Fault<'_, Token>>
    ensures { Gives (λ x. x.0) (λ x. x.1.now) result (in_coll (read_pat total depth) (reads total depth whole) kind tokens.now) }
{
    if let Some(rest) = eat(tokens, closer(kind)) {
        return boxed(alloc, Expr::Coll(kind, Seq::of(Vec::new(alloc))), rest);
    }
    let (first, rest) = expr(alloc, total, depth, tokens)?;
    let (found, rest) = beyond(alloc, total, depth, kind, first, rest)?;
    closed(found, rest, closer(kind))
}

/// What follows the first expression of a collection: a bar and qualifiers, or other items.
#[cycle(expr)]
fn beyond(
    alloc: Global,
    total: u32,
    depth: u32,
    kind: Kind,
    first: Box<Expr>,
    tokens: &[Token],
) -> Result<(Box<Expr>, &[Token]), Fault<'_, Token>>
    ensures { Gives (λ x. x.0) (λ x. x.1.now) result (beyond (read_pat total depth) (reads total depth whole) kind first tokens.now) }
{
    match eat(tokens, Sym::Bar) {
        Some(after) => {
            let (found, rest) = qualifiers(alloc, total, depth, after)?;
            boxed(alloc, Expr::Comp(kind, first, found), rest)
        }
        None => {
            let (found, rest) = more_exprs(alloc, total, depth, first, tokens)?;
            boxed(alloc, Expr::Coll(kind, found), rest)
        }
    }
}

/// `qual { "," qual }`
#[cycle(expr)]
fn qualifiers(
    alloc: Global,
    total: u32,
    depth: u32,
    tokens: &[Token],
) -> Result<(Quals, &[Token]), Fault<'_, Token>>
    ensures { Gives (λ x. x.0) (λ x. x.1.now) result (quals (read_pat total depth) (reads total depth whole) tokens.now) }
{
    let (first, rest) = qualifier(alloc, total, depth, tokens)?;
    more_qualifiers(alloc, total, depth, first, rest)
}

/// The first qualifier and those that follow, each behind a comma.
#[cycle(expr)]
fn more_qualifiers(
    alloc: Global,
    total: u32,
    depth: u32,
    first: Qual,
    tokens: &[Token],
) -> Result<(Quals, &[Token]), Fault<'_, Token>>
    ensures { Gives (λ x. x.0) (λ x. x.1.now) result
        (others (is_symbol symbols.Comma)
        (behind (mark symbols.Comma) (qualifier (read_pat total depth) (reads total depth whole))) (first ∷ []) tokens.now) }
{
    let mut found = Vec::new(alloc);
    found.push(first)?;
    let mut rest = tokens;
    'quals: while let Some(after) = eat(rest, Sym::Comma) {
        let (next, after) = qualifier(alloc, total, depth, after)?;
        found.push(next)?;
        rest = after;
    }
    Ok((Seq::of(found), rest))
}

/// `pat "<-" expr | expr`. A pattern has no qualifier in it, so each token is read twice at most, however deep they nest.
#[cycle(expr)]
fn qualifier(
    alloc: Global,
    total: u32,
    depth: u32,
    tokens: &[Token],
) -> Result<(Qual, &[Token]), Fault<'_, Token>>
    ensures { Gives (λ x. x.0) (λ x. x.1.now) result (qualifier (read_pat total depth) (reads total depth whole) tokens.now) }
{
    match pattern_before(alloc, total, depth, Sym::Draw, tokens) {
        Ok((bound, rest)) => {
            let (source, rest) = expr(alloc, total, depth, rest)?;
            Ok((Qual::Gen(bound.into_inner(), source.into_inner()), rest))
        }
        Err(Fault::Memory) => Err(Fault::Memory),
        Err(Fault::Bad(place)) => {
            let (found, rest) = or_bad(place, condition(alloc, total, depth, tokens))?;
            Ok((Qual::Cond(found.into_inner()), rest))
        }
        Err(Fault::Deep(place)) => {
            let (found, rest) = or_deep(place, condition(alloc, total, depth, tokens))?;
            Ok((Qual::Cond(found.into_inner()), rest))
        }
    }
}

/// An expression, where what follows may stand behind a condition.
#[cycle(expr)]
fn condition(
    alloc: Global,
    total: u32,
    depth: u32,
    tokens: &[Token],
) -> Result<(Box<Expr>, &[Token]), Fault<'_, Token>>
    ensures { Gives (λ x. x.0) (λ x. x.1.now) result (condition (reads total depth whole) tokens.now) }
{
    let (found, rest) = expr(alloc, total, depth, tokens)?;
    if !ends_condition(rest) {
        return Err(Fault::Bad(rest));
    }
    Ok((found, rest))
}

/// `expr "of" branch { "," branch } otherwise "end"`
#[cycle(expr)]
fn case_rest(
    alloc: Global,
    total: u32,
    depth: u32,
    tokens: &[Token],
) -> Result<(Box<Expr>, &[Token]), Fault<'_, Token>>
    ensures { Gives (λ x. x.0) (λ x. x.1.now) result (made case_of (in_case (reads total depth whole) (branch_at total depth)) tokens.now) }
{
    let (subject, rest) = expr_before(alloc, total, depth, Keyword::Of, tokens)?;
    let (found, rest) = branches(alloc, total, depth, rest)?;
    let (last, rest) = case_end(alloc, total, depth, rest)?;
    boxed(alloc, Expr::Case(subject, found, last), rest)
}

/// `branch { "," branch }`
#[cycle(expr)]
fn branches(
    alloc: Global,
    total: u32,
    depth: u32,
    tokens: &[Token],
) -> Result<(Branches, &[Token]), Fault<'_, Token>>
    ensures { Gives (λ x. x.0) (λ x. x.1.now) result
        (parted (is_symbol symbols.Comma) (mark symbols.Comma) (branch_at total depth) tokens.now) }
{
    let (first, rest) = branch(alloc, total, depth, tokens)?;
    more_branches(alloc, total, depth, first, rest)
}

/// `[ "otherwise" expr ] "end"`
#[cycle(expr)]
fn case_end(
    alloc: Global,
    total: u32,
    depth: u32,
    tokens: &[Token],
) -> Result<(Option<Box<Expr>>, &[Token]), Fault<'_, Token>>
    ensures { Gives (λ x. x.0) (λ x. x.1.now) result (case_end (reads total depth whole) tokens.now) }
{
    let (found, rest) = otherwise(alloc, total, depth, tokens)?;
    closed_word(found, rest, Keyword::End)
}

/// `"<" LABEL "=" pat ">" "=>" expr`
#[cycle(expr)]
fn branch(
    alloc: Global,
    total: u32,
    depth: u32,
    tokens: &[Token],
) -> Result<(Branch, &[Token]), Fault<'_, Token>>
    ensures { Gives (λ x. x.0) (λ x. x.1.now) result (branch_at total depth tokens.now) }
{
    let inner = want(tokens, Sym::Lt)?;
    if depth == 0 {
        return Err(Fault::Deep(tokens));
    }
    let ((label, pat), rest) = variant_rest(alloc, total, depth - 1, inner)?;
    branch_rest(alloc, total, depth, label, pat, rest)
}

/// What stands behind the variant of a branch: `"=>" expr`
#[cycle(expr)]
fn branch_rest(
    alloc: Global,
    total: u32,
    depth: u32,
    label: Word,
    pat: Box<Pattern>,
    tokens: &[Token],
) -> Result<(Branch, &[Token]), Fault<'_, Token>>
    ensures { Gives (λ x. x.0) (λ x. x.1.now) result
        (made (λ body. branch_of ((label, pat), body)) (behind (mark symbols.Arrow) (reads total depth whole)) tokens.now) }
{
    let rest = want(tokens, Sym::Arrow)?;
    let (body, rest) = expr(alloc, total, depth, rest)?;
    let pat = pat.into_inner();
    let body = body.into_inner();
    Ok((Branch { label, pat, body }, rest))
}

/// The first branch and those that follow, each behind a comma.
#[cycle(expr)]
fn more_branches(
    alloc: Global,
    total: u32,
    depth: u32,
    first: Branch,
    tokens: &[Token],
) -> Result<(Branches, &[Token]), Fault<'_, Token>>
    ensures { Gives (λ x. x.0) (λ x. x.1.now) result
        (others (is_symbol symbols.Comma) (behind (mark symbols.Comma) (branch_at total depth)) (first ∷ []) tokens.now) }
{
    let mut found = Vec::new(alloc);
    found.push(first)?;
    let mut rest = tokens;
    'branches: while let Some(after) = eat(rest, Sym::Comma) {
        let (next, after) = branch(alloc, total, depth, after)?;
        found.push(next)?;
        rest = after;
    }
    Ok((Seq::of(found), rest))
}

/// `[ "otherwise" expr ]`
#[cycle(expr)]
fn otherwise(
    alloc: Global,
    total: u32,
    depth: u32,
    tokens: &[Token],
) -> Result<(Option<Box<Expr>>, &[Token]), Fault<'_, Token>>
    ensures { Gives (λ x. x.0) (λ x. x.1.now) result (otherwise (reads total depth whole) tokens.now) }
{
    match eat_word(tokens, Keyword::Otherwise) {
        None => Ok((None, tokens)),
        Some(after) => {
            let (found, rest) = expr(alloc, total, depth, after)?;
            Ok((Some(found), rest))
        }
    }
}
