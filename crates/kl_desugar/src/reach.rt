//! The definitions that a program reaches.
ghost use Rattle.std.specs.Prelude.{◌≡◌, ◌++◌, map, reverse, IfOk};
ghost use Rattle.std.specs.Option.{option_map};
ghost use Rattle.kl_syntax.specs.Syntax.{Quals, Branches};
ghost use Rattle.kl_syntax.specs.View.{pattern_view, patterns_view, view, exps_view, fields_view, quals_view, qual_view};
ghost use Rattle.kl_syntax.specs.View.{branches_of, branch_view};
ghost use Rattle.kl_syntax.specs.View.{rest_of, steps_view, decl_of, decls_of};
ghost use Rattle.kl_scope.specs.Senses.{behind_each};
ghost use Rattle.kl_scope.specs.Walks.{AfterOk};
ghost use Rattle.kl_desugar.specs.Reached.{pattern_names, patterns_names, names, names_all, names_fields, names_quals};
ghost use Rattle.kl_desugar.specs.Reached.{names_branches, names_steps};
ghost use Rattle.kl_desugar.specs.Reached.{decl_names, NamesAdded, reached};

use kl_base::{Box, Label, NoMemory};
use kl_syntax::{Branch, Decl, Expr, Op, Pattern, Program, Qual, Word};
use std::alloc::Global;
use std::collections::BTreeSet;

/// Adds the names that a pattern looks up.
#[cycle(pattern)]
fn pattern_names<'a>(pattern: &'a Pattern, words: &mut Vec<&'a Word>) -> Result<(), NoMemory>
    ensures { IfOk result (λ _. behind_each words.new.items ≡ behind_each words.old.items ++ pattern_names (pattern_view pattern.now)) }
{
    match pattern {
        Pattern::Same(word) => {
            words.push(word)?;
            Ok(())
        }
        Pattern::Bind(_) | Pattern::Any | Pattern::Is(_, _) => Ok(()),
        Pattern::Rec(fields, _) => patterns_names(fields.slice(), words),
        Pattern::Inj(_, inner) => pattern_names(inner.get(), words),
    }
}

#[cycle(pattern)]
fn patterns_names<'a>(
    fields: &'a [(Word, Pattern)],
    words: &mut Vec<&'a Word>,
) -> Result<(), NoMemory>
    ensures { IfOk result (λ _. behind_each words.new.items ≡ behind_each words.old.items ++ patterns_names (patterns_view fields.now)) }
{
    'fields: for field in fields {
        pattern_names(&field.1, words)?;
    }
    Ok(())
}

/// Adds the names that stand in an expression.
#[cycle(names)]
fn names<'a>(e: &'a Expr, words: &mut Vec<&'a Word>) -> Result<(), NoMemory>
    ensures { IfOk result (λ _. behind_each words.new.items ≡ behind_each words.old.items ++ names (view e.now)) }
{
    match e {
        Expr::Const(_) => Ok(()),
        Expr::Name(word) => {
            words.push(word)?;
            Ok(())
        }
        Expr::Call(word, args) => {
            words.push(word)?;
            names_all(args.slice(), words)?;
            Ok(())
        }
        Expr::Rec(fields) => names_fields(fields.slice(), words),
        Expr::More(fields, a) => {
            let written = names_fields(fields.slice(), words);
            names_next(written, a.get(), words)
        }
        Expr::Coll(_, items) => names_all(items.slice(), words),
        Expr::Comp(_, head, quals) => {
            let head = names(head.get(), words);
            names_quals(head, quals.slice(), words)
        }
        Expr::If(a, b, c) => {
            let tested = names(a.get(), words);
            let chosen = names_next(tested, b.get(), words);
            names_next(chosen, c.get(), words)
        }
        Expr::Let(pattern, a, b) => {
            let matched = pattern_names(pattern, words);
            let bound = names_next(matched, a.get(), words);
            names_next(bound, b.get(), words)
        }
        Expr::Case(a, branches, rest) => {
            let looked = names(a.get(), words);
            let branched = names_branches(looked, branches.slice(), words);
            names_rest(branched, rest, words)
        }
        Expr::Inj(_, a) => names(a.get(), words),
        Expr::Path(a, _) => names(a.get(), words),
        Expr::Not(a) => names(a.get(), words),
        Expr::Neg(a) => names(a.get(), words),
        Expr::Chain(a, steps) => {
            let begun = names(a.get(), words);
            names_steps(begun, steps.slice(), words)
        }
    }
}

// These take what came of the part before theirs, so that `names` ends in one place for each form.
#[cycle(names)]
fn names_next<'a>(
    before: Result<(), NoMemory>,
    e: &'a Expr,
    words: &mut Vec<&'a Word>,
) -> Result<(), NoMemory>
    ensures { IfOk result (λ _. AfterOk before (behind_each words.new.items ≡ behind_each words.old.items ++ names (view e.now))) }
{
    before?;
    names(e, words)
}

#[cycle(names)]
fn names_all<'a>(items: &'a [Expr], words: &mut Vec<&'a Word>) -> Result<(), NoMemory>
    ensures { IfOk result (λ _. behind_each words.new.items ≡ behind_each words.old.items ++ names_all (exps_view items.now)) }
{
    'items: for item in items {
        names(item, words)?;
    }
    Ok(())
}

#[cycle(names)]
fn names_fields<'a>(fields: &'a [(Word, Expr)], words: &mut Vec<&'a Word>) -> Result<(), NoMemory>
    ensures { IfOk result (λ _. behind_each words.new.items ≡ behind_each words.old.items ++ names_fields (fields_view fields.now)) }
{
    'fields: for field in fields {
        names(&field.1, words)?;
    }
    Ok(())
}

#[cycle(names)]
fn names_steps<'a>(
    before: Result<(), NoMemory>,
    steps: &'a [(Op, Expr)],
    words: &mut Vec<&'a Word>,
) -> Result<(), NoMemory>
    ensures { IfOk result (λ _. AfterOk before (behind_each words.new.items ≡ behind_each words.old.items
        ++ names_steps (steps_view steps.now))) }
{
    before?;
    'steps: for step in steps {
        names(&step.1, words)?;
    }
    Ok(())
}

#[cycle(names)]
fn names_quals<'a>(
    before: Result<(), NoMemory>,
    quals: &'a [Qual],
    words: &mut Vec<&'a Word>,
) -> Result<(), NoMemory>
    ensures { IfOk result (λ _. AfterOk before (behind_each words.new.items ≡ behind_each words.old.items
        ++ names_quals (quals_view quals.now))) }
{
    before?;
    'quals: for qual in quals {
        names_qual(qual, words)?;
    }
    Ok(())
}

#[cycle(names)]
fn names_qual<'a>(qual: &'a Qual, words: &mut Vec<&'a Word>) -> Result<(), NoMemory>
    ensures { IfOk result (λ _. (rest : Quals) → behind_each words.new.items ++ names_quals rest ≡ behind_each words.old.items
        ++ names_quals (qual_view qual.now rest)) }
{
    match qual {
        Qual::Gen(pattern, e) => {
            pattern_names(pattern, words)?;
            names(e, words)?;
            Ok(())
        }
        Qual::Cond(e) => {
            names(e, words)?;
            Ok(())
        }
    }
}

/// Branches before others.
#[cycle(names)]
fn names_branches<'a>(
    before: Result<(), NoMemory>,
    branches: &'a [Branch],
    words: &mut Vec<&'a Word>,
) -> Result<(), NoMemory>
    ensures { IfOk result (λ _. AfterOk before ((rest : Branches)
        → behind_each words.new.items ++ names_branches rest ≡ behind_each words.old.items
        ++ names_branches (branches_of (map branch_view branches.now) rest))) }
{
    before?;
    'branches: for branch in branches {
        names_branch(branch, words)?;
    }
    Ok(())
}

#[cycle(names)]
fn names_branch<'a>(branch: &'a Branch, words: &mut Vec<&'a Word>) -> Result<(), NoMemory>
    ensures { IfOk result (λ _. (rest : Branches) → behind_each words.new.items ++ names_branches rest ≡ behind_each words.old.items
        ++ names_branches (branch_view branch.now rest)) }
{
    pattern_names(&branch.pat, words)?;
    names(&branch.body, words)?;
    Ok(())
}

#[cycle(names)]
fn names_rest<'a>(
    before: Result<(), NoMemory>,
    rest: &'a Option<Box<Expr>>,
    words: &mut Vec<&'a Word>,
) -> Result<(), NoMemory>
    ensures { IfOk result (λ _. AfterOk before
        (behind_each words.new.items ≡ behind_each words.old.items ++ names_branches (rest_of (option_map view rest.now)))) }
{
    before?;
    match rest {
        Some(e) => names(e.get(), words),
        None => Ok(()),
    }
}

// Adds names to a set.
fn add_all(names: &mut BTreeSet<Label>, words: &[&Word]) -> Result<(), NoMemory>
    ensures { IfOk result (λ _. NamesAdded (behind_each words.now) names.old names.new) }
{
    'words: for word in words {
        names.insert(word.text.dup()?)?;
    }
    Ok(())
}

// The names that stand in a definition.
fn definition_names<'a>(def: &'a Decl, words: &mut Vec<&'a Word>) -> Result<(), NoMemory>
    ensures { IfOk result (λ _. behind_each words.new.items ≡ behind_each words.old.items ++ decl_names def.now.param def.now) }
{
    if let Some(pattern) = &def.param {
        pattern_names(pattern, words)?;
    }
    names(&def.body, words)?;
    Ok(())
}

// Adds the names that stand in a definition to those that are wanted.
fn want(alloc: Global, def: &Decl, wanted: &mut BTreeSet<Label>) -> Result<(), NoMemory>
    ensures { IfOk result (λ _. NamesAdded (decl_names def.now.param def.now) wanted.old wanted.new) }
{
    let mut words = Vec::new(alloc);
    definition_names(def, &mut words)?;
    add_all(wanted, &words)
}

/// The definitions that the last expression of a program reaches, the last first.
pub(crate) fn reached<'a>(alloc: Global, program: &'a Program) -> Result<Vec<&'a Decl>, NoMemory>
    ensures { IfOk result (λ defs. decls_of (reverse (map (λ d. d.now) defs.items))
        ≡ reached (decls_of program.now.defs) (view program.now.last)) }
{
    let defs = program.defs.slice();
    let mut found = Vec::new(alloc);
    let mut words = Vec::new(alloc);
    names(&program.last, &mut words)?;
    let mut wanted = BTreeSet::new(alloc);
    add_all(&mut wanted, &words)?;
    'defs: for i in (0..defs.len()).rev() {
        let def = &defs[i];
        if wanted.contains(&def.name.text) {
            want(alloc, def, &mut wanted)?;
            found.push(def)?;
        }
    }
    Ok(found)
}
