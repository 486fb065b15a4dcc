//! Expansions of declarations.
ghost use Rattle.std.specs.Prelude.{◌≡◌, ◌++◌, IfOk};
ghost use Rattle.std.specs.Option.{option_map, option_copied};
ghost use Rattle.kl_syntax.specs.View.{pattern_view, patterns_view};
ghost use Rattle.kl_prim.specs.Records.{in_order};
ghost use Rattle.kl_ho.specs.Declaring.{exact_fields, own_higher, behind, DeclMade, BodyMade};
ghost use Rattle.kl_ho.specs.Growing.{higher_of, highers_in, highers_of};
ghost use Rattle.kl_ho.specs.HoPrograms.{caught, handed_in};

use crate::expanding::{copied, expand, expand_within, is_among};
use crate::stop::Stop;
use crate::table::{Parts, Table};
use kl_base::{Label, NoMemory};
use kl_syntax::{Decl, Expr, PatFields, Pattern, Tail, Word};
use std::alloc::Global;

/// How many expressions a declaration may have.
const MOST_NODES: u32 = 4096;

// ---- definitions with function fields

// The fields of a record pattern that ends without dots.
fn exact_fields(pattern: &Pattern) -> Option<&PatFields>
    ensures { option_map patterns_view (option_copied result) ≡ exact_fields (pattern_view pattern.now) }
{
    match pattern {
        Pattern::Rec(fields, Tail::Exact) => Some(fields),
        _ => None,
    }
}

// Adds the label and the variable of a field that catches one.
fn add_caught(
    handed: &mut Vec<(Label, Label)>,
    label: &Label,
    pattern: &Pattern,
) -> Result<(), NoMemory>
    ensures { IfOk result (λ _. handed.new.items ≡ handed.old.items ++ caught label.now (pattern_view pattern.now)) }
{
    match pattern {
        Pattern::Bind(variable) => {
            let label = label.dup()?;
            handed.push((label, variable.text.dup()?))?;
            Ok(())
        }
        _ => Ok(()),
    }
}

// The labels and variables of the fields that are functions, in the order of the pattern.
fn handed_in(
    alloc: Global,
    labels: &[Label],
    fields: &[(Word, Pattern)],
) -> Result<Vec<(Label, Label)>, NoMemory>
    ensures { IfOk result (λ handed. handed.items ≡ handed_in labels.now (patterns_view fields.now)) }
{
    let mut handed = Vec::new(alloc);
    for field in fields {
        if is_among(&field.0.text, labels) {
            add_caught(&mut handed, &field.0.text, &field.1)?;
        }
    }
    Ok(handed)
}

fn by_label(handed: Vec<(Label, Label)>) -> Result<Vec<(Label, Label)>, NoMemory>
    ensures { IfOk result (λ all. all.items ≡ in_order handed.items) }
{
    let mut handed = handed;
    handed.sort_by(|a, b| a.0.cmp(&b.0))?;
    Ok(handed)
}

/// The definition in its parts, if it has function fields, which have these labels.
pub(crate) fn parts_of<'p>(
    alloc: Global,
    labels: &'p [Label],
    decl: &'p Decl,
) -> Result<Option<Parts<'p>>, NoMemory>
    ensures { IfOk result (λ o. option_map higher_of o ≡ own_higher labels.now decl.now) }
{
    if labels.is_empty() {
        return Ok(None);
    }
    let Some(param) = &decl.param else {
        return Ok(None);
    };
    let Some(fields) = exact_fields(param) else {
        return Ok(None);
    };
    let handed = by_label(handed_in(alloc, labels, fields.slice())?)?;
    Ok(Some(Parts {
        handed,
        labels,
        fields: fields.slice(),
        body: &decl.body,
    }))
}

/// Enters a definition that has a parameter into those before it.
pub(crate) fn enter<'p>(
    parts: &mut Vec<(Label, Option<Parts<'p>>)>,
    decl: &Decl,
    own: Option<Parts<'p>>,
) -> Result<(), NoMemory>
    ensures { IfOk result (λ _. highers_in parts.new.items ≡ behind decl.now (option_map higher_of own.entry) (highers_in parts.old.items)) }
{
    match &decl.param {
        Some(_) => {
            parts.insert(0, (decl.name.text.dup()?, own))?;
            Ok(())
        }
        None => Ok(()),
    }
}

// ---- the others

/// The expansion of a definition without function fields.
pub(crate) fn declared(alloc: Global, t: &Table<'_>, decl: &Decl) -> Result<Decl, Stop>
    ensures { DeclMade t.now.base.now (highers_of t.now) decl.now result }
{
    let name = copied(&decl.name)?;
    let mut budget = MOST_NODES;
    match &decl.param {
        None => {
            let body = expand(alloc, t, &[], &[], &mut budget, &decl.body)?;
            Ok(Decl {
                name,
                param: None,
                body,
            })
        }
        Some(param) => {
            let (param, body) = expand_within(alloc, t, &[], &[], &mut budget, param, &decl.body)?;
            Ok(Decl {
                name,
                param: Some(param),
                body: body.into_inner(),
            })
        }
    }
}

/// The expansion of the last expression.
pub(crate) fn last(alloc: Global, t: &Table<'_>, e: &Expr) -> Result<Expr, Stop>
    ensures { BodyMade t.now.base.now (highers_of t.now) e.now result }
{
    let mut budget = MOST_NODES;
    expand(alloc, t, &[], &[], &mut budget, e)
}
