//! The text of a scheme.
ghost use Rattle.std.specs.Prelude.{◌≡◌, ◌<◌, ◌≤◌, [], length, IfOk, OnOk, MatchOption};
ghost use Rattle.std.specs.Option.{option_map};
ghost use Rattle.kl_base.specs.Sorted.{sorted};
ghost use Rattle.kl_rows.specs.Schemes.{IsScheme};
ghost use Rattle.kl_infer.specs.Numbers.{Writes, limit};
ghost use Rattle.kl_infer.specs.Printed.{by_label, opening_text, closing_text, kind_variables, rest_variables, row_variables};
ghost use Rattle.kl_infer.specs.Printed.{row_text, tree_at};
ghost use Rattle.kl_infer.specs.Printed.{text, variables, scheme_text};
ghost use Rattle.kl_infer.specs.Rows.{CanPrint, IsEnd, IsRowOf, front_of, is_open, kind_of, mark_behind};

use crate::page::Page;
use kl_base::{Label, NoMemory, Text};
use kl_rows::{Node, Part, Scheme};
use kl_type::print_type;
use kl_value::{Kind, closing, opening, separator};
use std::alloc::Global;

/// The text of the scheme: types as `print_type` has them, variables `'1`, collections of any kind `%1(type)`, open
/// rows with `...'1` behind their fields, functions `type -> type`. Labels stand in rising order. Variables are numbered
/// from 1 in the order of first appearance. None exactly where the text has more than 65,536 bytes; it is not made
/// then.
///
/// # Errors
/// Want of memory.
pub fn print_scheme(alloc: Global, s: &Scheme) -> Result<Option<Text>, NoMemory>
    requires { IsScheme s.now }
    ensures { IfOk result (λ found. MatchOption found (limit < length (scheme_text s.now))
        (λ all. (all ≡ scheme_text s.now) × (length all ≤ limit))) }
{
    let mut page = Page::new(alloc);
    write(alloc, s.nodes.slice(), s.root as usize, &mut page)?;
    let Page { out, full, .. } = page;
    if full {
        Ok(None)
    } else {
        Ok(Some(Text::of(out)))
    }
}

// The tree of the part at a place.
#[cycle(write)]
fn write(alloc: Global, parts: &[Part], place: usize, page: &mut Page) -> Result<(), NoMemory>
    requires { CanPrint parts.now place }
    ensures { OnOk result (Writes page.old page.new (variables (tree_at parts.now place)) (text (tree_at parts.now place))) }
{
    if page.full {
        return Ok(());
    }
    match &parts[place] {
        Part::Is(Node::Base(t)) => {
            let text = print_type(alloc, t)?;
            page.put(text.slice())
        }
        Part::Is(Node::Rec(r)) => {
            page.put(b"[")?;
            write_row(alloc, parts, *r as usize, page)?;
            page.put(b"]")
        }
        Part::Is(Node::Var(r)) => {
            page.put(b"<")?;
            write_row(alloc, parts, *r as usize, page)?;
            page.put(b">")
        }
        Part::Is(Node::Coll(kind, item)) => {
            write_opening(parts, *kind as usize, page)?;
            write(alloc, parts, *item as usize, page)?;
            write_closing(parts, *kind as usize, page)
        }
        Part::Is(Node::Arrow(a, b)) => {
            write(alloc, parts, *a as usize, page)?;
            page.put(b" -> ")?;
            write(alloc, parts, *b as usize, page)
        }
        Part::Is(Node::Row(_, _, _)) => Ok(()),
        Part::Is(Node::EmptyRow) => Ok(()),
        Part::Is(Node::Fixed(_)) => Ok(()),
        Part::AnyType => page.name(b"'", place),
        Part::AnyRow(_) => page.name(b"'", place),
        Part::AnyKind => page.name(b"'", place),
    }
}

// The fields of the row at a place, with a comma and a space between them, and the mark of an open row.
#[cycle(write)]
fn write_row(alloc: Global, parts: &[Part], place: usize, page: &mut Page) -> Result<(), NoMemory>
    requires { CanPrint parts.now place }
    ensures { OnOk result (Writes page.old page.new (row_variables (tree_at parts.now place)) (row_text (tree_at parts.now place))) }
{
    let (fields, end) = row_of(alloc, parts, place)?;
    let fields = by_labels(fields)?;
    'fields: for i in 0..fields.len() {
        page.put(separator(i))?;
        page.put(fields[i].0.slice())?;
        page.put(b": ")?;
        write(alloc, parts, fields[i].1, page)?;
    }
    write_rest(parts, end, fields.len(), page)
}

// The fields of a row from its front to its end.
fn row_of(
    alloc: Global,
    parts: &[Part],
    place: usize,
) -> Result<(Vec<(Label, usize)>, usize), NoMemory>
    requires { CanPrint parts.now place }
    ensures { IfOk result (λ row. IsRowOf parts.now place row.0.items row.1) }
{
    let mut fields = Vec::new(alloc);
    let mut end = place;
    'row: while let Some(front) = front_of(&parts[end]) {
        fields.push((front.label.dup()?, front.item))?;
        end = front.rest;
    }
    Ok((fields, end))
}

// The first field of a row, and what stands behind it.
#[derive(Drop)]
struct Front<'a> {
    label: &'a Label,
    item: usize,
    rest: usize,
}

fn front_of(part: &Part) -> Option<Front<'_>>
    ensures { option_map (λ f. (f.label.now, (f.item, f.rest))) result ≡ front_of part.now }
{
    match part {
        Part::Is(Node::Row(label, item, rest)) => Some(Front {
            label,
            item: *item as usize,
            rest: *rest as usize,
        }),
        _ => None,
    }
}

// The same fields by rising label.
fn by_labels(fields: Vec<(Label, usize)>) -> Result<Vec<(Label, usize)>, NoMemory>
    ensures { IfOk result (λ all. all.items ≡ sorted by_label fields.items) }
{
    let mut fields = fields;
    fields.sort_by(|f, g| f.0.cmp(&g.0))?;
    Ok(fields)
}

// The mark of an open row behind so many fields.
fn write_rest(parts: &[Part], end: usize, count: usize, page: &mut Page) -> Result<(), NoMemory>
    requires can { CanPrint parts.now end }
    requires is_end { IsEnd (tree_at parts.now end) }
    ensures { OnOk result (Writes page.old page.new (rest_variables (tree_at parts.now end)) (mark_behind count (tree_at parts.now end))) }
{
    if !is_open(&parts[end]) {
        return Ok(());
    }
    page.put(separator(count))?;
    page.name(b"...'", end)
}

fn write_opening(parts: &[Part], kind: usize, page: &mut Page) -> Result<(), NoMemory>
    requires { CanPrint parts.now kind }
    ensures { OnOk result (Writes page.old page.new (kind_variables (tree_at parts.now kind)) (opening_text (tree_at parts.now kind))) }
{
    if is_open(&parts[kind]) {
        page.name(b"%", kind)?;
        return page.put(b"(");
    }
    match kind_of(&parts[kind]) {
        Some(kind) => page.put(opening(kind)),
        None => Ok(()),
    }
}

fn write_closing(parts: &[Part], kind: usize, page: &mut Page) -> Result<(), NoMemory>
    requires { CanPrint parts.now kind }
    ensures { OnOk result (Writes page.old page.new [] (λ all. closing_text (tree_at parts.now kind))) }
{
    if is_open(&parts[kind]) {
        return page.put(b")");
    }
    match kind_of(&parts[kind]) {
        Some(kind) => page.put(closing(kind)),
        None => Ok(()),
    }
}

fn is_open(part: &Part) -> bool
    ensures { result ≡ is_open part.now }
{
    match part {
        Part::Is(_) => false,
        _ => true,
    }
}

fn kind_of(part: &Part) -> Option<Kind>
    ensures { result ≡ kind_of part.now }
{
    match part {
        Part::Is(Node::Fixed(kind)) => Some(*kind),
        _ => None,
    }
}
