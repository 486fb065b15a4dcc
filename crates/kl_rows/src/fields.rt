//! Lists of fields: what one has more than another, and what both have.
ghost use Rattle.std.specs.Prelude.{◌≡◌, ◌++◌, IfOk, OnOk};
ghost use Rattle.kl_base.specs.Fields.{field};
ghost use Rattle.kl_rows.specs.Lists.{only, both, IsIndex};

use kl_base::{Label, NoMemory};
use std::alloc::Global;
use std::collections::HashMap;

// Lists up to this length are walked; in longer ones a label is looked up by its key.
const FEW: usize = 8;

/// The number at a label, if it is there.
pub fn look(fields: &[(Label, usize)], label: &Label) -> Option<usize>
    ensures { result ≡ field label.now fields.now }
{
    for pair in fields {
        if *label == pair.0 {
            return Some(pair.1);
        }
    }
    None
}

// The fields by their labels, where they are more than a few.
fn index_of(
    alloc: Global,
    fields: &[(Label, usize)],
) -> Result<Option<HashMap<Label, usize>>, NoMemory>
    ensures { IfOk result (λ index. IsIndex index fields.now) }
{
    if fields.len() <= FEW {
        return Ok(None);
    }
    let mut index = HashMap::new(alloc);
    // The first of two fields with one label counts, so it comes last.
    'fields: for i in (0..fields.len()).rev() {
        let field = &fields[i];
        let label = field.0.dup()?;
        index.insert(label, field.1)?;
    }
    Ok(Some(index))
}

fn find_in(
    index: &Option<HashMap<Label, usize>>,
    fields: &[(Label, usize)],
    label: &Label,
) -> Option<usize>
    requires { IsIndex index.now fields.now }
    ensures { result ≡ field label.now fields.now }
{
    match index {
        None => look(fields, label),
        Some(index) => index.get(label).copied(),
    }
}

/// The fields of the first list whose labels the second lacks.
pub fn only(
    alloc: Global,
    first: &[(Label, usize)],
    second: &[(Label, usize)],
) -> Result<Vec<(Label, usize)>, NoMemory>
    ensures { IfOk result (λ fields. fields.items ≡ only first.now second.now) }
{
    let index = index_of(alloc, second)?;
    let mut fields = Vec::new(alloc);
    for pair in first {
        if find_in(&index, second, &pair.0).is_none() {
            fields.push((pair.0.dup()?, pair.1))?;
        }
    }
    Ok(fields)
}

/// Adds the two numbers of each label that both have.
pub fn add_both(
    alloc: Global,
    first: &[(Label, usize)],
    second: &[(Label, usize)],
    pairs: &mut Vec<(usize, usize)>,
) -> Result<(), NoMemory>
    ensures { OnOk result (pairs.new.items ≡ pairs.old.items ++ both first.now second.now) }
{
    let index = index_of(alloc, second)?;
    for pair in first {
        if let Some(other) = find_in(&index, second, &pair.0) {
            pairs.push((pair.1, other))?;
        }
    }
    Ok(())
}

/// Adds the fields to the others.
pub fn add_fields(fields: &mut Vec<(Label, usize)>, more: &[(Label, usize)]) -> Result<(), NoMemory>
    ensures { OnOk result (fields.new.items ≡ fields.old.items ++ more.now) }
{
    for pair in more {
        fields.push((pair.0.dup()?, pair.1))?;
    }
    Ok(())
}

/// Adds the labels to the others.
pub fn add_labels(labels: &mut Vec<Label>, more: &[Label]) -> Result<(), NoMemory>
    ensures { OnOk result (labels.new.items ≡ labels.old.items ++ more.now) }
{
    for label in more {
        labels.push(label.dup()?)?;
    }
    Ok(())
}
