//! With what the new names of an expansion's variables begin.
ghost use Rattle.std.specs.Prelude.{◌≡◌, false, nat_eq, Some, ℕ, IfOk, map};
ghost use Rattle.kl_prim.specs.Table.{rows};
ghost use Rattle.std.specs.List.{list_any, starts_with};
ghost use Rattle.kl_outcome.specs.Outcome.{Name};
ghost use Rattle.kl_syntax.specs.View.{decls_of};
ghost use Rattle.kl_ho.specs.Plain.{first_arity};
ghost use Rattle.kl_ho.specs.Shapes.{DefinesOld};
ghost use Rattle.kl_functions.specs.Bases.{is_begun, IsFirstFree};

use kl_base::{Label, NoMemory};
use kl_prim::{PrimRow, table};
use kl_syntax::{Decl, Program};
use std::alloc::Global;

/// The first of `v_`, `vv_`, `vvv_`, .. with which no name of a definition, a source or a primitive begins.
///
/// # Errors
/// Want of memory.
pub fn base(alloc: Global, program: &Program, sources: &[Label]) -> Result<Label, NoMemory>
    ensures first { IfOk result (λ b. IsFirstFree program.now.defs sources.now b) }
    ensures first_old { IfOk result (λ b. (x : Name) (k : ℕ) → first_arity sources.now x ≡ Some k → starts_with nat_eq x b ≡ false) }
    ensures defines_old { IfOk result (λ b. DefinesOld (λ x. starts_with nat_eq x b) (decls_of program.now.defs)) }
{
    let defs = program.defs.slice();
    let mut bytes = Vec::from_slice(alloc, b"v_")?;
    'tries: for _tried in 0..u32::MAX {
        if !is_begun(defs, sources, &bytes) {
            return word_of(alloc, &bytes);
        }
        bytes.insert(0, b'v')?;
    }
    Err(NoMemory)
}

// The label of these bytes. A base is a word, so no other answer comes.
fn word_of(alloc: Global, bytes: &[u8]) -> Result<Label, NoMemory>
    ensures { IfOk result (λ l. l ≡ bytes.now) }
{
    match Label::new(alloc, bytes)? {
        Some(label) => Ok(label),
        None => Err(NoMemory),
    }
}

fn is_begun(defs: &[Decl], sources: &[Label], base: &[u8]) -> bool
    ensures { result ≡ is_begun defs.now sources.now base.now }
{
    begins_definition(defs, base) || begins_source(sources, base) || begins_primitive(base)
}

fn begins_definition(defs: &[Decl], base: &[u8]) -> bool
    ensures { result ≡ list_any (λ d. starts_with nat_eq d.name.text base.now) defs.now }
{
    defs.iter()
        .any(|def| def.name.text.slice().starts_with(base))
}

fn begins_source(sources: &[Label], base: &[u8]) -> bool
    ensures { result ≡ list_any (λ s. starts_with nat_eq s base.now) sources.now }
{
    sources
        .iter()
        .any(|source| source.slice().starts_with(base))
}

fn begins_primitive(base: &[u8]) -> bool
    ensures { result ≡ list_any (λ e. starts_with nat_eq e.name base.now) (map (λ r. r.entry) rows) }
{
    begins_row(table().rows, base)
}

fn begins_row(rows: &[PrimRow], base: &[u8]) -> bool
    ensures { result ≡ list_any (λ r. starts_with nat_eq r.name.now base.now) rows.now }
{
    rows.iter().any(|row| row.name.starts_with(base))
}
