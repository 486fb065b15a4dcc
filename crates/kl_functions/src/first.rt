//! What stands before a program: sources, and primitives that are called by their names.
ghost use Rattle.std.specs.Prelude.{◌≡◌};
ghost use Rattle.kl_prim.specs.Table.{entry_of};
ghost use Rattle.kl_ho.specs.Functions.{first_functions};
ghost use Rattle.kl_ho.specs.HoPrograms.{is_among};
ghost use Rattle.kl_ho.specs.Plain.{first_arity};
ghost use Rattle.kl_functions.specs.Firsts.{primitive_arity, arity_by_name, is_one};

use kl_base::Label;
use kl_prim::{PrimRow, table};

/// Whether a name is one of these.
pub fn is_label(name: &Label, names: &[Label]) -> bool
    ensures { result ≡ is_among name.now names.now }
{
    names.iter().any(|other| *name == *other)
}

/// How many arguments a name takes that stands before a program.
pub fn first_arity(sources: &[Label], name: &Label) -> Option<u8>
    ensures { result ≡ first_arity sources.now name.now }
{
    if is_label(name, sources) {
        Some(0)
    } else {
        primitive_arity(name)
    }
}

/// Whether a name that stands before a program is a function of one argument.
pub fn is_first_function(sources: &[Label], name: &Label) -> bool
    ensures { result ≡ first_functions sources.now name.now }
{
    is_one(first_arity(sources, name))
}

fn is_one(arity: Option<u8>) -> bool
    ensures { result ≡ is_one arity }
{
    match arity {
        Some(takes) => takes == 1,
        None => false,
    }
}

fn primitive_arity(name: &Label) -> Option<u8>
    ensures { result ≡ primitive_arity name.now }
{
    match table().find(name.slice()) {
        Some(row) => arity_by_name(row),
        None => None,
    }
}

// An operator is not called by its name, nor is a form of records.
fn arity_by_name(row: &PrimRow) -> Option<u8>
    ensures { result ≡ arity_by_name (entry_of row.now) }
{
    if row.code != 10 && (row.code <= 12 || row.code == 27 || row.code == 28) {
        None
    } else {
        Some(row.arity)
    }
}
