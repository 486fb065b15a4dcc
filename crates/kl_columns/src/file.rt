//! The type of a file.
ghost use Rattle.std.specs.Prelude.{◌≡◌, ◌≤◌, Bool, IfErr, IfOk};
ghost use Rattle.kl_columns.specs.Causes.{AddsNotes, RefusesFile};
ghost use Rattle.kl_columns.specs.Listing.{HasType};

use crate::refusal::Refusal;
use crate::table::type_of_table;
use crate::values::type_of_values;
use crate::words::is_table;
use kl_base::Text;
use kl_outside::Files;
use kl_type::Ty;
use std::alloc::Global;

/// The type of the table or of the file of values at a path. What is left out of it is told behind the notes.
///
/// # Errors
/// As `type_of_table` and `type_of_values`.
pub fn type_of_file<F: Files>(
    alloc: Global,
    files: &mut F,
    path: &Text,
    notes: &mut Vec<u8>,
) -> Result<Ty, Refusal>
    ensures told { (F.state files.new).told ≡ (F.state files.old).told }
    ensures later { (F.state files.old).faults ≤ (F.state files.new).faults }
    ensures rows { IfOk result (λ ty. (sql : Bool) → HasType sql (F.state files.old).told path.now ty) }
    ensures why { IfErr result (λ r. RefusesFile r path.now (F.state files.old) (F.state files.new)) }
    ensures notes { AddsNotes result (F.state files.old).told path.now notes.old.items notes.new.items }
{
    if is_table(path.slice()) {
        type_of_table(alloc, files, path, notes)
    } else {
        type_of_values(alloc, files, path)
    }
}
