//! The records of a table.
ghost use Rattle.std.specs.Prelude.{IfOk, map};
ghost use Rattle.csv.specs.Reading.{AreRecords, strip_bom};
ghost use Rattle.csv.specs.Records.{fields_of};
ghost use Rattle.csv.specs.declared.parser.State.TheVariants as state;
ghost use Rattle.kl_tidy.specs.Tables.{config_of};

use csv::{ByteRecord, ReaderBuilder};
use kl_base::NoMemory;
use std::alloc::Global;

/// The records of a table whose cells have this byte between them.
///
/// # Errors
/// Want of memory.
pub fn records_of(alloc: Global, bytes: &[u8], delimiter: u8) -> Result<Vec<ByteRecord>, NoMemory>
    ensures { IfOk result (λ records. AreRecords (config_of delimiter) state.StartRecord (strip_bom bytes.now) (map fields_of records.items)) }
{
    let reader = ReaderBuilder::new()
        .has_headers(false)
        .flexible(true)
        .delimiter(delimiter)
        .from_reader(alloc, bytes);
    let mut records = Vec::new(alloc);
    for record in reader.into_byte_records() {
        let Ok(record) = record else {
            return Err(NoMemory);
        };
        records.push(record)?;
    }
    Ok(records)
}
