//! The records of a text.
ghost use Rattle.std.specs.Prelude.{◌≡◌, ◌∷◌, [], true, IfOk, MatchBool};
ghost use Rattle.csv.specs.Reading.{default_config, records, strip_bom};
ghost use Rattle.csv.specs.Records.{fields_of};
ghost use Rattle.kl_flat.specs.Records.{IsPlain, records_left};

use csv::{ByteRecord, Reader, ReaderBuilder};
use kl_base::NoMemory;
use std::alloc::Global;

/// A reader of all records, the first of them and those of other lengths too.
pub fn reader(alloc: Global, bytes: &[u8]) -> Reader<&[u8]>
    ensures plain { IsPlain result }
    ensures records { records_left result ≡ records default_config (strip_bom bytes.now) }
{
    ReaderBuilder::new()
        .has_headers(false)
        .flexible(true)
        .from_reader(alloc, bytes)
}

/// Reads the next record into `entry`, and says whether there was one.
///
/// # Errors
/// Want of memory. Beside it csv's clauses leave only an error of the input open, which bytes in memory do not have.
pub fn next_record(reader: &mut Reader<&[u8]>, entry: &mut ByteRecord) -> Result<bool, NoMemory>
    requires { IsPlain reader.old }
    ensures plain { IfOk result (λ found. MatchBool found (IsPlain reader.new) (records_left reader.old ≡ [])) }
    ensures record { IfOk result (λ found. found ≡ true → records_left reader.old ≡ fields_of entry.new ∷ records_left reader.new) }
{
    let Ok(found) = reader.read_byte_record(entry) else {
        return Err(NoMemory);
    };
    Ok(found)
}
