//! Which record of a table is bad, and by which column.
ghost use Rattle.std.specs.Prelude.{◌≡◌, ◌∷◌, [], Some, IfOk, IsTrue, MatchOption, true, ⊤};
ghost use Rattle.kl_ask.specs.Tables.{columns_of};
ghost use Rattle.kl_flat.specs.Columns.{is_table_type};
ghost use Rattle.kl_flat.specs.Table.{bad_record};
ghost use Rattle.kl_why.specs.Sources.{Blames, IsBadAlone};

use crate::place::put;
use crate::unfit::Unfit;
use csv::{ByteRecord, ReaderBuilder};
use itoa::Buffer;
use kl_ask::columns_of;
use kl_base::{Box, Label, NoMemory, Seq, Text};
use kl_flat::{is_table_type, read_columns};
use kl_type::{Ty, print_type};
use kl_value::Kind;
use std::alloc::Global;

// How much of a cell is shown.
const WIDTH: usize = 60;

/// What is wrong at a byte of a table.
#[derive(Drop)]
pub struct Blame {
    pub unfit: Unfit,
    pub byte: usize,
}

/// The first bad record of a table, and the byte where it begins.
///
/// # Errors
/// Want of memory.
pub fn blame_table(alloc: Global, bytes: &[u8], ty: &Ty) -> Result<Option<Blame>, NoMemory>
    requires { IsTrue (is_table_type ty.now) }
    ensures { IfOk result (λ found. MatchOption found ⊤ (λ b. Blames ty.now bytes.now b.unfit)) }
{
    let front = read_columns(alloc, bytes, ty)?;
    match front.bad {
        None => Ok(None),
        Some(number) => Ok(Some(blame_record(alloc, bytes, ty, number)?)),
    }
}

// What is wrong with the bad record of a number.
fn blame_record(alloc: Global, bytes: &[u8], ty: &Ty, number: u64) -> Result<Blame, NoMemory>
    requires { bad_record bytes.now ty.now ≡ Some number }
    ensures { IfOk result (λ b. Blames ty.now bytes.now b.unfit) }
{
    let seen = see(alloc, bytes, number)?;
    let unfit = unfit_of(alloc, bytes, ty, number, &seen)?;
    Ok(Blame {
        unfit,
        byte: seen.byte,
    })
}

// The bad record of a number, with the first column by which it is bad.
fn unfit_of(
    alloc: Global,
    bytes: &[u8],
    ty: &Ty,
    number: u64,
    seen: &Seen,
) -> Result<Unfit, NoMemory>
    requires { bad_record bytes.now ty.now ≡ Some number }
    ensures { IfOk result (Blames ty.now bytes.now) }
{
    match blamed(alloc, bytes, columns_of(ty), number)? {
        Some(column) => Ok(Unfit::Column {
            number,
            column: column.0.dup()?,
            what: what_of(alloc, seen, number, column)?,
        }),
        None => Ok(Unfit::Record(number)),
    }
}

// The first of these columns by which alone the record of a number is bad too.
fn blamed<'a>(
    alloc: Global,
    bytes: &[u8],
    columns: &'a [(Label, Ty)],
    number: u64,
) -> Result<Option<&'a (Label, Ty)>, NoMemory>
    ensures { IfOk result (λ found. MatchOption found ⊤ (λ c. IsBadAlone bytes.now number c.now)) }
{
    for column in columns {
        if is_bad_alone(alloc, bytes, column, number)? {
            return Ok(Some(column));
        }
    }
    Ok(None)
}

// Whether the record of a number is the first bad one where the table has this column alone.
fn is_bad_alone(
    alloc: Global,
    bytes: &[u8],
    column: &(Label, Ty),
    number: u64,
) -> Result<bool, NoMemory>
    ensures { IfOk result (λ found. found ≡ true → IsBadAlone bytes.now number column.now) }
{
    let alone = of_column(alloc, column)?;
    if !is_table_type(&alone) {
        return Ok(false);
    }
    let front = read_columns(alloc, bytes, &alone)?;
    match front.bad {
        Some(bad) => Ok(bad == number),
        None => Ok(false),
    }
}

// The type of tables with one column.
fn of_column(alloc: Global, column: &(Label, Ty)) -> Result<Ty, NoMemory>
    ensures { IfOk result (λ ty. columns_of ty ≡ column.now ∷ []) }
{
    let mut fields = Vec::new(alloc);
    fields.push((column.0.dup()?, column.1.dup(alloc)?))?;
    let row = Box::new(alloc, Ty::Rec(Seq::of(fields)))?;
    Ok(Ty::Coll(Kind::Bag, row))
}

// The header and a record of a table, and the byte where that begins.
#[derive(Drop)]
struct Seen {
    header: ByteRecord,
    entry: ByteRecord,
    byte: usize,
}

fn see(alloc: Global, bytes: &[u8], number: u64) -> Result<Seen, NoMemory> {
    let mut reader = ReaderBuilder::new()
        .has_headers(false)
        .flexible(true)
        .from_reader(alloc, bytes);
    let mut header = ByteRecord::new(alloc);
    let Ok(_) = reader.read_byte_record(&mut header) else {
        return Err(NoMemory);
    };
    let mut entry = ByteRecord::new(alloc);
    let mut byte = 0;
    for _ in 0..number {
        byte = reader.position().byte();
        match reader.read_byte_record(&mut entry) {
            Ok(true) => {}
            Ok(false) => break,
            Err(_) => return Err(NoMemory),
        }
    }
    let byte = (byte as usize).min(bytes.len());
    Ok(Seen {
        header,
        entry,
        byte: byte.saturating_add(blanks(bytes, byte)),
    })
}

// How many ends of lines stand at a byte.
fn blanks(bytes: &[u8], byte: usize) -> usize {
    bytes[byte.min(bytes.len())..]
        .iter()
        .take_while(|byte| matches!(**byte, b'\n' | b'\r'))
        .count()
}

// What is seen under a column.
fn what_of(
    alloc: Global,
    seen: &Seen,
    number: u64,
    column: &(Label, Ty),
) -> Result<Text, NoMemory> {
    let mut text = Vec::new(alloc);
    if number == 0 {
        put(b"the header has it ", &mut text)?;
        put_number(times(&seen.header, &column.0), &mut text)?;
        put(b" times, and has to have it once", &mut text)?;
    } else if seen.entry.len() != seen.header.len() {
        put(b"the record has ", &mut text)?;
        put_number(seen.entry.len(), &mut text)?;
        put(b" cells, and the header ", &mut text)?;
        put_number(seen.header.len(), &mut text)?;
    } else {
        put(b"\"", &mut text)?;
        put_cell(cell_under(seen, &column.0), &mut text)?;
        put(b"\" is no ", &mut text)?;
        let ty = print_type(alloc, &column.1)?;
        put(ty.slice(), &mut text)?;
    }
    Ok(Text::of(text))
}

fn put_number(number: usize, text: &mut Vec<u8>) -> Result<(), NoMemory> {
    put(Buffer::new().format(number).as_bytes(), text)
}

// A cell as it is shown: its front, with a blank in place of a byte that moves the writing.
fn put_cell(cell: &[u8], text: &mut Vec<u8>) -> Result<(), NoMemory> {
    for byte in &cell[..cell.len().min(WIDTH)] {
        let shown = if *byte < 32 { b' ' } else { *byte };
        put(&[shown], text)?;
    }
    Ok(())
}

// Whether the header has a label in this place.
fn has_at(header: &ByteRecord, label: &Label, at: usize) -> bool {
    match header.get(at) {
        Some(cell) => cell == label.slice(),
        None => false,
    }
}

// How often a header has a label.
fn times(header: &ByteRecord, label: &Label) -> usize {
    let mut times: usize = 0;
    for at in 0..header.len() {
        if has_at(header, label, at) {
            times = times.saturating_add(1);
        }
    }
    times
}

// The cell of a record under a label.
fn cell_under<'a>(seen: &'a Seen, label: &Label) -> &'a [u8] {
    for at in 0..seen.header.len() {
        if has_at(&seen.header, label, at) {
            return seen.entry.get(at).unwrap_or(b"");
        }
    }
    b""
}
