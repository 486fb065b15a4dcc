//! The type of a file of values.
ghost use Rattle.std.specs.Prelude.{◌≡◌, ◌⊎◌, ◌≤◌, Bool, None, Some, false, true, IfErr, IfOk, IsSome};
ghost use Rattle.kl_shape.specs.Shapes.{sound};
ghost use Rattle.kl_columns.specs.Causes.{RefusesValues, refusal_as};
ghost use Rattle.kl_columns.specs.Listing.{HasTypeAs};
ghost use Rattle.kl_columns.specs.declared.refusal.Refusal.TheVariants as refusal;
ghost use Rattle.kl_columns.specs.Reading.{IsBeforeItems, IsLeastOf, JoinsItem, ReadsItems, ReadsThrough, ReadsValues, unread_as};

use crate::refusal::Refusal;
use kl_base::{Box, NoMemory, Text};
use kl_exchange::{FileError, MOST_READ};
use kl_heads::FileReader;
use kl_outside::{Files, Stop};
use kl_shape::{Shape, filled, join};
use kl_type::{Ty, has};
use kl_value::{Kind, Value};
use std::alloc::Global;

// How many bytes are fetched at a time.
const PIECE: usize = 65_536;

/// Why a file of values has no type to be listed with.
#[derive(Clone, Copy)]
pub enum Unfit {
    /// At this place no head and no item goes on, or an item lacks the type that is stated.
    Bad { place: u64 },
    /// The item of this number, the first being 1, has no type in common with those before it.
    Untyped { item: u64 },
    /// An item nests too deep.
    TooDeep,
    /// The file has more bytes than are looked at.
    TooLong,
    /// The file is missing, or a read failed.
    Read,
    /// Want of memory.
    NoMemory,
}

/// The type of the file of values at a path, as that of a bag: of what its head states, or else of the least type that its
/// items have in common. The items are read one by one.
///
/// # Errors
/// `Read` where the file is missing or fails, `FileBytes` where it is too long, `ItemNesting`, `BadText` and `NoCommonType` as
/// they say. Want of memory.
pub fn type_of_values<F: Files>(alloc: Global, files: &mut F, path: &Text) -> Result<Ty, Refusal>
    ensures told { (F.state files.new).told ≡ (F.state files.old).told }
    ensures later { (F.state files.old).faults ≤ (F.state files.new).faults }
    ensures rows { IfOk result (λ ty. (sql : Bool) → HasTypeAs false sql (F.state files.old).told path.now ty) }
    ensures why { IfErr result (λ r. RefusesValues r path.now (F.state files.old) (F.state files.new)) }
{
    match read_values(alloc, files, path.slice()) {
        Ok(item) => {
            let item = Box::new(alloc, item)?;
            Ok(Ty::Coll(Kind::Bag, item))
        }
        Err(unfit) => Err(refusal_for(alloc, path, unfit)),
    }
}

fn refusal_for(alloc: Global, path: &Text, unfit: Unfit) -> Refusal
    ensures { (result ≡ refusal_as path.now unfit) ⊎ (result ≡ refusal.NoMemory) }
{
    match unfit {
        Unfit::Bad { place } => match path.dup(alloc) {
            Ok(path) => Refusal::BadText { path, place },
            Err(_) => Refusal::NoMemory,
        },
        Unfit::Untyped { item } => match path.dup(alloc) {
            Ok(path) => Refusal::NoCommonType { path, item },
            Err(_) => Refusal::NoMemory,
        },
        Unfit::TooDeep => Refusal::ItemNesting,
        Unfit::TooLong => Refusal::FileBytes,
        Unfit::Read => Refusal::Read,
        Unfit::NoMemory => Refusal::NoMemory,
    }
}

// The type of the items of the file at a path, which is closed in every case.
fn read_values<F: Files>(alloc: Global, files: &mut F, path: &[u8]) -> Result<Ty, Unfit>
    ensures { ReadsValues path.now result (F.state files.old) (F.state files.new) }
{
    let file = match files.open_path(path) {
        Ok(file) => file,
        Err(Stop::Failed) => return Err(Unfit::Read),
        Err(Stop::NoMemory) => return Err(Unfit::NoMemory),
    };
    let result = read_open(alloc, files, file);
    files.close(file);
    result
}

// The type of the items of an open file.
fn read_open<F: Files>(alloc: Global, files: &mut F, file: u64) -> Result<Ty, Unfit>
    requires { IsSome ((F.state files.old).left file) }
    ensures { ReadsThrough file result (F.state files.old) (F.state files.new) }
{
    let mut reader = FileReader::new(alloc, file, MOST_READ, PIECE);
    match reader.head(files) {
        Ok(Some(ty)) => read_stated(files, &mut reader, ty),
        Ok(None) => read_unstated(alloc, files, &mut reader),
        Err(error) => Err(unread(error)),
    }
}

// Reads the items of a file that states their type.
fn read_stated<F: Files>(files: &mut F, reader: &mut FileReader, ty: Ty) -> Result<Ty, Unfit>
    requires is_open { IsSome ((F.state files.old).left reader.old.items.file) }
    requires before { IsBeforeItems (Some ty) reader.old ((F.state files.old).left reader.old.items.file) }
    ensures { ReadsItems (Some ty) result reader.old (F.state files.old) (F.state files.new) }
{
    'items: loop {
        let place = reader.place();
        match reader.next(files) {
            Ok(Some(value)) => {
                if !has(&value, &ty) {
                    return Err(Unfit::Bad { place });
                }
            }
            Ok(None) => return Ok(ty),
            Err(error) => return Err(unread(error)),
        }
    }
}

// Reads the items of a file that states no type.
fn read_unstated<F: Files>(
    alloc: Global,
    files: &mut F,
    reader: &mut FileReader,
) -> Result<Ty, Unfit>
    requires is_open { IsSome ((F.state files.old).left reader.old.items.file) }
    requires before { IsBeforeItems None reader.old ((F.state files.old).left reader.old.items.file) }
    ensures { ReadsItems None result reader.old (F.state files.old) (F.state files.new) }
{
    let mut shape = Shape::Unseen;
    let mut count = 0u64;
    'items: loop {
        match reader.next(files) {
            Ok(Some(value)) => {
                count += 1;
                shape = match joined(alloc, &value, &shape, count) {
                    Ok(shape) => shape,
                    Err(unfit) => return Err(unfit),
                };
            }
            Ok(None) => return least(alloc, &shape),
            Err(error) => return Err(unread(error)),
        }
    }
}

// The shape of the types that have a shape and the item of this number.
fn joined(alloc: Global, value: &Value, shape: &Shape, item: u64) -> Result<Shape, Unfit>
    requires { sound shape.now ≡ true }
    ensures { JoinsItem shape.now value.now item result }
{
    match join(alloc, value, shape) {
        Ok(Some(joined)) => Ok(joined),
        Ok(None) => Err(Unfit::Untyped { item }),
        Err(NoMemory) => Err(Unfit::NoMemory),
    }
}

// The least type of a shape.
fn least(alloc: Global, shape: &Shape) -> Result<Ty, Unfit>
    requires { sound shape.now ≡ true }
    ensures { IsLeastOf shape.now result }
{
    match filled(alloc, shape) {
        Ok(ty) => Ok(ty),
        Err(NoMemory) => Err(Unfit::NoMemory),
    }
}

fn unread(error: FileError) -> Unfit
    ensures { result ≡ unread_as error }
{
    match error {
        FileError::Bad { place } => Unfit::Bad { place },
        FileError::TooDeep { .. } => Unfit::TooDeep,
        FileError::TooLong => Unfit::TooLong,
        FileError::Read => Unfit::Read,
        FileError::NoMemory => Unfit::NoMemory,
    }
}
