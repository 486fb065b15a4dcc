//! Why a source is refused.
ghost use Rattle.std.specs.Prelude.{◌≡◌, IfOk, IfSome};
ghost use Rattle.kl_why.specs.Refused.{AreBytes, BlamesBytes, BlamesSource};
ghost use Rattle.kl_why.specs.declared.why.Why.TheVariants as why;

use crate::record::{Blame, blame_table};
use crate::unfit::Unfit;
use crate::why::{Spot, Why};
use kl_ask::DriverError;
use kl_base::{NoMemory, Text};
use kl_flat::is_table_type;
use kl_outside::{Files, Whole, read_whole};
use kl_sources::Source;
use kl_type::{Ty, print_type};
use std::alloc::Global;

// The greatest length of a source's file that is shown.
const MOST_BYTES: u64 = 268_435_456;

/// Why the driver of a source refuses it, with the record or the item where it has one in a file that can be shown.
///
/// # Errors
/// Want of memory.
pub fn why_source<F: Files>(
    alloc: Global,
    files: &mut F,
    source: &Source,
    error: &DriverError,
    is_nested: bool,
) -> Result<Why, NoMemory>
    ensures { IfOk result (λ w. BlamesSource (F.state files.old).told source.now error.now w) }
{
    match error {
        DriverError::BadSource { place } => match bytes_of(alloc, files, source) {
            Some(bytes) => bad_in(alloc, source, bytes, *place, is_nested),
            None => not_shown(source, Unfit::Bad, *place),
        },
        DriverError::TooDeep { place } => match bytes_of(alloc, files, source) {
            Some(bytes) => shown(alloc, source, Unfit::Deep, bytes, *place as usize),
            None => not_shown(source, Unfit::Deep, *place),
        },
        DriverError::TooLong { most } => Ok(Why::SourceLong(source.name.dup()?, *most)),
        DriverError::Failed => unread(alloc, source),
        // (no driver answers that a source changed before it is attached)
        DriverError::Changed { .. } | DriverError::NoMemory => Err(NoMemory),
    }
}

fn unread(alloc: Global, source: &Source) -> Result<Why, NoMemory>
    ensures { IfOk result (λ w. w ≡ why.SourceUnread source.now.name source.now.locator) }
{
    Ok(Why::SourceUnread(source.name.dup()?, source.locator.dup(alloc)?))
}

// The bytes of a source's file, where they are few enough to be shown.
fn bytes_of<F: Files>(alloc: Global, files: &mut F, source: &Source) -> Option<Text>
    ensures { IfSome result (AreBytes (F.state files.old).told source.now.locator) }
{
    match read_whole(alloc, files, source.locator.slice(), MOST_BYTES) {
        Ok(Whole::Bytes(bytes)) => Some(bytes),
        Ok(Whole::TooLong) | Err(_) => None,
    }
}

// What is wrong with a source of these bytes, at a place that its driver tells.
fn bad_in(
    alloc: Global,
    source: &Source,
    bytes: Text,
    place: u64,
    is_nested: bool,
) -> Result<Why, NoMemory>
    ensures { IfOk result (BlamesBytes source.now bytes place) }
{
    if is_nested {
        let ty = print_type(alloc, item_of(&source.ty))?;
        return shown(alloc, source, Unfit::Item(ty), bytes, place as usize);
    }
    if !is_table_type(&source.ty) {
        return not_shown(source, Unfit::Bad, place);
    }
    match blame_table(alloc, bytes.slice(), &source.ty)? {
        Some(Blame { unfit, byte }) => shown(alloc, source, unfit, bytes, byte),
        None => not_shown(source, Unfit::Bad, place),
    }
}

// What is wrong at a byte of a source's file.
fn shown(
    alloc: Global,
    source: &Source,
    unfit: Unfit,
    bytes: Text,
    byte: usize,
) -> Result<Why, NoMemory>
    ensures { IfOk result (λ w. w ≡ why.Source source.now.name unfit (record { path = source.now.locator; bytes = bytes; byte = byte })) }
{
    let name = source.name.dup()?;
    let path = source.locator.dup(alloc)?;
    Ok(Why::Source(name, unfit, Spot { path, bytes, byte }))
}

// The same of a file that is not shown.
fn not_shown(source: &Source, unfit: Unfit, place: u64) -> Result<Why, NoMemory>
    ensures { IfOk result (λ w. w ≡ why.SourceAt source.now.name unfit place) }
{
    let name = source.name.dup()?;
    Ok(Why::SourceAt(name, unfit, place))
}

// The type of a collection's items.
fn item_of(ty: &Ty) -> &Ty {
    match ty {
        Ty::Coll(_, item) => item.get(),
        other => other,
    }
}
