//! What is wrong with a source at a byte of its file, and the sentence that tells of it.
ghost use Rattle.std.specs.Prelude.{◌≡◌, ◌++◌, IfOk, OnOk, codes, decimal};
ghost use Rattle.kl_why.specs.Sources.{unfit_sentence, unfit_status, unfit_text};

use crate::place::put;
use itoa::Buffer;
use kl_base::{Label, NoMemory, Text};
use std::alloc::Global;

/// What is wrong at a byte of a source's file.
#[derive(Drop, PartialEq, Eq)]
pub enum Unfit {
    /// The record of this number is bad, the header being 0, and by this column alone it would be too. `what` says what is seen
    /// there.
    Column {
        number: u64,
        column: Label,
        what: Text,
    },
    /// The record of this number is bad.
    Record(u64),
    /// No item of this type goes on so.
    Item(Text),
    /// It cannot be read as its type.
    Bad,
    /// A bracket stands inside 256 others.
    Deep,
}

/// The status with which `kleisli` refuses it.
pub fn unfit_status(unfit: &Unfit) -> u8
    ensures { result ≡ unfit_status unfit.now }
{
    match unfit {
        Unfit::Column { .. } | Unfit::Record(_) | Unfit::Item(_) | Unfit::Bad => 5,
        Unfit::Deep => 10,
    }
}

/// What is wrong with the source of a name, in a sentence.
///
/// # Errors
/// Want of memory.
pub fn unfit_sentence(alloc: Global, name: &Label, unfit: &Unfit) -> Result<Vec<u8>, NoMemory>
    ensures { IfOk result (λ sentence. sentence.items ≡ unfit_sentence name.now unfit.now) }
{
    let mut sentence = Vec::new(alloc);
    put(b"source ", &mut sentence)?;
    put(name.slice(), &mut sentence)?;
    put_unfit(unfit, &mut sentence)?;
    Ok(sentence)
}

fn put_unfit(unfit: &Unfit, sentence: &mut Vec<u8>) -> Result<(), NoMemory>
    ensures { OnOk result (sentence.new.items ≡ sentence.old.items ++ unfit_text unfit.now) }
{
    match unfit {
        Unfit::Column {
            number,
            column,
            what,
        } => {
            put_record(*number, sentence)?;
            put(b", column ", sentence)?;
            put(column.slice(), sentence)?;
            put(b": ", sentence)?;
            put(what.slice(), sentence)
        }
        Unfit::Record(number) => put_record(*number, sentence),
        Unfit::Item(ty) => put_item(ty.slice(), sentence),
        Unfit::Bad => put(b": it cannot be read as its type, and is bad", sentence),
        Unfit::Deep => put(b": this bracket stands inside 256 others", sentence),
    }
}

fn put_record(number: u64, sentence: &mut Vec<u8>) -> Result<(), NoMemory>
    ensures { OnOk result (sentence.new.items ≡ sentence.old.items ++ codes ": bad record " ++ decimal number) }
{
    put(b": bad record ", sentence)?;
    put(Buffer::new().format(number).as_bytes(), sentence)
}

fn put_item(ty: &[u8], sentence: &mut Vec<u8>) -> Result<(), NoMemory>
    ensures { OnOk result (sentence.new.items ≡ sentence.old.items ++ codes ": no item goes on so, which is a value of the type " ++ ty.now ++ codes " and a semicolon") }
{
    put(
        b": no item goes on so, which is a value of the type ",
        sentence,
    )?;
    put(ty, sentence)?;
    put(b" and a semicolon", sentence)
}
