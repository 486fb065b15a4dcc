//! What can be wrong with a program and with its catalogue, and the rule that tells of it.
ghost use Rattle.std.specs.Prelude.{◌≡◌, ◌++◌, IfOk, OnOk};
ghost use Rattle.kl_why.specs.Rules.{back_of, front_of, name_in, rule_of, wrong_status};
ghost use Rattle.kl_why.specs.declared.wrong.Refusal.TheVariants.{NoMemory as WantOfMemory};

use crate::place::put;
use kl_base::{Label, NoMemory};
use std::alloc::Global;

/// What is wrong at a byte of a program or of a catalogue.
#[derive(Drop, PartialEq, Eq)]
pub enum Wrong {
    /// A token is due, and none starts there.
    NoToken,
    /// No program goes on so.
    Syntax,
    /// It stands inside 256 others.
    Nesting,
    /// The name stands for nothing.
    Unknown(Label),
    /// The name stands there a second time.
    Twice(Label),
    /// The name does not take so many arguments.
    Misapplied(Label),
    /// The pattern has to match, and may not.
    Refutable,
    /// The term of the declaration that begins there has more than 4,096 nodes.
    TermNodes,
    /// The term of the declaration that begins there is deeper than 512.
    TermDepth,
    /// The declaration that begins there has no type, and those before it have one.
    NoTyping,
    /// No catalogue goes on so.
    NoCatalogue,
    /// The entry that begins there has a name that stands before, or a primitive's.
    NameTwice(Label),
    /// The entry that begins there names a driver that is not there.
    NoDriver(Label),
    /// The entry that begins there has a type that does not suit its driver.
    Unsuited(Label),
}

/// Why a text is refused: what is wrong at a byte of it, or want of memory.
#[derive(Drop, PartialEq, Eq)]
pub enum Refusal {
    Wrong { wrong: Wrong, byte: u32 },
    NoMemory,
}

impl From<NoMemory> for Refusal {
    ghost from_gives = { λ _ e. e ≡ WantOfMemory };

    fn from(_error: NoMemory) -> Refusal {
        Refusal::NoMemory
    }
}

/// The status with which `kleisli` refuses it.
pub fn wrong_status(wrong: &Wrong) -> u8
    ensures { result ≡ wrong_status wrong.now }
{
    match wrong {
        Wrong::NoToken
        | Wrong::Syntax
        | Wrong::Unknown(_)
        | Wrong::Twice(_)
        | Wrong::Misapplied(_)
        | Wrong::Refutable => 2,
        Wrong::NoTyping => 3,
        Wrong::NoCatalogue | Wrong::NameTwice(_) | Wrong::NoDriver(_) | Wrong::Unsuited(_) => 4,
        Wrong::Nesting | Wrong::TermNodes | Wrong::TermDepth => 10,
    }
}

/// The rule that is broken, in a sentence.
///
/// # Errors
/// Want of memory.
pub fn rule_of(alloc: Global, wrong: &Wrong) -> Result<Vec<u8>, NoMemory>
    ensures { IfOk result (λ sentence. sentence.items ≡ rule_of wrong.now) }
{
    let mut sentence = Vec::new(alloc);
    put(front_of(wrong), &mut sentence)?;
    put(name_in(wrong), &mut sentence)?;
    put(back_of(wrong), &mut sentence)?;
    Ok(sentence)
}

// What stands before the name.
fn front_of(wrong: &Wrong) -> &'static [u8]
    ensures { result.now ≡ front_of wrong.now }
{
    match wrong {
        Wrong::NoToken => {
            b"no token starts here: tokens are words, digits up to 9223372036854775808, texts in double quotes, and symbols"
        }
        Wrong::Syntax => b"no program goes on so: up to here it is the front of one",
        Wrong::Nesting => b"this nests too deep: it stands inside 256 others",
        Wrong::Unknown(_) => b"nothing has the name ",
        Wrong::Twice(_) => b"the name ",
        Wrong::Misapplied(_) => b"the name ",
        Wrong::Refutable => {
            b"this pattern may not fit, and has to: a constant, a bare name or a variant stands in generators alone"
        }
        Wrong::TermNodes => {
            b"this declaration is too large: with each name written out it has more than 4,096 parts"
        }
        Wrong::TermDepth => {
            b"this declaration is too deep: with each name written out it nests deeper than 512"
        }
        Wrong::NoTyping => {
            b"this declaration has no type: whatever type each part of it is given, two of them do not go together"
        }
        Wrong::NoCatalogue => {
            b"no catalogue goes on so: an entry is source NAME : TYPE = DRIVER \"LOCATOR\";"
        }
        Wrong::NameTwice(_) => b"the name ",
        Wrong::NoDriver(_) => b"there is no driver ",
        Wrong::Unsuited(_) => b"the type of ",
    }
}

fn name_in(wrong: &Wrong) -> &[u8]
    ensures { result.now ≡ name_in wrong.now }
{
    match wrong {
        Wrong::Unknown(name) => name.slice(),
        Wrong::Twice(name) => name.slice(),
        Wrong::Misapplied(name) => name.slice(),
        Wrong::NameTwice(name) => name.slice(),
        Wrong::NoDriver(name) => name.slice(),
        Wrong::Unsuited(name) => name.slice(),
        _ => b"",
    }
}

// What stands behind the name.
fn back_of(wrong: &Wrong) -> &'static [u8]
    ensures { result.now ≡ back_of wrong.now }
{
    match wrong {
        Wrong::Unknown(_) => {
            b" here: it is no variable, no definition before, no source and, in a call, no primitive"
        }
        Wrong::Twice(_) => {
            b" stands here a second time: a pattern binds it once, a record or a case has the label once, and no definition has the name of another, of a source or of a primitive"
        }
        Wrong::Misapplied(_) => {
            b" is not used so: a function takes one argument, a primitive as many as it has, and no other name takes any"
        }
        Wrong::NameTwice(_) => b" is taken: an entry before it has it, or a primitive",
        Wrong::NoDriver(_) => b": the drivers are flat, nested, sql and made",
        Wrong::Unsuited(_) => {
            b" does not suit its driver: that of a table is a collection of records of bool, int and string, and that of nested a collection"
        }
        _ => b"",
    }
}
