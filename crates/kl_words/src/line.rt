//! The command lines, as `clap` is told them.
ghost use Rattle.std.specs.Prelude.{◌≡◌, false, IfOk};
ghost use Rattle.clap.specs.Words.{app_of, rule_of};
ghost use Rattle.kl_words.specs.Lines.{amount_rule, flag_rule, gen_line, job_line, number_rule, place_rule, program_line};
ghost use Rattle.kl_words.specs.Lines.{show_line, text_rule, upgrade_line};

use clap::builder::ValueParser;
use clap::{Arg, ArgAction, Command};
use std::alloc::{AllocError, Global};

fn place<'a>(alloc: Global, name: &'a str, required: bool) -> Arg<'a>
    ensures rule { rule_of result ≡ place_rule name.entry.now required }
    ensures local { result.global ≡ false }
{
    Arg::new(alloc, name).required(required)
}

fn amount<'a>(alloc: Global, name: &'a str, most: i64) -> Arg<'a>
    ensures rule { rule_of result ≡ amount_rule name.entry.now most }
    ensures local { result.global ≡ false }
{
    Arg::new(alloc, name)
        .required(true)
        .value_parser(ValueParser::signed(0, most))
}

fn number<'a>(alloc: Global, name: &'a str, least: i64, most: i64) -> Arg<'a>
    ensures rule { rule_of result ≡ number_rule name.entry.now least most }
    ensures local { result.global ≡ false }
{
    Arg::new(alloc, name)
        .long(name)
        .value_parser(ValueParser::signed(least, most))
}

fn text<'a>(alloc: Global, name: &'a str) -> Arg<'a>
    ensures rule { rule_of result ≡ text_rule name.entry.now }
    ensures local { result.global ≡ false }
{
    Arg::new(alloc, name).long(name)
}

fn flag<'a>(alloc: Global, name: &'a str) -> Arg<'a>
    ensures rule { rule_of result ≡ flag_rule name.entry.now }
    ensures local { result.global ≡ false }
{
    Arg::new(alloc, name).long(name).action(ArgAction::SetTrue)
}

/// A command on a program and perhaps a catalogue.
///
/// # Errors
/// Want of memory.
pub fn program<'a>(alloc: Global, name: &'a str) -> Result<Command<'a>, AllocError>
    ensures { IfOk result (λ line. app_of line ≡ program_line name.entry.now) }
{
    Command::new(alloc, name)
        .arg(place(alloc, "program", true))?
        .arg(place(alloc, "catalogue", false))
}

/// A command on a program, with the options of a run.
///
/// # Errors
/// Want of memory.
pub fn job<'a>(alloc: Global, name: &'a str) -> Result<Command<'a>, AllocError>
    ensures { IfOk result (λ line. app_of line ≡ job_line name.entry.now) }
{
    program(alloc, name)?
        .arg(number(alloc, "block", 1, 65_536))?
        .arg(number(alloc, "fetch", 1, 4_096))?
        .arg(number(alloc, "cache", 0, 4_096))?
        .arg(text(alloc, "join"))?
        .arg(flag(alloc, "no-rewrite"))?
        .arg(flag(alloc, "no-delegate"))?
        .arg(number(alloc, "first", 0, 4_294_967_295))?
        .arg(flag(alloc, "stats"))
}

/// `show`, on a file.
///
/// # Errors
/// Want of memory.
pub fn show<'a>(alloc: Global) -> Result<Command<'a>, AllocError>
    ensures { IfOk result (λ line. app_of line ≡ show_line) }
{
    Command::new(alloc, "show").arg(place(alloc, "file", true))
}

/// `upgrade`, on a file and a type.
///
/// # Errors
/// Want of memory.
pub fn upgrade<'a>(alloc: Global) -> Result<Command<'a>, AllocError>
    ensures { IfOk result (λ line. app_of line ≡ upgrade_line) }
{
    Command::new(alloc, "upgrade")
        .arg(place(alloc, "file", true))?
        .arg(place(alloc, "type", true))
}

/// `gen`, with a seed and a number of rows.
///
/// # Errors
/// Want of memory.
pub fn made<'a>(alloc: Global) -> Result<Command<'a>, AllocError>
    ensures { IfOk result (λ line. app_of line ≡ gen_line) }
{
    Command::new(alloc, "gen")
        .arg(amount(alloc, "seed", 4_294_967_295))?
        .arg(amount(alloc, "size", 1_000_000))
}
