//! Spans of bytes that a machine takes at once and in place: blanks, texts, numbers, labels, commas
//! and brackets.
//! Any other byte is left to the machine's step.
ghost use Rattle.std.specs.Prelude.{◌≡◌, ◌≤◌, ◌∷◌, [], true, length, take, IfOk, OnOk, IfSome};
ghost use Rattle.std.specs.Bool.{OnTrue};
ghost use Rattle.std.specs.List.{list_all};
ghost use Rattle.kl_base.specs.Word.{is_word_byte};
ghost use Rattle.kl_value.specs.declared.Kind.TheVariants as kind;
ghost use Rattle.kl_exchange.specs.Grammar.{is_blank};
ghost use Rattle.kl_exchange.specs.Machine.{IsSound, is_plain, stays_on_blank, greatest_magnitude};
ghost use Rattle.kl_exchange.specs.Scan.{Takes, IsInCollection, IsInRecord, IsInSet, IsInVariant};
ghost use Rattle.kl_exchange.specs.Scan.{IsQuoted, IsNamed, number, with_item, with_field, with_set, with_variant};
ghost use Rattle.kl_exchange.specs.declared.machine.Frame.TheVariants as frame;
ghost use Rattle.kl_exchange.specs.declared.machine.Phase.TheVariants as phase;

use crate::gathered::{Gathered, Growing};
use crate::machine::{
    Brackets, Frame, Holder, Machine, NESTING_LIMIT, Phase, digit_of, frame_of, has_named,
    is_blank, signed, with_digit,
};
use crate::memo::Memo;
use kl_base::{Box, NoMemory, Text};
use kl_value::{Kind, Value, canon};
use std::alloc::Global;
use std::mem;

/// Takes bytes at the front, and answers how many: none where the first byte is left to the machine's step.
///
/// # Errors
/// Want of memory.
pub fn take_span(
    alloc: Global,
    memo: &mut Memo,
    machine: &mut Machine,
    bytes: &[u8],
) -> Result<usize, NoMemory>
    requires { IsSound 256 machine.old.stack machine.old.phase }
    ensures { IfOk result (λ count. Takes count bytes.now machine.old machine.new) }
{
    if stays_on_blank(&machine.phase) {
        let count = blanks(bytes);
        if count > 0 {
            return Ok(count);
        }
    }
    match &machine.phase {
        Phase::Value => take_value(alloc, machine, bytes),
        Phase::Brace => take_first(alloc, machine, bytes),
        Phase::Bracket => take_first_label(alloc, memo, machine, bytes),
        Phase::Name(_, _) => take_name(machine, bytes),
        Phase::Text(_) => take_text(machine, bytes),
        Phase::Digits(_, _) => take_digits(alloc, machine, bytes),
        Phase::After(_) => take_behind(alloc, machine, bytes),
        Phase::Label(_) => take_label(alloc, memo, machine, bytes),
        _ => Ok(0),
    }
}

// A text in quotes without a backslash, or a digit.
fn take_value(alloc: Global, machine: &mut Machine, bytes: &[u8]) -> Result<usize, NoMemory>
    requires { machine.old.phase ≡ phase.Value }
    ensures { IfOk result (λ count. Takes count bytes.now machine.old machine.new) }
{
    match bytes {
        [b'"', ..] => take_quoted(alloc, machine, bytes),
        [byte, ..] if byte.is_ascii_digit() => {
            turn(machine, Phase::Digits(false, digit_of(*byte)));
            Ok(1)
        }
        _ => Ok(take_bracket(machine, bytes)),
    }
}

// A byte that opens a bracket, where one more may be open.
fn take_bracket(machine: &mut Machine, bytes: &[u8]) -> usize
    requires { machine.old.phase ≡ phase.Value }
    ensures { Takes result bytes.now machine.old machine.new }
{
    if machine.stack.len() >= NESTING_LIMIT {
        return 0;
    }
    match bytes {
        [b'{', ..] => turn(machine, Phase::Brace),
        [b'[', ..] => turn(machine, Phase::Bracket),
        [b'<', ..] => turn(machine, Phase::Label(Holder::Variant)),
        _ => return 0,
    }
    1
}

// The first item of a set: a text in quotes without a backslash, or a digit.
fn take_first(alloc: Global, machine: &mut Machine, bytes: &[u8]) -> Result<usize, NoMemory>
    requires { machine.old.phase ≡ phase.Brace }
    ensures { IfOk result (λ count. Takes count bytes.now machine.old machine.new) }
{
    match bytes {
        [b'"', ..] => take_first_quoted(alloc, machine, bytes),
        [byte, ..] if byte.is_ascii_digit() => {
            push_set(alloc, &mut machine.stack)?;
            turn(machine, Phase::Digits(false, digit_of(*byte)));
            Ok(1)
        }
        _ => Ok(0),
    }
}

fn take_first_quoted(alloc: Global, machine: &mut Machine, bytes: &[u8]) -> Result<usize, NoMemory>
    requires { machine.old.phase ≡ phase.Brace }
    ensures { IfOk result (λ count. Takes count bytes.now machine.old machine.new) }
{
    match quoted(bytes) {
        Some(body) => {
            let text = Text::of(Vec::from_slice(alloc, body)?);
            push_set(alloc, &mut machine.stack)?;
            turn(machine, Phase::After(Value::Text(text)));
            Ok(body.len() + 2)
        }
        None => Ok(0),
    }
}

// A set without items stands innermost.
fn push_set(alloc: Global, stack: &mut Brackets) -> Result<(), NoMemory>
    ensures { OnOk result (stack.new ≡ frame.Items kind.Set [] ∷ stack.old) }
{
    stack.push(Frame::Items(Kind::Set, Growing::new(alloc)))
}

fn take_quoted(alloc: Global, machine: &mut Machine, bytes: &[u8]) -> Result<usize, NoMemory>
    requires { machine.old.phase ≡ phase.Value }
    ensures { IfOk result (λ count. Takes count bytes.now machine.old machine.new) }
{
    match quoted(bytes) {
        Some(body) => {
            let text = Text::of(Vec::from_slice(alloc, body)?);
            turn(machine, Phase::After(Value::Text(text)));
            Ok(body.len() + 2)
        }
        None => Ok(0),
    }
}

// The text in quotes at the front, where it has no backslash and its end has come.
fn quoted(bytes: &[u8]) -> Option<&[u8]>
    ensures { IfSome result (λ body. IsQuoted body.now bytes.now) }
{
    match bytes {
        [b'"', rest @ ..] => {
            let count = plain_bytes(rest);
            if count < rest.len() && rest[count] == b'"' {
                Some(&rest[..count])
            } else {
                None
            }
        }
        _ => None,
    }
}

fn take_name(machine: &mut Machine, bytes: &[u8]) -> Result<usize, NoMemory>
    ensures { IfOk result (λ count. Takes count bytes.now machine.old machine.new) }
{
    match &mut machine.phase {
        Phase::Name(_, name) => {
            let count = word_bytes(bytes);
            name.extend(&bytes[..count])?;
            Ok(count)
        }
        _ => Ok(0),
    }
}

fn take_text(machine: &mut Machine, bytes: &[u8]) -> Result<usize, NoMemory>
    ensures { IfOk result (λ count. Takes count bytes.now machine.old machine.new) }
{
    match &mut machine.phase {
        Phase::Text(text) => {
            let count = plain_bytes(bytes);
            text.extend(&bytes[..count])?;
            Ok(count)
        }
        _ => Ok(0),
    }
}

// The digits that a number goes on with, or what stands behind it.
fn take_digits(alloc: Global, machine: &mut Machine, bytes: &[u8]) -> Result<usize, NoMemory>
    requires { IsSound 256 machine.old.stack machine.old.phase }
    ensures { IfOk result (λ count. Takes count bytes.now machine.old machine.new) }
{
    match bytes {
        [byte, ..] if byte.is_ascii_digit() => Ok(more_digits(machine, bytes)),
        _ => take_behind(alloc, machine, bytes),
    }
}

// A comma or a closing bracket behind a value.
fn take_behind(alloc: Global, machine: &mut Machine, bytes: &[u8]) -> Result<usize, NoMemory>
    requires { IsSound 256 machine.old.stack machine.old.phase }
    ensures { IfOk result (λ count. Takes count bytes.now machine.old machine.new) }
{
    match bytes {
        [b',', ..] => take_comma(machine, bytes),
        [b'}', ..] if is_in_set(&machine.stack) => take_set(machine, bytes),
        [b'>', ..] if is_in_variant(&machine.stack) => take_variant(alloc, machine, bytes),
        _ => Ok(0),
    }
}

fn is_in_set(stack: &Brackets) -> bool
    ensures { OnTrue result (IsInSet stack.now) }
{
    matches!(stack.top(), Some(Frame::Items(Kind::Set, _)))
}

// The byte at the front closes a set behind an item.
fn take_set(machine: &mut Machine, bytes: &[u8]) -> Result<usize, NoMemory>
    requires sound { IsSound 256 machine.old.stack machine.old.phase }
    requires inside { IsInSet machine.old.stack }
    requires close { take 1 bytes.now ≡ 125 ∷ [] }
    requires some { 1 ≤ length bytes.now }
    ensures { IfOk result (λ count. Takes count bytes.now machine.old machine.new) }
{
    match mem::replace(&mut machine.phase, Phase::Value) {
        Phase::After(value) => {
            end_set(machine, value)?;
            Ok(1)
        }
        Phase::Digits(negative, magnitude) => {
            let value = number(negative, magnitude);
            end_set(machine, value)?;
            Ok(1)
        }
        phase => {
            turn(machine, phase);
            Ok(0)
        }
    }
}

// The innermost set, with one more item, ends.
fn end_set(machine: &mut Machine, value: Value) -> Result<(), NoMemory>
    requires { IsInSet machine.old.stack }
    ensures { OnOk result (machine.new ≡ with_set machine.old.stack value) }
{
    match machine.stack.pop() {
        Some(Frame::Items(Kind::Set, items)) => {
            let mut items = items;
            items.push(value)?;
            let set = canon(Kind::Set, items.into_vec())?;
            turn(machine, Phase::After(set));
            Ok(())
        }
        _ => unreachable!(),
    }
}

fn is_in_variant(stack: &Brackets) -> bool
    ensures { OnTrue result (IsInVariant stack.now) }
{
    matches!(stack.top(), Some(Frame::Variant(_)))
}

// The byte at the front closes a variant behind its value.
fn take_variant(alloc: Global, machine: &mut Machine, bytes: &[u8]) -> Result<usize, NoMemory>
    requires sound { IsSound 256 machine.old.stack machine.old.phase }
    requires inside { IsInVariant machine.old.stack }
    requires close { take 1 bytes.now ≡ 62 ∷ [] }
    requires some { 1 ≤ length bytes.now }
    ensures { IfOk result (λ count. Takes count bytes.now machine.old machine.new) }
{
    match mem::replace(&mut machine.phase, Phase::Value) {
        Phase::After(value) => {
            end_variant(alloc, machine, value)?;
            Ok(1)
        }
        Phase::Digits(negative, magnitude) => {
            let value = number(negative, magnitude);
            end_variant(alloc, machine, value)?;
            Ok(1)
        }
        phase => {
            turn(machine, phase);
            Ok(0)
        }
    }
}

// The innermost variant ends with its value.
fn end_variant(alloc: Global, machine: &mut Machine, value: Value) -> Result<(), NoMemory>
    requires { IsInVariant machine.old.stack }
    ensures { OnOk result (machine.new ≡ with_variant machine.old.stack value) }
{
    match machine.stack.pop() {
        Some(Frame::Variant(label)) => {
            let inner = Box::new(alloc, value)?;
            turn(machine, Phase::After(Value::Inj(label, inner)));
            Ok(())
        }
        _ => unreachable!(),
    }
}

fn more_digits(machine: &mut Machine, bytes: &[u8]) -> usize
    ensures { Takes result bytes.now machine.old machine.new }
{
    let Phase::Digits(negative, magnitude) = &machine.phase else {
        return 0;
    };
    let negative = *negative;
    let mut magnitude = *magnitude;
    let mut at = 0;
    'digits: while at < bytes.len() && bytes[at].is_ascii_digit() {
        let Some(longer) = with_digit(negative, magnitude, digit_of(bytes[at])) else {
            break;
        };
        magnitude = longer;
        at += 1;
    }
    turn(machine, Phase::Digits(negative, magnitude));
    at
}

// A comma behind an item of a collection or a field of a record.
fn take_comma(machine: &mut Machine, bytes: &[u8]) -> Result<usize, NoMemory>
    requires { IsSound 256 machine.old.stack machine.old.phase }
    ensures { IfOk result (λ count. Takes count bytes.now machine.old machine.new) }
{
    match bytes {
        [b',', ..] if is_in_collection(&machine.stack) => take_item(machine, bytes),
        [b',', ..] if is_in_record(&machine.stack) => take_field(machine, bytes),
        _ => Ok(0),
    }
}

// The byte at the front is a comma behind an item of a collection.
fn take_item(machine: &mut Machine, bytes: &[u8]) -> Result<usize, NoMemory>
    requires sound { IsSound 256 machine.old.stack machine.old.phase }
    requires inside { IsInCollection machine.old.stack }
    requires comma { take 1 bytes.now ≡ 44 ∷ [] }
    requires some { 1 ≤ length bytes.now }
    ensures { IfOk result (λ count. Takes count bytes.now machine.old machine.new) }
{
    match mem::replace(&mut machine.phase, Phase::Value) {
        Phase::After(value) => {
            add_item(&mut machine.stack, value)?;
            Ok(1)
        }
        Phase::Digits(negative, magnitude) => {
            let value = number(negative, magnitude);
            add_item(&mut machine.stack, value)?;
            Ok(1)
        }
        phase => {
            turn(machine, phase);
            Ok(0)
        }
    }
}

// The byte at the front is a comma behind a field of a record.
fn take_field(machine: &mut Machine, bytes: &[u8]) -> Result<usize, NoMemory>
    requires sound { IsSound 256 machine.old.stack machine.old.phase }
    requires inside { IsInRecord machine.old.stack }
    requires comma { take 1 bytes.now ≡ 44 ∷ [] }
    requires some { 1 ≤ length bytes.now }
    ensures { IfOk result (λ count. Takes count bytes.now machine.old machine.new) }
{
    match mem::replace(&mut machine.phase, Phase::Value) {
        Phase::After(value) => {
            add_field(machine, value)?;
            Ok(1)
        }
        Phase::Digits(negative, magnitude) => {
            let value = number(negative, magnitude);
            add_field(machine, value)?;
            Ok(1)
        }
        phase => {
            turn(machine, phase);
            Ok(0)
        }
    }
}

fn number(negative: bool, magnitude: u64) -> Value
    requires { magnitude ≤ greatest_magnitude negative }
    ensures { result ≡ number negative magnitude }
{
    Value::Int(signed(negative, magnitude))
}

fn is_in_collection(stack: &Brackets) -> bool
    ensures { OnTrue result (IsInCollection stack.now) }
{
    matches!(stack.top(), Some(Frame::Items(_, _)))
}

fn is_in_record(stack: &Brackets) -> bool
    ensures { OnTrue result (IsInRecord stack.now) }
{
    matches!(stack.top(), Some(Frame::Field(_, _)))
}

// One more field of the innermost record, behind which a label is due.
fn add_field(machine: &mut Machine, value: Value) -> Result<(), NoMemory>
    requires { IsInRecord machine.old.stack }
    ensures { OnOk result (machine.new ≡ with_field machine.old.stack value) }
{
    match machine.stack.pop() {
        Some(Frame::Field(fields, label)) => {
            let fields = fields.with(label, value)?;
            turn(machine, Phase::Label(Holder::Record(fields)));
            Ok(())
        }
        _ => unreachable!(),
    }
}

// One more item of the innermost collection.
fn add_item(stack: &mut Brackets, value: Value) -> Result<(), NoMemory>
    requires { IsInCollection stack.old }
    ensures { OnOk result (stack.new ≡ with_item stack.old value) }
{
    match stack.pop() {
        Some(Frame::Items(kind, items)) => {
            let mut items = items;
            items.push(value)?;
            stack.push(Frame::Items(kind, items))
        }
        _ => unreachable!(),
    }
}

// A label that has come whole, with the `=` behind it.
fn take_label(
    alloc: Global,
    memo: &mut Memo,
    machine: &mut Machine,
    bytes: &[u8],
) -> Result<usize, NoMemory>
    ensures { IfOk result (λ count. Takes count bytes.now machine.old machine.new) }
{
    match named(bytes) {
        Some(name) => take_named(alloc, memo, machine, name, bytes),
        None => Ok(0),
    }
}

// The first label of a record, which has come whole, with the `=` behind it.
fn take_first_label(
    alloc: Global,
    memo: &mut Memo,
    machine: &mut Machine,
    bytes: &[u8],
) -> Result<usize, NoMemory>
    requires { machine.old.phase ≡ phase.Bracket }
    ensures { IfOk result (λ count. Takes count bytes.now machine.old machine.new) }
{
    let Some(name) = named(bytes) else {
        return Ok(0);
    };
    let Some(label) = memo.label(alloc, name)? else {
        return Ok(0);
    };
    let fields = Gathered::with_room(alloc, memo.fields())?;
    machine.stack.push(Frame::Field(fields, label))?;
    turn(machine, Phase::Value);
    Ok(name.len() + 1)
}

// The label at the front, where `=` stands behind it.
fn named(bytes: &[u8]) -> Option<&[u8]>
    ensures { IfSome result (λ name. IsNamed name.now bytes.now) }
{
    let count = word_bytes(bytes);
    if count < bytes.len() && bytes[count] == b'=' && kl_base::is_word(&bytes[..count]) {
        Some(&bytes[..count])
    } else {
        None
    }
}

fn take_named(
    alloc: Global,
    memo: &mut Memo,
    machine: &mut Machine,
    name: &[u8],
    bytes: &[u8],
) -> Result<usize, NoMemory>
    requires { IsNamed name.now bytes.now }
    ensures { IfOk result (λ count. Takes count bytes.now machine.old machine.new) }
{
    let Some(label) = memo.label(alloc, name)? else {
        return Ok(0);
    };
    match mem::replace(&mut machine.phase, Phase::Value) {
        Phase::Label(holder) => {
            if has_named(&holder, &label) {
                turn(machine, Phase::Label(holder));
                Ok(0)
            } else {
                machine.stack.push(frame_of(holder, label))?;
                Ok(name.len() + 1)
            }
        }
        phase => {
            turn(machine, phase);
            Ok(0)
        }
    }
}

fn turn(machine: &mut Machine, phase: Phase)
    ensures { machine.new ≡ record machine.old { phase = phase } }
{
    machine.phase = phase;
}

// Whether a blank changes nothing.
fn stays_on_blank(phase: &Phase) -> bool
    ensures { result ≡ stays_on_blank phase.now }
{
    match phase {
        Phase::Value
        | Phase::Opened(_)
        | Phase::RecordOpened
        | Phase::Label(_)
        | Phase::Named(_, _)
        | Phase::After(_) => true,
        _ => false,
    }
}

// How many blanks stand at the front.
fn blanks(bytes: &[u8]) -> usize
    ensures within { result ≤ length bytes.now }
    ensures all { list_all is_blank (take result bytes.now) ≡ true }
{
    for (i, byte) in bytes.iter().enumerate() {
        if !is_blank(*byte) {
            return i;
        }
    }
    bytes.len()
}

// How many bytes at the front go on a name.
fn word_bytes(bytes: &[u8]) -> usize
    ensures within { result ≤ length bytes.now }
    ensures all { list_all is_word_byte (take result bytes.now) ≡ true }
{
    for (i, byte) in bytes.iter().enumerate() {
        if !(byte.is_ascii_alphanumeric() || *byte == b'_') {
            return i;
        }
    }
    bytes.len()
}

// How many bytes at the front stand for themselves in a text.
fn plain_bytes(bytes: &[u8]) -> usize
    ensures within { result ≤ length bytes.now }
    ensures all { list_all is_plain (take result bytes.now) ≡ true }
{
    for (i, byte) in bytes.iter().enumerate() {
        if *byte == b'"' || *byte == b'\\' {
            return i;
        }
    }
    bytes.len()
}
