//! What an item's bytes have come to, byte by byte.
ghost use Rattle.std.specs.Prelude.{◌≡◌, ◌≤◌, ◌<◌, ◌-◌, ◌+◌, [], ◌∷◌, ◌++◌, cond, IsTrue};
ghost use Rattle.std.specs.Char.{digit_value, is_ascii_digit};
ghost use Rattle.kl_exchange.specs.Fields.{fields_of};
ghost use Rattle.kl_exchange.specs.Grammar.{is_blank, signed, word_of};
ghost use Rattle.std.specs.List.{AllByRecursion};
ghost use Rattle.kl_base.specs.Fields.{LabelsDiffer};
ghost use Rattle.kl_base.specs.Word.{is_word};
ghost use Rattle.kl_exchange.specs.Machine.{IsSound, IsSoundFrame, LeadsOn, Advances, Brackets, going, opens_bracket, closes};
ghost use Rattle.kl_exchange.specs.Machine.{value_due, opened, behind_brace, behind_bracket, label_due, record_opened, named};
ghost use Rattle.kl_exchange.specs.Machine.{in_name, in_word, behind_minus, after_item, after_field, after_value, in_digits};
ghost use Rattle.kl_exchange.specs.Machine.{in_text, behind_escape, hex_due, low_hex_due, advanced, start, has_named, frame_of};
ghost use Rattle.kl_exchange.specs.Machine.{ends_closing, first_of_close, last_of_close, greatest_magnitude, with_digit, hex_of};

use crate::gathered::{Gathered, Growing};
use crate::memo::Memo;
use crate::stack::Stack;
use kl_base::{Box, Label, NoMemory, Seq, Text};
use kl_value::{Fields, Kind, Value, canon, escaped};
use std::alloc::Global;
use std::mem;

/// How many brackets may be open.
pub const NESTING_LIMIT: usize = 256;

/// A bracket round the value that is due, with what stands before that value.
#[derive(Drop)]
pub enum Frame {
    /// The items so far of a collection.
    Items(Kind, Growing<Value>),
    /// The fields so far of a record, as they came, and the label of the value.
    Field(Gathered<Value>, Label),
    /// The label of a variant.
    Variant(Label),
}

pub type Brackets = Stack<Frame>;

/// The bytes of an item so far: the brackets that are open, and where the innermost one stands.
#[derive(Drop)]
pub struct Machine {
    pub stack: Stack<Frame>,
    pub phase: Phase,
}

/// Whose label is read. Its bracket is open and not yet on the stack.
#[derive(Drop)]
pub enum Holder {
    /// The fields so far, as they came.
    Record(Gathered<Value>),
    Variant,
}

#[derive(Drop)]
pub enum Phase {
    /// A value is due.
    Value,
    /// A collection has been opened, and no item has come.
    Opened(Kind),
    /// Behind `{`: a set, or with `|` a bag.
    Brace,
    /// Behind `[`: a record, or with `|` a list.
    Bracket,
    /// A record has been opened, and no field has come.
    RecordOpened,
    /// A label is due.
    Label(Holder),
    /// In a label, of which these bytes have come.
    Name(Holder, Growing<u8>),
    /// Behind a label: `=` is due.
    Named(Holder, Label),
    /// In the word of this truth value, of which so many bytes have come.
    Word(bool, usize),
    /// Behind `-`.
    Minus,
    /// In a number: whether it is negative, and its digits so far.
    Digits(bool, u64),
    /// In a text, with its bytes so far; then behind its `\`, its `\x`, and the first digit after that.
    Text(Growing<u8>),
    Escape(Growing<u8>),
    Hex(Growing<u8>),
    HexLow(Growing<u8>, u8),
    /// Behind a value.
    After(Value),
    /// Behind the `|` that closes a bag or a list.
    Closing(Kind, Growing<Value>),
}

/// Where a byte leads.
#[derive(Drop)]
pub enum Next {
    Goes(Phase),
    /// The byte ends the item.
    Ends(Value),
}

/// Why a byte makes nothing of a machine.
#[derive(Clone, Copy)]
pub enum Stop {
    /// The byte cannot follow.
    Bad,
    /// The byte opens one bracket too many.
    TooDeep,
    NoMemory,
}

impl From<NoMemory> for Stop {
    ghost use Rattle.kl_exchange.specs.declared.machine.Stop.TheVariants as stop;

    ghost from_gives = { λ _ e. e ≡ stop.NoMemory };

    fn from(_error: NoMemory) -> Stop {
        Stop::NoMemory
    }
}

impl Machine {
    /// Before an item.
    pub fn new(alloc: Global) -> Machine
        ensures { result ≡ start }
    {
        Machine {
            stack: Stack::new(alloc),
            phase: Phase::Value,
        }
    }
}

/// One more byte. It answers the value where the byte ends the item, and then the machine stands before the next one.
pub fn advance(
    alloc: Global,
    memo: &mut Memo,
    machine: &mut Machine,
    byte: u8,
) -> Result<Option<Value>, Stop>
    requires { IsSound 256 machine.old.stack machine.old.phase }
    ensures { Advances machine.new result (advanced 256 machine.old.stack machine.old.phase byte) }
{
    let phase = mem::replace(&mut machine.phase, Phase::Value);
    match step(alloc, memo, &mut machine.stack, phase, byte) {
        Ok(Next::Goes(phase)) => {
            machine.phase = phase;
            Ok(None)
        }
        Ok(Next::Ends(value)) => Ok(Some(value)),
        Err(stop) => Err(stop),
    }
}

fn step(
    alloc: Global,
    memo: &mut Memo,
    stack: &mut Brackets,
    phase: Phase,
    byte: u8,
) -> Result<Next, Stop>
    requires { IsSound 256 stack.old phase }
    ensures { LeadsOn stack.new result (advanced 256 stack.old phase byte) }
{
    match phase {
        Phase::Value => value_due(alloc, stack, byte),
        Phase::Opened(kind) => opened(alloc, stack, kind, byte),
        Phase::Brace => behind_brace(alloc, stack, byte),
        Phase::Bracket => behind_bracket(alloc, memo, byte),
        Phase::RecordOpened => record_opened(alloc, memo, byte),
        Phase::Label(holder) => label_due(alloc, holder, byte),
        Phase::Name(holder, name) => in_name(alloc, memo, stack, holder, name, byte),
        Phase::Named(holder, label) => named(stack, holder, label, byte),
        Phase::Word(word, count) => in_word(word, count, byte),
        Phase::Minus => behind_minus(byte),
        Phase::Digits(negative, magnitude) => {
            in_digits(alloc, memo, stack, negative, magnitude, byte)
        }
        Phase::Text(text) => in_text(text, byte),
        Phase::Escape(text) => behind_escape(text, byte),
        Phase::Hex(text) => hex_due(text, byte),
        Phase::HexLow(text, high) => low_hex_due(text, high, byte),
        Phase::After(value) => after_value(alloc, memo, stack, value, byte),
        Phase::Closing(kind, items) => closing(kind, items, byte),
    }
}

/// White space: tab, line feed, carriage return and space.
pub fn is_blank(byte: u8) -> bool
    ensures { result ≡ is_blank byte }
{
    matches!(byte, b'\t' | b'\n' | b'\r' | b' ')
}

fn goes(phase: Phase) -> Result<Next, Stop>
    ensures { result ≡ going phase }
{
    Ok(Next::Goes(phase))
}

#[tactic(auto, unfolding(crate::specs::Machine::value_due))]
fn value_due(alloc: Global, stack: &Brackets, byte: u8) -> Result<Next, Stop>
    ensures { LeadsOn stack.now result (value_due 256 stack.now byte) }
{
    if is_blank(byte) {
        goes(Phase::Value)
    } else if byte.is_ascii_digit() {
        goes(Phase::Digits(false, digit_of(byte)))
    } else if byte == b'-' {
        goes(Phase::Minus)
    } else if byte == b'"' {
        goes(Phase::Text(Growing::new(alloc)))
    } else if byte == b't' {
        goes(Phase::Word(true, 1))
    } else if byte == b'f' {
        goes(Phase::Word(false, 1))
    } else if byte == b'{' {
        opens_bracket(stack, Phase::Brace)
    } else if byte == b'[' {
        opens_bracket(stack, Phase::Bracket)
    } else if byte == b'<' {
        opens_bracket(stack, Phase::Label(Holder::Variant))
    } else {
        Err(Stop::Bad)
    }
}

fn opens_bracket(stack: &Brackets, phase: Phase) -> Result<Next, Stop>
    ensures { LeadsOn stack.now result (opens_bracket 256 stack.now phase) }
{
    if stack.len() < NESTING_LIMIT {
        goes(phase)
    } else {
        Err(Stop::TooDeep)
    }
}

#[tactic(auto, unfolding(crate::specs::Machine::opened))]
fn opened(alloc: Global, stack: &mut Brackets, kind: Kind, byte: u8) -> Result<Next, Stop>
    ensures { LeadsOn stack.new result (opened 256 stack.old kind byte) }
{
    if is_blank(byte) {
        goes(Phase::Opened(kind))
    } else if byte == first_of_close(kind) {
        closes(kind, Growing::new(alloc))
    } else {
        stack.push(Frame::Items(kind, Growing::new(alloc)))?;
        value_due(alloc, stack, byte)
    }
}

#[tactic(auto, unfolding(crate::specs::Machine::behind_brace))]
fn behind_brace(alloc: Global, stack: &mut Brackets, byte: u8) -> Result<Next, Stop>
    ensures { LeadsOn stack.new result (behind_brace 256 stack.old byte) }
{
    if byte == b'|' {
        goes(Phase::Opened(Kind::Bag))
    } else {
        opened(alloc, stack, Kind::Set, byte)
    }
}

#[tactic(auto, unfolding(crate::specs::Machine::behind_bracket))]
fn behind_bracket(alloc: Global, memo: &mut Memo, byte: u8) -> Result<Next, Stop>
    ensures { (st : Brackets) → LeadsOn st result (behind_bracket st byte) }
{
    if byte == b'|' {
        goes(Phase::Opened(Kind::List))
    } else {
        record_opened(alloc, memo, byte)
    }
}

fn first_of_close(kind: Kind) -> u8
    ensures { result ≡ first_of_close kind }
{
    match kind {
        Kind::Set => b'}',
        Kind::Bag | Kind::List => b'|',
    }
}

/// The last byte of the bracket that closes a collection of a kind.
pub fn last_of_close(kind: Kind) -> u8
    ensures { result ≡ last_of_close kind }
{
    match kind {
        Kind::Set | Kind::Bag => b'}',
        Kind::List => b']',
    }
}

// The first byte of the closing bracket has come.
#[tactic(auto, unfolding(crate::specs::Machine::closes))]
fn closes(kind: Kind, items: Growing<Value>) -> Result<Next, Stop>
    ensures { (st : Brackets) → LeadsOn st result (closes st kind items) }
{
    match kind {
        Kind::Set => {
            let value = canon(kind, items.into_vec())?;
            goes(Phase::After(value))
        }
        Kind::Bag | Kind::List => goes(Phase::Closing(kind, items)),
    }
}

#[tactic(auto, unfolding(crate::specs::Machine::ends_closing))]
fn closing(kind: Kind, items: Growing<Value>, byte: u8) -> Result<Next, Stop>
    ensures { (st : Brackets) → LeadsOn st result (ends_closing st kind items byte) }
{
    if byte == last_of_close(kind) {
        let value = canon(kind, items.into_vec())?;
        goes(Phase::After(value))
    } else {
        Err(Stop::Bad)
    }
}

#[tactic(auto, unfolding(crate::specs::Machine::record_opened))]
fn record_opened(alloc: Global, memo: &mut Memo, byte: u8) -> Result<Next, Stop>
    ensures { (st : Brackets) → LeadsOn st result (record_opened st byte) }
{
    if is_blank(byte) {
        goes(Phase::RecordOpened)
    } else if byte == b']' {
        goes(Phase::After(Value::Rec(Seq::of(Vec::new(alloc)))))
    } else {
        let fields = Gathered::with_room(alloc, memo.fields())?;
        label_due(alloc, Holder::Record(fields), byte)
    }
}

#[tactic(auto, unfolding(crate::specs::Machine::label_due))]
fn label_due(alloc: Global, holder: Holder, byte: u8) -> Result<Next, Stop>
    ensures { (st : Brackets) → LeadsOn st result (label_due st holder byte) }
{
    if is_blank(byte) {
        goes(Phase::Label(holder))
    } else if byte.is_ascii_alphabetic() {
        let mut name = Growing::new(alloc);
        name.push(byte)?;
        goes(Phase::Name(holder, name))
    } else {
        Err(Stop::Bad)
    }
}

#[tactic(auto, unfolding(crate::specs::Machine::in_name))]
fn in_name(
    alloc: Global,
    memo: &mut Memo,
    stack: &mut Brackets,
    holder: Holder,
    name: Growing<u8>,
    byte: u8,
) -> Result<Next, Stop>
    requires { IsTrue (is_word name) }
    ensures { LeadsOn stack.new result (in_name stack.old holder name byte) }
{
    if byte.is_ascii_alphanumeric() || byte == b'_' {
        let mut name = name;
        name.push(byte)?;
        return goes(Phase::Name(holder, name));
    }
    match memo.label(alloc, name.slice())? {
        Some(label) => {
            if has_named(&holder, &label) {
                Err(Stop::Bad)
            } else {
                named(stack, holder, label, byte)
            }
        }
        None => Err(Stop::Bad),
    }
}

// Whether the record has a field of the label already.
pub fn has_named(holder: &Holder, label: &Label) -> bool
    ensures { result ≡ has_named holder.now label.now }
{
    match holder {
        Holder::Record(fields) => fields.has(label),
        Holder::Variant => false,
    }
}

#[tactic(auto, unfolding(crate::specs::Machine::named))]
fn named(stack: &mut Brackets, holder: Holder, label: Label, byte: u8) -> Result<Next, Stop>
    ensures { LeadsOn stack.new result (named stack.old holder label byte) }
{
    if is_blank(byte) {
        goes(Phase::Named(holder, label))
    } else if byte == b'=' {
        stack.push(frame_of(holder, label))?;
        goes(Phase::Value)
    } else {
        Err(Stop::Bad)
    }
}

pub fn frame_of(holder: Holder, label: Label) -> Frame
    ensures { result ≡ frame_of holder label }
{
    match holder {
        Holder::Record(fields) => Frame::Field(fields, label),
        Holder::Variant => Frame::Variant(label),
    }
}

fn word_bytes(word: bool) -> &'static [u8]
    ensures { result.now ≡ word_of word }
{
    if word { b"true" } else { b"false" }
}

#[tactic(auto, unfolding(crate::specs::Machine::in_word))]
fn in_word(word: bool, count: usize, byte: u8) -> Result<Next, Stop>
    ensures { (st : Brackets) → LeadsOn st result (in_word st word count byte) }
{
    let bytes = word_bytes(word);
    if count < bytes.len() && bytes[count] == byte {
        if count + 1 < bytes.len() {
            goes(Phase::Word(word, count + 1))
        } else {
            goes(Phase::After(Value::Bool(word)))
        }
    } else {
        Err(Stop::Bad)
    }
}

#[tactic(auto, unfolding(crate::specs::Machine::behind_minus))]
fn behind_minus(byte: u8) -> Result<Next, Stop>
    ensures { (st : Brackets) → LeadsOn st result (behind_minus st byte) }
{
    if byte.is_ascii_digit() {
        goes(Phase::Digits(true, digit_of(byte)))
    } else {
        Err(Stop::Bad)
    }
}

// The value of a decimal digit.
pub fn digit_of(byte: u8) -> u64
    requires { IsTrue (is_ascii_digit byte) }
    ensures { result ≡ digit_value byte }
{
    u64::from(byte - b'0')
}

// The greatest magnitude of a number.
fn greatest_magnitude(negative: bool) -> u64
    ensures { result ≡ greatest_magnitude negative }
{
    if negative { 1 << 63 } else { (1 << 63) - 1 }
}

#[tactic(auto, unfolding(crate::specs::Machine::in_digits))]
fn in_digits(
    alloc: Global,
    memo: &mut Memo,
    stack: &mut Brackets,
    negative: bool,
    magnitude: u64,
    byte: u8,
) -> Result<Next, Stop>
    requires range { magnitude ≤ greatest_magnitude negative }
    requires frames { AllByRecursion IsSoundFrame stack.old }
    ensures { LeadsOn stack.new result (in_digits stack.old negative magnitude byte) }
{
    if byte.is_ascii_digit() {
        match with_digit(negative, magnitude, digit_of(byte)) {
            Some(magnitude) => goes(Phase::Digits(negative, magnitude)),
            None => Err(Stop::Bad),
        }
    } else {
        let value = Value::Int(signed(negative, magnitude));
        after_value(alloc, memo, stack, value, byte)
    }
}

// The magnitude with one more digit, where it is in range.
pub fn with_digit(negative: bool, magnitude: u64, digit: u64) -> Option<u64>
    ensures { result ≡ with_digit negative magnitude digit }
{
    let longer = magnitude.checked_mul(10)?.checked_add(digit)?;
    if longer <= greatest_magnitude(negative) {
        Some(longer)
    } else {
        None
    }
}

pub fn signed(negative: bool, magnitude: u64) -> i64
    requires { magnitude ≤ greatest_magnitude negative }
    ensures { result ≡ signed negative magnitude }
{
    if !negative {
        magnitude as i64
    } else if magnitude == 0 {
        0
    } else {
        -1 - ((magnitude - 1) as i64)
    }
}

#[tactic(auto, unfolding(crate::specs::Machine::in_text))]
fn in_text(text: Growing<u8>, byte: u8) -> Result<Next, Stop>
    ensures { (st : Brackets) → LeadsOn st result (in_text st text byte) }
{
    if byte == b'"' {
        goes(Phase::After(Value::Text(Text::of(text.into_vec()))))
    } else if byte == b'\\' {
        goes(Phase::Escape(text))
    } else {
        let mut text = text;
        text.push(byte)?;
        goes(Phase::Text(text))
    }
}

#[tactic(auto, unfolding(crate::specs::Machine::behind_escape))]
fn behind_escape(text: Growing<u8>, byte: u8) -> Result<Next, Stop>
    ensures { (st : Brackets) → LeadsOn st result (behind_escape st text byte) }
{
    if byte == b'x' {
        return goes(Phase::Hex(text));
    }
    match escaped(byte) {
        Some(byte) => {
            let mut text = text;
            text.push(byte)?;
            goes(Phase::Text(text))
        }
        None => Err(Stop::Bad),
    }
}

// The value of a hexadecimal digit of either case.
fn hex_value(byte: u8) -> Option<u8>
    ensures { result ≡ hex_of byte }
{
    match byte {
        b'0'..=b'9' => Some(byte - b'0'),
        b'a'..=b'f' => Some(byte - b'a' + 10),
        b'A'..=b'F' => Some(byte - b'A' + 10),
        _ => None,
    }
}

#[tactic(auto, unfolding(crate::specs::Machine::hex_due))]
fn hex_due(text: Growing<u8>, byte: u8) -> Result<Next, Stop>
    ensures { (st : Brackets) → LeadsOn st result (hex_due st text byte) }
{
    match hex_value(byte) {
        Some(high) => goes(Phase::HexLow(text, high)),
        None => Err(Stop::Bad),
    }
}

#[tactic(auto, unfolding(crate::specs::Machine::low_hex_due))]
fn low_hex_due(text: Growing<u8>, high: u8, byte: u8) -> Result<Next, Stop>
    requires { high < 16 }
    ensures { (st : Brackets) → LeadsOn st result (low_hex_due st text high byte) }
{
    match hex_value(byte) {
        Some(low) => {
            let mut text = text;
            text.push(high * 16 + low)?;
            goes(Phase::Text(text))
        }
        None => Err(Stop::Bad),
    }
}

#[tactic(auto, unfolding(crate::specs::Machine::after_value))]
fn after_value(
    alloc: Global,
    memo: &mut Memo,
    stack: &mut Brackets,
    value: Value,
    byte: u8,
) -> Result<Next, Stop>
    requires { AllByRecursion IsSoundFrame stack.old }
    ensures { LeadsOn stack.new result (after_value stack.old value byte) }
{
    if is_blank(byte) {
        return goes(Phase::After(value));
    }
    match stack.pop() {
        None => {
            if byte == b';' {
                Ok(Next::Ends(value))
            } else {
                Err(Stop::Bad)
            }
        }
        Some(Frame::Items(kind, items)) => {
            let mut items = items;
            items.push(value)?;
            after_item(stack, kind, items, byte)
        }
        Some(Frame::Field(fields, label)) => {
            let fields = fields.with(label, value)?;
            after_field(memo, fields, byte)
        }
        Some(Frame::Variant(label)) => {
            if byte == b'>' {
                let value = Value::Inj(label, Box::new(alloc, value)?);
                goes(Phase::After(value))
            } else {
                Err(Stop::Bad)
            }
        }
    }
}

#[tactic(auto, unfolding(crate::specs::Machine::after_item))]
fn after_item(
    stack: &mut Brackets,
    kind: Kind,
    items: Growing<Value>,
    byte: u8,
) -> Result<Next, Stop>
    ensures { LeadsOn stack.new result (after_item stack.old kind items byte) }
{
    if byte == b',' {
        stack.push(Frame::Items(kind, items))?;
        goes(Phase::Value)
    } else if byte == first_of_close(kind) {
        closes(kind, items)
    } else {
        Err(Stop::Bad)
    }
}

#[tactic(auto, using(crate::proofs::Pairs::fields_are), unfolding(crate::specs::Machine::after_field))]
fn after_field(memo: &mut Memo, fields: Gathered<Value>, byte: u8) -> Result<Next, Stop>
    requires { LabelsDiffer fields }
    ensures { (st : Brackets) → LeadsOn st result (after_field st fields byte) }
{
    if byte == b',' {
        goes(Phase::Label(Holder::Record(fields)))
    } else if byte == b']' {
        let mut fields = fields.into_vec();
        fields.shrink_to_fit();
        memo.keep_fields(fields.len());
        match Fields::new(fields)? {
            Some(fields) => goes(Phase::After(Value::Rec(fields))),
            None => Err(Stop::Bad),
        }
    } else {
        Err(Stop::Bad)
    }
}
