//! What a head's bytes have come to, byte by byte.
ghost use Rattle.std.specs.Prelude.{◌≡◌};
ghost use Rattle.kl_heads.specs.Machine.{LeadsOn, Advances, Brackets, going, opens_bracket, in_keyword, behind_keyword};
ghost use Rattle.kl_heads.specs.Machine.{type_due, behind_brace, behind_bracket, record_opened, label_due, in_name, named};
ghost use Rattle.kl_heads.specs.Machine.{in_word, after_type, after_item, after_field, ends_closing, advanced, start};
ghost use Rattle.kl_heads.specs.Machine.{keyword, base_word, base_type, closer_of, may_be_item};

use crate::fields::Fields;
use kl_base::{Box, Label, NoMemory};
use kl_exchange::{Growing, Stack, is_blank, last_of_close};
use kl_type::Ty;
use kl_value::Kind;
use std::alloc::Global;
use std::mem;

/// How many brackets may be open.
pub const NESTING_LIMIT: usize = 256;

/// A type without brackets.
#[derive(Clone, Copy)]
pub enum Base {
    Bool,
    Int,
    Str,
}

/// What has fields.
#[derive(Clone, Copy, PartialEq, Eq)]
pub enum Shape {
    Record,
    Variant,
}

/// A bracket round the type that is due, with what stands before that type.
#[derive(Drop)]
pub enum Frame {
    /// A collection's.
    Items(Kind),
    /// A record's or a variant's, with its fields so far and the label of the type.
    Field(Shape, Fields, Label),
}

pub type Brackets = Stack<Frame>;

/// The bytes of a head so far: the brackets that are open, and where the innermost one stands.
#[derive(Drop)]
pub struct Machine {
    pub stack: Stack<Frame>,
    pub phase: Phase,
}

#[derive(Drop)]
pub enum Phase {
    /// In the word `type`, of which so many bytes have come; white space may stand before it.
    Keyword(usize),
    /// Behind that word: white space is due.
    Gap,
    /// A type is due.
    Type,
    /// Behind `{`: a set, or with `|` a bag.
    Brace,
    /// Behind `[`: a record, or with `|` a list.
    Bracket,
    /// A record has been opened, and no field has come.
    RecordOpened,
    /// A label is due. Its bracket is open and not yet on the stack, here and in the next two.
    Label(Shape, Fields),
    /// In a label, of which these bytes have come.
    Name(Shape, Fields, Growing<u8>),
    /// Behind a label: `:` is due.
    Named(Shape, Fields, Label),
    /// In the word of a type, of which so many bytes have come.
    Word(Base, usize),
    /// Behind a type.
    After(Ty),
    /// Behind the `|` that closes a bag or a list.
    Closing(Kind, Ty),
}

/// Where a byte leads.
#[derive(Drop)]
pub enum Next {
    Goes(Phase),
    /// The byte ends the head.
    Ends(Ty),
}

/// Why a byte makes nothing of a machine.
#[derive(Clone, Copy)]
pub enum Stop {
    /// The bytes are no head, and may be an item.
    NoHead,
    /// The byte cannot follow.
    Bad,
    /// The byte opens one bracket too many.
    TooDeep,
    NoMemory,
}

impl From<NoMemory> for Stop {
    ghost use Rattle.kl_heads.specs.declared.machine.Stop.TheVariants as stop;

    ghost from_gives = { λ _ e. e ≡ stop.NoMemory };

    fn from(_error: NoMemory) -> Stop {
        Stop::NoMemory
    }
}

impl Machine {
    /// Before a head.
    pub fn new(alloc: Global) -> Machine
        ensures { result ≡ start }
    {
        Machine {
            stack: Stack::new(alloc),
            phase: Phase::Keyword(0),
        }
    }

    /// Back before a head.
    pub fn restart(&mut self, alloc: Global)
        ensures { self.new ≡ start }
    {
        *self = Machine::new(alloc);
    }

    /// Whether the bytes so far may be those of an item as well as of a head: white space, and perhaps a `t`.
    pub fn may_be_item(&self) -> bool
        ensures { result ≡ may_be_item self.now.phase }
    {
        matches!(self.phase, Phase::Keyword(0 | 1))
    }
}

/// One more byte. It answers the type where the byte ends the head, and then the machine stands at its beginning.
///
/// # Errors
/// `NoHead` where the bytes are no head and may be an item; `Bad` where a head is begun and cannot go on with the byte, and `TooDeep`
/// where it nests too deep; `NoMemory`.
pub fn advance(alloc: Global, machine: &mut Machine, byte: u8) -> Result<Option<Ty>, Stop>
    ensures { Advances machine.new result (advanced 256 machine.old.stack machine.old.phase byte) }
{
    let phase = mem::replace(&mut machine.phase, Phase::Keyword(0));
    match step(alloc, &mut machine.stack, phase, byte) {
        Ok(Next::Goes(phase)) => {
            machine.phase = phase;
            Ok(None)
        }
        Ok(Next::Ends(ty)) => Ok(Some(ty)),
        Err(stop) => Err(stop),
    }
}

fn step(alloc: Global, stack: &mut Brackets, phase: Phase, byte: u8) -> Result<Next, Stop>
    ensures { LeadsOn stack.new result (advanced 256 stack.old phase byte) }
{
    match phase {
        Phase::Keyword(count) => in_keyword(count, byte),
        Phase::Gap => behind_keyword(byte),
        Phase::Type => type_due(alloc, stack, byte),
        Phase::Brace => behind_brace(alloc, stack, byte),
        Phase::Bracket => behind_bracket(alloc, stack, byte),
        Phase::RecordOpened => record_opened(alloc, byte),
        Phase::Label(shape, fields) => label_due(alloc, shape, fields, byte),
        Phase::Name(shape, fields, name) => in_name(alloc, stack, shape, fields, name, byte),
        Phase::Named(shape, fields, label) => named(stack, shape, fields, label, byte),
        Phase::Word(base, count) => in_word(base, count, byte),
        Phase::After(ty) => after_type(alloc, stack, ty, byte),
        Phase::Closing(kind, item) => closing(alloc, kind, item, byte),
    }
}

fn goes(phase: Phase) -> Result<Next, Stop>
    ensures { result ≡ going phase }
{
    Ok(Next::Goes(phase))
}

fn keyword() -> &'static [u8]
    ensures { result.now ≡ keyword }
{
    b"type"
}

#[tactic(auto, unfolding(crate::specs::Machine::in_keyword))]
fn in_keyword(count: usize, byte: u8) -> Result<Next, Stop>
    ensures { (st : Brackets) → LeadsOn st result (in_keyword st count byte) }
{
    if count == 0 && is_blank(byte) {
        return goes(Phase::Keyword(0));
    }
    let bytes = keyword();
    if count < bytes.len() && bytes[count] == byte {
        if count + 1 < bytes.len() {
            goes(Phase::Keyword(count + 1))
        } else {
            goes(Phase::Gap)
        }
    } else if count < 2 {
        Err(Stop::NoHead)
    } else {
        Err(Stop::Bad)
    }
}

#[tactic(auto, unfolding(crate::specs::Machine::behind_keyword))]
fn behind_keyword(byte: u8) -> Result<Next, Stop>
    ensures { (st : Brackets) → LeadsOn st result (behind_keyword st byte) }
{
    if is_blank(byte) {
        goes(Phase::Type)
    } else {
        Err(Stop::Bad)
    }
}

#[tactic(auto, unfolding(crate::specs::Machine::type_due))]
fn type_due(alloc: Global, stack: &Brackets, byte: u8) -> Result<Next, Stop>
    ensures { LeadsOn stack.now result (type_due 256 stack.now byte) }
{
    if is_blank(byte) {
        goes(Phase::Type)
    } else if byte == b'b' {
        goes(Phase::Word(Base::Bool, 1))
    } else if byte == b'i' {
        goes(Phase::Word(Base::Int, 1))
    } else if byte == b's' {
        goes(Phase::Word(Base::Str, 1))
    } else if byte == b'{' {
        opens_bracket(stack, Phase::Brace)
    } else if byte == b'[' {
        opens_bracket(stack, Phase::Bracket)
    } else if byte == b'<' {
        opens_bracket(stack, Phase::Label(Shape::Variant, Fields::new(alloc)))
    } else {
        Err(Stop::Bad)
    }
}

fn opens_bracket(stack: &Brackets, phase: Phase) -> Result<Next, Stop>
    ensures { LeadsOn stack.now result (opens_bracket 256 stack.now phase) }
{
    if stack.len() < NESTING_LIMIT {
        goes(phase)
    } else {
        Err(Stop::TooDeep)
    }
}

#[tactic(auto, unfolding(crate::specs::Machine::behind_brace))]
fn behind_brace(alloc: Global, stack: &mut Brackets, byte: u8) -> Result<Next, Stop>
    ensures { LeadsOn stack.new result (behind_brace 256 stack.old byte) }
{
    if byte == b'|' {
        stack.push(Frame::Items(Kind::Bag))?;
        goes(Phase::Type)
    } else {
        stack.push(Frame::Items(Kind::Set))?;
        type_due(alloc, stack, byte)
    }
}

#[tactic(auto, unfolding(crate::specs::Machine::behind_bracket))]
fn behind_bracket(alloc: Global, stack: &mut Brackets, byte: u8) -> Result<Next, Stop>
    ensures { LeadsOn stack.new result (behind_bracket stack.old byte) }
{
    if byte == b'|' {
        stack.push(Frame::Items(Kind::List))?;
        goes(Phase::Type)
    } else {
        record_opened(alloc, byte)
    }
}

#[tactic(auto, unfolding(crate::specs::Machine::record_opened))]
fn record_opened(alloc: Global, byte: u8) -> Result<Next, Stop>
    ensures { (st : Brackets) → LeadsOn st result (record_opened st byte) }
{
    if is_blank(byte) {
        goes(Phase::RecordOpened)
    } else if byte == b']' {
        goes(Phase::After(Ty::Rec(Fields::new(alloc).into_types(alloc)?)))
    } else {
        label_due(alloc, Shape::Record, Fields::new(alloc), byte)
    }
}

#[tactic(auto, unfolding(crate::specs::Machine::label_due))]
fn label_due(alloc: Global, shape: Shape, fields: Fields, byte: u8) -> Result<Next, Stop>
    ensures { (st : Brackets) → LeadsOn st result (label_due st shape fields byte) }
{
    if is_blank(byte) {
        goes(Phase::Label(shape, fields))
    } else if byte.is_ascii_alphabetic() {
        let mut name = Growing::new(alloc);
        name.push(byte)?;
        goes(Phase::Name(shape, fields, name))
    } else {
        Err(Stop::Bad)
    }
}

#[tactic(auto, unfolding(crate::specs::Machine::in_name))]
fn in_name(
    alloc: Global,
    stack: &mut Brackets,
    shape: Shape,
    fields: Fields,
    name: Growing<u8>,
    byte: u8,
) -> Result<Next, Stop>
    ensures { LeadsOn stack.new result (in_name stack.old shape fields name byte) }
{
    if byte.is_ascii_alphanumeric() || byte == b'_' {
        let mut name = name;
        name.push(byte)?;
        return goes(Phase::Name(shape, fields, name));
    }
    match Label::new(alloc, name.slice())? {
        Some(label) => {
            if fields.has(&label) {
                Err(Stop::Bad)
            } else {
                named(stack, shape, fields, label, byte)
            }
        }
        None => Err(Stop::Bad),
    }
}

#[tactic(auto, unfolding(crate::specs::Machine::named))]
fn named(
    stack: &mut Brackets,
    shape: Shape,
    fields: Fields,
    label: Label,
    byte: u8,
) -> Result<Next, Stop>
    ensures { LeadsOn stack.new result (named stack.old shape fields label byte) }
{
    if is_blank(byte) {
        goes(Phase::Named(shape, fields, label))
    } else if byte == b':' {
        stack.push(Frame::Field(shape, fields, label))?;
        goes(Phase::Type)
    } else {
        Err(Stop::Bad)
    }
}

fn base_word(base: Base) -> &'static [u8]
    ensures { result.now ≡ base_word base }
{
    match base {
        Base::Bool => b"bool",
        Base::Int => b"int",
        Base::Str => b"string",
    }
}

fn base_type(base: Base) -> Ty
    ensures { result ≡ base_type base }
{
    match base {
        Base::Bool => Ty::Bool,
        Base::Int => Ty::Int,
        Base::Str => Ty::Str,
    }
}

#[tactic(auto, unfolding(crate::specs::Machine::in_word))]
fn in_word(base: Base, count: usize, byte: u8) -> Result<Next, Stop>
    ensures { (st : Brackets) → LeadsOn st result (in_word st base count byte) }
{
    let bytes = base_word(base);
    if count < bytes.len() && bytes[count] == byte {
        if count + 1 < bytes.len() {
            goes(Phase::Word(base, count + 1))
        } else {
            goes(Phase::After(base_type(base)))
        }
    } else {
        Err(Stop::Bad)
    }
}

#[tactic(auto, unfolding(crate::specs::Machine::after_type))]
fn after_type(alloc: Global, stack: &mut Brackets, ty: Ty, byte: u8) -> Result<Next, Stop>
    ensures { LeadsOn stack.new result (after_type stack.old ty byte) }
{
    if is_blank(byte) {
        return goes(Phase::After(ty));
    }
    match stack.pop() {
        None => {
            if byte == b';' {
                Ok(Next::Ends(ty))
            } else {
                Err(Stop::Bad)
            }
        }
        Some(Frame::Items(kind)) => after_item(alloc, kind, ty, byte),
        Some(Frame::Field(shape, fields, label)) => {
            let fields = fields.with(label, ty)?;
            after_field(alloc, shape, fields, byte)
        }
    }
}

#[tactic(auto, unfolding(crate::specs::Machine::after_item))]
fn after_item(alloc: Global, kind: Kind, item: Ty, byte: u8) -> Result<Next, Stop>
    ensures { (st : Brackets) → LeadsOn st result (after_item st kind item byte) }
{
    match kind {
        Kind::Set => {
            if byte == b'}' {
                goes(Phase::After(Ty::Coll(kind, Box::new(alloc, item)?)))
            } else {
                Err(Stop::Bad)
            }
        }
        Kind::Bag | Kind::List => {
            if byte == b'|' {
                goes(Phase::Closing(kind, item))
            } else {
                Err(Stop::Bad)
            }
        }
    }
}

#[tactic(auto, unfolding(crate::specs::Machine::ends_closing))]
fn closing(alloc: Global, kind: Kind, item: Ty, byte: u8) -> Result<Next, Stop>
    ensures { (st : Brackets) → LeadsOn st result (ends_closing st kind item byte) }
{
    if byte == last_of_close(kind) {
        goes(Phase::After(Ty::Coll(kind, Box::new(alloc, item)?)))
    } else {
        Err(Stop::Bad)
    }
}

fn closer_of(shape: Shape) -> u8
    ensures { result ≡ closer_of shape }
{
    match shape {
        Shape::Record => b']',
        Shape::Variant => b'>',
    }
}

#[tactic(auto, unfolding(crate::specs::Machine::after_field))]
fn after_field(alloc: Global, shape: Shape, fields: Fields, byte: u8) -> Result<Next, Stop>
    ensures { (st : Brackets) → LeadsOn st result (after_field st shape fields byte) }
{
    if byte == b',' {
        goes(Phase::Label(shape, fields))
    } else if byte == closer_of(shape) {
        let types = fields.into_types(alloc)?;
        match shape {
            Shape::Record => goes(Phase::After(Ty::Rec(types))),
            Shape::Variant => goes(Phase::After(Ty::Var(types))),
        }
    } else {
        Err(Stop::Bad)
    }
}
