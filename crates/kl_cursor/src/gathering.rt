//! What is kept of items as they come: the items, or what a primitive asks of them, so that no collection of them is made.
ghost use Rattle.std.specs.Prelude.{◌≡◌, List, [], ◌∷◌, IfSome, IsSome, OnOk, true};
ghost use Rattle.kl_plan.specs.Kinds.{kind_of_items};
ghost use Rattle.kl_plan.specs.Nodes.{view};
ghost use Rattle.kl_eval.specs.Steps.{AnswersPrim};
ghost use Rattle.kl_value.specs.declared.Value.{Value};
ghost use Rattle.kl_cursor.specs.Sense.{HasWorth};
ghost use Rattle.kl_cursor.specs.Gathering.{AreTallied, CountsRows, IsTallied, answer_in, gathered, is_set, IsListed, IsTally};
ghost use Rattle.kl_cursor.specs.Gathering.{Tells, TellsItems, listed, number, tally, with_all, with_one};

use crate::drawing::kind_of_items;
use crate::scans::Scans;
use kl_base::NoMemory;
use kl_eval::EvalStop;
use kl_plan::Plan;
use kl_value::{Kind, Value, cmp};

// Codes of the table of primitives.
const IS_EMPTY: u8 = 13;

const COUNT: u8 = 14;

const SUM: u8 = 15;

const MEMBER: u8 = 16;

/// What a primitive asks of items whose collection is not made.
#[derive(Drop)]
pub enum Tally<'a> {
    /// Whether there is none.
    Empty(bool),
    /// How many there are.
    Count(u64),
    /// Their total.
    Total(i128),
    /// Whether a value is one of them.
    Member(&'a Value, bool),
}

/// What is kept of items.
#[derive(Drop)]
pub enum Gathering<'a> {
    /// All of them.
    Items(Vec<Value>),
    /// What is asked of them.
    Tally(Tally<'a>),
}

// The integer that a value is; 0 of any other value.
fn number(item: &Value) -> i64
    ensures { result ≡ number item.now }
{
    match item {
        Value::Int(number) => *number,
        _ => 0,
    }
}

impl<'a> Tally<'a> {
    /// Tallies one item more.
    ///
    /// # Errors
    /// More items than memory could hold.
    pub fn add(&mut self, item: &Value) -> Result<(), NoMemory>
        ensures { OnOk result (tally self.new ≡ with_one (tally self.old) item.now) }
    {
        match self {
            Tally::Empty(none) => {
                *none = false;
                Ok(())
            }
            Tally::Count(count) => match count.checked_add(1) {
                Some(more) => {
                    *count = more;
                    Ok(())
                }
                None => Err(NoMemory),
            },
            Tally::Total(total) => match total.checked_add(i128::from(number(item))) {
                Some(more) => {
                    *total = more;
                    Ok(())
                }
                None => Err(NoMemory),
            },
            Tally::Member(sought, found) => {
                if !*found {
                    *found = cmp(item, *sought).is_eq();
                }
                Ok(())
            }
        }
    }

    /// Tallies some items more.
    ///
    /// # Errors
    /// Those of `add`.
    pub fn add_each(&mut self, items: &[Value]) -> Result<(), NoMemory>
        ensures { OnOk result (tally self.new ≡ with_all (tally self.old) items.now) }
    {
        'items: for item in items {
            match self.add(item) {
                Ok(()) => {}
                Err(_) => return Err(NoMemory),
            }
        }
        Ok(())
    }

    // What is answered of the items that were tallied.
    fn answer(self) -> Result<Value, EvalStop>
        ensures { AnswersPrim (answer_in (tally self.entry)) result }
    {
        match self {
            Tally::Empty(none) => Ok(Value::Bool(none)),
            Tally::Count(count) => match i64::try_from(count) {
                Ok(count) => Ok(Value::Int(count)),
                Err(_) => Err(EvalStop::NoMemory),
            },
            Tally::Total(total) => match i64::try_from(total) {
                Ok(total) => Ok(Value::Int(total)),
                Err(_) => Err(EvalStop::Overflow),
            },
            Tally::Member(_, found) => Ok(Value::Bool(found)),
        }
    }
}

impl<'a> Gathering<'a> {
    /// One item more.
    ///
    /// # Errors
    /// Want of memory.
    pub fn add(&mut self, item: Value) -> Result<(), NoMemory>
        ensures { OnOk result (gathered self.new ≡ with_one (gathered self.old) item) }
    {
        match self {
            Gathering::Items(items) => match items.push(item) {
                Ok(()) => Ok(()),
                Err(_) => Err(NoMemory),
            },
            Gathering::Tally(tally) => tally.add(&item),
        }
    }

    /// Some items more.
    ///
    /// # Errors
    /// Want of memory.
    pub fn add_all(&mut self, more: Vec<Value>) -> Result<(), NoMemory>
        ensures { OnOk result (gathered self.new ≡ with_all (gathered self.old) more.items) }
    {
        let mut more = more;
        match self {
            Gathering::Items(items) => match items.append(&mut more) {
                Ok(()) => Ok(()),
                Err(_) => Err(NoMemory),
            },
            Gathering::Tally(tally) => tally.add_each(&more),
        }
    }

    /// The items, where they are kept.
    pub fn into_items(self) -> Vec<Value>
        requires { IsListed (gathered self) }
        ensures { gathered self.entry ≡ listed result.items }
    {
        match self {
            Gathering::Items(items) => items,
            Gathering::Tally(_) => unreachable!(),
        }
    }

    /// What is answered of the items that were tallied.
    ///
    /// # Errors
    /// A total that leaves the integers; more items than memory could hold.
    pub fn answer(self) -> Result<Value, EvalStop>
        requires { IsTally (gathered self) }
        ensures { AnswersPrim (answer_in (gathered self.entry)) result }
    {
        match self {
            Gathering::Items(_) => unreachable!(),
            Gathering::Tally(tally) => tally.answer(),
        }
    }
}

fn is_set(kind: Kind) -> bool
    ensures { result ≡ is_set kind }
{
    match kind {
        Kind::Set => true,
        Kind::Bag | Kind::List => false,
    }
}

// What a primitive of one argument asks of the items of a collection of a kind, where they tell its answer as they come:
// repeats count in a set that is not yet made.
fn tally_for(code: u8, kind: Kind) -> Option<Tally<'static>>
    ensures tells { IfSome result (λ t. Tells code [] kind (tally t)) }
    ensures given { IsTallied code kind → IsSome result }
{
    if code == IS_EMPTY {
        Some(Tally::Empty(true))
    } else if is_set(kind) {
        None
    } else if code == COUNT {
        Some(Tally::Count(0))
    } else if code == SUM {
        Some(Tally::Total(0))
    } else {
        None
    }
}

/// What a primitive asks of the items of its only argument, where they come item by item and tell its answer so.
pub fn tally_only(code: u8, plan: &Plan) -> Option<Tally<'static>>
    ensures tells { IfSome result (λ t. TellsItems code [] (kind_of_items (view plan.now)) (tally t)) }
    ensures given { AreTallied code (kind_of_items (view plan.now)) → IsSome result }
{
    if code == IS_EMPTY || code == COUNT || code == SUM {
        match kind_of_items(plan) {
            Some(kind) => tally_for(code, kind),
            None => None,
        }
    } else {
        None
    }
}

/// The same of its second argument, where the first one has this value.
pub fn tally_second<'a>(code: u8, first: &'a Value, plan: &Plan) -> Option<Tally<'a>>
    ensures tells { IfSome result (λ t. TellsItems code (first.now ∷ []) (kind_of_items (view plan.now)) (tally t)) }
    ensures given { code ≡ 16 → IsSome (kind_of_items (view plan.now)) → IsSome result }
{
    if code == MEMBER {
        match kind_of_items(plan) {
            Some(_) => Some(Tally::Member(first, false)),
            None => None,
        }
    } else {
        None
    }
}

/// Whether a primitive counts rows of which none is repeated: these tell its answer as they come, of a set also.
pub fn counts_rows<C: Scans>(code: u8, plan: &Plan, run: &C) -> bool
    requires { (env : List Value) × HasWorth (C.world run.now) (view plan.now) env }
    ensures yes { result ≡ true → CountsRows (C.world run.now) code plan.now }
    ensures no { CountsRows (C.world run.now) code plan.now → result ≡ true }
{
    match plan {
        Plan::Scan(scan) => code == COUNT && run.repeats_none(scan),
        _ => false,
    }
}
