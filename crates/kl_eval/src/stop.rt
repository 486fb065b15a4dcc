//! The ways in which an evaluation ends without a value.
use kl_ask::DriverError;
use kl_base::Label;
use kl_value::Value;

/// Why an evaluation has no value.
#[derive(Drop, PartialEq, Eq)]
pub enum EvalStop {
    /// The outcome is an overflow.
    Overflow,
    /// The driver of this source refused to go on: a fault, or a source that is not what it was when it was attached.
    Driver { source: Label, error: DriverError },
    /// A growth was refused.
    NoMemory,
}

/// Why a term has no value: its outcome is an overflow, with these items before it; a driver refused to go on; or a
/// growth was refused.
#[derive(Drop)]
pub enum Halt {
    Over(Vec<Value>),
    Driver { source: Label, error: DriverError },
    NoMemory,
}
