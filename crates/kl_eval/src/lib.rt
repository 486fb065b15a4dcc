//! The plain evaluator: what a term comes to, straight from its meaning.
//!
//! A source is read by a whole scan of its driver, each time anew. Values are looked at where they stand: a variable, a
//! constant or a field of one of them is copied only where a whole value is made.
//! No clause says where memory is wanted: that it is not with ample memory is for tests and cases.
#![tactic(auto)]

mod comparing;
mod env;
mod evaluator;
mod public;
mod scans;
mod steps;
mod stop;
mod tables;

pub use env::{Env, variable};
pub use public::{compared_plain, eval, eval_list, lent_plain, part, plain};
pub use steps::{
    append, apply, copy, gather, inside, join, outside, place, push, push_field, tag, truth,
    variant,
};
pub use stop::{EvalStop, Halt};
