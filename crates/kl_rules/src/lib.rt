//! The rules of rewriting, each by itself at the root of a term.
//!
//! A rule borrows the term and answers a new one, or none where it does not fit; what it takes over is copied. The
//! definitions of the rules are one table, `specs/Rules.antt`, and `rule` takes them by number. Rules 3 and 17 are also
//! made where the term stands: they move its parts, of which rule 3 copies the condition that it takes out of a loop.
//!
//! What `rt plant` lets through here: bodies that answer want of memory, which no contract of this project ties to a
//! refused growth.
#![tactic(auto)]

mod bindings;
mod conditions;
mod counting;
mod guards;
mod laws;
mod loops;
mod moving;
mod nearness;
mod pieces;
mod plainness;
mod records;
mod sameness;
mod shapes;
mod table;

pub use bindings::{rule_8, rule_9, rule_10, rule_12};
pub use conditions::{rule_15, rule_16, rule_17};
pub use laws::rule_laws;
pub use loops::{rule_1, rule_2, rule_3, rule_4, rule_5, rule_6, rule_7};
pub use moving::{exchange, promote};
pub use records::rule_11;
pub use shapes::{rule_13, rule_14};
pub use table::{RULES, rule};
