//! The rules by their numbers.
ghost use Rattle.kl_core.specs.Trees.{view};
ghost use Rattle.kl_rules.specs.Rules.{RewriteRule};
ghost use Rattle.kl_rules.specs.Rewriting.{IsShiftable, RewritesBy};

use crate::bindings::{rule_8, rule_9, rule_10, rule_12};
use crate::conditions::{rule_15, rule_16, rule_17};
use crate::loops::{rule_1, rule_2, rule_3, rule_4, rule_5, rule_6, rule_7};
use crate::records::rule_11;
use crate::shapes::{rule_13, rule_14};
use kl_base::NoMemory;
use kl_core::Term;
use std::alloc::Global;

/// How many rules there are.
pub const RULES: u8 = 17;

/// What the rule with the number makes of the term, none where it does not fit. Rules are numbered from 1 to 17, and no other
/// number fits any term.
///
/// # Errors
/// Want of memory.
pub fn rule(alloc: Global, number: u8, term: &Term) -> Result<Option<Term>, NoMemory>
    requires small { IsShiftable (view term.now) }
    ensures { RewritesBy (RewriteRule number) (view term.now) result }
{
    match number {
        1 => rule_1(alloc, term),
        2 => rule_2(alloc, term),
        3 => rule_3(alloc, term),
        4 => rule_4(alloc, term),
        5 => rule_5(alloc, term),
        6 => rule_6(alloc, term),
        7 => rule_7(alloc, term),
        8 => rule_8(alloc, term),
        9 => rule_9(alloc, term),
        10 => rule_10(alloc, term),
        11 => rule_11(alloc, term),
        12 => rule_12(alloc, term),
        13 => rule_13(alloc, term),
        14 => rule_14(alloc, term),
        15 => rule_15(alloc, term),
        16 => rule_16(alloc, term),
        17 => rule_17(alloc, term),
        _ => Ok(None),
    }
}
