//! The codes of primitives and operators.
ghost use Rattle.std.specs.Prelude.{◌≡◌, map, IfSome};
ghost use Rattle.kl_prim.specs.Table.{entry_of};
ghost use Rattle.kl_meaning.specs.Run.{code_of, code_named};
ghost use Rattle.kl_meaning.specs.Codes.{IsCalled, code_in};

use kl_base::Label;
use kl_prim::{PrimRow, table};
use kl_syntax::Op;

/// The code of an operator in the table of primitives, and 0 of one that is no primitive.
pub fn code_of(op: Op) -> u8
    ensures { result ≡ code_of op }
{
    match op {
        Op::Eq => 1,
        Op::Ne => 2,
        Op::Lt => 3,
        Op::Le => 4,
        Op::Gt => 5,
        Op::Ge => 6,
        Op::Add => 7,
        Op::Sub => 8,
        Op::Mul => 9,
        Op::Cat => 12,
        Op::And | Op::Or | Op::Append => 0,
    }
}

/// The code of the primitive with a name, or none where no primitive has it. No word is the name of a form of records.
pub fn code_named(name: &Label) -> Option<u8>
    ensures code { result ≡ code_named name.now }
    ensures called { IfSome result IsCalled }
{
    code_in(table().rows, name.word())
}

fn code_in(rows: &[PrimRow], name: &[u8]) -> Option<u8>
    ensures { result ≡ code_in name.now (map entry_of rows.now) }
{
    for row in rows {
        if *row.name == *name {
            return Some(row.code);
        }
    }
    None
}
