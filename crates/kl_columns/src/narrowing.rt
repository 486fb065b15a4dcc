//! The narrowest type of a column's cells.
ghost use Rattle.std.specs.Prelude.{◌≡◌, ◌≤◌, length, map, reverse};
ghost use Rattle.std.specs.List.{list_all, range_with_len};
ghost use Rattle.kl_flat.specs.Cells.{is_blank, past_blanks, without_blanks};
ghost use Rattle.kl_flat.specs.Held.{height, text_at};
ghost use Rattle.kl_type.specs.declared.ground.Ty.TheVariants as ty;
ghost use Rattle.kl_columns.specs.Narrowing.{narrow_type, reads_as};

use kl_flat::{Cells, Texts};
use kl_prim::number_in;
use kl_type::Ty;

/// The narrowest type of the first cells of a column that is held as texts: `int` where each reads as one, else `bool` where
/// each does, else `string`.
pub fn narrowest(cells: &Cells, rows: usize) -> Ty
    requires { rows ≤ height cells.now }
    ensures { result ≡ narrow_type rows cells.now }
{
    match cells {
        Cells::Text(texts) => {
            if all_integers(texts, rows) {
                Ty::Int
            } else if all_truths(texts, rows) {
                Ty::Bool
            } else {
                Ty::Str
            }
        }
        Cells::Bool(_) | Cells::Int(_) => Ty::Str,
    }
}

fn all_integers(texts: &Texts, rows: usize) -> bool
    requires { rows ≤ length texts.now.ends.items }
    ensures { result ≡ list_all (reads_as ty.Int) (map (text_at texts.now) (range_with_len 0 rows)) }
{
    for at in 0..rows {
        if !is_integer(texts.get(at)) {
            return false;
        }
    }
    true
}

fn all_truths(texts: &Texts, rows: usize) -> bool
    requires { rows ≤ length texts.now.ends.items }
    ensures { result ≡ list_all (reads_as ty.Bool) (map (text_at texts.now) (range_with_len 0 rows)) }
{
    for at in 0..rows {
        if !is_truth(texts.get(at)) {
            return false;
        }
    }
    true
}

fn is_truth(cell: &[u8]) -> bool
    ensures { result ≡ reads_as ty.Bool cell.now }
{
    cell == b"true".as_slice() || cell == b"false".as_slice()
}

fn is_integer(cell: &[u8]) -> bool
    ensures { result ≡ reads_as ty.Int cell.now }
{
    number_in(trimmed(cell)).is_some()
}

// The cell without the spaces and tabs around it.
fn trimmed(cell: &[u8]) -> &[u8]
    ensures { result.now ≡ without_blanks cell.now }
{
    let mut rest = cell;
    'front: while let [first, behind @ ..] = rest {
        if !is_blank(*first) {
            return front_of(rest);
        }
        rest = behind;
    }
    rest
}

// The cell without the spaces and tabs at its end.
fn front_of(cell: &[u8]) -> &[u8]
    ensures { result.now ≡ reverse (past_blanks (reverse cell.now)) }
{
    let mut rest = cell;
    'back: while let [front @ .., last] = rest {
        if !is_blank(*last) {
            return rest;
        }
        rest = front;
    }
    rest
}

fn is_blank(byte: u8) -> bool
    ensures { result ≡ is_blank byte }
{
    matches!(byte, b' ' | b'\t')
}
