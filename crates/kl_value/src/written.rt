//! What stands around, between and inside the parts of a written value or type.
ghost use Rattle.std.specs.Prelude.{◌≡◌};
ghost use Rattle.kl_value.specs.Quoted.{escape_of};
ghost use Rattle.kl_value.specs.Written.{separator, opening, closing};

use crate::value::Kind;

/// What stands before the part at a place: nothing, or a comma and a space.
pub fn separator(place: usize) -> &'static [u8]
    ensures { result.now ≡ separator place }
{
    if place == 0 { b"" } else { b", " }
}

/// The brackets that open a collection: `{`, `{|`, `[|`.
pub fn opening(kind: Kind) -> &'static [u8]
    ensures { result.now ≡ opening kind }
{
    match kind {
        Kind::Set => b"{",
        Kind::Bag => b"{|",
        Kind::List => b"[|",
    }
}

/// The brackets that close a collection: `}`, `|}`, `|]`.
pub fn closing(kind: Kind) -> &'static [u8]
    ensures { result.now ≡ closing kind }
{
    match kind {
        Kind::Set => b"}",
        Kind::Bag => b"|}",
        Kind::List => b"|]",
    }
}

/// The byte that a backslash and this byte mean in a text: `"` and `\` themselves, and `n`, `r` and `t` a line feed, a
/// carriage return and a tab. `None` of any other, `x` among them, behind which two hexadecimal digits stand.
pub fn escaped(byte: u8) -> Option<u8>
    ensures { result ≡ escape_of byte }
{
    match byte {
        b'"' => Some(b'"'),
        b'\\' => Some(b'\\'),
        b'n' => Some(b'\n'),
        b'r' => Some(b'\r'),
        b't' => Some(b'\t'),
        _ => None,
    }
}
