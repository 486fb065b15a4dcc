//! The rows of the table.
ghost use Rattle.std.specs.Prelude.{◌≡◌, ◌≢◌, ◌↔◌, nat_eq, map, length, IsNone, IfSome, All, Contains};
ghost use Rattle.std.specs.Cmp.Lexicographic.{pointwise};
ghost use Rattle.std.specs.List.{IsDistinct};
ghost use Rattle.std.proofs.Props.{props};

/// What a primitive takes and gives, one variant for each different type in the table: t stands for any type, and K
/// for one kind of collection throughout.
#[derive(Clone, Copy, PartialEq, Eq)]
pub enum Shape {
    /// Two values of one type, to a truth value.
    Compare,
    /// Two integers, to an integer.
    IntOp,
    /// An integer, to an integer.
    IntFn,
    /// A truth value, to a truth value.
    BoolFn,
    /// Two texts, to a text.
    TextJoin,
    /// A collection, to a truth value.
    CollTest,
    /// A collection, to an integer.
    CollCount,
    /// A collection of integers, to an integer.
    CollSum,
    /// A t and a collection of t, to a truth value.
    Member,
    /// A collection, to one of its type.
    CollSame,
    /// A K of K of t, to a K of t.
    Flatten,
    /// A collection of t, to a set of t.
    ToSet,
    /// A collection of t, to a bag of t.
    ToBag,
    /// A collection of t, to a list of t.
    ToList,
    /// A text, to an integer.
    TextLen,
    /// Two texts, to a truth value.
    TextTest,
    /// A text, to a set of integers.
    TextInts,
    /// An integer, to a text.
    IntText,
    /// Two records that share no label, to the record of both.
    Extend,
    /// A record and another whose labels it has, to the record of its other fields.
    Rest,
    /// An integer and a collection, to one of its type.
    Take,
}

/// A row: a primitive's code and name, how many arguments it takes, what they are, and whether it always has an
/// answer.
#[derive(Clone, Copy)]
pub struct PrimRow {
    /// What `apply` knows it by.
    pub code: u8,
    /// What programs call it.
    pub name: &'static [u8],
    /// How many arguments it takes.
    pub arity: u8,
    /// What these are, and what it gives.
    pub shape: Shape,
    /// Whether it has an answer for all arguments of the shape.
    pub total: bool,
}

/// The rows of N primitives, no two of one code or name.
#[derive(Clone, Copy)]
pub struct PrimTable<const N: usize> {
    /// Its rows, by rising code.
    pub rows: &'static [PrimRow],
    ghost counted: { length rows.now ≡ N },
    ghost codes_differ: { IsDistinct nat_eq (map (λ row. row.code) rows.now) } by { Prim.hlevel props },
    ghost names_differ: { IsDistinct (pointwise nat_eq) (map (λ row. row.name.now) rows.now) } by { Prim.hlevel props },
}

impl<const N: usize> PrimTable<N> {
    /// The row of a name, and `None` exactly where no row has it. Takes no memory.
    pub fn find(&self, name: &[u8]) -> Option<&PrimRow>
        ensures none { IsNone result ↔ All (λ row. row.name.now ≢ name.now) self.now.rows.now }
        ensures some { IfSome result (λ row. Contains self.now.rows.now row.now) }
        ensures named { IfSome result (λ row. row.now.name.now ≡ name.now) }
    {
        self.rows.iter().find(|row| row.name == name)
    }
}
