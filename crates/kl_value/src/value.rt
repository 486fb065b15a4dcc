use kl_base::{Box, Label, Seq, Text};

/// The three kinds of collection.
#[derive(Clone, Copy, Debug, PartialEq, Eq, PartialOrd, Ord, Hash)]
pub enum Kind {
    /// No value twice, and no order: `{1, 2}`.
    Set,
    /// No order: `{|1, 1|}`.
    Bag,
    /// Items in their order: `[|2, 1, 2|]`.
    List,
}

/// The items of a collection.
pub type Items = Seq<Value>;

/// The fields of a record, by strictly rising label where the record is canonical.
pub type Fields = Seq<(Label, Value)>;

/// A value of the language, after Wong's complex objects.
///
/// Its order goes by shape first, as the shapes stand here; inside a shape false is before true, integers go by
/// value, texts by bytes, records as lists of pairs of label and value, variants by label and then payload, and
/// collections as lists, item by item, a proper prefix first.
///
/// A value is canonical where each record's labels rise strictly, each set's items rise strictly, and each bag's
/// items rise. Every public call that answers a value answers a canonical one where it is given canonical ones.
#[derive(Debug, Drop, PartialEq, Eq, PartialOrd, Ord, Hash)]
pub enum Value {
    /// `true` or `false`.
    Bool(bool),
    /// An integer of 64 bits.
    Int(i64),
    /// Any bytes: `"gene"`.
    Text(Text),
    /// A record: `[title="Genes", vol=3]`.
    Rec(Fields),
    /// A variant, one label with a value: `<chr=7>`.
    Inj(Label, Box<Value>),
    /// A set: `{1, 2}`.
    Set(Items),
    /// A bag: `{|1, 1|}`.
    Bag(Items),
    /// A list: `[|2, 1, 2|]`.
    List(Items),
}
