//! The trees that are written.
use ipc_items::{Items, Text};

/// A table ("Tables"): the values of its fields. A field without a slot is absent.
///
/// Each slot is a field's number in the schema and the field's value. `build` requires that the
/// numbers ascend, without repeats, and are below 16. Contracts describe a tree by its `view`.
#[cycle(flat)]
#[derive(Drop)]
pub struct FlatTree {
    /// The fields that are present, by ascending number.
    pub slots: Items<(u16, Slot)>,
}

/// The value of a field. Scalars are little-endian, signed ones in two's complement ("Format
/// Components").
#[cycle(flat)]
#[derive(Drop)]
pub enum Slot {
    /// An unsigned number of 8 bits, for example a union's type code.
    U8(u8),
    /// A boolean: a byte that is 1 or 0.
    Bool(bool),
    /// A signed number of 16 bits, for example an enum.
    I16(i16),
    /// A signed number of 32 bits.
    I32(i32),
    /// A signed number of 64 bits.
    I64(i64),
    /// A string in UTF-8 ("Strings and Vectors").
    Text(Text),
    /// A table, or the table of a union.
    Table(FlatTree),
    /// A vector of tables.
    Tables(Items<FlatTree>),
    /// A vector of structs of two signed numbers of 64 bits, 16 bytes each ("Structs").
    Pairs(Items<(i64, i64)>),
}
