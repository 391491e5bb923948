//! What a column holds while it is built.
ghost use Rattle.std.specs.Prelude.{◌≤◌, ◌<◌, ◌^◌};
ghost use Rattle.ipc_model.specs.MaxLimits.{max_slots};

use ipc_model::IntBits;

/// The sizes of a column: its slots, its null slots, and its data.
#[derive(Clone, Copy, Debug, Drop)]
pub(crate) struct ColumnCounts {
    pub(crate) slots: usize,
    pub(crate) nulls: usize,
    /// The number of bytes, or of items of lists. A column of bits, structs or nulls has none.
    pub(crate) amount: usize,
    ghost few: { slots ≤ max_slots },
    ghost counted: { nulls ≤ slots },
    ghost small: { amount < 2 ^ 63 },
}

/// What a column holds beside its validity bitmap, by its layout. Each buffer is without padding
/// (Arrow Columnar Format, "Buffer Listing for Each Layout").
#[derive(Debug, Drop)]
pub(crate) enum ColumnData {
    /// No buffers.
    Null,
    /// A bit for each slot.
    Bits(Vec<u8>),
    /// Numbers of one width.
    Numbers {
        bits: IntBits,
        signed: bool,
        values: Vec<u8>,
    },
    /// `width` bytes for each slot.
    FixedBytes {
        width: u32,
        values: Vec<u8>,
    },
    /// Offsets, and the bytes between them.
    VariableBytes {
        utf8: bool,
        offsets: Vec<u8>,
        values: Vec<u8>,
    },
    /// Offsets, and the number of items of all lists.
    Lists {
        offsets: Vec<u8>,
        items: u32,
    },
    /// Lists of this size. Their items are in the child.
    FixedLists(u32),
    /// Structs. Their values are in the children.
    Structs,
    /// Indices of values in a dictionary.
    Indices(IndexData),
}

/// The indices of values in a dictionary.
#[derive(Debug, Drop)]
pub(crate) struct IndexData {
    pub(crate) bits: IntBits,
    pub(crate) signed: bool,
    /// The id of the dictionary.
    pub(crate) id: i64,
    /// The index of each value. A null has none.
    pub(crate) indices: Vec<Option<u64>>,
    /// Memory for the numbers that are written in place of the indices.
    pub(crate) values: Vec<u8>,
}

/// A column with the values so far.
#[derive(Debug, Drop)]
pub(crate) struct ColumnBuilder {
    pub(crate) slots: usize,
    pub(crate) nulls: usize,
    /// The validity bitmap. It is empty while no value is null.
    pub(crate) validity: Vec<u8>,
    pub(crate) data: ColumnData,
    ghost few: { slots ≤ max_slots },
    ghost counted: { nulls ≤ slots },
}
