//! The layouts of types: which buffers each needs, and how wide numbers are.
ghost use Rattle.std.specs.Prelude.{◌≡◌};
ghost use Rattle.ipc_model.specs.Layouts.{type_layout, layout, own_buffers, has_validity};
ghost use Rattle.ipc_model.specs.Layouts.{needs_slot_checks, is_texts};

use crate::schema::{DataType, DateUnit, Dictionary, IntBits, TimeUnit};

/// The layout of a field's slots in its buffers (Arrow Columnar Format, "Physical Memory Layout").
#[derive(Clone, Copy, Debug, PartialEq, Eq, Drop)]
pub enum Layout {
    /// No buffers: each slot is null ("Null Layout").
    Null,
    /// A validity bitmap, and a bit for each slot ("Fixed-size Primitive Layout").
    Bits,
    /// A validity bitmap, and numbers of one width ("Fixed-size Primitive Layout").
    Numbers {
        /// The number of bits of each number.
        bits: IntBits,
        /// Whether it is stored in two's complement.
        signed: bool,
    },
    /// A validity bitmap, and this number of bytes for each slot ("Fixed-size Primitive Layout").
    FixedBytes(u32),
    /// A validity bitmap, offsets of 32 bits, and the bytes between them ("Variable-size Binary
    /// Layout").
    VariableBytes {
        /// Whether the bytes of a slot are UTF-8.
        utf8: bool,
    },
    /// A validity bitmap, and offsets of 32 bits into the slots of the one child ("Variable-size
    /// List Layout").
    Lists,
    /// A validity bitmap. Slot `i` holds `size` slots of the one child, from `i * size` on; the
    /// number is the size ("Fixed-Size List Layout").
    FixedLists(u32),
    /// A validity bitmap. Slot `i` holds the values in slot `i` of each child ("Struct Layout").
    Structs,
    /// A validity bitmap, and indices of one width into a dictionary, which is stored separately
    /// ("Dictionary-encoded Layout").
    Indices {
        /// The number of bits of each index.
        bits: IntBits,
        /// Whether it is stored in two's complement.
        signed: bool,
        /// The id of the dictionary.
        id: i64,
    },
}

// The layout of a type's slots.
fn type_layout(kind: &DataType) -> Layout
    ensures { result ≡ type_layout kind.now }
{
    match kind {
        DataType::Null => Layout::Null,
        DataType::Bool => Layout::Bits,
        DataType::Int { bits, signed } => Layout::Numbers {
            bits: *bits,
            signed: *signed,
        },
        DataType::Binary => Layout::VariableBytes { utf8: false },
        DataType::Utf8 => Layout::VariableBytes { utf8: true },
        DataType::FixedSizeBinary(width) => Layout::FixedBytes(*width),
        DataType::Date(DateUnit::Day) => Layout::Numbers {
            bits: IntBits::B32,
            signed: true,
        },
        DataType::Date(DateUnit::Millisecond) | DataType::Timestamp { .. } => Layout::Numbers {
            bits: IntBits::B64,
            signed: true,
        },
        DataType::Time(unit) => Layout::Numbers {
            bits: unit.time_bits(),
            signed: true,
        },
        DataType::Duration(_) => Layout::Numbers {
            bits: IntBits::B64,
            signed: true,
        },
        DataType::List => Layout::Lists,
        DataType::FixedSizeList(size) => Layout::FixedLists(*size),
        DataType::Struct => Layout::Structs,
    }
}

/// Returns the layout of a field of this type with this dictionary. With a dictionary it is
/// `Indices`, whatever the type.
pub fn layout_of(kind: &DataType, dictionary: Option<Dictionary>) -> Layout
    ensures { result ≡ layout kind.now dictionary }
{
    match dictionary {
        None => type_layout(kind),
        Some(dictionary) => Layout::Indices {
            bits: dictionary.index.bits,
            signed: dictionary.index.signed,
            id: dictionary.id,
        },
    }
}

impl Layout {
    /// Returns the number of buffers of a field of this layout, without those of its children: 0 to
    /// 3 (Arrow Columnar Format, "Buffer Listing for Each Layout").
    pub fn own_buffers(self) -> usize
        ensures { result ≡ own_buffers self }
    {
        match self {
            Layout::Null => 0,
            Layout::FixedLists(_) | Layout::Structs => 1,
            Layout::Bits
            | Layout::Numbers { .. }
            | Layout::FixedBytes(_)
            | Layout::Lists
            | Layout::Indices { .. } => 2,
            Layout::VariableBytes { .. } => 3,
        }
    }

    /// Returns whether the layout has a validity bitmap that the null count must match. Only the
    /// null layout has none.
    pub fn has_validity(self) -> bool
        ensures { result ≡ has_validity self }
    {
        match self {
            Layout::Null => false,
            _ => true,
        }
    }

    /// Returns whether each slot holds a text in UTF-8.
    pub fn is_texts(self) -> bool
        ensures { result ≡ is_texts self }
    {
        match self {
            Layout::VariableBytes { utf8 } => utf8,
            _ => false,
        }
    }

    /// Returns whether each visible slot must be validated by itself: a text must be UTF-8, and an
    /// index must be that of a value in its dictionary.
    pub fn needs_slot_checks(self) -> bool
        ensures { result ≡ needs_slot_checks self }
    {
        match self {
            Layout::VariableBytes { utf8 } => utf8,
            Layout::Indices { .. } => true,
            _ => false,
        }
    }
}
