//! The buffers of columns, lent as they are laid out in the body.
use ipc_model::{IntBits, Layout};

/// The buffers of a column, lent as they are laid out in the body (Arrow Columnar Format, "Buffer
/// Listing for Each Layout").
#[derive(Clone, Copy, Debug, Drop)]
pub struct Buffers<'a> {
    /// The layout of the slots.
    pub layout: Layout,
    /// The validity bitmap, or no bytes if the column has none.
    pub validity: &'a [u8],
    /// The offsets of slots of variable length. A layout without offsets has no bytes here.
    pub offsets: &'a [u8],
    /// The values of the slots. Those of null slots have no meaning.
    pub values: &'a [u8],
}

/// The numbers of a column, lent as they are laid out in the body (Arrow Columnar Format,
/// "Fixed-size Primitive Layout").
#[derive(Clone, Copy, Debug, Drop)]
pub struct Numbers<'a> {
    /// The number of bits of each number.
    pub bits: IntBits,
    /// Whether the numbers are signed, in two's complement.
    pub signed: bool,
    /// The validity bitmap, or no bytes if the column has none.
    pub validity: &'a [u8],
    /// A number for each slot, little-endian. Those of null slots have no meaning.
    pub values: &'a [u8],
}
