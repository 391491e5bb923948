//! The three buffers of a column.
ghost use Rattle.std.specs.Prelude.{◌≡◌};
ghost use Rattle.ipc_stream_session.specs.Paths.{bytes_of_buffer};

use ipc_column::Buffers;

/// One of the buffers of a column (Arrow Columnar Format, "Buffer Listing for Each Layout").
#[derive(Clone, Copy, Debug, PartialEq, Eq)]
pub enum BufferKind {
    /// The validity bitmap.
    Validity,
    /// The offsets of slots of variable length, 32 bits each.
    Offsets,
    /// The values of the slots.
    Values,
}

impl BufferKind {
    // The bytes of this buffer.
    pub(crate) fn bytes_in<'a>(self, buffers: &Buffers<'a>) -> &'a [u8]
        ensures { result.now ≡ bytes_of_buffer self buffers.now }
    {
        match self {
            BufferKind::Validity => buffers.validity,
            BufferKind::Offsets => buffers.offsets,
            BufferKind::Values => buffers.values,
        }
    }
}
