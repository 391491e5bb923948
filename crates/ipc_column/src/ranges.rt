//! The ranges of buffers in a body.
ghost use Rattle.std.specs.Prelude.{◌≡◌};
ghost use Rattle.ipc_column.specs.Spans.{span_bytes};

use crate::dictionary::DictionaryValues;
use ipc_model::Layout;

/// The range of a buffer in the body.
#[derive(Clone, Copy, Debug, Drop)]
pub struct BufferRange {
    /// The position of its first byte.
    pub start: usize,
    /// The number of its bytes.
    pub len: usize,
}

/// A field's node with its buffers, over a body that is stored separately.
#[derive(Debug, Drop)]
pub struct ColumnRanges {
    /// The layout of the slots.
    pub layout: Layout,
    /// The number of slots.
    pub slots: usize,
    /// The number of null slots.
    pub nulls: usize,
    /// The validity bitmap.
    pub validity: BufferRange,
    /// The offsets of values of variable length.
    pub offsets: BufferRange,
    /// The values.
    pub values: BufferRange,
    /// The parts of the field's children, in order.
    pub children: Vec<ColumnRanges>,
    /// The dictionary's values, if the slots hold indices.
    pub dictionary: DictionaryValues,
    /// Whether all texts and indices in the slots and below them are known to be valid, those of
    /// null slots included.
    pub known_valid: bool,
}

/// Returns the bytes of a range, or no bytes if it ends after the body.
#[tactic(auto, unfolding(crate::specs::Columns::body_range))]
#[inline(always)]
pub(crate) fn bytes_at(body: &[u8], span: BufferRange) -> &[u8]
    ensures { result.now ≡ span_bytes body.now span }
{
    if span.len <= body.len() && span.start <= body.len() - span.len {
        &body[span.start..span.start + span.len]
    } else {
        &[]
    }
}
