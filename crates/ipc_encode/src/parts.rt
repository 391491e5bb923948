//! The encoded rows of a record batch, with its body in one buffer.
ghost use Rattle.std.specs.Prelude.{◌≡◌, IfOk};
ghost use Rattle.ipc_encode.specs.Segments.{bytes_of_segments};

use crate::segments::{Segment, SegmentedParts};
use ipc_model::Items;
use std::alloc::{AllocError, Global};

/// The encoded rows of a record batch (Message.fbs, RecordBatch).
#[derive(Debug, Drop)]
pub struct Parts {
    /// For each field in pre-order the number of its slots, and the number of null slots (struct
    /// FieldNode).
    pub nodes: Items<(i64, i64)>,
    /// For each buffer in pre-order its offset in the body, and its length without padding, both in
    /// bytes (Schema.fbs, struct Buffer).
    pub buffers: Items<(i64, i64)>,
    /// The bytes of the buffers, each padded with zeros to a multiple of 8 bytes.
    pub body: Vec<u8>,
}

// The bytes of segments, one after another.
fn join(alloc: Global, segments: &[Segment<'_>], len: usize) -> Result<Vec<u8>, AllocError>
    ensures { IfOk result (λ body. body.items ≡ bytes_of_segments segments.now) }
{
    let mut body = Vec::with_capacity(alloc, len)?;
    for segment in segments {
        body.extend_from_slice(segment.as_bytes())?;
    }
    Ok(body)
}

impl SegmentedParts<'_> {
    /// Returns the parts with the body in one buffer. Returns an error if memory for it ran out.
    pub(crate) fn joined(self, alloc: Global) -> Result<Parts, AllocError>
        ensures nodes { IfOk result (λ parts. parts.nodes ≡ self.entry.nodes) }
        ensures buffers { IfOk result (λ parts. parts.buffers ≡ self.entry.buffers) }
        ensures body { IfOk result (λ parts. parts.body.items
            ≡ bytes_of_segments self.entry.segments.items) }
    {
        let SegmentedParts {
            nodes,
            buffers,
            segments,
            len,
        } = self;
        let body = join(alloc, &segments, len)?;
        Ok(Parts {
            nodes,
            buffers,
            body,
        })
    }
}
