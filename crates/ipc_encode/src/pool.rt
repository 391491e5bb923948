//! Memory that one batch leaves for the next.
ghost use Rattle.std.specs.Prelude.{◌≡◌, []};

use crate::segments::Segment;
use std::alloc::Global;

/// The memory of the buffers of a batch that was sent, for those of the next. What they held is
/// never read again.
#[derive(Debug, Drop)]
pub struct BufferPool {
    buffers: Vec<Vec<u8>>,
}

impl BufferPool {
    /// Creates an empty one. It takes no memory.
    pub fn new(alloc: Global) -> BufferPool {
        BufferPool {
            buffers: Vec::new(alloc),
        }
    }

    /// Returns an empty buffer, in the memory of one that was kept if there is any.
    pub(crate) fn take(&mut self, alloc: Global) -> Vec<u8>
        ensures { result.items ≡ [] }
    {
        match self.buffers.pop() {
            Some(buffer) => {
                let mut buffer = buffer;
                buffer.clear();
                buffer
            }
            None => Vec::new(alloc),
        }
    }

    /// Keeps the memory of the segments of a body that was sent, and drops what was kept before.
    /// Each buffer of a next batch of the same columns takes that of its own column. Buffers for
    /// which there is no room are dropped.
    pub fn keep(&mut self, segments: Vec<Segment<'_>>) {
        self.buffers.clear();
        let mut segments = segments;
        while let Some(segment) = segments.pop() {
            if let Segment::Owned(bytes) = segment {
                let _ = self.buffers.push(bytes);
            }
        }
    }
}
