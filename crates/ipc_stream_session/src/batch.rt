//! A record batch that was read, which stays valid whatever its session reads.
ghost use Rattle.std.specs.Prelude.{◌≡◌, IfErr, IfNone, IfOk, IfSome, length, string_bytes};
ghost use Rattle.ipc_text_json.specs.SchemaJson.{pairs_text};
ghost use Rattle.ipc_stream_session.specs.Paths.{FindsBuffer, FindsColumn, LeadsToColumn};
ghost use Rattle.ipc_stream_session.specs.Paths.{LeadsNowhere};

use crate::buffer::BufferKind;
use crate::column::{ColumnFacts, facts_of, slots_below};
use crate::copy::copy_into;
use ipc_column::{Batch, SlotView};
use ipc_model::{Fault, Items, Text};
use ipc_text_json::pairs_json;
use std::alloc::{AllocError, Global};

/// A record batch with the pairs of key and value of its message (Message.fbs, tables RecordBatch
/// and Message, `custom_metadata`).
#[derive(Drop)]
pub struct ReadBatch {
    batch: Batch,
    pairs: Items<(Text, Text)>,
    alloc: Global,
}

impl Clone for ReadBatch {
    ghost use Rattle.std.specs.Prelude.{◌≡◌};

    ghost is_clone = { λ batch copy. copy ≡ batch };

    /// Returns a batch that shares the body, and has a copy of the pairs.
    fn clone(&self) -> Result<ReadBatch, AllocError> {
        Ok(ReadBatch {
            batch: self.batch.clone()?,
            pairs: self.pairs.clone()?,
            alloc: self.alloc,
        })
    }
}

impl ReadBatch {
    // A batch with its pairs.
    pub(crate) fn new(alloc: Global, batch: Batch, pairs: Items<(Text, Text)>) -> ReadBatch
        ensures batch { result.batch ≡ batch }
        ensures pairs { result.pairs ≡ pairs }
    {
        ReadBatch {
            batch,
            pairs,
            alloc,
        }
    }

    // The batch, without its pairs.
    pub(crate) fn into_batch(self) -> Batch
        ensures { result ≡ self.batch }
    {
        let ReadBatch {
            batch,
            pairs: _,
            alloc: _,
        } = self;
        batch
    }

    // The batch, and its pairs.
    pub(crate) fn parts(&self) -> (&Batch, &Items<(Text, Text)>)
        ensures batch { result.0.now ≡ self.now.batch }
        ensures pairs { result.1.now ≡ self.now.pairs }
    {
        (&self.batch, &self.pairs)
    }

    /// Returns the number of rows.
    pub fn rows(&self) -> usize
        ensures { result ≡ length self.now.batch.rows }
    {
        self.batch.rows()
    }

    /// Returns the number of columns.
    pub fn columns(&self) -> usize
        ensures { result ≡ self.now.batch.columns }
    {
        self.batch.columns()
    }

    /// Returns the pairs as a compact JSON array, in which each pair is an array of a key and a
    /// value. Errors: `OutOfMemory` only.
    pub fn pairs_text(&self) -> Result<String, Fault>
        ensures text { IfOk result (λ text. string_bytes text ≡ pairs_text self.now.pairs) }
        ensures memory { IfErr result (λ fault. fault ≡ Fault.OutOfMemory) }
    {
        match pairs_json(self.alloc, self.pairs.as_slice()) {
            Ok(text) => Ok(text),
            Err(_) => Err(Fault::OutOfMemory),
        }
    }

    /// Describes the column to which a path leads. The first number of the path is that of a
    /// column, from 0. Each further one is that of a child, or `DICTIONARY_STEP`. Returns `None` if
    /// the path is empty or leads to no column.
    pub fn column(&self, path: &[u64]) -> Option<ColumnFacts>
        ensures { FindsColumn self.now.batch path.now result }
    {
        match self.slots_at(path) {
            None => None,
            Some(view) => Some(facts_of(&view)),
        }
    }

    /// Copies one buffer of the column to which a path leads (see `column`) to the beginning of
    /// `target`, or nothing if `target` is too short. Returns the number of bytes of the buffer in
    /// both cases. Returns `None`, and leaves `target` as it is, if the path leads to no column.
    pub fn copy_buffer(&self, path: &[u64], buffer: BufferKind, target: &mut [u8]) -> Option<usize>
        ensures { FindsBuffer self.now.batch path.now buffer target.old target.new result }
    {
        match self.slots_at(path) {
            None => None,
            Some(view) => Some(copy_into(buffer.bytes_in(&view.buffers()), target)),
        }
    }

    // The slots of the column to which a path leads.
    fn slots_at(&self, path: &[u64]) -> Option<SlotView<'_>>
        ensures finds { IfSome result (LeadsToColumn self.now.batch path.now) }
        ensures none { IfNone result (LeadsNowhere self.now.batch path.now) }
    {
        match path.split_first() {
            None => None,
            Some((first, rest)) => {
                if *first >= self.batch.columns() as u64 {
                    return None;
                }
                slots_below(self.batch.slots(*first as usize), rest)
            }
        }
    }
}
