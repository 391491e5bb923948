//! What each export of a batch does with it.
ghost use Rattle.arrowstream_c.specs.Calls.{AreColumns, AreRows, ClonesBatch, CopiesBuffer};
ghost use Rattle.arrowstream_c.specs.Calls.{CopiesPairs, DescribesColumn, GivesPairs};
ghost use Rattle.arrowstream_c.specs.Numbers.{IsBuffer};

use crate::answers::{ABSENT, COLUMN_SIZE, Column, MISUSE, status_of};
use crate::batch::BatchHandle;
use crate::block::Block;
use crate::reader_calls::give;
use ipc_model::Fault;
use ipc_stream_session::{BufferKind, ReadBatch};
use std::alloc::Global;

pub(crate) fn free_batch(batch: Block<ReadBatch, Global>) {
    batch.into_box().drop();
}

pub(crate) fn share(alloc: Global, batch: &mut ReadBatch) -> BatchHandle
    ensures { ClonesBatch batch.old batch.new result.held result.status }
{
    match batch.clone() {
        Ok(copy) => BatchHandle::holding(alloc, copy),
        Err(_) => BatchHandle::none(status_of(&Fault::OutOfMemory)),
    }
}

pub(crate) fn rows(batch: &mut ReadBatch) -> usize
    ensures { AreRows batch.old batch.new result }
{
    batch.rows()
}

pub(crate) fn columns(batch: &mut ReadBatch) -> usize
    ensures { AreColumns batch.old batch.new result }
{
    batch.columns()
}

// The text of the pairs.
fn pairs_text(batch: &ReadBatch) -> Result<Option<String>, Fault>
    ensures { GivesPairs batch.now result }
{
    match batch.pairs_text() {
        Ok(text) => Ok(Some(text)),
        Err(fault) => Err(fault),
    }
}

pub(crate) fn pairs(batch: &mut ReadBatch, text: &mut [u8], wanted: &mut usize) -> u32
    ensures { CopiesPairs batch.old batch.new text.old text.new wanted.new result }
{
    give(pairs_text(batch), text, wanted)
}

pub(crate) fn column(batch: &mut ReadBatch, path: &[u64], out: &mut Column) -> u32
    ensures { DescribesColumn batch.old path.now batch.new out.old out.new result }
{
    if out.size < COLUMN_SIZE {
        return MISUSE;
    }
    match batch.column(path) {
        Some(facts) => {
            *out = Column::of(out.size, &facts);
            0
        }
        None => ABSENT,
    }
}

// The buffer of a number.
fn buffer_kind(number: u32) -> Option<BufferKind>
    ensures { IsBuffer number result }
{
    match number {
        0 => Some(BufferKind::Validity),
        1 => Some(BufferKind::Offsets),
        2 => Some(BufferKind::Values),
        _ => None,
    }
}

pub(crate) fn buffer(
    batch: &mut ReadBatch,
    path: &[u64],
    number: u32,
    bytes: &mut [u8],
    wanted: &mut usize,
) -> u32
    ensures { CopiesBuffer batch.old path.now number batch.new bytes.old bytes.new wanted.new
        result }
{
    *wanted = 0;
    let Some(kind) = buffer_kind(number) else {
        return ABSENT;
    };
    match batch.copy_buffer(path, kind, bytes) {
        Some(count) => {
            *wanted = count;
            0
        }
        None => ABSENT,
    }
}
