//! What each export of a writer does with it.
ghost use Rattle.arrowstream_c.specs.WriterCalls as w;

use crate::answers::{CANONICAL_SIZE, Canonical, MISUSE};
use crate::block::Block;
use crate::reader_calls::give;
use ipc_stream_session::{Nesting, ReadBatch, WriteSession};
use std::alloc::Global;

pub(crate) fn free_writer(writer: Block<WriteSession, Global>) {
    writer.into_box().drop();
}

pub(crate) fn begin(writer: &mut WriteSession, text: &[u8]) -> u32
    ensures { w.BeginsStream writer.old text.now writer.new result }
{
    writer.begin(text)
}

pub(crate) fn add_null(writer: &mut WriteSession) -> u32
    ensures { w.AddsNull writer.old writer.new result }
{
    writer.add_null()
}

pub(crate) fn add_bool(writer: &mut WriteSession, value: u32) -> u32
    ensures { w.AddsBool writer.old value writer.new result }
{
    writer.add_bool(value != 0)
}

pub(crate) fn add_int(writer: &mut WriteSession, value: i64) -> u32
    ensures { w.AddsInt writer.old value writer.new result }
{
    writer.add_int(value)
}

pub(crate) fn add_uint(writer: &mut WriteSession, value: u64) -> u32
    ensures { w.AddsUInt writer.old value writer.new result }
{
    writer.add_uint(value)
}

pub(crate) fn add_bytes(writer: &mut WriteSession, bytes: &[u8]) -> u32
    ensures { w.AddsBytes writer.old bytes.now writer.new result }
{
    writer.add_bytes(bytes)
}

pub(crate) fn add_text(writer: &mut WriteSession, text: &[u8]) -> u32
    ensures { w.AddsText writer.old text.now writer.new result }
{
    writer.add_text(text)
}

pub(crate) fn begin_list(writer: &mut WriteSession) -> u32
    ensures { w.BeginsList writer.old writer.new result }
{
    writer.begin_cell(Nesting::List)
}

pub(crate) fn begin_struct(writer: &mut WriteSession) -> u32
    ensures { w.BeginsStruct writer.old writer.new result }
{
    writer.begin_cell(Nesting::Struct)
}

pub(crate) fn end_cell(writer: &mut WriteSession) -> u32
    ensures { w.EndsCell writer.old writer.new result }
{
    writer.end_cell()
}

pub(crate) fn end_row(writer: &mut WriteSession) -> u32
    ensures { w.EndsRow writer.old writer.new result }
{
    writer.end_row()
}

pub(crate) fn drop_row(writer: &mut WriteSession) -> u32
    ensures { w.DropsRow writer.old writer.new result }
{
    writer.drop_row()
}

pub(crate) fn add_pair(writer: &mut WriteSession, key: &[u8], value: &[u8]) -> u32
    ensures { w.AddsPair writer.old key.now value.now writer.new result }
{
    writer.add_pair(key, value)
}

pub(crate) fn drop_batch(writer: &mut WriteSession) -> u32
    ensures { w.DropsBatch writer.old writer.new result }
{
    writer.drop_batch()
}

pub(crate) fn send(writer: &mut WriteSession) -> u32
    ensures { w.SendsRows writer.old writer.new result }
{
    writer.send()
}

pub(crate) fn send_columns(writer: &mut WriteSession, batch: &mut ReadBatch) -> u32
    ensures { w.SendsColumns writer.old batch.old writer.new batch.new result }
{
    writer.send_columns(batch)
}

pub(crate) fn give_dictionary(
    writer: &mut WriteSession,
    id: i64,
    rows: i64,
    nodes: &[i64],
    buffers: &[i64],
    body: &[u8],
) -> u32
    ensures { w.GivesDictionary writer.old id rows nodes.now buffers.now body.now writer.new
        result }
{
    writer.give_dictionary(id, rows, nodes, buffers, body)
}

pub(crate) fn send_buffers(
    writer: &mut WriteSession,
    rows: i64,
    nodes: &[i64],
    buffers: &[i64],
    body: &[u8],
) -> u32
    ensures { w.SendsBuffers writer.old rows nodes.now buffers.now body.now writer.new result }
{
    writer.send_buffers(rows, nodes, buffers, body)
}

pub(crate) fn times_sent(writer: &mut WriteSession, id: i64) -> u64
    ensures { w.CountsSent writer.old id writer.new result }
{
    writer.times_sent(id)
}

pub(crate) fn copy_dictionary(
    writer: &mut WriteSession,
    id: i64,
    bytes: &mut [u8],
    numbers: &mut [i64],
    out: &mut Canonical,
) -> u32
    ensures { w.CopiesDictionary writer.old id writer.new bytes.old bytes.new numbers.old
        numbers.new out.old out.new result }
{
    if out.size < CANONICAL_SIZE {
        return MISUSE;
    }
    match writer.copy_dictionary(id, bytes, numbers) {
        Ok(room) => {
            *out = Canonical::of_sent(out.size, room);
            0
        }
        Err(status) => status,
    }
}

pub(crate) fn copy_canonical(
    writer: &mut WriteSession,
    batch: &mut ReadBatch,
    bytes: &mut [u8],
    numbers: &mut [i64],
    out: &mut Canonical,
) -> u32
    ensures { w.CopiesCanonical writer.old batch.old writer.new batch.new bytes.old bytes.new
        numbers.old numbers.new out.old out.new result }
{
    if out.size < CANONICAL_SIZE {
        return MISUSE;
    }
    match writer.copy_canonical(batch, bytes, numbers) {
        Ok(room) => {
            *out = Canonical::of(out.size, room);
            0
        }
        Err(status) => status,
    }
}

pub(crate) fn finish(writer: &mut WriteSession) -> u32
    ensures { w.Finishes writer.old writer.new result }
{
    writer.finish()
}

pub(crate) fn ready(writer: &mut WriteSession) -> usize
    ensures { w.AreReady writer.old writer.new result }
{
    writer.ready()
}

pub(crate) fn take(writer: &mut WriteSession, bytes: &mut [u8]) -> usize
    ensures { w.TakesBytes writer.old writer.new bytes.old bytes.new result }
{
    writer.take(bytes)
}

pub(crate) fn error_line(writer: &mut WriteSession, text: &mut [u8], wanted: &mut usize) -> u32
    ensures { w.CopiesLine writer.old writer.new text.old text.new wanted.new result }
{
    give(writer.error_text(), text, wanted)
}
