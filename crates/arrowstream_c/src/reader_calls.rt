//! What each export of a reader does with it.
ghost use Rattle.ipc_stream_session.specs.Sessions.{TakesBack};
ghost use Rattle.arrowstream_c.specs.Calls.{Closes, CopiesFieldText, CopiesLine, CopiesSchema};
ghost use Rattle.arrowstream_c.specs.Calls.{DescribesField, Feeds, GivesText, IsAt, TakesBatch};
ghost use Rattle.arrowstream_c.specs.Numbers.{IsFieldText};

use crate::answers::{
    ABSENT, FIELD_SIZE, FieldNumbers, MISUSE, PROGRESS_SIZE, Progress, arrival_number, end_number,
    status_of,
};
use crate::batch::BatchHandle;
use crate::block::Block;
use ipc_model::Fault;
use ipc_stream_session::{FieldText, ReadBatch, ReadSession, copy_into};
use std::alloc::Global;

pub(crate) fn free_reader(reader: Block<ReadSession, Global>) {
    reader.into_box().drop();
}

// Reports how far a reader has come.
fn report(reader: &ReadSession, taken: usize, event: u64, out: &mut Progress)
    ensures { IsAt reader.now taken event out.old.size out.new }
{
    out.taken = taken;
    out.wanted = reader.wants();
    out.messages = reader.messages();
    out.event = event;
}

pub(crate) fn feed(reader: &mut ReadSession, bytes: &[u8], out: &mut Progress) -> u32
    ensures { Feeds reader.old bytes.now reader.new out.old out.new result }
{
    if out.size < PROGRESS_SIZE {
        return MISUSE;
    }
    match reader.feed(bytes) {
        Ok((taken, arrival)) => {
            report(reader, taken, arrival_number(arrival), out);
            0
        }
        Err(fault) => {
            report(reader, 0, 0, out);
            status_of(&fault)
        }
    }
}

pub(crate) fn close(reader: &mut ReadSession, out: &mut Progress) -> u32
    ensures { Closes reader.old reader.new out.old out.new result }
{
    if out.size < PROGRESS_SIZE {
        return MISUSE;
    }
    match reader.close() {
        Ok(end) => {
            report(reader, 0, end_number(end), out);
            0
        }
        Err(fault) => {
            report(reader, 0, 0, out);
            status_of(&fault)
        }
    }
}

// Copies a text, if there is one. Otherwise nothing is copied, and no byte is wanted.
pub(crate) fn give(
    answer: Result<Option<String>, Fault>,
    target: &mut [u8],
    wanted: &mut usize,
) -> u32
    ensures { GivesText answer target.old target.new wanted.new result }
{
    match answer {
        Ok(Some(text)) => {
            *wanted = copy_into(text.as_bytes(), target);
            0
        }
        Ok(None) => {
            *wanted = 0;
            ABSENT
        }
        Err(fault) => {
            *wanted = 0;
            status_of(&fault)
        }
    }
}

pub(crate) fn schema(reader: &mut ReadSession, text: &mut [u8], wanted: &mut usize) -> u32
    ensures { CopiesSchema reader.old reader.new text.old text.new wanted.new result }
{
    give(reader.schema_text(), text, wanted)
}

pub(crate) fn field(reader: &mut ReadSession, path: &[u64], out: &mut FieldNumbers) -> u32
    ensures { DescribesField reader.old path.now reader.new out.old out.new result }
{
    if out.size < FIELD_SIZE {
        return MISUSE;
    }
    match reader.field(path) {
        Some(facts) => {
            *out = FieldNumbers::of(out.size, &facts);
            0
        }
        None => ABSENT,
    }
}

// The text of a number, with the number of its pair.
fn field_text_of(number: u32, pair: u64) -> Option<FieldText>
    ensures { IsFieldText number pair result }
{
    match number {
        0 => Some(FieldText::Name),
        1 => Some(FieldText::Format),
        2 => Some(FieldText::ValuesFormat),
        3 => Some(FieldText::Key(pair)),
        4 => Some(FieldText::Value(pair)),
        _ => None,
    }
}

pub(crate) fn field_text(
    reader: &mut ReadSession,
    path: &[u64],
    number: u32,
    pair: u64,
    text: &mut [u8],
    wanted: &mut usize,
) -> u32
    ensures { CopiesFieldText reader.old path.now number pair reader.new text.old text.new
        wanted.new result }
{
    *wanted = 0;
    let Some(named) = field_text_of(number, pair) else {
        return ABSENT;
    };
    give(reader.field_text(path, named), text, wanted)
}

pub(crate) fn line(reader: &mut ReadSession, text: &mut [u8], wanted: &mut usize) -> u32
    ensures { CopiesLine reader.old reader.new text.old text.new wanted.new result }
{
    give(reader.refusal_text(), text, wanted)
}

pub(crate) fn take(alloc: Global, reader: &mut ReadSession) -> BatchHandle
    ensures { TakesBatch reader.old reader.new result.held result.status }
{
    match reader.take_batch() {
        Some(batch) => BatchHandle::holding(alloc, batch),
        None => BatchHandle::none(ABSENT),
    }
}

pub(crate) fn reuse(reader: &mut ReadSession, batch: Block<ReadBatch, Global>)
    ensures { TakesBack reader.old reader.new }
{
    reader.reuse(Box::into_inner(batch.into_box()));
}
