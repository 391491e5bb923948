//! A writer whose stream has at most a number of bytes.
ghost use Rattle.std.specs.Prelude.{◌≡◌, ◌<◌, ◌+◌, [], IfErr, IfOk, IfSome, None, Some};
ghost use Rattle.job_rewrite.specs.Outputs.{AppendsWithin, StartsNot, StartsOutput, memory_fault};

use crate::output::{Output, Written};
use crate::stop::RewriteStop;
use ipc_device::{Memory, Sink};
use ipc_frame::END_OF_STREAM;
use ipc_model::{Items, Limits, Schema, Text, WriteFault};
use ipc_stream::{Batch, Seed, StreamWriter, send, send_end};
use std::alloc::Global;

/// A writer whose messages are in memory until it is known that they fit. Then they go to the sink.
#[derive(Drop)]
pub(crate) struct Bounded<W: Sink> {
    alloc: Global,
    writer: StreamWriter<Memory>,
    sink: W,
    // The number of bytes that may go to the sink before the end-of-stream mark.
    room: u64,
    ghost emptied: { writer.written ≡ Some [] },
}

// The messages that a writer has in memory. Then it has none.
fn take_messages(alloc: Global, writer: &mut StreamWriter<Memory>) -> Vec<u8>
    ensures taken { writer.old.written ≡ Some result.items }
    ensures emptied { writer.new ≡ record writer.old {
      written = Some [];
      failures = 0;
    } }
{
    let memory = writer.replace_sink(Memory::new(Vec::new(alloc)));
    memory.into_bytes()
}

// The fault of a writer whose sink is in memory: if that failed, memory ran out.
fn memory_fault(fault: WriteFault) -> WriteFault
    ensures { result ≡ memory_fault fault }
{
    match fault {
        WriteFault::Write => WriteFault::OutOfMemory,
        other => other,
    }
}

// The number that remains of `room` after `count`, if it is at least 0.
fn remaining(room: u64, count: usize) -> Option<u64>
    ensures some { IfSome result (λ left. room ≡ count + left) }
    ensures none { result ≡ None → room < count }
{
    room.checked_sub(count as u64)
}

// The number of bytes that may be written of `most` between a message of `count` bytes and the
// end-of-stream mark, if these have room.
fn room_after(most: u64, count: usize) -> Option<u64>
    ensures some { IfSome result (λ left. most ≡ count + 8 + left) }
    ensures none { result ≡ None → most < count + 8 }
{
    remaining(remaining(most, END_OF_STREAM.len())?, count)
}

impl<W: Sink> Bounded<W> {
    // Sends the message of the schema, if it and the end-of-stream mark have at most `most` bytes.
    pub(crate) fn start(
        alloc: Global,
        seed: Seed,
        limits: Limits,
        most: u64,
        sink: W,
        schema: &Schema,
    ) -> Result<Bounded<W>, (RewriteStop, W)>
        ensures started { IfOk result (λ b. StartsOutput (Some most) limits schema.now
            (W.written sink) (W.failures sink)
            (record b.writer { written = W.written b.sink; failures = W.failures b.sink })
            (Some b.room)) }
        ensures refused { IfErr result (λ e. StartsNot limits most schema.now (W.written sink)
            (W.written e.1) (W.failures sink) (W.failures e.1) e.0) }
        ensures within { IfErr result
            (λ e. AppendsWithin (Some most) (W.written sink) (W.written e.1)) }
    {
        let memory = Memory::new(Vec::new(alloc));
        let started = StreamWriter::start_with_seed(alloc, seed, limits, memory, schema);
        let mut writer = match started {
            Ok(writer) => writer,
            Err((fault, _memory)) => {
                return Err((RewriteStop::Write(memory_fault(fault)), sink));
            }
        };
        let message = take_messages(alloc, &mut writer);
        let Some(room) = room_after(most, message.len()) else {
            return Err((RewriteStop::NoRoom, sink));
        };
        let mut sink = sink;
        match send(&mut sink, &message) {
            Ok(()) => Ok(Bounded {
                alloc,
                writer,
                sink,
                room,
            }),
            Err(fault) => Err((RewriteStop::Write(fault), sink)),
        }
    }
}

impl<W: Sink> Output<W> for Bounded<W> {
    ghost writer = { λ b. record b.writer {
      written = W.written b.sink;
      failures = W.failures b.sink;
    } };

    ghost room = { λ b. Some b.room };

    fn write(&mut self, batch: &Batch, pairs: Items<(Text, Text)>) -> Result<Written, WriteFault> {
        let result = self.writer.write_columns(batch, pairs);
        let messages = take_messages(self.alloc, &mut self.writer);
        if let Err(fault) = result {
            return Err(memory_fault(fault));
        }
        let Some(room) = remaining(self.room, messages.len()) else {
            return Ok(Written::NoRoom);
        };
        send(&mut self.sink, &messages)?;
        self.room = room;
        Ok(Written::Whole)
    }

    fn finish(self) -> Result<W, (WriteFault, W)> {
        let mut sink = self.into_inner();
        match send_end(&mut sink) {
            Ok(()) => Ok(sink),
            Err(fault) => Err((fault, sink)),
        }
    }

    fn into_inner(self) -> W {
        let Bounded {
            alloc: _,
            writer: _,
            sink,
            room: _,
        } = self;
        sink
    }
}
