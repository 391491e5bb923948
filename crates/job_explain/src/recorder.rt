//! A source that keeps the message that is being read.
ghost use Rattle.std.specs.Prelude.{◌≡◌, ◌≤◌, ◌<◌, ◌+◌, length, take, IfOk};
ghost use Rattle.std.specs.Io.KnownBytes.{ReadConsumes};
ghost use Rattle.ipc_device.specs.Failures.{CountsFailures};
ghost use Rattle.job_explain.specs.Explained.{Explains, ExplainsUnwritten};
ghost use Rattle.job_explain.specs.Followed.{Follows, StartsRecorder};

use crate::message_record::MessageRecord;
use crate::writes::explain_write;
use ipc_device::{Failed, Source};
use ipc_model::{Fault, Limits, WriteFault};
use std::alloc::{AllocError, Global};
use std::mem::replace;

/// A source that returns the bytes of another one, and keeps those of the message that is being
/// read, so that a refusal can be explained.
#[derive(Drop)]
pub struct Recorder<R> {
    source: R,
    message_record: Option<MessageRecord>,
}

impl<R: Source> Recorder<R> {
    /// Creates a recorder of a source at the beginning of a stream. It keeps messages only if `on`,
    /// and until memory for them runs out; it passes bytes on in any case.
    pub fn new(alloc: Global, limits: Limits, source: R, on: bool) -> Recorder<R>
        ensures source { result.source ≡ source }
        ensures starts { StartsRecorder limits on result.message_record }
    {
        let message_record = if on {
            Some(MessageRecord::new(alloc, limits))
        } else {
            None
        };
        Recorder {
            source,
            message_record,
        }
    }

    /// Returns lines that explain why the stream is refused, each with a line feed: `fault`, at the
    /// message with the number `message`. They are empty where nothing more is known.
    ///
    /// - F1 at the first message: what the input looks like, by its first four bytes.
    /// - F2 and F3: the size of the metadata, and for F3 its limit.
    /// - F4: the number of bytes of the input, and how many are missing at least: those before byte
    ///   4 or 8 of the message, or before the end of its metadata or body.
    /// - F8 and F9: the length of the body, and for F9 its limit.
    /// - F13 to F22 at the first message: the field that has the fault, by the numbers and names of
    ///   the column and of the children on the way to it, and its type (Schema.fbs, union Type).
    ///   There is no such line if no column has the fault by itself, which is usual for F17, F19
    ///   and F20. For F14 it has the width, size or unit.
    /// - F17 to F19: then each limit that the fault can exceed.
    /// - F25: the dictionary's id.
    /// - F26 and F27 at a later message: the numbers of nodes or buffers (Message.fbs, table
    ///   RecordBatch), those of the batch and those that its fields need.
    /// - F28 of a later batch with more rows than the limit: their number, and the limit.
    /// - Other F28 and F29 to F34 at a later message: the first column that alone has the fault, by
    ///   its number, name and type, with its nodes and buffers, and the limit of rows if a node is
    ///   longer. The column of a dictionary batch is that of the dictionary's values.
    ///
    /// Pass the fault of the message that was read last. No contract compares the two, because a
    /// reader that is generic in its source does not state which message it read last.
    pub fn explain(&self, alloc: Global, fault: &Fault, message: u64) -> Result<Vec<u8>, AllocError>
        ensures lines { IfOk result
            (λ lines. Explains self.now.message_record fault.now message lines.items) }
    {
        match &self.message_record {
            Some(message_record) => message_record.explain(alloc, fault, message),
            None => Ok(Vec::new(alloc)),
        }
    }

    /// Returns lines that explain why rows of the stream are not written, as `explain_write` does
    /// for the stream's schema. They are empty if nothing is kept, or if no byte was read after the
    /// schema's message.
    pub fn explain_write(&self, alloc: Global, fault: &WriteFault) -> Result<Vec<u8>, AllocError>
        ensures lines { IfOk result
            (λ lines. ExplainsUnwritten self.now.message_record fault.now lines.items) }
    {
        let Some(
            MessageRecord {
                scope: Some(scope),
                ..
            },
        ) = &self.message_record
        else {
            return Ok(Vec::new(alloc));
        };
        explain_write(alloc, &scope.schema, fault)
    }

    /// Returns the source.
    pub fn into_inner(self) -> R
        ensures { result ≡ self.source }
    {
        let Recorder {
            source,
            message_record: _,
        } = self;
        source
    }
}

impl<R> Recorder<R> {
    // How many bytes of `len` are read at once, so that at most one message is completed.
    fn room(&self, len: usize) -> usize
        ensures few { result ≤ len }
        ensures some { 0 < len → 0 < result }
    {
        match &self.message_record {
            Some(message_record) => match message_record.frames.wants() {
                0 => len,
                wants => wants.min(len),
            },
            None => len,
        }
    }

    // Keeps the bytes that were read.
    fn record(&mut self, piece: &[u8])
        ensures kept { Follows self.old.message_record piece.now self.new.message_record }
        ensures source { self.new.source ≡ self.old.source }
    {
        if let Some(message_record) = replace(&mut self.message_record, None) {
            self.message_record = message_record.record(piece);
        }
    }
}

impl<R: Source> Source for Recorder<R> {
    ghost remaining = { λ r. R.remaining r.source };

    ghost failures = { λ r. R.failures r.source };

    ghost bound = { λ r. R.bound r.source };

    fn read(&mut self, into: &mut [u8]) -> Result<usize, Failed>
        ensures count { IfOk result (λ k. k ≤ length into.new) }
        ensures bytes { ReadConsumes (R.remaining self.old.source)
            (R.remaining self.new.source) result into.new }
        ensures fewer { IfOk result (λ k. (R.bound self.new.source + k) ≤ R.bound self.old.source) }
        ensures failures { CountsFailures (R.failures self.old.source)
            (R.failures self.new.source) result }
        // The bytes of the message that is being read are kept.
        ensures kept { IfOk result
            (λ k. 0 < k → Follows self.old.message_record (take k into.new)
            self.new.message_record) }
        ensures kept_at_end { IfOk result (λ k. k ≡ 0 → self.new.message_record
            ≡ self.old.message_record) }
    {
        let room = self.room(into.len());
        let count = self.source.read(&mut into[..room])?;
        if count > 0 {
            self.record(&into[..count]);
        }
        Ok(count)
    }
}
