ghost use Rattle.std.specs.Prelude.{◌≡◌, Err, IfErr, IfOk, MatchResult, true};
ghost use Rattle.std.specs.Coded.{Coded-set};
ghost use Rattle.ipc_model.specs.contracts.limits.Limits as bounds;
ghost use Rattle.ipc_model.specs.declared.table.BatchRows.{BatchRows};
ghost use Rattle.ipc_stream.specs.PendingBatches.{HoldsBatch, RefusesPending, Stays, StaysAt};
ghost use Rattle.ipc_stream.specs.PendingBatches.{coded_fields, no_rows, with_row};
ghost use Rattle.ipc_stream.specs.Writer.{LeavesBatch};
ghost use Rattle.ipc_stream.specs.Writing.{AcceptsBatch, RefusesBatch};

use crate::pending_batch::PendingBatch;
use crate::pending_rows::PendingRows;
use crate::writer::StreamWriter;
use ipc_device::Sink;
use ipc_model::{Items, Text, Value, WriteFault};

/// A batch of a `StreamWriter` whose rows are pushed one by one (Arrow Columnar Format,
/// "RecordBatch message").
///
/// It holds the pairs of the batch and the rows that were pushed and not refused. Nothing is sent
/// before `send`. A batch that is dropped leaves the writer as it was. The exception is W11: after
/// it each call of the writer returns W10.
pub struct BatchWriter<'a, W: Sink, B: PendingRows = PendingBatch> {
    writer: &'a mut StreamWriter<W>,
    batch: B,
    // The rows belong to the writer's stream.
    ghost limits: { B.limits batch ≡ writer.now.limits } by { Coded-set bounds.the_row.coded _ _ },
    ghost fields: { B.fields batch ≡ writer.now.schema.fields } by { Coded-set coded_fields _ _ },
}

impl<W: Sink, B: PendingRows + Drop> Drop for BatchWriter<'_, W, B> {
    fn drop(self)
        ensures { self.exit.0.now ≡ self.entry.writer.now }
    {
        let BatchWriter {
            writer: _,
            batch: _,
        } = self;
    }
}

impl<W: Sink> StreamWriter<W> {
    ghost use Rattle.std.specs.Borrow.{RestsIfErr, sem};
    ghost use Rattle.ipc_stream.specs.contracts.writer.StreamWriter.{the_row};

    /// Begins a batch with these pairs of key and value. Its rows are then pushed one by one.
    /// Nothing is sent.
    ///
    /// Errors:
    ///
    /// - W6: the metadata may need more than `limits.metadata` bytes; there are more than
    ///   `limits.pairs` pairs, or they have more than `limits.text` bytes; or the buffers of zero
    ///   rows, or the message of a dictionary without values, already exceed the limits.
    /// - W10: the call comes after W9 or W11.
    /// - W11: memory ran out.
    pub fn batch(&mut self, pairs: Items<(Text, Text)>) -> Result<BatchWriter<'_, W>, WriteFault>
        ensures* rests { sem 𝓛 (RestsIfErr (the_row W.row W.Sink) self.entry
            (λ b. b.writer.ghost_name) result (λ last. IfErr result (StaysAt self.old last))) }
        ensures same_reference { IfOk result (λ b. b.writer.ghost_name ≡ self.entry.ghost_name) }
        ensures begins { IfOk result (λ b. Stays self.old b.writer.now result) }
        ensures judged { MatchResult result
            (λ b. HoldsBatch self.old.limits self.old.schema (no_rows pairs) b.batch)
            (λ fault. RefusesPending self.old.limits self.old.schema (no_rows pairs) self.old.failed
            fault) }
        ensures failed { self.old.failed ≡ true → result ≡ Err WriteFault.Failed }
    {
        let batch = self.begin_batch(pairs)?;
        Ok(BatchWriter {
            writer: self,
            batch,
        })
    }
}

impl<W: Sink> BatchWriter<'_, W> {
    /// Validates one row and adds it to the batch. Nothing is sent.
    ///
    /// Errors:
    ///
    /// - W2 to W5: `conforms` refuses the row. The fault has the number that the row would have in
    ///   the batch, and the path in the row.
    /// - W6: with this row a binary or UTF-8 column would have more than 2^31 - 1 bytes of data, or
    ///   the body more than `limits.body` bytes.
    /// - W8: with this row there would be more than `limits.slots` rows, or more than
    ///   `limits.slots` items in all lists of a column.
    /// - W6, W7 or W8: with this row the distinct values of a dictionary would be too long or too
    ///   many, as `write_batch` defines it.
    /// - W10: the call comes after W9 or W11.
    /// - W11: memory ran out.
    ///
    /// After W2 to W8 the row is not kept, and the next row may be pushed.
    #[inline(always)]
    pub fn push(&mut self, row: &[Value]) -> Result<(), WriteFault>
        ensures same_reference { self.new.writer.ghost_name ≡ self.old.writer.ghost_name }
        ensures stays { Stays self.old.writer.now self.new.writer.now result }
        ensures judged { (b : BatchRows)
            → HoldsBatch self.old.writer.now.limits self.old.writer.now.schema b self.old.batch
            → MatchResult result
            (λ _. HoldsBatch self.old.writer.now.limits self.old.writer.now.schema
            (with_row b row.now) self.new.batch)
            (λ fault. RefusesPending self.old.writer.now.limits self.old.writer.now.schema
            (with_row b row.now) self.old.writer.now.failed fault) }
        ensures kept { (b : BatchRows)
            → HoldsBatch self.old.writer.now.limits self.old.writer.now.schema b self.old.batch
            → IfErr result (λ fault. ¬ (fault ≡ WriteFault.OutOfMemory)
            → HoldsBatch self.old.writer.now.limits self.old.writer.now.schema b
            self.new.batch) }
        ensures failed { self.old.writer.now.failed ≡ true → result ≡ Err WriteFault.Failed }
    {
        self.writer.push_row(&mut self.batch, row)
    }

    /// Sends the message of the batch with the pushed rows, after the messages of the dictionaries
    /// that it needs, as `StreamWriter::write_batch` does.
    ///
    /// Errors: W9 if the sink failed; W10 after W9 or W11; W11 if memory ran out.
    pub fn send(self) -> Result<(), WriteFault>
        ensures sends { (b : BatchRows)
            → HoldsBatch self.entry.writer.now.limits self.entry.writer.now.schema b
            self.entry.batch
            → LeavesBatch self.entry.writer.now b self.exit.0.now result }
        ensures judged { (b : BatchRows)
            → HoldsBatch self.entry.writer.now.limits self.entry.writer.now.schema b
            self.entry.batch
            → MatchResult result
            (λ _. AcceptsBatch self.entry.writer.now.limits self.entry.writer.now.schema b)
            (λ fault. ¬ (fault ≡ WriteFault.Failed)
            → RefusesBatch self.entry.writer.now.limits self.entry.writer.now.schema b fault) }
        ensures failed { self.entry.writer.now.failed ≡ true
            → (result ≡ Err WriteFault.Failed) × (self.exit.0.now ≡ self.entry.writer.now) }
    {
        let BatchWriter { writer, batch } = self;
        writer.send_rows(batch)
    }
}
