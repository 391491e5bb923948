ghost use Rattle.std.specs.Prelude.{◌≡◌, ◌⊎◌, IfErr, IfOk, MatchOption, MatchResult, OnErr};
ghost use Rattle.std.specs.Prelude.{OnOk, false};
ghost use Rattle.ipc_model.specs.declared.table.BatchRows.{BatchRows};
ghost use Rattle.ipc_dict_read.specs.ValuesColumns.{dictionary_columns};
ghost use Rattle.ipc_dict.specs.Planning.{times_sent_for};
ghost use Rattle.ipc_dict.specs.Sending.{AreCounted, sent_after};
ghost use Rattle.ipc_stream_read.specs.Stream.{OpensStream};
ghost use Rattle.ipc_stream.specs.Canonical.{CopiesCanonical, CopiesDictionary, IsUnsent};
ghost use Rattle.ipc_stream.specs.Canonical.{RefusesDictionary, RefusesRows};
ghost use Rattle.ipc_stream.specs.Dictionaries.{SendsBatch, kept_at_start};
ghost use Rattle.ipc_stream.specs.PendingBatches.{BelongsTo, HoldsBatch, RefusesPending};
ghost use Rattle.ipc_stream.specs.PendingBatches.{StaysInStream, no_rows, with_row, with_rows};
ghost use Rattle.ipc_stream.specs.Writing.{AcceptsBatch, AcceptsSchema, RefusesBatch};
ghost use Rattle.ipc_stream.specs.Writing.{RefusesSchema, Sends};

use crate::batch_messages::pending_messages;
use crate::canonical::{CanonicalSize, copy_parts, one_segment};
use crate::column_messages::{column_messages, plan_columns};
use crate::messages::schema_message;
use crate::pending_batch::PendingBatch;
use crate::sending::{send, send_messages};
use ipc_column::Batch;
use ipc_device::Sink;
use ipc_dict::{Dictionaries, Kept, Seed, has_short_messages};
use ipc_encode::{BufferPool, NoIndices, SameNumbers, encode, encode_columns};
use ipc_model::{BatchRows, Items, Limits, Schema, Text, Value, WriteFault};
use std::alloc::Global;
use std::marker::Model;

/// A stream whose schema was sent: the state from which its next messages are made (Arrow Columnar
/// Format, "IPC Streaming Format").
#[derive(Debug, Drop)]
pub(crate) struct OpenStream {
    limits: Limits,
    schema: Schema,
    // The columns by which dictionaries are written.
    columns: Dictionaries,
    // What was sent of each dictionary.
    kept: Kept,
    // The memory of the last batch, for the next one.
    pool: BufferPool,
    // What the values of its dictionaries are hashed with.
    seed: Seed,
    alloc: Global,
}

impl Model for OpenStream {
    ghost use Rattle.std.specs.Coded.{codes};
    ghost use Rattle.ipc_model.specs.contracts.schema.Field as field;
    ghost use Rattle.ipc_dict.specs.contracts.kept.KeptEntry as entry;
    ghost use Rattle.ipc_dict.specs.contracts.seed.Seed as hashing;
    ghost use Rattle.ipc_stream.specs.OpenStreams.{IsGoingOn, OpenStreamState};

    ghost Value = { OpenStreamState };

    ghost coded = { Prim.hlevel
        (codes, field.the_row.coded, entry.the_row.coded, hashing.the_row.coded) };

    ghost view = { λ s. record {
      limits = s.limits;
      schema = s.schema;
      kept = s.kept;
      seed = s.seed;
    } };

    ghost invariant = { λ s. IsGoingOn s.limits s.schema s.columns s.kept };
}

// The columns by which the dictionaries of a schema are written.
fn dictionary_columns(alloc: Global, schema: &Schema) -> Result<Dictionaries, WriteFault>
    ensures is { IfOk result (λ d. d.columns ≡ dictionary_columns schema.now.fields) }
    ensures memory { IfErr result (λ fault. fault ≡ WriteFault.OutOfMemory) }
{
    match Dictionaries::new(alloc, schema) {
        Ok(columns) => Ok(columns),
        Err(_) => Err(WriteFault::OutOfMemory),
    }
}

impl OpenStream {
    // Sends the message of a schema. The values of dictionaries are hashed with this seed.
    pub(crate) fn begin<W: Sink>(
        alloc: Global,
        seed: Seed,
        limits: &Limits,
        sink: &mut W,
        schema: &Schema,
    ) -> Result<OpenStream, WriteFault>
        ensures opened { IfOk result (λ stream. stream ≡ record {
          limits = limits.now;
          schema = schema.now;
          kept = kept_at_start schema.now;
          seed = seed;
        }) }
        ensures counted { IfOk result
            (λ stream. AreCounted stream.schema.fields stream.kept) }
        ensures sends { Sends (OpensStream limits.now schema.now) (W.written sink.old)
            (W.written sink.new) (W.failures sink.old) (W.failures sink.new) result }
        ensures judged { MatchResult result (λ _. AcceptsSchema limits.now schema.now)
            (λ fault. RefusesSchema limits.now schema.now fault) }
    {
        let bytes = schema_message(alloc, limits, schema)?;
        let schema = schema.clone()?;
        let columns = dictionary_columns(alloc, &schema)?;
        let kept = Kept::new(alloc, &schema)?;
        let stream = OpenStream {
            limits: *limits,
            schema,
            columns,
            kept,
            pool: BufferPool::new(alloc),
            seed,
            alloc,
        };
        send(sink, &bytes)?;
        Ok(stream)
    }

    // Begins a batch with these pairs, whose rows are pushed. Nothing is sent.
    pub(crate) fn begin_batch(
        &mut self,
        pairs: Items<(Text, Text)>,
    ) -> Result<PendingBatch, WriteFault>
        ensures same { self.new ≡ self.old }
        ensures holds { IfOk result
            (HoldsBatch self.old.limits self.old.schema (no_rows pairs)) }
        ensures refused { IfErr result
            (RefusesPending self.old.limits self.old.schema (no_rows pairs) false) }
    {
        if !has_short_messages(self.alloc, &self.limits, &self.schema, &self.columns)? {
            return Err(WriteFault::TooLong);
        }
        let (alloc, limits) = (self.alloc, &self.limits);
        PendingBatch::new(
            alloc,
            limits,
            &self.schema,
            pairs,
            &mut self.pool,
            self.seed,
        )
    }

    // Takes one row more into a batch of this stream's. Nothing is sent.
    #[inline(always)]
    pub(crate) fn push_row(
        &self,
        pending: &mut PendingBatch,
        row: &[Value],
    ) -> Result<(), WriteFault>
        ensures stays { StaysInStream pending.old pending.new }
        ensures holds { (b : BatchRows) → HoldsBatch self.now.limits self.now.schema b pending.old
            → OnOk result
            (HoldsBatch self.now.limits self.now.schema (with_row b row.now) pending.new) }
        ensures refused { (b : BatchRows) → HoldsBatch self.now.limits self.now.schema b pending.old
            → IfErr result
            (RefusesPending self.now.limits self.now.schema (with_row b row.now) false) }
        ensures kept { (b : BatchRows) → HoldsBatch self.now.limits self.now.schema b pending.old
            → IfErr result (λ fault. ¬ (fault ≡ WriteFault.OutOfMemory)
            → HoldsBatch self.now.limits self.now.schema b pending.new) }
    {
        pending.push(&self.schema, row)
    }

    // Sends the messages of a batch whose rows were pushed: those of the dictionaries that it
    // needs, and its own. All messages are complete before the first is sent.
    pub(crate) fn send_rows<W: Sink>(
        &mut self,
        sink: &mut W,
        pending: PendingBatch,
    ) -> Result<(), WriteFault>
        requires { BelongsTo self.old.limits self.old.schema pending }
        ensures sends { (b : BatchRows) → HoldsBatch self.old.limits self.old.schema b pending
            → Sends (SendsBatch self.old.limits self.old.schema self.old.kept b)
            (W.written sink.old) (W.written sink.new) (W.failures sink.old)
            (W.failures sink.new) result }
        ensures sent { (b : BatchRows) → HoldsBatch self.old.limits self.old.schema b pending
            → OnOk result (self.new ≡ record self.old {
              kept = sent_after self.old.schema.fields b.rows self.old.kept;
            }) }
        ensures limits { self.new.limits ≡ self.old.limits }
        ensures schema { self.new.schema ≡ self.old.schema }
        ensures counted { OnOk result (AreCounted self.new.schema.fields self.new.kept) }
        ensures err { OnErr result (self.new ≡ self.old) }
        ensures only { (b : BatchRows) → HoldsBatch self.old.limits self.old.schema b pending
            → IfErr result
            (λ fault. (fault ≡ WriteFault.Write) ⊎ (fault ≡ WriteFault.OutOfMemory)) }
    {
        let (messages, plan) = pending_messages(
            self.alloc,
            &self.limits,
            &self.columns,
            &self.kept,
            pending,
        )?;
        send_messages(self.alloc, sink, &messages)?;
        plan.commit(&mut self.kept);
        self.pool.keep(messages.into_segments());
        Ok(())
    }

    // Sends the messages of a batch with these pairs and rows.
    pub(crate) fn send_batch<W: Sink>(
        &mut self,
        sink: &mut W,
        batch: &BatchRows,
    ) -> Result<(), WriteFault>
        ensures sends { Sends (SendsBatch self.old.limits self.old.schema self.old.kept batch.now)
            (W.written sink.old) (W.written sink.new) (W.failures sink.old)
            (W.failures sink.new) result }
        ensures sent { OnOk result (self.new ≡ record self.old {
          kept = sent_after self.old.schema.fields batch.now.rows self.old.kept;
        }) }
        ensures counted { OnOk result (AreCounted self.new.schema.fields self.new.kept) }
        ensures err { OnErr result (self.new ≡ self.old) }
        ensures judged { MatchResult result
            (λ _. AcceptsBatch self.old.limits self.old.schema batch.now)
            (λ fault. RefusesBatch self.old.limits self.old.schema batch.now fault) }
    {
        let mut pending = self.begin_batch(batch.pairs.clone()?)?;
        pending.push_all(&self.schema, batch.rows.as_slice())?;
        self.send_rows(sink, pending)
    }

    // Sends the messages of a batch that was read, with these pairs: those of the dictionaries that
    // it needs, and its own. All messages are complete before the first is sent.
    pub(crate) fn send_columns<W: Sink>(
        &mut self,
        sink: &mut W,
        batch: &Batch,
        pairs: &Items<(Text, Text)>,
    ) -> Result<(), WriteFault>
        ensures sends { Sends (SendsBatch self.old.limits self.old.schema self.old.kept
            (with_rows pairs.now batch.now.rows))
            (W.written sink.old) (W.written sink.new) (W.failures sink.old)
            (W.failures sink.new) result }
        ensures sent { OnOk result (self.new ≡ record self.old {
          kept = sent_after self.old.schema.fields batch.now.rows self.old.kept;
        }) }
        ensures counted { OnOk result (AreCounted self.new.schema.fields self.new.kept) }
        ensures err { OnErr result (self.new ≡ self.old) }
        ensures judged { MatchResult result
            (λ _. AcceptsBatch self.old.limits self.old.schema
            (with_rows pairs.now batch.now.rows))
            (λ fault. RefusesBatch self.old.limits self.old.schema
            (with_rows pairs.now batch.now.rows) fault) }
    {
        let (messages, plan) = column_messages(
            self.alloc,
            &self.limits,
            &self.schema,
            &self.columns,
            &self.kept,
            self.seed,
            &mut self.pool,
            batch,
            pairs,
        )?;
        send_messages(self.alloc, sink, &messages)?;
        plan.commit(&mut self.kept);
        self.pool.keep(messages.into_segments());
        Ok(())
    }

    // Copies the body of the message that `send_columns` would send for a batch. Nothing is sent.
    pub(crate) fn copy_canonical(
        &self,
        batch: &Batch,
        bytes: &mut [u8],
        numbers: &mut [i64],
    ) -> Result<CanonicalSize, WriteFault>
        ensures copied { IfOk result (CopiesCanonical self.now.limits self.now.schema self.now.kept
            batch.now.rows bytes.old bytes.new numbers.old numbers.new) }
        ensures kept { IfErr result
            (λ fault. (bytes.new ≡ bytes.old) × (numbers.new ≡ numbers.old)) }
        ensures refused { IfErr result
            (RefusesRows self.now.limits self.now.schema batch.now.rows) }
    {
        let plan = plan_columns(
            self.alloc,
            &self.limits,
            &self.schema,
            &self.columns,
            &self.kept,
            self.seed,
            batch,
        )?;
        let fields = self.schema.fields.as_slice();
        let mut pool = BufferPool::new(self.alloc);
        let parts = encode_columns(
            self.alloc,
            &mut pool,
            &self.limits,
            fields,
            batch,
            &plan,
            &SameNumbers,
        )?;
        Ok(copy_parts(&parts, bytes, numbers))
    }

    // How often a dictionary with this id was sent.
    pub(crate) fn times_sent(&self, id: i64) -> u64
        ensures { result ≡ times_sent_for self.now.kept id }
    {
        self.kept.times_sent(id)
    }

    // Copies the values of the last dictionary with this id that was sent.
    pub(crate) fn copy_dictionary(
        &self,
        id: i64,
        bytes: &mut [u8],
        numbers: &mut [i64],
    ) -> Result<Option<CanonicalSize>, WriteFault>
        ensures copied { IfOk result (λ found. MatchOption found
            ((IsUnsent self.now.schema self.now.kept id) × (bytes.new ≡ bytes.old)
            × (numbers.new ≡ numbers.old))
            (CopiesDictionary self.now.schema self.now.kept id bytes.old bytes.new numbers.old
            numbers.new)) }
        ensures kept { IfErr result
            (λ fault. (bytes.new ≡ bytes.old) × (numbers.new ≡ numbers.old)) }
        ensures refused { IfErr result
            (RefusesDictionary self.now.limits self.now.schema self.now.kept id) }
    {
        let Some(columns) = self.columns.fields_of(id) else {
            return Ok(None);
        };
        let Some(rows) = self.kept.last_sent(self.alloc, id)? else {
            return Ok(None);
        };
        let columns = columns.as_slice();
        let parts = encode(
            self.alloc,
            &self.limits,
            columns,
            rows.as_slice(),
            &NoIndices,
        )?;
        let segmented = one_segment(self.alloc, parts)?;
        Ok(Some(copy_parts(&segmented, bytes, numbers)))
    }
}
