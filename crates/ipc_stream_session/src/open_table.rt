//! A table whose stream is being written.
ghost use Rattle.std.specs.Prelude.{◌≡◌, IfErr, IfOk, Some, []};
ghost use Rattle.ipc_model.specs.RowFaults.{HasShortPaths};
ghost use Rattle.ipc_dict.specs.Planning.{times_sent_for};
ghost use Rattle.ipc_stream.specs.Canonical.{CopiesBatch, CopiesSent};
ghost use Rattle.ipc_stream.specs.PendingBatches.{with_rows};
ghost use Rattle.ipc_column.specs.Rows.{RefusesParts, Rows};
ghost use Rattle.ipc_stream_read.specs.Stream.{values_in_force};
ghost use Rattle.ipc_stream_session.specs.Tables.{FinishesTable, Gives, IsBegun, StopsAtStart};
ghost use Rattle.ipc_stream_session.specs.Tables.{emptied, table_with};
ghost use Rattle.ipc_stream_session.specs.Stages.{WorksIfOpen, IsAfter, SendsBatch};

use crate::ready::Ready;
use crate::stage::Stage;
use ipc_column::Batch;
use ipc_dict::Seed;
use ipc_meta::BatchHead;
use ipc_model::{BatchRows, Fault, Items, Limits, Schema, Text, WriteFault};
use ipc_stream::{CanonicalSize, Memory, Sink, StreamWriter};
use ipc_stream_read::Scope;
use std::alloc::Global;
use std::marker::Model;

/// A stream that has its schema and no end yet. `scope` has the schema that its rows have to fit,
/// and the dictionaries to which the indices of buffers refer.
#[derive(Drop)]
pub(crate) struct OpenTable {
    stream: StreamWriter<Memory>,
    scope: Scope,
}

impl Model for OpenTable {
    ghost use Rattle.std.specs.Prelude.{◌≡◌, false};
    ghost use Rattle.std.specs.Coded.{codes};
    ghost use Rattle.ipc_model.specs.RowFaults.{HasShortPaths};
    ghost use Rattle.ipc_model.specs.contracts.schema.Field as field;
    ghost use Rattle.ipc_dict.specs.contracts.kept.KeptEntry as entry;
    ghost use Rattle.ipc_dict.specs.contracts.seed.Seed as hashing;
    ghost use Rattle.ipc_model.specs.contracts.value.Value as value;
    ghost use Rattle.ipc_stream_session.specs.Tables.{TableState, table_with};

    ghost Value = { TableState };

    ghost coded = { Prim.hlevel (
      codes,
      field.the_row.coded,
      value.the_row.coded,
      entry.the_row.coded,
      hashing.the_row.coded,
    ) };

    ghost view = { λ t. table_with t.stream t.scope };

    ghost invariant = { λ t. (t.stream.failed ≡ false) × HasShortPaths t.scope.schema };
}

// The bytes that a sink holds.
fn ready_of(sink: Memory) -> Ready
    ensures { ⟦<Memory as Sink>⟧.written sink ≡ Some result }
{
    Ready::new(sink.into_bytes())
}

// The stage after a call of the stream with this result: W9 and W11 end it.
fn stage_after(stream: StreamWriter<Memory>, scope: Scope, sent: &Result<(), WriteFault>) -> Stage
    requires works { WorksIfOpen stream sent.now }
    requires short { HasShortPaths scope.schema }
    ensures { IsAfter (table_with stream scope) stream sent.now result }
{
    match sent {
        Err(WriteFault::Write | WriteFault::OutOfMemory) => {
            Stage::Ended(ready_of(stream.into_inner()))
        }
        _ => Stage::Open(OpenTable { stream, scope }),
    }
}

impl OpenTable {
    // Sends the message of the schema.
    pub(crate) fn start(
        alloc: Global,
        limits: Limits,
        schema: Schema,
    ) -> Result<OpenTable, (WriteFault, Ready)>
        ensures started { IfOk result (IsBegun limits schema) }
        ensures seed { IfOk result (λ t. t.stream.seed ≡ Seed.Fixed) }
        ensures stopped { IfErr result (λ e. StopsAtStart limits schema e.1 e.0) }
    {
        match StreamWriter::start(alloc, limits, Memory::new(Vec::new(alloc)), &schema) {
            Ok(stream) => match Scope::new(alloc, limits, schema) {
                Ok(scope) => Ok(OpenTable { stream, scope }),
                Err(_) => Err((WriteFault::OutOfMemory, Ready::new(Vec::new(alloc)))),
            },
            Err((fault, sink)) => Err((fault, ready_of(sink))),
        }
    }

    // The schema that rows have to fit.
    pub(crate) fn schema(&self) -> &Schema
        ensures schema { result.now ≡ self.now.schema }
        ensures short { HasShortPaths result.now }
    {
        &self.scope.schema
    }

    // Sends a batch of rows, as `StreamWriter::write_batch`.
    pub(crate) fn send(self, batch: &BatchRows) -> (Stage, Result<(), WriteFault>)
        ensures { SendsBatch self batch.now result.0 result.1 }
    {
        let OpenTable { stream, scope } = self;
        let mut stream = stream;
        let sent = stream.write_batch(batch);
        (stage_after(stream, scope, &sent), sent)
    }

    // Sends a batch that was read, as `StreamWriter::write_columns`.
    pub(crate) fn send_columns(
        self,
        batch: &Batch,
        pairs: Items<(Text, Text)>,
    ) -> (Stage, Result<(), WriteFault>)
        ensures { SendsBatch self (with_rows pairs batch.now.rows) result.0 result.1 }
    {
        let OpenTable { stream, scope } = self;
        let mut stream = stream;
        let sent = stream.write_columns(batch, pairs);
        (stage_after(stream, scope, &sent), sent)
    }

    // Returns the batch that a reader has of a head and a body.
    pub(crate) fn read_batch(
        &self,
        alloc: Global,
        head: BatchHead,
        body: Vec<u8>,
    ) -> Result<Batch, Fault>
        ensures rows { IfOk result (λ batch. Rows self.now.limits (values_in_force self.now.given)
            self.now.schema.fields head body.items batch.rows) }
        ensures refused { IfErr result (λ fault. RefusesParts self.now.limits fault
            (values_in_force self.now.given) self.now.schema.fields head body.items) }
    {
        self.scope.read_batch(alloc, head, body)
    }

    // Gives the values that a reader has of a head and a body for the dictionary with this id.
    pub(crate) fn give(
        &mut self,
        alloc: Global,
        id: i64,
        head: BatchHead,
        body: Vec<u8>,
    ) -> Result<(), Fault>
        ensures { Gives self.old id head body.items self.new result }
    {
        self.scope.set(alloc, id, head, body)
    }

    // Copies the body of a batch that was read, as `StreamWriter::copy_canonical`.
    pub(crate) fn copy_canonical(
        &self,
        batch: &Batch,
        bytes: &mut [u8],
        numbers: &mut [i64],
    ) -> Result<CanonicalSize, WriteFault>
        ensures { CopiesBatch self.now.stream batch.now.rows bytes.old bytes.new numbers.old
            numbers.new result }
    {
        self.stream.copy_canonical(batch, bytes, numbers)
    }

    // How often a dictionary with this id was sent.
    pub(crate) fn times_sent(&self, id: i64) -> u64
        ensures { result ≡ times_sent_for self.now.stream.kept id }
    {
        self.stream.times_sent(id)
    }

    // Copies the values of the last dictionary with this id, as `StreamWriter::copy_dictionary`.
    pub(crate) fn copy_dictionary(
        &self,
        id: i64,
        bytes: &mut [u8],
        numbers: &mut [i64],
    ) -> Result<Option<CanonicalSize>, WriteFault>
        ensures { CopiesSent self.now.stream id bytes.old bytes.new numbers.old numbers.new
            result }
    {
        self.stream.copy_dictionary(id, bytes, numbers)
    }

    // Returns the bytes that were sent and not taken, and goes on without them.
    pub(crate) fn take_bytes(&mut self, alloc: Global) -> Ready
        ensures taken { self.old.stream.written ≡ Some result }
        ensures emptied { self.new ≡ emptied self.old }
    {
        ready_of(self.stream.replace_sink(Memory::new(Vec::new(alloc))))
    }

    // Sends the end-of-stream mark, and returns the bytes of the stream.
    pub(crate) fn finish(self) -> (Ready, Result<(), WriteFault>)
        ensures { FinishesTable self result.0 result.1 }
    {
        let OpenTable { stream, scope: _ } = self;
        match stream.finish() {
            Ok(sink) => (ready_of(sink), Ok(())),
            Err((fault, sink)) => (ready_of(sink), Err(fault)),
        }
    }

    // Returns the bytes that were sent. Nothing more is sent.
    pub(crate) fn into_ready(self) -> Ready
        ensures { self.stream.written ≡ Some result }
    {
        let OpenTable { stream, scope: _ } = self;
        ready_of(stream.into_inner())
    }
}
