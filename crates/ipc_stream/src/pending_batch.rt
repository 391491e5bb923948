ghost use Rattle.std.specs.Prelude.{◌≡◌, ℕ, List, [], false, IfErr, IfOk, IsTrue, MatchResult};
ghost use Rattle.std.specs.Prelude.{OnErr, OnOk};
ghost use Rattle.ipc_model.specs.Fits.{RowFits};
ghost use Rattle.ipc_model.specs.RowFaults.{HasShortPaths};
ghost use Rattle.ipc_model.specs.WellFormed.{WellFormed};
ghost use Rattle.ipc_model.specs.declared.limits.Limits.{Limits};
ghost use Rattle.ipc_model.specs.declared.schema.Schema.{Schema};
ghost use Rattle.ipc_model.specs.declared.table.BatchRows.{BatchRows};
ghost use Rattle.ipc_model.specs.declared.value.Value.{Value};
ghost use Rattle.ipc_encode.specs.Faults.{write_fault};
ghost use Rattle.ipc_encode.specs.Limits.{IsWithin};
ghost use Rattle.ipc_dict.specs.Within.{HaveShortMessages};
ghost use Rattle.ipc_stream.specs.Parts.{AcceptsPairs};
ghost use Rattle.ipc_stream.specs.Writing.{RefusesBatch};
ghost use Rattle.ipc_stream.specs.PendingBatches.{HasTaken, HoldsBatch, RefusesPending};
ghost use Rattle.ipc_stream.specs.PendingBatches.{StaysInStream};
ghost use Rattle.ipc_stream.specs.PendingBatches.{no_rows, with_row, with_rows};

use crate::messages::batch_front;
use ipc_dict::{Seed, Tally};
use ipc_encode::{BufferPool, Builder, NoIndices, Parts, PushFault, encode};
use ipc_model::{Field, Items, Limits, Row, Schema, Text, Value, WriteFault, conforms};
use std::alloc::Global;

/// The rows of a batch that is not sent yet, and its pairs (Message.fbs, RecordBatch).
///
/// Its contracts describe it by the batch that it holds.
#[derive(Debug, Drop)]
pub struct PendingBatch {
    pub(crate) builder: Builder,
    // The distinct values of each dictionary.
    pub(crate) tally: Tally,
    pub(crate) pairs: Items<(Text, Text)>,
}

// Checks that a batch with these pairs and no rows is within the limits. It builds the metadata and
// drops it, so a batch that is too long for any rows is refused here.
fn check_pairs(
    alloc: Global,
    limits: &Limits,
    schema: &Schema,
    pairs: &Items<(Text, Text)>,
) -> Result<(), WriteFault>
    requires { WellFormed limits.now schema.now }
    ensures judged { MatchResult result (λ _. AcceptsPairs limits.now schema.now pairs.now
        × IsWithin limits.now schema.now.fields [])
        (RefusesPending limits.now schema.now (no_rows pairs.now) false) }
{
    let parts = encode(alloc, limits, schema.fields.as_slice(), &[], &NoIndices)?;
    let Parts {
        nodes,
        buffers,
        body,
    } = parts;
    batch_front(alloc, limits, pairs, 0, nodes, buffers, body.len())?;
    Ok(())
}

impl PendingBatch {
    // No rows, with these pairs, in memory from the pool. The metadata of each dictionary's message
    // is within the limits.
    pub(crate) fn new(
        alloc: Global,
        limits: &Limits,
        schema: &Schema,
        pairs: Items<(Text, Text)>,
        pool: &mut BufferPool,
        seed: Seed,
    ) -> Result<PendingBatch, WriteFault>
        requires well_formed { WellFormed limits.now schema.now }
        requires short { HaveShortMessages limits.now schema.now.fields }
        ensures holds { IfOk result (HoldsBatch limits.now schema.now (no_rows pairs)) }
        ensures refused { IfErr result
            (RefusesPending limits.now schema.now (no_rows pairs) false) }
    {
        check_pairs(alloc, limits, schema, &pairs)?;
        let tally = Tally::new(alloc, limits, schema, seed)?;
        Ok(PendingBatch {
            builder: Builder::with_pool(alloc, pool, schema.fields.as_slice(), limits)?,
            tally,
            pairs,
        })
    }

    // Adds one row. Returns true only if it fits the schema. After W11 the batch is unusable. After
    // any other error it is unchanged.
    #[inline(always)]
    fn take(&mut self, fields: &[Field], row: &[Value]) -> Result<bool, PushFault>
        ensures stays { StaysInStream self.old self.new }
        ensures fits { IfOk result (λ all. IsTrue all → RowFits fields.now row.now) }
        ensures taken { (limits : Limits) (s : Schema) (b : BatchRows) → WellFormed limits s
            → HoldsBatch limits s b self.old → OnOk result (HasTaken limits s b row.now self.new) }
        ensures refused { (limits : Limits) (s : Schema) (b : BatchRows) → WellFormed limits s
            → HoldsBatch limits s b self.old
            → IfErr result (λ fault. RefusesPending limits s (with_row b row.now) false
            (write_fault fault)) }
        ensures kept { (limits : Limits) (s : Schema) (b : BatchRows) → WellFormed limits s
            → HoldsBatch limits s b self.old
            → IfErr result (λ fault. ¬ (fault ≡ PushFault.OutOfMemory)
            → HoldsBatch limits s b self.new) }
    {
        self.tally.note(row)?;
        match self.builder.push(fields, row, &self.tally) {
            Ok(all) => Ok(all),
            Err(fault) => {
                self.tally.cut();
                Err(fault)
            }
        }
    }

    // Drops the row that was taken last.
    fn drop_last(&mut self)
        ensures stays { StaysInStream self.old self.new }
        ensures holds { (limits : Limits) (s : Schema) (b : BatchRows) (row : List Value)
            → WellFormed limits s → HasTaken limits s b row self.old
            → HoldsBatch limits s b self.new }
    {
        self.builder.pop();
        self.tally.cut();
    }

    // Keeps the row that was taken last if it fits the schema, and else drops it.
    #[cold]
    #[inline(never)]
    fn check_last(&mut self, schema: &Schema, row: &[Value]) -> Result<(), WriteFault>
        requires { HasShortPaths schema.now }
        ensures stays { StaysInStream self.old self.new }
        ensures holds { (limits : Limits) (b : BatchRows) → WellFormed limits schema.now
            → HasTaken limits schema.now b row.now self.old
            → OnOk result (HoldsBatch limits schema.now (with_row b row.now) self.new) }
        ensures refused { (limits : Limits) (b : BatchRows) → WellFormed limits schema.now
            → HasTaken limits schema.now b row.now self.old
            → IfErr result (RefusesPending limits schema.now (with_row b row.now) false) }
        ensures kept { (limits : Limits) (b : BatchRows) → WellFormed limits schema.now
            → HasTaken limits schema.now b row.now self.old
            → OnErr result (HoldsBatch limits schema.now b self.new) }
    {
        match conforms(schema, row) {
            Ok(()) => Ok(()),
            Err(fault) => {
                self.drop_last();
                Err(fault.at_row(self.builder.row_count() as u64))
            }
        }
    }

    // Returns the fault of a row that was not taken: its first misfit, if it does not fit the
    // schema.
    #[cold]
    #[inline(never)]
    fn first_fault(&self, schema: &Schema, row: &[Value], fault: PushFault) -> WriteFault
        requires { HasShortPaths schema.now }
        ensures { (limits : Limits) (b : BatchRows)
            → HoldsBatch limits schema.now b self.now
            → RefusesPending limits schema.now (with_row b row.now) false (write_fault fault)
            → RefusesPending limits schema.now (with_row b row.now) false result }
    {
        match conforms(schema, row) {
            Ok(()) => fault.into(),
            Err(misfit) => misfit.at_row(self.builder.row_count() as u64),
        }
    }

    // Adds one row. After W11 the batch is unusable; after any other error it is unchanged.
    #[inline(always)]
    pub(crate) fn push(&mut self, schema: &Schema, row: &[Value]) -> Result<(), WriteFault>
        requires { HasShortPaths schema.now }
        ensures stays { StaysInStream self.old self.new }
        ensures holds { (limits : Limits) (b : BatchRows) → WellFormed limits schema.now
            → HoldsBatch limits schema.now b self.old
            → OnOk result (HoldsBatch limits schema.now (with_row b row.now) self.new) }
        ensures refused { (limits : Limits) (b : BatchRows) → WellFormed limits schema.now
            → HoldsBatch limits schema.now b self.old
            → IfErr result (RefusesPending limits schema.now (with_row b row.now) false) }
        ensures kept { (limits : Limits) (b : BatchRows) → WellFormed limits schema.now
            → HoldsBatch limits schema.now b self.old
            → IfErr result (λ fault. ¬ (fault ≡ WriteFault.OutOfMemory)
            → HoldsBatch limits schema.now b self.new) }
    {
        match self.take(schema.fields.as_slice(), row) {
            Ok(true) => Ok(()),
            Ok(false) => self.check_last(schema, row),
            Err(PushFault::OutOfMemory) => Err(WriteFault::OutOfMemory),
            Err(fault) => Err(self.first_fault(schema, row, fault)),
        }
    }

    // Takes several rows, one after another, in a batch without rows.
    pub(crate) fn push_all(&mut self, schema: &Schema, rows: &[Row]) -> Result<(), WriteFault>
        requires { HasShortPaths schema.now }
        ensures holds { (limits : Limits) (pairs : List (List ℕ × List ℕ))
            → WellFormed limits schema.now
            → HoldsBatch limits schema.now (no_rows pairs) self.old
            → OnOk result (HoldsBatch limits schema.now (with_rows pairs rows.now) self.new) }
        ensures refused { (limits : Limits) (pairs : List (List ℕ × List ℕ))
            → WellFormed limits schema.now
            → HoldsBatch limits schema.now (no_rows pairs) self.old
            → IfErr result (RefusesBatch limits schema.now (with_rows pairs rows.now)) }
        ensures only { (limits : Limits) (pairs : List (List ℕ × List ℕ))
            → WellFormed limits schema.now
            → HoldsBatch limits schema.now (no_rows pairs) self.old
            → IfErr result (λ fault. ¬ (fault ≡ WriteFault.Write)) }
    {
        for row in rows {
            self.push(schema, row.as_slice())?;
        }
        Ok(())
    }
}
