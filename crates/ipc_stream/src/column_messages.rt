//! Makes the messages of a batch that was read from its columns.
ghost use Rattle.std.specs.Prelude.{◌≡◌, ◌<◌, ℕ, List, length, IfErr, IfOk, MatchResult};
ghost use Rattle.std.specs.List.{AllByRecursion};
ghost use Rattle.ipc_model.specs.Fits.{RowFits};
ghost use Rattle.ipc_dict.specs.Planning.{AllSettled, FindsAll};
ghost use Rattle.ipc_dict.specs.SchemaIds.{ids_of, tally_ids};
ghost use Rattle.ipc_dict.specs.Sending.{AreAddressed, sent_after, tally_of_rows};
ghost use Rattle.ipc_stream.specs.Dictionaries.{AreDictionariesWithin, SendsBatch};
ghost use Rattle.ipc_stream.specs.Messages.{batch_bytes};
ghost use Rattle.ipc_stream.specs.OpenStreams.{IsGoingOn, Leads};
ghost use Rattle.ipc_stream.specs.PendingBatches.{with_rows};
ghost use Rattle.ipc_stream.specs.Writing.{AcceptsBatch, RefusesBatch};

use crate::batch_messages::{BatchMessages, dictionary_messages};
use crate::messages::batch_front;
use ipc_column::Batch;
use ipc_conform::check_rows;
use ipc_dict::{Dictionaries, Kept, Plan, Seed, has_short_messages};
use ipc_encode::{BufferPool, SameNumbers, SegmentedParts, encode_columns};
use ipc_model::{Items, Limits, Schema, Text, WriteFault};
use std::alloc::Global;

// Checks that the rows of a batch fit the schema, and plans what it does with each dictionary.
pub(crate) fn plan_columns(
    alloc: Global,
    limits: &Limits,
    schema: &Schema,
    columns: &Dictionaries,
    kept: &Kept,
    seed: Seed,
    batch: &Batch,
) -> Result<Plan, WriteFault>
    requires { IsGoingOn limits.now schema.now columns.now kept.now }
    ensures fit { IfOk result
        (λ plan. AllByRecursion (RowFits schema.now.fields) batch.now.rows) }
    ensures within { IfOk result
        (λ plan. AreDictionariesWithin limits.now schema.now.fields batch.now.rows) }
    ensures tallied { IfOk result
        (λ plan. plan.entries ≡ tally_of_rows schema.now.fields batch.now.rows) }
    ensures settled { IfOk result (λ plan. AllSettled kept.now plan.entries plan.numbers) }
    ensures finds { IfOk result (λ plan. FindsAll kept.now plan.entries plan.numbers) }
    ensures ids { IfOk result (λ plan. tally_ids plan.entries ≡ ids_of schema.now.fields) }
    ensures addressed { IfOk result (λ plan. AreAddressed schema.now.fields plan.entries) }
    ensures refused { (pairs : List (List ℕ × List ℕ)) → IfErr result
        (RefusesBatch limits.now schema.now (with_rows pairs batch.now.rows)) }
    ensures only { IfErr result (λ fault. ¬ (fault ≡ WriteFault.Write)) }
{
    if !has_short_messages(alloc, limits, schema, columns)? {
        return Err(WriteFault::TooLong);
    }
    check_rows(alloc, schema, batch)?;
    Plan::for_columns(alloc, limits, schema, kept, seed, batch)
}

// The messages of a batch that was read, with these pairs, and what it does with each dictionary.
// Segments that are encoded anew are in memory from `pool` if it has any.
pub(crate) fn column_messages<'a>(
    alloc: Global,
    limits: &Limits,
    schema: &Schema,
    columns: &Dictionaries,
    kept: &Kept,
    seed: Seed,
    pool: &mut BufferPool,
    batch: &'a Batch,
    pairs: &Items<(Text, Text)>,
) -> Result<(BatchMessages<'a>, Plan), WriteFault>
    requires { IsGoingOn limits.now schema.now columns.now kept.now }
    ensures messages { IfOk result (λ r. SendsBatch limits.now schema.now kept.now
        (with_rows pairs.now batch.now.rows)
        (batch_bytes r.0)) }
    ensures sent { IfOk result
        (λ r. Leads kept.now (sent_after schema.now.fields batch.now.rows kept.now) r.1) }
    ensures judged { MatchResult result
        (λ r. AcceptsBatch limits.now schema.now (with_rows pairs.now batch.now.rows))
        (RefusesBatch limits.now schema.now (with_rows pairs.now batch.now.rows)) }
    ensures only { IfErr result (λ fault. ¬ (fault ≡ WriteFault.Write)) }
    ensures some { IfOk result (λ r. 0 < length r.0.front.items) }
    ensures ids { IfOk result (λ r. tally_ids r.1.entries ≡ ids_of schema.now.fields) }
    ensures addressed { IfOk result (λ r. AreAddressed schema.now.fields r.1.entries) }
{
    let plan = plan_columns(alloc, limits, schema, columns, kept, seed, batch)?;
    let fields = schema.fields.as_slice();
    let parts = encode_columns(alloc, pool, limits, fields, batch, &plan, &SameNumbers)?;
    let SegmentedParts {
        nodes,
        buffers,
        segments,
        len,
    } = parts;
    let front = batch_front(alloc, limits, pairs, batch.rows(), nodes, buffers, len)?;
    let dictionaries = dictionary_messages(alloc, limits, columns, plan.sends())?;
    let messages = BatchMessages {
        dictionaries,
        front,
        segments,
    };
    Ok((messages, plan))
}
