ghost use Rattle.std.specs.Prelude.{◌≡◌, ◌<◌, length, FitsSigned, IfErr, IfOk, OnOk};
ghost use Rattle.std.specs.Int.{w64};
ghost use Rattle.std.specs.List.{AllByRecursion};
ghost use Rattle.ipc_model.specs.declared.schema.Schema.{Schema};
ghost use Rattle.ipc_model.specs.declared.table.BatchRows.{BatchRows};
ghost use Rattle.ipc_dict_read.specs.ValuesColumns.{dictionary_columns};
ghost use Rattle.ipc_dict.specs.SchemaIds.{ids_of, tally_ids};
ghost use Rattle.ipc_dict.specs.Sending.{AreAddressed, sent_after};
ghost use Rattle.ipc_stream.specs.Dictionaries.{SendsBatch};
ghost use Rattle.ipc_stream.specs.Messages.{AddsDictionary, SetDictionaries, batch_bytes};
ghost use Rattle.ipc_stream.specs.OpenStreams.{CanBeSent, IsGoingOn, Leads};
ghost use Rattle.ipc_stream.specs.PendingBatches.{HoldsBatch};

use crate::message::Message;
use crate::messages::{batch_front, dictionary_message};
use crate::pending_batch::PendingBatch;
use ipc_dict::{Dictionaries, Kept, Plan};
use ipc_encode::{Segment, SegmentedParts};
use ipc_model::{Items, Limits, Row, WriteFault};
use std::alloc::Global;

/// The messages of one batch, none of which is sent yet: those of the dictionaries that it needs,
/// then its own, whose body is a sequence of segments (Arrow Columnar Format, "IPC Streaming
/// Format").
#[derive(Debug, Drop)]
pub(crate) struct BatchMessages<'a> {
    /// The messages of dictionaries.
    pub(crate) dictionaries: Vec<Message>,
    /// The bytes of the batch's message before its body.
    pub(crate) front: Vec<u8>,
    /// The body of the batch's message.
    pub(crate) segments: Vec<Segment<'a>>,
}

impl<'a> BatchMessages<'a> {
    // Returns the segments of the body.
    pub(crate) fn into_segments(self) -> Vec<Segment<'a>> {
        let BatchMessages {
            dictionaries: _,
            front: _,
            segments,
        } = self;
        segments
    }
}

// The id of a dictionary.
fn id_of(id: &i64) -> i64
    ensures is { result ≡ id.now }
    ensures fits { FitsSigned w64 result }
{
    *id
}

// Appends the message of one dictionary. A dictionary that no field names has no message.
fn add_dictionary(
    alloc: Global,
    limits: &Limits,
    columns: &Dictionaries,
    send: &(i64, Items<Row>),
    messages: &mut Vec<Message>,
) -> Result<(), WriteFault>
    ensures set { (s : Schema) → columns.now.columns ≡ dictionary_columns s.fields
        → CanBeSent limits.now s send.now
        → OnOk result (AddsDictionary limits.now s send.now messages.old.items messages.new.items) }
    ensures only { (s : Schema) → columns.now.columns ≡ dictionary_columns s.fields
        → CanBeSent limits.now s send.now
        → IfErr result (λ fault. fault ≡ WriteFault.OutOfMemory) }
{
    let id = id_of(&send.0);
    let Some(fields) = columns.fields_of(id) else {
        return Ok(());
    };
    let message = dictionary_message(alloc, limits, id, fields.as_slice(), send.1.as_slice())?;
    messages.push(message)?;
    Ok(())
}

// The messages of dictionaries, in their order.
pub(crate) fn dictionary_messages(
    alloc: Global,
    limits: &Limits,
    columns: &Dictionaries,
    sends: &[(i64, Items<Row>)],
) -> Result<Vec<Message>, WriteFault>
    ensures set { (s : Schema) → columns.now.columns ≡ dictionary_columns s.fields
        → AllByRecursion (CanBeSent limits.now s) sends.now
        → IfOk result (λ messages. SetDictionaries limits.now s sends.now messages.items) }
    ensures only { (s : Schema) → columns.now.columns ≡ dictionary_columns s.fields
        → AllByRecursion (CanBeSent limits.now s) sends.now
        → IfErr result (λ fault. fault ≡ WriteFault.OutOfMemory) }
{
    let mut messages = Vec::with_capacity(alloc, sends.len())?;
    for send in sends {
        add_dictionary(alloc, limits, columns, send, &mut messages)?;
    }
    Ok(messages)
}

// The messages of the pending batch, and what it does with each dictionary. Its rows, its
// pairs and its dictionaries are within the limits.
pub(crate) fn pending_messages<'a>(
    alloc: Global,
    limits: &Limits,
    columns: &Dictionaries,
    kept: &Kept,
    pending: PendingBatch,
) -> Result<(BatchMessages<'a>, Plan), WriteFault>
    ensures messages { (s : Schema) (b : BatchRows) → IsGoingOn limits.now s columns.now kept.now
        → HoldsBatch limits.now s b pending
        → IfOk result (λ r. SendsBatch limits.now s kept.now b
        (batch_bytes r.0)) }
    ensures sent { (s : Schema) (b : BatchRows) → IsGoingOn limits.now s columns.now kept.now
        → HoldsBatch limits.now s b pending
        → IfOk result (λ r. Leads kept.now (sent_after s.fields b.rows kept.now) r.1) }
    ensures only { (s : Schema) (b : BatchRows) → IsGoingOn limits.now s columns.now kept.now
        → HoldsBatch limits.now s b pending
        → IfErr result (λ fault. fault ≡ WriteFault.OutOfMemory) }
    ensures some { IfOk result (λ r. 0 < length r.0.front.items) }
    ensures ids { IfOk result (λ r. tally_ids r.1.entries ≡ ids_of pending.tally.fields) }
    ensures addressed { IfOk result (λ r. AreAddressed pending.tally.fields r.1.entries) }
{
    let PendingBatch {
        builder,
        tally,
        pairs,
    } = pending;
    let count = builder.row_count();
    let plan = tally.settle(alloc, kept)?;
    let parts = builder.finish(&plan)?;
    let SegmentedParts {
        nodes,
        buffers,
        segments,
        len,
    } = parts;
    let front = batch_front(alloc, limits, &pairs, count, nodes, buffers, len)?;
    let dictionaries = dictionary_messages(alloc, limits, columns, plan.sends())?;
    let messages = BatchMessages {
        dictionaries,
        front,
        segments,
    };
    Ok((messages, plan))
}
