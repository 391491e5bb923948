ghost use Rattle.std.specs.Prelude.{◌≡◌, ◌⊎◌, [], IfErr, OnOk, Some};
ghost use Rattle.ipc_model.specs.Fits.{TableFits};
ghost use Rattle.ipc_stream_read.specs.Stream.{IsTableOf};
ghost use Rattle.ipc_stream.specs.Dictionaries.{SendsStream};
ghost use Rattle.ipc_stream.specs.Writing.{AcceptsTable, BreaksOff, IsWithinLimits, Sent};

use crate::open_stream::OpenStream;
use crate::sending::send_end;
use ipc_device::Sink;
use ipc_dict::Seed;
use ipc_model::{Limits, Table, WriteFault};
use std::alloc::Global;

// Sends the messages of a table and the end mark.
fn write_messages<W: Sink>(
    alloc: Global,
    limits: &Limits,
    sink: &mut W,
    table: &Table,
) -> Result<(), WriteFault>
    ensures sends { OnOk result (Sent (SendsStream limits.now table.now) (W.written sink.old)
        (W.written sink.new) (W.failures sink.old) (W.failures sink.new)) }
    ensures handed_on { OnOk result (W.held_back sink.new ≡ Some []) }
    ensures accepted { OnOk result (AcceptsTable limits.now table.now) }
    ensures broken { IfErr result (λ fault. BreaksOff limits.now table.now (W.written sink.old)
        (W.written sink.new) (W.failures sink.old) (W.failures sink.new) fault) }
{
    let mut stream = OpenStream::begin(alloc, Seed::Fixed, limits, sink, &table.schema)?;
    for batch in table.batches.as_slice() {
        stream.send_batch(sink, batch)?;
    }
    send_end(sink)
}

/// Writes a whole table as a stream: its schema, its batches in order, and the end-of-stream mark,
/// as `StreamWriter::start`, `write_batch` and `finish` do (Arrow Columnar Format, "IPC Streaming
/// Format").
///
/// Errors:
///
/// - W1: the schema is not well formed.
/// - W2 to W5: a row does not fit the schema. The fault has the number of the first such row in its
///   batch, and the path in the row.
/// - W6 or W8: a length is above the limits.
/// - W7: a dictionary has more values than its indices count.
/// - W9: the sink failed.
/// - W11: memory ran out.
///
/// Messages that were sent before the refusal remain sent.
pub fn write_table<W: Sink>(
    alloc: Global,
    limits: &Limits,
    sink: &mut W,
    table: &Table,
) -> Result<(), WriteFault>
    // What was written denotes the table, with its mark, and no call of the sink failed.
    ensures denotes { OnOk result (Sent (IsTableOf limits.now table.now) (W.written sink.old)
        (W.written sink.new) (W.failures sink.old) (W.failures sink.new)) }
    // The bytes are the schema's message, the batches' messages in order, and the mark. Before each
    // batch is one message for each dictionary that it needs.
    ensures sends { OnOk result (Sent (SendsStream limits.now table.now) (W.written sink.old)
        (W.written sink.new) (W.failures sink.old) (W.failures sink.new)) }
    // Nothing is held back.
    ensures handed_on { OnOk result (W.held_back sink.new ≡ Some []) }
    // The schema and all batches are accepted.
    ensures accepted { OnOk result (AcceptsTable limits.now table.now) }
    // At a refusal, which messages are accepted and out, and why the next one is refused.
    ensures broken { IfErr result (λ fault. BreaksOff limits.now table.now (W.written sink.old)
        (W.written sink.new) (W.failures sink.old) (W.failures sink.new) fault) }
    // A table that fits its schema and keeps the limits is refused only where the sink fails or
    // memory runs out.
    ensures fits { TableFits limits.now table.now → IsWithinLimits limits.now table.now
        → IfErr result (λ fault. (fault ≡ WriteFault.Write) ⊎ (fault ≡ WriteFault.OutOfMemory)) }
{
    write_messages(alloc, limits, sink, table)
}
