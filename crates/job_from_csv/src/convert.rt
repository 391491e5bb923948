//! Sends the rows of CSV records in batches.
ghost use Rattle.std.specs.Prelude.{◌≡◌, ◌<◌, ◌≤◌, ◌-◌, ◌^◌, ◌∷◌, ℕ, List, [], Option, Some};
ghost use Rattle.std.specs.Prelude.{Err, IfErr, IfOk, None, OnOk, length, true};
ghost use Rattle.ipc_model.specs.declared.fault.WriteFault.{WriteFault};
ghost use Rattle.ipc_model.specs.declared.value.Value.{Value};
ghost use Rattle.ipc_stream.specs.PendingBatches.{HoldsBatch, no_rows};
ghost use Rattle.ipc_stream.specs.Writer.{Writer};
ghost use Rattle.ipc_stream.specs.Writing.{AcceptsBatch};
ghost use Rattle.job_from_csv.specs.declared.stop.FromCsvStop.TheVariants as stop;
ghost use Rattle.ipc_text_csv.specs.Records.{HasReadRecords, IsSetUp, input_of};
ghost use Rattle.ipc_text_csv.specs.RowCsv.{flat_fault};
ghost use Rattle.ipc_text_csv.specs.RowReaders.{FindsRow, HasRead};
ghost use Rattle.job_from_csv.specs.Batches.{batch_of};
ghost use Rattle.job_from_csv.specs.Conversion.{AnswersConversion, Converts, IsLeftToRefuse};
ghost use Rattle.job_from_csv.specs.Conversion.{StopsFor};
ghost use Rattle.job_from_csv.specs.Steps.{BeginsConversion, Came, PushesRows, SendsCsvBatch};
ghost use Rattle.job_from_csv.specs.Steps.{SendsRecords};
ghost use Rattle.job_from_csv.specs.Stops.{CountsInputFailure, CountsSinkFailure};
ghost use Rattle.job_from_csv.specs.Stops.{CountsSourceFailure};
ghost use Rattle.job_from_csv.specs.declared.batch_size.BatchSize.{BatchSize};

use crate::batch_size::BatchSize;
use crate::stop::{FromCsvStop, stop_at};
use ipc_device::{ReportsFailure, Sink, Source, SourceReader};
use ipc_model::{Items, Schema, WriteFault};
use ipc_stream::{BatchWriter, Seed, StreamWriter};
use ipc_text_csv::{Dialect, RowReader, check_flat};
use ipc_text_temporal::TextFault;
use std::alloc::Global;
use std::io::Read;

/// Why a batch ends.
#[derive(Clone, Copy, Debug, PartialEq, Eq)]
pub(crate) enum BatchEnd {
    /// It has the maximum number of rows.
    Rows,
    /// With the kept row it would be too long.
    TooLong,
    /// No record remains.
    Last,
}

// Reads the next row. Returns false if no record remains.
#[inline(always)]
fn next_row<R: Read + ReportsFailure>(
    alloc: Global,
    dialect: Dialect<'_>,
    rows: &mut RowReader<R>,
    schema: &Schema,
) -> Result<bool, FromCsvStop>
    requires set_up { IsSetUp dialect rows.old.reader }
    ensures device { CountsInputFailure (R.failures (input_of rows.new.reader)) result }
    ensures set_up { OnOk result (IsSetUp dialect.entry rows.new.reader) }
    ensures counted { IfOk result (λ has_row. (rows.old.count ≤ rows.new.count)
        × (has_row ≡ true → (rows.old.count < rows.new.count) × (rows.new.count < 2 ^ 64))) }
    ensures finds { IfOk result (λ has_row. (input : Option (List ℕ))
        (records : List (List (List ℕ))) (values : List (List Value))
        → HasRead dialect.entry R.remaining input schema.now records values rows.old
        → FindsRow dialect.entry R.remaining input schema.now records values rows.new has_row) }
    ensures stops { IfErr result (λ why. (input old : Option (List ℕ)) (size : BatchSize)
        (failures : ℕ) (writer : Writer) (left : List (List Value))
        → Came dialect.entry R.remaining input schema.now size old failures rows.old writer left
        → (0 < length left → AcceptsBatch writer.limits schema.now (batch_of left))
        → length left < size.rows
        → StopsFor dialect.entry input schema.now size old writer.written failures
        writer.failures why) }
{
    match rows.next(alloc, dialect, schema) {
        Ok(has_row) => Ok(has_row),
        Err(why) => Err(stop_at(why, rows.take_record(alloc))),
    }
}

// Pushes the kept row and those of the next records, until the batch has the size's rows, the next
// row does not fit into the size's bytes, or no record remains.
fn push_rows<R: Read + ReportsFailure, W: Sink>(
    alloc: Global,
    dialect: Dialect<'_>,
    rows: &mut RowReader<R>,
    schema: &Schema,
    size: BatchSize,
    batch: &mut BatchWriter<'_, W>,
) -> Result<BatchEnd, FromCsvStop>
    requires some { 0 < size.rows }
    requires set_up { IsSetUp dialect rows.old.reader }
    requires works { R.failures (input_of rows.old.reader) ≡ 0 }
    ensures device { CountsInputFailure (R.failures (input_of rows.new.reader)) result }
    ensures set_up { OnOk result (IsSetUp dialect.entry rows.new.reader) }
    ensures counted { OnOk result (rows.old.count ≤ rows.new.count) }
    ensures kept { IfOk result (λ end. end ≡ BatchEnd.TooLong
        → (rows.old.count < rows.new.count) × (rows.new.count < 2 ^ 64)) }
    ensures same_reference { batch.new.writer.ghost_name ≡ batch.old.writer.ghost_name }
    ensures pushes { (input old : Option (List ℕ)) (failures : ℕ)
        → Came dialect.entry R.remaining input schema.now size old failures rows.old
        batch.old.writer.now
        (rows.old.row ∷ [])
        → HoldsBatch batch.old.writer.now.limits batch.old.writer.now.schema (no_rows [])
        batch.old.batch
        → PushesRows dialect.entry R.remaining input schema.now size old failures rows.new
        batch.new.writer.now
        batch.new.batch result }
{
    batch.push(rows.row())?;
    for _ in 1..size.rows {
        if !next_row(alloc, dialect, rows, schema)? {
            return Ok(BatchEnd::Last);
        }
        let pushed = batch.push(rows.row());
        if size.is_exceeded(&pushed) {
            return Ok(BatchEnd::TooLong);
        }
        pushed?;
    }
    Ok(BatchEnd::Rows)
}

// Sends a batch of the kept row and those of the next records. Returns whether a row is kept for
// the next batch; if not, no record remains.
fn send_batch<R: Read + ReportsFailure, W: Sink>(
    alloc: Global,
    dialect: Dialect<'_>,
    rows: &mut RowReader<R>,
    stream: &mut StreamWriter<W>,
    schema: &Schema,
    size: BatchSize,
) -> Result<bool, FromCsvStop>
    requires some { 0 < size.rows }
    requires set_up { IsSetUp dialect rows.old.reader }
    requires works { R.failures (input_of rows.old.reader) ≡ 0 }
    ensures device { CountsInputFailure (R.failures (input_of rows.new.reader)) result }
    ensures set_up { OnOk result (IsSetUp dialect.entry rows.new.reader) }
    ensures counted { IfOk result (λ has_row. (rows.old.count ≤ rows.new.count)
        × (has_row ≡ true → (rows.old.count < rows.new.count) × (rows.new.count < 2 ^ 64))) }
    ensures sends { (input old : Option (List ℕ)) (failures : ℕ)
        → Came dialect.entry R.remaining input schema.now size old failures rows.old stream.old
        (rows.old.row ∷ [])
        → SendsCsvBatch dialect.entry R.remaining input schema.now size old failures rows.new
        stream.new result }
{
    let mut batch = stream.batch(Items::new(alloc))?;
    let end = push_rows(alloc, dialect, rows, schema, size, &mut batch)?;
    batch.send()?;
    match end {
        BatchEnd::Rows => next_row(alloc, dialect, rows, schema),
        BatchEnd::TooLong => Ok(true),
        BatchEnd::Last => Ok(false),
    }
}

// Sends the rows of all records after the header, in batches of this size. The last batch may be
// shorter.
fn send_records<R: Read + ReportsFailure, W: Sink>(
    alloc: Global,
    dialect: Dialect<'_>,
    rows: &mut RowReader<R>,
    stream: &mut StreamWriter<W>,
    schema: &Schema,
    size: BatchSize,
) -> Result<(), FromCsvStop>
    requires some { 0 < size.rows }
    requires set_up { IsSetUp dialect rows.old.reader }
    requires works { R.failures (input_of rows.old.reader) ≡ 0 }
    ensures device { CountsInputFailure (R.failures (input_of rows.new.reader)) result }
    ensures sends { (input old : Option (List ℕ)) (failures : ℕ)
        → BeginsConversion dialect.entry R.remaining input schema.now size old failures rows.old
        stream.old
        → SendsRecords dialect.entry input schema.now size old failures stream.new result }
{
    let mut has_row = next_row(alloc, dialect, rows, schema)?;
    while has_row {
        has_row = send_batch(alloc, dialect, rows, stream, schema, size)?;
    }
    Ok(())
}

// Reads the header, sends the stream of the records after it, and returns its sink.
fn send_stream<R: Read + ReportsFailure, W: Sink>(
    alloc: Global,
    seed: Seed,
    dialect: Dialect<'_>,
    rows: &mut RowReader<R>,
    sink: W,
    schema: &Schema,
    size: BatchSize,
) -> (Result<(), FromCsvStop>, W)
    requires some { 0 < size.rows }
    requires flat { flat_fault schema.now.fields ≡ None }
    requires set_up { IsSetUp dialect rows.old.reader }
    requires first { rows.old.count ≡ 0 }
    ensures device { CountsInputFailure (R.failures (input_of rows.new.reader)) result.0 }
    ensures converts { (input : Option (List ℕ))
        → HasReadRecords dialect.entry R.remaining input [] rows.old.reader
        → AnswersConversion dialect.entry input schema.now size (W.written sink)
        (W.written result.1)
        (W.failures sink)
        (W.failures result.1) result.0 }
    ensures handed_on { OnOk result.0 (W.held_back result.1 ≡ Some []) }
{
    let has_header = match rows.read_header(schema) {
        Ok(has_header) => has_header,
        Err(why) => return (Err(stop_at(why, rows.take_record(alloc))), sink),
    };
    if !has_header {
        let missing = TextFault::WrongFieldCount { record: 0 };
        return (Err(FromCsvStop::Text(missing)), sink);
    }
    let started = StreamWriter::start_with_seed(alloc, seed, size.limits(), sink, schema);
    let mut stream = match started {
        Ok(stream) => stream,
        Err((fault, sink)) => return (Err(FromCsvStop::Write(fault)), sink),
    };
    match send_records(alloc, dialect, rows, &mut stream, schema, size) {
        Ok(()) => match stream.finish() {
            Ok(sink) => (Ok(()), sink),
            Err((fault, sink)) => (Err(FromCsvStop::Write(fault)), sink),
        },
        Err(why) => (Err(why), stream.into_inner()),
    }
}

/// Reads CSV records from `input` in a dialect and writes them to `sink` as a stream, in batches of
/// `size`. Returns `input` and `sink` with the result. `size.rows` must be from 1 to 2^31 - 1.
///
/// A byte order mark at the start is dropped, and blank lines are no records, unless the dialect is
/// strict. The first record is the header, with the names of the columns in order. Each record
/// after it becomes a row, as `ipc_text::row_from_csv` reads it. Without records the stream has no
/// batches.
///
/// A batch is full if it has `size.rows` rows. With `size.bytes` it is also full if with the next
/// row its body would have more bytes than these, or it would otherwise be refused as W6; that row
/// begins the next batch. The bytes of a body are those of its buffers, each padded to a multiple
/// of 8. The last batch may be shorter.
///
/// The stream is within `Limits::standard()`; with `size.bytes`, bodies have no more bytes than
/// these. The schema is sent when the header was checked. Each batch is sent after the dictionaries
/// that it needs; if a later record is refused, all full batches before it were sent. At the end
/// the end-of-stream mark is sent, and the sink is flushed. The code keeps one record, one row, the
/// buffers of one batch, and the values of the dictionaries; no clause says so.
///
/// The code hashes the values of dictionaries with `seed`; no clause says so. With a random seed
/// nobody who does not know it can choose values whose hashes collide.
///
/// Errors, after which the bytes that were sent remain sent, with the full batches of earlier
/// records:
///
/// - `Text` X1 and X2: before anything is read.
/// - `Text` X5 of record 0: there is no record, and nothing was sent.
/// - `Record` X5 and X4 of record 0, the header: before anything is sent.
/// - `Record` X5 and X4 of a later record, counted from 1: it is no row of the schema.
/// - `Record` X5 of a blank line, and X4 of a field that is not in strict form or in which the
///   input ends, if the dialect is strict: the record then has the fields before it.
/// - `Text` `OutOfMemory`: memory for a record or its row ran out, or there are more than 2^64 - 1
///   records after the header.
/// - `Write` W1 and W6: the schema is refused, as in `StreamWriter::start`.
/// - `Write` W6, at a record: with it the batch, or the values of a dictionary in it, are too long.
///   With `size.bytes` this holds of a batch of its row alone.
/// - `Write` W7 or W8, at a record: with it the batch has more values of a dictionary than an index
///   type of its fields counts (W7), or than `limits.slots` (W8).
/// - `Write` W9: the sink failed.
/// - `Write` W11: memory ran out.
/// - `Input`: the source failed, perhaps before the call.
pub fn from_csv<R: Source, W: Sink>(
    alloc: Global,
    seed: Seed,
    dialect: Dialect<'_>,
    input: R,
    sink: W,
    schema: &Schema,
    size: BatchSize,
) -> (Result<(), FromCsvStop>, R, W)
    requires some { 0 < size.rows }
    requires within { size.rows ≤ 2 ^ 31 - 1 }
    // What went out is the stream of a table whose batches are the rows of all records.
    ensures converts { OnOk result.0 (Converts dialect.entry (R.remaining input) schema.now size
        (W.written sink)
        (W.written result.2) (W.failures sink) (W.failures result.2)) }
    // Nothing is held back.
    ensures handed_on { OnOk result.0 (W.held_back result.2 ≡ Some []) }
    // At a refusal, its cause, and exactly what went out before it.
    ensures stopped { IfErr result.0 (λ why. StopsFor dialect.entry (R.remaining input) schema.now
        size
        (W.written sink) (W.written result.2) (W.failures sink) (W.failures result.2) why) }
    // The rows fit and the batches aren't too large, so W2 to W5 don't come, and W7 and W8 only of
    // the values of a dictionary.
    ensures left { IfErr result.0 (λ why. (fault : WriteFault) → why ≡ stop.Write fault
        → IsLeftToRefuse schema.now fault) }
    // W9 comes exactly where the sink failed.
    ensures sink { CountsSinkFailure (W.failures sink) (W.failures result.2) result.0 }
    // `Input` comes exactly where the source failed.
    ensures source { CountsSourceFailure (R.failures input) (R.failures result.1) result.0 }
{
    if let Err(fault) = check_flat(schema) {
        return (Err(FromCsvStop::Text(fault)), input, sink);
    }
    let mut rows = RowReader::new(alloc, dialect, SourceReader::new(input));
    let (result, sink) = send_stream(alloc, seed, dialect, &mut rows, sink, schema, size);
    (result, rows.into_inner().into_inner(), sink)
}
