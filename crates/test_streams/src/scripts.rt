//! What writers answer to scripts, and what they send.
use crate::tables::{Column, Rows, empty};
use ipc_model::{BatchRows, Fault, Items, Limits, Row, Schema, Text, WriteFault};
use ipc_stream::{Batch, BatchWriter, Memory, Sink, StreamReader, StreamWriter};
use std::alloc::{AllocError, Global};

/// What is asked of a writer.
#[derive(Clone, Copy)]
pub enum Step<'a> {
    /// To write a batch of these rows.
    Write(Rows<'a>),
    /// The same with one pair, of two bytes.
    WritePaired(Rows<'a>),
    /// To take these rows one by one, and to send those that fit.
    Push(Rows<'a>),
    /// The same with one pair, of two bytes.
    PushPaired(Rows<'a>),
    /// To write a batch of these rows that was read, from its columns.
    Columns(Rows<'a>),
}

impl<'a> Step<'a> {
    // The numbers of the rows that may be sent, and whether they have a pair.
    fn parts(self) -> (Rows<'a>, bool) {
        match self {
            Step::Write(numbers) | Step::Push(numbers) | Step::Columns(numbers) => (numbers, false),
            Step::WritePaired(numbers) | Step::PushPaired(numbers) => (numbers, true),
        }
    }
}

/// A writer into memory that sent this schema.
pub fn started(alloc: Global, schema: &Schema) -> Result<StreamWriter<Memory>, WriteFault> {
    Ok(StreamWriter::start(alloc, Limits::standard(), empty(alloc)?, schema)?)
}

/// Ends the stream of a writer, and gives its bytes.
pub fn ended(writer: StreamWriter<Memory>) -> Result<Vec<u8>, WriteFault> {
    Ok(writer.finish()?.into_bytes())
}

fn next_batch(stream: &mut StreamReader<Memory>) -> Result<Batch, Fault> {
    match stream.next()? {
        Some((batch, _pairs)) => Ok(batch),
        None => Err(Fault::Truncated),
    }
}

/// The first batch of a stream.
pub fn batch_of(alloc: Global, stream: Vec<u8>) -> Result<Batch, Fault> {
    let source = Memory::new(stream);
    next_batch(&mut StreamReader::open(alloc, Limits::standard(), source)?)
}

// Keeps a refusal.
fn keep(faults: &mut Vec<WriteFault>, answer: Result<(), WriteFault>) -> Result<(), AllocError> {
    if let Err(fault) = answer {
        faults.push(fault)?;
    }
    Ok(())
}

// Takes rows, and keeps the faults of those that are refused.
fn take_rows<W: Sink>(
    batch: &mut BatchWriter<'_, W>,
    rows: &[Row],
    faults: &mut Vec<WriteFault>,
) -> Result<(), AllocError> {
    for row in rows {
        keep(faults, batch.push(row.as_slice()))?;
    }
    Ok(())
}

// Sends a batch of those of the rows that fit.
fn push_rows<W: Sink>(
    writer: &mut StreamWriter<W>,
    batch: BatchRows,
    faults: &mut Vec<WriteFault>,
) -> Result<(), WriteFault> {
    let BatchRows { pairs, rows } = batch;
    let mut batch = writer.batch(pairs)?;
    take_rows(&mut batch, rows.as_slice(), faults)?;
    batch.send()
}

// A step with what it writes.
#[derive(Drop)]
enum Prepared {
    Write(BatchRows),
    Push(BatchRows),
    Columns(Batch, Items<(Text, Text)>),
}

// Takes one step.
fn take<W: Sink>(
    writer: &mut StreamWriter<W>,
    step: Prepared,
    faults: &mut Vec<WriteFault>,
) -> Result<(), WriteFault> {
    match step {
        Prepared::Write(batch) => writer.write_batch(&batch),
        Prepared::Push(batch) => push_rows(writer, batch, faults),
        Prepared::Columns(batch, pairs) => writer.write_columns(&batch, pairs),
    }
}

// The stream of a column with one batch of these rows.
fn written(alloc: Global, column: Column, rows: &BatchRows) -> Result<Vec<u8>, WriteFault> {
    let mut writer = started(alloc, &column.schema(alloc)?)?;
    writer.write_batch(rows)?;
    ended(writer)
}

// The batch that is read from such a stream.
fn read_back(alloc: Global, column: Column, rows: &BatchRows) -> Result<Batch, AllocError> {
    let Ok(stream) = written(alloc, column, rows) else {
        return Err(AllocError);
    };
    match batch_of(alloc, stream) {
        Ok(batch) => Ok(batch),
        Err(_) => Err(AllocError),
    }
}

fn prepare(alloc: Global, column: Column, step: Step<'_>) -> Result<Prepared, AllocError> {
    let (numbers, is_paired) = step.parts();
    let batch = column.batch(alloc, numbers, is_paired)?;
    Ok(match step {
        Step::Write(_) | Step::WritePaired(_) => Prepared::Write(batch),
        Step::Push(_) | Step::PushPaired(_) => Prepared::Push(batch),
        Step::Columns(_) => Prepared::Columns(read_back(alloc, column, &batch)?, batch.pairs),
    })
}

fn prepare_all(
    alloc: Global,
    column: Column,
    steps: &[Step<'_>],
) -> Result<Vec<Prepared>, AllocError> {
    let mut all = Vec::new(alloc);
    for step in steps {
        all.push(prepare(alloc, column, *step)?)?;
    }
    Ok(all)
}

// Takes the steps, and returns how many of them were taken without a refusal.
fn take_all<W: Sink>(
    writer: &mut StreamWriter<W>,
    steps: Vec<Prepared>,
    faults: &mut Vec<WriteFault>,
) -> Result<usize, AllocError> {
    let mut taken = 0usize;
    for step in steps {
        let answer = take(writer, step, faults);
        taken = taken.saturating_add(usize::from(answer.is_ok()));
        keep(faults, answer)?;
    }
    Ok(taken)
}

// Takes the steps, and ends the stream.
fn finished<W: Sink + Drop>(
    writer: StreamWriter<W>,
    steps: Vec<Prepared>,
    faults: &mut Vec<WriteFault>,
) -> Result<(W, usize), AllocError> {
    let mut writer = writer;
    let taken = take_all(&mut writer, steps, faults)?;
    match writer.finish() {
        Ok(sink) => Ok((sink, taken.saturating_add(2))),
        Err((fault, sink)) => {
            keep(faults, Err(fault))?;
            Ok((sink, taken.saturating_add(1)))
        }
    }
}

// The number of faults for which there is room before the first call of a writer.
const ROOM: usize = 16;

/// Writes a stream of the column by these steps, with its end. Returns the sink, how many calls
/// were not refused (the start, the steps and the end), and the faults of those that were. All that
/// the test needs itself is allocated before the first call, unless there are more than 16 faults.
pub fn played<W: Sink + Drop>(
    alloc: Global,
    limits: Limits,
    sink: W,
    column: Column,
    steps: &[Step<'_>],
) -> Result<(W, usize, Vec<WriteFault>), AllocError> {
    let schema = column.schema(alloc)?;
    let steps = prepare_all(alloc, column, steps)?;
    let mut faults = Vec::with_capacity(alloc, ROOM)?;
    let (sink, done) = match StreamWriter::start(alloc, limits, sink, &schema) {
        Ok(writer) => finished(writer, steps, &mut faults)?,
        Err((fault, sink)) => {
            keep(&mut faults, Err(fault))?;
            (sink, 0)
        }
    };
    Ok((sink, done, faults))
}

/// The bytes of such a stream, and the faults.
pub fn sent(
    alloc: Global,
    limits: Limits,
    column: Column,
    steps: &[Step<'_>],
) -> Result<(Vec<u8>, Vec<WriteFault>), AllocError> {
    let (sink, _done, faults) = played(alloc, limits, empty(alloc)?, column, steps)?;
    Ok((sink.into_bytes(), faults))
}

/// The bytes of such a stream under the standard limits, or the first fault.
pub fn stream_of(alloc: Global, column: Column, steps: &[Step<'_>]) -> Result<Vec<u8>, WriteFault> {
    let (bytes, faults) = sent(alloc, Limits::standard(), column, steps)?;
    match faults.into_iter().next() {
        Some(fault) => Err(fault),
        None => Ok(bytes),
    }
}
