//! Measures a batch whose rows are pushed one by one.
use crate::rows::Data;
use ipc_model::{Items, Limits, Row, Schema, WriteFault};
use ipc_stream::{BatchWriter, Device, Sink, StreamWriter};
use std::alloc::{AllocError, Global};
use std::io::Write;

// The number of different rows. They are pushed in turn.
const DISTINCT_ROWS: u16 = 1024;

fn rows(alloc: Global, data: Data) -> Result<Vec<Row>, AllocError> {
    let mut rows = Vec::new(alloc);
    for number in 0..DISTINCT_ROWS {
        rows.push(data.row(alloc, number)?)?;
    }
    Ok(rows)
}

// Pushes `count` rows in turn.
fn push_each<W: Sink>(
    batch: &mut BatchWriter<'_, W>,
    rows: &[Row],
    count: u32,
) -> Result<(), WriteFault> {
    for number in 0..count {
        if let Some(row) = rows.get(number as usize % usize::from(DISTINCT_ROWS)) {
            batch.push(row.as_slice())?;
        }
    }
    Ok(())
}

// Pushes `count` rows in turn and sends them.
fn push_batch<W: Sink>(
    alloc: Global,
    stream: &mut StreamWriter<W>,
    rows: &[Row],
    count: u32,
) -> Result<(), WriteFault> {
    let mut batch = stream.batch(Items::new(alloc))?;
    push_each(&mut batch, rows, count)?;
    batch.send()
}

// Sends `batches` batches of `count` rows.
fn push_batches<W: Sink>(
    alloc: Global,
    stream: &mut StreamWriter<W>,
    rows: &[Row],
    batches: u32,
    count: u32,
) -> Result<(), WriteFault> {
    for _ in 0..batches {
        push_batch(alloc, stream, rows, count)?;
    }
    Ok(())
}

// Writes a stream of `batches` batches of `count` rows.
fn write_rows<W: Write + Drop>(
    alloc: Global,
    writer: W,
    schema: &Schema,
    rows: &[Row],
    batches: u32,
    count: u32,
) -> Result<(), WriteFault> {
    let mut stream = StreamWriter::start(alloc, Limits::standard(), Device::new(writer), schema)?;
    push_batches(alloc, &mut stream, rows, batches, count)?;
    let _device = stream.finish()?;
    Ok(())
}

/// Writes a stream of `batches` batches of `count` rows, each of them pushed.
pub fn push_rows<W: Write + Drop>(
    alloc: Global,
    writer: W,
    data: Data,
    batches: u32,
    count: u32,
) -> Result<(), WriteFault> {
    let rows = rows(alloc, data)?;
    let schema = data.schema(alloc)?;
    write_rows(alloc, writer, &schema, &rows, batches, count)
}
