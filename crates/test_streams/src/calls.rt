//! In how many calls a sink gets the messages of a batch.
use crate::scripts::{batch_of, ended, started};
use crate::tables::{A, Column, int};
use ipc_model::{BatchRows, DataType, Field, IntBits, Items, Limits, Schema, Value, WriteFault};
use ipc_stream::{Batch, Device, StreamWriter};
use std::alloc::{AllocError, Global};
use std::io;
use std::io::Write;
use std::test::Fail;

// A writer of std that takes all bytes. It keeps how many came in each call.
#[derive(Drop)]
struct CallSizes {
    sizes: Vec<usize>,
}

impl Write for CallSizes {
    fn write(&mut self, bytes: &[u8]) -> io::Result<usize> {
        match self.sizes.push(bytes.len()) {
            Ok(()) => Ok(bytes.len()),
            Err(_) => Err(io::Error::from(io::ErrorKind::Other)),
        }
    }

    fn flush(&mut self) -> io::Result<()> {
        Ok(())
    }
}

// A column of letters, which have a dictionary, and nine of numbers.
fn wide_schema(alloc: Global) -> Result<Schema, AllocError> {
    let mut fields = Column::Letters.schema(alloc)?.fields.into_vec();
    for _number in 0..9 {
        fields.push(Field::new(alloc, "b", int(IntBits::B64, true))?)?;
    }
    Ok(Schema::new(fields))
}

// One row of these columns.
fn wide_batch(alloc: Global) -> Result<BatchRows, AllocError> {
    let mut rows = Vec::new(alloc);
    for row in Column::Letters.rows(alloc, A)? {
        let mut row = row.into_vec();
        for number in 0..9 {
            row.push(Value::Int(number))?;
        }
        rows.push(Items::from_vec(row))?;
    }
    Ok(BatchRows::new(rows))
}

// A column of values of 1 MiB.
fn long_schema(alloc: Global) -> Result<Schema, AllocError> {
    let mut fields = Vec::new(alloc);
    fields.push(Field::new(alloc, "a", DataType::FixedSizeBinary(1 << 20))?)?;
    Ok(Schema::new(fields))
}

// One row of this column.
fn long_batch(alloc: Global) -> Result<BatchRows, AllocError> {
    let mut bytes = Vec::new(alloc);
    bytes.resize(1 << 20, 7)?;
    let row = vec![in alloc; Value::Bytes(Items::from_vec(bytes))]?;
    let rows = vec![in alloc; Items::from_vec(row)]?;
    Ok(BatchRows::new(rows))
}

// The stream of one batch.
fn stream_of(alloc: Global, schema: &Schema, batch: &BatchRows) -> Result<Vec<u8>, WriteFault> {
    let mut writer = started(alloc, schema)?;
    writer.write_batch(batch)?;
    ended(writer)
}

// The number of bytes of each call in which a sink gets the messages of a schema and of a batch. If
// the batch was read, its columns are written, and otherwise its rows.
fn calls(
    alloc: Global,
    schema: &Schema,
    batch: &BatchRows,
    read: Option<&Batch>,
) -> Result<Vec<usize>, WriteFault> {
    let device = Device::new(CallSizes {
        sizes: Vec::new(alloc),
    });
    let mut writer = StreamWriter::start(alloc, Limits::standard(), device, schema)?;
    match read {
        Some(read) => writer.write_columns(read, Items::new(alloc))?,
        None => writer.write_batch(batch)?,
    }
    Ok(writer.into_inner().into_inner().sizes)
}

// The numbers of bytes of the calls if rows are written, and if columns are.
fn calls_of(
    alloc: Global,
    schema: &Schema,
    batch: &BatchRows,
) -> Result<(Vec<usize>, Vec<usize>), Fail> {
    let read = batch_of(alloc, stream_of(alloc, schema, batch)?)?;
    let rows = calls(alloc, schema, batch, None)?;
    let columns = calls(alloc, schema, batch, Some(&read))?;
    Ok((rows, columns))
}

// The messages of a dictionary and of a short batch go out together, after the schema's. A long
// column goes out in a call of its own.
#[test]
fn calls_of_a_sink(rt: HostRuntime) -> Result<(), Fail> {
    let alloc = rt.alloc();
    let (rows, columns) = calls_of(alloc, &wide_schema(alloc)?, &wide_batch(alloc)?)?;
    assert!(rt; rows.len() == 2 && columns.len() == 2);
    let (rows, columns) = calls_of(alloc, &long_schema(alloc)?, &long_batch(alloc)?)?;
    assert!(rt; rows.len() == 3 && rows.last() == Some(&(1 << 20)));
    assert!(rt; columns.len() == 3 && columns.last() == Some(&(1 << 20)));
    Ok(())
}
