//! Examples of the documents: two batches are written to memory as a stream, and read back.

use ipc_stream::{
    BatchRows, Cell, DataType, DateUnit, Fault, Field, IntBits, Limits, Memory, Row, Schema,
    StreamReader, StreamWriter, Value, WriteFault,
};
use std::alloc::{AllocError, Global};
use std::test::Fail;

// The columns: a number, a name, which may be null, and a day.
fn columns(alloc: Global) -> Result<Schema, WriteFault> {
    let number = DataType::Int {
        bits: IntBits::B64,
        signed: true,
    };
    Ok(Schema::new(vec![in alloc;
        Field::new(alloc, "number", number)?,
        Field::new(alloc, "name", DataType::Utf8)?.nullable(),
        Field::new(alloc, "day", DataType::Date(DateUnit::Day))?,
    ]?))
}

// A batch of one row.
fn batch(alloc: Global, number: i64, name: Value, day: i64) -> Result<BatchRows, WriteFault> {
    let row = vec![in alloc; Value::Int(number), name, Value::Int(day)]?;
    Ok(BatchRows::new(vec![in alloc; Row::from(row)]?))
}

// Writes two batches.
fn write_batches(alloc: Global, stream: &mut StreamWriter<Memory>) -> Result<(), WriteFault> {
    let first = batch(alloc, 1, Value::text(alloc, "one")?, 0)?;
    stream.write_batch(&first)?;
    stream.write_batch(&batch(alloc, -2, Value::Null, 19_000)?)
}

// Two batches of a row, as a stream in memory.
fn write(alloc: Global) -> Result<Memory, WriteFault> {
    let schema = columns(alloc)?;
    let sink = Memory::new(Vec::new(alloc));
    let mut stream = StreamWriter::start(alloc, Limits::standard(), sink, &schema)?;
    write_batches(alloc, &mut stream)?;
    Ok(stream.finish()?)
}

// Appends the cells of a stream to a text, a line for each row.
fn read_rows(
    alloc: Global,
    stream: &mut StreamReader<Memory>,
    text: &mut String,
) -> Result<(), Fault> {
    while let Some((batch, _pairs)) = stream.next()? {
        for row in 0..batch.rows() {
            for (column, field) in stream.fields().iter().enumerate() {
                spell(alloc, &field.kind, batch.cell(row, column), text)?;
            }
            text.push('\n')?;
        }
    }
    Ok(())
}

// The cells of a stream.
fn read(alloc: Global, source: Memory) -> Result<String, Fault> {
    let mut text = String::new(alloc);
    let mut stream = StreamReader::open(alloc, Limits::standard(), source)?;
    read_rows(alloc, &mut stream, &mut text)?;
    Ok(text)
}

// Appends a cell of a column of this type to a text.
fn spell(
    alloc: Global,
    kind: &DataType,
    cell: Cell<'_>,
    text: &mut String,
) -> Result<(), AllocError> {
    let word = word_of(alloc, kind, cell)?;
    text.push_str(word.as_str())?;
    Ok(())
}

// A cell of a column of this type as text.
fn word_of(alloc: Global, kind: &DataType, cell: Cell<'_>) -> Result<String, AllocError> {
    match (kind, cell) {
        (_, Cell::Null) => String::from_str(alloc, "null "),
        (DataType::Date(DateUnit::Day), Cell::Int(day)) => {
            format!(in alloc; "day {day} after 1970-01-01 ")
        }
        (_, Cell::Int(number)) => format!(in alloc; "{number} "),
        (_, Cell::Text(text)) => format!(in alloc; "{text} "),
        _ => String::from_str(alloc, "? "),
    }
}

const CELLS: &str = "1 one day 0 after 1970-01-01 \n-2 null day 19000 after 1970-01-01 \n";

// The numbers of a stream's first column, without its nulls.
fn first_numbers(alloc: Global, source: Memory) -> Result<Vec<i64>, Fault> {
    let mut numbers = Vec::new(alloc);
    let mut stream = StreamReader::open(alloc, Limits::standard(), source)?;
    while let Some((batch, _pairs)) = stream.next()? {
        if batch.columns() > 0 {
            for row in 0..batch.rows() {
                if let Cell::Int(number) = batch.cell(row, 0) {
                    numbers.push(number)?;
                }
            }
        }
    }
    Ok(numbers)
}

#[test]
fn reads_the_first_column(rt: HostRuntime) -> Result<(), Fail> {
    let stream = write(rt.alloc())?;
    assert!(rt; first_numbers(rt.alloc(), stream)?.as_slice() == [1, -2].as_slice());
    Ok(())
}

#[test]
fn reads_what_it_wrote(rt: HostRuntime) -> Result<(), Fail> {
    let stream = write(rt.alloc())?;
    assert!(rt; read(rt.alloc(), stream)?.as_str() == CELLS);
    Ok(())
}
