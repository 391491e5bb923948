//! Rows that are refused between others: the batch is that of the others alone.
use crate::tables::int;
use ipc_model::{
    BatchRows, DataType, Dictionary, Field, IndexType, IntBits, Items, Limits, Row, Schema, Value,
    WriteFault,
};
use ipc_stream::{Memory, StreamWriter};
use std::alloc::{AllocError, Global};
use std::test::Fail;

// How many rows are pushed.
const ROWS: usize = 24;

// Dictionary 3, under signed indices of 8 bits.
const WORDS: Dictionary = Dictionary {
    id: 3,
    index: IndexType {
        bits: IntBits::B8,
        signed: true,
    },
    ordered: false,
};

fn nullable(alloc: Global, kind: DataType) -> Result<Field, AllocError> {
    Ok(Field::new(alloc, "a", kind)?.nullable())
}

// A field of this type with one child.
fn around(alloc: Global, kind: DataType, child: Field) -> Result<Field, AllocError> {
    Ok(nullable(alloc, kind)?.with_children(vec![in alloc; child]?))
}

// Numbers, words with a dictionary, lists of structs of a number and a text, pairs of truth values,
// three bytes, and bytes of any length.
fn schema(alloc: Global) -> Result<Schema, AllocError> {
    let number = nullable(alloc, int(IntBits::B8, true))?;
    let text = nullable(alloc, DataType::Utf8)?;
    let parts = nullable(alloc, DataType::Struct)?.with_children(vec![in alloc; number, text]?);
    let mut fields = Vec::new(alloc);
    fields.push(Field::new(alloc, "a", int(IntBits::B64, true))?)?;
    fields.push(nullable(alloc, DataType::Utf8)?.with_dictionary(WORDS))?;
    fields.push(around(alloc, DataType::List, parts)?)?;
    let truth = nullable(alloc, DataType::Bool)?;
    fields.push(around(alloc, DataType::FixedSizeList(2), truth)?)?;
    fields.push(nullable(alloc, DataType::FixedSizeBinary(3))?)?;
    fields.push(nullable(alloc, DataType::Binary)?)?;
    Ok(Schema::new(fields))
}

// A text of this number of letters.
fn word(alloc: Global, count: usize) -> Result<Value, AllocError> {
    let mut text = String::new(alloc);
    for _letter in 0..count {
        text.push('w')?;
    }
    Value::text(alloc, &text)
}

// This number of bytes.
fn bytes(alloc: Global, count: usize) -> Result<Value, AllocError> {
    let mut bytes = Vec::new(alloc);
    bytes.resize(count, 7)?;
    Ok(Value::Bytes(Items::from_vec(bytes)))
}

// A list of this number of structs. The last of three has a number out of range.
fn structs(alloc: Global, count: usize) -> Result<Value, AllocError> {
    let mut items = Vec::new(alloc);
    for item in 0..count {
        let number = Value::Int(if item == 2 { 128 } else { 1 });
        let parts = vec![in alloc; number, word(alloc, item)?]?;
        items.push(Value::Struct(Items::from_vec(parts)))?;
    }
    Ok(Value::List(Items::from_vec(items)))
}

// A value, or null.
fn unless(is_null: bool, value: Value) -> Value {
    if is_null {
        return Value::Null;
    }
    value
}

// The row with this number. Some rows do not conform: in a struct of a list, or in the last column
// but one.
fn row_of(alloc: Global, row: usize) -> Result<Row, AllocError> {
    let truths = vec![in alloc; Value::Bool(true), Value::Null]?;
    let mut values = Vec::new(alloc);
    values.push(Value::Int(3))?;
    values.push(unless(row % 4 == 0, word(alloc, row % 6)?))?;
    values.push(unless(row % 7 == 0, structs(alloc, row % 4)?))?;
    values.push(unless(row % 3 == 0, Value::List(Items::from_vec(truths))))?;
    let width = if row % 10 == 9 { 2 } else { 3 };
    values.push(unless(row % 5 == 0, bytes(alloc, width)?))?;
    values.push(unless(row % 11 == 0, bytes(alloc, row % 23 * 7 % 23)?))?;
    Ok(Items::from_vec(values))
}

// The standard limits, with this number of bytes for a body.
fn limits_of(body: u64) -> Result<Limits, WriteFault> {
    let Limits {
        metadata,
        slots,
        fields,
        depth,
        text,
        pairs,
        ..
    } = Limits::standard();
    match Limits::new(metadata, body, slots, fields, depth, text, pairs) {
        Some(limits) => Ok(limits),
        None => Err(WriteFault::TooLong),
    }
}

fn start(alloc: Global, body: u64) -> Result<StreamWriter<Memory>, WriteFault> {
    let sink = Memory::new(Vec::new(alloc));
    Ok(StreamWriter::start(alloc, limits_of(body)?, sink, &schema(alloc)?)?)
}

// The stream of one batch with these rows.
fn written(alloc: Global, body: u64, rows: &[Row]) -> Result<Vec<u8>, WriteFault> {
    let mut batch = Vec::new(alloc);
    for row in rows {
        batch.push(row.clone()?)?;
    }
    let mut writer = start(alloc, body)?;
    writer.write_batch(&BatchRows::new(batch))?;
    Ok(writer.finish()?.into_bytes())
}

// Whether a batch with these rows is refused with this fault.
fn is_refused_with(
    alloc: Global,
    body: u64,
    rows: &[Row],
    fault: &WriteFault,
) -> Result<bool, WriteFault> {
    match written(alloc, body, rows) {
        Ok(_stream) => Ok(false),
        Err(other) => {
            if other == WriteFault::OutOfMemory {
                return Err(other);
            }
            Ok(other == *fault)
        }
    }
}

// Pushes all rows into a batch, and sends it. Returns the rows that were taken, or None if a row is
// refused with another fault than a batch of the rows before it and of this one.
fn push_rows(
    alloc: Global,
    body: u64,
    writer: &mut StreamWriter<Memory>,
) -> Result<Option<Vec<Row>>, WriteFault> {
    let mut rows = Vec::new(alloc);
    let mut batch = writer.batch(Items::new(alloc))?;
    for number in 0..ROWS {
        let row = row_of(alloc, number)?;
        let answer = batch.push(row.as_slice());
        rows.push(row)?;
        if let Err(fault) = answer {
            if !is_refused_with(alloc, body, &rows, &fault)? {
                return Ok(None);
            }
            let _refused = rows.pop();
        }
    }
    batch.send()?;
    Ok(Some(rows))
}

// The number of rows that a writer takes whose body may have this number of bytes. None if its
// refusals or its stream are not those of these rows alone.
fn count_taken(alloc: Global, body: u64) -> Result<Option<usize>, WriteFault> {
    let mut writer = start(alloc, body)?;
    let Some(rows) = push_rows(alloc, body, &mut writer)? else {
        return Ok(None);
    };
    let stream = writer.finish()?.into_bytes();
    let alone = written(alloc, body, &rows)?;
    if stream.as_slice() != alone.as_slice() {
        return Ok(None);
    }
    Ok(Some(rows.len()))
}

// The same number. No row is taken by a writer whose limits refuse a batch without rows.
fn rows_taken(alloc: Global, body: u64) -> Result<Option<usize>, WriteFault> {
    match count_taken(alloc, body) {
        Ok(count) => Ok(count),
        Err(fault) => {
            if fault == WriteFault::TooLong {
                return Ok(Some(0));
            }
            Err(fault)
        }
    }
}

// The limit of a body is met at each row, in each column. Six rows do not conform: 3, 9, 11, 15, 19
// and 23.
#[test]
fn refused_rows_leave_nothing(rt: HostRuntime) -> Result<(), Fail> {
    let mut counts = Vec::new(rt.alloc());
    for step in 0..160u64 {
        let taken = rows_taken(rt.alloc(), 8 * step)?;
        assert!(rt; taken.is_some(), "{step}");
        counts.push(taken)?;
    }
    assert!(rt; counts.first() == Some(&Some(0)) && counts.last() == Some(&Some(18)));
    Ok(())
}
