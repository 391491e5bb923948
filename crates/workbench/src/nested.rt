//! Rows with a list and a struct, to measure what nesting costs.
use crate::values::{signed, spread, word};
use ipc_model::{DataType, Field, IntBits, Items, Row, Schema, Value};
use std::alloc::{AllocError, Global};

// The greatest number of values in a list.
const MOST: u16 = 3;

// The number of values in the list of a row.
fn length(number: u16) -> u16 {
    number % (MOST + 1)
}

fn list_field(alloc: Global) -> Result<Field, AllocError> {
    let item = Field::new(alloc, "item", signed(IntBits::B64))?;
    Ok(Field::new(alloc, "numbers", DataType::List)?.with_children(vec![in alloc; item]?))
}

fn struct_field(alloc: Global) -> Result<Field, AllocError> {
    let mut children = Vec::new(alloc);
    children.push(Field::new(alloc, "a", signed(IntBits::B32))?)?;
    children.push(Field::new(alloc, "b", DataType::Utf8)?)?;
    Ok(Field::new(alloc, "pair", DataType::Struct)?.with_children(children))
}

/// A list of numbers, and a struct of a number and a text.
pub fn nested_schema(alloc: Global) -> Result<Schema, AllocError> {
    Ok(Schema::new(vec![in alloc; list_field(alloc)?, struct_field(alloc)?]?))
}

// The number of a struct.
fn count(number: u16) -> Value {
    Value::Int(i64::from(number) * 31)
}

// A list of up to three values.
fn list(alloc: Global, number: u16) -> Result<Value, AllocError> {
    let mut numbers = Vec::with_capacity(alloc, usize::from(MOST))?;
    for place in 0..length(number) {
        numbers.push(Value::Int(spread(number, place)))?;
    }
    Ok(Value::List(Items::from_vec(numbers)))
}

// A number and a text.
fn pair(alloc: Global, number: u16) -> Result<Value, AllocError> {
    let mut pair = Vec::with_capacity(alloc, 2)?;
    pair.push(count(number))?;
    pair.push(Value::text(alloc, word(number))?)?;
    Ok(Value::Struct(Items::from_vec(pair)))
}

/// The row with this number.
pub fn nested_row(alloc: Global, number: u16) -> Result<Row, AllocError> {
    let mut row = Vec::with_capacity(alloc, 2)?;
    row.push(list(alloc, number)?)?;
    row.push(pair(alloc, number)?)?;
    Ok(Row::from(row))
}
