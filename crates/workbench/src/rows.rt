//! Schemas and their rows, to measure writing.
use crate::cities::{row_of_city, schema_of_cities};
use crate::nested::{nested_row, nested_schema};
use crate::values::{signed, spread, word};
use ipc_model::{DataType, Field, IntBits, Row, Schema, Text, TimeUnit, Value};
use std::alloc::{AllocError, Global};

/// What the rows contain.
#[derive(Clone, Copy)]
pub enum Data {
    /// Four required columns of signed 64-bit integers.
    Numbers,
    /// Numbers of two widths, texts, booleans and timestamps, most of them nullable.
    Mixed,
    /// One nullable column of texts with a dictionary.
    Cities,
    /// A list of signed 64-bit integers, and a struct of a number and a text.
    Nested,
}

impl Data {
    /// The data with this name.
    pub fn of(word: &str) -> Option<Data> {
        match word {
            "i64" => Some(Data::Numbers),
            "mixed" => Some(Data::Mixed),
            "dictionary" => Some(Data::Cities),
            "nested" => Some(Data::Nested),
            _ => None,
        }
    }

    /// The schema of the rows.
    pub fn schema(self, alloc: Global) -> Result<Schema, AllocError> {
        match self {
            Data::Numbers => schema_of_numbers(alloc),
            Data::Mixed => mixed_schema(alloc),
            Data::Cities => schema_of_cities(alloc),
            Data::Nested => nested_schema(alloc),
        }
    }

    /// The row with this number.
    pub fn row(self, alloc: Global, number: u16) -> Result<Row, AllocError> {
        match self {
            Data::Numbers => row_of_numbers(alloc, number),
            Data::Mixed => mixed_row(alloc, number),
            Data::Cities => row_of_city(alloc, number),
            Data::Nested => nested_row(alloc, number),
        }
    }
}

fn schema_of_numbers(alloc: Global) -> Result<Schema, AllocError> {
    let mut fields = Vec::new(alloc);
    for name in ["a", "b", "c", "d"] {
        fields.push(Field::new(alloc, name, signed(IntBits::B64))?)?;
    }
    Ok(Schema::new(fields))
}

// Numbers of all lengths.
fn row_of_numbers(alloc: Global, number: u16) -> Result<Row, AllocError> {
    let mut values = Vec::with_capacity(alloc, 4)?;
    for place in 0..4 {
        values.push(Value::Int(spread(number, place)))?;
    }
    Ok(Row::from(values))
}

// A timestamp with a timezone.
fn zoned(alloc: Global) -> Result<DataType, AllocError> {
    Ok(DataType::Timestamp {
        unit: TimeUnit::Microsecond,
        timezone: Some(Text::copied(alloc, "UTC")?),
    })
}

// The names of the mixed columns. All but the first are nullable.
const MIXED: [&str; 5] = ["id", "count", "name", "flag", "at"];

fn mixed_type(alloc: Global, place: usize) -> Result<DataType, AllocError> {
    match place {
        0 => Ok(signed(IntBits::B64)),
        1 => Ok(signed(IntBits::B32)),
        2 => Ok(DataType::Utf8),
        3 => Ok(DataType::Bool),
        _ => zoned(alloc),
    }
}

fn mixed_schema(alloc: Global) -> Result<Schema, AllocError> {
    let mut fields = Vec::new(alloc);
    for (place, name) in MIXED.iter().enumerate() {
        let mut field = Field::new(alloc, name, mixed_type(alloc, place)?)?;
        field.nullable = place > 0;
        fields.push(field)?;
    }
    Ok(Schema::new(fields))
}

// The value of a row at a place. All places but the first are null in some rows.
fn mixed_value(alloc: Global, number: u16, place: usize) -> Result<Value, AllocError> {
    let long = i64::from(number);
    match place {
        0 => Ok(Value::Int(spread(number, 2))),
        1 if number % 7 != 0 => Ok(Value::Int(long * 31)),
        2 if number % 5 != 0 => Value::text(alloc, word(number)),
        3 if number % 11 != 0 => Ok(Value::Bool(number % 2 == 0)),
        4 if number % 13 != 0 => Ok(Value::Int(long * 86_400_000_000)),
        _ => Ok(Value::Null),
    }
}

fn mixed_row(alloc: Global, number: u16) -> Result<Row, AllocError> {
    let mut values = Vec::with_capacity(alloc, MIXED.len())?;
    for place in 0..MIXED.len() {
        values.push(mixed_value(alloc, number, place)?)?;
    }
    Ok(Row::from(values))
}
