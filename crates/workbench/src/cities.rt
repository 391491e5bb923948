//! Texts with a dictionary, to measure how a column of indices is pushed.
use ipc_model::{DataType, Dictionary, Field, IndexType, IntBits, Row, Schema, Value};
use std::alloc::{AllocError, Global};

const SIDES: [&str; 4] = ["north", "south", "east", "west"];

// The number of cities.
const CITIES: u16 = 1000;

/// One nullable column of texts, with signed indices of 16 bits.
pub fn schema_of_cities(alloc: Global) -> Result<Schema, AllocError> {
    let index = IndexType {
        bits: IntBits::B16,
        signed: true,
    };
    let dictionary = Dictionary {
        id: 0,
        index,
        ordered: false,
    };
    let city = Field::new(alloc, "city", DataType::Utf8)?.nullable();
    Ok(Schema::new(vec![in alloc; city.with_dictionary(dictionary)]?))
}

/// The row with this number: null for one of twenty, or else one of a thousand texts of about ten
/// bytes.
pub fn row_of_city(alloc: Global, number: u16) -> Result<Row, AllocError> {
    if number % 20 == 7 {
        return Ok(Row::from(vec![in alloc; Value::Null]?));
    }
    let city = number % CITIES;
    let side = SIDES[usize::from(city) % SIDES.len()];
    let name = format!(in alloc; "city-{side}{city}")?;
    Ok(Row::from(vec![in alloc; Value::text(alloc, name.as_str())?]?))
}
