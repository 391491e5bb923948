//! Parts of fields and values.
use ipc_model::{DataType, IntBits};

const WORDS: [&str; 8] = [
    "a",
    "Bern",
    "copper",
    "",
    "électricité",
    "f,g",
    "hexadecimal text of some length",
    "i",
];

/// The type of signed integers of this width.
pub fn signed(bits: IntBits) -> DataType {
    DataType::Int { bits, signed: true }
}

/// A short text that depends on a number.
pub fn word(number: u16) -> &'static str {
    WORDS[usize::from(number) % WORDS.len()]
}

/// A number of any length that depends on a number and a place.
pub fn spread(number: u16, place: u16) -> i64 {
    let mut value = i64::from(number);
    for _ in 0..place {
        value = value.wrapping_mul(-65_599);
    }
    value
}
