//! The positions of values that were noted recently.
use byteorder::{ByteOrder, LittleEndian};
use ipc_model::Value;
use std::alloc::{AllocError, Global};

// The number of positions that are kept for all dictionaries together. It is the number of values
// of the upper bits of a mixed sum.
const CACHE_SIZE: usize = 1 << 12;

const LOWER_BITS: u32 = 52;

// An odd number without a pattern, 2^64 divided by the golden ratio. The upper bits of a product by
// it depend on all bits of the sum.
const HASH_MULTIPLIER: u64 = 0x9E37_79B9_7F4A_7C15;

/// The positions in their dictionaries of values that were noted recently. A value's bytes lead to
/// one spot of the list, and several values may share it. So a position is a guess, and the caller
/// compares the value there. A value is found without its hash.
#[derive(Debug, Drop)]
pub(crate) struct RecentValues {
    places: Vec<usize>,
}

impl RecentValues {
    /// Creates it for this number of dictionaries. For 0 dictionaries it takes no memory.
    pub(crate) fn new(alloc: Global, dictionaries: usize) -> Result<RecentValues, AllocError> {
        let mut places = Vec::new(alloc);
        if dictionaries > 0 {
            places.resize(CACHE_SIZE, 0)?;
        }
        Ok(RecentValues { places })
    }

    /// Returns the position at which the value of a spot may be.
    #[inline(always)]
    pub(crate) fn place(&self, spot: usize) -> usize {
        self.places.get(spot).copied().unwrap_or(0)
    }

    /// Keeps the position of the value of a spot.
    #[inline(always)]
    pub(crate) fn keep(&mut self, spot: usize, place: usize) {
        if let Some(kept) = self.places.get_mut(spot) {
            *kept = place;
        }
    }
}

/// Returns the spot of a value of the dictionary with this number.
#[inline(always)]
pub(crate) fn slot_of_hash(dictionary: usize, value: &Value) -> usize {
    let sum = hash_of(value).wrapping_add(dictionary as u64);
    ((sum ^ (sum >> 32)).wrapping_mul(HASH_MULTIPLIER) >> LOWER_BITS) as usize
}

// A sum that is seldom equal for two values of a dictionary.
#[inline(always)]
fn hash_of(value: &Value) -> u64 {
    match value {
        Value::UInt(number) => *number,
        Value::Int(number) => number.unsigned_abs(),
        Value::Text(text) => hash_of_bytes(text.as_str().as_bytes()),
        Value::Bytes(bytes) => hash_of_bytes(bytes.as_slice()),
        _ => 0,
    }
}

// A sum of the first and the last eight bytes.
#[inline(always)]
fn hash_of_bytes(bytes: &[u8]) -> u64 {
    match bytes.len().checked_sub(8) {
        Some(last) => {
            let first = LittleEndian::read_u64(bytes).wrapping_mul(HASH_MULTIPLIER);
            first ^ LittleEndian::read_u64(&bytes[last..])
        }
        None => u64_of_bytes(bytes),
    }
}

// A few bytes as one number.
fn u64_of_bytes(bytes: &[u8]) -> u64 {
    let mut number = bytes.len() as u64;
    for byte in bytes {
        number = number << 8 | u64::from(*byte);
    }
    number
}
