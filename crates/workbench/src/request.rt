//! The request in a line.
use anyhow::{Context, Result};
use ipc_model::Limits;
use std::alloc::Global;

/// A stream, and the limits under which it is read.
#[derive(Drop)]
pub struct Request {
    /// The bytes of the stream.
    pub stream: Vec<u8>,
    /// The standard limits, except those that the line sets.
    pub limits: Limits,
}

// The names of the limits, in the order of their values.
const NAMES: [&str; 7] = [
    "metadata", "body", "slots", "fields", "depth", "text", "pairs",
];

fn place_of(name: &str) -> Option<usize> {
    NAMES.iter().position(|known| *known == name)
}

// These limits with another value for the one with this name, or `None` if there is no such limit
// or the value is above the greatest.
fn with(limits: Limits, name: &str, value: u64) -> Option<Limits> {
    let mut values = [
        limits.metadata,
        limits.body,
        limits.slots,
        limits.fields,
        limits.depth,
        limits.text,
        limits.pairs,
    ];
    *values.get_mut(place_of(name)?)? = value;
    let [metadata, body, slots, fields, depth, text, pairs] = values;
    Limits::new(metadata, body, slots, fields, depth, text, pairs)
}

// These limits with one that is set as in `metadata 39`.
fn set(limits: Limits, setting: &str) -> Option<Limits> {
    let (name, value) = setting.split_once(' ')?;
    with(limits, name, value.parse::<u64>().ok()?)
}

impl Request {
    /// The request in a line: a stream in hexadecimal digits, followed by the limits that it sets,
    /// as in `ffffffff00000000, metadata 39, slots 3`.
    pub fn of(alloc: Global, line: &str) -> Result<Request> {
        let mut limits = Limits::standard();
        let mut parts = line.split(", ");
        let digits = parts.next().unwrap_or("");
        let stream = hex::decode(alloc, digits).context("a stream that isn't hexadecimal")?;
        for setting in parts {
            limits = set(limits, setting).context("a limit that isn't known, or is too great")?;
        }
        Ok(Request { stream, limits })
    }
}
