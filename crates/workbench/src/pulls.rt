//! Reads a stream by a `StreamReader`, and drops each batch.
use ipc_model::{Fault, Limits};
use ipc_stream::{Device, Source, StreamReader};
use std::alloc::Global;
use std::io::Read;

/// What was read from a stream.
#[derive(Clone, Copy)]
pub struct Counts {
    /// The number of batches.
    pub batches: u64,
    /// The number of their rows.
    pub rows: u64,
}

// Reads all remaining batches.
fn pull<R: Source>(reader: &mut StreamReader<R>) -> Result<Counts, Fault> {
    let mut counts = Counts {
        batches: 0,
        rows: 0,
    };
    while let Some((batch, _pairs)) = reader.next()? {
        counts.batches = counts.batches.saturating_add(1);
        counts.rows = counts.rows.saturating_add(batch.rows() as u64);
    }
    Ok(counts)
}

/// Reads a stream to its end, and returns the counts.
pub fn pull_stream<R: Read + Drop>(alloc: Global, input: R) -> Result<Counts, Fault> {
    pull(&mut StreamReader::open(alloc, Limits::standard(), Device::new(input))?)
}
