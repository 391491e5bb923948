//! What a reader answers by calls: at a source that fails at each of its calls in turn, after that
//! and after the end. What it answers to streams is in `cases/`.

use crate::pieces::{STREAM, nullable_stream};
use crate::tables::{Column, NUMBERS};
use ipc_model::{Fault, Limits, Table};
use ipc_stream::{End, Failed, Limited, Memory, Source, StreamReader, read_table};
use std::alloc::{AllocError, Global};
use std::test::Fail;

// A source that counts its calls.
#[derive(Drop)]
struct Counted<D> {
    inner: D,
    calls: u64,
}

impl<D: Source> Source for Counted<D> {
    ghost remaining = { λ s. D.remaining s.inner };

    ghost failures = { λ s. D.failures s.inner };

    ghost bound = { λ s. D.bound s.inner };

    fn read(&mut self, into: &mut [u8]) -> Result<usize, Failed> {
        self.calls = self.calls.saturating_add(1);
        self.inner.read(into)
    }
}

type Tested = Counted<Limited<Memory>>;

// The result of a call for the next batch: the number of its rows.
type NextResult = Result<Option<usize>, Fault>;

fn rows_of_next(reader: &mut StreamReader<Tested>) -> NextResult {
    match reader.next()? {
        Some((batch, _)) => Ok(Some(batch.rows())),
        None => Ok(None),
    }
}

// The results of three such calls, how the stream ended, and the numbers of bytes and messages
// taken and of calls of the source. Or the fault of `open`, and the number of calls.
type ReaderResults = Result<([NextResult; 3], Option<End>, u64, u64, u64), (Fault, u64)>;

// What a reader returns for a source of these bytes that gives one byte in each of `calls` calls.
fn reader_results(alloc: Global, bytes: Vec<u8>, calls: u64) -> ReaderResults {
    let inner = Limited::new(Memory::new(bytes), 1, calls);
    match StreamReader::open(alloc, Limits::standard(), Counted { inner, calls: 0 }) {
        Ok(mut reader) => {
            let said = [
                rows_of_next(&mut reader),
                rows_of_next(&mut reader),
                rows_of_next(&mut reader),
            ];
            let (end, taken, messages) = (reader.end(), reader.taken(), reader.messages());
            Ok((said, end, taken, messages, reader.into_inner().calls))
        }
        Err((fault, source)) => Err((fault, source.calls)),
    }
}

// What it should return: the schema has 120 bytes, the batch 160, and the mark 8. The source is not
// called again after a failed call, and not after the mark.
fn wanted(calls: u64) -> ReaderResults {
    let failed = Err(Fault::Failed);
    let asked = calls.saturating_add(1);
    match calls {
        0..=119 => Err((Fault::Read, asked)),
        120..=279 => Ok(([Err(Fault::Read), failed, failed], None, calls, 1, asked)),
        280..=287 => Ok((
            [Ok(Some(3)), Err(Fault::Read), failed],
            None,
            calls,
            2,
            asked,
        )),
        _ => Ok((
            [Ok(Some(3)), Ok(None), Ok(None)],
            Some(End::Mark),
            288,
            2,
            288,
        )),
    }
}

// The first number of calls for which a reader returns something else, if there is one.
fn first_difference(alloc: Global, bytes: &[u8]) -> Result<Option<u64>, AllocError> {
    for calls in 0..=289 {
        if reader_results(alloc, Vec::from_slice(alloc, bytes)?, calls) != wanted(calls) {
            return Ok(Some(calls));
        }
    }
    Ok(None)
}

// Whether the stream's table is read from a source that gives at most `step` bytes in each call.
fn is_read(alloc: Global, step: usize, table: &Table) -> Result<bool, Fault> {
    let memory = Memory::new(Vec::from_slice(alloc, &STREAM)?);
    let mut source = Limited::new(memory, step.max(1), u64::MAX);
    let (read, end) = read_table(alloc, &Limits::standard(), &mut source)?;
    Ok(read.is_same(table) && end == End::Mark)
}

// The first step by which something else is read, if there is one.
fn read_otherwise(alloc: Global, table: &Table) -> Result<Option<usize>, Fault> {
    for step in 1..=STREAM.len() {
        if !is_read(alloc, step, table)? {
            return Ok(Some(step));
        }
    }
    Ok(None)
}

#[test]
fn sources_that_fail_or_give_few_bytes(rt: HostRuntime) -> Result<(), Fail> {
    let bytes = nullable_stream(rt.alloc())?;
    let table = Column::Numbers.table(rt.alloc(), NUMBERS, false)?;
    assert!(rt; first_difference(rt.alloc(), &bytes)? == None);
    assert!(rt; read_otherwise(rt.alloc(), &table)? == None);
    Ok(())
}
