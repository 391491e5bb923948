//! Sinks that fail at each of their calls in turn or take few bytes, growths that are refused to
//! writers, and readers and writers of std as devices.

use crate::scripts::{Step, played, stream_of};
use crate::tables::{A, B, Column, NUMBERS, empty};
use ipc_device::Retry;
use ipc_model::{Limits, Table, WriteFault};
use ipc_stream::{Device, Limited, Sink, Source, write_table};
use std::alloc::{AllocError, Global};
use std::io;
use std::io::{ErrorKind, Read, Write};
use std::test::Fail;

// A column, and the steps of a writer.
type Script = (Column, &'static [Step<'static>]);

// Numbers in one call, row by row and from columns, and letters whose second batch replaces the
// dictionary.
const SCRIPTS: [Script; 5] = [
    (Column::Numbers, &[Step::Write(NUMBERS)]),
    (Column::Numbers, &[Step::PushPaired(NUMBERS)]),
    (Column::Numbers, &[Step::Columns(NUMBERS)]),
    (Column::Letters, &[Step::Write(A), Step::Push(B)]),
    (Column::Letters, &[Step::Columns(A), Step::Columns(B)]),
];

// The numbers of calls of a sink that takes one byte in each, until a writer has started, has taken
// each step, and has finished. The end mark takes eight calls, and the flush one.
fn ends((column, steps): Script, alloc: Global) -> Result<Vec<usize>, WriteFault> {
    let mut ends = Vec::new(alloc);
    for count in 0..=steps.len() {
        let begun = stream_of(alloc, column, steps.get(..count).unwrap_or_default())?;
        ends.push(begun.len().saturating_sub(8))?;
    }
    ends.push(ends.last().map_or(0, |end| end.saturating_add(9)))?;
    Ok(ends)
}

// The number of a writer's calls that end within this number of calls of its sink.
fn done_within(ends: &[usize], calls: usize) -> usize {
    let mut done = 0usize;
    for end in ends {
        done = done.saturating_add(usize::from(*end <= calls));
    }
    done
}

// Whether these are the faults of a writer that stopped in a call with the fault `first`, and
// returned W10 from each of `later` or more calls after it.
fn is_stopped(faults: &[WriteFault], first: &WriteFault, later: usize) -> bool {
    for fault in faults.get(1..).unwrap_or_default() {
        if *fault != WriteFault::Failed {
            return false;
        }
    }
    faults.len() > later && faults.first() == Some(first)
}

// The number of calls that follow the one in which a writer stopped after `done` calls: those of
// its later steps and its end. A writer that does not start has none.
fn later(done: usize, ends: &[usize]) -> usize {
    if done == 0 {
        0
    } else {
        ends.len().saturating_sub(done.saturating_add(1))
    }
}

// Whether a sink that takes at most `step` bytes in each of `calls` calls has the first `count`
// bytes of the whole stream, and each call of the writer returns what it should: W9 from the call
// in which the sink fails.
fn is_cut(
    alloc: Global,
    (step, calls): (usize, u64),
    (column, steps): Script,
    count: usize,
    (whole, ends): (&[u8], &[usize]),
) -> Result<bool, AllocError> {
    let sink = Limited::new(empty(alloc)?, step.max(1), calls);
    let (sink, done, faults) = played(alloc, Limits::standard(), sink, column, steps)?;
    let bytes = sink.into_inner().into_bytes();
    let calls = later(done, ends);
    let is_answered = if done == ends.len() {
        faults.is_empty()
    } else {
        faults.len() == calls.saturating_add(1) && is_stopped(&faults, &WriteFault::Write, calls)
    };
    Ok(
        is_answered
            && done == done_within(ends, count)
            && bytes.as_slice() == whole.get(..count).unwrap_or(whole),
    )
}

// The first number of calls of a sink after which a writer is not as it should be, if there is one.
// A sink that takes three bytes in each call gets the same bytes.
fn cut_otherwise(alloc: Global, script: Script) -> Result<Option<usize>, WriteFault> {
    let whole = stream_of(alloc, script.0, script.1)?;
    let ends = ends(script, alloc)?;
    for count in 0..=whole.len().saturating_add(1) {
        if !is_cut(alloc, (1, count as u64), script, count, (&whole, &ends))? {
            return Ok(Some(count));
        }
    }
    let takes_all = is_cut(alloc, (3, u64::MAX), script, usize::MAX, (&whole, &ends))?;
    Ok(if takes_all { None } else { Some(usize::MAX) })
}

// Whether a sink that takes one byte in each of `calls` calls has that many bytes of a table's
// stream, and the answer is W9 until the flush succeeds.
fn is_table_cut(
    alloc: Global,
    calls: usize,
    table: &Table,
    whole: &[u8],
) -> Result<bool, AllocError> {
    let mut sink = Limited::new(empty(alloc)?, 1, calls as u64);
    let answer = write_table(alloc, &Limits::standard(), &mut sink, table);
    let is_answered = match answer {
        Ok(()) => calls > whole.len(),
        Err(fault) => calls <= whole.len() && fault == WriteFault::Write,
    };
    let bytes = sink.into_inner().into_bytes();
    Ok(is_answered && bytes.as_slice() == whole.get(..calls).unwrap_or(whole))
}

// The first number of calls of a sink after which `write_table` is not as it should be, if there is
// one.
fn table_cut_otherwise(alloc: Global) -> Result<Option<usize>, WriteFault> {
    let table = Column::Numbers.table(alloc, NUMBERS, false)?;
    let whole = stream_of(alloc, Column::Numbers, &[Step::Write(NUMBERS)])?;
    for calls in 0..=whole.len().saturating_add(1) {
        if !is_table_cut(alloc, calls, &table, &whole)? {
            return Ok(Some(calls));
        }
    }
    Ok(None)
}

#[test]
fn sinks_that_fail_or_take_few_bytes(rt: HostRuntime) -> Result<(), Fail> {
    for (number, script) in SCRIPTS.iter().enumerate() {
        assert!(rt;
            cut_otherwise(rt.alloc(), *script)? == None,
            "script {number}"
        );
    }
    assert!(rt; table_cut_otherwise(rt.alloc())? == None);
    Ok(())
}

// Whether a stream is written whole. After a refused growth the sink must have nothing of that call
// and of the later ones, which return W10. Then the result is that refusal.
fn is_grown(
    alloc: Global,
    (column, steps): Script,
    (whole, ends): (&[u8], &[usize]),
) -> Result<bool, WriteFault> {
    let sink = empty(alloc)?;
    let (sink, done, faults) = played(alloc, Limits::standard(), sink, column, steps)?;
    let bytes = sink.into_bytes();
    if faults.is_empty() {
        return Ok(bytes.as_slice() == whole);
    }
    let out = if done == 0 {
        Some(&0)
    } else {
        ends.get(done - 1)
    };
    let is_out = Some(&bytes.len()) == out && whole.starts_with(&bytes);
    if is_out && is_stopped(&faults, &WriteFault::OutOfMemory, later(done, ends)) {
        return Err(WriteFault::OutOfMemory);
    }
    Ok(false)
}

#[test]
fn grows_written_batches(rt: HostRuntime) -> Result<(), Fail> {
    for (number, script) in SCRIPTS.iter().enumerate() {
        let whole = stream_of(rt.alloc(), script.0, script.1)?;
        let ends = ends(*script, rt.alloc())?;
        assert!(rt;
            is_grown(rt.alloc(), *script, (&whole, &ends))?,
            "script {number}"
        );
    }
    Ok(())
}

// A reader and writer of std. It moves at most three bytes in a call, fails once `writes_left` is
// 0, and counts its calls. Its flush succeeds or fails.
#[derive(Drop)]
struct Narrow {
    bytes: Vec<u8>,
    writes_left: u32,
    flushes: bool,
    calls: (u32, u32, u32),
}

fn broken() -> io::Error {
    io::Error::from(io::ErrorKind::Other)
}

impl Read for Narrow {
    fn read(&mut self, into: &mut [u8]) -> io::Result<usize> {
        self.calls.0 = self.calls.0.saturating_add(1);
        Ok(into.len().min(3))
    }
}

impl Write for Narrow {
    fn write(&mut self, bytes: &[u8]) -> io::Result<usize> {
        self.calls.1 = self.calls.1.saturating_add(1);
        if self.writes_left == 0 {
            return Err(broken());
        }
        self.writes_left -= 1;
        let count = bytes.len().min(3);
        match self.bytes.extend_from_slice(&bytes[..count]) {
            Ok(()) => Ok(count),
            Err(_) => Err(broken()),
        }
    }

    fn flush(&mut self) -> io::Result<()> {
        self.calls.2 = self.calls.2.saturating_add(1);
        if self.flushes { Ok(()) } else { Err(broken()) }
    }
}

fn device_of(alloc: Global, writes: u32, flushes: bool) -> Device<Narrow> {
    Device::new(Narrow {
        bytes: Vec::new(alloc),
        writes_left: writes,
        flushes,
        calls: (0, 0, 0),
    })
}

// The calls that a reader and writer gets for one read, two writes and three flushes of a device.
fn calls_of(alloc: Global) -> (u32, u32, u32) {
    let mut device = device_of(alloc, 5, true);
    let mut bytes = [0; 4];
    let _ = device.read(&mut bytes);
    for _ in 0..2 {
        let _ = device.write(&bytes);
    }
    for _ in 0..3 {
        let _ = device.flush();
    }
    device.into_inner().calls
}

// The number of writes that succeed, whether flushes do, and the number of bytes that are out. A
// flush that fails is W9, after all bytes.
const WRITERS: [(u32, bool, usize); 3] = [
    (u32::MAX, true, usize::MAX),
    (5, true, 15),
    (u32::MAX, false, usize::MAX),
];

fn device_has(
    alloc: Global,
    (writes, flushes, count): (u32, bool, usize),
    whole: &[u8],
) -> Result<bool, AllocError> {
    let device = device_of(alloc, writes, flushes);
    let (column, steps) = SCRIPTS[0];
    let (device, _done, faults) = played(alloc, Limits::standard(), device, column, steps)?;
    let bytes = device.into_inner().bytes;
    let is_answered = if writes == u32::MAX && flushes {
        faults.is_empty()
    } else {
        faults.as_slice() == [WriteFault::Write].as_slice()
    };
    Ok(is_answered && bytes.as_slice() == whole.get(..count).unwrap_or(whole))
}

// A device makes one call for each of its own, and fails where that does.
#[test]
fn readers_and_writers_of_std(rt: HostRuntime) -> Result<(), Fail> {
    assert!(rt; calls_of(rt.alloc()) == (1, 2, 3));
    let whole = stream_of(rt.alloc(), SCRIPTS[0].0, SCRIPTS[0].1)?;
    for writer in WRITERS {
        assert!(rt; device_has(rt.alloc(), writer, &whole)?);
    }
    Ok(())
}

// A reader and writer of std that fails with this kind of error at its first calls. After them, a
// read is at its end.
#[derive(Drop)]
struct Moody {
    kind: ErrorKind,
    failures: u32,
}

impl Moody {
    fn answer(&mut self) -> io::Result<()> {
        if self.failures == 0 {
            return Ok(());
        }
        self.failures -= 1;
        Err(io::Error::from(self.kind))
    }
}

impl Read for Moody {
    fn read(&mut self, _into: &mut [u8]) -> io::Result<usize> {
        self.answer()?;
        Ok(0)
    }
}

impl Write for Moody {
    fn write(&mut self, bytes: &[u8]) -> io::Result<usize> {
        self.answer()?;
        Ok(bytes.len())
    }

    fn flush(&mut self) -> io::Result<()> {
        self.answer()
    }
}

fn failure<T: Drop>(answer: io::Result<T>) -> Option<ErrorKind> {
    match answer {
        Ok(_) => None,
        Err(error) => Some(error.kind()),
    }
}

// The errors of a read, a write and a flush, where each reader and writer fails so often at first.
fn failures_of(kind: ErrorKind, failures: u32) -> [Option<ErrorKind>; 3] {
    let mut bytes = [0; 4];
    [
        failure(Retry::new(Moody { kind, failures }).read(&mut bytes)),
        failure(Retry::new(Moody { kind, failures }).write(&bytes)),
        failure(Retry::new(Moody { kind, failures }).flush()),
    ]
}

// A call that a signal interrupts is repeated, and any other error is returned at once.
#[test]
fn interrupted_calls(rt: HostRuntime) -> Result<(), Fail> {
    assert!(rt; failures_of(ErrorKind::Interrupted, 5) == [None; 3]);
    for kind in [
        ErrorKind::Other,
        ErrorKind::WouldBlock,
        ErrorKind::BrokenPipe,
    ] {
        assert!(rt; failures_of(kind, 1) == [Some(kind); 3]);
    }
    Ok(())
}
