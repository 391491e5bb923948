//! Jobs of the command between devices that fail at each of their calls in turn.
ghost use Rattle.std.specs.Prelude.{IfOk};
ghost use Rattle.job_arguments.specs.Arguments.{HasGoodSize};

use ipc_model::Limits;
use ipc_stream::{Limited, Memory, Seed};
use job_arguments::{CsvDialect, Invocation, Job, OutputLimits};
use job_command::{Counted, LastReport, run};
use std::alloc::{AllocError, Global};
use std::test::Fail;

// The stream of samples/int32.arrows: a schema of 120 bytes, a batch of 160, and the end mark.
const STREAM: [u8; 288] = [
    255, 255, 255, 255, 112, 0, 0, 0, 16, 0, 0, 0, 10, 0, 12, 0, 8, 0, 10, 0, 4, 0, 0, 0, 12, 0, 0,
    0, 16, 0, 0, 0, 4, 0, 1, 0, 8, 0, 8, 0, 0, 0, 4, 0, 8, 0, 0, 0, 4, 0, 0, 0, 1, 0, 0, 0, 16, 0,
    0, 0, 12, 0, 16, 0, 4, 0, 12, 0, 13, 0, 8, 0, 12, 0, 0, 0, 12, 0, 0, 0, 24, 0, 0, 0, 1, 2, 0,
    0, 1, 0, 0, 0, 97, 0, 0, 0, 8, 0, 12, 0, 4, 0, 8, 0, 8, 0, 0, 0, 32, 0, 0, 0, 1, 0, 0, 0, 0, 0,
    0, 0, 255, 255, 255, 255, 128, 0, 0, 0, 16, 0, 0, 0, 12, 0, 20, 0, 16, 0, 18, 0, 4, 0, 8, 0,
    12, 0, 0, 0, 28, 0, 0, 0, 24, 0, 0, 0, 0, 0, 0, 0, 4, 0, 3, 0, 10, 0, 20, 0, 8, 0, 4, 0, 16, 0,
    0, 0, 12, 0, 0, 0, 16, 0, 0, 0, 3, 0, 0, 0, 0, 0, 0, 0, 28, 0, 0, 0, 1, 0, 0, 0, 3, 0, 0, 0, 0,
    0, 0, 0, 1, 0, 0, 0, 0, 0, 0, 0, 0, 0, 0, 0, 2, 0, 0, 0, 0, 0, 0, 0, 0, 0, 0, 0, 1, 0, 0, 0, 0,
    0, 0, 0, 8, 0, 0, 0, 0, 0, 0, 0, 12, 0, 0, 0, 0, 0, 0, 0, 5, 0, 0, 0, 0, 0, 0, 0, 1, 0, 0, 0,
    0, 0, 0, 0, 3, 0, 0, 0, 0, 0, 0, 0, 255, 255, 255, 255, 0, 0, 0, 0,
];

const SCHEMA: &str = "{\"fields\":[{\"children\":0,\"dictionary\":null,\"metadata\":[],\
\"name\":\"a\",\"nullable\":true,\"type\":[\"int\",32]}],\"metadata\":[]}";

const RECORDS: &[u8] = b"a\n1\n\\N\n3\n";

// The job of a case.
#[derive(Clone, Copy)]
enum JobKind {
    Schema,
    Check,
    Show,
    ToCsv,
    Rewrite,
    RewriteBounded,
    FromCsv,
}

// A job, its input, the fewest calls that read it, how often its output is flushed, and the whole
// output if it is a text. A text is flushed before the first batch, after each batch, and at the
// end.
type Case = (JobKind, &'static [u8], u64, u64, Option<&'static [u8]>);

const CASES: [Case; 7] = [
    (
        JobKind::Schema,
        &STREAM,
        120,
        1,
        Some(
            b"{\"fields\":[{\"children\":0,\"dictionary\":null,\
\"metadata\":[],\"name\":\"a\",\"nullable\":true,\"type\":[\"int\",32]}],\"metadata\":[]}\n",
        ),
    ),
    (
        JobKind::Check,
        &STREAM,
        288,
        3,
        Some(
            b"{\"fields\":[{\"children\":0,\"dictionary\":null,\
\"metadata\":[],\"name\":\"a\",\"nullable\":true,\"type\":[\"int\",32]}],\"metadata\":[]}\n\
mark 288 bytes 1 batches 3 rows\n",
        ),
    ),
    (JobKind::Show, &STREAM, 288, 3, Some(b"[1]\n[null]\n[3]\n")),
    (JobKind::ToCsv, &STREAM, 288, 3, Some(RECORDS)),
    (JobKind::Rewrite, &STREAM, 288, 1, None),
    (JobKind::RewriteBounded, &STREAM, 288, 1, None),
    (JobKind::FromCsv, RECORDS, 10, 1, None),
];

// The standard dialect of CSV.
fn commas(alloc: Global) -> Result<CsvDialect, AllocError> {
    match CsvDialect::new(b',', String::from_str(alloc, "\\N")?) {
        Some(dialect) => Ok(dialect),
        None => Err(AllocError),
    }
}

// A job that writes a stream anew, in at most this number of bytes.
fn rewriting(limits: Limits, bytes: Option<u64>) -> Job
    ensures { HasGoodSize result }
{
    Job::Rewrite {
        limits,
        output: OutputLimits {
            body: None,
            batches: None,
            rows: None,
            bytes,
        },
        require_mark: true,
    }
}

fn job_of(alloc: Global, asked: JobKind) -> Result<Job, AllocError>
    ensures { IfOk result HasGoodSize }
{
    let limits = Limits::standard();
    Ok(match asked {
        JobKind::Schema => Job::Schema(limits),
        JobKind::Check => Job::Check {
            limits,
            require_mark: true,
        },
        JobKind::Show => Job::Show {
            limits,
            objects: false,
            pairs: false,
            limit: None,
            require_mark: true,
        },
        JobKind::ToCsv => Job::ToCsv {
            limits,
            dialect: commas(alloc)?,
            limit: None,
            require_mark: true,
        },
        JobKind::Rewrite => rewriting(limits, None),
        JobKind::RewriteBounded => rewriting(limits, Some(1_000)),
        JobKind::FromCsv => Job::FromCsv {
            schema: String::new(alloc),
            batch: 2,
            batch_bytes: None,
            dialect: commas(alloc)?,
            strict: false,
        },
    })
}

// A device of which `calls` calls succeed. It moves one byte in each, or any number if none fails.
fn limited(bytes: Vec<u8>, calls: u64) -> Limited<Memory> {
    let step = if calls == u64::MAX { usize::MAX } else { 1 };
    Limited::new(Memory::new(bytes), step, calls)
}

// The status, the output and the messages of a job, by the calls of its input and output that
// succeed.
fn done(
    alloc: Global,
    asked: JobKind,
    input: &[u8],
    (reads, writes): (u64, u64),
) -> Result<(u8, Vec<u8>, Vec<u8>), AllocError> {
    let schema = Memory::new(Vec::from_slice(alloc, SCHEMA.as_bytes())?);
    let input = limited(Vec::from_slice(alloc, input)?, reads);
    let sink = limited(Vec::new(alloc), writes);
    let mut messages = Memory::new(Vec::new(alloc));
    let mut summary = Memory::new(Vec::new(alloc));
    let job = job_of(alloc, asked)?;
    let asked = Invocation {
        job,
        explain: false,
        progress: false,
        require_eof: false,
        expect: None,
        max_held: None,
        label: String::new(alloc),
        summary: false,
    };
    let schema = Some(schema);
    let (status, _, sink, _) = run(
        alloc,
        Seed::Fixed,
        asked,
        schema,
        Counted::new(input),
        Counted::new(sink),
        &mut LastReport::new(()),
        &mut messages,
        &mut summary,
    );
    Ok((
        status,
        sink.into_inner().into_inner().into_bytes(),
        messages.into_bytes(),
    ))
}

// The line of a job whose input fails after this number of bytes.
fn line_of(asked: JobKind, bytes: u64) -> &'static str {
    match (asked, bytes) {
        (JobKind::FromCsv, _) => "F36 Read\n",
        (_, 0..=119) => "F36 Read at message 0\n",
        (_, 120..=279) => "F36 Read at message 1\n",
        _ => "F36 Read at message 2\n",
    }
}

// The number of calls of its input that a job needs. None if with fewer it does not stop as it
// should, or with these it does not do all.
fn reads(alloc: Global, case: Case, whole: &[u8]) -> Result<Option<u64>, AllocError> {
    let (asked, input, _, _, _) = case;
    for calls in 0..300 {
        let (status, output, messages) = done(alloc, asked, input, (calls, u64::MAX))?;
        if status == 0 {
            let is_done = output.as_slice() == whole && messages.is_empty();
            return Ok(if is_done { Some(calls) } else { None });
        }
        let is_told = messages.as_slice() == line_of(asked, calls).as_bytes();
        if status != 3 || !is_told || !whole.starts_with(&output) {
            return Ok(None);
        }
    }
    Ok(None)
}

// The number of calls of its output that a job needs: one for each byte and each flush. None if
// with fewer it does not stop as it should, or with these it does not do all.
fn writes(alloc: Global, case: Case, whole: &[u8]) -> Result<Option<u64>, AllocError> {
    let (asked, input, _, _, _) = case;
    for calls in 0..1000 {
        let (status, output, messages) = done(alloc, asked, input, (u64::MAX, calls))?;
        if status == 0 {
            let is_done = output.as_slice() == whole && messages.is_empty();
            return Ok(if is_done { Some(calls) } else { None });
        }
        let is_told = messages.as_slice() == b"W9 Write\n".as_slice();
        if status != 3 || !is_told || !whole.starts_with(&output) {
            return Ok(None);
        }
    }
    Ok(None)
}

// Whether a job stops as it should at each call of its input and of its output, and the whole
// output is the wanted one. The input is read to its last byte at least, and the output is flushed
// as often as the case says.
fn stops(alloc: Global, case: Case) -> Result<bool, AllocError> {
    let (asked, input, least, flushes, wanted) = case;
    let (status, whole, _) = done(alloc, asked, input, (u64::MAX, u64::MAX))?;
    let calls = writes(alloc, case, &whole)?.unwrap_or(0);
    let is_flushed = calls.checked_sub(whole.len() as u64) == Some(flushes);
    let is_wanted = status == 0 && whole.as_slice() == wanted.unwrap_or(whole.as_slice());
    let is_read = matches!(reads(alloc, case, &whole)?, Some(calls) if calls >= least);
    Ok(is_flushed && is_wanted && is_read)
}

#[test]
fn jobs(rt: HostRuntime) -> Result<(), Fail> {
    for (number, case) in CASES.iter().enumerate() {
        assert!(rt; stops(rt.alloc(), *case)?, "job {number}");
    }
    Ok(())
}
