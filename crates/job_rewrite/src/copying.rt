//! Reads a stream batch by batch, and writes each batch as soon as it is read.
ghost use Rattle.std.specs.Prelude.{◌≡◌, ◌++◌, ℕ, List, [], IfErr, OnOk, Option, Some, false};
ghost use Rattle.std.specs.Prelude.{option_copied};
ghost use Rattle.ipc_model.specs.declared.limits.Limits.{Limits};
ghost use Rattle.ipc_model.specs.declared.schema.Schema.{Schema};
ghost use Rattle.ipc_model.specs.declared.table.Table.{Table};
ghost use Rattle.ipc_stream_read.specs.declared.end.End.TheVariants.{Closed, Mark};
ghost use Rattle.ipc_stream_read.specs.Held.{HeldInAll, HeldSoFar};
ghost use Rattle.ipc_stream_read.specs.Reader.{Reading};
ghost use Rattle.ipc_stream_read.specs.Reader.{Opens};
ghost use Rattle.ipc_stream_read.specs.Stream.{Denotes, OpensStream};
ghost use Rattle.job_expect.specs.Differences.{IsExpected};
ghost use Rattle.job_rewrite.specs.Outputs.{AppendsWithin, StartsOutput};
ghost use Rattle.job_rewrite.specs.RewriteLimits.{sent_limits};
ghost use Rattle.job_rewrite.specs.Reporting.{ReportsSentBatches};
ghost use Rattle.job_rewrite.specs.Rewriting.{AnswersExpected, AnswersRewrittenTable};
ghost use Rattle.job_rewrite.specs.Rewriting.{CopiesBatches, CountsRewriteFailures, IsHeld};
ghost use Rattle.job_rewrite.specs.Rewriting.{IsNoOther, RefusesOther, Rewrites};

use crate::bounded::Bounded;
use crate::limits::sent_limits;
use crate::options::{RewriteOptions, Total};
use crate::output::{Output, Written};
use crate::stop::RewriteStop;
use ipc_device::{Progress, Sink, Source};
use ipc_model::{Limits, Schema, WriteFault};
use ipc_stream::{Seed, StreamReader, StreamWriter};
use job_expect::first_difference;
use std::alloc::Global;

// Writes each batch that is read, and reports it then, up to the first one that would exceed a
// total, or to the end of the stream, which is F4 if it is not the mark that is required. Returns
// how many messages were read.
#[tactic(auto, using(crate::proofs::Batches::copied_none, crate::proofs::Batches::copied_more))]
fn copy_batches<R: Source, W: Sink, O: Output<W>, P: Progress>(
    options: RewriteOptions,
    stream: &mut StreamReader<R>,
    output: &mut O,
    progress: &mut P,
) -> Result<u64, RewriteStop>
    requires reading { stream.old.phase ≡ Reading }
    requires source { stream.old.failures ≡ 0 }
    requires works { (O.writer output.old).failed ≡ false }
    requires sink { (O.writer output.old).failures ≡ 0 }
    requires schema { (O.writer output.old).schema ≡ stream.old.schema }
    ensures copies { CopiesBatches options (O.room output.old) stream.old stream.new
        (O.writer output.old) (O.writer output.new) result }
    ensures works { OnOk result ((O.writer output.new).failed ≡ false) }
    ensures same { IsNoOther result }
    ensures devices { CountsRewriteFailures stream.old.failures stream.new.failures
        (O.writer output.old).failures (O.writer output.new).failures result }
    ensures within { AppendsWithin (O.room output.old) (O.writer output.old).written
        (O.writer output.new).written }
    ensures reports { (limits : Limits) (start : Option (List ℕ)) → Opens limits start stream.old
        → ReportsSentBatches limits start stream.new.remaining (P.reports progress.old)
        (P.reports progress.new) result }
    ensures held { (limits : Limits) (start : Option (List ℕ))
        → HeldSoFar limits options.max_held start stream.old
        → HeldInAll limits options.max_held start stream.new.remaining (IsHeld result) }
{
    let mut batches: u64 = 0;
    let mut rows: u64 = 0;
    loop {
        match stream.next_within(options.max_held) {
            Ok(Some((batch, pairs))) => {
                let more = batch.rows() as u64;
                if let Some(total) = options.total_above(batches, rows, more) {
                    return Err(RewriteStop::Above(total, batches));
                }
                match output.write(&batch, pairs)? {
                    Written::Whole => {}
                    Written::NoRoom => return Err(RewriteStop::Above(Total::Bytes, batches)),
                }
                batches = batches.saturating_add(1);
                rows = rows.saturating_add(more);
                progress.batch_done(stream.taken(), batches, rows);
                stream.reuse(batch);
            }
            Ok(None) => match stream.end().unwrap().check_mark(options.require_mark) {
                Ok(_) => return Ok(stream.messages()),
                Err(missing) => return Err(RewriteStop::Read(missing, stream.messages())),
            },
            Err(why) => return Err(RewriteStop::of_reading(why, stream.messages())),
        }
    }
}

// Writes the batches and the end of a stream whose schema was written, and gives the sink back.
fn copy_stream<R: Source, W: Sink, O: Output<W>, P: Progress>(
    options: RewriteOptions,
    stream: &mut StreamReader<R>,
    output: O,
    progress: &mut P,
) -> (Result<u64, RewriteStop>, W)
    requires reading { stream.old.phase ≡ Reading }
    requires source { stream.old.failures ≡ 0 }
    requires works { (O.writer output).failed ≡ false }
    requires sink { (O.writer output).failures ≡ 0 }
    requires schema { (O.writer output).schema ≡ stream.old.schema }
    ensures rewrites { (limits : Limits) (start written : Option (List ℕ)) (failures : ℕ)
        → Opens limits start stream.old
        → StartsOutput options.max_bytes (sent_limits options stream.old.limits)
        stream.old.schema written failures (O.writer output) (O.room output)
        → Rewrites options limits start stream.new.remaining written (W.written result.1) failures
        (W.failures result.1) result.0 }
    ensures handed_on { OnOk result.0 (W.held_back result.1 ≡ Some []) }
    ensures same { IsNoOther result.0 }
    ensures devices { CountsRewriteFailures stream.old.failures stream.new.failures
        (O.writer output).failures (W.failures result.1) result.0 }
    ensures within { (written : Option (List ℕ)) (failures : ℕ)
        → StartsOutput options.max_bytes (sent_limits options stream.old.limits)
        stream.old.schema written failures (O.writer output) (O.room output)
        → AppendsWithin options.max_bytes written (W.written result.1) }
    ensures reports { (limits : Limits) (start : Option (List ℕ)) → Opens limits start stream.old
        → ReportsSentBatches limits start stream.new.remaining (P.reports progress.old)
        (P.reports progress.new) result.0 }
    ensures held { (limits : Limits) (start : Option (List ℕ))
        → HeldSoFar limits options.max_held start stream.old
        → HeldInAll limits options.max_held start stream.new.remaining (IsHeld result.0) }
{
    let mut output = output;
    match copy_batches(options, stream, &mut output, progress) {
        Ok(messages) => match output.finish() {
            Ok(sink) => (Ok(messages), sink),
            Err((fault, sink)) => (Err(RewriteStop::Write(fault)), sink),
        },
        Err(stop) => (Err(stop), output.into_inner()),
    }
}

// Checks that the schema of a stream is the one that is expected, if there is one.
fn check_expected(
    alloc: Global,
    expected: Option<&Schema>,
    schema: &Schema,
) -> Result<(), RewriteStop>
    ensures same { OnOk result (IsExpected (option_copied expected.entry) schema.now) }
    ensures other { IfErr result (RefusesOther (option_copied expected.entry) schema.now) }
{
    match first_difference(alloc, expected, schema) {
        Ok(None) => Ok(()),
        Ok(Some(path)) => Err(RewriteStop::OtherSchema(path)),
        Err(_) => Err(RewriteStop::Write(WriteFault::OutOfMemory)),
    }
}

// Writes a stream whose schema was read, and is the one that is expected, if there is one. Gives
// the sink back.
fn rewrite_expected<R: Source, W: Sink, P: Progress>(
    alloc: Global,
    seed: Seed,
    options: RewriteOptions,
    stream: &mut StreamReader<R>,
    sink: W,
    progress: &mut P,
) -> (Result<u64, RewriteStop>, W)
    requires reading { stream.old.phase ≡ Reading }
    requires source { stream.old.failures ≡ 0 }
    ensures rewrites { (limits : Limits) (start : Option (List ℕ)) → Opens limits start stream.old
        → Rewrites options limits start stream.new.remaining (W.written sink)
        (W.written result.1) (W.failures sink) (W.failures result.1) result.0 }
    ensures handed_on { OnOk result.0 (W.held_back result.1 ≡ Some []) }
    ensures same { IsNoOther result.0 }
    ensures devices { CountsRewriteFailures stream.old.failures stream.new.failures
        (W.failures sink)
        (W.failures result.1) result.0 }
    ensures within { AppendsWithin options.max_bytes (W.written sink) (W.written result.1) }
    ensures reports { (limits : Limits) (start : Option (List ℕ)) → Opens limits start stream.old
        → ReportsSentBatches limits start stream.new.remaining (P.reports progress.old)
        (P.reports progress.new) result.0 }
    ensures held { (limits : Limits) (start : Option (List ℕ))
        → HeldSoFar limits options.max_held start stream.old
        → HeldInAll limits options.max_held start stream.new.remaining (IsHeld result.0) }
{
    let limits = sent_limits(&stream.limits(), options);
    let Some(most) = options.max_bytes else {
        return match StreamWriter::start_with_seed(alloc, seed, limits, sink, stream.schema()) {
            Ok(writer) => copy_stream(options, stream, writer, progress),
            Err((fault, sink)) => (Err(RewriteStop::Write(fault)), sink),
        };
    };
    match Bounded::start(alloc, seed, limits, most, sink, stream.schema()) {
        Ok(output) => copy_stream(options, stream, output, progress),
        Err((stop, sink)) => (Err(stop), sink),
    }
}

// Writes a stream whose schema was read, and gives the sink back.
fn rewrite_open<R: Source, W: Sink, P: Progress>(
    alloc: Global,
    seed: Seed,
    options: RewriteOptions,
    expected: Option<&Schema>,
    stream: &mut StreamReader<R>,
    sink: W,
    progress: &mut P,
) -> (Result<u64, RewriteStop>, W)
    requires reading { stream.old.phase ≡ Reading }
    requires source { stream.old.failures ≡ 0 }
    ensures rewrites { (limits : Limits) (start : Option (List ℕ)) → Opens limits start stream.old
        → Rewrites options limits start stream.new.remaining (W.written sink)
        (W.written result.1) (W.failures sink) (W.failures result.1) result.0 }
    ensures handed_on { OnOk result.0 (W.held_back result.1 ≡ Some []) }
    ensures expected { AnswersExpected (option_copied expected.entry) stream.old.schema
        (W.written sink) (W.written result.1) result.0 }
    ensures devices { CountsRewriteFailures stream.old.failures stream.new.failures
        (W.failures sink)
        (W.failures result.1) result.0 }
    ensures within { AppendsWithin options.max_bytes (W.written sink) (W.written result.1) }
    ensures reports { (limits : Limits) (start : Option (List ℕ)) → Opens limits start stream.old
        → ReportsSentBatches limits start stream.new.remaining (P.reports progress.old)
        (P.reports progress.new) result.0 }
    ensures held { (limits : Limits) (start : Option (List ℕ))
        → HeldSoFar limits options.max_held start stream.old
        → HeldInAll limits options.max_held start stream.new.remaining (IsHeld result.0) }
{
    if let Err(why) = check_expected(alloc, expected, stream.schema()) {
        return (Err(why), sink);
    }
    rewrite_expected(alloc, seed, options, stream, sink, progress)
}

/// Reads a stream from `source` and writes it to `sink` in canonical layout, with its schema, its
/// batches and the end-of-stream mark (Arrow Columnar Format, "IPC Streaming Format"). Returns
/// `source` and `sink` with the result: how many messages were read. A message after the end of the
/// stream would have this number.
///
/// The schema's message is sent as soon as it is read. Each batch is sent with its pairs and rows,
/// after the dictionaries that it needs, before the next one is read. One batch is kept at a time,
/// and of each dictionary the values that were sent. With `options.max_bytes`, the messages of a
/// batch are also in memory before the first is sent. What is read is within `limits`, and what is
/// written is within `sent_limits(&limits, options)`. After each batch that was written,
/// `progress` is called once; `()` ignores it.
///
/// The code hashes the values of dictionaries with `seed`; no clause says so. With a random seed
/// nobody who does not know it can choose values whose hashes collide.
///
/// With `options.require_mark`, a stream that ends without the end-of-stream mark is refused with
/// F4 and the number of the message after its last one. Its batches were sent then, and no mark.
///
/// Errors, after which the bytes that were written remain written:
///
/// - `RewriteStop::Read`: the stream is refused, as in `StreamReader`, with F1 to F37 except F35,
///   and with the number of the message. The schema's message has number 0.
/// - `RewriteStop::Write`: what was read is refused, as in `StreamWriter`, with W1 to W9 or W11. A
///   null in a field that is not nullable is read, and refused with W5. W11 also comes if memory
///   for the values of a batch ran out.
/// - `RewriteStop::Above`: with the next batch, what is written would exceed `options.max_batches`,
///   `options.max_rows` or, with the end-of-stream mark, `options.max_bytes`. Nothing of that batch
///   was sent, and no mark; the number is that of the batches before it.
/// - `RewriteStop::NoRoom`: the message of the schema and the end-of-stream mark would exceed
///   `options.max_bytes`. Nothing was sent.
/// - `RewriteStop::Held`: the bytes that came of the message with this number and the bodies of the
///   dictionaries in force, with the next part of the message, would exceed `options.max_held`.
///   Nothing more is taken from the source. All batches before were sent, and no mark.
/// - `RewriteStop::OtherSchema`: a schema is expected, and the stream has another one, as
///   `first_difference` compares them. Nothing was sent, and nothing after the schema's message was
///   read.
pub fn rewrite<R: Source, W: Sink, P: Progress>(
    alloc: Global,
    seed: Seed,
    options: RewriteOptions,
    limits: Limits,
    expected: Option<&Schema>,
    source: R,
    sink: W,
    progress: &mut P,
) -> (Result<u64, RewriteStop>, R, W)
    // At Ok what was taken denotes a table, with its mark if that is required, in the returned
    // number of messages, and what was sent is that table with the mark. At a fault, why reading or
    // writing broke off there, and the messages that were sent before. At a total, the batch that
    // would exceed it, and those before, which were sent and are within the totals.
    ensures rewrites { Rewrites options limits (R.remaining source) (R.remaining result.1)
        (W.written sink) (W.written result.2) (W.failures sink) (W.failures result.2) result.0 }
    // At Ok the sink holds nothing back.
    ensures handed_on { OnOk result.0 (W.held_back result.2 ≡ Some []) }
    // With devices that had not failed before, F36 and W9 are answered exactly where the source or
    // the sink failed in this call.
    ensures devices { CountsRewriteFailures (R.failures source) (R.failures result.1)
        (W.failures sink)
        (W.failures result.2) result.0 }
    // A table with its mark is written whatever follows it, or refused as it is by a writer, or
    // stopped at a total, unless memory runs out or the source fails.
    ensures marked { (x rest : List ℕ) (t : Table)
        → R.remaining source ≡ Some (x ++ rest) → Denotes limits x t Mark
        → R.failures result.1 ≡ 0
        → AnswersRewrittenTable options (sent_limits options limits) t (W.written sink)
        (W.written result.2) (W.failures sink) (W.failures result.2) result.0 }
    // So is one without a mark where nothing follows, if no mark is required.
    ensures closed { (x : List ℕ) (t : Table) → options.require_mark ≡ false
        → R.remaining source ≡ Some x → Denotes limits x t Closed → R.failures result.1 ≡ 0
        → AnswersRewrittenTable options (sent_limits options limits) t (W.written sink)
        (W.written result.2) (W.failures sink) (W.failures result.2) result.0 }
    // If a schema is expected and the source begins with the message of another one, nothing is
    // sent, whatever follows it. `OtherSchema` has the path of the first difference.
    ensures expected { (x rest : List ℕ) (s : Schema) → R.remaining source ≡ Some (x ++ rest)
        → OpensStream limits s x → AnswersExpected (option_copied expected.entry) s
        (W.written sink) (W.written result.2) result.0 }
    // What was sent has at most `options.max_bytes` bytes, whatever the result: the messages of the
    // schema, of dictionaries and of batches, and the end mark.
    ensures within { AppendsWithin options.max_bytes (W.written sink) (W.written result.2) }
    // Each batch that was read was reported once, in order, with the bytes taken up to it, and the
    // batches and rows so far. At `Write` the last one may have no report. That a report comes
    // after the messages of its batch is not stated.
    ensures reports { ReportsSentBatches limits (R.remaining source) (R.remaining result.1)
        (P.reports progress.old) (P.reports progress.new) result.0 }
    // After each byte that was taken, at most `options.max_held` bytes were held. At `Held` more
    // would be with the bytes up to the next decision on the message.
    ensures held { HeldInAll limits options.max_held (R.remaining source) (R.remaining result.1)
        (IsHeld result.0) }
{
    match StreamReader::open_within(alloc, limits, options.max_held, source) {
        Ok(stream) => {
            let mut stream = stream;
            let (result, sink) = rewrite_open(
                alloc,
                seed,
                options,
                expected,
                &mut stream,
                sink,
                progress,
            );
            (result, stream.into_inner(), sink)
        }
        Err((why, source)) => (Err(RewriteStop::of_reading(why, 0)), source, sink),
    }
}
