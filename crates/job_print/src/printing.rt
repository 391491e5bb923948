//! A stream is read, and its rows are printed as they come.
ghost use Rattle.std.specs.Prelude.{◌≡◌, ◌++◌, ◌∷◌, ℕ, List, [], length, Some, IfErr, IfOk, OnOk};
ghost use Rattle.std.specs.Prelude.{decimal, None, Ok, Option, OnErr, false, option_copied};
ghost use Rattle.ipc_stream_read.specs.Stream.{Denotes, OpensStream};
ghost use Rattle.ipc_stream_read.specs.declared.end.End.TheVariants.{Closed, Mark};
ghost use Rattle.ipc_stream_read.specs.Held.{HeldInAll, HeldSoFar};
ghost use Rattle.ipc_stream_read.specs.Reader.{Reading};
ghost use Rattle.ipc_stream_read.specs.Reader.{Opens};
ghost use Rattle.ipc_model.specs.declared.limits.Limits.{Limits};
ghost use Rattle.ipc_model.specs.declared.schema.Schema.{Schema};
ghost use Rattle.ipc_model.specs.declared.table.Table.{Table};
ghost use Rattle.ipc_text_csv.specs.RowCsv.{unless_fault};
ghost use Rattle.ipc_text_json.specs.SchemaJson.{schema_text};
ghost use Rattle.job_expect.specs.Differences.{IsExpected};
ghost use Rattle.job_print.specs.Forms.{counts_text, form_fault, front_text};
ghost use Rattle.job_print.specs.Output.{output, PrintsAs};
ghost use Rattle.job_print.specs.Reporting.{ReportsPrintedBatches, ReportsOutcome};
ghost use Rattle.job_print.specs.Streams.{AnswersFirst, AnswersPrintedTable, IsReadToEnd, Prints};
ghost use Rattle.job_print.specs.Streams.{PrintsAll, PrintsBatches, PrintsSome, PrintsStream};
ghost use Rattle.job_print.specs.Streams.{ReachesLimit, CountsPrintFailures, outcome_tail};
ghost use Rattle.job_print.specs.Streams.{AnswersExpected, EndsHeld, IsHeld, RefusesOther};
ghost use Rattle.job_print.specs.Streams.{write_fault};

use crate::batch_text::print_batch;
use crate::form::{Form, PrintOptions, count_wanted, has_reached};
use crate::line_buffer::{LineBuffer, PrintFault};
use crate::stop::{Outcome, PrintCounts, PrintStop};
use ipc_device::{Progress, Sink, Source};
use ipc_model::{Fault, Limits, Schema, WriteFault};
use ipc_stream_read::{End, ReadStop, StreamReader};
use ipc_text_csv::{check_flat, csv_header};
use ipc_text_json::schema_json;
use ipc_text_temporal::{TextFault, push_number};
use job_expect::first_difference;
use std::alloc::{AllocError, Global};

// Prints the rows of a stream up to the limit, and returns how that ended. The text of each batch
// is sent before the next one is read, and the batch is reported then.
fn print_batches<R: Source, W: Sink, P: Progress>(
    alloc: Global,
    options: PrintOptions<'_>,
    stream: &mut StreamReader<R>,
    lines: &mut LineBuffer,
    sink: &mut W,
    progress: &mut P,
) -> Result<Outcome, PrintFault>
    requires reading { stream.old.phase ≡ Reading }
    requires fits { form_fault options.form stream.old.schema.fields ≡ None }
    requires empty { lines.old ≡ [] }
    ensures schema { stream.new.schema ≡ stream.old.schema }
    ensures limits { stream.new.limits ≡ stream.old.limits }
    ensures prints { PrintsBatches options.entry [] stream.old stream.new
        (output (W.written sink.old) (W.failures sink.old) lines.old)
        (output (W.written sink.new) (W.failures sink.new) lines.new) result }
    ensures reports { (limits : Limits) (start : Option (List ℕ)) → Opens limits start stream.old
        → ReportsOutcome limits start stream.new.remaining (P.reports progress.old)
        (P.reports progress.new) result }
    ensures held { (limits : Limits) (start : Option (List ℕ))
        → HeldSoFar limits options.entry.max_held start stream.old
        → HeldInAll limits options.entry.max_held start stream.new.remaining (EndsHeld result) }
{
    let form = options.form;
    let mut tally = PrintCounts::none();
    loop {
        if has_reached(options.limit, tally.rows) {
            return Ok(Outcome::Limited);
        }
        match stream.next_within(options.max_held) {
            Ok(Some((batch, pairs))) => {
                let fields = stream.fields();
                let count = count_wanted(options.limit, tally.rows, batch.rows());
                let refused = print_batch(alloc, form, fields, &pairs, &batch, count, lines, sink)?;
                if let Some(fault) = refused {
                    return Ok(Outcome::Refused(fault));
                }
                lines.flush(sink)?;
                tally = tally.with_batch(batch.rows());
                progress.batch_done(stream.taken(), tally.batches, tally.rows);
                stream.reuse(batch);
            }
            Ok(None) => {
                let end = stream.end().unwrap();
                match end.check_mark(options.require_mark) {
                    Ok(_) => return Ok(Outcome::Whole(end, tally)),
                    Err(missing) => return Ok(Outcome::Broken(missing)),
                }
            }
            Err(ReadStop::Refused(fault)) => return Ok(Outcome::Broken(fault)),
            Err(ReadStop::Held) => return Ok(Outcome::Held),
        }
    }
}

// The schema's JSON text and a line feed.
fn schema_line(alloc: Global, schema: &Schema) -> Result<Vec<u8>, TextFault>
    ensures { IfOk result (λ line. line.items ≡ schema_text schema.now ++ 10 ∷ []) }
{
    let mut line = schema_json(alloc, schema)?.into_bytes();
    line.push(b'\n')?;
    Ok(line)
}

// Appends a number in decimal and a word.
fn push_count(out: &mut Vec<u8>, number: u64, word: &[u8]) -> Result<(), AllocError>
    ensures { OnOk result (out.new.items ≡ out.old.items ++ decimal number ++ word.now) }
{
    push_number(out, number)?;
    out.extend_from_slice(word)
}

// How a stream ended, how many bytes were taken of it, and how many batches and rows it has.
fn counts_line(
    alloc: Global,
    end: End,
    bytes: u64,
    tally: PrintCounts,
) -> Result<Vec<u8>, AllocError>
    ensures { IfOk result (λ line. line.items ≡ counts_text end bytes tally.batches tally.rows) }
{
    let mut line = Vec::new(alloc);
    match end {
        End::Mark => line.extend_from_slice(b"mark ")?,
        End::Closed => line.extend_from_slice(b"closed ")?,
    }
    push_count(&mut line, bytes, b" bytes ")?;
    push_count(&mut line, tally.batches, b" batches ")?;
    push_count(&mut line, tally.rows, b" rows\n")?;
    Ok(line)
}

// Prints the text after the rows, if the stream was read to its end.
fn print_tail<W: Sink>(
    alloc: Global,
    form: Form<'_>,
    outcome: Outcome,
    bytes: u64,
    lines: &mut LineBuffer,
    sink: &mut W,
) -> Result<(), PrintFault>
    ensures puts { PrintsAs (output (W.written sink.old) (W.failures sink.old) lines.old)
        (W.written sink.new) (W.failures sink.new) lines.new (outcome_tail form.entry outcome bytes)
        result }
    ensures whole { IfErr result (λ fault. IsReadToEnd outcome) }
{
    let Outcome::Whole(end, tally) = outcome else {
        return Ok(());
    };
    match form {
        Form::Counts => {
            let line = counts_line(alloc, end, bytes, tally)?;
            lines.put(sink, line.as_slice())
        }
        Form::Rows { .. } | Form::Records(_) => Ok(()),
    }
}

/// Prints the text before the rows.
pub(crate) fn print_front<W: Sink>(
    alloc: Global,
    form: Form<'_>,
    schema: &Schema,
    lines: &mut LineBuffer,
    sink: &mut W,
) -> Result<(), PrintFault>
    requires fits { form_fault form schema.now.fields ≡ None }
    ensures puts { PrintsAs (output (W.written sink.old) (W.failures sink.old) lines.old)
        (W.written sink.new) (W.failures sink.new) lines.new (front_text form.entry schema.now)
        result }
{
    match form {
        Form::Counts => match schema_line(alloc, schema) {
            Ok(line) => lines.put(sink, line.as_slice()),
            Err(_) => Err(PrintFault::OutOfMemory),
        },
        Form::Rows { .. } => Ok(()),
        Form::Records(dialect) => match csv_header(alloc, dialect, schema) {
            Ok(header) => lines.put(sink, header.as_slice()),
            Err(_) => Err(PrintFault::OutOfMemory),
        },
    }
}

// Prints what follows the schema of a stream. The text before the rows is sent before the first
// batch is read, and what precedes a fault is sent before that fault is returned.
fn print_stream<R: Source, W: Sink, P: Progress>(
    alloc: Global,
    options: PrintOptions<'_>,
    stream: &mut StreamReader<R>,
    sink: &mut W,
    progress: &mut P,
) -> Result<Outcome, PrintFault>
    requires reading { stream.old.phase ≡ Reading }
    requires fits { form_fault options.form stream.old.schema.fields ≡ None }
    ensures works { IfOk result (λ outcome. W.failures sink.new ≡ 0) }
    ensures handed_on { IfOk result (λ outcome. W.held_back sink.new ≡ Some []) }
    ensures prints { PrintsAll options.entry (front_text options.entry.form stream.old.schema)
        stream.old
        stream.new (output (W.written sink.old) (W.failures sink.old) [])
        (output (W.written sink.new) (W.failures sink.new) []) result }
    ensures reports { (limits : Limits) (start : Option (List ℕ)) → Opens limits start stream.old
        → ReportsOutcome limits start stream.new.remaining (P.reports progress.old)
        (P.reports progress.new) result }
    ensures held { (limits : Limits) (start : Option (List ℕ))
        → HeldSoFar limits options.entry.max_held start stream.old
        → HeldInAll limits options.entry.max_held start stream.new.remaining (EndsHeld result) }
{
    let mut lines = LineBuffer::new(alloc)?;
    print_front(alloc, options.form, stream.schema(), &mut lines, sink)?;
    lines.flush(sink)?;
    let outcome = print_batches(alloc, options, stream, &mut lines, sink, progress)?;
    print_tail(
        alloc,
        options.form,
        outcome,
        stream.taken(),
        &mut lines,
        sink,
    )?;
    lines.flush(sink)?;
    Ok(outcome)
}

/// Checks that the schema of a stream is the one that is expected, if there is one.
pub(crate) fn check_expected(
    alloc: Global,
    expected: Option<&Schema>,
    schema: &Schema,
) -> Result<(), PrintStop>
    ensures same { OnOk result (IsExpected (option_copied expected.entry) schema.now) }
    ensures other { IfErr result (RefusesOther (option_copied expected.entry) schema.now) }
{
    match first_difference(alloc, expected, schema) {
        Ok(None) => Ok(()),
        Ok(Some(path)) => Err(PrintStop::OtherSchema(path)),
        Err(_) => Err(PrintStop::Write(WriteFault::OutOfMemory)),
    }
}

// Whether the form has a place for the columns.
fn check_form(form: Form<'_>, schema: &Schema) -> Result<(), TextFault>
    ensures { result ≡ unless_fault (form_fault form.entry schema.now.fields) (Ok tt) }
{
    match form {
        Form::Counts | Form::Rows { .. } => Ok(()),
        Form::Records(_) => check_flat(schema),
    }
}

/// Returns why rows were not printed as a refusal of writing.
pub(crate) fn write_fault_of(fault: PrintFault) -> WriteFault
    ensures { result ≡ write_fault fault }
{
    match fault {
        PrintFault::Write => WriteFault::Write,
        PrintFault::OutOfMemory => WriteFault::OutOfMemory,
    }
}

// Prints a stream whose schema was read, and is the one that is expected, if there is one.
#[tactic(auto, using(crate::proofs::streams::Reporting::none_reported))]
fn print_expected<R: Source, W: Sink, P: Progress>(
    alloc: Global,
    options: PrintOptions<'_>,
    stream: &mut StreamReader<R>,
    sink: &mut W,
    progress: &mut P,
) -> Result<Option<u64>, PrintStop>
    requires { stream.old.phase ≡ Reading }
    ensures handed_on { OnOk result (W.held_back sink.new ≡ Some []) }
    ensures prints { PrintsStream options.entry stream.old stream.new
        (output (W.written sink.old) (W.failures sink.old) [])
        (output (W.written sink.new) (W.failures sink.new) []) result }
    ensures expected { (expected : Option Schema) → IsExpected expected stream.old.schema
        → AnswersExpected expected stream.old.schema (W.written sink.old) (W.written sink.new)
        result }
    ensures devices { stream.old.failures ≡ 0 → CountsPrintFailures stream.old.failures
        stream.new.failures (W.failures sink.old) (W.failures sink.new) result }
    ensures reports { (limits : Limits) (start : Option (List ℕ)) → Opens limits start stream.old
        → ReportsPrintedBatches limits start stream.new.remaining (P.reports progress.old)
        (P.reports progress.new) result }
    ensures held { (limits : Limits) (start : Option (List ℕ))
        → HeldSoFar limits options.entry.max_held start stream.old
        → HeldInAll limits options.entry.max_held start stream.new.remaining (IsHeld result) }
{
    if let Err(fault) = check_form(options.form, stream.schema()) {
        return Err(PrintStop::Text(fault));
    }
    match print_stream(alloc, options, stream, sink, progress) {
        Ok(Outcome::Whole(..)) => Ok(Some(stream.messages())),
        Ok(Outcome::Limited) => Ok(None),
        Ok(Outcome::Broken(fault)) => Err(PrintStop::Read(fault, stream.messages())),
        Ok(Outcome::Refused(fault)) => Err(PrintStop::Text(fault)),
        Ok(Outcome::Held) => Err(PrintStop::Held(stream.messages())),
        Err(fault) => Err(PrintStop::Write(write_fault_of(fault))),
    }
}

// Prints a stream whose schema was read, as `print`.
fn print_open<R: Source, W: Sink, P: Progress>(
    alloc: Global,
    options: PrintOptions<'_>,
    expected: Option<&Schema>,
    stream: &mut StreamReader<R>,
    sink: &mut W,
    progress: &mut P,
) -> Result<Option<u64>, PrintStop>
    requires { stream.old.phase ≡ Reading }
    ensures handed_on { OnOk result (W.held_back sink.new ≡ Some []) }
    ensures prints { PrintsStream options.entry stream.old stream.new
        (output (W.written sink.old) (W.failures sink.old) [])
        (output (W.written sink.new) (W.failures sink.new) []) result }
    ensures expected { AnswersExpected (option_copied expected.entry) stream.old.schema
        (W.written sink.old) (W.written sink.new) result }
    ensures devices { stream.old.failures ≡ 0 → CountsPrintFailures stream.old.failures
        stream.new.failures (W.failures sink.old) (W.failures sink.new) result }
    ensures reports { (limits : Limits) (start : Option (List ℕ)) → Opens limits start stream.old
        → ReportsPrintedBatches limits start stream.new.remaining (P.reports progress.old)
        (P.reports progress.new) result }
    ensures held { (limits : Limits) (start : Option (List ℕ))
        → HeldSoFar limits options.entry.max_held start stream.old
        → HeldInAll limits options.entry.max_held start stream.new.remaining (IsHeld result) }
{
    if let Err(why) = check_expected(alloc, expected, stream.schema()) {
        return Err(why);
    }
    print_expected(alloc, options, stream, sink, progress)
}

/// Prints the stream of `source` to `sink` by these options, batch by batch under these limits.
/// Returns the source, and the number of messages of a stream that was read to its end: a message
/// after the end would have this number. It is `None` if the rows reach the limit. What was printed
/// before a refusal remains valid. No byte after an end-of-stream mark is read. At Ok the sink was
/// flushed.
///
/// The text of the schema and of each batch is written, and the sink is flushed, before the next
/// batch is read. Text is sent whenever 64 KiB are kept, and after each batch; no clause counts the
/// writes. After each batch that was printed whole, `progress` is called once; `()` ignores it.
///
/// With a limit of rows, printing ends with Ok at the last of them. The batch that has it is read
/// whole, and no message after it; at limit 0 only the schema is read. No end-of-stream mark is
/// required then, and `Form::Counts` prints no counts. A stream with fewer rows is printed as
/// without a limit.
///
/// # Errors
///
/// - `Read`: the stream is refused, the source failed, or memory ran out in reading. It has the
///   number of the message; the schema's is 0. A required end-of-stream mark that is missing is F4
///   at the message after the last one.
/// - `Text`: the columns or a row have no text in this form.
/// - `Write`: the sink failed, also if the source failed before it, or memory ran out in writing.
/// - `Held`: the bytes that came of the message with this number and the bodies of the dictionaries
///   in force, with the next part of the message, would exceed `options.max_held`. Nothing more is
///   taken from the source. All batches before were printed.
/// - `OtherSchema`: a schema is expected, and the stream has another one, as `first_difference`
///   compares them. Nothing was printed, and nothing after the schema's message was read.
pub fn print<R: Source, W: Sink, P: Progress>(
    alloc: Global,
    limits: Limits,
    options: PrintOptions<'_>,
    expected: Option<&Schema>,
    source: R,
    sink: &mut W,
    progress: &mut P,
) -> (Result<Option<u64>, PrintStop>, R)
    // At Ok the sink holds nothing back.
    ensures handed_on { OnOk result.0 (W.held_back sink.new ≡ Some []) }
    // At Ok with a number the bytes that were taken denote a table with its end, which is the mark
    // if that is required, in that number of messages, and exactly its text was printed. At Ok
    // without one they are the messages up to the batch in which the rows reach the limit, and
    // exactly the text up to that row was printed. At a fault its cause is true, and exactly what
    // came before was printed. The number of the message is the count of the messages before it.
    ensures prints { Prints options.entry limits (R.remaining source) (R.remaining result.1)
        (W.written sink.old) (W.written sink.new) result.0 }
    // Whatever the answer, a beginning of the text of what was read was printed, up to the limit.
    // No batch was read before the text of the one before it was printed, and none after the limit.
    ensures part { PrintsSome options.entry limits (R.remaining source) (R.remaining result.1)
        (W.written sink.old) (W.written sink.new) }
    // With devices that had not failed before, W9 is answered exactly where the sink failed in this
    // call, and F36 exactly where the source did and the sink did not. If a device had failed
    // before, the answer is no success, and its count stays 1.
    ensures devices { CountsPrintFailures (R.failures source) (R.failures result.1)
        (W.failures sink.old) (W.failures sink.new) result.0 }
    // A table with its mark is printed, up to the limit, whatever follows it, unless its columns or
    // such a row have no text, the source or the sink fails, or memory runs out.
    ensures marked { (x rest : List ℕ) (t : Table)
        → R.remaining source ≡ Some (x ++ rest) → Denotes limits x t Mark
        → R.failures result.1 ≡ 0
        → AnswersPrintedTable options.entry t Mark (length x) (W.written sink.old)
        (W.written sink.new)
        result.0 }
    // So is one without a mark where nothing follows, if no mark is required.
    ensures closed { (x : List ℕ) (t : Table) → options.entry.require_mark ≡ false
        → R.remaining source ≡ Some x → Denotes limits x t Closed → R.failures result.1 ≡ 0
        → AnswersPrintedTable options.entry t Closed (length x) (W.written sink.old)
        (W.written sink.new)
        result.0 }
    // The rows of a table that reach the limit in its last batch are printed up to it, whatever
    // follows their messages: no byte after these is read.
    ensures limited { (x rest : List ℕ) (t : Table) → R.remaining source ≡ Some (x ++ rest)
        → ReachesLimit options.entry limits x t → R.failures result.1 ≡ 0
        → AnswersFirst options.entry t x (R.remaining source) (R.remaining result.1)
        (W.written sink.old) (W.written sink.new) result.0 }
    // If a schema is expected and the source begins with the message of another one, nothing is
    // printed, whatever follows it. `OtherSchema` has the path of the first difference.
    ensures expected { (x rest : List ℕ) (s : Schema) → R.remaining source ≡ Some (x ++ rest)
        → OpensStream limits s x
        → AnswersExpected (option_copied expected.entry) s (W.written sink.old)
        (W.written sink.new) result.0 }
    // Each batch that was read was reported once, in order, with the bytes taken up to it, and the
    // batches and rows so far. At `Text` and `Write` the last one may have no report. That a report
    // comes after the text of its batch is not stated.
    ensures reports { ReportsPrintedBatches limits (R.remaining source) (R.remaining result.1)
        (P.reports progress.old) (P.reports progress.new) result.0 }
    // After each byte that was taken, at most `options.max_held` bytes were held. At `Held` more
    // would be with the bytes up to the next decision on the message.
    ensures held { HeldInAll limits options.entry.max_held (R.remaining source)
        (R.remaining result.1) (IsHeld result.0) }
{
    match StreamReader::open_within(alloc, limits, options.max_held, source) {
        Ok(stream) => {
            let mut stream = stream;
            let result = print_open(alloc, options, expected, &mut stream, sink, progress);
            (result, stream.into_inner())
        }
        Err((why, source)) => (Err(PrintStop::of_reading(why, 0)), source),
    }
}
