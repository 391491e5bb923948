//! Does jobs, each between an input and a sink.
ghost use Rattle.std.specs.Io.KnownBytes.{Appends};
ghost use Rattle.std.specs.Prelude.{◌≡◌, ◌≢◌, ◌⊎◌, ◌++◌, ◌∷◌, [], Result, Some, OnOk, is_some, ⊤};
ghost use Rattle.std.specs.Prelude.{ℕ, IfSome, IsOk, IsTrue, List, Option, false, option_copied};
ghost use Rattle.std.specs.Prelude.{None, if◌then◌else◌, string_bytes};
ghost use Rattle.ipc_device.specs.Failures.{CountsFailures};
ghost use Rattle.job_command.specs.Jobs.{Answers, AnswersCsv, AnswersExpecting, AnswersPrint};
ghost use Rattle.job_command.specs.Jobs.{AnswersRewrite};
ghost use Rattle.job_command.specs.Jobs.{AnswersSchemaJob, row_shape, file_bytes, exit_status};
ghost use Rattle.job_command.specs.Jobs.{ReportsBatches, ReportsPrint, ReportsRewrite};
ghost use Rattle.job_command.specs.Jobs.{EndsJob, GivesFileBack, MeetsEnd, no_messages};
ghost use Rattle.job_command.specs.Jobs.{failures_of, job_result, rewrite_options, stop_of_csv};
ghost use Rattle.job_command.specs.Summaries.{PrintsSummary, stream_number, summary_text};
ghost use Rattle.job_command.specs.Lines.{ExplainsStop, PrintsStopLines, labelled, stop_text};
ghost use Rattle.job_arguments.specs.Arguments.{HasGoodSize, IsBatchSize, subcommand_name};
ghost use Rattle.job_command.specs.declared.stop.Stop.{Stop};
ghost use Rattle.job_print.specs.declared.form.Form.TheVariants.{Rows};

use crate::counted::{Counted, LastReport};
use crate::schema_file::read_schema;
use crate::stop::Stop;
use crate::stop_line::{send, send_labelled};
use crate::summary::send_summary;
use ipc_device::{Failed, Progress, Sink, Source};
use ipc_model::{Fault, Limits, Schema};
use ipc_stream::Seed;
use ipc_text_csv::Dialect;
use ipc_text_json::RowShape;
use job_arguments::{Invocation, Job, OutputLimits};
use job_explain::{Recorder, explain_record, explain_schema, explain_write};
use job_from_csv::{BatchSize, from_csv};
use job_print::{Form, PrintOptions, print, print_schema};
use job_rewrite::{RewriteOptions, rewrite};
use std::alloc::Global;

// Prints the schema of a stream.
fn schema_job<S: Source, W: Sink>(
    alloc: Global,
    limits: Limits,
    max_held: Option<u64>,
    expected: Option<&Schema>,
    input: S,
    sink: W,
) -> (Result<Option<u64>, Stop>, S, W)
    ensures answers { AnswersSchemaJob max_held (option_copied expected.entry) limits
        (S.remaining input) (S.remaining result.1) (W.written sink) (W.written result.2)
        (S.failures input) (S.failures result.1) (W.failures sink) (W.failures result.2) result.0 }
    ensures handed_on { OnOk result.0 (W.held_back result.2 ≡ Some []) }
    ensures works { exit_status result.0 ≢ 3 → W.failures sink ≡ 0 → W.failures result.2 ≡ 0 }
{
    let mut sink = sink;
    let (result, source) = print_schema(alloc, limits, max_held, expected, input, &mut sink);
    let result = match result {
        Ok(()) => Ok(None),
        Err(why) => Err(why.into()),
    };
    (result, source, sink)
}

// Prints a stream by these options.
fn print_job<S: Source, W: Sink, N: Progress>(
    alloc: Global,
    options: PrintOptions<'_>,
    limits: Limits,
    expected: Option<&Schema>,
    input: S,
    sink: W,
    progress: &mut N,
) -> (Result<Option<u64>, Stop>, S, W)
    ensures answers { AnswersPrint options.entry (option_copied expected.entry) limits
        (S.remaining input) (S.remaining result.1) (W.written sink) (W.written result.2)
        (S.failures input) (S.failures result.1) (W.failures sink) (W.failures result.2) result.0 }
    ensures handed_on { OnOk result.0 (W.held_back result.2 ≡ Some []) }
    ensures works { exit_status result.0 ≢ 3 → W.failures sink ≡ 0 → W.failures result.2 ≡ 0 }
    ensures reports { ReportsPrint limits (S.remaining input) (S.remaining result.1)
        (N.reports progress.old) (N.reports progress.new) result.0 }
{
    let mut sink = sink;
    let (result, source) = print(alloc, limits, options, expected, input, &mut sink, progress);
    let result = match result {
        Ok(messages) => Ok(messages),
        Err(why) => Err(why.into()),
    };
    (result, source, sink)
}

// Writes a stream anew.
fn rewrite_job<S: Source, W: Sink, N: Progress>(
    alloc: Global,
    seed: Seed,
    options: RewriteOptions,
    limits: Limits,
    expected: Option<&Schema>,
    input: S,
    sink: W,
    progress: &mut N,
) -> (Result<Option<u64>, Stop>, S, W)
    ensures answers { AnswersRewrite options (option_copied expected.entry) limits
        (S.remaining input) (S.remaining result.1) (W.written sink) (W.written result.2)
        (S.failures input) (S.failures result.1) (W.failures sink) (W.failures result.2) result.0 }
    ensures handed_on { OnOk result.0 (W.held_back result.2 ≡ Some []) }
    ensures works { exit_status result.0 ≢ 3 → W.failures sink ≡ 0 → W.failures result.2 ≡ 0 }
    ensures reports { ReportsRewrite limits (S.remaining input) (S.remaining result.1)
        (N.reports progress.old) (N.reports progress.new) result.0 }
{
    let (result, source, sink) = rewrite(
        alloc, seed, options, limits, expected, input, sink, progress,
    );
    let result = match result {
        Ok(messages) => Ok(Some(messages)),
        Err(why) => Err(why.into()),
    };
    (result, source, sink)
}

// Converts the result of `from_csv` to that of the job.
fn csv_result(
    answer: Result<(), job_from_csv::FromCsvStop>,
    schema: Schema,
) -> Result<Option<u64>, Stop>
    ensures { result ≡ job_result no_messages (stop_of_csv schema) answer }
{
    match answer {
        Ok(()) => Ok(None),
        Err(why) => Err(Stop::of_csv(why, schema)),
    }
}

// Writes records of CSV as a stream, by the schema of a file.
fn csv_job<P: Source, S: Source, W: Sink>(
    alloc: Global,
    seed: Seed,
    dialect: Dialect<'_>,
    file: Option<P>,
    size: BatchSize,
    input: S,
    sink: W,
) -> (Result<Option<u64>, Stop>, S, W, Option<P>)
    requires { IsBatchSize size.rows }
    ensures answers { AnswersCsv dialect.entry (file_bytes P.remaining file)
        (failures_of P.failures result.3) size (S.remaining input) (W.written sink)
        (W.written result.2) (S.failures input) (S.failures result.1) (W.failures sink)
        (W.failures result.2) result.0 }
    ensures handed_on { OnOk result.0 (W.held_back result.2 ≡ Some []) }
    ensures works { exit_status result.0 ≢ 3 → W.failures sink ≡ 0 → W.failures result.2 ≡ 0 }
    ensures file { is_some result.3 ≡ is_some file }
{
    let (schema, file) = read_schema(alloc, file);
    let schema = match schema {
        Ok(schema) => schema,
        Err(why) => return (Err(why), input, sink, file),
    };
    let (result, input, sink) = from_csv(alloc, seed, dialect, input, sink, &schema, size);
    (csv_result(result, schema), input, sink, file)
}

// The form of rows that are printed as objects or as arrays, with the metadata of batches or not.
fn rows_form(objects: bool, pairs: bool) -> Form<'static>
    ensures { result ≡ Rows (row_shape objects) pairs }
{
    let shape = if objects {
        RowShape::Object
    } else {
        RowShape::Array
    };
    Form::Rows { shape, pairs }
}

// The options of a job that prints a stream.
fn print_options(
    form: Form<'_>,
    limit: Option<u64>,
    require_mark: bool,
    max_held: Option<u64>,
) -> PrintOptions<'_>
    ensures { result ≡ record {
      form = form.entry;
      require_mark = require_mark;
      limit = limit;
      max_held = max_held;
    } }
{
    PrintOptions {
        form,
        require_mark,
        limit,
        max_held,
    }
}

// The options of a job that writes a stream anew.
fn rewrite_options(
    output: OutputLimits,
    require_mark: bool,
    max_held: Option<u64>,
) -> RewriteOptions
    ensures { result ≡ rewrite_options output require_mark max_held }
{
    RewriteOptions {
        require_mark,
        max_body: output.body,
        max_batches: output.batches,
        max_rows: output.rows,
        max_bytes: output.bytes,
        max_held,
    }
}

// Does a job on a stream that must have the schema that is expected, if there is one. Returns how
// many messages a stream has that was read to its end.
fn do_job<P: Source, S: Source, W: Sink, N: Progress>(
    alloc: Global,
    seed: Seed,
    job: Job,
    max_held: Option<u64>,
    expected: Option<&Schema>,
    schema: Option<P>,
    input: S,
    sink: W,
    progress: &mut N,
) -> (Result<Option<u64>, Stop>, S, W, Option<P>)
    requires { HasGoodSize job }
    ensures answers { Answers job max_held (option_copied expected.entry)
        (file_bytes P.remaining schema) (failures_of P.failures result.3) (S.remaining input)
        (S.remaining result.1) (W.written sink) (W.written result.2) (S.failures input)
        (S.failures result.1) (W.failures sink) (W.failures result.2) result.0 }
    ensures handed_on { OnOk result.0 (W.held_back result.2 ≡ Some []) }
    ensures works { exit_status result.0 ≢ 3 → W.failures sink ≡ 0 → W.failures result.2 ≡ 0 }
    ensures file { GivesFileBack false job schema result.3 }
    ensures reports { ReportsBatches job (S.remaining input) (S.remaining result.1)
        (N.reports progress.old) (N.reports progress.new) result.0 }
{
    let (result, input, sink) = match job {
        Job::Schema(limits) => schema_job(alloc, limits, max_held, expected, input, sink),
        Job::Check {
            limits,
            require_mark,
        } => {
            let options = print_options(Form::Counts, None, require_mark, max_held);
            print_job(alloc, options, limits, expected, input, sink, progress)
        }
        Job::Show {
            limits,
            objects,
            pairs,
            limit,
            require_mark,
        } => {
            let form = rows_form(objects, pairs);
            let options = print_options(form, limit, require_mark, max_held);
            print_job(alloc, options, limits, expected, input, sink, progress)
        }
        Job::ToCsv {
            limits,
            dialect,
            limit,
            require_mark,
        } => {
            let form = Form::Records(dialect.dialect());
            let options = print_options(form, limit, require_mark, max_held);
            print_job(alloc, options, limits, expected, input, sink, progress)
        }
        Job::Rewrite {
            limits,
            output,
            require_mark,
        } => {
            let options = rewrite_options(output, require_mark, max_held);
            rewrite_job(
                alloc, seed, options, limits, expected, input, sink, progress,
            )
        }
        Job::FromCsv {
            schema: _,
            batch,
            batch_bytes,
            dialect,
            strict,
        } => {
            let dialect = dialect.dialect().with_strict(strict);
            let size = BatchSize {
                rows: batch,
                bytes: batch_bytes,
            };
            return csv_job(alloc, seed, dialect, schema, size, input, sink);
        }
    };
    (result, input, sink, schema)
}

// Does a job, as `run` without `require_eof`. If it expects a schema of its stream, reads that from
// the file first. Returns how many messages a stream has that was read to its end.
fn do_expecting<P: Source, S: Source, W: Sink, N: Progress>(
    alloc: Global,
    seed: Seed,
    job: Job,
    max_held: Option<u64>,
    expects: bool,
    schema: Option<P>,
    input: S,
    sink: W,
    progress: &mut N,
) -> (Result<Option<u64>, Stop>, S, W, Option<P>)
    requires { HasGoodSize job }
    ensures answers { AnswersExpecting expects job max_held (file_bytes P.remaining schema)
        (failures_of P.failures result.3) (S.remaining input) (S.remaining result.1)
        (W.written sink) (W.written result.2) (S.failures input) (S.failures result.1)
        (W.failures sink) (W.failures result.2) (N.reports progress.old) (N.reports progress.new)
        result.0 }
    ensures handed_on { OnOk result.0 (W.held_back result.2 ≡ Some []) }
    ensures works { exit_status result.0 ≢ 3 → W.failures sink ≡ 0 → W.failures result.2 ≡ 0 }
    ensures file { GivesFileBack expects job schema result.3 }
{
    if !expects {
        return do_job(
            alloc, seed, job, max_held, None, schema, input, sink, progress,
        );
    }
    let (expected, schema) = read_schema(alloc, schema);
    match expected {
        Ok(expected) => {
            let expected = Some(&expected);
            do_job(
                alloc, seed, job, max_held, expected, schema, input, sink, progress,
            )
        }
        Err(why) => (Err(why), input, sink, schema),
    }
}

// Asks the input for a byte after a stream with this number of messages. If one comes, it is F1.
fn check_at_end<S: Source>(input: &mut S, messages: u64) -> Result<(), Stop>
    ensures { MeetsEnd (S.remaining input.old) (S.remaining input.new) (S.failures input.new)
        messages result }
{
    let mut byte = [0];
    match input.read(&mut byte) {
        Ok(0) => Ok(()),
        Ok(_) => Err(Stop::Read(Fault::NotContinued, messages)),
        Err(_) => Err(Stop::Read(Fault::Read, messages)),
    }
}

// The result of a job. If nothing may follow a stream that was read to its end, this is checked.
fn check_eof<S: Source>(
    require_eof: bool,
    answer: Result<Option<u64>, Stop>,
    input: &mut S,
) -> Result<(), Stop>
    ensures ends { EndsJob require_eof (S.remaining input.old) (S.remaining input.new)
        (S.failures input.old) (S.failures input.new) answer result }
    ensures done { exit_status result ≡ 0 → IsOk answer }
    ensures works { exit_status result ≢ 3 → exit_status answer ≢ 3 }
{
    match answer {
        Ok(Some(messages)) if require_eof => check_at_end(input, messages),
        Ok(_) => Ok(()),
        Err(why) => Err(why),
    }
}

// An input whose messages are kept, if a refusal of a stream is to be explained.
fn record<S: Source>(alloc: Global, job: &Job, explain: bool, input: S) -> Recorder<S>
    ensures { result.source ≡ input }
{
    let limits = match job {
        Job::Schema(limits) => limits,
        Job::Check { limits, .. } => limits,
        Job::Show { limits, .. } => limits,
        Job::ToCsv { limits, .. } => limits,
        Job::Rewrite { limits, .. } => limits,
        Job::FromCsv { .. } => return Recorder::new(alloc, Limits::standard(), input, false),
    };
    Recorder::new(alloc, *limits, input, explain)
}

// The lines that explain a job that stopped, if memory does not run out; they may be empty.
fn lines_of<S: Source>(alloc: Global, stop: &Stop, input: &Recorder<S>) -> Option<Vec<u8>>
    ensures { IfSome result (λ lines. (lines.items ≡ []) ⊎ ExplainsStop stop.now lines.items) }
{
    match stop {
        Stop::Read(fault, message) => input.explain(alloc, fault, *message).ok(),
        Stop::Write(fault) => input.explain_write(alloc, fault).ok(),
        Stop::Rows { fault, schema } => explain_write(alloc, schema, fault).ok(),
        Stop::Record {
            fault,
            fields,
            schema,
        } if fields.position().is_some() => explain_record(alloc, fault, schema, fields).ok(),
        Stop::SchemaText(text) => explain_schema(alloc, text.as_slice()).ok(),
        _ => None,
    }
}

// The lines that explain a job that stopped, if that is asked for and memory does not run out.
fn explanation_of<S: Source>(
    alloc: Global,
    explain: bool,
    stop: &Stop,
    input: &Recorder<S>,
) -> Vec<u8>
    ensures { (result.items ≡ []) ⊎ (IsTrue explain × ExplainsStop stop.now result.items) }
{
    if !explain {
        return Vec::new(alloc);
    }
    match lines_of(alloc, stop, input) {
        Some(lines) => lines,
        None => Vec::new(alloc),
    }
}

// Prints the line of a job that stopped, and the lines that explain it, each with the label before
// it.
fn write_stop<E: Sink>(
    messages: &mut E,
    label: &str,
    stop: &Stop,
    lines: &[u8],
) -> Result<(), Failed>
    ensures prints { OnOk result (Appends (E.written messages.old) (E.written messages.new)
        (label.now ++ stop_text stop.now ++ 10 ∷ labelled label.now lines.now)) }
    ensures failures { CountsFailures (E.failures messages.old) (E.failures messages.new) result }
{
    send(messages, label)?;
    stop.write_line(messages)?;
    send_labelled(messages, label, lines)
}

// Prints why a job stopped, if it did, and returns the exit status.
fn report<S: Source, E: Sink>(
    alloc: Global,
    explain: bool,
    label: &str,
    outcome: &Result<(), Stop>,
    input: &Recorder<S>,
    messages: &mut E,
) -> u8
    ensures status { result ≡ exit_status outcome.now }
    ensures prints { PrintsStopLines explain label.now (E.written messages.old)
        (E.written messages.new) (E.failures messages.new) outcome.now }
{
    match outcome {
        Ok(()) => 0,
        Err(stop) => {
            let lines = explanation_of(alloc, explain, stop, input);
            let _ = write_stop(messages, label, stop, lines.as_slice());
            stop.exit_status()
        }
    }
}

// Prints the summary of a job, if it is asked for: `counts` are the numbers of batches and rows,
// and `bytes` those of bytes that were read and written.
fn summarize<E: Sink>(
    summary: &mut E,
    asked: bool,
    label: &str,
    job: &str,
    status: u8,
    outcome: &Result<(), Stop>,
    counts: (Option<u64>, Option<u64>),
    bytes: (u64, u64),
)
    ensures { PrintsSummary asked label.now (E.written summary.old) (E.written summary.new)
        (E.failures summary.new)
        (summary_text job.now status outcome.now counts.0 counts.1 bytes.0 bytes.1) }
{
    if asked {
        let (batches, rows) = counts;
        let (bytes_in, bytes_out) = bytes;
        let _ = send_summary(
            summary, label, job, status, outcome, batches, rows, bytes_in, bytes_out,
        );
    }
}

// A number of what a stream has, if the job reads one.
fn stream_number(reads_stream: bool, number: u64) -> Option<u64>
    ensures { result ≡ (if reads_stream then Some number else None) }
{
    if reads_stream { Some(number) } else { None }
}

/// Does a job: reads `input` batch by batch and writes the result to `sink`. After a refusal it
/// prints the fault's line to `messages`, and with `explain` lines that explain it; at success
/// nothing. `invocation.label` precedes each of these lines. The bytes that were sent remain sent.
///
/// Of a stream, no byte after its end-of-stream mark is read, unless `invocation.require_eof` is
/// set. Then a byte after a stream that was read to its end is F1 at the number of the message
/// after the last one; what the job sends was sent before.
///
/// `schema` is the file that the job or `invocation.expect` names, or `None` if it cannot be
/// opened. If `invocation.expect` is set, the schema in the file is read before the input, and a
/// stream with another schema is refused before anything is sent. Else only `FromCsv` reads the
/// file. The batch size must be from 1 to 2^31 - 1, as `read_words` returns it. `progress` receives
/// the reports that `print` and `rewrite` make; other jobs make none.
///
/// With `invocation.summary`, one line of JSON goes to `summary`, with the label before it: the
/// subcommand, the status, the line and the message of a refusal, and the numbers that `progress`,
/// `input` and `sink` have then. `FromCsv` has no numbers of batches and rows.
///
/// The code hashes the values of dictionaries with `seed`; no clause says so. With a random seed
/// nobody who does not know it can choose values whose hashes collide.
///
/// Returns the exit status, the input, the sink and the schema's file. A failing `messages` or
/// `summary` changes nothing. The exit status is:
///
/// - 0 if the job is done;
/// - 1 if what was read is refused;
/// - 3 if the input, the schema's file or the sink failed;
/// - 4 if memory ran out.
pub fn run<P: Source, S: Source, W: Sink, N: Progress, E: Sink>(
    alloc: Global,
    seed: Seed,
    invocation: Invocation,
    schema: Option<P>,
    input: Counted<S>,
    sink: Counted<W>,
    progress: &mut LastReport<N>,
    messages: &mut E,
    summary: &mut E,
) -> (u8, Counted<S>, Counted<W>, Option<P>)
    requires { HasGoodSize invocation.job }
    // The job has an answer, which says what was read, what went out and which device failed. The
    // status is that of this answer, or of the check that nothing follows the stream. Exactly its
    // line was printed, and with `explain` the lines that explain it, with the label before each;
    // at success nothing. Each batch of a stream that was read was reported, as `print` and
    // `rewrite` state it. The summary is printed exactly if it is asked for. Its numbers are those
    // of the last report, and the counts of the input and the sink.
    ensures answers { (answer : Result (Option ℕ) Stop) × (r : Result ⊤ Stop)
        × (between : Option (List ℕ)) × (failures : ℕ) × (result.0 ≡ exit_status r)
        × AnswersExpecting (is_some invocation.expect) invocation.job invocation.max_held
        (file_bytes P.remaining schema) (failures_of P.failures result.3)
        (S.remaining input.device) between (W.written sink.device) (W.written result.2.device)
        (S.failures input.device) failures (W.failures sink.device) (W.failures result.2.device)
        (N.reports progress.old.progress) (N.reports progress.new.progress) answer
        × EndsJob invocation.require_eof between (S.remaining result.1.device) failures
        (S.failures result.1.device) answer r
        × PrintsStopLines invocation.explain (string_bytes invocation.label)
        (E.written messages.old) (E.written messages.new) (E.failures messages.new) r
        × PrintsSummary invocation.summary (string_bytes invocation.label)
        (E.written summary.old) (E.written summary.new) (E.failures summary.new)
        (summary_text (subcommand_name invocation.job) result.0 r
        (stream_number invocation.job progress.new.batches)
        (stream_number invocation.job progress.new.rows) result.1.count result.2.count) }
    // Where all was done the sink holds nothing back.
    ensures handed_on { result.0 ≡ 0 → W.held_back result.2.device ≡ Some [] }
    // A sink fails only at 3.
    ensures works { result.0 ≢ 3 → W.failures sink.device ≡ 0 → W.failures result.2.device ≡ 0 }
    // There is no other status.
    ensures one { (result.0 ≡ 0) ⊎ (result.0 ≡ 1) ⊎ (result.0 ≡ 3) ⊎ (result.0 ≡ 4) }
    // Only `FromCsv` reads the file, and a job that expects a schema. One that was opened comes
    // back, and none is made up.
    ensures file { GivesFileBack (is_some invocation.expect) invocation.job schema result.3 }
{
    let Invocation {
        job,
        explain,
        progress: _,
        require_eof,
        max_held,
        expect,
        label,
        summary: asked,
    } = invocation;
    let expects = expect.is_some();
    let name = job.subcommand();
    let reads_stream = job.reads_stream();
    let input = record(alloc, &job, explain, input);
    let (answer, input, sink, schema) = do_expecting(
        alloc, seed, job, max_held, expects, schema, input, sink, progress,
    );
    let mut input = input;
    let result = check_eof(require_eof, answer, &mut input);
    let status = report(alloc, explain, label.as_str(), &result, &input, messages);
    let input = input.into_inner();
    let counts = (
        stream_number(reads_stream, progress.batches),
        stream_number(reads_stream, progress.rows),
    );
    let bytes = (input.count, sink.count);
    summarize(
        summary,
        asked,
        label.as_str(),
        name,
        status,
        &result,
        counts,
        bytes,
    );
    (status, input, sink, schema)
}
