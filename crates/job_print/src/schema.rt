//! The schema of a stream is printed.
ghost use Rattle.std.specs.Prelude.{◌≡◌, ◌++◌, ℕ, List, [], IfOk, OnOk, Some, option_copied};
ghost use Rattle.ipc_model.specs.declared.schema.Schema.{Schema};
ghost use Rattle.ipc_stream_read.specs.Held.{HeldInAll};
ghost use Rattle.ipc_stream_read.specs.Stream.{OpensStream};
ghost use Rattle.job_print.specs.Output.{PrintsAs, output};
ghost use Rattle.job_print.specs.Streams.{AnswersExpected, AnswersSchema, PrintsSchema};
ghost use Rattle.job_print.specs.Streams.{CountsPrintFailures, IsHeld, schema_line};

use crate::form::Form;
use crate::line_buffer::{LineBuffer, PrintFault};
use crate::printing::{check_expected, print_front, write_fault_of};
use crate::stop::PrintStop;
use ipc_device::{Sink, Source};
use ipc_model::{Limits, Schema};
use ipc_stream_read::StreamReader;
use std::alloc::Global;

// Prints the line of a schema, and sends it.
fn send_schema<W: Sink>(alloc: Global, schema: &Schema, sink: &mut W) -> Result<(), PrintFault>
    ensures works { IfOk result (λ _. W.failures sink.new ≡ 0) }
    ensures handed_on { OnOk result (W.held_back sink.new ≡ Some []) }
    ensures puts { PrintsAs (output (W.written sink.old) (W.failures sink.old) [])
        (W.written sink.new) (W.failures sink.new) [] (schema_line schema.now)
        result }
{
    let mut lines = LineBuffer::new(alloc)?;
    print_front(alloc, Form::Counts, schema, &mut lines, sink)?;
    lines.flush(sink)
}

/// Prints the schema of the stream of `source` to `sink` as a line of JSON. Returns the source, of
/// which nothing after the schema's message was read. At Ok the sink was flushed.
///
/// # Errors
///
/// - `Read`, with number 0: no schema was read.
/// - `Write`: the sink failed, or memory ran out in writing.
/// - `Held`, with number 0: more than `max_held` bytes of the schema's message would be held.
/// - `OtherSchema`: a schema is expected, and the stream has another one, as `first_difference`
///   compares them. Nothing was printed.
pub fn print_schema<R: Source, W: Sink>(
    alloc: Global,
    limits: Limits,
    max_held: Option<u64>,
    expected: Option<&Schema>,
    source: R,
    sink: &mut W,
) -> (Result<(), PrintStop>, R)
    // At Ok the sink holds nothing back.
    ensures handed_on { OnOk result.0 (W.held_back sink.new ≡ Some []) }
    // At Ok the bytes that were taken are the message of a schema, and exactly its line was
    // printed; at a fault its cause is true, and at most a beginning of the line was printed.
    ensures prints { PrintsSchema limits (R.remaining source) (R.remaining result.1)
        (W.written sink.old) (W.written sink.new) result.0 }
    // W9 and F36 are answered as in `print`.
    ensures devices { CountsPrintFailures (R.failures source) (R.failures result.1)
        (W.failures sink.old) (W.failures sink.new) result.0 }
    // The message of a schema, at the front of the source, is read, whatever follows it, unless
    // memory runs out, the source fails, more would be held, or another schema is expected.
    ensures opens { (x rest : List ℕ) (s : Schema) → R.remaining source ≡ Some (x ++ rest)
        → OpensStream limits s x
        → AnswersSchema max_held s (W.written sink.old) (W.written sink.new) result.0 }
    // If a schema is expected and the source begins with the message of another one, nothing is
    // printed. `OtherSchema` has the path of the first difference.
    ensures expected { (x rest : List ℕ) (s : Schema) → R.remaining source ≡ Some (x ++ rest)
        → OpensStream limits s x
        → AnswersExpected (option_copied expected.entry) s (W.written sink.old)
        (W.written sink.new) result.0 }
    // After each byte that was taken, at most `max_held` bytes were held. At `Held` more would be
    // with the bytes up to the next decision on the message.
    ensures held { HeldInAll limits max_held (R.remaining source) (R.remaining result.1)
        (IsHeld result.0) }
{
    match StreamReader::open_within(alloc, limits, max_held, source) {
        Ok(stream) => {
            if let Err(why) = check_expected(alloc, expected, stream.schema()) {
                return (Err(why), stream.into_inner());
            }
            match send_schema(alloc, stream.schema(), sink) {
                Ok(()) => (Ok(()), stream.into_inner()),
                Err(fault) => (
                    Err(PrintStop::Write(write_fault_of(fault))),
                    stream.into_inner(),
                ),
            }
        }
        Err((why, source)) => (Err(PrintStop::of_reading(why, 0)), source),
    }
}
