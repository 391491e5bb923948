ghost use Rattle.std.specs.Prelude.{◌≡◌, ◌≢◌, ◌≤◌, ◌-◌, ◌^◌, ◌++◌, ℕ, List, [], ◌∷◌, IfErr, IfOk};
ghost use Rattle.std.specs.Prelude.{MatchResult, None, OnOk, Some};
ghost use Rattle.std.specs.Io.KnownBytes.{Consumes, IsAtEnd};
ghost use Rattle.ipc_model.specs.declared.table.Table.{Table};
ghost use Rattle.ipc_stream_read.specs.declared.end.End.TheVariants.{Closed, Mark};
ghost use Rattle.ipc_stream_read.specs.Failures.{FailsAs};
ghost use Rattle.ipc_stream_read.specs.Found.{batch_rows};
ghost use Rattle.ipc_stream_read.specs.Stream.{Denotes};
ghost use Rattle.ipc_stream_read.specs.Decoding.{schema_of, taking};
ghost use Rattle.ipc_stream_read.specs.Taken.{RunsOut, TakesBatches, TakesTable};

use crate::decoder::Decoder;
use crate::end::End;
use crate::event::Event;
use crate::source_reading::{pull, read_schema};
use ipc_column::Batch;
use ipc_device::Source;
use ipc_model::{BatchRows, Batches, Fault, Items, Limits, Table, Text};
use std::alloc::Global;

// Appends the pairs and rows of a batch to the earlier batches.
fn keep_batch(
    alloc: Global,
    batches: &mut Vec<BatchRows>,
    batch: &Batch,
    pairs: Items<(Text, Text)>,
) -> Result<(), Fault>
    ensures kept { OnOk result
        (batches.new.items ≡ batches.old.items ++ (batch_rows (batch.now, pairs) ∷ [])) }
    ensures memory { IfErr result (λ fault. fault ≡ Fault.OutOfMemory) }
{
    let rows = batch.to_rows(alloc)?;
    batches.push(BatchRows { pairs, rows })?;
    Ok(())
}

// The batches after the schema, and how the stream ends.
fn read_batches<R: Source>(
    alloc: Global,
    source: &mut R,
    decoder: &mut Decoder,
    taken: &mut u64,
) -> Result<(Batches, End), Fault>
    requires between { decoder.old.stage ≡ taking [] }
    requires open { decoder.old.state ≢ None }
    requires counted { decoder.old.messages ≤ 2 ^ 64 - 1 }
    requires within { taken.old ≤ 2 ^ 64 - 1 }
    ensures batches { TakesBatches (R.remaining source.old) (R.remaining source.new) decoder.old
        result }
    ensures schema { IfOk result
        (λ all. schema_of decoder.new.state ≡ schema_of decoder.old.state) }
    ensures failures { FailsAs (R.failures source.old) (R.failures source.new) result }
{
    let mut batches = Vec::new(alloc);
    loop {
        match pull(source, decoder, taken)? {
            Some(Event::Schema) => unreachable!(),
            Some(Event::Batch(batch, pairs)) => keep_batch(alloc, &mut batches, &batch, pairs)?,
            Some(Event::End) => return Ok((Items::from_vec(batches), End::Mark)),
            None => return Ok((Items::from_vec(batches), End::Closed)),
        }
    }
}

// The table at the front of the source, and how the stream ends.
fn read_messages<R: Source>(
    alloc: Global,
    limits: &Limits,
    source: &mut R,
) -> Result<(Table, End), Fault>
    ensures table { TakesTable limits.now (R.remaining source.old) (R.remaining source.new) result }
    ensures memory { IfErr result (λ fault. fault ≡ Fault.OutOfMemory
        → RunsOut limits.now (R.remaining source.old) (R.remaining source.new)) }
    ensures failures { FailsAs (R.failures source.old) (R.failures source.new) result }
{
    let mut decoder = Decoder::new(alloc, *limits);
    let mut taken = 0;
    read_schema(source, &mut decoder, &mut taken)?;
    let (batches, end) = read_batches(alloc, source, &mut decoder, &mut taken)?;
    let schema = decoder.into_schema().unwrap();
    Ok((Table { schema, batches }, end))
}

/// Reads a whole stream. Returns its table and how the stream ended (Arrow Columnar Format, "IPC
/// Streaming Format").
///
/// It takes exactly the bytes through the end-of-stream mark, or all bytes of the source if the
/// stream ends without a mark.
///
/// Errors, with the last byte that was taken of the source:
///
/// - F1: byte 4 of a message.
/// - F2, F3, and F10 for an end-of-stream mark: byte 8 of a message.
/// - F5 to F9, and F12 to F24: the last byte of a message's metadata.
/// - F10, F11, and F25 to F34: the last byte of a message's body.
/// - F4: the source ends elsewhere than after the schema and between two messages.
/// - F36: exactly if the source failed in this call.
/// - F37: memory ran out, after byte 8 of a message.
pub fn read_table<R: Source>(
    alloc: Global,
    limits: &Limits,
    source: &mut R,
) -> Result<(Table, End), Fault>
    // The bytes that were taken denote the result. If no mark ended the stream, the source is at
    // its end.
    ensures denotes { IfOk result (λ a. (x : List ℕ)
        × Consumes (R.remaining source.old) (R.remaining source.new) x
        × Denotes limits.now x a.0 a.1
        × (a.1 ≡ Closed → IsAtEnd (R.remaining source.new))) }
    // A table with its mark is answered, whatever follows, unless memory runs out or the source
    // fails.
    ensures marked { (x rest : List ℕ) (t : Table)
        → R.remaining source.old ≡ Some (x ++ rest) → Denotes limits.now x t Mark
        → R.failures source.new ≡ 0
        → MatchResult result (λ a. (a.0 ≡ t) × (a.1 ≡ Mark)) (λ fault. fault ≡ Fault.OutOfMemory) }
    // One without a mark is answered where nothing follows, unless memory runs out or the source
    // fails.
    ensures closed { (x : List ℕ) (t : Table)
        → R.remaining source.old ≡ Some x → Denotes limits.now x t Closed
        → R.failures source.new ≡ 0
        → MatchResult result (λ a. (a.0 ≡ t) × (a.1 ≡ Closed))
        (λ fault. fault ≡ Fault.OutOfMemory) }
    // Whatever the answer, what was taken, and why reading ended there.
    ensures exact { TakesTable limits.now (R.remaining source.old) (R.remaining source.new) result }
    // Memory runs out only after the first eight bytes of a message, and not at the mark.
    ensures memory { IfErr result (λ fault. fault ≡ Fault.OutOfMemory
        → RunsOut limits.now (R.remaining source.old) (R.remaining source.new)) }
    // F36 is answered exactly where the source failed in this call.
    ensures failures { FailsAs (R.failures source.old) (R.failures source.new) result }
{
    read_messages(alloc, limits, source)
}
