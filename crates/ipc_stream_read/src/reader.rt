ghost use Rattle.std.specs.Prelude.{◌≡◌, ◌≢◌, ◌≤◌, ◌-◌, ◌^◌, ◌<◌, ◌++◌, ℕ, List, None, Some, IfOk};
ghost use Rattle.std.specs.Prelude.{Err, IfErr, IfSome, IsSome, MatchResult, Option, length};
ghost use Rattle.ipc_model.specs.declared.limits.Limits.{Limits};
ghost use Rattle.ipc_model.specs.declared.schema.Schema.{Schema};
ghost use Rattle.ipc_model.specs.declared.table.BatchRows.{BatchRows};
ghost use Rattle.ipc_stream_read.specs.declared.end.End.{End};
ghost use Rattle.ipc_stream_read.specs.declared.read_stop.ReadStop.TheVariants.{Held, Refused};
ghost use Rattle.ipc_stream_read.specs.Failures.{StaysOrFails, CountsFault};
ghost use Rattle.ipc_stream_read.specs.Held.{CountsStop, HeldAfter, HeldInAll, HeldSoFar};
ghost use Rattle.ipc_stream_read.specs.Held.{as_fault, fault_of};
ghost use Rattle.ipc_stream_read.specs.Reader.{BeginsEnd, Ended, GivesBatch, KeepsNone, NextCall};
ghost use Rattle.ipc_stream_read.specs.Reader.{OpenFails, Opens, Reading, WorksWhile, end_of};
ghost use Rattle.ipc_stream_read.specs.Reader.{in_force_of};
ghost use Rattle.ipc_stream_read.specs.Reasons.{IsOutside};
ghost use Rattle.ipc_stream_read.specs.Stream.{InForce, OpensStream, SetsOnly, DenotesOneBatch};

use crate::decoder::Decoder;
use crate::end::End;
use crate::event::Event;
use crate::read_stop::ReadStop;
use crate::source_reading::pull_within;
use ipc_column::Batch;
use ipc_device::Source;
use ipc_model::{Fault, Field, Items, Limits, Schema, Text};
use std::alloc::Global;
use std::marker::Model;

/// Reads a stream batch by batch from a source.
#[derive(Drop)]
pub struct StreamReader<R: Source> {
    source: R,
    decoder: Decoder,
    taken: u64,
    ghost open: { decoder.state ≢ None },
    ghost between: { KeepsNone decoder.stage },
    ghost works: { WorksWhile decoder.stage (R.failures source) },
    ghost counted: { decoder.messages ≤ 2 ^ 64 - 1 },
    ghost taken_counted: { taken ≤ 2 ^ 64 - 1 },
}

impl<R: Source> Model for StreamReader<R> {
    ghost use Rattle.std.specs.Coded.{codes};
    ghost use Rattle.ipc_model.specs.contracts.schema.Field as field;
    ghost use Rattle.ipc_model.specs.contracts.value.Value as value;
    ghost use Rattle.ipc_stream_read.specs.Reader.{Reader, dictionaries_in_force, phase_of};
    ghost use Rattle.ipc_stream_read.specs.Reader.{schema_in};

    ghost Value = { Reader };

    ghost coded = { Prim.hlevel (codes, field.the_row.coded, value.the_row.coded) };

    ghost view = { λ s. record {
      remaining = R.remaining s.source;
      failures = R.failures s.source;
      bound = R.bound s.source;
      limits = s.decoder.limits;
      schema = schema_in s.decoder.state;
      dictionaries = dictionaries_in_force s.decoder.state;
      phase = phase_of s.decoder.stage;
      messages = s.decoder.messages;
      taken = s.taken;
    } };
}

impl<R: Source> StreamReader<R> {
    /// Reads the first message, which is the schema's, and no byte after it. All that is read, now
    /// and later, is within `limits`.
    ///
    /// Errors: each fault is returned with the source. A source that failed before returns F36 at
    /// its first call.
    pub fn open(alloc: Global, limits: Limits, source: R) -> Result<StreamReader<R>, (Fault, R)>
        ensures opened { IfOk result (λ s. Opens limits (R.remaining source) s) }
        ensures refused { IfErr result (λ e. OpenFails limits (R.remaining source)
            (R.remaining e.1) e.0) }
        ensures failures { MatchResult result (λ s. (R.failures source ≡ 0) × (s.failures ≡ 0))
            (λ e. CountsFault (R.failures source) (R.failures e.1) e.0) }
        ensures fewer { IfOk result (λ s. s.bound < R.bound source) }
        // The message of a schema, at the front of the source, is read, whatever follows it, unless
        // memory runs out or the source fails.
        ensures schema { (x rest : List ℕ) (s : Schema)
            → R.remaining source ≡ Some (x ++ rest) → OpensStream limits s x
            → MatchResult result (λ reader. reader.schema ≡ s) (λ e. IsOutside e.0) }
    {
        match StreamReader::open_within(alloc, limits, None, source) {
            Ok(reader) => Ok(reader),
            Err((stop, source)) => Err((stop.fault(), source)),
        }
    }

    /// Reads the first message, as `open`, and holds at most `most_held` bytes of it, if there is a
    /// maximum. `Decoder::held` says which bytes are held.
    ///
    /// Errors: `Refused` with the faults of `open`. `Held` if more bytes may be held after the next
    /// call of the source; the source is as a failed one leaves it, but has not failed.
    pub fn open_within(
        alloc: Global,
        limits: Limits,
        most_held: Option<u64>,
        source: R,
    ) -> Result<StreamReader<R>, (ReadStop, R)>
        ensures opened { IfOk result (λ s. Opens limits (R.remaining source) s) }
        ensures refused { IfErr result (λ e. OpenFails limits (R.remaining source)
            (R.remaining e.1) (fault_of e.0)) }
        ensures failures { MatchResult result (λ s. (R.failures source ≡ 0) × (s.failures ≡ 0))
            (λ e. CountsStop (R.failures source) (R.failures e.1) e.0) }
        ensures fewer { IfOk result (λ s. s.bound < R.bound source) }
        // The message of a schema, at the front of the source, is read, whatever follows it, unless
        // memory runs out, the source fails, or more would be held.
        ensures schema { (x rest : List ℕ) (s : Schema)
            → R.remaining source ≡ Some (x ++ rest) → OpensStream limits s x
            → MatchResult result (λ reader. reader.schema ≡ s) (λ e. IsOutside (fault_of e.0)) }
        // After each byte that was taken, at most `most_held` bytes were held. At `Held` more would
        // be with the bytes up to the next decision on the message.
        ensures held { MatchResult result
            (λ s. HeldSoFar limits most_held (R.remaining source) s)
            (λ e. HeldInAll limits most_held (R.remaining source) (R.remaining e.1)
            (e.0 ≡ Held)) }
    {
        let mut source = source;
        let mut decoder = Decoder::new(alloc, limits);
        let mut taken = 0;
        match pull_within(&mut source, &mut decoder, &mut taken, most_held) {
            // The decoder refuses a stream that begins with anything else than a schema.
            Ok(_) => Ok(StreamReader {
                source,
                decoder,
                taken,
            }),
            Err(stop) => Err((stop, source)),
        }
    }

    /// Returns the limits that the reader was opened with.
    pub fn limits(&self) -> Limits
        ensures { result ≡ self.now.limits }
    {
        self.decoder.limits()
    }

    /// Returns the schema of the stream.
    pub fn schema(&self) -> &Schema
        ensures { result.now ≡ self.now.schema }
    {
        self.decoder.schema().unwrap()
    }

    /// Returns the columns of the stream. Field `i` defines the meaning of the cells in column `i`
    /// of each batch. For an `Int` cell, its type defines whether it is a number, a date, a time, a
    /// timestamp or a duration, and its unit.
    pub fn fields(&self) -> &[Field]
        ensures { result.now ≡ self.now.schema.fields }
    {
        self.schema().fields.as_slice()
    }

    /// Returns the next batch with the pairs of key and value of its message, in order; keys may
    /// repeat (Message.fbs, table Message, `custom_metadata`). Returns `None` at the end of the
    /// stream and in each later call. Dictionaries that come before the batch are set, and remain
    /// in force.
    ///
    /// Errors: F36 if the source failed, F37 if memory ran out, and any other refusal of the
    /// stream. After a refusal each call returns F35 and takes no bytes.
    pub fn next(&mut self) -> Result<Option<(Batch, Items<(Text, Text)>)>, Fault>
        ensures next { NextCall self.old self.new result }
        // A batch has a column for each field of the schema.
        ensures columns { IfOk result
            (λ next. IfSome next (λ found. found.0.columns ≡ length self.old.schema.fields)) }
        ensures fewer { IfOk result (λ next. IsSome next → self.new.bound < self.old.bound) }
        ensures failures { StaysOrFails self.old.failures self.new.failures result }
        // F36 is answered only where the source had not failed before.
        ensures rose { IfErr result (λ fault. fault ≡ Fault.Read → self.old.failures ≡ 0) }
        // Messages that denote a batch, at the front of the source, are read, whatever dictionaries
        // they set and whatever follows them, unless memory runs out or the source fails.
        ensures batch { (x rest : List ℕ) (b : BatchRows)
            → self.old.phase ≡ Reading → self.old.remaining ≡ Some (x ++ rest)
            → DenotesOneBatch self.old.limits (in_force_of self.old) b x
            → MatchResult result (λ next. GivesBatch next b) IsOutside }
        // An end of the stream is read too, after messages that only set dictionaries: the mark, or
        // the end of the source.
        ensures ended { (x z : List ℕ) (o : InForce) (end : End)
            → self.old.phase ≡ Reading → self.old.remaining ≡ Some (x ++ z)
            → SetsOnly self.old.limits (in_force_of self.old) x o → BeginsEnd end z
            → MatchResult result (λ next. (next ≡ None) × (self.new.phase ≡ Ended end))
            IsOutside }
    {
        match self.next_within(None) {
            Ok(next) => Ok(next),
            Err(stop) => Err(stop.fault()),
        }
    }

    /// Returns the next batch, as `next`, and holds at most `most_held` bytes, if there is a
    /// maximum: those of the current message, and the bodies of the dictionaries in force.
    ///
    /// Errors: `Refused` with the faults of `next`. `Held` if more bytes may be held after the next
    /// call of the source: nothing more is taken from it, and each later call returns F35. The
    /// message has the number `messages`.
    pub fn next_within(
        &mut self,
        most_held: Option<u64>,
    ) -> Result<Option<(Batch, Items<(Text, Text)>)>, ReadStop>
        // `Held` is like a failure of the source: an undecided beginning of a message was taken.
        ensures next { NextCall self.old self.new (as_fault result) }
        // A batch has a column for each field of the schema.
        ensures columns { IfOk result
            (λ next. IfSome next (λ found. found.0.columns ≡ length self.old.schema.fields)) }
        ensures fewer { IfOk result (λ next. IsSome next → self.new.bound < self.old.bound) }
        ensures failures { MatchResult result (λ _. self.new.failures ≡ self.old.failures)
            (λ why. CountsStop self.old.failures self.new.failures why) }
        // F36 is answered only where the source had not failed before.
        ensures rose { IfErr result (λ why. why ≡ Refused Fault.Read → self.old.failures ≡ 0) }
        ensures unlimited { most_held ≡ None → result ≡ Err Held → ⊥ }
        // If each call had this maximum, never more bytes were held. At `Held` more would be with
        // the bytes up to the next decision on the message.
        ensures held { (limits : Limits) (start : Option (List ℕ))
            → HeldSoFar limits most_held start self.old
            → HeldAfter limits most_held start self.new result }
    {
        if self.decoder.wants() == 0 {
            return match self.decoder.end() {
                Some(_) => Ok(None),
                None => Err(ReadStop::Refused(Fault::Failed)),
            };
        }
        match pull_within(
            &mut self.source,
            &mut self.decoder,
            &mut self.taken,
            most_held,
        )? {
            Some(Event::Schema) => unreachable!(),
            Some(Event::Batch(batch, pairs)) => Ok(Some((batch, pairs))),
            Some(Event::End) => Ok(None),
            None => Ok(None),
        }
    }

    /// Takes a batch back that is no longer needed, so that the next body is read over its bytes,
    /// as `Decoder::reuse` does. The state of the stream does not change.
    pub fn reuse(&mut self, batch: Batch)
        ensures { self.new ≡ self.old }
    {
        self.decoder.reuse(batch)
    }

    /// Returns how the stream ended, or `None` until `next` has returned `Ok(None)`.
    pub fn end(&self) -> Option<End>
        ensures { result ≡ end_of self.now.phase }
    {
        self.decoder.end()
    }

    /// Returns the number of messages that were read, including the schema's and those of
    /// dictionaries. A refused message is not counted. The count saturates at 2^64 - 1.
    pub fn messages(&self) -> u64
        ensures { result ≡ self.now.messages }
    {
        self.decoder.messages()
    }

    /// Returns the number of bytes that were taken from the source, including the end-of-stream
    /// mark. The count saturates at 2^64 - 1.
    pub fn taken(&self) -> u64
        ensures { result ≡ self.now.taken }
    {
        self.taken
    }

    /// Returns the source. It still has the bytes that were not taken.
    pub fn into_inner(self) -> R
        ensures remaining { R.remaining result ≡ self.remaining }
        ensures bound { R.bound result ≡ self.bound }
        ensures failures { R.failures result ≡ self.failures }
    {
        let StreamReader {
            source,
            decoder: _,
            taken: _,
        } = self;
        source
    }
}
