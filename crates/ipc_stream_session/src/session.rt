//! A stream that is read, as a value between the calls of a program in another language.
ghost use Rattle.std.specs.Prelude.{◌≡◌, None};
ghost use Rattle.ipc_stream_read.specs.Decoding.{Wants, progress_at, schema_of};
ghost use Rattle.ipc_stream_session.specs.Fields.{FindsFieldIn, FindsTextIn};
ghost use Rattle.ipc_stream_session.specs.Sessions.{Closes, Feeds, GivesLine, GivesSchemaText};
ghost use Rattle.ipc_stream_session.specs.Sessions.{IsNew, TakesBack, arrival_of, batch_in};
ghost use Rattle.ipc_stream_session.specs.Sessions.{with_refusal};

use crate::arrival::Arrival;
use crate::batch::ReadBatch;
use crate::field::{FieldFacts, FieldText, facts_at, text_at};
use ipc_model::{Fault, FaultAt, Limits};
use ipc_stream_read::{Decoder, End, Event};
use ipc_text_json::schema_json;
use std::alloc::Global;

/// A stream that is read in pieces, with the batch that came last and the first refusal.
///
/// The states and refusals are those of `ipc_stream_read::Decoder`: after a refusal each call of
/// `feed` and `close` returns `Failed` (F35), and the schema and the refusal remain.
#[derive(Drop)]
pub struct ReadSession {
    decoder: Decoder,
    batch: Option<ReadBatch>,
    refusal: Option<FaultAt>,
    alloc: Global,
}

impl ReadSession {
    /// Creates a session at the beginning of a stream. All that it accepts is within `limits`. It
    /// takes no memory.
    pub fn new(alloc: Global, limits: Limits) -> ReadSession
        ensures { IsNew limits result }
    {
        ReadSession {
            decoder: Decoder::new(alloc, limits),
            batch: None,
            refusal: None,
            alloc,
        }
    }

    /// Drops the batch that was not taken, and then takes a beginning of `piece`, up to the first
    /// arrival. Returns the number of bytes taken and what came. Pass the bytes that were not taken
    /// to the next call. Nothing is taken after the end-of-stream mark and after a `close` that
    /// returned `Ok`.
    ///
    /// Errors: those of `Decoder::feed`, each with the byte that decides it. The first one is kept
    /// with the number of its message.
    pub fn feed(&mut self, piece: &[u8]) -> Result<(usize, Arrival), Fault>
        ensures { Feeds self.old piece.now self.new result }
    {
        self.batch = None;
        match self.decoder.feed(piece) {
            Ok((taken, event)) => Ok((taken, self.arrive(event))),
            Err(fault) => Err(self.note(fault)),
        }
    }

    // Keeps a batch that came, and names the event.
    fn arrive(&mut self, event: Option<Event>) -> Arrival
        requires { self.old.batch ≡ None }
        ensures arrival { result ≡ arrival_of event }
        ensures batch { batch_in event self.new.batch }
        ensures decoder { self.new.decoder ≡ self.old.decoder }
        ensures refusal { self.new.refusal ≡ self.old.refusal }
    {
        match event {
            None => Arrival::Nothing,
            Some(Event::Schema) => Arrival::Schema,
            Some(Event::End) => Arrival::End,
            Some(Event::Batch(batch, pairs)) => {
                self.batch = Some(ReadBatch::new(self.alloc, batch, pairs));
                Arrival::Batch
            }
        }
    }

    // Keeps the first refusal, with the number of its message.
    fn note(&mut self, fault: Fault) -> Fault
        ensures fault { result ≡ fault }
        ensures refusal { self.new.refusal
            ≡ with_refusal self.old.refusal fault self.old.decoder.messages }
        ensures decoder { self.new.decoder ≡ self.old.decoder }
        ensures batch { self.new.batch ≡ self.old.batch }
    {
        if self.refusal.is_none() {
            self.refusal = Some(fault.at_message(self.decoder.messages()));
        }
        fault
    }

    /// Ends the input: no more bytes come. Returns how the stream ended. The batch that came last
    /// remains.
    ///
    /// Errors: those of `Decoder::close`. The first one is kept with the number of its message.
    pub fn close(&mut self) -> Result<End, Fault>
        ensures { Closes self.old self.new result }
    {
        match self.decoder.close() {
            Ok(end) => Ok(end),
            Err(fault) => Err(self.note(fault)),
        }
    }

    /// Returns the number of bytes before the next decision, or 0 after the end and after a
    /// refusal.
    pub fn wants(&self) -> usize
        ensures { Wants self.now.decoder.limits (progress_at self.now.decoder.stage) result }
    {
        self.decoder.wants()
    }

    /// Returns the number of messages that came, including the schema's and those of dictionaries.
    pub fn messages(&self) -> u64
        ensures { result ≡ self.now.decoder.messages }
    {
        self.decoder.messages()
    }

    /// Returns the schema as a compact JSON object, or `None` before it came. Errors: `OutOfMemory`
    /// only.
    pub fn schema_text(&self) -> Result<Option<String>, Fault>
        ensures { GivesSchemaText self.now.decoder.state result }
    {
        match self.decoder.schema() {
            None => Ok(None),
            Some(schema) => match schema_json(self.alloc, schema) {
                Ok(text) => Ok(Some(text)),
                Err(_) => Err(Fault::OutOfMemory),
            },
        }
    }

    /// Describes the field to which a path leads. The first number of the path is that of a field
    /// of the schema, from 0, and each further one that of a child. An empty path leads to the
    /// schema as a whole, which is described as a struct of its fields. Returns `None` before the
    /// schema came, or if the path leads to no field.
    pub fn field(&self, path: &[u64]) -> Option<FieldFacts>
        ensures { FindsFieldIn (schema_of self.now.decoder.state) path.now result }
    {
        match self.decoder.schema() {
            None => None,
            Some(schema) => facts_at(schema, path),
        }
    }

    /// Returns a text of the field to which a path leads (see `field`), or `None` if the path leads
    /// to no field or the field has no such text. The schema as a whole has an empty name. Errors:
    /// `OutOfMemory` only.
    pub fn field_text(&self, path: &[u64], text: FieldText) -> Result<Option<String>, Fault>
        ensures { FindsTextIn (schema_of self.now.decoder.state) path.now text result }
    {
        match self.decoder.schema() {
            None => Ok(None),
            Some(schema) => text_at(self.alloc, schema, path, text),
        }
    }

    /// Returns the first refusal as one line without a line feed, as in `F4 Truncated at message
    /// 1`, or `None` before a refusal. Errors: `OutOfMemory` only.
    pub fn refusal_text(&self) -> Result<Option<String>, Fault>
        ensures { GivesLine self.now.refusal result }
    {
        match &self.refusal {
            None => Ok(None),
            Some(refusal) => match refusal.to_string(self.alloc) {
                Ok(text) => Ok(Some(text)),
                Err(_) => Err(Fault::OutOfMemory),
            },
        }
    }

    /// Takes the batch that the last piece completed, or returns `None`.
    pub fn take_batch(&mut self) -> Option<ReadBatch>
        ensures batch { result ≡ self.old.batch }
        ensures state { self.new ≡ record self.old { batch = None } }
    {
        self.batch.take()
    }

    /// Takes back a batch that is no longer needed, of this session or of another one. The next
    /// body may be read into its buffer, so that no new memory is allocated and cleared;
    /// `Decoder::reuse` says when. The state of the stream does not change.
    pub fn reuse(&mut self, batch: ReadBatch)
        ensures { TakesBack self.old self.new }
    {
        self.decoder.reuse(batch.into_batch());
    }
}
