use crate::end::End;
use crate::event::Event;
use crate::next_frame::{accept, feed_on};
use crate::scope::Scope;
use crate::stream_state::StreamState;
use ipc_column::Batch;
use ipc_device::Source;
use ipc_frame::Frames;
use ipc_model::{Fault, Limits, Schema};
use std::alloc::Global;
use std::marker::Model;

/// Reads a stream whose bytes arrive in pieces of any length (Arrow Columnar Format, "IPC Streaming
/// Format" and "Encapsulated message format").
///
/// Bytes are pushed by `feed` or pulled by `feed_from`, and the two may be mixed. The decoder keeps
/// the bytes of the current message that came. The body of a record batch becomes that of the
/// batch. The body of a dictionary batch is kept while its dictionary is in force.
///
/// Buffers grow as bytes come, whatever lengths a message states. After each call, the buffers for
/// the metadata and for the body each have room for at most twice the bytes of the message that
/// came, and 64 KiB, or for what they had room for before. Pass a batch that is no longer needed to
/// `reuse`.
///
/// After a refusal each call returns `Failed` (F35) and takes no bytes; earlier events remain
/// valid. After the end-of-stream mark, or after a `close` that returned `Ok`, no bytes are taken
/// either.
#[derive(Drop)]
pub struct Decoder {
    frames: Frames,
    stream: StreamState,
    alloc: Global,
}

impl Model for Decoder {
    ghost use Rattle.std.specs.Coded.{codes};
    ghost use Rattle.ipc_model.specs.contracts.schema.Field as field;
    ghost use Rattle.ipc_model.specs.contracts.value.Value as value;
    ghost use Rattle.ipc_stream_read.specs.StreamStates.{IsSound, decoding_of};
    ghost use Rattle.ipc_stream_read.specs.Decoding.{Decoding};

    ghost Value = { Decoding };

    ghost coded = { Prim.hlevel (codes, field.the_row.coded, value.the_row.coded) };

    ghost view = { λ s. decoding_of s.frames s.stream };

    ghost invariant = { λ s. IsSound s.frames s.stream };
}

impl Decoder {
    ghost use Rattle.std.specs.Prelude.{◌≡◌, ◌≤◌, ◌+◌, ℕ, List, [], None, IfOk, IfSome};
    ghost use Rattle.std.specs.Prelude.{MatchResult, OnOk, IsFalse, IsTrue, length, option_copied};
    ghost use Rattle.ipc_frame.specs.Frames.{Pending};
    ghost use Rattle.ipc_frame.specs.Parts.{GrowsWithBytes, no_capacity};
    ghost use Rattle.ipc_frame.specs.Pieces.{DropsBuffers, Wants, held_of};
    ghost use Rattle.ipc_frame.specs.Pulled.{FailsWhile};
    ghost use Rattle.ipc_stream_read.specs.Decoding.{ClosesAt, Draws, Feeds, HasColumns};
    ghost use Rattle.ipc_stream_read.specs.Decoding.{at_stage, dictionary_bytes, progress_at};
    ghost use Rattle.ipc_stream_read.specs.Decoding.{refused, schema_of, stored_bytes, taking};
    ghost use Rattle.ipc_stream_read.specs.Held.{IsWithin};
    ghost use Rattle.ipc_stream_read.specs.Reader.{end_of, phase_of};

    /// Creates a decoder at the beginning of a stream. All that it accepts, in each call, is within
    /// `limits`. It takes no memory.
    pub fn new(alloc: Global, limits: Limits) -> Decoder
        ensures limits { result.limits ≡ limits }
        ensures state { result.state ≡ None }
        ensures stage { result.stage ≡ taking [] }
        ensures messages { result.messages ≡ 0 }
        ensures room { result.room ≡ no_capacity }
    {
        Decoder {
            frames: Frames::new(alloc, limits),
            stream: StreamState {
                scope: None,
                end: None,
                messages: 0,
            },
            alloc,
        }
    }

    /// Takes a beginning of `piece`, up to the first event. Returns the number of bytes taken, and
    /// the event if there is one. Without an event the whole piece is taken.
    ///
    /// A dictionary batch is no event: its values are in force from its last byte on, and the
    /// following bytes are taken in this call too. Pass the bytes that were not taken to the next
    /// call. After the end-of-stream mark, or after a `close` that returned `Ok`, no bytes are
    /// taken, and the call returns `Ok((0, None))`.
    ///
    /// Each refusal comes with the byte that decides it, wherever the piece ends, and is true of
    /// the current message:
    ///
    /// - at its byte 4: F1, the bytes are not the continuation mark;
    /// - at its byte 8: F2 and F3, for the size of the metadata, and F10, for an end-of-stream mark
    ///   before the schema;
    /// - at the last byte of its metadata: F5 to F9 and F12 to F24, for what the metadata states;
    /// - at the last byte of its body: F10 if the first message is not a schema, and F11 if a later
    ///   one is;
    /// - at the last byte of its body: F25 if no field has the dictionary's id, F26 to F33 for a
    ///   dictionary batch, and F26 to F34 for a record batch.
    ///
    /// Other errors: `Failed` (F35) if an earlier call was refused; `OutOfMemory` (F37) if memory
    /// ran out, after byte 8 of a message.
    pub fn feed(&mut self, piece: &[u8]) -> Result<(usize, Option<Event>), Fault>
        ensures fed { Feeds self.old piece.now self.new result }
        ensures limits { self.new.limits ≡ self.old.limits }
        // A batch has a column for each field of the schema.
        ensures columns { IfOk result (λ found. IfSome found.1 (HasColumns self.new.state)) }
        // No buffer is kept with an event and after a refusal.
        ensures moved { MatchResult result (λ found. IfSome found.1
            (λ _. self.new.room ≡ no_capacity))
            (λ _. self.new.room ≡ no_capacity) }
        // Buffers grow as bytes come, whatever the message states.
        ensures grown { GrowsWithBytes self.old.room self.new.room
            (held_of (progress_at self.new.stage)) }
    {
        feed_on(self.alloc, &mut self.frames, &mut self.stream, piece)
    }

    /// Calls the source once, for at most `wants` bytes, and stores what comes without a further
    /// copy. Returns the number of bytes that came, also with a refusal, and the event that they
    /// complete. A dictionary batch is no event.
    ///
    /// Without a refusal, a count of 0 means that the source is at its end. After the end-of-stream
    /// mark, or after a `close` that returned `Ok`, the source is not called, and the result is
    /// `(0, Ok(None))`.
    ///
    /// Errors: those of `feed`, each with the byte that decides it, and `Read` (F36) if the source
    /// failed.
    pub fn feed_from<R: Source>(&mut self, source: &mut R) -> (usize, Result<Option<Event>, Fault>)
        ensures drawn { Draws (R.remaining source.old) (R.remaining source.new) self.old self.new
            result.0 result.1 }
        ensures limits { self.new.limits ≡ self.old.limits }
        ensures fewer { OnOk result.1 ((R.bound source.new + result.0) ≤ R.bound source.old) }
        ensures failures { FailsWhile (progress_at self.old.stage) (R.failures source.old)
            (R.failures source.new) result.1 }
        // A batch has a column for each field of the schema.
        ensures columns { IfOk result.1 (λ found. IfSome found (HasColumns self.new.state)) }
        // No buffer is kept with an event and after a refusal.
        ensures moved { MatchResult result.1 (λ found. IfSome found
            (λ _. self.new.room ≡ no_capacity))
            (λ _. self.new.room ≡ no_capacity) }
        // Buffers grow as bytes come, whatever the message states.
        ensures grown { GrowsWithBytes self.old.room self.new.room
            (held_of (progress_at self.new.stage)) }
    {
        let (count, result) = self.frames.feed_from(source);
        match result {
            Err(fault) => (count, Err(fault)),
            Ok(None) => (count, Ok(None)),
            Ok(Some(frame)) => {
                let found = accept(self.alloc, &mut self.frames, &mut self.stream, frame);
                (count, found)
            }
        }
    }

    /// Takes a batch back that is no longer needed. The next body is read over its bytes, so no
    /// memory is allocated and cleared up to its length. The state of the stream does not change.
    ///
    /// The batch is dropped if it still has clones, or if bytes of a body already came. It is also
    /// dropped at the end of the stream, and after a refusal.
    pub fn reuse(&mut self, batch: Batch)
        ensures same { self.new ≡ record self.old { room = self.new.room } }
        // One buffer is kept for the next body, and none after the end or a refusal.
        ensures metadata { self.new.room.metadata ≡ self.old.room.metadata }
        ensures let_go { DropsBuffers (progress_at self.new.stage) self.new.room }
    {
        if let Some(body) = batch.into_body() {
            self.frames.reuse(body);
        }
    }

    /// Returns the schema of the stream, or `None` before its message is complete. The schema
    /// remains after a refusal.
    pub fn schema(&self) -> Option<&Schema>
        ensures { option_copied result ≡ schema_of self.now.state }
    {
        match &self.stream.scope {
            Some(scope) => Some(&scope.schema),
            None => None,
        }
    }

    /// Returns the number of bytes before the next decision: to byte 4 of a message, to byte 8, to
    /// the end of its metadata, or to the end of its body. Returns 0 after the end-of-stream mark,
    /// after a refusal, and after a `close` that returned `Ok`. It never fails and takes no memory.
    pub fn wants(&self) -> usize
        ensures { Wants self.now.limits (progress_at self.now.stage) result }
    {
        self.frames.wants()
    }

    /// Returns the number of bytes that are kept: all that came of the current message, and the
    /// bodies of the dictionaries in force. After the end and after a refusal only the dictionaries
    /// are kept. The body of a batch that was passed to `reuse` is not counted: at most one is
    /// kept, between two messages. The count saturates at 2^64 - 1. It never fails and takes no
    /// memory.
    pub fn held(&self) -> usize
        ensures { result ≡ stored_bytes self.now }
    {
        let dictionaries = match &self.stream.scope {
            Some(scope) => scope.held(),
            None => 0,
        };
        dictionaries.saturating_add(self.frames.held())
    }

    /// Returns the limits that the decoder was created with.
    pub fn limits(&self) -> Limits
        ensures { result ≡ self.now.limits }
    {
        self.frames.limits()
    }

    // Whether at most `most` bytes are held after the next call of a source, if there is a maximum.
    pub(crate) fn has_room(&self, most: Option<u64>) -> bool
        ensures within { (z : List ℕ) (k : ℕ) → self.now.stage ≡ taking z
            → Pending self.now.limits z k → IsTrue result
            → IsWithin most (dictionary_bytes self.now.state + length z + k) }
        ensures above { (z : List ℕ) (k : ℕ) → self.now.stage ≡ taking z
            → Pending self.now.limits z k → IsFalse result
            → IsWithin most (dictionary_bytes self.now.state + length z + k) → ⊥ }
    {
        match most {
            None => true,
            Some(most) => match most.checked_sub(self.held() as u64) {
                Some(room) => self.wants() as u64 <= room,
                None => false,
            },
        }
    }

    // Takes no more bytes: from now on each call returns F35.
    pub(crate) fn give_up(&mut self)
        requires { end_of (phase_of self.old.stage) ≡ None }
        ensures { self.new ≡ at_stage self.old refused }
    {
        self.frames.refuse(Fault::Failed);
    }

    // How the stream ended, if it did.
    pub(crate) fn end(&self) -> Option<End>
        ensures { result ≡ end_of (phase_of self.now.stage) }
    {
        self.stream.end
    }

    // The schema that is in force, alone.
    pub(crate) fn into_schema(self) -> Option<Schema>
        ensures { result ≡ schema_of self.state }
    {
        let Decoder {
            frames: _,
            stream,
            alloc: _,
        } = self;
        stream.scope.map(Scope::into_schema)
    }

    /// Returns the number of messages that came, including the schema's and those of dictionaries.
    /// A refused message is not counted. The count saturates at 2^64 - 1.
    pub fn messages(&self) -> u64
        ensures { result ≡ self.now.messages }
    {
        self.stream.messages
    }

    /// Ends the input: no more bytes come. Returns `End::Closed` after the schema and between two
    /// messages, and `End::Mark` after the end-of-stream mark. A second call returns this end
    /// again. It takes no memory.
    ///
    /// Errors: `Truncated` (F4) inside a message and before the schema, which is a refusal as in
    /// `feed`; `Failed` (F35) after a refusal.
    pub fn close(&mut self) -> Result<End, Fault>
        ensures closes { ClosesAt self.old self.old.stage self.new result }
        // No buffer is kept, whatever the result.
        ensures let_go { self.new.room ≡ no_capacity }
    {
        if let Some(end) = self.stream.end {
            return Ok(end);
        }
        self.frames.close()?;
        if self.stream.scope.is_none() {
            return Err(self.frames.refuse(Fault::Truncated));
        }
        self.stream.end = Some(End::Closed);
        Ok(End::Closed)
    }
}
