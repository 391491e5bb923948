use crate::frame::Frame;
use crate::partial_message::{Expectation, FramePhase, PartialMessage, bytes_needed};
use crate::pull::read_part;
use crate::step::{conclude, feed_on, refuse};
use ipc_device::Source;
use ipc_model::{Fault, Limits};
use std::alloc::Global;
use std::marker::Model;

/// Splits a stream, whose bytes arrive in pieces of any length, into its messages (Arrow Columnar
/// Format, "Encapsulated message format" and "IPC Streaming Format").
///
/// Bytes are pushed by `feed` or pulled by `feed_from`, and the two may be mixed. The bytes of the
/// current message that came are kept in two buffers: one for its metadata and one for its body,
/// which become those of the message.
///
/// The buffers grow as bytes come, whatever lengths the message states. After each call, each of
/// them has room for at most twice the bytes of the message that came, and 64 KiB, or for what it
/// had room for before. The first eight bytes of a message take no memory. Between two messages
/// only a buffer that was passed to `reuse` is kept. No buffer is kept after the end-of-stream
/// mark, after a refusal, or after `close`.
///
/// After a refusal each call returns F35 (`Failed`) and takes no bytes.
#[derive(Drop)]
pub struct Frames {
    parts: PartialMessage,
    phase: FramePhase,
    limits: Limits,
    alloc: Global,
}

impl Model for Frames {
    ghost use Rattle.ipc_frame.specs.Parts.{capacity_of};
    ghost use Rattle.ipc_frame.specs.Pieces.{Framing, progress_of, MatchesPhase};

    ghost Value = { Framing };

    ghost view = { λ s. record {
      limits = s.limits;
      progress = progress_of s.parts s.phase;
      room = capacity_of s.parts;
    } };

    ghost invariant = { λ s. MatchesPhase s.limits s.parts s.phase };
}

impl Frames {
    ghost use Rattle.std.specs.Prelude.{◌≡◌, ◌≤◌, ◌+◌, [], IfErr, IfSome, MatchResult, OnOk};
    ghost use Rattle.std.specs.Prelude.{vec_capacity};
    ghost use Rattle.ipc_frame.specs.Buffers.{KeepsOne};
    ghost use Rattle.ipc_frame.specs.Parts.{GrowsWithBytes, no_capacity};
    ghost use Rattle.ipc_frame.specs.Pulled.{FailsWhile, TakesFromSource};
    ghost use Rattle.ipc_frame.specs.Pieces.{Closes, FeedsFrames, DropsBuffers, TakesBuffer};
    ghost use Rattle.ipc_frame.specs.Pieces.{TakesMemory, Wants, held_of, refused, taking};

    /// Starts at the beginning of a stream. All that it accepts, in each call, is within `limits`.
    pub fn new(alloc: Global, limits: Limits) -> Frames
        ensures limits { result.limits ≡ limits }
        ensures progress { result.progress ≡ taking [] }
        ensures room { result.room ≡ no_capacity }
    {
        Frames {
            parts: PartialMessage::new(alloc),
            phase: FramePhase::Reading(Expectation::Continuation),
            limits,
            alloc,
        }
    }

    /// Takes a beginning of `piece`, up to the end of the first message or end-of-stream mark.
    /// Returns the number of bytes taken, and the message or mark if it is complete. If none is
    /// complete, the whole piece is taken.
    ///
    /// Pass the bytes that were not taken to the next call. After the end-of-stream mark, or after
    /// a `close` that returned `Ok`, no bytes are taken, and the call returns `Ok((0, None))`.
    ///
    /// Errors, each with the byte that decides it, wherever the piece ends:
    ///
    /// - `NotContinued` (F1), at byte 4: the bytes are not the continuation mark.
    /// - `BadMetadataLength` (F2), at byte 8: the size of the metadata is negative.
    /// - `MetadataTooLong` (F3), at byte 8: the size is above `limits.metadata`.
    /// - F5 to F9 and F12 to F24, at the last byte of the metadata: the metadata states no valid
    ///   head within the limits. `ipc_meta::read_message` explains each of them.
    /// - `Failed` (F35): an earlier call was refused.
    /// - `OutOfMemory` (F37): memory for a buffer or for the head ran out, after byte 8.
    pub fn feed(&mut self, piece: &[u8]) -> Result<(usize, Option<Frame>), Fault>
        ensures feeds { FeedsFrames self.old.limits self.old.progress piece.now self.new.progress
            result }
        ensures limits { self.new.limits ≡ self.old.limits }
        // No buffer is kept after a message, after the end-of-stream mark and after a refusal.
        ensures moved { MatchResult result (λ found. IfSome found.1
            (λ _. self.new.room ≡ no_capacity))
            (λ _. self.new.room ≡ no_capacity) }
        ensures let_go { DropsBuffers self.new.progress self.new.room }
        // Buffers grow as bytes come, whatever the message states.
        ensures grown { GrowsWithBytes self.old.room self.new.room (held_of self.new.progress) }
        // Memory runs out only after the first eight bytes of a message, and not at the mark.
        ensures memory { IfErr result (λ fault. fault ≡ Fault.OutOfMemory
            → TakesMemory self.old.limits self.old.progress piece.now) }
    {
        feed_on(
            self.alloc,
            &self.limits,
            &mut self.parts,
            &mut self.phase,
            piece,
        )
    }

    /// Takes at most `wants` bytes from the source. The code calls it once, and stores what comes
    /// without a further copy. Returns the number of bytes that came, also with a refusal, and the
    /// message or end-of-stream mark that they complete.
    ///
    /// Without a refusal, a count of 0 means that the source is at its end. After the end-of-stream
    /// mark, or after a `close` that returned `Ok`, the source is not called, and the result is
    /// `(0, Ok(None))`.
    ///
    /// Errors: those of `feed`, each with the byte that decides it, and `Read` (F36) if the source
    /// failed.
    pub fn feed_from<R: Source>(&mut self, source: &mut R) -> (usize, Result<Option<Frame>, Fault>)
        ensures takes { TakesFromSource self.old.limits (R.remaining source.old)
            (R.remaining source.new) self.old.progress self.new.progress result.0 result.1 }
        ensures limits { self.new.limits ≡ self.old.limits }
        ensures fewer { OnOk result.1 ((R.bound source.new + result.0) ≤ R.bound source.old) }
        ensures failures { FailsWhile self.old.progress (R.failures source.old)
            (R.failures source.new) result.1 }
        // No buffer is kept after a message, after the end-of-stream mark and after a refusal.
        ensures moved { MatchResult result.1 (λ found. IfSome found
            (λ _. self.new.room ≡ no_capacity))
            (λ _. self.new.room ≡ no_capacity) }
        ensures let_go { DropsBuffers self.new.progress self.new.room }
        // Buffers grow as bytes come, whatever the message states.
        ensures grown { GrowsWithBytes self.old.room self.new.room (held_of self.new.progress) }
        // Memory runs out only after the first eight bytes of a message, and not at the mark.
        ensures memory { IfErr result.1 (λ fault. fault ≡ Fault.OutOfMemory
            → TakesMemory self.old.limits self.old.progress []) }
    {
        match self.phase {
            FramePhase::Ended => (0, Ok(None)),
            FramePhase::Refused => (0, Err(Fault::Failed)),
            FramePhase::Reading(expectation) => {
                match read_part(&self.limits, source, &mut self.parts, expectation) {
                    Ok(count) => {
                        let result = conclude(
                            self.alloc,
                            &self.limits,
                            &mut self.parts,
                            &mut self.phase,
                            expectation,
                        );
                        (count, result)
                    }
                    Err(fault) => {
                        let fault = refuse(self.alloc, &mut self.parts, &mut self.phase, fault);
                        (0, Err(fault))
                    }
                }
            }
        }
    }

    /// Offers a buffer for the next body, so that up to its length no memory is allocated and
    /// cleared. Its contents are never read.
    ///
    /// One buffer is kept: the one with more room, this one or the one that was kept before. This
    /// one is dropped if bytes of a body already came. None is kept after the end-of-stream mark,
    /// and after a refusal.
    pub fn reuse(&mut self, buffer: Vec<u8>)
        ensures progress { self.new.progress ≡ self.old.progress }
        ensures limits { self.new.limits ≡ self.old.limits }
        // One buffer is kept for the next body: this one, or the one that was kept before.
        ensures kept { KeepsOne (TakesBuffer self.old.limits self.old.progress self.old.room.body
            (vec_capacity buffer)) self.old.room.body self.new.room.body (vec_capacity buffer) }
        ensures metadata { self.new.room.metadata ≡ self.old.room.metadata }
        ensures let_go { DropsBuffers self.new.progress self.new.room }
    {
        if let FramePhase::Reading(_) = self.phase {
            self.parts.body.reuse(buffer);
        }
    }

    /// Returns the number of bytes before the next decision: to byte 4 of a message, to byte 8, to
    /// the end of its metadata, or to the end of its body. Returns 0 after the end-of-stream mark,
    /// after a refusal, and after a `close` that returned `Ok`. It never fails and takes no memory.
    pub fn wants(&self) -> usize
        ensures { Wants self.now.limits self.now.progress result }
    {
        match self.phase {
            FramePhase::Reading(expectation) => {
                bytes_needed(&self.limits, &self.parts, expectation)
            }
            FramePhase::Ended | FramePhase::Refused => 0,
        }
    }

    /// Returns the number of bytes of the current message that came. It never fails and takes no
    /// memory.
    ///
    /// The room of the buffers is not counted: neither room for later bytes, nor a buffer that was
    /// passed to `reuse`, over whose bytes the next body is read.
    pub fn held(&self) -> usize
        ensures came { result ≡ held_of self.now.progress }
        // The mark and the size have 8 bytes, and the limits bound the metadata and the body.
        ensures bounded { result ≤ 8 + self.now.limits.metadata + self.now.limits.body }
    {
        self.parts.start.len() + self.parts.meta.len() + self.parts.body.len()
    }

    /// Returns the limits that it was created with.
    pub fn limits(&self) -> Limits
        ensures { result ≡ self.now.limits }
    {
        self.limits
    }

    /// Refuses the stream for a fault that the caller found in a message, and returns this fault.
    /// From now on each call returns F35 (`Failed`), and takes no bytes. It takes no memory.
    pub fn refuse(&mut self, fault: Fault) -> Fault
        ensures fault { result ≡ fault }
        ensures progress { self.new.progress ≡ refused }
        ensures limits { self.new.limits ≡ self.old.limits }
        // No buffer is kept.
        ensures let_go { self.new.room ≡ no_capacity }
    {
        refuse(self.alloc, &mut self.parts, &mut self.phase, fault)
    }

    /// Ends the input: no more bytes come. Returns `Ok` before the first message, between two
    /// messages, and after the end-of-stream mark, also in a second call. It takes no memory.
    ///
    /// Errors: `Truncated` (F4) inside a message, which is a refusal as in `feed`; `Failed` (F35)
    /// after a refusal.
    pub fn close(&mut self) -> Result<(), Fault>
        ensures closed { Closes self.old.progress self.new.progress result }
        ensures limits { self.new.limits ≡ self.old.limits }
        // No buffer is kept, whatever the result.
        ensures let_go { self.new.room ≡ no_capacity }
    {
        match self.phase {
            FramePhase::Ended => Ok(()),
            FramePhase::Refused => Err(Fault::Failed),
            FramePhase::Reading(Expectation::Continuation) if self.parts.start.len() == 0 => {
                self.parts = PartialMessage::new(self.alloc);
                self.phase = FramePhase::Ended;
                Ok(())
            }
            FramePhase::Reading(_) => {
                let fault = Fault::Truncated;
                Err(refuse(self.alloc, &mut self.parts, &mut self.phase, fault))
            }
        }
    }
}
