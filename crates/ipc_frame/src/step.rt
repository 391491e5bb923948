ghost use Rattle.std.specs.Prelude.{◌≡◌, [], IfErr, IfSome, MatchResult};
ghost use Rattle.ipc_frame.specs.Parts.{FitsExpectation, GrowsWithBytes, HasSize};
ghost use Rattle.ipc_frame.specs.Parts.{capacity_of, no_capacity, received_bytes};
ghost use Rattle.ipc_frame.specs.Pieces.{Concludes, FeedsFrames, MatchesPhase, TakesMemory};
ghost use Rattle.ipc_frame.specs.Pieces.{held_of, progress_of};

use crate::decision::{Decision, decide};
use crate::frame::Frame;
use crate::message_prefix::MessagePrefix;
use crate::partial_buffer::PartialBuffer;
use crate::partial_message::{Expectation, FramePhase, PartialMessage, bytes_needed, extend};
use ipc_model::{Fault, Limits};
use std::alloc::Global;
use std::mem::replace;

// Keeps no byte and no buffer, and takes no more, for this fault.
pub fn refuse(
    alloc: Global,
    parts: &mut PartialMessage,
    phase: &mut FramePhase,
    fault: Fault,
) -> Fault
    ensures fault { result ≡ fault }
    ensures phase { phase.new ≡ FramePhase.Refused }
    ensures bytes { received_bytes parts.new ≡ [] }
    ensures room { capacity_of parts.new ≡ no_capacity }
{
    *parts = PartialMessage::new(alloc);
    *phase = FramePhase::Refused;
    fault
}

// What the bytes that came complete, and what is awaited after them. A complete message moves out
// with its buffers. No buffer is kept after it, after the end-of-stream mark and after a refusal.
// It takes the fields of `Frames`, because they break its invariant until the phase is set.
pub fn conclude(
    alloc: Global,
    limits: &Limits,
    parts: &mut PartialMessage,
    phase: &mut FramePhase,
    expectation: Expectation,
) -> Result<Option<Frame>, Fault>
    requires { FitsExpectation limits.now parts.old expectation }
    ensures sound { MatchesPhase limits.now parts.new phase.new }
    ensures concludes { Concludes limits.now (received_bytes parts.old)
        (progress_of parts.new phase.new) result }
    ensures memory { IfErr result (λ fault. fault ≡ Fault.OutOfMemory → HasSize expectation) }
    ensures moved { MatchResult result (λ found. IfSome found
        (λ _. capacity_of parts.new ≡ no_capacity))
        (λ _. capacity_of parts.new ≡ no_capacity) }
    ensures room { GrowsWithBytes (capacity_of parts.old) (capacity_of parts.new) 0 }
{
    match decide(alloc, limits, parts, expectation) {
        Ok(Decision::More(next)) => {
            *phase = FramePhase::Reading(next);
            Ok(None)
        }
        Ok(Decision::End) => {
            *parts = PartialMessage::new(alloc);
            *phase = FramePhase::Ended;
            Ok(Some(Frame::End))
        }
        Ok(Decision::Message(head)) => {
            parts.start = MessagePrefix::new();
            let meta = replace(&mut parts.meta, PartialBuffer::new(alloc)).into_vec();
            let body = replace(&mut parts.body, PartialBuffer::new(alloc)).into_vec();
            *phase = FramePhase::Reading(Expectation::Continuation);
            Ok(Some(Frame::Message { meta, head, body }))
        }
        Err(fault) => Err(refuse(alloc, parts, phase, fault)),
    }
}

// Takes the piece part by part, up to the end of the first frame, as `Frames::feed` does.
pub fn feed_on(
    alloc: Global,
    limits: &Limits,
    parts: &mut PartialMessage,
    phase: &mut FramePhase,
    piece: &[u8],
) -> Result<(usize, Option<Frame>), Fault>
    requires { MatchesPhase limits.now parts.old phase.old }
    ensures sound { MatchesPhase limits.now parts.new phase.new }
    ensures feeds { FeedsFrames limits.now (progress_of parts.old phase.old) piece.now
        (progress_of parts.new phase.new) result }
    ensures memory { IfErr result (λ fault. fault ≡ Fault.OutOfMemory
        → TakesMemory limits.now (progress_of parts.old phase.old) piece.now) }
    ensures moved { MatchResult result (λ found. IfSome found.1
        (λ _. capacity_of parts.new ≡ no_capacity))
        (λ _. capacity_of parts.new ≡ no_capacity) }
    ensures room { GrowsWithBytes (capacity_of parts.old) (capacity_of parts.new)
        (held_of (progress_of parts.new phase.new)) }
{
    let mut taken = 0;
    loop {
        let expectation = match *phase {
            FramePhase::Ended => return Ok((0, None)),
            FramePhase::Refused => return Err(Fault::Failed),
            FramePhase::Reading(expectation) => expectation,
        };
        if taken == piece.len() {
            return Ok((taken, None));
        }
        let count = bytes_needed(limits, parts, expectation).min(piece.len() - taken);
        if extend(limits, parts, expectation, &piece[taken..taken + count]).is_err() {
            return Err(refuse(alloc, parts, phase, Fault::OutOfMemory));
        }
        taken += count;
        if let Some(frame) = conclude(alloc, limits, parts, phase, expectation)? {
            return Ok((taken, Some(frame)));
        }
    }
}
