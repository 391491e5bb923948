ghost use Rattle.std.specs.Prelude.{◌≡◌, ◌≤◌, ◌++◌, [], length, OnErr, OnOk};
ghost use Rattle.ipc_frame.specs.Buffers.{filled_bytes};
ghost use Rattle.ipc_frame.specs.Parts.{FitsExpectation, HasSize, received_bytes, no_capacity};
ghost use Rattle.ipc_frame.specs.Parts.{GrowsWithBytes, capacity_of, bytes_needed};

use crate::message_prefix::MessagePrefix;
use crate::partial_buffer::PartialBuffer;
use ipc_model::Limits;
use std::alloc::{AllocError, Global};

// The bytes that came of one message: its mark and the size of its metadata, its metadata, and its
// body.
#[derive(Drop)]
pub struct PartialMessage {
    pub start: MessagePrefix,
    pub meta: PartialBuffer,
    pub body: PartialBuffer,
}

// What the next decision about a message waits for: its mark, the size of its metadata, or all
// bytes of its metadata or of its body, with their number.
#[derive(Clone, Copy)]
pub enum Expectation {
    Continuation,
    Size,
    Metadata(usize),
    Body(usize),
}

// Whether messages still come, and what is awaited of the one at hand.
#[derive(Clone, Copy)]
pub enum FramePhase {
    Reading(Expectation),
    Ended,
    Refused,
}

impl PartialMessage {
    // With no byte.
    pub fn new(alloc: Global) -> PartialMessage
        ensures start { result.start ≡ [] }
        ensures meta { filled_bytes result.meta ≡ [] }
        ensures body { filled_bytes result.body ≡ [] }
        ensures room { capacity_of result ≡ no_capacity }
    {
        PartialMessage {
            start: MessagePrefix::new(),
            meta: PartialBuffer::new(alloc),
            body: PartialBuffer::new(alloc),
        }
    }
}

// How many bytes are needed before the next decision.
pub fn bytes_needed(limits: &Limits, parts: &PartialMessage, expectation: Expectation) -> usize
    requires { FitsExpectation limits.now parts.now expectation }
    ensures { result ≡ bytes_needed parts.now expectation }
{
    match expectation {
        Expectation::Continuation => 4 - parts.start.len(),
        Expectation::Size => 8 - parts.start.len(),
        Expectation::Metadata(size) => size - parts.meta.len(),
        Expectation::Body(size) => size - parts.body.len(),
    }
}

// Appends bytes to those that are there.
pub fn extend(
    limits: &Limits,
    parts: &mut PartialMessage,
    expectation: Expectation,
    bytes: &[u8],
) -> Result<(), AllocError>
    requires fits { FitsExpectation limits.now parts.old expectation }
    requires few { length bytes.now ≤ bytes_needed parts.old expectation }
    ensures fits { OnOk result (FitsExpectation limits.now parts.new expectation) }
    ensures bytes { OnOk result (received_bytes parts.new ≡ received_bytes parts.old ++ bytes.now) }
    ensures memory { OnErr result (HasSize expectation) }
    ensures room { OnOk result (GrowsWithBytes (capacity_of parts.old) (capacity_of parts.new)
        (length (received_bytes parts.new))) }
{
    match expectation {
        Expectation::Continuation | Expectation::Size => {
            parts.start.extend(bytes);
            Ok(())
        }
        Expectation::Metadata(_) => parts.meta.extend(bytes),
        Expectation::Body(_) => parts.body.extend(bytes),
    }
}
