ghost use Rattle.std.specs.Prelude.{◌≡◌, ◌≢◌, ◌↔◌, IfErr, IsTrue};
ghost use Rattle.ipc_frame.specs.Frames.{continuation_marker};
ghost use Rattle.ipc_frame.specs.Parts.{Decides, FitsExpectation, HasSize};

use crate::frame::CONTINUATION_MARKER;
use crate::partial_message::{Expectation, PartialMessage};
use ipc_meta::{Head, read_message};
use ipc_model::{Fault, Limits};
use ipc_scalar::get_i32;
use std::alloc::Global;

// What the bytes of a message say: that more are awaited, or what is whole.
#[derive(Drop)]
pub enum Decision {
    More(Expectation),
    End,
    Message(Head),
}

fn is_continuation(bytes: &[u8]) -> bool
    ensures { IsTrue result ↔ (bytes.now ≡ continuation_marker) }
{
    bytes == &CONTINUATION_MARKER[..]
}

// What the first four bytes say: a message begins with the mark.
fn decide_continuation(limits: &Limits, parts: &PartialMessage) -> Result<Decision, Fault>
    requires { FitsExpectation limits.now parts.now Expectation.Continuation }
    ensures decides { Decides limits.now parts.now result }
    ensures memory { IfErr result (λ fault. fault ≢ Fault.OutOfMemory) }
{
    if parts.start.len() < 4 {
        return Ok(Decision::More(Expectation::Continuation));
    }
    if !is_continuation(parts.start.as_slice()) {
        return Err(Fault::NotContinued);
    }
    Ok(Decision::More(Expectation::Size))
}

// What the first eight bytes say: the size of the metadata, which is 0 in the end mark alone.
fn decide_size(limits: &Limits, parts: &PartialMessage) -> Result<Decision, Fault>
    requires { FitsExpectation limits.now parts.now Expectation.Size }
    ensures decides { Decides limits.now parts.now result }
    ensures memory { IfErr result (λ fault. fault ≢ Fault.OutOfMemory) }
{
    if parts.start.len() < 8 {
        return Ok(Decision::More(Expectation::Size));
    }
    let size = get_i32(parts.start.as_slice(), 4).unwrap();
    if size == 0 {
        return Ok(Decision::End);
    }
    if size < 0 {
        return Err(Fault::BadMetadataLength);
    }
    if size > limits.metadata as i32 {
        return Err(Fault::MetadataTooLong);
    }
    Ok(Decision::More(Expectation::Metadata(size.unsigned_abs() as usize)))
}

// What the metadata says, once it is whole: the length of the body.
fn decide_metadata(
    alloc: Global,
    limits: &Limits,
    parts: &PartialMessage,
    size: usize,
) -> Result<Decision, Fault>
    requires { FitsExpectation limits.now parts.now (Expectation.Metadata size) }
    ensures { Decides limits.now parts.now result }
{
    if parts.meta.len() < size {
        return Ok(Decision::More(Expectation::Metadata(size)));
    }
    let (head, len) = read_message(alloc, limits, parts.meta.as_slice())?;
    if len == 0 {
        return Ok(Decision::Message(head));
    }
    Ok(Decision::More(Expectation::Body(len as usize)))
}

// What the message is, once its body is whole. Its head is read once more here, so that none is
// kept while the body comes.
fn decide_body(
    alloc: Global,
    limits: &Limits,
    parts: &PartialMessage,
    size: usize,
) -> Result<Decision, Fault>
    requires { FitsExpectation limits.now parts.now (Expectation.Body size) }
    ensures { Decides limits.now parts.now result }
{
    if parts.body.len() < size {
        return Ok(Decision::More(Expectation::Body(size)));
    }
    let (head, _) = read_message(alloc, limits, parts.meta.as_slice())?;
    Ok(Decision::Message(head))
}

// What the bytes that came say.
pub fn decide(
    alloc: Global,
    limits: &Limits,
    parts: &PartialMessage,
    expectation: Expectation,
) -> Result<Decision, Fault>
    requires { FitsExpectation limits.now parts.now expectation }
    ensures decides { Decides limits.now parts.now result }
    // Memory runs out only once the size of the metadata is known.
    ensures memory { IfErr result (λ fault. fault ≡ Fault.OutOfMemory → HasSize expectation) }
{
    match expectation {
        Expectation::Continuation => decide_continuation(limits, parts),
        Expectation::Size => decide_size(limits, parts),
        Expectation::Metadata(size) => decide_metadata(alloc, limits, parts, size),
        Expectation::Body(size) => decide_body(alloc, limits, parts, size),
    }
}
