//! The effect of the frames of a stream on its state. `StreamState` has a file of its own, with
//! none of the definitions that are named here, because they name it.
ghost use Rattle.std.specs.Prelude.{◌≡◌, IfErr, IfOk, IfSome, MatchResult, Some};
ghost use Rattle.ipc_frame.specs.Parts.{GrowsWithBytes, no_capacity};
ghost use Rattle.ipc_frame.specs.Pieces.{held_of};
ghost use Rattle.ipc_stream_read.specs.StreamStates.{Brings, BringsSchema, BringsScope, IsSound};
ghost use Rattle.ipc_stream_read.specs.StreamStates.{IsMessageFrame, IsWellFormedFrame, Moves};
ghost use Rattle.ipc_stream_read.specs.StreamStates.{decoding_of};
ghost use Rattle.ipc_stream_read.specs.Decoding.{Feeds, HasColumns};
ghost use Rattle.ipc_stream_read.specs.Scopes.{IsUnder, in_scope, state_of};

use crate::end::End;
use crate::event::Event;
use crate::scope::Scope;
use crate::stream_state::StreamState;
use ipc_frame::{Frame, Frames};
use ipc_meta::Head;
use ipc_model::{Fault, Limits, Schema};
use std::alloc::Global;

// Returns the schema of the first frame of a stream.
fn schema_of_frame(frame: Frame) -> Result<Schema, Fault>
    ensures { BringsSchema frame result }
{
    match frame {
        Frame::End => Err(Fault::MissingSchema),
        Frame::Message { meta, head, body } => match head {
            Head::Schema(schema) => Ok(schema),
            _ => Err(Fault::MissingSchema),
        },
    }
}

// Opens the scope of the schema that the first frame brings.
fn open_scope(alloc: Global, limits: &Limits, frame: Frame) -> Result<Scope, Fault>
    requires { IsWellFormedFrame limits.now frame }
    ensures scope { BringsScope frame result }
    ensures memory { IfErr result (λ fault. fault ≡ Fault.OutOfMemory → IsMessageFrame frame) }
    ensures limits { IfOk result (λ scope. scope.limits ≡ limits.now) }
{
    Scope::new(alloc, *limits, schema_of_frame(frame)?)
}

// Applies a frame after the schema. Returns its event, or none if it sets a dictionary.
fn apply_later_frame(alloc: Global, scope: &mut Scope, frame: Frame) -> Result<Option<Event>, Fault>
    ensures next { Brings scope.old.limits (Some (in_scope scope.old)) frame
        (Some (in_scope scope.new)) result }
    ensures memory { IfErr result (λ fault. fault ≡ Fault.OutOfMemory → IsMessageFrame frame) }
    ensures limits { scope.new.limits ≡ scope.old.limits }
    ensures columns { IfOk result
        (λ found. IfSome found (HasColumns (Some (in_scope scope.new)))) }
{
    match frame {
        Frame::End => Ok(Some(Event::End)),
        Frame::Message { meta, head, body } => match head {
            Head::Batch(head, pairs) => {
                let batch = scope.read_batch(alloc, head, body)?;
                Ok(Some(Event::Batch(batch, pairs)))
            }
            Head::Schema(_) => Err(Fault::SecondSchema),
            Head::Dictionary(id, head) => {
                scope.set(alloc, id, head, body)?;
                Ok(None)
            }
        },
    }
}

// Applies a frame, the first or a later one. Returns its event, or none if it sets a dictionary.
fn apply_frame(
    alloc: Global,
    limits: &Limits,
    scope: &mut Option<Scope>,
    frame: Frame,
) -> Result<Option<Event>, Fault>
    requires well_formed { IsWellFormedFrame limits.now frame }
    requires under { IsUnder limits.now scope.old }
    ensures brings { Brings limits.now (state_of scope.old) frame (state_of scope.new) result }
    ensures memory { IfErr result (λ fault. fault ≡ Fault.OutOfMemory → IsMessageFrame frame) }
    ensures under { IsUnder limits.now scope.new }
    ensures columns { IfOk result (λ found. IfSome found (HasColumns (state_of scope.new))) }
{
    match scope {
        Some(scope) => apply_later_frame(alloc, scope, frame),
        None => {
            *scope = Some(open_scope(alloc, limits, frame)?);
            Ok(Some(Event::Schema))
        }
    }
}

// Takes the next frame. Returns its event, or none if it sets a dictionary. After a refusal the
// frames take no more. It takes the fields of `Decoder`, because an end mark breaks its invariant
// until it is accepted or refused.
pub fn accept(
    alloc: Global,
    frames: &mut Frames,
    stream: &mut StreamState,
    frame: Frame,
) -> Result<Option<Event>, Fault>
    requires well_formed { IsWellFormedFrame frames.old.limits frame }
    requires under { IsUnder frames.old.limits stream.old.scope }
    ensures under { IsUnder frames.new.limits stream.new.scope }
    ensures limits { frames.new.limits ≡ frames.old.limits }
    ensures brings { Brings frames.old.limits (state_of stream.old.scope) frame
        (state_of stream.new.scope) result }
    ensures moves { Moves frames.old frames.new stream.old stream.new result }
    // The end mark takes no memory.
    ensures memory { IfErr result (λ fault. fault ≡ Fault.OutOfMemory → IsMessageFrame frame) }
    ensures columns { IfOk result
        (λ found. IfSome found (HasColumns (state_of stream.new.scope))) }
{
    match apply_frame(alloc, &frames.limits(), &mut stream.scope, frame) {
        Ok(Some(Event::End)) => {
            stream.end = Some(End::Mark);
            Ok(Some(Event::End))
        }
        Ok(found) => {
            stream.messages = stream.messages.saturating_add(1);
            Ok(found)
        }
        Err(fault) => Err(frames.refuse(fault)),
    }
}

// Takes the piece message by message, up to the first event, as `Decoder::feed` does.
pub fn feed_on(
    alloc: Global,
    frames: &mut Frames,
    stream: &mut StreamState,
    piece: &[u8],
) -> Result<(usize, Option<Event>), Fault>
    requires { IsSound frames.old stream.old }
    ensures sound { IsSound frames.new stream.new }
    ensures fed { Feeds (decoding_of frames.old stream.old) piece.now
        (decoding_of frames.new stream.new) result }
    ensures limits { frames.new.limits ≡ frames.old.limits }
    ensures columns { IfOk result
        (λ found. IfSome found.1 (HasColumns (state_of stream.new.scope))) }
    ensures moved { MatchResult result (λ found. IfSome found.1
        (λ _. frames.new.room ≡ no_capacity))
        (λ _. frames.new.room ≡ no_capacity) }
    ensures grown { GrowsWithBytes frames.old.room frames.new.room
        (held_of frames.new.progress) }
{
    let mut taken = 0;
    loop {
        let (count, frame) = frames.feed(&piece[taken..])?;
        taken += count;
        let Some(frame) = frame else {
            return Ok((taken, None));
        };
        if let Some(event) = accept(alloc, frames, stream, frame)? {
            return Ok((taken, Some(event)));
        }
    }
}
