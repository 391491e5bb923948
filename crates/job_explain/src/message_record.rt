//! The message that is being read, or was read last.
ghost use Rattle.std.specs.Prelude.{◌≡◌, ◌≤◌, ◌+◌, ◌++◌, [], length, None, IfOk, IfSome};
ghost use Rattle.ipc_frame.specs.Pieces.{taking};
ghost use Rattle.job_explain.specs.Kept.{Keeps, KeepsFed, front_of, kept_of};
ghost use Rattle.job_explain.specs.ScopeUpdates.{UpdatesScope};

use crate::scope_updates::scope_after;
use ipc_frame::{Frame, Frames};
use ipc_model::{Fault, Limits};
use ipc_stream_read::Scope;
use std::alloc::Global;

/// What is kept of a stream: the first bytes of the message that is being read, or the message that
/// was read last, if no byte of the next one has come. It also has the number of all bytes that
/// came, and what the messages before that one put in force.
#[derive(Drop)]
pub(crate) struct MessageRecord {
    pub(crate) limits: Limits,
    pub(crate) count: u64,
    pub(crate) frames: Frames,
    pub(crate) front: Vec<u8>,
    pub(crate) last: Option<Frame>,
    pub(crate) scope: Option<Scope>,
    pub(crate) ghost same_limits: { frames.limits ≡ limits },
    pub(crate) ghost front_kept: { front.items ≡ kept_of limits frames.progress front.items },
}

// The first bytes of a message after a piece of it, as far as they are kept, or `None` if memory
// ran out.
fn extend_front(limits: &Limits, front: Vec<u8>, piece: &[u8]) -> Option<Vec<u8>>
    ensures { IfSome result
        (λ bytes. bytes.items ≡ front_of limits.now (front.items ++ piece.now)) }
{
    let mut front = front;
    front.extend_from_slice(piece).ok()?;
    front.truncate(8 + limits.metadata as usize);
    Some(front)
}

// What is kept after a piece: the first bytes of the message, and the message that it completes.
// `None` if memory ran out.
fn kept_after(
    limits: &Limits,
    front: Vec<u8>,
    piece: &[u8],
    outcome: Result<(usize, Option<Frame>), Fault>,
) -> Option<(Vec<u8>, Option<Frame>)>
    requires { IfOk outcome (λ taken. taken.0 ≤ length piece.now) }
    ensures { IfSome result
        (λ kept. KeepsFed limits.now front.items piece.now kept.0.items kept.1 outcome) }
{
    match outcome {
        Ok((_, Some(frame))) => {
            let mut front = front;
            front.clear();
            Some((front, Some(frame)))
        }
        Ok((taken, None)) => Some((extend_front(limits, front, &piece[..taken])?, None)),
        Err(Fault::OutOfMemory) => None,
        Err(Fault::Failed) => Some((front, None)),
        Err(_) => Some((extend_front(limits, front, piece)?, None)),
    }
}

impl MessageRecord {
    /// Starts at the beginning of a stream.
    pub(crate) fn new(alloc: Global, limits: Limits) -> MessageRecord
        ensures limits { result.limits ≡ limits }
        ensures count { result.count ≡ 0 }
        ensures progress { result.frames.progress ≡ taking [] }
        ensures last { result.last ≡ None }
        ensures scope { result.scope ≡ None }
    {
        MessageRecord {
            limits,
            count: 0,
            frames: Frames::new(alloc, limits),
            front: Vec::new(alloc),
            last: None,
            scope: None,
        }
    }

    /// Takes the bytes that were read next, after a message that the reader accepted. Returns
    /// `None` if memory ran out, or if the bytes of the stream can't be counted any more.
    pub(crate) fn record(self, piece: &[u8]) -> Option<MessageRecord>
        ensures limits { IfSome result (λ next. next.limits ≡ self.limits) }
        ensures counts { IfSome result (λ next. next.count ≡ self.count + length piece.now) }
        ensures keeps { IfSome result (λ next. Keeps self.limits self.frames.progress
            self.front.items piece.now next.frames.progress next.front.items next.last) }
        ensures learns { IfSome result
            (λ next. UpdatesScope self.limits self.scope self.last next.scope) }
    {
        let MessageRecord {
            limits,
            count,
            mut frames,
            front,
            last,
            scope,
        } = self;
        let count = count.checked_add(piece.len() as u64)?;
        let scope = scope_after(*front.allocator(), limits, scope, last).ok()?;
        let outcome = frames.feed(piece);
        let (front, last) = kept_after(&limits, front, piece, outcome)?;
        Some(MessageRecord {
            limits,
            count,
            frames,
            front,
            last,
            scope,
        })
    }
}
