//! Gathers the bytes of messages before they are sent, so that a sink takes them in few calls.
ghost use Rattle.std.specs.Prelude.{◌≡◌, ◌++◌, [], IfOk, OnOk};
ghost use Rattle.ipc_encode.specs.Segments.{bytes_of_segments};
ghost use Rattle.ipc_stream.specs.Messages.{all_bytes, batch_bytes, gathered_bytes};

use crate::batch_messages::BatchMessages;
use crate::message::Message;
use ipc_encode::Segment;
use std::alloc::{AllocError, Global};
use std::mem;

// Runs of fewer bytes are joined, up to this number of bytes. Longer ones go out where they lie.
const SHORT: usize = 1 << 16;

/// The bytes of messages in their order: long runs are borrowed, and short ones between them
/// joined.
#[derive(Debug, Drop)]
pub(crate) struct Gathered<'a> {
    alloc: Global,
    /// The segments that are complete.
    pub(crate) segments: Vec<Segment<'a>>,
    /// The short runs after them.
    pub(crate) joined: Vec<u8>,
}

impl<'a> Gathered<'a> {
    // No bytes.
    fn new(alloc: Global) -> Gathered<'a>
        ensures { gathered_bytes result ≡ [] }
    {
        Gathered {
            alloc,
            segments: Vec::new(alloc),
            joined: Vec::new(alloc),
        }
    }

    // Ends the short runs so far: they are a segment.
    fn end_joined(&mut self) -> Result<(), AllocError>
        ensures same { OnOk result (gathered_bytes self.new ≡ gathered_bytes self.old) }
        ensures ended { OnOk result (self.new.joined.items ≡ []) }
    {
        let joined = mem::replace(&mut self.joined, Vec::new(self.alloc));
        if !joined.is_empty() {
            self.segments.push(Segment::Owned(joined))?;
        }
        Ok(())
    }

    // Appends a short run.
    fn join(&mut self, bytes: &[u8]) -> Result<(), AllocError>
        ensures { OnOk result (gathered_bytes self.new ≡ gathered_bytes self.old ++ bytes.now) }
    {
        if self.joined.len() + bytes.len() > SHORT {
            self.end_joined()?;
        }
        self.joined.extend_from_slice(bytes)
    }

    // Appends bytes.
    fn add(&mut self, bytes: &'a [u8]) -> Result<(), AllocError>
        ensures { OnOk result (gathered_bytes self.new ≡ gathered_bytes self.old ++ bytes.now) }
    {
        if bytes.len() < SHORT {
            return self.join(bytes);
        }
        self.end_joined()?;
        self.segments.push(Segment::Borrowed(bytes))?;
        Ok(())
    }

    // Appends the bytes of messages.
    fn add_messages(&mut self, messages: &'a [Message]) -> Result<(), AllocError>
        ensures { OnOk result
            (gathered_bytes self.new ≡ gathered_bytes self.old ++ all_bytes messages.now) }
    {
        for message in messages {
            self.add(message.front.as_slice())?;
            self.add(message.body.as_slice())?;
        }
        Ok(())
    }

    // Appends the bytes of segments.
    fn add_segments(&mut self, segments: &'a [Segment<'_>]) -> Result<(), AllocError>
        ensures { OnOk result
            (gathered_bytes self.new ≡ gathered_bytes self.old ++ bytes_of_segments segments.now) }
    {
        for segment in segments {
            self.add(segment.as_bytes())?;
        }
        Ok(())
    }
}

// The bytes of the messages of a batch.
pub(crate) fn gather<'a>(
    alloc: Global,
    messages: &'a BatchMessages<'_>,
) -> Result<Vec<Segment<'a>>, AllocError>
    ensures { IfOk result (λ all. bytes_of_segments all.items ≡ batch_bytes messages.now) }
{
    let mut gathered = Gathered::new(alloc);
    gathered.add_messages(&messages.dictionaries)?;
    gathered.add(&messages.front)?;
    gathered.add_segments(&messages.segments)?;
    gathered.end_joined()?;
    Ok(gathered.segments)
}
