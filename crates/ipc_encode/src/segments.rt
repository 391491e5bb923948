//! A body as a list of segments, which borrow bytes that already lie as they are written.
ghost use Rattle.std.specs.Prelude.{◌≡◌, ◌+◌, ◌-◌, ◌%◌, ◌≤◌, ◌<◌, ◌^◌, ◌↔◌, ◌++◌, [], ◌∷◌, pos};
ghost use Rattle.std.specs.Prelude.{length, replicate, IfErr, IsTrue, OnOk};
ghost use Rattle.ipc_encode.specs.Buffers.{padded_bytes};
ghost use Rattle.ipc_encode.specs.Segments.{AddsBuffers, ArePartsOf, IsBodyRefused, IsEmpty};
ghost use Rattle.ipc_encode.specs.Segments.{bytes_of_segments, segment_bytes};

use crate::fault::PushFault;
use ipc_model::{Items, Limits};
use std::alloc::{AllocError, Global};

/// Consecutive bytes of a body.
#[derive(Debug, Drop)]
pub enum Segment<'a> {
    /// Bytes of a body that was read.
    Borrowed(&'a [u8]),
    /// Bytes that were encoded anew.
    Owned(Vec<u8>),
    /// This number of zeros.
    Zeros(u8),
}

/// The encoded rows of a record batch (Message.fbs, RecordBatch), with the body as segments.
#[derive(Debug, Drop)]
pub struct SegmentedParts<'a> {
    /// For each field in pre-order the number of its slots, and the number of null slots (struct
    /// FieldNode).
    pub nodes: Items<(i64, i64)>,
    /// For each buffer in pre-order its offset in the body, and its length without padding, both in
    /// bytes (Schema.fbs, struct Buffer).
    pub buffers: Items<(i64, i64)>,
    /// The body: the bytes of the buffers, each padded with zeros to a multiple of 8 bytes.
    pub segments: Vec<Segment<'a>>,
    /// The number of bytes of the body.
    pub len: usize,
}

/// A record batch that is being written, with the body as segments.
#[derive(Debug, Drop)]
pub(crate) struct Draft<'a> {
    /// The nodes of the columns so far.
    pub(crate) nodes: Vec<(i64, i64)>,
    /// The ranges of their buffers.
    pub(crate) buffers: Vec<(i64, i64)>,
    /// The bytes of their buffers, each padded.
    pub(crate) segments: Vec<Segment<'a>>,
    /// The number of these bytes.
    pub(crate) len: usize,
}

// As many zeros as a segment of zeros can have.
const ZEROS: [u8; 255] = [0; 255];

// Returns this number of zeros.
fn zeros(count: u8) -> &'static [u8]
    ensures { result.now ≡ replicate count 0 }
{
    &ZEROS[..count as usize]
}

impl<'a> Draft<'a> {
    /// Returns a draft without columns. It takes no memory.
    pub(crate) fn new(alloc: Global) -> Draft<'a>
        ensures { IsEmpty result }
    {
        Draft {
            nodes: Vec::new(alloc),
            buffers: Vec::new(alloc),
            segments: Vec::new(alloc),
            len: 0,
        }
    }

    /// Returns the parts of the columns that were added.
    pub(crate) fn finish(self) -> SegmentedParts<'a>
        ensures { ArePartsOf self.entry result }
    {
        let Draft {
            nodes,
            buffers,
            segments,
            len,
        } = self;
        SegmentedParts {
            nodes: Items::from_vec(nodes),
            buffers: Items::from_vec(buffers),
            segments,
            len,
        }
    }
}

impl<'a> Segment<'a> {
    /// Returns the bytes.
    pub fn as_bytes(&self) -> &[u8]
        ensures { result.now ≡ segment_bytes self.now }
    {
        match self {
            Segment::Borrowed(bytes) => bytes,
            Segment::Owned(bytes) => bytes.as_slice(),
            Segment::Zeros(count) => zeros(*count),
        }
    }
}

// Appends a segment to others.
fn push_segment<'a>(segments: &mut Vec<Segment<'a>>, segment: Segment<'a>) -> Result<(), AllocError>
    ensures { OnOk result
        (bytes_of_segments segments.new.items ≡ bytes_of_segments segments.old.items
        ++ segment_bytes segment.entry) }
{
    segments.push(segment)?;
    Ok(())
}

// Appends two numbers to a list of pairs: the counts of a node, or the range of a buffer.
fn push_pair(pairs: &mut Vec<(i64, i64)>, first: usize, second: usize) -> Result<(), AllocError>
    requires { (first < 2 ^ 63) × (second < 2 ^ 63) }
    ensures { OnOk result (pairs.new.items ≡ pairs.old.items ++ (pos first, pos second) ∷ []) }
{
    pairs.push((first as i64, second as i64))?;
    Ok(())
}

/// Adds the node of a column with `count` slots and `null_count` nulls. Returns an error if memory
/// for it ran out.
pub(crate) fn add_counts(
    draft: &mut Draft<'_>,
    count: usize,
    null_count: usize,
) -> Result<(), AllocError>
    requires few { count < 2 ^ 63 }
    requires counted { null_count ≤ count }
    ensures nodes { OnOk result (draft.new.nodes.items
        ≡ draft.old.nodes.items ++ (pos count, pos null_count) ∷ []) }
    ensures adds { OnOk result (AddsBuffers draft.old draft.new []) }
{
    push_pair(&mut draft.nodes, count, null_count)
}

// Whether a body of `len` bytes may have `more` bytes.
fn has_room(len: usize, more: usize, limits: &Limits) -> bool
    ensures { IsTrue result ↔ (len + more ≤ limits.now.body) }
{
    let most = limits.body as usize;
    len <= most && more <= most - len
}

/// Adds a buffer of one segment, padded to a multiple of 8 bytes.
///
/// Errors: `TooLong` if the body would have more than `limits.body` bytes; `OutOfMemory` if memory
/// for a buffer ran out.
pub(crate) fn add_buffer<'a>(
    draft: &mut Draft<'a>,
    segment: Segment<'a>,
    limits: &Limits,
) -> Result<(), PushFault>
    ensures nodes { OnOk result (draft.new.nodes.items ≡ draft.old.nodes.items) }
    ensures adds { OnOk result
        (AddsBuffers draft.old draft.new (segment_bytes segment.entry ∷ [])) }
    ensures within { OnOk result (draft.new.len ≤ limits.now.body) }
    ensures refused { IfErr result (IsBodyRefused limits.now
        (draft.old.len + length (padded_bytes (segment_bytes segment.entry ∷ [])))) }
{
    let len = segment.as_bytes().len();
    let padding = (8 - len % 8) % 8;
    if !has_room(draft.len, len + padding, limits) {
        return Err(PushFault::TooLong);
    }
    push_pair(&mut draft.buffers, draft.len, len)?;
    push_segment(&mut draft.segments, segment)?;
    push_segment(&mut draft.segments, Segment::Zeros(padding as u8))?;
    draft.len += len + padding;
    Ok(())
}
