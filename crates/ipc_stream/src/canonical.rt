//! Copies the body of a batch to memory of the caller, as it is sent.
ghost use Rattle.std.specs.Prelude.{◌≡◌, ◌+◌, ◌*◌, ◌≤◌, ◌∷◌, [], List, length, IfOk};
ghost use Rattle.ipc_model.specs.declared.schema.Field.{Field};
ghost use Rattle.ipc_model.specs.declared.value.Value.{Value};
ghost use Rattle.ipc_encode.specs.Buffers.{AreLaidOut};
ghost use Rattle.ipc_encode.specs.Numbers.{Numbering};
ghost use Rattle.ipc_encode.specs.Segments.{AreSegmented, bytes_of_segments};
ghost use Rattle.ipc_stream.specs.Canonical.{CopiesParts, Replaces, flat};

use ipc_encode::{Parts, Segment, SegmentedParts};
use std::alloc::{AllocError, Global};

/// The room that the rows of a batch or the values of a dictionary take as they are sent
/// (Message.fbs, RecordBatch).
#[derive(Clone, Copy, Debug)]
pub struct CanonicalSize {
    /// The number of bytes of the body: a multiple of 8.
    pub bytes: usize,
    /// The number of nodes: one for each field, with its descendants.
    pub nodes: usize,
    /// The number of buffers of these fields.
    pub buffers: usize,
}

/// Returns the parts with their body as one segment. Returns an error if memory ran out.
pub(crate) fn one_segment<'a>(alloc: Global, parts: Parts) -> Result<SegmentedParts<'a>, AllocError>
    ensures segmented { (known : Numbering) (fields : List Field) (rows : List (List Value))
        → AreLaidOut known fields rows parts → IfOk result (AreSegmented known fields rows) }
    ensures len { IfOk result (λ one. one.len ≡ length (bytes_of_segments one.segments.items)) }
{
    let Parts {
        nodes,
        buffers,
        body,
    } = parts;
    let len = body.len();
    let mut segments = Vec::with_capacity(alloc, 1)?;
    segments.push(Segment::Owned(body))?;
    Ok(SegmentedParts {
        nodes,
        buffers,
        segments,
        len,
    })
}

// Writes bytes from `at` on.
fn put_bytes(bytes: &[u8], target: &mut [u8], at: usize)
    requires { (at + length bytes.now) ≤ length target.old }
    ensures { Replaces at bytes.now target.old target.new }
{
    target[at..at + bytes.len()].copy_from_slice(bytes);
}

// Writes segments, one after another, to the beginning of the target.
fn put_segments(segments: &[Segment<'_>], target: &mut [u8])
    requires { length (bytes_of_segments segments.now) ≤ length target.old }
    ensures { Replaces 0 (bytes_of_segments segments.now) target.old target.new }
{
    let mut at = 0;
    for segment in segments {
        let bytes = segment.as_bytes();
        put_bytes(bytes, target, at);
        at += bytes.len();
    }
}

// Writes the two numbers of a pair from `at` on.
fn put_pair(pair: &(i64, i64), target: &mut [i64], at: usize)
    requires { (at + 2) ≤ length target.old }
    ensures { Replaces at (pair.now.0 ∷ pair.now.1 ∷ []) target.old target.new }
{
    target[at..at + 2].copy_from_slice(&[pair.0, pair.1]);
}

// Writes the numbers of pairs, one after another, from `at` on.
fn put_pairs(pairs: &[(i64, i64)], target: &mut [i64], at: usize)
    requires { (at + length (flat pairs.now)) ≤ length target.old }
    ensures { Replaces at (flat pairs.now) target.old target.new }
{
    let mut place = at;
    for pair in pairs {
        put_pair(pair, target, place);
        place += 2;
    }
}

/// Copies the body of a batch to `bytes`, and its nodes and the ranges of its buffers to `numbers`.
/// If one of the targets is too short, nothing is copied. Returns the room that they take in both
/// cases.
pub(crate) fn copy_parts(
    parts: &SegmentedParts<'_>,
    bytes: &mut [u8],
    numbers: &mut [i64],
) -> CanonicalSize
    requires { parts.now.len ≡ length (bytes_of_segments parts.now.segments.items) }
    ensures { CopiesParts parts.now bytes.old bytes.new numbers.old numbers.new result }
{
    let nodes = parts.nodes.as_slice();
    let buffers = parts.buffers.as_slice();
    let size = CanonicalSize {
        bytes: parts.len,
        nodes: nodes.len(),
        buffers: buffers.len(),
    };
    if size.bytes <= bytes.len() && 2 * (size.nodes + size.buffers) <= numbers.len() {
        put_segments(&parts.segments, bytes);
        put_pairs(nodes, numbers, 0);
        put_pairs(buffers, numbers, 2 * nodes.len());
    }
    size
}
