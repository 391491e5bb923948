//! Streams whose bytes are pushed in pieces.

use crate::scripts::{Step, stream_of};
use crate::tables::{A, B, Column};
use ipc_model::{Fault, Limits};
use ipc_stream::{Decoder, End, Event};
use std::alloc::{AllocError, Global};
use std::test::Fail;

/// The stream of samples/int64.arrows: a schema of 120 bytes, a batch of 160 with a body of 24, and
/// the end mark.
pub const STREAM: [u8; 288] = [
    255, 255, 255, 255, 112, 0, 0, 0, 16, 0, 0, 0, 10, 0, 12, 0, 8, 0, 10, 0, 4, 0, 0, 0, 12, 0, 0,
    0, 16, 0, 0, 0, 4, 0, 1, 0, 8, 0, 8, 0, 0, 0, 4, 0, 8, 0, 0, 0, 4, 0, 0, 0, 1, 0, 0, 0, 16, 0,
    0, 0, 12, 0, 16, 0, 4, 0, 12, 0, 13, 0, 8, 0, 12, 0, 0, 0, 12, 0, 0, 0, 24, 0, 0, 0, 0, 2, 0,
    0, 1, 0, 0, 0, 97, 0, 0, 0, 8, 0, 12, 0, 4, 0, 8, 0, 8, 0, 0, 0, 64, 0, 0, 0, 1, 0, 0, 0, 0, 0,
    0, 0, 255, 255, 255, 255, 128, 0, 0, 0, 16, 0, 0, 0, 12, 0, 20, 0, 16, 0, 18, 0, 4, 0, 8, 0,
    12, 0, 0, 0, 28, 0, 0, 0, 24, 0, 0, 0, 0, 0, 0, 0, 4, 0, 3, 0, 10, 0, 20, 0, 8, 0, 4, 0, 16, 0,
    0, 0, 12, 0, 0, 0, 16, 0, 0, 0, 3, 0, 0, 0, 0, 0, 0, 0, 28, 0, 0, 0, 1, 0, 0, 0, 3, 0, 0, 0, 0,
    0, 0, 0, 0, 0, 0, 0, 0, 0, 0, 0, 0, 0, 0, 0, 2, 0, 0, 0, 0, 0, 0, 0, 0, 0, 0, 0, 0, 0, 0, 0, 0,
    0, 0, 0, 0, 0, 0, 0, 0, 0, 0, 0, 24, 0, 0, 0, 0, 0, 0, 0, 1, 0, 0, 0, 0, 0, 0, 0, 254, 255,
    255, 255, 255, 255, 255, 255, 255, 255, 255, 255, 255, 255, 255, 127, 255, 255, 255, 255, 0, 0,
    0, 0,
];

// The bytes by which samples/int32.arrows differs, with their positions: the field's nullability
// and width; the null count, the length of the bitmap, and the offset and length of the values; and
// the body, which has the bitmap 101 and the values 1, 0 and 3.
const NULLABLE: [(usize, &[u8]); 7] = [
    (84, &[1]),
    (108, &[32]),
    (208, &[1]),
    (232, &[1]),
    (240, &[8]),
    (248, &[12]),
    (
        256,
        &[
            5, 0, 0, 0, 0, 0, 0, 0, 1, 0, 0, 0, 0, 0, 0, 0, 3, 0, 0, 0, 0, 0, 0, 0,
        ],
    ),
];

/// The stream of samples/int32.arrows. Its messages have the lengths of those above.
pub fn nullable_stream(alloc: Global) -> Result<Vec<u8>, AllocError> {
    let mut bytes = Vec::new(alloc);
    for (at, others) in NULLABLE {
        bytes.extend_from_slice(STREAM.get(bytes.len()..at).unwrap_or_default())?;
        bytes.extend_from_slice(others)?;
    }
    bytes.extend_from_slice(&STREAM[280..])?;
    Ok(bytes)
}

// The stream of samples/no_fields.arrows, and two bytes after its mark.
const NO_FIELDS: [u8; 58] = [
    255, 255, 255, 255, 40, 0, 0, 0, 16, 0, 0, 0, 10, 0, 12, 0, 8, 0, 10, 0, 4, 0, 0, 0, 12, 0, 0,
    0, 12, 0, 0, 0, 4, 0, 1, 0, 4, 0, 4, 0, 4, 0, 0, 0, 0, 0, 0, 0, 255, 255, 255, 255, 0, 0, 0, 0,
    b'A', b'B',
];

// Pushes a stream byte by byte. Whether `wants` begins with each of these numbers in turn, falls by
// 1 with each byte, and is 0 in the end, after which no byte is taken.
fn are_wanted(decoder: &mut Decoder, bytes: &[u8], numbers: &[usize]) -> Result<bool, Fault> {
    let mut taken = 0usize;
    for number in numbers {
        for missing in 0..*number {
            if decoder.wants() != number.saturating_sub(missing) {
                return Ok(false);
            }
            let rest = bytes.get(taken..).unwrap_or_default();
            let (count, _) = decoder.feed(rest.get(..1).unwrap_or_default())?;
            taken = taken.saturating_add(count);
        }
    }
    let (count, event) = decoder.feed(bytes.get(taken..).unwrap_or_default())?;
    Ok(decoder.wants() == 0 && count == 0 && event.is_none())
}

// A decoder that took nothing yet.
fn fresh(alloc: Global) -> Decoder {
    Decoder::new(alloc, Limits::standard())
}

#[test]
fn bytes_before_each_decision(rt: HostRuntime) -> Result<(), Fail> {
    let of_none = are_wanted(&mut fresh(rt.alloc()), &NO_FIELDS, &[4, 4, 40, 4, 4])?;
    let bytes = nullable_stream(rt.alloc())?;
    let numbers = [4, 4, 112, 4, 4, 128, 24, 4, 4];
    let of_one = are_wanted(&mut fresh(rt.alloc()), &bytes, &numbers)?;
    assert!(rt; of_none && of_one);
    Ok(())
}

// Feeds a piece to its end, or to the end of the stream. Appends the events that it brings to
// `events`, and returns the bytes after the stream.
fn push<'a>(
    decoder: &mut Decoder,
    piece: &'a [u8],
    events: &mut Vec<Event>,
) -> Result<&'a [u8], Fault> {
    let mut rest = piece;
    for _ in 0..=piece.len() {
        let (taken, event) = decoder.feed(rest)?;
        rest = rest.get(taken..).unwrap_or_default();
        match event {
            Some(event) => events.push(event)?,
            None => break,
        }
    }
    Ok(rest)
}

// Feeds a stream in pieces of three bytes.
fn push_in_threes(
    decoder: &mut Decoder,
    stream: &[u8],
    events: &mut Vec<Event>,
) -> Result<(), Fault> {
    for piece in stream.chunks(3) {
        push(decoder, piece, events)?;
    }
    Ok(())
}

// Whether a decoder that ran out of memory takes nothing from then on.
fn has_failed(decoder: &mut Decoder, stream: &[u8]) -> bool {
    let again = decoder.feed(stream).err();
    again == Some(Fault::Failed) && decoder.close() == Err(Fault::Failed)
}

// Whether a decoder gives this number of events, at most 4, and takes this number of messages.
// After a refused growth it must have failed. Then the result is that refusal.
fn is_fed(alloc: Global, stream: &[u8], (events, messages): (usize, u64)) -> Result<bool, Fault> {
    // With this room each later growth is one of the decoder.
    let mut given = Vec::with_capacity(alloc, 4)?;
    let mut decoder = fresh(alloc);
    match push_in_threes(&mut decoder, stream, &mut given) {
        Ok(()) => {
            let is_ended = decoder.messages() == messages && decoder.close() == Ok(End::Mark);
            Ok(is_ended && given.len() == events)
        }
        Err(fault) if has_failed(&mut decoder, stream) => Err(fault),
        Err(_) => Ok(false),
    }
}

// The events are the schema, each batch and the end, and no dictionary.
#[test]
fn grows_pushed_streams(rt: HostRuntime) -> Result<(), Fail> {
    assert!(rt; is_fed(rt.alloc(), &STREAM, (3, 2))?);
    let letters = stream_of(
        rt.alloc(),
        Column::Letters,
        &[Step::Write(A), Step::Write(B)],
    )?;
    assert!(rt; is_fed(rt.alloc(), &letters, (4, 5))?);
    Ok(())
}
