//! Reads a stream in several ways, and compares the answers.
use crate::answer::Answer;
use crate::columns::ByColumns;
use crate::cut::Cut;
use crate::request::Request;
use ipc_model::{Fault, Limits, Table};
use ipc_stream::{Memory, RoundTripFault, read_table, write_and_read_back};
use std::alloc::{AllocError, Global};

/// The sizes of pieces in which a stream is read again.
pub const PIECES: [usize; 5] = [1, 2, 3, 7, 64];

// The sizes of pieces in which it is read and pushed. They are in the answer only if something
// differs.
const MORE_PIECES: [usize; 1] = [8];

const PUSHED: [usize; 5] = [1, 3, 7, 8, 64];

/// How the bytes of a stream reach the reader.
#[derive(Clone, Copy)]
pub enum Way {
    /// A reader asks a source for them.
    Pulled,
    /// They are pushed to a decoder.
    Pushed,
}

/// Another answer, and the way in which the stream was read then.
#[derive(Drop)]
pub struct Other {
    pub way: Way,
    pub cut: Cut,
    pub answer: Answer,
}

/// How a table comes back after it was written.
#[derive(Drop)]
pub enum RoundTrip {
    /// Schema, batches and end are equal, and the bytes after the mark were not taken.
    Same,
    /// Something differs.
    Differs,
    /// The table is not written, or what was written is not read.
    Refused(RoundTripFault),
}

/// All answers to a stream.
#[derive(Drop)]
pub struct Report {
    /// The number of its bytes.
    pub length: usize,
    /// What a reader answers.
    pub answer: Answer,
    /// The first size of pieces for which the answer differs, with that answer.
    pub in_pieces: Option<(usize, Answer)>,
    /// The first other way and cut for which the answer differs, with that answer.
    pub other: Option<Other>,
    /// Whether `read_table` answers the same.
    pub same_table: bool,
    /// How the table comes back, or `None` if the stream is refused.
    pub round_trip: Option<RoundTrip>,
    /// How its batches are written from their columns.
    pub by_columns: ByColumns,
}

// The answer in pieces of the first size for which it differs.
fn in_pieces(
    alloc: Global,
    request: &Request,
    whole: &Answer,
) -> Result<Option<(usize, Answer)>, AllocError> {
    for step in PIECES {
        let answer = Answer::pulled(alloc, request, Cut::Each(step))?;
        if answer != *whole {
            return Ok(Some((step, answer)));
        }
    }
    Ok(None)
}

// The answer to a stream that is read in this way and cut so, if it differs.
fn other_at(
    alloc: Global,
    request: &Request,
    (way, cut): (Way, Cut),
    whole: &Answer,
) -> Result<Option<Other>, AllocError> {
    let answer = match way {
        Way::Pulled => Answer::pulled(alloc, request, cut)?,
        Way::Pushed => Answer::pushed(alloc, request, cut, whole)?,
    };
    Ok(if answer == *whole {
        None
    } else {
        Some(Other { way, cut, answer })
    })
}

// A short stream is cut in two at every place, and a longer one at places at equal distances.
const EVERYWHERE: usize = 16_384;

const PLACES: usize = 32;

// Whether a stream states more fields, text or pairs than the limits allow. Reading such a stream
// may take long, so it is cut like a longer one.
fn is_long_to_read(whole: &Answer) -> bool {
    matches!(
        &whole.refusal,
        Some((Fault::TooManyFields | Fault::TooMuchText, _))
    )
}

// The first cut in two for which the answer differs, with that answer.
fn other_in_two(
    alloc: Global,
    request: &Request,
    way: Way,
    whole: &Answer,
) -> Result<Option<Other>, AllocError> {
    let length = request.stream.len();
    let step = if length <= EVERYWHERE && !is_long_to_read(whole) {
        1
    } else {
        length / PLACES
    };
    for place in (0..=length).step_by(step.max(1)) {
        if let Some(other) = other_at(alloc, request, (way, Cut::At(place)), whole)? {
            return Ok(Some(other));
        }
    }
    Ok(None)
}

// The first piece size or cut in two for which the answer differs, with that answer.
fn other_cut(
    alloc: Global,
    request: &Request,
    (way, sizes): (Way, &[usize]),
    whole: &Answer,
) -> Result<Option<Other>, AllocError> {
    for size in sizes {
        if let Some(other) = other_at(alloc, request, (way, Cut::Each(*size)), whole)? {
            return Ok(Some(other));
        }
    }
    other_in_two(alloc, request, way, whole)
}

// The first difference, pulled or pushed.
fn otherwise(
    alloc: Global,
    request: &Request,
    whole: &Answer,
) -> Result<Option<Other>, AllocError> {
    match other_cut(alloc, request, (Way::Pulled, &MORE_PIECES), whole)? {
        Some(other) => Ok(Some(other)),
        None => other_cut(alloc, request, (Way::Pushed, &PUSHED), whole),
    }
}

// Whether `read_table` gives the answer of a reader and takes as many bytes.
fn is_same_table(alloc: Global, request: &Request, answer: &Answer) -> Result<bool, AllocError> {
    let mut source = Memory::new(request.stream.clone()?);
    let same = match read_table(alloc, &request.limits, &mut source) {
        Ok((table, end)) => answer.end == Some(end) && answer.table == Some(table),
        Err(fault) => matches!(answer.refusal, Some((other, _)) if other == fault),
    };
    Ok(same && source.unread().len() == answer.left)
}

// Bytes that are put after the written stream.
const BEHIND: &[u8] = b"behind";

// Whether the table came back and the bytes after it were not taken.
fn is_back(back: &Table, source: &Memory, table: &Table) -> bool {
    back.is_same(table) && source.unread() == BEHIND
}

// How a table comes back under the standard limits.
fn round_trip(alloc: Global, table: &Table) -> RoundTrip {
    let limits = Limits::standard();
    match write_and_read_back(alloc, &limits, &limits, table, BEHIND) {
        Ok((back, _end, source)) => {
            if is_back(&back, &source, table) {
                RoundTrip::Same
            } else {
                RoundTrip::Differs
            }
        }
        Err(fault) => RoundTrip::Refused(fault),
    }
}

// How the table of an answer comes back, or `None` if the stream is refused.
fn round_trip_of(alloc: Global, answer: &Answer) -> Option<RoundTrip> {
    match (&answer.table, answer.end) {
        (Some(table), Some(_)) => Some(round_trip(alloc, table)),
        _ => None,
    }
}

// Other answers to a stream than this one.
#[derive(Drop)]
struct Differences {
    in_pieces: Option<(usize, Answer)>,
    other: Option<Other>,
}

impl Differences {
    fn of(alloc: Global, request: &Request, answer: &Answer) -> Result<Differences, AllocError> {
        let in_pieces = in_pieces(alloc, request, answer)?;
        let other = otherwise(alloc, request, answer)?;
        Ok(Differences { in_pieces, other })
    }
}

impl Report {
    /// All answers to the stream at the front of the bytes.
    pub fn of(alloc: Global, request: &Request) -> Result<Report, AllocError> {
        let answer = Answer::pulled(alloc, request, Cut::Each(usize::MAX))?;
        let same_table = is_same_table(alloc, request, &answer)?;
        let differences = Differences::of(alloc, request, &answer)?;
        let round_trip = round_trip_of(alloc, &answer);
        let by_columns = ByColumns::of(alloc, request)?;
        Ok(Report {
            length: request.stream.len(),
            answer,
            in_pieces: differences.in_pieces,
            other: differences.other,
            same_table,
            round_trip,
            by_columns,
        })
    }
}
