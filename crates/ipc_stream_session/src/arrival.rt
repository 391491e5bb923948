//! What a piece of a stream completed.

/// What a piece of a stream completed (Arrow Columnar Format, "IPC Streaming Format").
#[derive(Clone, Copy, Debug, PartialEq, Eq)]
pub enum Arrival {
    /// Nothing yet: the whole piece was taken, or the stream is over.
    Nothing,
    /// The schema.
    Schema,
    /// A record batch, which the session keeps until the next piece.
    Batch,
    /// The end-of-stream mark.
    End,
}
