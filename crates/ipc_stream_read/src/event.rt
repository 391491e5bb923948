use ipc_column::Batch;
use ipc_model::{Items, Text};

/// What the bytes of a stream complete, in order (Arrow Columnar Format, "IPC Streaming Format").
#[derive(Debug, Drop)]
pub enum Event {
    /// The schema is complete, and in force from now on.
    Schema,
    /// A record batch, with the pairs of key and value of its message, in order; keys may repeat
    /// (Message.fbs, table Message, `custom_metadata`).
    Batch(Batch, Items<(Text, Text)>),
    /// The end-of-stream mark.
    End,
}
