use ipc_model::{Items, Schema, Text};

/// What the metadata states of a record batch (Message.fbs, table RecordBatch). The numbers are as
/// they were written: they may be negative, and they are not yet validated against the schema or
/// the body.
#[derive(Debug, PartialEq, Eq, Drop)]
pub struct BatchHead {
    /// The number of rows of the batch (`length`).
    pub length: i64,
    /// For each field in pre-order the number of its slots, and the number of null slots (`nodes`,
    /// struct FieldNode).
    pub nodes: Items<(i64, i64)>,
    /// For each buffer in pre-order its offset in the body, and its length, both in bytes
    /// (`buffers`; Schema.fbs, struct Buffer).
    pub buffers: Items<(i64, i64)>,
}

/// The content of a message, as its metadata states it (Message.fbs, union MessageHeader).
#[derive(Debug, PartialEq, Eq, Drop)]
pub enum Head {
    /// The schema of the stream, which is well formed (`Schema::check`).
    Schema(Schema),
    /// The values of the dictionary with this id, as a batch of one column. They replace all values
    /// that the dictionary had (table DictionaryBatch).
    Dictionary(i64, BatchHead),
    /// Rows of the schema (table RecordBatch), and the message's pairs of key and value, in order;
    /// keys may repeat (`custom_metadata`).
    Batch(BatchHead, Items<(Text, Text)>),
}
