//! Explains why a stream is refused: keeps the message that is being read, and returns lines about
//! it.
#![tactic(auto)]

mod column_lines;
mod columns_alone;
mod explained;
mod field_paths;
mod formats;
mod message_lines;
mod message_record;
mod recorder;
mod records;
mod schemas;
mod scope_updates;
mod type_tables;
mod writes;

pub use recorder::Recorder;
pub use records::explain_record;
pub use schemas::explain_schema;
pub use writes::explain_write;
