//! Reads and writes the metadata of one message: a FlatBuffer whose root is a Message table
//! (Message.fbs), with a schema (Schema.fbs) or the head of a batch in it.
#![tactic(auto)]

mod batches;
mod budget;
mod fields;
mod flat_faults;
pub mod head;
mod laws;
mod message;
mod slots;
mod trees;
mod type_slots;
mod types;
mod version;
mod write;

pub use fields::read_only_field;
pub use head::{BatchHead, Head};
pub use laws::{dictionary_room_by_counts, one_head_per_metadata, room_by_counts};
pub use message::read_message;
pub use write::{dictionary_room, write_batch, write_dictionary, write_schema};
