//! Splits streams into encapsulated messages, and writes them: the continuation mark, the size of
//! the metadata, the metadata and the body (Arrow Columnar Format, "Encapsulated message format").
#![tactic(auto)]

mod decision;
mod frame;
mod frames;
pub mod laws;
mod message_prefix;
mod partial_buffer;
mod partial_message;
mod pull;
mod room;
mod step;
mod write;

pub use frame::{END_OF_STREAM, Frame};
pub use frames::Frames;
pub use write::frame_into;
