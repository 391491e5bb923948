//! Reads streams in pieces, batch by batch or as a whole table (Arrow Columnar Format, "IPC
//! Streaming Format").
#![tactic(auto)]

mod decoder;
mod end;
mod event;
pub mod laws;
mod next_frame;
mod read_stop;
mod reader;
mod scope;
mod scope_messages;
mod source_reading;
mod stream_state;
mod table;

pub use decoder::Decoder;
pub use end::End;
pub use event::Event;
pub use read_stop::ReadStop;
pub use reader::StreamReader;
pub use scope::Scope;
pub use table::read_table;
