//! What the bytes of streams come from and go to: sources and sinks, whose failures contracts see.
#![tactic(auto)]

mod device;
mod failed;
mod limited;
mod memory;
mod progress;
mod retry;
mod send;
mod sink;
mod source;
mod source_reader;

pub use device::Device;
pub use failed::Failed;
pub use limited::Limited;
pub use memory::Memory;
pub use progress::Progress;
pub use retry::Retry;
pub use send::send_all;
pub use sink::Sink;
pub use source::Source;
pub use source_reader::{ReportsFailure, SourceReader};
