//! Reads a stream batch by batch and writes it again in canonical layout, with its schema and
//! batches (Arrow Columnar Format, "IPC Streaming Format").
#![tactic(auto)]

mod bounded;
mod copying;
mod limits;
mod options;
mod output;
mod stop;

pub use copying::rewrite;
pub use limits::{at_least_standard, sent_limits};
pub use options::{RewriteOptions, Total};
pub use stop::RewriteStop;
