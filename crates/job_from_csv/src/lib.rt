//! Converts CSV records to a stream (RFC 4180; Arrow Columnar Format, "IPC Streaming Format").
#![tactic(auto)]

mod batch_size;
mod convert;
mod stop;

pub use batch_size::BatchSize;
pub use convert::from_csv;
pub use stop::FromCsvStop;
