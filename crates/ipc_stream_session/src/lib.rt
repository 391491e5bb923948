//! Streams as values that a program in another language can hold: each result is a number or bytes.
#![tactic(auto)]

mod arrival;
mod batch;
mod buffer;
mod cells;
mod column;
mod copy;
mod field;
mod format;
mod open_table;
mod parts;
mod ready;
mod session;
mod stage;
mod threads;
mod write_error;
mod write_session;

pub use arrival::Arrival;
pub use batch::ReadBatch;
pub use buffer::BufferKind;
pub use cells::Nesting;
pub use column::{ColumnFacts, DICTIONARY_STEP};
pub use copy::copy_into;
pub use field::{FieldFacts, FieldText};
pub use ipc_stream::CanonicalSize;
pub use session::ReadSession;
pub use threads::may_change_threads;
pub use write_error::WriteError;
pub use write_session::WriteSession;
