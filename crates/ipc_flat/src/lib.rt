//! Reads FlatBuffers in place, without copies and without memory: tables, their fields, texts and
//! vectors (FlatBuffers binary format).
#![tactic(auto)]

mod fault;
mod flat;
mod offset;
mod struct_vec;
mod table;
mod table_vec;

pub use fault::FlatFault;
pub use flat::Flat;
pub use struct_vec::StructVec;
pub use table::TableRef;
pub use table_vec::TableVec;
