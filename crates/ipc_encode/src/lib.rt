//! Encodes the rows of a record batch: its nodes, its buffers and its body (Arrow Columnar Format,
//! "RecordBatch message").
#![tactic(auto)]

mod bitmaps;
mod builder;
mod built_columns;
mod canonical;
mod column;
mod column_builder;
mod column_sizes;
mod counting;
mod cut;
mod encoding;
mod fault;
mod fitting;
mod index;
mod indexed_columns;
mod parts;
mod pool;
mod segments;
mod tree;
mod whole_columns;

pub use builder::{Builder, encode, holds_agreeing};
pub use column_sizes::ColumnSizes;
pub use encoding::encode_columns;
pub use fault::PushFault;
pub use index::{IndexOf, NoIndices, Renumber, SameNumbers};
pub use parts::Parts;
pub use pool::BufferPool;
pub use segments::{Segment, SegmentedParts};
