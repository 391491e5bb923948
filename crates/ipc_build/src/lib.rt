//! Writes trees of tables in the FlatBuffers binary format; reading the bytes returns exactly the
//! fields, texts and subtrees of the tree.
#![tactic(auto)]

mod builder;
mod fault;
mod inline;
mod places;
mod room;
mod scalars;
mod tables;
mod tree;

pub use builder::build;
pub use fault::BuildFault;
pub use tree::{FlatTree, Slot};
