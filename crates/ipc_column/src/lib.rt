//! Reads record batches in place: columns over one body, whose cells are lent. A batch is accepted
//! exactly if its fields, metadata and body denote rows, unless memory runs out (Arrow Columnar
//! Format).
#![tactic(auto)]

mod assign;
mod batch;
mod bitmaps;
mod buffers;
mod cell;
mod cell_iter;
mod dictionary;
mod fixed;
mod head;
mod indices;
mod offsets;
mod owned_rows;
mod ranges;
mod slot_facts;
mod slot_view;
mod texts;
mod validate;
mod view;
mod visit;

pub use assign::{Cursor, count};
pub use batch::{Batch, one_list_of_rows};
pub use bitmaps::{is_valid, valid_are_among};
pub use buffers::{Buffers, Numbers};
pub use cell::{Cell, ListCell, StructCell};
pub use cell_iter::{ListIter, StructIter};
pub use slot_view::{Slot, SlotView};
pub use view::ColumnView;
