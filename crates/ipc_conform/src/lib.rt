//! Checks whether the rows of a record batch that was read fit a schema.
#![tactic(auto)]

mod conforming;

pub use conforming::check_rows;
