//! The dictionaries that a reader has in force, each replaced as a whole and shared by the fields
//! with its id (Arrow Columnar Format, "Dictionary Messages").
#![tactic(auto)]

mod dictionaries;
mod values_columns;

pub use dictionaries::Dictionaries;
pub use values_columns::one_column;
