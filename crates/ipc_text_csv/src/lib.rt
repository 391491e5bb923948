//! Reads and writes rows as CSV, and reads the rows of the records of an input.
#![tactic(auto)]

mod ascii;
mod cell;
mod dialect;
mod digits;
mod hexadecimal;
pub mod laws;
mod reader;
mod record;
mod record_fault;
mod record_reader;
mod row_reader;
mod strict_reader;
mod temporal_fast_path;

pub use dialect::Dialect;
pub use reader::{check_header, fill_row_from_csv, row_from_csv};
pub use record::{check_flat, csv_header, csv_record};
pub use record_fault::RecordFault;
pub use row_reader::RowReader;
