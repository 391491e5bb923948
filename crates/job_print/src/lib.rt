//! The rows of a stream as text: its counts, lines of JSON, or records of CSV.
#![tactic(auto)]

mod batch_text;
mod bool_words;
mod bytes;
mod column_tree;
mod csv_fields;
mod csv_row;
mod digits;
mod form;
mod hexadecimal;
mod json_row;
mod json_strings;
mod line_buffer;
mod plain;
mod printing;
mod schema;
mod stop;
mod text_buffer;

pub use form::{Form, PrintOptions};
pub use printing::print;
pub use schema::print_schema;
pub use stop::PrintStop;
