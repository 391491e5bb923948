//! Converts schemas to JSON and back, and rows and pairs to JSON.
#![tactic(auto)]

mod row;
mod schema;
mod schema_errors;
mod schema_reader;

pub use row::{RowShape, row_json};
pub use schema::{pairs_json, schema_json, string_json, type_json};
pub use schema_errors::{FieldPart, SchemaError, schema_error};
pub use schema_reader::{schema_from_json, schema_from_json_bytes};
