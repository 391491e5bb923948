//! JSON and CSV of schemas and rows, and texts of dates and times: what users need of the crates
//! `ipc_text_temporal`, `ipc_text_json` and `ipc_text_csv`, under one name.
#![tactic(auto)]

pub use ipc_text_csv::{
    Dialect, check_header, csv_header, csv_record, fill_row_from_csv, row_from_csv,
};
pub use ipc_text_json::{
    FieldPart, RowShape, SchemaError, pairs_json, row_json, schema_error, schema_from_json,
    schema_json,
};
pub use ipc_text_temporal::{
    ShortText, TextFault, date_text, read_date, read_time, read_timestamp, time_text,
    timestamp_text,
};
