//! The faults of texts.
ghost use Rattle.std.specs.Prelude.{◌≡◌, Some};
ghost use Rattle.ipc_text_temporal.specs.declared.fault.TextFault.TheVariants.{OutOfMemory};
ghost use Rattle.ipc_text_temporal.specs.FaultLines.{text_fault_line};

use std::alloc::{AllocError, AllocFailed};
use std::error::Error;
use std::fmt;

/// Why a text is not written or not read. Each fault except `OutOfMemory` has a number, X1 to X6.
/// Records are numbered from 1, and the header is record 0. Columns are numbered from 0.
#[derive(Clone, Copy, Debug, PartialEq, Eq, Drop)]
pub enum TextFault {
    /// X1: a column is a list or a struct, which CSV cannot represent.
    NotFlat,
    /// X2: the schema has no columns, so CSV has no record of it.
    NoColumns,
    /// X3: CSV has no text for a value; this is the first such column. It is a date or timestamp
    /// outside the years 0001 to 9999, or a time outside its day. It may also be a date in
    /// milliseconds with a part of a day.
    NoTextForm {
        /// The number of the column.
        column: u64,
    },
    /// X4: a field is not the text of a value that fits its column, or a name in the header is not
    /// the column's. It is the first such column.
    BadField {
        /// The number of the record.
        record: u64,
        /// The number of the column.
        column: u64,
    },
    /// X5: the number of fields is not the number of columns. This is checked before X4. An input
    /// without a header is refused at record 0.
    WrongFieldCount {
        /// The number of the record.
        record: u64,
    },
    /// X6: the text is not the JSON of a schema, or `Schema::check` refuses its schema.
    BadSchemaJson,
    /// Memory ran out.
    OutOfMemory,
}

/// Prints the number and the name, and the place if there is one, as in `X4 BadField at record 2
/// column 0`. `OutOfMemory` is printed as `out of memory`.
impl fmt::Display for TextFault {
    ghost output = { λ fault. Some (text_fault_line fault) };

    fn fmt<W: fmt::Write>(&self, f: &mut fmt::Formatter<W>) -> fmt::Result {
        match self {
            TextFault::NotFlat => f.write_str("X1 NotFlat"),
            TextFault::NoColumns => f.write_str("X2 NoColumns"),
            TextFault::NoTextForm { column } => write!(f, "X3 NoTextForm at column {column}"),
            TextFault::BadField { record, column } => {
                write!(f, "X4 BadField at record {record} column {column}")
            }
            TextFault::WrongFieldCount { record } => {
                write!(f, "X5 WrongFieldCount at record {record}")
            }
            TextFault::BadSchemaJson => f.write_str("X6 BadSchemaJson"),
            TextFault::OutOfMemory => f.write_str("out of memory"),
        }
    }
}

impl Error for TextFault {}

impl From<AllocError> for TextFault {
    ghost from_gives = { λ _ fault. fault ≡ OutOfMemory };

    fn from(_error: AllocError) -> TextFault {
        TextFault::OutOfMemory
    }
}

impl<T: Drop> From<AllocFailed<T>> for TextFault {
    ghost from_gives = { λ _ fault. fault ≡ OutOfMemory };

    fn from(_error: AllocFailed<T>) -> TextFault {
        TextFault::OutOfMemory
    }
}
