//! Why a record is not read as a row.
ghost use Rattle.std.specs.Prelude.{◌≡◌};

use ipc_text_temporal::TextFault;

/// Why a record of an input is not read. It has no fields of the record, so that it is small.
#[derive(Debug, PartialEq, Eq, Drop)]
pub enum RecordFault {
    /// The device of the input failed.
    Input,
    /// The record is not the header or a row (X1, X2, X4, X5), or memory ran out.
    Text(TextFault),
}

impl From<TextFault> for RecordFault {
    ghost use Rattle.ipc_text_csv.specs.declared.record_fault.RecordFault.TheVariants.{Text};

    ghost from_gives = { λ fault no_row. no_row ≡ Text fault };

    fn from(fault: TextFault) -> RecordFault {
        RecordFault::Text(fault)
    }
}
