//! Why a conversion stopped.
ghost use Rattle.std.specs.Prelude.{◌≡◌};
ghost use Rattle.ipc_text_temporal.specs.declared.fault.TextFault.{TextFault};
ghost use Rattle.ipc_text_temporal.specs.declared.fault.TextFault.TheVariants.{OutOfMemory};
ghost use Rattle.job_from_csv.specs.Stops.{stop_of};
ghost use Rattle.job_from_csv.specs.declared.stop.FromCsvStop.TheVariants as stop;

use csv::ByteRecord;
use ipc_model::WriteFault;
use ipc_text_csv::RecordFault;
use ipc_text_temporal::TextFault;
use std::alloc::AllocFailed;

/// Why a conversion from CSV stopped.
#[derive(Debug, PartialEq, Drop)]
pub enum FromCsvStop {
    /// The source of the input failed.
    Input,
    /// The stream could not be written: W1 to W9, or W11.
    Write(WriteFault),
    /// CSV cannot represent the columns (X1, X2), there is no header (X5 of record 0), or memory
    /// ran out.
    Text(TextFault),
    /// The header has other names, or a record is no row of the schema.
    Record {
        /// X5 or X4.
        fault: TextFault,
        /// The record, with all its fields. Its position is the one that the crate `csv` notes when
        /// it begins to read the record; no contract states it.
        fields: ByteRecord,
    },
}

/// Returns the stop at a record that is not read as a row, for this reason.
pub(crate) fn stop_at(why: RecordFault, fields: ByteRecord) -> FromCsvStop
    ensures { result ≡ stop_of why fields }
{
    match why {
        RecordFault::Input => FromCsvStop::Input,
        RecordFault::Text(TextFault::OutOfMemory) => FromCsvStop::Text(TextFault::OutOfMemory),
        RecordFault::Text(fault) => FromCsvStop::Record { fault, fields },
    }
}

impl From<TextFault> for FromCsvStop {
    ghost from_gives = { λ fault why. why ≡ stop.Text fault };

    fn from(fault: TextFault) -> FromCsvStop {
        FromCsvStop::Text(fault)
    }
}

impl From<WriteFault> for FromCsvStop {
    ghost from_gives = { λ fault why. why ≡ stop.Write fault };

    fn from(fault: WriteFault) -> FromCsvStop {
        FromCsvStop::Write(fault)
    }
}

impl<T: Drop> From<AllocFailed<T>> for FromCsvStop {
    ghost from_gives = { λ _ why. why ≡ stop.Text OutOfMemory };

    fn from(_error: AllocFailed<T>) -> FromCsvStop {
        FromCsvStop::Text(TextFault::OutOfMemory)
    }
}
