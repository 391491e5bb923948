//! Reads the CSV records of an input one by one.
ghost use Rattle.std.specs.Prelude.{◌≡◌, ℕ, List, [], Option, IfErr, IfOk, OnOk, Err, true};
ghost use Rattle.std.specs.Prelude.{false};
ghost use Rattle.std.specs.Io.KnownBytes.{Keeps};
ghost use Rattle.csv.specs.Reading.{reader_state, source_of};
ghost use Rattle.csv.specs.Records.{fields_of};
ghost use Rattle.ipc_text_csv.specs.Records.{FindsNext, FindsRecord, HasReadRecords, IsCsvSetUp};
ghost use Rattle.ipc_text_csv.specs.Records.{IsSetUp, LeavesReader, StopsRecords, input_of};
ghost use Rattle.ipc_text_csv.specs.RowReaders.{CountsNextFailure};
ghost use Rattle.ipc_text_csv.specs.declared.dialect.Dialect.{Dialect};
ghost use Rattle.ipc_text_csv.specs.declared.record_fault.RecordFault.{RecordFault};
ghost use Rattle.ipc_text_csv.specs.declared.record_fault.RecordFault.TheVariants.{Text};

use crate::dialect::Dialect;
use crate::record_fault::RecordFault;
use crate::strict_reader::StrictReader;
use csv::{ByteRecord, Reader, ReaderBuilder};
use ipc_device::ReportsFailure;
use ipc_text_temporal::TextFault;
use std::alloc::Global;
use std::io::Read;

/// A reader of all records of an input, the header's among them, however many fields each has.
pub(crate) enum RecordReader<R> {
    /// Reads what the crate `csv` accepts.
    Csv(Reader<R>),
    /// Reads the strict form.
    Strict(StrictReader<R>),
}

// The crate's reader of all records of an input in a dialect that is not strict.
fn csv_reader<R: Read>(alloc: Global, dialect: Dialect<'_>, input: R) -> Reader<R>
    requires lenient { dialect.strict ≡ false }
    ensures set_up { IsCsvSetUp dialect.entry result }
    ensures stands { LeavesReader dialect.entry (R.remaining input) [] (reader_state result)
        (source_of R.remaining result) }
{
    ReaderBuilder::new()
        .delimiter(dialect.delimiter())
        .has_headers(false)
        .flexible(true)
        .from_reader(alloc, input)
}

// Reads the next record by the crate's reader. Returns false if there is none.
fn read_csv<R: Read>(reader: &mut Reader<R>, fields: &mut ByteRecord) -> Result<bool, TextFault>
    ensures set_up { (d : Dialect) → IsCsvSetUp d reader.old
        → OnOk result (IsCsvSetUp d reader.new) }
    ensures finds { (d : Dialect) → IsCsvSetUp d reader.old → IfOk result (λ has_record.
        (input : Option (List ℕ)) (records : List (List (List ℕ)))
        → LeavesReader d input records (reader_state reader.old)
        (source_of R.remaining reader.old)
        → FindsNext d input records (reader_state reader.new)
        (source_of R.remaining reader.new) has_record (fields_of fields.new)) }
    ensures memory { IfErr result (λ fault. fault ≡ TextFault.OutOfMemory) }
{
    let Ok(has_record) = reader.read_byte_record(fields) else {
        return Err(TextFault::OutOfMemory);
    };
    Ok(has_record)
}

// Reads the next record, which has this number. Returns false if there is none.
fn read_record<R: Read>(
    reader: &mut RecordReader<R>,
    number: u64,
    fields: &mut ByteRecord,
) -> Result<bool, TextFault>
    ensures set_up { (d : Dialect) → IsSetUp d reader.old → OnOk result (IsSetUp d reader.new) }
    ensures finds { (d : Dialect) → IsSetUp d reader.old → IfOk result (λ has_record.
        (input : Option (List ℕ)) (records : List (List (List ℕ)))
        → HasReadRecords d R.remaining input records reader.old
        → FindsRecord d R.remaining input records reader.new has_record (fields_of fields.new)) }
    ensures stopped { IfErr result (λ fault. (d : Dialect) (input : Option (List ℕ))
        (records : List (List (List ℕ))) → IsSetUp d reader.old
        → HasReadRecords d R.remaining input records reader.old
        → StopsRecords d input records number (Text fault)) }
{
    match reader {
        RecordReader::Csv(reader) => read_csv(reader, fields),
        RecordReader::Strict(reader) => reader.read_record(number, fields),
    }
}

impl<R: Read + ReportsFailure> RecordReader<R> {
    /// Creates a reader in a dialect. It reads nothing.
    pub(crate) fn new(alloc: Global, dialect: Dialect<'_>, input: R) -> RecordReader<R>
        ensures set_up { IsSetUp dialect.entry result }
        ensures stands { (known : Option (List ℕ)) → Keeps known (R.remaining input)
            → HasReadRecords dialect.entry R.remaining known [] result }
    {
        if dialect.is_strict() {
            return RecordReader::Strict(StrictReader::new(alloc, dialect.delimiter(), input));
        }
        RecordReader::Csv(csv_reader(alloc, dialect, input))
    }

    // Whether the device of the input failed.
    fn has_failed(&self) -> bool
        ensures failed { result ≡ true → R.failures (input_of self.now) ≡ 1 }
        ensures works { result ≡ false → R.failures (input_of self.now) ≡ 0 }
    {
        match self {
            RecordReader::Csv(reader) => reader.get_ref().has_failed(),
            RecordReader::Strict(reader) => reader.input().has_failed(),
        }
    }

    /// Returns `Input` if the device failed, and else `OutOfMemory`.
    pub(crate) fn stop(&self) -> RecordFault
        ensures stopped { (d : Dialect) (input : Option (List ℕ)) (records : List (List (List ℕ)))
            (number : ℕ) → StopsRecords d input records number result }
        ensures device { CountsNextFailure {T = ℕ} (R.failures (input_of self.now)) (Err result) }
    {
        if self.has_failed() {
            RecordFault::Input
        } else {
            RecordFault::Text(TextFault::OutOfMemory)
        }
    }

    /// Reads the next record, which has this number. Returns false if there is none.
    ///
    /// Errors: `Input` if the device failed; `Text` with X5 for a blank line, or X4 for a field not
    /// in strict form, if the dialect is strict; `Text` with `OutOfMemory`.
    pub(crate) fn next_record(
        &mut self,
        number: u64,
        fields: &mut ByteRecord,
    ) -> Result<bool, RecordFault>
        ensures set_up { (d : Dialect) → IsSetUp d self.old → OnOk result (IsSetUp d self.new) }
        ensures finds { (d : Dialect) → IsSetUp d self.old → IfOk result (λ has_record.
            (input : Option (List ℕ)) (records : List (List (List ℕ)))
            → HasReadRecords d R.remaining input records self.old
            → FindsRecord d R.remaining input records self.new has_record (fields_of fields.new)) }
        ensures stopped { IfErr result (λ why. (d : Dialect) (input : Option (List ℕ))
            (records : List (List (List ℕ))) → IsSetUp d self.old
            → HasReadRecords d R.remaining input records self.old
            → StopsRecords d input records number why) }
        ensures device { CountsNextFailure (R.failures (input_of self.new)) result }
    {
        let has_record = read_record(self, number, fields);
        if self.has_failed() {
            return Err(RecordFault::Input);
        }
        match has_record {
            Ok(has_record) => Ok(has_record),
            Err(fault) => Err(RecordFault::Text(fault)),
        }
    }

    /// Returns the input.
    pub(crate) fn into_input(self) -> R
        ensures { result ≡ input_of self }
    {
        match self {
            RecordReader::Csv(reader) => reader.into_inner(),
            RecordReader::Strict(reader) => reader.into_input(),
        }
    }
}
