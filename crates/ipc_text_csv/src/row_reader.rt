//! Reads the rows of an input's CSV records one by one.
ghost use Rattle.std.specs.Prelude.{◌≡◌, ◌<◌, ◌+◌, ◌^◌, ℕ, List, [], Option, None, IfErr, IfOk};
ghost use Rattle.std.specs.Prelude.{OnOk, true, false};
ghost use Rattle.std.specs.Io.KnownBytes.{Keeps};
ghost use Rattle.csv.specs.Records.{fields_of};
ghost use Rattle.ipc_model.specs.declared.value.Value.{Value};
ghost use Rattle.ipc_text_csv.specs.Records.{IsSetUp, HasReadRecords, input_of};
ghost use Rattle.ipc_text_csv.specs.RowCsv.{flat_fault};
ghost use Rattle.ipc_text_csv.specs.RowReaders.{CountsNextFailure, FindsHeader, FindsNoRow};
ghost use Rattle.ipc_text_csv.specs.RowReaders.{FindsRow, HasRead};
ghost use Rattle.ipc_text_csv.specs.declared.dialect.Dialect.{Dialect};

use crate::dialect::Dialect;
use crate::reader::{check_header, fill_row_from_csv};
use crate::record_fault::RecordFault;
use crate::record_reader::RecordReader;
use csv::ByteRecord;
use ipc_device::ReportsFailure;
use ipc_model::{Items, Row, Schema, Value};
use std::alloc::Global;
use std::io::Read;
use std::mem;

/// Reads the CSV records of an input (RFC 4180): the header, and then the row of each record after
/// it. It keeps one record and one row, whose memory the next ones use again.
///
/// A byte order mark at the start of the input is dropped, and blank lines are no records, unless
/// the dialect is strict. No clause states what calls after an error read.
pub struct RowReader<R> {
    reader: RecordReader<R>,
    fields: ByteRecord,
    row: Row,
    // The number of records after the header that were read.
    count: u64,
}

impl<R: Read + ReportsFailure> RowReader<R> {
    /// Creates a reader of all records of an input in a dialect. It reads nothing.
    pub fn new(alloc: Global, dialect: Dialect<'_>, input: R) -> RowReader<R>
        ensures set_up { IsSetUp dialect.entry result.reader }
        ensures stands { (known : Option (List ℕ)) → Keeps known (R.remaining input)
            → HasReadRecords dialect.entry R.remaining known [] result.reader }
        ensures count { result.count ≡ 0 }
    {
        RowReader {
            reader: RecordReader::new(alloc, dialect, input),
            fields: ByteRecord::new(alloc),
            row: Items::new(alloc),
            count: 0,
        }
    }

    /// Reads the first record, and checks that it is the header of a schema's columns, which CSV
    /// can represent. Returns false if there is no record.
    ///
    /// Errors: `Input` if the device failed; `Text` with X5 or X4 of record 0 if the record, which
    /// `take_record` returns, is another, or not in the form of a strict dialect; `Text` with
    /// `OutOfMemory`.
    pub fn read_header(&mut self, schema: &Schema) -> Result<bool, RecordFault>
        requires flat { flat_fault schema.now.fields ≡ None }
        ensures set_up { (d : Dialect) → IsSetUp d self.old.reader
            → OnOk result (IsSetUp d self.new.reader) }
        ensures finds { (d : Dialect) (input : Option (List ℕ)) → IsSetUp d self.old.reader
            → HasReadRecords d R.remaining input [] self.old.reader → self.old.count ≡ 0
            → FindsHeader d R.remaining input schema.now self.new result }
        ensures device { CountsNextFailure (R.failures (input_of self.new.reader)) result }
    {
        if !self.reader.next_record(0, &mut self.fields)? {
            return Ok(false);
        }
        check_header(schema, &self.fields)?;
        Ok(true)
    }

    /// Reads the next record after the header into the kept row. Returns false if there is none.
    ///
    /// Errors: `Input` if the device failed; `Text` with the fault of `row_from_csv` if the record,
    /// which `take_record` returns, reads as no row, or with X5 or X4 if it is not in the form of
    /// a strict dialect; the first record after the header has the number 1. `Text` with
    /// `OutOfMemory`, also for a record above 2^64 - 1, which has no number.
    pub fn next(
        &mut self,
        alloc: Global,
        dialect: Dialect<'_>,
        schema: &Schema,
    ) -> Result<bool, RecordFault>
        requires set_up { IsSetUp dialect self.old.reader }
        ensures set_up { OnOk result (IsSetUp dialect.entry self.new.reader) }
        ensures finds { IfOk result (λ has_row. (input : Option (List ℕ))
            (records : List (List (List ℕ))) (rows : List (List Value))
            → HasRead dialect.entry R.remaining input schema.now records rows self.old
            → FindsRow dialect.entry R.remaining input schema.now records rows self.new has_row) }
        ensures refused { IfErr result (λ why. (input : Option (List ℕ))
            (records : List (List (List ℕ))) (rows : List (List Value))
            → HasRead dialect.entry R.remaining input schema.now records rows self.old
            → FindsNoRow dialect.entry input schema.now records
            (fields_of self.new.fields) why) }
        ensures counted { IfOk result (λ has_row. has_row ≡ true
            → (self.new.count ≡ self.old.count + 1) × (self.new.count < 2 ^ 64)) }
        ensures stayed { IfOk result
            (λ has_row. has_row ≡ false → self.new.count ≡ self.old.count) }
        ensures device { CountsNextFailure (R.failures (input_of self.new.reader)) result }
    {
        let Some(count) = self.count.checked_add(1) else {
            return Err(self.reader.stop());
        };
        if !self.reader.next_record(count, &mut self.fields)? {
            return Ok(false);
        }
        self.count = count;
        fill_row_from_csv(alloc, dialect, schema, count, &self.fields, &mut self.row)?;
        Ok(true)
    }

    /// Returns the row that was read last. It has a meaning only after a `next` that returned true.
    pub fn row(&self) -> &[Value]
        ensures { result.now ≡ self.now.row }
    {
        self.row.as_slice()
    }

    /// Takes the record that was read last out of the reader, and leaves an empty one.
    pub fn take_record(&mut self, alloc: Global) -> ByteRecord
        ensures record { result ≡ self.old.fields }
        ensures reader { self.new.reader ≡ self.old.reader }
    {
        mem::replace(&mut self.fields, ByteRecord::new(alloc))
    }

    /// Returns the input.
    pub fn into_inner(self) -> R
        ensures { result ≡ input_of self.reader }
    {
        let RowReader {
            reader,
            fields: _,
            row: _,
            count: _,
        } = self;
        reader.into_input()
    }
}
