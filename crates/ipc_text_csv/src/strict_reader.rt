//! Reads CSV records in strict form.
ghost use Rattle.std.specs.Prelude.{◌≡◌, [], ◌∷◌, IfOk, IfErr, OnOk, MatchOption};
ghost use Rattle.std.specs.Prelude.{false, true};
ghost use Rattle.std.specs.Io.KnownBytes.{Consumes, IsAtEnd};
ghost use Rattle.csv.specs.Machine as spec;
ghost use Rattle.csv.specs.Records.{fields_of, partial_of};
ghost use Rattle.ipc_text_csv.specs.StrictForm.{ReadsStrictly, form_fault, is_outside};
ghost use Rattle.ipc_text_csv.specs.StrictReaders.{action_of, left_of, setting, state_of};

use csv::ByteRecord;
use ipc_text_temporal::TextFault;
use std::alloc::{AllocError, Global};
use std::io::Read;

// The number of bytes that one call of an input may return.
const PIECE: usize = 8_192;

/// Where the next byte is in a record.
#[derive(Clone, Copy, Debug, PartialEq, Eq)]
pub(crate) enum Place {
    StartRecord,
    StartField,
    InField,
    InQuoted,
    AfterQuote,
    AfterCr,
}

/// What a byte does to a record.
#[derive(Clone, Copy, Debug, PartialEq, Eq)]
pub(crate) enum Action {
    Skip,
    Copy,
    EndField,
    EndRecord,
}

// A byte of a field without quotes, or after the quote that ends one.
fn in_field(delimiter: u8, byte: u8) -> (Place, Action)
    ensures { spec.in_field (setting delimiter) byte ≡ (state_of result.0, action_of result.1) }
{
    if byte == delimiter {
        (Place::StartField, Action::EndField)
    } else if byte == b'\r' {
        (Place::AfterCr, Action::EndRecord)
    } else if byte == b'\n' {
        (Place::StartRecord, Action::EndRecord)
    } else {
        (Place::InField, Action::Copy)
    }
}

// The first byte of a field.
fn start_field(delimiter: u8, byte: u8) -> (Place, Action)
    ensures { spec.start_field (setting delimiter) byte ≡ (state_of result.0, action_of result.1) }
{
    if byte == b'"' {
        (Place::InQuoted, Action::Skip)
    } else {
        in_field(delimiter, byte)
    }
}

// What a byte does at a place, or `None` if the strict form has no such byte there.
fn step(delimiter: u8, place: Place, byte: u8) -> Option<(Place, Action)>
    ensures { MatchOption result (is_outside (setting delimiter) (state_of place) byte ≡ true)
        (λ next. (is_outside (setting delimiter) (state_of place) byte ≡ false)
        × (spec.step (setting delimiter) (state_of place) byte
        ≡ (state_of next.0, action_of next.1))) }
{
    match place {
        Place::StartRecord if byte == b'\r' || byte == b'\n' => None,
        Place::AfterCr if byte == b'\r' => None,
        Place::AfterCr if byte == b'\n' => Some((Place::StartRecord, Action::Skip)),
        Place::StartRecord | Place::AfterCr | Place::StartField => {
            Some(start_field(delimiter, byte))
        }
        Place::InField if byte == b'"' => None,
        Place::InField => Some(in_field(delimiter, byte)),
        Place::InQuoted if byte == b'"' => Some((Place::AfterQuote, Action::Skip)),
        Place::InQuoted => Some((Place::InQuoted, Action::Copy)),
        Place::AfterQuote if byte == b'"' => Some((Place::InQuoted, Action::Copy)),
        Place::AfterQuote if byte != delimiter && byte != b'\r' && byte != b'\n' => None,
        Place::AfterQuote => Some(in_field(delimiter, byte)),
    }
}

// Whether an input that ends here ends inside a record.
fn is_open(place: Place) -> bool
    ensures { result ≡ spec.ends_at_end (state_of place) }
{
    match place {
        Place::StartRecord | Place::AfterCr => false,
        Place::StartField | Place::InField | Place::InQuoted | Place::AfterQuote => true,
    }
}

// The fault of the record with this number, of which this number of fields ended.
fn fault_at(number: u64, column: usize, place: Place) -> TextFault
    ensures { result ≡ form_fault number column (state_of place) }
{
    match place {
        Place::StartRecord | Place::AfterCr => TextFault::WrongFieldCount { record: number },
        _ => TextFault::BadField {
            record: number,
            column: column as u64,
        },
    }
}

// Does what a byte does to the field at hand and the fields before it. Returns whether the record
// ended.
fn apply(
    action: Action,
    byte: u8,
    field: &mut Vec<u8>,
    fields: &mut ByteRecord,
) -> Result<bool, AllocError>
    requires { partial_of fields.old ≡ [] }
    ensures ends { IfOk result (λ ended. ended ≡ spec.is_end (action_of action)) }
    ensures fields { OnOk result (fields_of fields.new
        ≡ spec.fields_after (action_of action) (fields_of fields.old) field.old.items) }
    ensures field { OnOk result
        (field.new.items ≡ spec.field_after (action_of action) byte field.old.items) }
    ensures whole { OnOk result (partial_of fields.new ≡ []) }
{
    match action {
        Action::Skip => {}
        Action::Copy => field.push(byte)?,
        Action::EndField | Action::EndRecord => {
            fields.push_field(field.as_slice())?;
            field.clear();
        }
    }
    Ok(action == Action::EndRecord)
}

/// The bytes of an input one by one.
#[derive(Drop)]
pub(crate) struct Bytes<R> {
    input: R,
    buffer: [u8; PIECE],
    at: usize,
    filled: usize,
}

impl<R: Read> Bytes<R> {
    fn new(input: R) -> Bytes<R>
        ensures left { left_of R.remaining result ≡ R.remaining input }
    {
        Bytes {
            input,
            buffer: [0; PIECE],
            at: 0,
            filled: 0,
        }
    }

    // The next byte, or `None` at the end.
    fn next(&mut self) -> Result<Option<u8>, TextFault>
        ensures next { IfOk result (λ found. MatchOption found
            (IsAtEnd (left_of R.remaining self.old))
            (λ byte. Consumes (left_of R.remaining self.old) (left_of R.remaining self.new)
            (byte ∷ []))) }
        ensures memory { IfErr result (λ fault. fault ≡ TextFault.OutOfMemory) }
    {
        if self.at >= self.filled.min(PIECE) {
            let Ok(count) = self.input.read(&mut self.buffer) else {
                return Err(TextFault::OutOfMemory);
            };
            self.at = 0;
            self.filled = count;
            if count == 0 {
                return Ok(None);
            }
        }
        let byte = self.buffer[self.at];
        self.at += 1;
        Ok(Some(byte))
    }
}

/// Reads the records of an input in strict form.
#[derive(Drop)]
pub(crate) struct StrictReader<R> {
    bytes: Bytes<R>,
    delimiter: u8,
    place: Place,
    field: Vec<u8>,
}

impl<R: Read> StrictReader<R> {
    /// Creates a reader of all records of an input. It reads nothing.
    pub(crate) fn new(alloc: Global, delimiter: u8, input: R) -> StrictReader<R>
        ensures left { left_of R.remaining result.bytes ≡ R.remaining input }
        ensures delimiter { result.delimiter ≡ delimiter }
        ensures start { result.place ≡ Place.StartRecord }
    {
        StrictReader {
            bytes: Bytes::new(input),
            delimiter,
            place: Place::StartRecord,
            field: Vec::new(alloc),
        }
    }

    /// Reads the next record, which has this number. Returns false if there is none.
    ///
    /// Errors: X5 for a blank line; X4 with the number of the field that is not in strict form, or
    /// in which the input ends. `fields` then has the fields before it. `OutOfMemory` if memory ran
    /// out or the input failed.
    pub(crate) fn read_record(
        &mut self,
        number: u64,
        fields: &mut ByteRecord,
    ) -> Result<bool, TextFault>
        ensures delimiter { self.new.delimiter ≡ self.old.delimiter }
        ensures reads { ReadsStrictly (setting self.old.delimiter) number (state_of self.old.place)
            (left_of R.remaining self.old.bytes) (state_of self.new.place) (fields_of fields.new)
            (left_of R.remaining self.new.bytes) result }
    {
        fields.clear();
        self.field.clear();
        for _ in 0..u64::MAX {
            let Some(byte) = self.bytes.next()? else {
                if is_open(self.place) {
                    return Err(fault_at(number, fields.len(), self.place));
                }
                return Ok(false);
            };
            let Some((place, action)) = step(self.delimiter, self.place, byte) else {
                return Err(fault_at(number, fields.len(), self.place));
            };
            self.place = place;
            if apply(action, byte, &mut self.field, fields)? {
                return Ok(true);
            }
        }
        Err(TextFault::OutOfMemory)
    }

    /// Returns the input, which stays in the reader.
    pub(crate) fn input(&self) -> &R
        ensures { result.now ≡ self.now.bytes.input }
    {
        &self.bytes.input
    }

    /// Returns the input.
    pub(crate) fn into_input(self) -> R
        ensures { result ≡ self.bytes.input }
    {
        self.bytes.input
    }
}
