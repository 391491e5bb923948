//! Explains a record of CSV that is refused.
ghost use Rattle.std.specs.Prelude.{◌≡◌, ◌++◌, ℕ, IfOk, List, OnOk, codes};
ghost use Rattle.std.specs.Fmt.{decimal};
ghost use Rattle.csv.specs.Records.{fields_of};
ghost use Rattle.job_explain.specs.Records as spec;
ghost use Rattle.job_explain.specs.Records.{ExplainsRecord, IsExcerpt, bad_field, column_words};

use crate::column_lines::{push_field, push_string};
use crate::writes::field_at;
use csv::ByteRecord;
use ipc_model::{Field, Schema};
use ipc_text_temporal::{TextFault, push_digits, push_number};
use std::alloc::{AllocError, Global};

// How many bytes of a field are shown.
const MAX_EXCERPT: usize = 40;

// Appends the beginning of a field: in the quotes of JSON, or as hexadecimal digits.
fn push_excerpt(alloc: Global, out: &mut Vec<u8>, field: &[u8]) -> Result<(), AllocError>
    ensures { OnOk result ((shown : List ℕ) × IsExcerpt field.now shown
        × (out.new.items ≡ out.old.items ++ shown)) }
{
    match str::from_utf8(field) {
        Ok(text) => {
            let front = &text[..text.floor_char_boundary(MAX_EXCERPT)];
            push_string(alloc, out, front)
        }
        Err(_) => push_digits(out, &field[..MAX_EXCERPT.min(field.len())]),
    }
}

// Appends an ellipsis if more bytes of a field remain than are shown.
fn push_ellipsis(out: &mut Vec<u8>, field: &[u8]) -> Result<(), AllocError>
    ensures ok { OnOk result (out.new.items ≡ out.old.items ++ spec.ellipsis field.now) }
{
    if field.len() > MAX_EXCERPT {
        out.extend_from_slice(b"\xe2\x80\xa6")?;
    }
    Ok(())
}

// Appends the place of a byte that is not UTF-8.
fn push_place(out: &mut Vec<u8>, place: usize) -> Result<(), AllocError>
    ensures ok { OnOk result (out.new.items ≡ out.old.items ++ spec.place_words place) }
{
    out.extend_from_slice(b" (not UTF-8 at byte ")?;
    push_number(out, place as u64)?;
    out.extend_from_slice(b")")?;
    Ok(())
}

// Appends the place of the first byte that is not UTF-8, if there is one.
fn push_bad_byte(out: &mut Vec<u8>, field: &[u8]) -> Result<(), AllocError>
    ensures ok { OnOk result (out.new.items ≡ out.old.items ++ spec.bad_byte_words field.now) }
{
    match str::from_utf8(field) {
        Ok(_) => Ok(()),
        Err(error) => push_place(out, error.valid_up_to()),
    }
}

// Appends the words for a column.
fn push_column(alloc: Global, out: &mut Vec<u8>, column: &Field) -> Result<(), AllocError>
    ensures { OnOk result (out.new.items ≡ out.old.items ++ column_words column.now) }
{
    out.extend_from_slice(b"column ")?;
    push_field(alloc, out, column)?;
    if !column.nullable {
        out.extend_from_slice(b" without nulls")?;
    }
    Ok(())
}

// Appends the number of a line.
fn push_line(out: &mut Vec<u8>, line: u64) -> Result<(), AllocError>
    ensures { OnOk result
        (out.new.items ≡ out.old.items ++ codes "line " ++ decimal line ++ codes ": ") }
{
    out.extend_from_slice(b"line ")?;
    push_number(out, line)?;
    out.extend_from_slice(b": ")?;
    Ok(())
}

// The words for a record of another length.
fn explain_count(alloc: Global, line: u64, fields: u64, columns: u64) -> Result<Vec<u8>, AllocError>
    ensures { IfOk result (λ out. out.items ≡ spec.other_count line fields columns) }
{
    let mut out = Vec::new(alloc);
    push_line(&mut out, line)?;
    push_number(&mut out, fields)?;
    out.extend_from_slice(b" fields for ")?;
    push_number(&mut out, columns)?;
    out.extend_from_slice(b" columns\n")?;
    Ok(out)
}

// The words between a field of the record with this number and its column.
fn words_of(number: u64) -> &'static [u8]
    ensures { result.now ≡ spec.middle_words number }
{
    match number {
        0 => b" is not the name of ",
        _ => b" is no value of ",
    }
}

// The words for a field that is refused.
fn explain_field(
    alloc: Global,
    line: u64,
    field: &[u8],
    words: &[u8],
    column: &Field,
) -> Result<Vec<u8>, AllocError>
    ensures { IfOk result (λ out. (shown : List ℕ) × IsExcerpt field.now shown
        × (out.items ≡ bad_field line shown field.now words.now column.now)) }
{
    let mut out = Vec::new(alloc);
    push_line(&mut out, line)?;
    push_excerpt(alloc, &mut out, field)?;
    push_ellipsis(&mut out, field)?;
    push_bad_byte(&mut out, field)?;
    out.extend_from_slice(words)?;
    push_column(alloc, &mut out, column)?;
    out.extend_from_slice(b"\n")?;
    Ok(out)
}

/// Explains why a record is refused as X4 or X5, in a line with its line feed. The line has the
/// number of the input's line. At X4 it has the beginning of the field, the place of its first byte
/// that is not UTF-8, and the column's name and type; at X5 the numbers of fields and columns. For
/// another fault the result is empty.
///
/// `fields` is the record, as `job_from_csv::FromCsvStop::Record` returns it. The line's number is
/// that of its position, which no contract states.
pub fn explain_record(
    alloc: Global,
    fault: &TextFault,
    schema: &Schema,
    fields: &ByteRecord,
) -> Result<Vec<u8>, AllocError>
    ensures explains { IfOk result (λ out. ExplainsRecord fault.now schema.now.fields
        (fields_of fields.now) out.items) }
{
    let line = match fields.position() {
        Some(position) => position.line(),
        None => 1,
    };
    let columns = schema.fields.as_slice();
    match fault {
        TextFault::WrongFieldCount { .. } => {
            explain_count(alloc, line, fields.len() as u64, columns.len() as u64)
        }
        TextFault::BadField {
            record: number,
            column,
        } => {
            let place = *column as usize;
            let Some(field) = fields.get(place) else {
                return Ok(Vec::new(alloc));
            };
            let Some(column) = field_at(columns, place) else {
                return Ok(Vec::new(alloc));
            };
            explain_field(alloc, line, field, words_of(*number), column)
        }
        _ => Ok(Vec::new(alloc)),
    }
}
