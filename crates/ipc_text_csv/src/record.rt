//! Writes a row as CSV.
ghost use Rattle.std.specs.Prelude.{◌≡◌, ◌++◌, ℕ, OnOk, IfOk, IfErr, Ok, decimal};
ghost use Rattle.std.specs.List.{list_any};
ghost use Rattle.csv.specs.Writing as csv;
ghost use Rattle.csv.specs.Writing.{default_writer};
ghost use Rattle.hex.specs.Hex.{encode_lower};
ghost use Rattle.ipc_text_temporal.specs.Temporals.{temporal_text};
ghost use Rattle.ipc_text_csv.specs.Dialects.{writer};
ghost use Rattle.ipc_text_csv.specs.RowCsv as spec;
ghost use Rattle.ipc_text_csv.specs.RowCsv.{RefusesValue, IsRefusal, null_text, bool_text};
ghost use Rattle.ipc_text_csv.specs.RowCsv.{with_backslash, chars_text, unless_null, with_field};
ghost use Rattle.ipc_text_csv.specs.RowCsv.{flat_fault, unless_fault, Appended, names, csv_text};
ghost use Rattle.ipc_text_csv.specs.RowCsv.{int_text, own_text, put_texts, with_end, Ended};
ghost use Rattle.ipc_model.specs.declared.schema.Field.{out-Field};
ghost use Rattle.ipc_model.specs.declared.value.Value.TheOpen.{Value-F};

use crate::dialect::{Dialect, needs_quotes};
use ipc_model::{DataType, Field, Schema, Value};
use ipc_text_temporal::{TextFault, push_digits, temporal_text};
use itoa::Buffer;
use std::alloc::{AllocError, Global};

#[tactic(auto, unfolding(csv::specs::Writing::escaped))]
fn push_escaped(out: &mut Vec<u8>, field: &[u8]) -> Result<(), AllocError>
    ensures { OnOk result
        (out.new.items ≡ out.old.items ++ csv.escaped default_writer field.now) }
{
    for byte in field {
        if *byte == b'"' {
            out.push(b'"')?;
        }
        out.push(*byte)?;
    }
    Ok(())
}

// Appends two texts between quotes.
fn push_quoted(out: &mut Vec<u8>, front: &[u8], field: &[u8]) -> Result<(), AllocError>
    ensures { OnOk result
        (out.new.items ≡ out.old.items ++ csv.quoted default_writer (front.now ++ field.now)) }
{
    out.push(b'"')?;
    push_escaped(out, front)?;
    push_escaped(out, field)?;
    out.push(b'"')?;
    Ok(())
}

// Appends two texts without quotes.
fn push_plain(out: &mut Vec<u8>, front: &[u8], field: &[u8]) -> Result<(), AllocError>
    ensures { OnOk result (out.new.items ≡ out.old.items ++ front.now ++ field.now) }
{
    out.extend_from_slice(front)?;
    out.extend_from_slice(field)
}

// Appends two texts as one field.
#[tactic(auto, using(crate::proofs::Quoted::field_quoted, crate::proofs::Quoted::field_plain))]
fn push_joined(
    out: &mut Vec<u8>,
    delimiter: u8,
    front: &[u8],
    field: &[u8],
) -> Result<(), AllocError>
    ensures { OnOk result
        (out.new.items ≡ with_field delimiter out.old.items (front.now ++ field.now)) }
{
    if needs_quotes(delimiter, front) || needs_quotes(delimiter, field) {
        push_quoted(out, front, field)
    } else {
        push_plain(out, front, field)
    }
}

// Appends a text as a CSV field (RFC 4180, section 2). It is quoted if it has a delimiter, a quote
// or an end of line, and each quote in it is doubled.
fn push_field(out: &mut Vec<u8>, dialect: Dialect<'_>, field: &[u8]) -> Result<(), AllocError>
    ensures { OnOk result
        (out.new.items ≡ with_field dialect.entry.delimiter out.old.items field.now) }
{
    push_joined(out, dialect.delimiter(), b"", field)
}

// Appends null as a field of this column. Errors: X3 with the column's number if null does not fit
// it; `OutOfMemory`.
#[tactic(auto, using(crate::proofs::CsvFits::null_allowed))]
fn push_null(
    out: &mut Vec<u8>,
    dialect: Dialect<'_>,
    column: u64,
    field: &Field,
) -> Result<(), TextFault>
    ensures ok { OnOk result (Appended dialect.entry.delimiter out.old.items
        (own_text dialect.entry field.now Value-F.Null) out.new.items) }
    ensures refused { IfErr result
        (RefusesValue column (own_text dialect.entry field.now Value-F.Null)) }
{
    if !field.fits_own_type(&Value::Null) {
        return Err(TextFault::NoTextForm { column });
    }
    Ok(push_field(out, dialect, dialect.null().as_bytes())?)
}

fn push_bool(out: &mut Vec<u8>, dialect: Dialect<'_>, truth: bool) -> Result<(), AllocError>
    ensures { OnOk result
        (out.new.items ≡ with_field dialect.entry.delimiter out.old.items (bool_text truth)) }
{
    match truth {
        true => push_field(out, dialect, b"true"),
        false => push_field(out, dialect, b"false"),
    }
}

// Appends an unsigned number as a CSV field, in decimal.
fn push_uint(out: &mut Vec<u8>, dialect: Dialect<'_>, number: u64) -> Result<(), AllocError>
    ensures { OnOk result
        (out.new.items ≡ with_field dialect.entry.delimiter out.old.items (decimal number)) }
{
    let mut digits = Buffer::new();
    push_field(out, dialect, digits.format(number).as_bytes())
}

fn push_temporal(
    out: &mut Vec<u8>,
    dialect: Dialect<'_>,
    column: u64,
    kind: &DataType,
    number: i64,
) -> Result<(), TextFault>
    ensures ok { OnOk result (Appended dialect.entry.delimiter out.old.items
        (temporal_text kind.now number) out.new.items) }
    ensures refused { IfErr result (RefusesValue column (temporal_text kind.now number)) }
{
    let Some(text) = temporal_text(kind, number) else {
        return Err(TextFault::NoTextForm { column });
    };
    Ok(push_field(out, dialect, text.as_str().as_bytes())?)
}

// Appends a signed number of a column of this type as a CSV field: a date, a time or a timestamp
// as its text, any other number in decimal. Errors: X3 with the column's number if it has no text;
// `OutOfMemory`.
fn push_int(
    out: &mut Vec<u8>,
    dialect: Dialect<'_>,
    column: u64,
    kind: &DataType,
    number: i64,
) -> Result<(), TextFault>
    ensures ok { OnOk result (Appended dialect.entry.delimiter out.old.items
        (int_text kind.now number) out.new.items) }
    ensures refused { IfErr result (RefusesValue column (int_text kind.now number)) }
{
    match kind {
        DataType::Date(_) | DataType::Time(_) | DataType::Timestamp { .. } => {
            push_temporal(out, dialect, column, kind, number)
        }
        _ => Ok(push_field(out, dialect, Buffer::new().format(number).as_bytes())?),
    }
}

// Appends bytes as a CSV field: two lower-case hexadecimal digits for each. Errors: X3 with the
// column's number if there are no bytes and null is the empty text; `OutOfMemory`.
fn push_bytes(
    out: &mut Vec<u8>,
    dialect: Dialect<'_>,
    column: u64,
    bytes: &[u8],
) -> Result<(), TextFault>
    ensures ok { OnOk result (Appended dialect.entry.delimiter out.old.items
        (unless_null dialect.entry (encode_lower bytes.now)) out.new.items) }
    ensures refused { IfErr result
        (RefusesValue column (unless_null dialect.entry (encode_lower bytes.now))) }
{
    if bytes.is_empty() && dialect.null().is_empty() {
        return Err(TextFault::NoTextForm { column });
    }
    Ok(push_digits(out, bytes)?)
}

// Appends a text as a CSV field, unless it is the text of null.
fn push_unless_null(
    out: &mut Vec<u8>,
    dialect: Dialect<'_>,
    column: u64,
    text: &[u8],
) -> Result<(), TextFault>
    ensures ok { OnOk result (Appended dialect.entry.delimiter out.old.items
        (unless_null dialect.entry text.now) out.new.items) }
    ensures refused { IfErr result (RefusesValue column (unless_null dialect.entry text.now)) }
{
    if text == dialect.null().as_bytes() {
        return Err(TextFault::NoTextForm { column });
    }
    Ok(push_field(out, dialect, text)?)
}

// Appends a text as a CSV field, with one more backslash before it if it begins with one.
fn push_backslashed(out: &mut Vec<u8>, dialect: Dialect<'_>, text: &[u8]) -> Result<(), AllocError>
    ensures { OnOk result (out.new.items
        ≡ with_field dialect.entry.delimiter out.old.items (with_backslash text.now)) }
{
    if text.first() != Some(&b'\\') {
        return push_field(out, dialect, text);
    }
    push_joined(out, dialect.delimiter(), b"\\", text)
}

// Appends a text as a CSV field. If null is `\N` and the text begins with a backslash, one more is
// added before it. Errors: X3 with the column's number if it is the text of null, other than `\N`;
// `OutOfMemory`.
fn push_text(
    out: &mut Vec<u8>,
    dialect: Dialect<'_>,
    column: u64,
    text: &str,
) -> Result<(), TextFault>
    ensures ok { OnOk result (Appended dialect.entry.delimiter out.old.items
        (chars_text dialect.entry text.now) out.new.items) }
    ensures refused { IfErr result (RefusesValue column (chars_text dialect.entry text.now)) }
{
    if dialect.escapes_backslash() {
        return Ok(push_backslashed(out, dialect, text.as_bytes())?);
    }
    push_unless_null(out, dialect, column, text.as_bytes())
}

// Appends a value of this column as a CSV field. Errors: X3 with the column's number if the value
// has no text; `OutOfMemory`.
fn push_value(
    out: &mut Vec<u8>,
    dialect: Dialect<'_>,
    column: u64,
    field: &Field,
    value: &Value,
) -> Result<(), TextFault>
    ensures ok { OnOk result (Appended dialect.entry.delimiter out.old.items
        (csv_text dialect.entry field.now value.now) out.new.items) }
    ensures refused { IfErr result
        (RefusesValue column (csv_text dialect.entry field.now value.now)) }
{
    match value {
        Value::Null => return push_null(out, dialect, column, field),
        Value::Bool(truth) => push_bool(out, dialect, *truth)?,
        Value::Int(number) => return push_int(out, dialect, column, &field.kind, *number),
        Value::UInt(number) => push_uint(out, dialect, *number)?,
        Value::Bytes(bytes) => return push_bytes(out, dialect, column, bytes.as_slice()),
        Value::Text(text) => return push_text(out, dialect, column, text.as_str()),
        Value::List(_) | Value::Struct(_) => return Err(TextFault::NoTextForm { column }),
    }
    Ok(())
}

// Appends the delimiter before the column with this number. The first column, number 0, has none.
fn push_delimiter(out: &mut Vec<u8>, dialect: Dialect<'_>, column: usize) -> Result<(), AllocError>
    ensures { OnOk result (out.new.items
        ≡ out.old.items ++ csv.next_sep (writer dialect.entry.delimiter) column) }
{
    if column > 0 {
        out.push(dialect.delimiter())?;
    }
    Ok(())
}

// Ends a record whose fields are in `out`: a line feed, after two quotes if there are no bytes.
fn end_record(out: &mut Vec<u8>) -> Result<(), AllocError>
    ensures text { OnOk result (out.new.items ≡ with_end out.old.items) }
    ensures record { (delimiter : ℕ) → OnOk result (Ended delimiter 0 out.old.items out.new.items) }
{
    if out.is_empty() {
        out.extend_from_slice(b"\"\"")?;
    }
    out.push(b'\n')?;
    Ok(())
}

// Appends the first name of a header. A byte order mark at its start is put in quotes, so that a
// reader does not take it for that of its input.
fn push_first_name(out: &mut Vec<u8>, dialect: Dialect<'_>, name: &[u8]) -> Result<(), AllocError>
    ensures { OnOk result
        (out.new.items ≡ out.old.items ++ spec.first_name dialect.entry name.now) }
{
    if name.starts_with(b"\xef\xbb\xbf") {
        return push_quoted(out, b"", name);
    }
    push_field(out, dialect, name)
}

// Appends the names of a header after the first one.
fn push_more_names(
    out: &mut Vec<u8>,
    dialect: Dialect<'_>,
    fields: &[Field],
) -> Result<(), AllocError>
    ensures { OnOk result (out.new.items
        ≡ out.old.items ++ csv.fields_text (writer dialect.entry.delimiter) (names fields.now)) }
{
    let delimiter = dialect.delimiter();
    for field in fields {
        out.push(delimiter)?;
        push_field(out, dialect, field.name.as_str().as_bytes())?;
    }
    Ok(())
}

fn push_values(
    out: &mut Vec<u8>,
    dialect: Dialect<'_>,
    fields: &[Field],
    row: &[Value],
) -> Result<(), TextFault>
    ensures ok { OnOk result
        (put_texts dialect.entry out.old.items fields.now row.now ≡ Ok out.new.items) }
    ensures refused { IfErr result
        (IsRefusal (put_texts dialect.entry out.old.items fields.now row.now)) }
{
    for (column, field) in fields.iter().enumerate() {
        let Some(value) = row.get(column) else {
            return Ok(());
        };
        push_delimiter(out, dialect, column)?;
        push_value(out, dialect, column as u64, field, value)?;
    }
    Ok(())
}

/// Returns whether a type is a list, a fixed-size list or a struct.
pub(crate) fn is_nested(kind: &DataType) -> bool
    ensures { result ≡ spec.is_nested kind.now }
{
    matches!(
        kind,
        DataType::List | DataType::FixedSizeList(_) | DataType::Struct
    )
}

fn has_nested(fields: &[Field]) -> bool
    ensures { result ≡ list_any (λ f. spec.is_nested (out-Field f).kind) fields.now }
{
    fields.iter().any(|field| is_nested(&field.kind))
}

/// Checks that CSV can represent the columns of a schema. Errors: X1 for a column that is a list or
/// a struct; X2 if there is no column.
pub fn check_flat(schema: &Schema) -> Result<(), TextFault>
    ensures { result ≡ unless_fault (flat_fault schema.now.fields) (Ok tt) }
{
    let fields = schema.fields.as_slice();
    if has_nested(fields) {
        return Err(TextFault::NotFlat);
    }
    if fields.is_empty() {
        return Err(TextFault::NoColumns);
    }
    Ok(())
}

/// Returns the CSV header of a schema's columns: their names, unchanged, with a line feed. A first
/// name that begins with a byte order mark is in quotes, so that it is read back. Errors: X1 and X2
/// as in `check_flat`; `OutOfMemory`.
pub fn csv_header(
    alloc: Global,
    dialect: Dialect<'_>,
    schema: &Schema,
) -> Result<Vec<u8>, TextFault>
    ensures ok { IfOk result
        (λ text. spec.header_text dialect.entry schema.now.fields ≡ Ok text.items) }
    ensures refused { IfErr result
        (IsRefusal (spec.header_text dialect.entry schema.now.fields)) }
{
    check_flat(schema)?;
    let mut out = Vec::new(alloc);
    if let [first, more @ ..] = schema.fields.as_slice() {
        push_first_name(&mut out, dialect, first.name.as_str().as_bytes())?;
        push_more_names(&mut out, dialect, more)?;
    }
    end_record(&mut out)?;
    Ok(out)
}

/// Returns a row as a CSV record with its line feed (RFC 4180).
///
/// Null is its text in the dialect, numbers and durations are decimal, bytes are lower-case
/// hexadecimal digits, and dates, times and timestamps are their texts. If null is `\N`, a text
/// that begins with a backslash gets one more before it. Of a row that conforms to the schema, the
/// record is read back as the row (`laws::text_comes_back`).
///
/// Errors: X1 and X2 as in `check_flat`; X3 with the first column whose value has no text;
/// `OutOfMemory` if memory ran out. These values have no text:
///
/// - null in a column that is not nullable, unless its type is Null;
/// - a date or a timestamp outside the years 0001 to 9999;
/// - milliseconds of a date that are no whole days;
/// - a time outside 24 hours;
/// - if null is not `\N`: its text, and no bytes if it is empty.
pub fn csv_record(
    alloc: Global,
    dialect: Dialect<'_>,
    schema: &Schema,
    row: &[Value],
) -> Result<Vec<u8>, TextFault>
    ensures ok { IfOk result
        (λ text. spec.row_csv dialect.entry schema.now.fields row.now ≡ Ok text.items) }
    ensures refused { IfErr result
        (IsRefusal (spec.row_csv dialect.entry schema.now.fields row.now)) }
{
    check_flat(schema)?;
    let mut out = Vec::new(alloc);
    push_values(&mut out, dialect, schema.fields.as_slice(), row)?;
    end_record(&mut out)?;
    Ok(out)
}
