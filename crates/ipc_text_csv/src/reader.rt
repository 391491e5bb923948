//! Reads a row from the fields of a CSV record.
ghost use Rattle.std.specs.Prelude.{◌≡◌, ◌≢◌, ◌<◌, ◌^◌, ℕ, ℤ, List, IfOk, IfErr, IfSome};
ghost use Rattle.std.specs.Prelude.{MatchResult, Some, Bool, FitsSigned, decimal, option_map};
ghost use Rattle.std.specs.Prelude.{length, OnOk, None, Ok, IsTrue, IsSome, ◌↔◌, false};
ghost use Rattle.std.specs.List.{list_any};
ghost use Rattle.std.specs.Fmt.{signed_decimal};
ghost use Rattle.std.specs.Int.{w64};
ghost use Rattle.std.specs.Str.{IsUtf8};
ghost use Rattle.csv.specs.Records.{fields_of};
ghost use Rattle.ipc_model.specs.declared.value.Value.{Null, Value, out-Value};
ghost use Rattle.ipc_model.specs.declared.value.Value.TheOpen.{Value-F};
ghost use Rattle.ipc_model.specs.declared.schema.Field.{out-Field};
ghost use Rattle.ipc_model.specs.Fits.{FitsOwnType, IsOfKind};
ghost use Rattle.ipc_model.specs.Ranges.{IsSignedWithin, width};
ghost use Rattle.ipc_model.specs.declared.schema.DataType.TheVariants.{FixedSizeBinary};
ghost use Rattle.ipc_text_csv.specs.CsvCells.{decoded_hex};
ghost use Rattle.ipc_text_csv.specs.CsvRows.{StandsFor, ReadsAs, RecordReadsAs, IsRecordFault};
ghost use Rattle.ipc_text_csv.specs.CsvRows.{IsCharsOf, EachReadsAs, IsBadField, IsFirstUnlike};
ghost use Rattle.ipc_text_csv.specs.CsvRows.{IsHeaderFault, EachTyped};
ghost use Rattle.ipc_text_temporal.specs.Temporals.{date_text, time_text};
ghost use Rattle.ipc_text_csv.specs.RowCsv.{bool_text, chars_text, names, flat_fault, null_text};
ghost use Rattle.ipc_text_csv.specs.RowCsv.{row_texts};
ghost use Rattle.ipc_text_csv.specs.RowCsv as spec;

use crate::ascii::text_of;
use crate::cell::{decode_bytes, read_int, read_text, read_uint};
use crate::dialect::Dialect;
use crate::digits::{read_short, read_short_signed};
use crate::record::{check_flat, is_nested};
use crate::temporal_fast_path::{read_day, read_timestamp_field};
use csv::ByteRecord;
use ipc_model::{DataType, DateUnit, Field, IntBits, Items, Row, Schema, Text, TimeUnit, Value};
use ipc_text_temporal::{TextFault, read_date, read_time};
use std::alloc::{AllocError, Global};
use std::mem;

// The signed number whose decimal text this is, of any length.
#[inline(never)]
fn read_any_decimal(text: &[u8]) -> Option<i64>
    ensures only { IfSome result (λ z. signed_decimal z ≡ text.now) }
    ensures all { (z : ℤ) → FitsSigned w64 z → signed_decimal z ≡ text.now → result ≡ Some z }
{
    match str::from_utf8(text) {
        Ok(text) => read_int(text),
        Err(_) => None,
    }
}

// The signed number whose decimal text this is.
#[inline(always)]
fn read_decimal(text: &[u8]) -> Option<i64>
    ensures only { IfSome result (λ z. signed_decimal z ≡ text.now) }
    ensures all { (z : ℤ) → FitsSigned w64 z → signed_decimal z ≡ text.now → result ≡ Some z }
{
    if let Some(number) = read_short_signed(text) {
        return Some(number);
    }
    read_any_decimal(text)
}

// The unsigned number whose decimal text this is.
fn read_count(text: &[u8]) -> Option<u64>
    ensures only { IfSome result (λ n. decimal n ≡ text.now) }
    ensures all { (n : ℕ) → n < 2 ^ 64 → decimal n ≡ text.now → result ≡ Some n }
{
    if let Some(count) = read_short(text) {
        return Some(count);
    }
    match str::from_utf8(text) {
        Ok(text) => read_uint(text),
        Err(_) => None,
    }
}

// The boolean whose text this is.
fn read_bool(text: &[u8]) -> Option<bool>
    ensures only { IfSome result (λ truth. bool_text truth ≡ text.now) }
    ensures all { (truth : Bool) → bool_text truth ≡ text.now → result ≡ Some truth }
{
    match text {
        [b't', b'r', b'u', b'e'] => Some(true),
        [b'f', b'a', b'l', b's', b'e'] => Some(false),
        _ => None,
    }
}

// Makes a text another one, in its room.
#[inline(always)]
fn refill_text(alloc: Global, text: &mut Text, chars: &str) -> Result<(), AllocError>
    ensures { OnOk result (text.new ≡ chars.now) }
{
    let mut string = mem::replace(text, Text::from_string(String::new(alloc))).into_string();
    string.clear();
    string.push_str(chars)?;
    *text = Text::from_string(string);
    Ok(())
}

// Puts a text in the place of a value that is none.
#[inline(never)]
fn put_new_text(alloc: Global, chars: &str, place: &mut Value) -> Result<(), AllocError>
    ensures { OnOk result (out-Value place.new ≡ Value-F.Text chars.now) }
{
    *place = Value::Text(Text::copied(alloc, chars)?);
    Ok(())
}

// Puts the text whose field this is in the place of a value, in its room where that is a text, and
// says whether there is one.
#[inline(never)]
fn put_chars(
    alloc: Global,
    dialect: Dialect<'_>,
    text: &[u8],
    place: &mut Value,
) -> Result<bool, AllocError>
    ensures only { IfOk result (λ read. IsTrue read
        → IsCharsOf dialect.entry text.now (out-Value place.new)) }
    ensures all { IfOk result (λ read. (chars : List ℕ) → IsUtf8 chars
        → chars_text dialect.entry chars ≡ Some text.now
        → IsTrue read × (out-Value place.new ≡ Value-F.Text chars)) }
{
    let Some(chars) = read_text(dialect, text) else {
        return Ok(false);
    };
    let Some(chars) = text_of(chars) else {
        return Ok(false);
    };
    match place {
        Value::Text(kept) => refill_text(alloc, kept, chars)?,
        _ => put_new_text(alloc, chars, place)?,
    }
    Ok(true)
}

// Makes bytes those whose digits these are, in their room, and says whether there are such.
#[inline(always)]
fn refill_bytes(alloc: Global, bytes: &mut Items<u8>, text: &[u8]) -> Result<bool, AllocError>
    ensures bytes { IfOk result (λ read. IsTrue read → decoded_hex text.now ≡ Some bytes.new) }
    ensures none { IfOk result (λ read. read ≡ false → decoded_hex text.now ≡ None) }
{
    let mut list = mem::replace(bytes, Items::new(alloc)).into_vec();
    let read = decode_bytes(&mut list, text)?;
    *bytes = Items::from_vec(list);
    Ok(read)
}

// Puts the bytes whose digits these are in the place of a value that is none, and says whether
// there are such.
#[inline(never)]
fn put_new_bytes(alloc: Global, text: &[u8], place: &mut Value) -> Result<bool, AllocError>
    ensures bytes { IfOk result (λ read. IsTrue read
        → option_map Value-F.Bytes (decoded_hex text.now) ≡ Some (out-Value place.new)) }
    ensures none { IfOk result (λ read. read ≡ false → decoded_hex text.now ≡ None) }
{
    let mut bytes = Items::new(alloc);
    let read = refill_bytes(alloc, &mut bytes, text)?;
    *place = Value::Bytes(bytes);
    Ok(read)
}

// Puts the bytes whose digits these are in the place of a value, in its room where that is bytes,
// and says whether there are such.
#[inline(never)]
fn put_binary(alloc: Global, text: &[u8], place: &mut Value) -> Result<bool, AllocError>
    ensures bytes { IfOk result (λ read. IsTrue read
        → option_map Value-F.Bytes (decoded_hex text.now) ≡ Some (out-Value place.new)) }
    ensures none { IfOk result (λ read. read ≡ false → decoded_hex text.now ≡ None) }
{
    match place {
        Value::Bytes(kept) => refill_bytes(alloc, kept, text),
        _ => put_new_bytes(alloc, text, place),
    }
}

// The number, if it fits this number of bits.
#[inline(always)]
fn within(bits: IntBits, number: Option<i64>) -> Option<i64>
    ensures number { IfSome result (λ z. number ≡ Some z) }
    ensures small { IfSome result (λ z. IsSignedWithin (width bits) z) }
    ensures all { (z : ℤ) → number ≡ Some z → IsSignedWithin (width bits) z → result ≡ Some z }
{
    let number = number?;
    let is_within = match bits {
        IntBits::B64 => true,
        IntBits::B32 => i32::try_from(number).is_ok(),
        IntBits::B16 => i16::try_from(number).is_ok(),
        IntBits::B8 => i8::try_from(number).is_ok(),
    };
    if is_within { Some(number) } else { None }
}

// Whether a value is bytes of this size.
#[inline(always)]
fn has_size(size: u32, value: &Value) -> bool
    ensures { IsTrue result ↔ IsOfKind (FixedSizeBinary size) 0 (out-Value value.now) }
{
    match value {
        Value::Bytes(bytes) => bytes.len() == size as usize,
        _ => false,
    }
}

// Replaces a value by a boolean, if there is one. A boolean is overwritten in place, so nothing has
// to be dropped.
#[inline(always)]
fn put_bool_value(truth: Option<bool>, place: &mut Value) -> bool
    ensures only { IsTrue result → IfSome truth (λ b. out-Value place.new ≡ Value-F.Bool b) }
    ensures some { IsTrue result ↔ IsSome truth }
{
    let Some(truth) = truth else {
        return false;
    };
    match place {
        Value::Bool(kept) => *kept = truth,
        _ => *place = Value::Bool(truth),
    }
    true
}

// Replaces a value by a signed number, if there is one.
#[inline(always)]
fn put_int(number: Option<i64>, place: &mut Value) -> bool
    ensures only { IsTrue result → IfSome number (λ z. out-Value place.new ≡ Value-F.Int z) }
    ensures some { IsTrue result ↔ IsSome number }
{
    let Some(number) = number else {
        return false;
    };
    match place {
        Value::Int(kept) => *kept = number,
        _ => *place = Value::Int(number),
    }
    true
}

// Replaces a value by another, if there is one and it fits the field.
fn put_own(field: &Field, value: Option<Value>, place: &mut Value) -> bool
    ensures put { IsTrue result → value ≡ Some place.new }
    ensures own { IsTrue result → FitsOwnType (out-Field field.now).kind
        (out-Field field.now).nullable
        (length (out-Field field.now).children) (out-Value place.new) }
    ensures all { (v : Value) → value ≡ Some v
        → FitsOwnType (out-Field field.now).kind (out-Field field.now).nullable
        (length (out-Field field.now).children) (out-Value v) → IsTrue result }
{
    let Some(value) = value else {
        return false;
    };
    if !field.fits_own_type(&value) {
        return false;
    }
    *place = value;
    true
}

// Replaces a value by null, if null fits the field and CSV can represent the field. Rare cases are
// functions of their own, so that other values do not take their stack space.
#[inline(never)]
fn put_null(field: &Field, place: &mut Value) -> bool
    ensures put { IsTrue result → place.new ≡ Null }
    ensures flat { IsTrue result → spec.is_nested (out-Field field.now).kind ≡ false }
    ensures own { IsTrue result → FitsOwnType (out-Field field.now).kind
        (out-Field field.now).nullable
        (length (out-Field field.now).children) Value-F.Null }
    ensures all { spec.is_nested (out-Field field.now).kind ≡ false
        → FitsOwnType (out-Field field.now).kind (out-Field field.now).nullable
        (length (out-Field field.now).children) Value-F.Null → IsTrue result }
{
    if is_nested(&field.kind) {
        return false;
    }
    put_own(field, Some(Value::Null), place)
}

// Replaces a value by the unsigned number with this text.
#[inline(never)]
fn put_count(field: &Field, text: &[u8], place: &mut Value) -> bool
    ensures own { IsTrue result → FitsOwnType (out-Field field.now).kind
        (out-Field field.now).nullable
        (length (out-Field field.now).children) (out-Value place.new) }
    ensures only { IsTrue result
        → (n : ℕ) × (out-Value place.new ≡ Value-F.UInt n) × (decimal n ≡ text.now) }
    ensures all { (n : ℕ) → n < 2 ^ 64 → decimal n ≡ text.now
        → FitsOwnType (out-Field field.now).kind (out-Field field.now).nullable
        (length (out-Field field.now).children) (Value-F.UInt n)
        → IsTrue result × (out-Value place.new ≡ Value-F.UInt n) }
{
    put_own(field, read_count(text).map(Value::UInt), place)
}

// Replaces a value by the date in milliseconds with this text.
#[inline(never)]
fn put_date(field: &Field, text: &[u8], place: &mut Value) -> bool
    ensures own { IsTrue result → FitsOwnType (out-Field field.now).kind
        (out-Field field.now).nullable
        (length (out-Field field.now).children) (out-Value place.new) }
    ensures only { IsTrue result → (z : ℤ) × (out-Value place.new ≡ Value-F.Int z)
        × (date_text DateUnit.Millisecond z ≡ Some text.now) }
    ensures all { (z : ℤ) → date_text DateUnit.Millisecond z ≡ Some text.now
        → FitsOwnType (out-Field field.now).kind (out-Field field.now).nullable
        (length (out-Field field.now).children) (Value-F.Int z)
        → IsTrue result × (out-Value place.new ≡ Value-F.Int z) }
{
    put_own(
        field,
        read_date(DateUnit::Millisecond, text).map(Value::Int),
        place,
    )
}

// Replaces a value by the time with this text.
#[inline(never)]
fn put_time(field: &Field, unit: TimeUnit, text: &[u8], place: &mut Value) -> bool
    ensures own { IsTrue result → FitsOwnType (out-Field field.now).kind
        (out-Field field.now).nullable
        (length (out-Field field.now).children) (out-Value place.new) }
    ensures only { IsTrue result → (z : ℤ) × (out-Value place.new ≡ Value-F.Int z)
        × (time_text unit z ≡ Some text.now) }
    ensures all { (z : ℤ) → time_text unit z ≡ Some text.now
        → FitsOwnType (out-Field field.now).kind (out-Field field.now).nullable
        (length (out-Field field.now).children) (Value-F.Int z)
        → IsTrue result × (out-Value place.new ≡ Value-F.Int z) }
{
    put_own(field, read_time(unit, text).map(Value::Int), place)
}

// Parses a field that is not null into an existing value, whose memory is reused. Returns whether
// the text is that of a value; if not, the value has no meaning.
#[inline(always)]
fn read_own(
    alloc: Global,
    dialect: Dialect<'_>,
    field: &Field,
    text: &[u8],
    place: &mut Value,
) -> Result<bool, AllocError>
    requires { text.now ≢ null_text dialect }
    ensures own { IfOk result (λ read. IsTrue read
        → FitsOwnType (out-Field field.now).kind (out-Field field.now).nullable
        (length (out-Field field.now).children) (out-Value place.new)) }
    ensures flat { IfOk result (λ read. IsTrue read
        → spec.is_nested (out-Field field.now).kind ≡ false) }
    ensures stands { IfOk result (λ read. IsTrue read
        → StandsFor dialect.entry (out-Field field.now).kind text.now (out-Value place.new)) }
    ensures all { IfOk result (λ read. (v : Value)
        → IsOfKind (out-Field field.now).kind (length (out-Field field.now).children) (out-Value v)
        → StandsFor dialect.entry (out-Field field.now).kind text.now (out-Value v)
        → IsTrue read × (place.new ≡ v)) }
{
    let read = match &field.kind {
        DataType::Null | DataType::List | DataType::FixedSizeList(_) | DataType::Struct => false,
        DataType::Bool => put_bool_value(read_bool(text), place),
        DataType::Int { signed: false, .. } => put_count(field, text, place),
        DataType::Int { bits, signed: true } => {
            put_int(within(*bits, read_decimal(text)), place)
        }
        DataType::Duration(_) => put_int(read_decimal(text), place),
        DataType::Date(DateUnit::Day) => { put_int(within(IntBits::B32, read_day(text)), place) }
        DataType::Date(DateUnit::Millisecond) => put_date(field, text, place),
        DataType::Time(unit) => put_time(field, *unit, text, place),
        DataType::Timestamp { unit, timezone } => {
            put_int(read_timestamp_field(*unit, timezone, text), place)
        }
        DataType::Utf8 => put_chars(alloc, dialect, text, place)?,
        DataType::Binary => put_binary(alloc, text, place)?,
        DataType::FixedSizeBinary(size) => {
            put_binary(alloc, text, place)? && has_size(*size, place)
        }
    };
    Ok(read)
}

// Reads the value of this field as which the text reads into the place of another, and says whether
// there is one. There is none of a list or a struct, for which CSV has no place.
#[inline(always)]
fn read_field(
    alloc: Global,
    dialect: Dialect<'_>,
    field: &Field,
    text: &[u8],
    place: &mut Value,
) -> Result<bool, AllocError>
    ensures only { IfOk result (λ read. IsTrue read
        → ReadsAs dialect.entry field.now text.now place.new) }
    ensures flat { IfOk result (λ read. IsTrue read
        → spec.is_nested (out-Field field.now).kind ≡ false) }
    ensures all { IfOk result (λ read. spec.is_nested (out-Field field.now).kind ≡ false
        → (v : Value) → ReadsAs dialect.entry field.now text.now v
        → IsTrue read × (place.new ≡ v)) }
{
    if text == dialect.null().as_bytes() {
        return Ok(put_null(field, place));
    }
    read_own(alloc, dialect, field, text, place)
}

// Gives a row `count` values. Values that were there remain at the front.
fn resize(row: &mut Vec<Value>, count: usize) -> Result<(), AllocError>
    ensures { OnOk result (length row.new.items ≡ count) }
{
    row.truncate(count);
    for place in row.len()..count {
        row.push(Value::Null)?;
    }
    Ok(())
}

// What refuses a field.
#[inline(never)]
fn bad_field(number: u64, column: usize) -> TextFault
    ensures { result ≡ TextFault.BadField number column }
{
    TextFault::BadField {
        record: number,
        column: column as u64,
    }
}

// Reads the values of a row, if there is one field for each column. Each value uses the memory of
// the earlier value of its column. If all are read, no column is a list or a struct.
fn read_fields(
    alloc: Global,
    dialect: Dialect<'_>,
    columns: &[Field],
    number: u64,
    fields: &ByteRecord,
    row: &mut Vec<Value>,
) -> Result<(), TextFault>
    requires fields { length columns.now ≡ length (fields_of fields.now) }
    requires row { length columns.now ≡ length row.old.items }
    ensures flat { OnOk result
        (list_any (λ f. spec.is_nested (out-Field f).kind) columns.now ≡ false) }
    ensures read { OnOk result
        (EachReadsAs dialect.entry columns.now (fields_of fields.now) row.new.items) }
    ensures all { OnOk result ((wanted : List Value)
        → EachReadsAs dialect.entry columns.now (fields_of fields.now) wanted
        → row.new.items ≡ wanted) }
    ensures refused { IfErr result (λ fault.
        list_any (λ f. spec.is_nested (out-Field f).kind) columns.now ≡ false
        → IsBadField dialect.entry number columns.now (fields_of fields.now) fault) }
{
    for (column, field) in columns.iter().enumerate() {
        let Some(text) = fields.get(column) else {
            return Err(bad_field(number, column));
        };
        if !read_field(alloc, dialect, field, text, &mut row[column])? {
            return Err(bad_field(number, column));
        }
    }
    Ok(())
}

/// Reads the row of the CSV record with this number. Each value fits its column.
///
/// A field with the dialect's text of null is null. Booleans are `true` and `false`. Numbers are
/// decimal, without plus sign, leading zero or `-0`. Bytes are hexadecimal digits in either case.
/// Dates, times and timestamps have one spelling. If null is `\N`, a text that begins with a
/// backslash begins with two.
///
/// Errors, in this order of precedence:
///
/// - X1 and X2 as in `check_flat`;
/// - X5 if the number of fields is not the number of columns;
/// - X4 with the first column whose field is not the text of a value that fits.
///
/// `OutOfMemory` is returned if memory ran out. It takes memory for the row, its texts and its
/// bytes.
pub fn row_from_csv(
    alloc: Global,
    dialect: Dialect<'_>,
    schema: &Schema,
    number: u64,
    fields: &ByteRecord,
) -> Result<Row, TextFault>
    ensures read { IfOk result
        (λ row. RecordReadsAs dialect.entry schema.now.fields (fields_of fields.now) row) }
    ensures all { (row : List Value)
        → RecordReadsAs dialect.entry schema.now.fields (fields_of fields.now) row
        → MatchResult result (λ read. read ≡ row) (λ fault. fault ≡ TextFault.OutOfMemory) }
    ensures back { (row : List Value) → flat_fault schema.now.fields ≡ None
        → EachTyped schema.now.fields row
        → row_texts dialect.entry schema.now.fields row ≡ Ok (fields_of fields.now)
        → MatchResult result (λ read. read ≡ row) (λ fault. fault ≡ TextFault.OutOfMemory) }
    ensures refused { IfErr result
        (IsRecordFault dialect.entry number schema.now.fields (fields_of fields.now)) }
{
    let mut row = Items::from_vec(Vec::with_capacity(alloc, schema.fields.len())?);
    fill_row_from_csv(alloc, dialect, schema, number, fields, &mut row)?;
    Ok(row)
}

/// Reads the CSV record with this number into a row, as `row_from_csv` does, and uses the memory of
/// the row's values again. The contents of the row before the call, and after an error, have no
/// meaning.
///
/// Errors, in this order of precedence:
///
/// - X1 and X2 as in `check_flat`;
/// - X5 if the number of fields is not the number of columns;
/// - X4 with the first column whose field is not the text of a value that fits.
///
/// `OutOfMemory` is returned if memory ran out. The code takes memory only for a text or bytes
/// longer than all earlier ones of their column; no clause says so.
pub fn fill_row_from_csv(
    alloc: Global,
    dialect: Dialect<'_>,
    schema: &Schema,
    number: u64,
    fields: &ByteRecord,
    row: &mut Row,
) -> Result<(), TextFault>
    ensures read { OnOk result
        (RecordReadsAs dialect.entry schema.now.fields (fields_of fields.now) row.new) }
    ensures all { (wanted : List Value)
        → RecordReadsAs dialect.entry schema.now.fields (fields_of fields.now) wanted
        → MatchResult result (λ _. row.new ≡ wanted) (λ fault. fault ≡ TextFault.OutOfMemory) }
    ensures back { (wanted : List Value) → flat_fault schema.now.fields ≡ None
        → EachTyped schema.now.fields wanted
        → row_texts dialect.entry schema.now.fields wanted ≡ Ok (fields_of fields.now)
        → MatchResult result (λ _. row.new ≡ wanted) (λ fault. fault ≡ TextFault.OutOfMemory) }
    ensures refused { IfErr result
        (IsRecordFault dialect.entry number schema.now.fields (fields_of fields.now)) }
{
    if schema.fields.is_empty() || fields.len() != schema.fields.len() {
        check_flat(schema)?;
        return Err(TextFault::WrongFieldCount { record: number });
    }
    let mut values = mem::replace(row, Items::new(alloc)).into_vec();
    resize(&mut values, schema.fields.len())?;
    let columns = schema.fields.as_slice();
    if let Err(fault) = read_fields(alloc, dialect, columns, number, fields, &mut values) {
        check_flat(schema)?;
        return Err(fault);
    }
    *row = Items::from_vec(values);
    Ok(())
}

fn is_name_of(field: &Field, name: &[u8]) -> bool
    ensures { IsTrue result ↔ (name.now ≡ (out-Field field.now).name) }
{
    name == field.name.as_str().as_bytes()
}

// Checks the names of the columns, if the header has one for each.
fn check_names(columns: &[Field], header: &ByteRecord) -> Result<(), TextFault>
    requires { length columns.now ≡ length (fields_of header.now) }
    ensures names { OnOk result (fields_of header.now ≡ names columns.now) }
    ensures refused { IfErr result (λ fault. (column : ℕ) × (fault ≡ TextFault.BadField 0 column)
        × IsFirstUnlike 0 columns.now (fields_of header.now) column) }
{
    for (column, field) in columns.iter().enumerate() {
        let bad = TextFault::BadField {
            record: 0,
            column: column as u64,
        };
        let Some(name) = header.get(column) else {
            return Err(bad);
        };
        if !is_name_of(field, name) {
            return Err(bad);
        }
    }
    Ok(())
}

/// Checks that a CSV record is the header of a schema's columns, as `csv_header` writes it. It
/// takes no memory.
///
/// Errors, in this order of precedence, where the header is record 0:
///
/// - X1 and X2 as in `check_flat`;
/// - X5 if the number of fields is not the number of columns;
/// - X4 with the first column of another name.
pub fn check_header(schema: &Schema, header: &ByteRecord) -> Result<(), TextFault>
    ensures names { OnOk result ((flat_fault schema.now.fields ≡ None)
        × (fields_of header.now ≡ names schema.now.fields)) }
    ensures refused { IfErr result (IsHeaderFault schema.now.fields (fields_of header.now)) }
{
    check_flat(schema)?;
    if header.len() != schema.fields.len() {
        return Err(TextFault::WrongFieldCount { record: 0 });
    }
    check_names(schema.fields.as_slice(), header)
}
