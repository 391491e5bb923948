//! Writes fields of CSV. A field that needs no quotes is read and copied in one pass.
ghost use Rattle.std.specs.Prelude.{◌≡◌, ◌≤◌, ◌+◌, ◌++◌, ◌∷◌, [], length, take, decimal, OnOk};
ghost use Rattle.std.specs.Prelude.{◌≢◌, IsFalse, IsTrue, Some, ℕ};
ghost use Rattle.std.specs.Fmt.{signed_decimal};
ghost use Rattle.csv.specs.Writing as csv;
ghost use Rattle.csv.specs.Writing.{default_writer};
ghost use Rattle.hex.specs.Hex.{encode_lower};
ghost use Rattle.ipc_model.specs.declared.value.Value.TheOpen.{Value-F};
ghost use Rattle.ipc_text_csv.specs.declared.dialect.Dialect.{Dialect};
ghost use Rattle.ipc_text_csv.specs.Dialects.{writer};
ghost use Rattle.ipc_text_csv.specs.RowCsv.{Ended, chars_text, null_text, own_text, unless_null};
ghost use Rattle.ipc_text_csv.specs.RowCsv.{with_backslash, with_field};
ghost use Rattle.job_print.specs.Fields.{AddsField};
ghost use Rattle.job_print.specs.NullTexts.{BeginsApart};

use crate::text_buffer::TextBuffer;
use ipc_model::{Field, Value};
use ipc_text_csv::Dialect;
use ipc_text_temporal::TextFault;
use std::alloc::AllocError;

// Whether a field is written in quotes.
fn needs_quotes(delimiter: u8, field: &[u8]) -> bool
    ensures { result ≡ csv.needs_quotes (writer delimiter) field.now }
{
    field.iter().any(|byte| *byte == delimiter || matches!(*byte, b'"' | b'\r' | b'\n'))
}

// Writes a byte of a quoted field, a quote as two.
#[tactic(auto, unfolding(csv::specs::Writing::escaped))]
fn put_quoted_byte(out: &mut TextBuffer, byte: u8)
    requires { 2 ≤ out.old.room }
    ensures { out.new.text ≡ out.old.text ++ csv.escaped default_writer (byte ∷ []) }
{
    if byte == b'"' {
        out.put(b"\"");
    }
    out.put(&[byte]);
}

// Writes the bytes of a field, each quote doubled.
fn put_quoted_bytes(out: &mut TextBuffer, field: &[u8]) -> Result<(), AllocError>
    ensures { OnOk result (out.new.text
        ≡ out.old.text ++ csv.escaped default_writer field.now) }
{
    for byte in field {
        out.reserve(2)?;
        put_quoted_byte(out, *byte);
    }
    Ok(())
}

// Writes a field in quotes. `opening` has the first quote.
fn put_quoted(out: &mut TextBuffer, opening: &[u8], field: &[u8]) -> Result<(), AllocError>
    ensures { OnOk result (out.new.text
        ≡ out.old.text ++ opening.now ++ csv.escaped default_writer field.now ++ 34 ∷ []) }
{
    out.reserve(opening.len())?;
    out.put(opening);
    put_quoted_bytes(out, field)?;
    out.reserve(1)?;
    out.put(b"\"");
    Ok(())
}

// Writes a field that may need quotes, byte by byte.
#[cold]
#[inline(never)]
fn put_field_bytewise(out: &mut TextBuffer, delimiter: u8, field: &[u8]) -> Result<(), AllocError>
    ensures { OnOk result (out.new.text ≡ with_field delimiter out.old.text field.now) }
{
    if needs_quotes(delimiter, field) {
        return put_quoted(out, b"\"", field);
    }
    out.reserve(field.len())?;
    out.put(field);
    Ok(())
}

// Writes a field, in quotes where it needs them.
#[inline(always)]
fn put_field(out: &mut TextBuffer, delimiter: u8, field: &[u8]) -> Result<(), AllocError>
    ensures { OnOk result (out.new.text ≡ with_field delimiter out.old.text field.now) }
{
    out.reserve(field.len())?;
    if out.put_if_plain(delimiter, field) {
        return Ok(());
    }
    put_field_bytewise(out, delimiter, field)
}

// Writes the text of null.
#[inline(always)]
fn put_null_text(out: &mut TextBuffer, dialect: &Dialect<'_>) -> Result<(), AllocError>
    requires { 4 ≤ out.old.room }
    ensures { OnOk result (out.new.text
        ≡ with_field dialect.now.delimiter out.old.text (null_text dialect.now)) }
{
    let null = dialect.null().as_bytes();
    if null.len() < 4 {
        out.put_up_to_3(null);
        return Ok(());
    }
    out.reserve(null.len())?;
    out.put(null);
    Ok(())
}

/// Writes null. Returns X3 if the field does not allow it.
#[inline(always)]
#[tactic(auto, using(ipc_text_csv::proofs::CsvFits::null_allowed))]
pub(crate) fn put_null(
    out: &mut TextBuffer,
    dialect: &Dialect<'_>,
    column: u64,
    field: &Field,
) -> Result<(), TextFault>
    requires { 4 ≤ out.old.room }
    ensures { AddsField dialect.now.delimiter column (own_text dialect.now field.now Value-F.Null)
        out.old.text out.new.text result }
{
    if !field.fits_own_type(&Value::Null) {
        return Err(TextFault::NoTextForm { column });
    }
    Ok(put_null_text(out, dialect)?)
}

// Writes a text that begins with a backslash, with one more in front.
#[cold]
#[inline(never)]
fn put_backslashed(out: &mut TextBuffer, delimiter: u8, chars: &[u8]) -> Result<(), AllocError>
    ensures { OnOk result (out.new.text
        ≡ with_field delimiter out.old.text (92 ∷ chars.now)) }
{
    if needs_quotes(delimiter, b"\\") || needs_quotes(delimiter, chars) {
        return put_quoted(out, b"\"\\", chars);
    }
    out.reserve(1)?;
    out.put(b"\\");
    out.reserve(chars.len())?;
    out.put(chars);
    Ok(())
}

// Writes a text where null is `\N`.
fn put_doubled(out: &mut TextBuffer, delimiter: u8, chars: &[u8]) -> Result<(), AllocError>
    ensures { OnOk result (out.new.text
        ≡ with_field delimiter out.old.text (with_backslash chars.now)) }
{
    if chars.first() == Some(&b'\\') {
        return put_backslashed(out, delimiter, chars);
    }
    put_field(out, delimiter, chars)
}

// Writes a text that may begin as the text of null does. X3 where it is that text, other than `\N`.
#[cold]
#[inline(never)]
fn put_like_null(
    out: &mut TextBuffer,
    dialect: &Dialect<'_>,
    column: u64,
    chars: &[u8],
) -> Result<(), TextFault>
    ensures { AddsField dialect.now.delimiter column (chars_text dialect.now chars.now)
        out.old.text out.new.text result }
{
    if dialect.escapes_backslash() {
        return Ok(put_doubled(out, dialect.delimiter(), chars)?);
    }
    if chars == dialect.null().as_bytes() {
        return Err(TextFault::NoTextForm { column });
    }
    Ok(put_field(out, dialect.delimiter(), chars)?)
}

// Whether the first `len` bytes do not begin as this text of null does.
#[inline(always)]
fn differs_from_null(null: &[u8], bytes: &[u8], len: usize) -> bool
    requires { len ≤ length bytes.now }
    ensures { IsTrue result → BeginsApart null.now (take len bytes.now) }
{
    match (null, bytes) {
        ([], _) => len > 0,
        ([_, ..], []) => true,
        ([null, ..], [first, ..]) => *first != *null,
    }
}

// Whether the first `len` bytes do not begin as the dialect's text of null, so that the text of
// these bytes is the bytes themselves.
#[inline(always)]
fn begins_plainly(dialect: &Dialect<'_>, bytes: &[u8], len: usize) -> bool
    requires { len ≤ length bytes.now }
    ensures { IsTrue result
        → chars_text dialect.now (take len bytes.now) ≡ Some (take len bytes.now) }
{
    differs_from_null(dialect.null().as_bytes(), bytes, len)
}

/// Writes a text. Returns X3 if it is the text of null, other than `\N`.
#[inline(never)]
pub(crate) fn put_text_field(
    out: &mut TextBuffer,
    dialect: &Dialect<'_>,
    column: u64,
    chars: &[u8],
) -> Result<(), TextFault>
    ensures { AddsField dialect.now.delimiter column (chars_text dialect.now chars.now)
        out.old.text out.new.text result }
{
    if !begins_plainly(dialect, chars, chars.len()) {
        return put_like_null(out, dialect, column, chars);
    }
    Ok(put_field(out, dialect.delimiter(), chars)?)
}

/// Writes a text, the first `len` bytes of those given: a short text is copied by one load of
/// sixteen bytes, without a branch on its length. X3 if it is the text of null, other than `\N`.
#[inline(always)]
pub(crate) fn put_front_field(
    out: &mut TextBuffer,
    dialect: &Dialect<'_>,
    column: u64,
    bytes: &[u8],
    len: usize,
) -> Result<(), TextFault>
    requires room { 16 ≤ out.old.room }
    requires inside { len ≤ length bytes.now }
    ensures { AddsField dialect.now.delimiter column (chars_text dialect.now (take len bytes.now))
        out.old.text out.new.text result }
{
    if len <= 16
        && 16 <= bytes.len()
        && begins_plainly(dialect, bytes, len)
        && out.put_front_if_plain(dialect.delimiter(), bytes, len)
    {
        return Ok(());
    }
    put_text_field(out, dialect, column, &bytes[..len])
}

/// Writes a signed number.
#[inline(always)]
pub(crate) fn put_signed_field(out: &mut TextBuffer, number: i64)
    requires { 25 ≤ out.old.room }
    ensures { (d : Dialect) → out.new.text
        ≡ with_field d.delimiter out.old.text (signed_decimal number) }
{
    out.put_i64(number);
}

/// Writes an unsigned number.
#[inline(always)]
pub(crate) fn put_unsigned_field(out: &mut TextBuffer, number: u64)
    requires { 24 ≤ out.old.room }
    ensures { (d : Dialect) → out.new.text
        ≡ with_field d.delimiter out.old.text (decimal number) }
{
    out.put_u64(number);
}

// Whether some bytes and a text of null are empty.
fn are_empty(bytes: &[u8], null: &[u8]) -> bool
    ensures empty { IsTrue result → (bytes.now ≡ []) × (null.now ≡ []) }
    ensures other { IsFalse result → bytes.now ≡ [] → null.now ≢ [] }
{
    matches!((bytes, null), ([], []))
}

/// Writes two lower-case hexadecimal digits for each byte. Returns X3 if there are no bytes and the
/// text of null is empty.
#[inline(always)]
pub(crate) fn put_bytes_field(
    out: &mut TextBuffer,
    dialect: &Dialect<'_>,
    column: u64,
    bytes: &[u8],
) -> Result<(), TextFault>
    ensures { AddsField dialect.now.delimiter column
        (unless_null dialect.now (encode_lower bytes.now)) out.old.text out.new.text result }
{
    if are_empty(bytes, dialect.null().as_bytes()) {
        return Err(TextFault::NoTextForm { column });
    }
    Ok(out.put_hexadecimal(bytes)?)
}

/// Ends a record whose fields begin at `start`: with a line feed, and before it two quotes if the
/// fields are empty.
pub(crate) fn put_end(out: &mut TextBuffer, start: usize) -> Result<(), AllocError>
    ensures { (delimiter : ℕ) → OnOk result (Ended delimiter start out.old.text out.new.text) }
{
    let len = out.len();
    out.reserve(3)?;
    if len == start {
        out.put(b"\"\"\n");
        return Ok(());
    }
    out.put(b"\n");
    Ok(())
}
