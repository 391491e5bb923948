//! Reads values from the texts of CSV fields, each in the one spelling that is written.
ghost use Rattle.std.specs.Prelude.{◌≡◌, ℤ, ℕ, List, ◌<◌, ◌^◌, IfSome, Some, FitsSigned, decimal};
ghost use Rattle.std.specs.Prelude.{IfOk, MatchOption, None, false, IsTrue};
ghost use Rattle.std.specs.Int.{w64};
ghost use Rattle.std.specs.Fmt.{signed_decimal};
ghost use Rattle.ipc_text_csv.specs.RowCsv.{with_backslash, chars_text};
ghost use Rattle.ipc_text_csv.specs.CsvCells.{decoded_hex};

use crate::dialect::Dialect;
use crate::hexadecimal::decode_pairs;
use itoa::Buffer;
use std::alloc::AllocError;

/// Reads a signed number, of an integer or a duration, in decimal: without plus sign, leading zero
/// or `-0`. Returns `None` for any other text.
pub(crate) fn read_int(text: &str) -> Option<i64>
    ensures only { IfSome result (λ z. signed_decimal z ≡ text.now) }
    ensures all { (z : ℤ) → FitsSigned w64 z → signed_decimal z ≡ text.now → result ≡ Some z }
{
    let Ok(number) = text.parse::<i64>() else {
        return None;
    };
    if Buffer::new().format(number) == text {
        Some(number)
    } else {
        None
    }
}

/// Reads an unsigned number in decimal: without sign or leading zero. Returns `None` for any other
/// text.
pub(crate) fn read_uint(text: &str) -> Option<u64>
    ensures only { IfSome result (λ n. decimal n ≡ text.now) }
    ensures all { (n : ℕ) → n < 2 ^ 64 → decimal n ≡ text.now → result ≡ Some n }
{
    let Ok(count) = text.parse::<u64>() else {
        return None;
    };
    let mut digits = Buffer::new();
    if digits.format(count) == text {
        Some(count)
    } else {
        None
    }
}

// Reads a text from its field, where null is `\N`.
fn read_backslashed(field: &[u8]) -> Option<&[u8]>
    ensures only { IfSome result (λ text. with_backslash text.now ≡ field.now) }
    ensures all { (t : List ℕ) → with_backslash t ≡ field.now
        → MatchOption result ⊥ (λ text. text.now ≡ t) }
{
    if field.first() != Some(&b'\\') {
        return Some(field);
    }
    let text = &field[1..];
    if text.first() == Some(&b'\\') {
        Some(text)
    } else {
        None
    }
}

/// Reads a text from its CSV field: if null is `\N`, one of two leading backslashes is removed.
/// Returns `None` for the text of null, and, if that is `\N`, for any field with exactly one
/// leading backslash.
pub(crate) fn read_text<'a>(dialect: Dialect<'_>, field: &'a [u8]) -> Option<&'a [u8]>
    ensures only { IfSome result
        (λ text. chars_text dialect.entry text.now ≡ Some field.now) }
    ensures all { (t : List ℕ) → chars_text dialect.entry t ≡ Some field.now
        → MatchOption result ⊥ (λ text. text.now ≡ t) }
{
    if dialect.escapes_backslash() {
        return read_backslashed(field);
    }
    if field == dialect.null().as_bytes() {
        return None;
    }
    Some(field)
}

/// Replaces bytes by those with these hexadecimal digits, in either case. Returns whether the text
/// consists of such digits.
pub(crate) fn decode_bytes(bytes: &mut Vec<u8>, text: &[u8]) -> Result<bool, AllocError>
    ensures bytes { IfOk result
        (λ read. IsTrue read → decoded_hex text.now ≡ Some bytes.new.items) }
    ensures none { IfOk result (λ read. read ≡ false → decoded_hex text.now ≡ None) }
{
    if text.len() % 2 != 0 {
        return Ok(false);
    }
    bytes.resize(text.len() / 2, 0)?;
    Ok(decode_pairs(text, bytes.as_mut_slice()))
}
