//! A text that grows, with room after it for whole values.
ghost use Rattle.std.specs.Prelude.{◌≡◌, ◌≤◌, ◌<◌, ◌+◌, ◌++◌, ◌∷◌, [], cond, false, length, take};
ghost use Rattle.std.specs.Prelude.{IfOk, OnOk, decimal};
ghost use Rattle.std.specs.Bool.{OnTrue};
ghost use Rattle.std.specs.Fmt.{signed_decimal};
ghost use Rattle.csv.specs.Writing.{needs_quotes};
ghost use Rattle.hex.specs.Hex.{encode_lower};
ghost use Rattle.json.specs.Print.{escape};
ghost use Rattle.ipc_text_csv.specs.Dialects.{writer};
ghost use Rattle.ipc_text_csv.specs.RowCsv.{bool_text};
ghost use Rattle.ipc_text_temporal.specs.Temporals.{temporal_text};
ghost use Rattle.job_print.specs.Written.{AddsMoment};

use crate::bool_words::put_bool_word;
use crate::bytes::{copy_up_to_3, put_word};
use crate::digits::{put_i64, put_u64};
use crate::hexadecimal::put_digits_at;
use crate::plain::{put_front_if_plain, put_if_plain};
use ipc_model::DataType;
use ipc_text_temporal::put_temporal;
use std::alloc::{AllocError, Global};
use std::marker::Model;

/// A text and room after it, which `reserve` makes. Contracts describe it by its bytes and its
/// room.
#[derive(Drop)]
pub struct TextBuffer {
    bytes: Vec<u8>,
    len: usize,
}

impl Model for TextBuffer {
    ghost use Rattle.std.specs.Prelude.{◌-◌, ◌≤◌, length, take};
    ghost use Rattle.job_print.specs.Written.{Written, written_code};

    ghost Value = { Written };

    ghost coded = { written_code };

    ghost view = { λ b. record {
      text = take b.len b.bytes.items;
      room = length b.bytes.items - b.len;
    } };

    ghost invariant = { λ b. b.len ≤ length b.bytes.items };
}

impl TextBuffer {
    /// Creates an empty text with room for `count` bytes. Returns an error if memory ran out.
    pub fn new(alloc: Global, count: usize) -> Result<TextBuffer, AllocError>
        ensures { IfOk result (λ buffer. buffer.text ≡ []) }
    {
        Ok(TextBuffer {
            bytes: vec![in alloc; 0u8; count]?,
            len: 0,
        })
    }

    /// Returns the text.
    #[inline(always)]
    pub fn as_slice(&self) -> &[u8]
        ensures { result.now ≡ self.now.text }
    {
        &self.bytes[..self.len]
    }

    /// Returns the number of bytes of the text.
    #[inline(always)]
    pub fn len(&self) -> usize
        ensures { result ≡ length self.now.text }
    {
        self.len
    }

    /// Drops the bytes from place `len` on, which is in the text or at its end.
    #[inline(always)]
    pub fn truncate(&mut self, len: usize)
        requires { len ≤ length self.old.text }
        ensures text { self.new.text ≡ take len self.old.text }
        ensures room { self.old.room ≤ self.new.room }
    {
        self.len = len;
    }

    /// Makes room for `count` bytes after the text. It fails only if memory ran out.
    #[inline(always)]
    pub fn reserve(&mut self, count: usize) -> Result<(), AllocError>
        ensures text { self.new.text ≡ self.old.text }
        ensures room { OnOk result (count ≤ self.new.room) }
    {
        if count <= self.bytes.len() - self.len {
            return Ok(());
        }
        self.grow(count)
    }

    // Makes room, and at least doubles the memory.
    #[cold]
    #[inline(never)]
    fn grow(&mut self, count: usize) -> Result<(), AllocError>
        ensures text { self.new.text ≡ self.old.text }
        ensures room { OnOk result (count ≤ self.new.room) }
    {
        let least = self.bytes.len().saturating_add(count);
        self.bytes
            .resize(least.max(self.bytes.len().saturating_mul(2)), 0)
    }

    /// Adds bytes.
    #[inline(always)]
    pub fn put(&mut self, word: &[u8])
        requires { length word.now ≤ self.old.room }
        ensures text { self.new.text ≡ self.old.text ++ word.now }
        ensures room { self.old.room ≡ self.new.room + length word.now }
    {
        self.len = put_word(&mut self.bytes, self.len, word);
    }

    /// Adds at most three bytes, without a call of the C library.
    #[inline(always)]
    pub fn put_up_to_3(&mut self, word: &[u8])
        requires room { length word.now ≤ self.old.room }
        requires few { length word.now < 4 }
        ensures { self.new.text ≡ self.old.text ++ word.now }
    {
        self.len = copy_up_to_3(&mut self.bytes, self.len, word);
    }

    /// Adds a byte, if `wanted`.
    #[inline(always)]
    pub fn put_if(&mut self, wanted: bool, byte: u8)
        requires { 1 ≤ self.old.room }
        ensures text { self.new.text ≡ self.old.text ++ cond wanted (byte ∷ []) [] }
        ensures room { self.old.room ≤ self.new.room + 1 }
    {
        self.bytes[self.len] = byte;
        self.len += usize::from(wanted);
    }

    /// Adds `true` or `false`.
    #[inline(always)]
    pub fn put_bool(&mut self, truth: bool)
        requires { 5 ≤ self.old.room }
        ensures { self.new.text ≡ self.old.text ++ bool_text truth }
    {
        self.len = put_bool_word(&mut self.bytes, self.len, truth);
    }

    /// Adds the decimal digits of a number.
    #[inline(always)]
    pub fn put_u64(&mut self, number: u64)
        requires { 24 ≤ self.old.room }
        ensures { self.new.text ≡ self.old.text ++ decimal number }
    {
        self.len = put_u64(&mut self.bytes, self.len, number);
    }

    /// Adds the decimal digits of a number, after a minus sign if it is below 0.
    #[inline(always)]
    pub fn put_i64(&mut self, number: i64)
        requires { 25 ≤ self.old.room }
        ensures text { self.new.text ≡ self.old.text ++ signed_decimal number }
        ensures room { self.old.room ≤ self.new.room + 25 }
    {
        self.len = put_i64(&mut self.bytes, self.len, number);
    }

    /// Adds the text of a date, a time or a timestamp. Returns false, and adds nothing, if it has
    /// none.
    #[inline(always)]
    pub fn put_temporal(&mut self, kind: &DataType, number: i64) -> bool
        requires { 32 ≤ self.old.room }
        ensures text { AddsMoment self.old.text self.new.text (temporal_text kind.now number)
            result }
        ensures room { self.old.room ≤ self.new.room + 32 }
    {
        match put_temporal(&mut self.bytes, self.len, kind, number) {
            Some(end) => {
                self.len = end;
                true
            }
            None => false,
        }
    }

    /// Adds two lower-case hexadecimal digits for each byte, and leaves room for one byte.
    #[inline(always)]
    pub fn put_hexadecimal(&mut self, bytes: &[u8]) -> Result<(), AllocError>
        ensures text { OnOk result (self.new.text ≡ self.old.text ++ encode_lower bytes.now) }
        ensures room { OnOk result (1 ≤ self.new.room) }
    {
        self.reserve(2 * bytes.len() + 1)?;
        self.len = put_digits_at(&mut self.bytes, self.len, bytes);
        Ok(())
    }

    /// Adds a text, if it has no quotation mark, control character or `mark`: the backslash in
    /// JSON, and the delimiter in CSV. Otherwise it adds nothing and returns false.
    #[inline(always)]
    pub fn put_if_plain(&mut self, mark: u8, chars: &[u8]) -> bool
        requires { length chars.now ≤ self.old.room }
        ensures text { self.new.text ≡ self.old.text ++ cond result chars.now [] }
        ensures json { OnTrue result (mark ≡ 92 → escape chars.now ≡ chars.now) }
        ensures csv { OnTrue result (needs_quotes (writer mark) chars.now ≡ false) }
        ensures room { self.old.room ≤ self.new.room + length chars.now }
    {
        let plain = put_if_plain(&mut self.bytes, self.len, mark, chars);
        if plain {
            self.len += chars.len();
        }
        plain
    }

    /// Adds the first `len` of sixteen bytes, if the sixteen have no quotation mark, control
    /// character or `mark`. Otherwise it adds nothing and returns false.
    #[inline(always)]
    pub fn put_front_if_plain(&mut self, mark: u8, bytes: &[u8], len: usize) -> bool
        requires room { 16 ≤ self.old.room }
        requires sixteen { 16 ≤ length bytes.now }
        requires few { len ≤ 16 }
        ensures text { self.new.text ≡ self.old.text ++ cond result (take len bytes.now) [] }
        ensures json { OnTrue result
            (mark ≡ 92 → escape (take len bytes.now) ≡ take len bytes.now) }
        ensures csv { OnTrue result (needs_quotes (writer mark) (take len bytes.now) ≡ false) }
        ensures room { self.old.room ≤ self.new.room + 16 }
    {
        let plain = put_front_if_plain(&mut self.bytes, self.len, mark, bytes, len);
        if plain {
            self.len += len;
        }
        plain
    }
}
