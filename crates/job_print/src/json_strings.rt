//! Writes strings of JSON. A text without escapes is read and copied in one pass.
ghost use Rattle.std.specs.Prelude.{◌≡◌, ◌≤◌, ◌+◌, ◌++◌, ◌∷◌, [], length, take, OnOk};
ghost use Rattle.json.specs.Print.{escape, escape_byte, quoted};

use crate::hexadecimal::hex_digit;
use crate::text_buffer::TextBuffer;
use std::alloc::AllocError;

// Writes a byte as JSON writes it in a string.
#[tactic(auto, unfolding(json::specs::Print::escape_byte))]
fn put_escape(out: &mut TextBuffer, byte: u8)
    requires { 6 ≤ out.old.room }
    ensures { out.new.text ≡ out.old.text ++ escape_byte byte }
{
    match byte {
        b'"' => out.put(b"\\\""),
        b'\\' => out.put(b"\\\\"),
        8 => out.put(b"\\b"),
        12 => out.put(b"\\f"),
        10 => out.put(b"\\n"),
        13 => out.put(b"\\r"),
        9 => out.put(b"\\t"),
        0..=31 => {
            let digits = [hex_digit(byte / 16), hex_digit(byte % 16)];
            out.put(b"\\u00");
            out.put(&digits);
        }
        _ => out.put(&[byte]),
    }
}

// Writes the bytes of a text, each escaped if needed, and a quotation mark.
#[cold]
#[inline(never)]
fn put_escaped(out: &mut TextBuffer, chars: &[u8]) -> Result<(), AllocError>
    ensures { OnOk result (out.new.text ≡ out.old.text ++ escape chars.now ++ 34 ∷ []) }
{
    for byte in chars {
        out.reserve(6)?;
        put_escape(out, *byte);
    }
    out.reserve(1)?;
    out.put(b"\"");
    Ok(())
}

// Writes a text after its quotation mark, and the one that ends it.
#[inline(always)]
fn put_rest(out: &mut TextBuffer, chars: &[u8]) -> Result<(), AllocError>
    ensures { OnOk result (out.new.text ≡ out.old.text ++ escape chars.now ++ 34 ∷ []) }
{
    out.reserve(chars.len() + 1)?;
    if !out.put_if_plain(b'\\', chars) {
        return put_escaped(out, chars);
    }
    out.put(b"\"");
    Ok(())
}

/// Writes a text of JSON.
#[inline(always)]
pub fn put_string(out: &mut TextBuffer, chars: &[u8]) -> Result<(), AllocError>
    ensures { OnOk result (out.new.text ≡ out.old.text ++ quoted chars.now) }
{
    out.reserve(1)?;
    out.put(b"\"");
    put_rest(out, chars)
}

// Writes the rest of a text of any length, in a function of its own.
#[inline(never)]
fn put_long_rest(out: &mut TextBuffer, chars: &[u8]) -> Result<(), AllocError>
    ensures { OnOk result (out.new.text ≡ out.old.text ++ escape chars.now ++ 34 ∷ []) }
{
    put_rest(out, chars)
}

/// Writes a text of JSON, the first `len` bytes of those given. A short text is copied by one load
/// of sixteen bytes, without a branch on its length.
#[inline(always)]
pub fn put_front(out: &mut TextBuffer, bytes: &[u8], len: usize) -> Result<(), AllocError>
    requires room { 18 ≤ out.old.room }
    requires inside { len ≤ length bytes.now }
    ensures { OnOk result (out.new.text ≡ out.old.text ++ quoted (take len bytes.now)) }
{
    out.put(b"\"");
    if len <= 16 && 16 <= bytes.len() && out.put_front_if_plain(b'\\', bytes, len) {
        out.put(b"\"");
        return Ok(());
    }
    put_long_rest(out, &bytes[..len])
}
