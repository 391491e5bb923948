//! Formats of input that is no stream, by its first bytes.
ghost use Rattle.std.specs.Prelude.{◌≡◌, IfOk};
ghost use Rattle.job_explain.specs.Formats as spec;

use std::alloc::{AllocError, Global};

// Whether a byte is a printable character of ASCII, a tab, or a part of the end of a line.
fn is_text_byte(byte: u8) -> bool
    ensures { result ≡ spec.is_text_byte byte }
{
    matches!(byte, b' '..=b'~' | b'\t' | b'\n' | b'\r')
}

// Whether the first four bytes are text.
fn begins_text(front: &[u8]) -> bool
    ensures { result ≡ spec.begins_text front.now }
{
    match front {
        [a, b, c, d, ..] => {
            is_text_byte(*a) && is_text_byte(*b) && is_text_byte(*c) && is_text_byte(*d)
        }
        _ => false,
    }
}

// The words for the format of input with these first bytes; none if it is not known.
fn format_words(front: &[u8]) -> &'static [u8]
    ensures { result.now ≡ spec.format_words front.now }
{
    if front.starts_with(b"ARRO") {
        b"an Arrow IPC file; its stream begins after 8 bytes, see tail -c +9"
    } else if front.starts_with(b"FEA1") {
        b"a Feather V1 file"
    } else if front.starts_with(b"PAR1") {
        b"a Parquet file"
    } else if front.starts_with(&[0x1f, 0x8b]) {
        b"gzip; decompress it first"
    } else if front.starts_with(&[0x28, 0xb5, 0x2f, 0xfd]) {
        b"Zstandard; decompress it first"
    } else if front.starts_with(&[0x04, 0x22, 0x4d, 0x18]) {
        b"LZ4; decompress it first"
    } else if front.starts_with(&[0xfd, 0x37, 0x7a, 0x58]) {
        b"xz; decompress it first"
    } else if front.starts_with(b"BZh") {
        b"bzip2; decompress it first"
    } else if front.starts_with(b"Obj\x01") {
        b"an Avro file"
    } else if front.starts_with(b"<") {
        b"XML, such as HTML or SVG"
    } else if front.starts_with(b"{") {
        b"JSON text"
    } else if front.starts_with(b"[") {
        b"JSON text"
    } else if begins_text(front) {
        b"text; arrowstream from-csv reads CSV"
    } else {
        b""
    }
}

// The line with these words, which is empty without words.
fn line_with(alloc: Global, words: &[u8]) -> Result<Vec<u8>, AllocError>
    ensures { IfOk result (λ line. line.items ≡ spec.format_line words.now) }
{
    let mut line = Vec::new(alloc);
    if !words.is_empty() {
        line.extend_from_slice(b"the input looks like ")?;
        line.extend_from_slice(words)?;
        line.extend_from_slice(b"\n")?;
    }
    Ok(line)
}

/// Returns the line for input with these first bytes, which is empty if its format is not known.
pub(crate) fn format_line(alloc: Global, front: &[u8]) -> Result<Vec<u8>, AllocError>
    ensures line { IfOk result
        (λ line. line.items ≡ spec.format_line (spec.format_words front.now)) }
{
    line_with(alloc, format_words(front))
}
