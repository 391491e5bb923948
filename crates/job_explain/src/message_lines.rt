//! Lines about limits, about the sizes that a message states, and about the end of the input.
ghost use Rattle.std.specs.Prelude.{◌≡◌, ◌++◌, IfOk, OnOk};
ghost use Rattle.std.specs.Fmt.{signed_decimal};
ghost use Rattle.job_explain.specs.MessageLines as spec;

use ipc_flat::{Flat, FlatFault};
use ipc_model::{Fault, Limits};
use ipc_scalar::get_i32;
use ipc_text_temporal::{push_number, push_signed};
use std::alloc::{AllocError, Global};

/// Returns the words for a limit, after those for the option that sets it.
pub(crate) fn limit_words(alloc: Global, option: &[u8], limit: u64) -> Result<Vec<u8>, AllocError>
    ensures words { IfOk result (λ words. words.items ≡ spec.limit_words option.now limit) }
{
    let mut words = Vec::new(alloc);
    words.extend_from_slice(option)?;
    words.extend_from_slice(b" is ")?;
    push_number(&mut words, limit)?;
    Ok(words)
}

// Appends the line for a limit, by the option that sets it.
fn push_limit(out: &mut Vec<u8>, option: &[u8], limit: u64) -> Result<(), AllocError>
    ensures ok { OnOk result (out.new.items ≡ out.old.items ++ spec.limit_line option.now limit) }
{
    out.extend_from_slice(option)?;
    out.extend_from_slice(b" is ")?;
    push_number(out, limit)?;
    out.extend_from_slice(b"\n")?;
    Ok(())
}

/// Appends the lines for the limits that a fault of a schema can exceed.
pub(crate) fn push_limits(
    out: &mut Vec<u8>,
    limits: &Limits,
    fault: &Fault,
) -> Result<(), AllocError>
    ensures ok { OnOk result
        (out.new.items ≡ out.old.items ++ spec.limit_lines limits.now fault.now) }
{
    match fault {
        Fault::TooManyFields => push_limit(out, b"--max-fields", limits.fields),
        Fault::TooDeep => push_limit(out, b"--max-depth", limits.depth),
        Fault::TooMuchText => {
            push_limit(out, b"--max-text", limits.text)?;
            push_limit(out, b"--max-pairs", limits.pairs)
        }
        _ => Ok(()),
    }
}

// The line for a part of a message with this size, and more words.
fn size_line(alloc: Global, part: &[u8], size: i64, more: &[u8]) -> Result<Vec<u8>, AllocError>
    ensures line { IfOk result (λ line. line.items ≡ spec.size_line part.now size more.now) }
{
    let mut line = Vec::new(alloc);
    line.extend_from_slice(part)?;
    line.extend_from_slice(b" of ")?;
    push_signed(&mut line, size)?;
    line.extend_from_slice(b" bytes")?;
    line.extend_from_slice(more)?;
    line.extend_from_slice(b"\n")?;
    Ok(line)
}

/// Returns the line for the size of the metadata, by the first bytes of a message. It is empty if
/// fewer than eight have come.
pub(crate) fn metadata_line(alloc: Global, front: &[u8], more: &[u8]) -> Result<Vec<u8>, AllocError>
    ensures line { IfOk result (λ line. line.items ≡ spec.metadata_line front.now more.now) }
{
    match get_i32(front, 4) {
        Some(size) => size_line(alloc, b"metadata", i64::from(size), more),
        None => Ok(Vec::new(alloc)),
    }
}

// The length of the body that the metadata of a message states (Message.fbs, table Message).
fn body_length(metadata: &[u8]) -> Result<i64, FlatFault>
    ensures { result ≡ spec.body_length metadata.now }
{
    Flat::root(metadata)?.scalar_i64(3, 0)
}

/// Returns the line for the length of the body, by the metadata of a message. It is empty if the
/// metadata is ill-formed.
pub(crate) fn body_line(alloc: Global, metadata: &[u8], more: &[u8]) -> Result<Vec<u8>, AllocError>
    ensures line { IfOk result (λ line. line.items ≡ spec.body_line metadata.now more.now) }
{
    match body_length(metadata) {
        Ok(size) => size_line(alloc, b"body", size, more),
        Err(_) => Ok(Vec::new(alloc)),
    }
}

// Appends the words for the end of the input after `held` bytes of a message, `wants` bytes before
// the next decision about it.
fn push_missing(out: &mut Vec<u8>, held: usize, wants: usize) -> Result<(), AllocError>
    ensures ok { OnOk result
        (out.new.items ≡ out.old.items ++ spec.missing_words held wants) }
{
    if held == 0 {
        out.extend_from_slice(b", before the end-of-stream mark")?;
    } else {
        out.extend_from_slice(b", at least ")?;
        push_number(out, wants as u64)?;
        out.extend_from_slice(b" bytes missing")?;
    }
    Ok(())
}

/// Returns the line for the end of the input after `count` bytes in all, of which `held` are of a
/// message, `wants` bytes before the next decision about it.
pub(crate) fn end_line(
    alloc: Global,
    count: u64,
    held: usize,
    wants: usize,
) -> Result<Vec<u8>, AllocError>
    ensures line { IfOk result (λ line. line.items ≡ spec.end_line count held wants) }
{
    let mut line = Vec::new(alloc);
    if count == 0 {
        line.extend_from_slice(b"the input is empty\n")?;
        return Ok(line);
    }
    line.extend_from_slice(b"the input ended at byte ")?;
    push_number(&mut line, count)?;
    push_missing(&mut line, held, wants)?;
    line.extend_from_slice(b"\n")?;
    Ok(line)
}
