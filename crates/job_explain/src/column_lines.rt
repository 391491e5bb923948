//! The line for a column of a refused record batch.
ghost use Rattle.std.specs.Prelude.{◌≡◌, ◌++◌, OnOk, int_lt, pos};
ghost use Rattle.std.specs.List.{list_any};
ghost use Rattle.std.specs.Fmt.{decimal, signed_decimal};
ghost use Rattle.serde_json.specs.Data.{string};
ghost use Rattle.serde_json.specs.Written.{compact_text};
ghost use Rattle.job_explain.specs.ColumnLines.{column_line, count_line, field_words, pair_words};
ghost use Rattle.job_explain.specs.ColumnLines.{pairs_words, rows_line, slots_words, title_words};
ghost use Rattle.job_explain.specs.ColumnLines.{type_words};

use crate::columns_alone::ColumnPart;
use crate::message_lines::limit_words;
use ipc_model::{DataType, Field, Limits};
use ipc_text_json::{string_json, type_json};
use ipc_text_temporal::{push_number, push_signed};
use std::alloc::{AllocError, Global};

/// Appends a text in the quotes of JSON.
pub(crate) fn push_string(alloc: Global, out: &mut Vec<u8>, text: &str) -> Result<(), AllocError>
    ensures ok { OnOk result (out.new.items ≡ out.old.items ++ compact_text (string text.now)) }
{
    let Ok(text) = string_json(alloc, text) else {
        return Err(AllocError);
    };
    out.extend_from_slice(text.as_bytes())
}

/// Appends the words for a type.
pub(crate) fn push_type(alloc: Global, out: &mut Vec<u8>, kind: &DataType) -> Result<(), AllocError>
    ensures ok { OnOk result (out.new.items ≡ out.old.items ++ type_words kind.now) }
{
    let Ok(kind) = type_json(alloc, kind) else {
        return Err(AllocError);
    };
    out.extend_from_slice(b" of type ")?;
    out.extend_from_slice(kind.as_bytes())
}

/// Appends the words for the name and the type of a field.
pub(crate) fn push_field(alloc: Global, out: &mut Vec<u8>, field: &Field) -> Result<(), AllocError>
    ensures ok { OnOk result (out.new.items ≡ out.old.items ++ field_words field.now) }
{
    push_string(alloc, out, field.name.as_str())?;
    push_type(alloc, out, &field.kind)
}

// Appends the two numbers of a pair, each after its words.
fn push_pair(
    out: &mut Vec<u8>,
    first: &[u8],
    second: &[u8],
    pair: (i64, i64),
) -> Result<(), AllocError>
    ensures ok { OnOk result
        (out.new.items ≡ out.old.items ++ pair_words first.now second.now pair) }
{
    out.extend_from_slice(first)?;
    push_signed(out, pair.0)?;
    out.extend_from_slice(second)?;
    push_signed(out, pair.1)?;
    Ok(())
}

// Appends pairs of numbers, each number after its words.
fn push_pairs(
    out: &mut Vec<u8>,
    first: &[u8],
    second: &[u8],
    pairs: &[(i64, i64)],
) -> Result<(), AllocError>
    ensures ok { OnOk result
        (out.new.items ≡ out.old.items ++ pairs_words first.now second.now pairs.now) }
{
    for pair in pairs {
        push_pair(out, first, second, *pair)?;
    }
    Ok(())
}

// Appends a signed number and another one, each after its words.
fn push_lengths(
    out: &mut Vec<u8>,
    words: &[u8],
    first: i64,
    more: &[u8],
    second: u64,
) -> Result<(), AllocError>
    ensures ok { OnOk result (out.new.items ≡ out.old.items
        ++ (words.now ++ signed_decimal first ++ more.now ++ decimal second)) }
{
    out.extend_from_slice(words)?;
    push_signed(out, first)?;
    out.extend_from_slice(more)?;
    push_number(out, second)?;
    Ok(())
}

/// Appends the words for the number, the name and the type of a column.
pub(crate) fn push_title(
    alloc: Global,
    out: &mut Vec<u8>,
    number: usize,
    field: &Field,
) -> Result<(), AllocError>
    ensures ok { OnOk result (out.new.items ≡ out.old.items ++ title_words number field.now) }
{
    out.extend_from_slice(b"column ")?;
    push_number(out, number as u64)?;
    out.extend_from_slice(b" ")?;
    push_field(alloc, out, field)
}

// Whether a node is longer than the limit of slots.
fn has_longer(nodes: &[(i64, i64)], limits: &Limits) -> bool
    ensures { result ≡ list_any (λ node. int_lt (pos limits.now.slots) node.0) nodes.now }
{
    let limit = limits.slots as i64;
    nodes.iter().any(|node| node.0 > limit)
}

// Appends the words for the limit of slots, if a node is longer.
fn push_slots(
    alloc: Global,
    out: &mut Vec<u8>,
    limits: &Limits,
    nodes: &[(i64, i64)],
) -> Result<(), AllocError>
    ensures ok { OnOk result
        (out.new.items ≡ out.old.items ++ slots_words limits.now.slots nodes.now) }
{
    if has_longer(nodes, limits) {
        let words = limit_words(alloc, b"; --max-rows", limits.slots)?;
        out.extend_from_slice(&words)?;
    }
    Ok(())
}

/// Appends the line for a batch that is longer than the limit of rows.
pub(crate) fn push_rows(out: &mut Vec<u8>, length: i64, limit: u64) -> Result<(), AllocError>
    ensures ok { OnOk result (out.new.items ≡ out.old.items ++ rows_line length limit) }
{
    push_lengths(out, b"batch of length ", length, b"; --max-rows is ", limit)?;
    out.extend_from_slice(b"\n")?;
    Ok(())
}

/// Appends the line for a column of a batch of `length` rows with a body of `size` bytes.
pub(crate) fn push_column(
    alloc: Global,
    out: &mut Vec<u8>,
    limits: &Limits,
    length: i64,
    size: usize,
    column: &ColumnPart<'_>,
) -> Result<(), AllocError>
    ensures ok { OnOk result (out.new.items ≡ out.old.items ++ column_line limits.now.slots
        column.now.number column.now.field.now length size column.now.nodes.now
        column.now.buffers.now) }
{
    push_title(alloc, out, column.number, column.field)?;
    push_lengths(
        out,
        b": batch of length ",
        length,
        b", body of length ",
        size as u64,
    )?;
    push_pairs(out, b", node of length ", b" and null count ", column.nodes)?;
    push_pairs(out, b", buffer of offset ", b" and length ", column.buffers)?;
    push_slots(alloc, out, limits, column.nodes)?;
    out.extend_from_slice(b"\n")?;
    Ok(())
}

/// Appends the line for a batch with another number of nodes or buffers (`words`) than its fields.
pub(crate) fn push_counts(
    out: &mut Vec<u8>,
    words: &[u8],
    has: usize,
    needs: usize,
) -> Result<(), AllocError>
    ensures ok { OnOk result (out.new.items ≡ out.old.items ++ count_line words.now has needs) }
{
    out.extend_from_slice(b"the number of ")?;
    out.extend_from_slice(words)?;
    out.extend_from_slice(b" is ")?;
    push_number(out, has as u64)?;
    out.extend_from_slice(b", and the fields need ")?;
    push_number(out, needs as u64)?;
    out.extend_from_slice(b"\n")?;
    Ok(())
}
