//! Explains why rows are not written.
ghost use Rattle.std.specs.Prelude.{◌≡◌, ◌++◌, IfOk, IfSome, None, OnOk, Some, slice_get};
ghost use Rattle.job_explain.specs.Writes as spec;
ghost use Rattle.job_explain.specs.Writes.{ExplainsWrite, dictionary_line, dictionary_lines};
ghost use Rattle.job_explain.specs.Writes.{growth_line, growth_lines, steps_words};

use crate::column_lines::{push_string, push_title, push_type};
use ipc_model::{DataType, Dictionary, Field, RowCause, RowFault, Schema, WriteFault};
use ipc_text_temporal::{push_number, push_signed};
use std::alloc::{AllocError, Global};

// The words for what is wrong with a value.
fn cause_words(cause: RowCause) -> &'static [u8]
    ensures { result.now ≡ spec.cause_words cause }
{
    match cause {
        RowCause::RowWidth => b"another number of values than fields in ",
        RowCause::WrongKind => b"a value of another kind in ",
        RowCause::OutOfRange => b"a value out of range in ",
        RowCause::NullNotAllowed => b"null in ",
    }
}

/// Returns the field with this number, if there is one.
pub(crate) fn field_at(fields: &[Field], number: usize) -> Option<&Field>
    ensures some { IfSome result (λ field. slice_get fields.now number ≡ Some field.now) }
    ensures none { result ≡ None → slice_get fields.now number ≡ None }
{
    if number < fields.len() {
        Some(&fields[number])
    } else {
        None
    }
}

// Appends the words for a field and for the fields on the path below it.
fn push_steps(
    alloc: Global,
    out: &mut Vec<u8>,
    word: &[u8],
    fields: &[Field],
    path: &[u32],
) -> Result<(), AllocError>
    ensures ok { OnOk result
        (out.new.items ≡ out.old.items ++ steps_words word.now fields.now path.now) }
{
    let Some((number, rest)) = path.split_first() else {
        return Ok(());
    };
    let Some(field) = field_at(fields, *number as usize) else {
        return Ok(());
    };
    out.extend_from_slice(word)?;
    push_number(out, u64::from(*number))?;
    out.extend_from_slice(b" ")?;
    push_string(alloc, out, field.name.as_str())?;
    if rest.is_empty() {
        return push_type(alloc, out, &field.kind);
    }
    push_steps(alloc, out, b", child ", field.children.as_slice(), rest)
}

// The line for a row that does not fit its schema.
fn row_line(
    alloc: Global,
    schema: &Schema,
    row: u64,
    fault: &RowFault,
) -> Result<Vec<u8>, AllocError>
    ensures line { IfOk result (λ out. out.items ≡ spec.row_line schema.now.fields row fault.now) }
{
    let mut out = Vec::new(alloc);
    out.extend_from_slice(b"row ")?;
    push_number(&mut out, row)?;
    out.extend_from_slice(b": ")?;
    out.extend_from_slice(cause_words(fault.cause))?;
    let path = fault.path.numbers();
    if path.is_empty() {
        out.extend_from_slice(b"the row")?;
    } else {
        push_steps(alloc, &mut out, b"column ", schema.fields.as_slice(), path)?;
    }
    out.extend_from_slice(b"\n")?;
    Ok(out)
}

// Appends the line for a column that has a dictionary.
fn push_dictionary(
    alloc: Global,
    out: &mut Vec<u8>,
    number: usize,
    field: &Field,
    dictionary: Dictionary,
) -> Result<(), AllocError>
    ensures ok { OnOk result (out.new.items
        ≡ out.old.items ++ dictionary_line number field.now (Some dictionary)) }
{
    push_title(alloc, out, number, field)?;
    out.extend_from_slice(b": dictionary ")?;
    push_signed(out, dictionary.id)?;
    out.extend_from_slice(b" with indices")?;
    let kind = DataType::Int {
        bits: dictionary.index.bits,
        signed: dictionary.index.signed,
    };
    push_type(alloc, out, &kind)?;
    out.extend_from_slice(b"\n")?;
    Ok(())
}

// Appends the lines for the columns that have a dictionary.
fn list_dictionaries(alloc: Global, out: &mut Vec<u8>, fields: &[Field]) -> Result<(), AllocError>
    ensures ok { OnOk result
        (out.new.items ≡ out.old.items ++ dictionary_lines 0 fields.now) }
{
    for number in 0..fields.len() {
        if let Some(dictionary) = fields[number].dictionary {
            push_dictionary(alloc, out, number, &fields[number], dictionary)?;
        }
    }
    Ok(())
}

// The words for what a value adds to a column beside its slot: more slots, or with `bytes` also
// bytes.
fn growth_words(bytes: bool, kind: &DataType) -> Option<&'static [u8]>
    ensures some { IfSome result (λ words. spec.growth_words bytes kind.now ≡ Some words.now) }
    ensures none { result ≡ None → spec.growth_words bytes kind.now ≡ None }
{
    match kind {
        DataType::Binary if bytes => Some(b"bytes of any length"),
        DataType::Utf8 if bytes => Some(b"texts of any length"),
        DataType::List => Some(b"lists of any length"),
        DataType::FixedSizeList(_) => Some(b"lists"),
        DataType::Struct => Some(b"structs"),
        _ => None,
    }
}

// Appends the line for a column whose values add these words.
fn push_growth(
    alloc: Global,
    out: &mut Vec<u8>,
    number: usize,
    field: &Field,
    words: &[u8],
) -> Result<(), AllocError>
    ensures ok { OnOk result (out.new.items
        ≡ out.old.items ++ growth_line number field.now (Some words.now)) }
{
    push_title(alloc, out, number, field)?;
    out.extend_from_slice(b": ")?;
    out.extend_from_slice(words)?;
    out.extend_from_slice(b"\n")?;
    Ok(())
}

// Appends the lines for the columns whose values add slots, or with `bytes` also bytes.
fn list_growing(
    alloc: Global,
    out: &mut Vec<u8>,
    bytes: bool,
    fields: &[Field],
) -> Result<(), AllocError>
    ensures ok { OnOk result
        (out.new.items ≡ out.old.items ++ growth_lines bytes 0 fields.now) }
{
    for number in 0..fields.len() {
        if let Some(words) = growth_words(bytes, &fields[number].kind) {
            push_growth(alloc, out, number, &fields[number], words)?;
        }
    }
    Ok(())
}

/// Returns lines that explain why rows of a schema are not written, each with a line feed. They are
/// empty where nothing more is known than the fault.
///
/// - W2 to W5: what is wrong with the value, and its column and the children on the way to it, by
///   their numbers and names, with the type of the last one.
/// - W6: the columns that can make a batch too long: those of bytes, texts, lists and structs.
/// - W7: the columns that have a dictionary, with the types of their indices. Dictionaries of
///   children are not listed.
/// - W8: the columns that can have more slots than the batch has rows: those of lists and structs,
///   and then those that have a dictionary.
///
/// Which column of W6, W7 and W8 was too large is not known: the rows are gone.
pub fn explain_write(
    alloc: Global,
    schema: &Schema,
    fault: &WriteFault,
) -> Result<Vec<u8>, AllocError>
    ensures lines { IfOk result
        (λ out. ExplainsWrite schema.now.fields fault.now out.items) }
{
    let mut out = Vec::new(alloc);
    let fields = schema.fields.as_slice();
    match fault {
        WriteFault::Row { row, fault } => return row_line(alloc, schema, *row, fault),
        WriteFault::TooLong => list_growing(alloc, &mut out, true, fields)?,
        WriteFault::DictionaryFull => list_dictionaries(alloc, &mut out, fields)?,
        WriteFault::TooManyRows => {
            list_growing(alloc, &mut out, false, fields)?;
            list_dictionaries(alloc, &mut out, fields)?;
        }
        _ => {}
    }
    Ok(out)
}
