//! Writes a row as JSON.
ghost use Rattle.std.specs.Prelude.{◌≡◌, ◌++◌, ◌∷◌, [], map, OnOk, IfOk, IfErr, string_bytes};
ghost use Rattle.hex.specs.Hex.{encode_lower};
ghost use Rattle.json.specs.Token.{Token};
ghost use Rattle.json.specs.Tree.{json_tokens, items_tokens};
ghost use Rattle.serde_json.specs.Data.{array};
ghost use Rattle.serde_json.specs.Written.{outline, items_outline};
ghost use Rattle.ipc_text_json.specs.RowJson as spec;
ghost use Rattle.ipc_text_json.specs.RowJson.{cell_json, int_json, items_json, list_json};
ghost use Rattle.ipc_text_json.specs.RowJson.{row_field, row_text};
ghost use Rattle.ipc_text_json.specs.RowTokens.{closing, name_tokens, opening};

use ipc_model::{DataType, Field, Schema, Value};
use ipc_text_temporal::{TextFault, push_digits, temporal_text};
use json::Writer;
use std::alloc::{AllocError, Global};

/// How the values of a row are written, and those of a struct in it.
#[derive(Clone, Copy, Debug, PartialEq, Eq)]
pub enum RowShape {
    /// An array.
    Array,
    /// An object, whose keys are the names of the columns, or of the struct's children.
    Object,
}

// A signed number of a field of this type. A date, a time or a timestamp is written as its text if
// it has one; any other number is written as a number.
fn put_int(out: &mut Writer, kind: &DataType, number: i64) -> Result<(), AllocError>
    ensures ok { OnOk result (out.new.tokens
        ≡ out.old.tokens ++ json_tokens (outline (int_json kind.now number))) }
    ensures before { out.new.before ≡ out.old.before }
{
    match temporal_text(kind, number) {
        Some(text) => out.string(text.as_str()),
        None => out.i64(number),
    }
}

// Bytes as a string of lower-case hexadecimal digits. `digits` is scratch memory, whose contents
// have no meaning.
fn put_bytes(out: &mut Writer, digits: &mut Vec<u8>, bytes: &[u8]) -> Result<(), AllocError>
    ensures ok { OnOk result (out.new.tokens
        ≡ out.old.tokens ++ Token.string (encode_lower bytes.now) ∷ []) }
    ensures before { out.new.before ≡ out.old.before }
{
    digits.clear();
    push_digits(digits, bytes)?;
    out.string(unsafe { str::from_utf8_unchecked(digits.as_slice()) })
}

// The opening bracket of a row or a struct.
fn begin_values(out: &mut Writer, shape: RowShape) -> Result<(), AllocError>
    ensures ok { OnOk result (out.new.tokens ≡ out.old.tokens ++ opening shape ∷ []) }
    ensures before { out.new.before ≡ out.old.before }
{
    match shape {
        RowShape::Array => out.begin_array(),
        RowShape::Object => out.begin_object(),
    }
}

// In an object, the name of the next value's field.
fn put_name(out: &mut Writer, shape: RowShape, name: &str) -> Result<(), AllocError>
    ensures ok { OnOk result (out.new.tokens ≡ out.old.tokens ++ name_tokens shape name.now) }
    ensures before { out.new.before ≡ out.old.before }
{
    match shape {
        RowShape::Array => Ok(()),
        RowShape::Object => out.key(name),
    }
}

// The closing bracket of a row or a struct.
fn end_values(out: &mut Writer, shape: RowShape) -> Result<(), AllocError>
    ensures ok { OnOk result (out.new.tokens ≡ out.old.tokens ++ closing shape ∷ []) }
    ensures before { out.new.before ≡ out.old.before }
{
    match shape {
        RowShape::Array => out.end_array(),
        RowShape::Object => out.end_object(),
    }
}

#[cycle(cell)]
fn put_cell(
    out: &mut Writer,
    digits: &mut Vec<u8>,
    shape: RowShape,
    field: &Field,
    value: &Value,
) -> Result<(), AllocError>
    ensures ok { OnOk result (out.new.tokens
        ≡ out.old.tokens ++ json_tokens (outline (cell_json shape field.now value.now))) }
    ensures before { out.new.before ≡ out.old.before }
{
    let children = field.children.as_slice();
    match value {
        Value::Null => out.null(),
        Value::Bool(truth) => out.boolean(*truth),
        Value::Int(number) => put_int(out, &field.kind, *number),
        Value::UInt(number) => out.u64(*number),
        Value::Bytes(bytes) => put_bytes(out, digits, bytes.as_slice()),
        Value::Text(text) => out.string(text.as_str()),
        Value::List(values) => put_list(out, digits, shape, children, values.as_slice()),
        Value::Struct(values) => put_values(out, digits, shape, children, values.as_slice()),
    }
}

// The values of a list, by its field's one child.
#[cycle(cell)]
fn put_list(
    out: &mut Writer,
    digits: &mut Vec<u8>,
    shape: RowShape,
    children: &[Field],
    values: &[Value],
) -> Result<(), AllocError>
    ensures ok { OnOk result (out.new.tokens
        ≡ out.old.tokens ++ json_tokens
        (outline (array (list_json (map (row_field shape) children.now) values.now)))) }
    ensures before { out.new.before ≡ out.old.before }
{
    out.begin_array()?;
    match children.first() {
        Some(child) => put_items(out, digits, shape, child, values),
        None => out.end_array(),
    }
}

// The values of a list and the closing bracket.
#[cycle(cell)]
fn put_items(
    out: &mut Writer,
    digits: &mut Vec<u8>,
    shape: RowShape,
    child: &Field,
    values: &[Value],
) -> Result<(), AllocError>
    ensures ok { OnOk result (out.new.tokens
        ≡ out.old.tokens ++ items_tokens
        (items_outline (items_json (cell_json shape child.now) values.now))) }
    ensures before { out.new.before ≡ out.old.before }
{
    for value in values {
        put_cell(out, digits, shape, child, value)?;
    }
    out.end_array()
}

// Values beside their fields, as those of a row and of a struct are.
#[cycle(cell)]
fn put_values(
    out: &mut Writer,
    digits: &mut Vec<u8>,
    shape: RowShape,
    fields: &[Field],
    values: &[Value],
) -> Result<(), AllocError>
    ensures ok { OnOk result (out.new.tokens
        ≡ out.old.tokens ++ json_tokens (outline (spec.row_json shape fields.now values.now))) }
    ensures before { out.new.before ≡ out.old.before }
{
    begin_values(out, shape)?;
    for (number, field) in fields.iter().enumerate() {
        let Some(value) = values.get(number) else {
            return end_values(out, shape);
        };
        put_name(out, shape, field.name.as_str())?;
        put_cell(out, digits, shape, field, value)?;
    }
    end_values(out, shape)
}

/// Returns a row as compact JSON (RFC 8259), in this shape: an array of its values, or an object
/// with the names of its columns as keys, in their order. Names that repeat are not joined.
///
/// The row must have values of the kinds of its columns. It need not conform in every way: nulls in
/// columns that are not nullable, milliseconds of a date that are no whole days, and times outside
/// 24 hours are written too.
///
/// Numbers and durations are integers, bytes are strings of lower-case hexadecimal digits, lists
/// are arrays, and structs have the shape of the row. A date, a time or a timestamp is its text if
/// it has one, and else an integer. Errors: `OutOfMemory` only.
pub fn row_json(
    alloc: Global,
    shape: RowShape,
    schema: &Schema,
    row: &[Value],
) -> Result<String, TextFault>
    ensures text { IfOk result
        (λ text. string_bytes text ≡ row_text shape schema.now.fields row.now) }
    ensures refused { IfErr result (λ fault. fault ≡ TextFault.OutOfMemory) }
{
    let mut writer = Writer::new(Vec::new(alloc));
    let mut digits = Vec::new(alloc);
    put_values(
        &mut writer,
        &mut digits,
        shape,
        schema.fields.as_slice(),
        row,
    )?;
    let bytes = writer.into_inner();
    Ok(unsafe { String::from_utf8_unchecked(bytes) })
}
