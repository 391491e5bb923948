//! A row of lent cells as a line of JSON.
ghost use Rattle.std.specs.Prelude.{◌≡◌, ◌≤◌, ◌<◌, ◌+◌, ◌++◌, ◌∷◌, [], length, map, false};
ghost use Rattle.std.specs.Prelude.{OnOk, Some, replicate, slice_get, true};
ghost use Rattle.std.specs.Fmt.{signed_decimal};
ghost use Rattle.hex.specs.Hex.{encode_lower};
ghost use Rattle.json.specs.Print.{quoted, token_text};
ghost use Rattle.serde_json.specs.Data.{array, boolean, null};
ghost use Rattle.serde_json.specs.Written.{comma_if, compact_text, items_text};
ghost use Rattle.ipc_model.specs.declared.schema.Field.{Field};
ghost use Rattle.ipc_model.specs.declared.value.Value.TheVariants as v;
ghost use Rattle.ipc_column.specs.Nested.{child_columns, slot_values};
ghost use Rattle.ipc_column.specs.Slots.{value_in_slot};
ghost use Rattle.ipc_column.specs.Values.{row};
ghost use Rattle.job_print.specs.LentRows.{HaveRow, row_at};
ghost use Rattle.job_print.specs.LentSlots.{HaveSlot, HasListSlots, list_values, slot_value};
ghost use Rattle.job_print.specs.LentSlots.{values_between};
ghost use Rattle.job_print.specs.RowTexts.{name_text};
ghost use Rattle.ipc_text_json.specs.RowJson.{cell_json, int_json, items_json, list_json};
ghost use Rattle.ipc_text_json.specs.RowJson.{row_field, row_text, values_json};
ghost use Rattle.ipc_text_json.specs.RowTokens.{closing, opening};
ghost use Rattle.ipc_text_json.specs.declared.row.RowShape.{RowShape};

use crate::column_tree::{ColumnReader, ColumnTree, Entry, SlotReader};
use crate::json_strings::{put_front, put_string};
use crate::text_buffer::TextBuffer;
use ipc_column::Slot;
use ipc_model::{DataType, Field, IntBits, Layout};
use ipc_text_json::RowShape;
use std::alloc::AllocError;

// An upper bound for a comma and a value, except a text and bytes.
const MAX_VALUE_LEN: usize = 64;

// Writes a comma, unless the item is the first.
#[inline(always)]
fn put_comma(out: &mut TextBuffer, later: bool)
    requires { 1 ≤ out.old.room }
    ensures text { out.new.text ≡ out.old.text ++ comma_if later }
    ensures room { out.old.room ≤ out.new.room + 1 }
{
    out.put_if(later, b',');
}

#[inline(always)]
fn put_null(out: &mut TextBuffer)
    requires { 4 ≤ out.old.room }
    ensures { out.new.text ≡ out.old.text ++ compact_text null }
{
    out.put(b"null");
}

#[inline(always)]
fn put_bool(out: &mut TextBuffer, truth: bool)
    requires { 5 ≤ out.old.room }
    ensures { out.new.text ≡ out.old.text ++ compact_text (boolean truth) }
{
    out.put_bool(truth);
}

// A number that has no text of its own though others of its type do.
#[cold]
#[inline(never)]
fn write_plain_number(out: &mut TextBuffer, number: i64)
    requires { 25 ≤ out.old.room }
    ensures { out.new.text ≡ out.old.text ++ signed_decimal number }
{
    out.put_i64(number);
}

// A date, a time or a point in time as its text where it has one, and else the number.
#[inline(always)]
fn write_temporal(out: &mut TextBuffer, kind: &DataType, number: i64)
    requires { 60 ≤ out.old.room }
    ensures { out.new.text ≡ out.old.text ++ compact_text (int_json kind.now number) }
{
    let start = out.len();
    out.put(b"\"");
    if out.put_temporal(kind, number) {
        out.put(b"\"");
    } else {
        out.truncate(start);
        write_plain_number(out, number);
    }
}

// Writes a signed number by its type: plain integers first, which are the most frequent.
#[inline(always)]
fn put_int(out: &mut TextBuffer, kind: &DataType, number: i64)
    requires { 60 ≤ out.old.room }
    ensures { out.new.text ≡ out.old.text ++ compact_text (int_json kind.now number) }
{
    match kind {
        DataType::Int { .. } => out.put_i64(number),
        _ => write_temporal(out, kind, number),
    }
}

// Bytes as a text of lower-case hexadecimal digits.
#[inline(always)]
fn put_bytes(out: &mut TextBuffer, bytes: &[u8]) -> Result<(), AllocError>
    requires { 1 ≤ out.old.room }
    ensures { OnOk result (out.new.text ≡ out.old.text ++ quoted (encode_lower bytes.now)) }
{
    out.put(b"\"");
    out.put_hexadecimal(bytes)?;
    out.put(b"\"");
    Ok(())
}

// Reserves room for a value, and writes a comma before it, unless it is the first.
#[inline(always)]
fn start_item(out: &mut TextBuffer, later: bool) -> Result<(), AllocError>
    ensures room { OnOk result (60 ≤ out.new.room) }
    ensures text { OnOk result (out.new.text ≡ out.old.text ++ comma_if later) }
{
    out.reserve(MAX_VALUE_LEN)?;
    put_comma(out, later);
    Ok(())
}

// The name of a member and a colon, with room for the value.
#[inline(never)]
fn put_name(out: &mut TextBuffer, name: &[u8]) -> Result<(), AllocError>
    ensures room { OnOk result (60 ≤ out.new.room) }
    ensures text { OnOk result (out.new.text ≡ out.old.text ++ name_text RowShape.Object name.now) }
{
    put_string(out, name)?;
    out.reserve(MAX_VALUE_LEN)?;
    out.put(b":");
    Ok(())
}

// Reserves room for a value of a row or a struct, and writes what precedes it: a comma, unless it
// is the first, and in an object its field's name.
#[inline(always)]
fn start_value(
    out: &mut TextBuffer,
    shape: RowShape,
    field: &Field,
    later: bool,
) -> Result<(), AllocError>
    ensures room { OnOk result (60 ≤ out.new.room) }
    ensures text { OnOk result (out.new.text ≡ out.old.text
        ++ comma_if later ++ name_text shape (row_field shape field.now).name) }
{
    start_item(out, later)?;
    match shape {
        RowShape::Array => Ok(()),
        RowShape::Object => put_name(out, field.name.as_str().as_bytes()),
    }
}

// The opening bracket of a row or a struct.
#[inline(always)]
fn put_start(out: &mut TextBuffer, shape: RowShape)
    requires { 1 ≤ out.old.room }
    ensures { out.new.text ≡ out.old.text ++ token_text (opening shape) }
{
    match shape {
        RowShape::Array => out.put(b"["),
        RowShape::Object => out.put(b"{"),
    }
}

// The closing bracket.
#[inline(always)]
fn put_end(out: &mut TextBuffer, shape: RowShape) -> Result<(), AllocError>
    ensures { OnOk result (out.new.text ≡ out.old.text ++ token_text (closing shape)) }
{
    out.reserve(1)?;
    match shape {
        RowShape::Array => out.put(b"]"),
        RowShape::Object => out.put(b"}"),
    }
    Ok(())
}

// What a slot of a column holds, by the column's field.
#[cycle(slot)]
fn put_slot(
    out: &mut TextBuffer,
    shape: RowShape,
    field: &Field,
    column: &ColumnTree<'_>,
    slot: usize,
) -> Result<(), AllocError>
    requires room { 60 ≤ out.old.room }
    requires slot { slot < length (slot_values column.now) }
    ensures { OnOk result (out.new.text ≡ out.old.text
        ++ compact_text (cell_json shape field.now (slot_value column.now slot))) }
{
    if let SlotReader::Utf8 = column.kind() {
        return put_text_slot(out, column, slot);
    }
    match column.at(slot) {
        Slot::Null => Ok(put_null(out)),
        Slot::Bool(truth) => Ok(put_bool(out, truth)),
        Slot::Int(number) => Ok(put_int(out, &field.kind, number)),
        Slot::UInt(number) => Ok(out.put_u64(number)),
        Slot::Bytes(bytes) => put_bytes(out, bytes),
        Slot::Text(chars) => put_string(out, chars),
        Slot::List { from, to } => {
            put_list(out, shape, field.children.as_slice(), column, from, to)
        }
        Slot::Struct => put_struct(out, shape, field.children.as_slice(), column, slot),
    }
}

// Writes the values of a list, which are slots of its child, by the field's one child.
#[cycle(slot)]
fn put_list(
    out: &mut TextBuffer,
    shape: RowShape,
    children: &[Field],
    column: &ColumnTree<'_>,
    from: usize,
    to: usize,
) -> Result<(), AllocError>
    requires room { 60 ≤ out.old.room }
    requires slots { HasListSlots column.now from to }
    ensures { OnOk result (out.new.text ≡ out.old.text
        ++ compact_text (array (list_json (map (row_field shape) children.now)
        (list_values column.now from to)))) }
{
    out.put(b"[");
    match children.first() {
        Some(child) => put_items(out, shape, child, column, from, to),
        None => put_end(out, RowShape::Array),
    }
}

// The values of a list and the closing bracket.
#[cycle(slot)]
fn put_items(
    out: &mut TextBuffer,
    shape: RowShape,
    child: &Field,
    column: &ColumnTree<'_>,
    from: usize,
    to: usize,
) -> Result<(), AllocError>
    requires { HasListSlots column.now from to }
    ensures { OnOk result (out.new.text ≡ out.old.text
        ++ items_text false (items_json (cell_json shape child.now)
        (list_values column.now from to))) }
{
    if column.children() == 0 {
        return put_nulls(out, to - from);
    }
    put_slots(out, shape, child, column.child(0), from, to - from)
}

// Writes `count` nulls and the closing bracket.
fn put_nulls(out: &mut TextBuffer, count: usize) -> Result<(), AllocError>
    ensures { (shape : RowShape) → (field : Field) → OnOk result (out.new.text ≡ out.old.text
        ++ items_text false (items_json (cell_json shape field) (replicate count v.Null))) }
{
    for number in 0..count {
        start_item(out, 0 < number)?;
        put_null(out);
    }
    put_end(out, RowShape::Array)
}

// Writes what these slots of a column hold, and the closing bracket.
#[cycle(slot)]
fn put_slots(
    out: &mut TextBuffer,
    shape: RowShape,
    field: &Field,
    column: &ColumnTree<'_>,
    from: usize,
    count: usize,
) -> Result<(), AllocError>
    requires { from + count ≤ length (slot_values column.now) }
    ensures { OnOk result (out.new.text ≡ out.old.text
        ++ items_text false (items_json (cell_json shape field.now)
        (values_between column.now from count))) }
{
    // Brings the contract of `len` into the proof.
    let _slots = column.len();
    let mut later = false;
    for number in 0..count {
        start_item(out, later)?;
        put_slot(out, shape, field, column, from + number)?;
        later = true;
    }
    put_end(out, RowShape::Array)
}

// The values of a struct, each by its child of the field.
#[cycle(slot)]
fn put_struct(
    out: &mut TextBuffer,
    shape: RowShape,
    children: &[Field],
    column: &ColumnTree<'_>,
    slot: usize,
) -> Result<(), AllocError>
    requires room { 60 ≤ out.old.room }
    requires slot { HaveSlot column.now slot }
    ensures { OnOk result (out.new.text ≡ out.old.text
        ++ compact_text (values_json shape (map (row_field shape) children.now)
        (row (child_columns column.now) slot))) }
{
    put_start(out, shape);
    let mut later = false;
    for (number, field) in children.iter().enumerate() {
        if number >= column.children() {
            return put_end(out, shape);
        }
        start_value(out, shape, field, later)?;
        put_slot(out, shape, field, column.child(number), slot)?;
        later = true;
    }
    put_end(out, shape)
}

// Writes what a slot of a row holds. It is a function of its own, so that the loop over the columns
// stays small. A text of the column's dictionary is found by its index.
#[inline(never)]
fn put_other(
    out: &mut TextBuffer,
    shape: RowShape,
    field: &Field,
    column: &ColumnTree<'_>,
    slot: usize,
) -> Result<(), AllocError>
    requires room { 60 ≤ out.old.room }
    requires slot { slot < length (slot_values column.now) }
    ensures { OnOk result (out.new.text ≡ out.old.text
        ++ compact_text (cell_json shape field.now (slot_value column.now slot))) }
{
    match column.entry_at(slot) {
        Entry::Text(bytes, len) => put_front(out, bytes, len),
        Entry::Null => Ok(put_null(out)),
        Entry::Others => put_slot(out, shape, field, column, slot),
    }
}

// Writes what a slot of a row holds, which is this, in a column of numbers, truth values or
// fixed-size binary. Each call names a layout, so only the arms of that layout are compiled for it.
#[inline(always)]
fn put_leaf(
    out: &mut TextBuffer,
    shape: RowShape,
    field: &Field,
    column: &ColumnTree<'_>,
    slot: usize,
    value: Slot<'_>,
) -> Result<(), AllocError>
    requires room { 60 ≤ out.old.room }
    requires slot { slot < length (slot_values column.now) }
    requires value { slice_get (slot_values column.now) slot
        ≡ Some (value_in_slot (row (child_columns column.now)) slot value) }
    ensures { OnOk result (out.new.text ≡ out.old.text
        ++ compact_text (cell_json shape field.now (slot_value column.now slot))) }
{
    match value {
        Slot::Int(number) => Ok(put_int(out, &field.kind, number)),
        Slot::Bool(truth) => Ok(put_bool(out, truth)),
        Slot::Bytes(bytes) => put_bytes(out, bytes),
        Slot::Null => Ok(put_null(out)),
        _ => put_other(out, shape, field, column, slot),
    }
}

// What a slot of a row holds, a text or null.
#[inline(always)]
fn put_text_slot(
    out: &mut TextBuffer,
    column: &ColumnTree<'_>,
    slot: usize,
) -> Result<(), AllocError>
    requires room { 60 ≤ out.old.room }
    requires layout { column.now.column.layout ≡ Layout.VariableBytes true }
    requires slot { slot < length (slot_values column.now) }
    ensures { (shape : RowShape) → (field : Field) → OnOk result (out.new.text ≡ out.old.text
        ++ compact_text (cell_json shape field (slot_value column.now slot))) }
{
    match column.text_at(slot) {
        Some((bytes, len)) => put_front(out, bytes, len),
        None => Ok(put_null(out)),
    }
}

// Writes what a slot of a row holds, by its layout: each arm is compiled for one layout.
#[inline(always)]
fn put_cell(
    out: &mut TextBuffer,
    shape: RowShape,
    field: &Field,
    column: &ColumnTree<'_>,
    slot: usize,
) -> Result<(), AllocError>
    requires room { 60 ≤ out.old.room }
    requires slot { slot < length (slot_values column.now) }
    ensures { OnOk result (out.new.text ≡ out.old.text
        ++ compact_text (cell_json shape field.now (slot_value column.now slot))) }
{
    match column.kind() {
        SlotReader::Int64 => {
            let value = column.at_layout(
                Layout::Numbers {
                    bits: IntBits::B64,
                    signed: true,
                },
                slot,
            );
            put_leaf(out, shape, field, column, slot, value)
        }
        SlotReader::Int32 => {
            let value = column.at_layout(
                Layout::Numbers {
                    bits: IntBits::B32,
                    signed: true,
                },
                slot,
            );
            put_leaf(out, shape, field, column, slot, value)
        }
        SlotReader::Bool => {
            let value = column.at_layout(Layout::Bits, slot);
            put_leaf(out, shape, field, column, slot, value)
        }
        SlotReader::Utf8 => put_text_slot(out, column, slot),
        SlotReader::Bytes(width) => {
            let value = column.at_layout(Layout::FixedBytes(width), slot);
            put_leaf(out, shape, field, column, slot, value)
        }
        SlotReader::Others => put_other(out, shape, field, column, slot),
    }
}

/// Adds the JSON text of a row, in this shape, and a line feed. It fails only if memory ran out.
///
/// The caller gives the columns of a batch, a row below its `rows`, and the fields of the columns.
#[inline(always)]
pub fn json_line(
    out: &mut TextBuffer,
    shape: RowShape,
    fields: &[Field],
    columns: &[ColumnReader<'_>],
    row: usize,
) -> Result<(), AllocError>
    requires columns { length columns.now ≡ length fields.now }
    requires row { HaveRow columns.now row }
    ensures { OnOk result (out.new.text ≡ out.old.text
        ++ row_text shape fields.now (row_at columns.now row) ++ 10 ∷ []) }
{
    out.reserve(1)?;
    put_start(out, shape);
    let mut later = false;
    let mut fields = fields;
    let mut columns = columns;
    while let ([field, more_fields @ ..], [column, more_columns @ ..]) = (fields, columns) {
        start_value(out, shape, field, later)?;
        put_cell(out, shape, field, column.tree(), row)?;
        later = true;
        fields = more_fields;
        columns = more_columns;
    }
    put_end(out, shape)?;
    out.reserve(1)?;
    out.put(b"\n");
    Ok(())
}
