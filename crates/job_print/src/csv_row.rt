//! A row of lent cells as a record of CSV.
ghost use Rattle.std.specs.Prelude.{◌≡◌, ◌≢◌, ◌≤◌, ◌<◌, ◌+◌, ◌++◌, [], length, take, IfErr, None};
ghost use Rattle.std.specs.Prelude.{Ok, OnOk, Some, slice_get, true};
ghost use Rattle.csv.specs.Writing.{next_sep};
ghost use Rattle.ipc_column.specs.Nested.{child_columns, slot_values};
ghost use Rattle.ipc_column.specs.Slots.{value_in_slot};
ghost use Rattle.ipc_column.specs.Values.{row};
ghost use Rattle.job_print.specs.Fields.{AddsField, AddsRecord};
ghost use Rattle.job_print.specs.LentSlots.{slot_value};
ghost use Rattle.job_print.specs.LentRows.{HaveRow, row_at};
ghost use Rattle.ipc_text_temporal.specs.Temporals.{temporal_text};
ghost use Rattle.ipc_text_csv.specs.RowCsv.{IsRefusal, flat_fault, with_field};
ghost use Rattle.ipc_text_csv.specs.RowCsv.{int_text, bool_text, put_texts, row_csv, csv_text};
ghost use Rattle.ipc_text_csv.specs.declared.dialect.Dialect.{Dialect};
ghost use Rattle.ipc_text_csv.specs.Dialects.{writer};

use crate::column_tree::{ColumnReader, ColumnTree, Entry, SlotReader};
use crate::csv_fields::{
    put_bytes_field, put_end, put_front_field, put_null, put_signed_field, put_text_field,
    put_unsigned_field,
};
use crate::text_buffer::TextBuffer;
use ipc_column::Slot;
use ipc_model::{DataType, Field, IntBits, Layout};
use ipc_text_csv::Dialect;
use ipc_text_temporal::TextFault;

// An upper bound for a delimiter and a value, except null, a text and bytes.
const MAX_VALUE_LEN: usize = 64;

// The delimiter in front of the column with this number, of which the first has none.
#[inline(always)]
fn put_delimiter(out: &mut TextBuffer, delimiter: u8, column: usize)
    requires { 1 ≤ out.old.room }
    ensures text { out.new.text ≡ out.old.text ++ next_sep (writer delimiter) column }
    ensures room { out.old.room ≤ out.new.room + 1 }
{
    if column == 0 {
        return;
    }
    out.put(&[delimiter]);
}

// A date, a time or a point in time.
#[inline(always)]
fn put_temporal_field(
    out: &mut TextBuffer,
    column: u64,
    kind: &DataType,
    number: i64,
) -> Result<(), TextFault>
    requires { 32 ≤ out.old.room }
    ensures { (d : Dialect) → AddsField d.delimiter column (temporal_text kind.now number)
        out.old.text out.new.text result }
{
    if out.put_temporal(kind, number) {
        return Ok(());
    }
    Err(TextFault::NoTextForm { column })
}

// A signed number of this type.
#[inline(always)]
fn put_int(out: &mut TextBuffer, column: u64, kind: &DataType, number: i64) -> Result<(), TextFault>
    requires { 32 ≤ out.old.room }
    ensures { (d : Dialect) → AddsField d.delimiter column (int_text kind.now number)
        out.old.text out.new.text result }
{
    match kind {
        DataType::Date(_) | DataType::Time(_) | DataType::Timestamp { .. } => {
            put_temporal_field(out, column, kind, number)
        }
        _ => Ok(put_signed_field(out, number)),
    }
}

#[inline(always)]
fn put_bool(out: &mut TextBuffer, truth: bool)
    requires { 5 ≤ out.old.room }
    ensures { (d : Dialect) → out.new.text ≡ with_field d.delimiter out.old.text (bool_text truth) }
{
    out.put_bool(truth);
}

// Writes `value`, which a slot holds in this column.
#[inline(always)]
fn put_slot_text(
    out: &mut TextBuffer,
    dialect: &Dialect<'_>,
    column: u64,
    field: &Field,
    tree: &ColumnTree<'_>,
    slot: usize,
    value: Slot<'_>,
) -> Result<(), TextFault>
    requires room { 32 ≤ out.old.room }
    requires slot { slot < length (slot_values tree.now) }
    requires value { slice_get (slot_values tree.now) slot
        ≡ Some (value_in_slot (row (child_columns tree.now)) slot value) }
    ensures { AddsField dialect.now.delimiter column
        (csv_text dialect.now field.now (slot_value tree.now slot)) out.old.text out.new.text
        result }
{
    match value {
        Slot::Null => put_null(out, dialect, column, field),
        Slot::Bool(truth) => Ok(put_bool(out, truth)),
        Slot::Int(number) => put_int(out, column, &field.kind, number),
        Slot::UInt(number) => Ok(put_unsigned_field(out, number)),
        Slot::Bytes(bytes) => put_bytes_field(out, dialect, column, bytes),
        Slot::Text(chars) => put_text_field(out, dialect, column, chars),
        // A record has no place for the values of a list or of a struct.
        Slot::List { .. } => Err(TextFault::NoTextForm { column }),
        Slot::Struct => Err(TextFault::NoTextForm { column }),
    }
}

// Writes what a slot holds. It is a function of its own, so that the loop over the columns stays
// small. A text of the column's dictionary is found by its index.
#[inline(never)]
fn put_other(
    out: &mut TextBuffer,
    dialect: &Dialect<'_>,
    column: u64,
    field: &Field,
    tree: &ColumnTree<'_>,
    slot: usize,
) -> Result<(), TextFault>
    requires room { 32 ≤ out.old.room }
    requires slot { slot < length (slot_values tree.now) }
    ensures { AddsField dialect.now.delimiter column
        (csv_text dialect.now field.now (slot_value tree.now slot)) out.old.text out.new.text
        result }
{
    match tree.entry_at(slot) {
        Entry::Text(bytes, len) => put_front_field(out, dialect, column, bytes, len),
        Entry::Null => put_null(out, dialect, column, field),
        Entry::Others => put_slot_text(out, dialect, column, field, tree, slot, tree.at(slot)),
    }
}

// Writes `value`, which a slot holds in a column of numbers, truth values or fixed-size binary.
// Each call names a layout, so only the arms of that layout are compiled for it. `put_slot_text` in
// its place takes two fifths more instructions.
#[inline(always)]
fn put_leaf(
    out: &mut TextBuffer,
    dialect: &Dialect<'_>,
    column: u64,
    field: &Field,
    tree: &ColumnTree<'_>,
    slot: usize,
    value: Slot<'_>,
) -> Result<(), TextFault>
    requires room { 32 ≤ out.old.room }
    requires slot { slot < length (slot_values tree.now) }
    requires value { slice_get (slot_values tree.now) slot
        ≡ Some (value_in_slot (row (child_columns tree.now)) slot value) }
    ensures { AddsField dialect.now.delimiter column
        (csv_text dialect.now field.now (slot_value tree.now slot)) out.old.text out.new.text
        result }
{
    match value {
        Slot::Int(number) => put_int(out, column, &field.kind, number),
        Slot::Bool(truth) => Ok(put_bool(out, truth)),
        Slot::Bytes(bytes) => put_bytes_field(out, dialect, column, bytes),
        Slot::Null => put_null(out, dialect, column, field),
        _ => put_other(out, dialect, column, field, tree, slot),
    }
}

// What a slot holds, a text or null.
#[inline(always)]
fn put_text_slot(
    out: &mut TextBuffer,
    dialect: &Dialect<'_>,
    column: u64,
    field: &Field,
    tree: &ColumnTree<'_>,
    slot: usize,
) -> Result<(), TextFault>
    requires room { 32 ≤ out.old.room }
    requires layout { tree.now.column.layout ≡ Layout.VariableBytes true }
    requires slot { slot < length (slot_values tree.now) }
    ensures { AddsField dialect.now.delimiter column
        (csv_text dialect.now field.now (slot_value tree.now slot)) out.old.text out.new.text
        result }
{
    match tree.text_at(slot) {
        Some((bytes, len)) => put_front_field(out, dialect, column, bytes, len),
        None => put_null(out, dialect, column, field),
    }
}

// Writes what a slot holds, by its layout: each arm is compiled for one layout.
#[inline(always)]
fn put_cell(
    out: &mut TextBuffer,
    dialect: &Dialect<'_>,
    column: u64,
    field: &Field,
    tree: &ColumnTree<'_>,
    slot: usize,
) -> Result<(), TextFault>
    requires room { 32 ≤ out.old.room }
    requires slot { slot < length (slot_values tree.now) }
    ensures { AddsField dialect.now.delimiter column
        (csv_text dialect.now field.now (slot_value tree.now slot)) out.old.text out.new.text
        result }
{
    match tree.kind() {
        SlotReader::Int64 => {
            let value = tree.at_layout(
                Layout::Numbers {
                    bits: IntBits::B64,
                    signed: true,
                },
                slot,
            );
            put_leaf(out, dialect, column, field, tree, slot, value)
        }
        SlotReader::Int32 => {
            let value = tree.at_layout(
                Layout::Numbers {
                    bits: IntBits::B32,
                    signed: true,
                },
                slot,
            );
            put_leaf(out, dialect, column, field, tree, slot, value)
        }
        SlotReader::Bool => {
            let value = tree.at_layout(Layout::Bits, slot);
            put_leaf(out, dialect, column, field, tree, slot, value)
        }
        SlotReader::Utf8 => put_text_slot(out, dialect, column, field, tree, slot),
        SlotReader::Bytes(width) => {
            let value = tree.at_layout(Layout::FixedBytes(width), slot);
            put_leaf(out, dialect, column, field, tree, slot, value)
        }
        SlotReader::Others => put_other(out, dialect, column, field, tree, slot),
    }
}

// The fields of a row of a batch, of which each column is lent.
#[tactic(auto, using(crate::proofs::Cells::no_fields))]
fn put_cells(
    out: &mut TextBuffer,
    dialect: &Dialect<'_>,
    fields: &[Field],
    columns: &[ColumnReader<'_>],
    row: usize,
) -> Result<(), TextFault>
    requires columns { length columns.now ≡ length fields.now }
    requires row { HaveRow columns.now row }
    ensures ok { OnOk result (put_texts dialect.now out.old.text fields.now
        (row_at columns.now row) ≡ Ok out.new.text) }
    ensures refused { IfErr result (IsRefusal (put_texts dialect.now out.old.text fields.now
        (row_at columns.now row))) }
    ensures front { IfErr result (λ fault. fault ≢ TextFault.OutOfMemory
        → take (length out.old.text) out.new.text ≡ out.old.text) }
{
    let mut number = 0;
    let mut fields = fields;
    let mut columns = columns;
    while let ([field, more_fields @ ..], [column, more_columns @ ..]) = (fields, columns) {
        out.reserve(MAX_VALUE_LEN)?;
        put_delimiter(out, dialect.delimiter(), number);
        put_cell(out, dialect, number as u64, field, column.tree(), row)?;
        number += 1;
        fields = more_fields;
        columns = more_columns;
    }
    Ok(())
}

/// Adds the record of a row in a dialect: its fields and a line feed. X3 with the first column
/// whose value has no text; then a beginning of the record may have been added. `OutOfMemory` if
/// memory ran out.
///
/// The caller gives the columns of a batch, a row below its `rows`, and the fields of the columns,
/// which CSV has a place for.
pub fn csv_line(
    out: &mut TextBuffer,
    dialect: &Dialect<'_>,
    fields: &[Field],
    columns: &[ColumnReader<'_>],
    row: usize,
) -> Result<(), TextFault>
    requires columns { length columns.now ≡ length fields.now }
    requires row { HaveRow columns.now row }
    requires fits { flat_fault fields.now ≡ None }
    ensures ok { OnOk result (AddsRecord (row_csv dialect.now fields.now (row_at columns.now row))
        out.old.text out.new.text) }
    ensures refused { IfErr result
        (IsRefusal (row_csv dialect.now fields.now (row_at columns.now row))) }
    ensures front { IfErr result (λ fault. fault ≢ TextFault.OutOfMemory
        → take (length out.old.text) out.new.text ≡ out.old.text) }
{
    let start = out.len();
    put_cells(out, dialect, fields, columns, row)?;
    Ok(put_end(out, start)?)
}
