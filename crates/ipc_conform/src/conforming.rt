//! Checks whether the rows of a batch that was read fit a schema.
ghost use Rattle.std.specs.List.{AllByRecursion};
ghost use Rattle.std.specs.Prelude.{◌≡◌, IsTrue, ◌<◌, ◌⊎◌, ℕ, ℤ, Bool, List, [], Some, true, false};
ghost use Rattle.std.specs.Prelude.{length, take, IfErr, OnOk, slice_get, slice_index_or};
ghost use Rattle.ipc_model.specs.Fits.{EachFits, Fits, InnerFit, FitsOwnType, RowFits};
ghost use Rattle.ipc_model.specs.Layouts.{type_layout};
ghost use Rattle.ipc_model.specs.RowFaults.{HasShortPaths};
ghost use Rattle.ipc_model.specs.declared.layout.Layout.TheVariants.{Indices};
ghost use Rattle.ipc_model.specs.declared.schema.DataType.TheVariants as kinds;
ghost use Rattle.ipc_model.specs.declared.schema.Field.{out-Field};
ghost use Rattle.ipc_model.specs.declared.schema.IntBits.{IntBits};
ghost use Rattle.ipc_model.specs.declared.value.Value.{Value, out-Value};
ghost use Rattle.ipc_model.specs.declared.value.Value.TheOpen as values;
ghost use Rattle.ipc_model.specs.declared.value.Value.TheVariants.{Null};
ghost use Rattle.ipc_column.specs.Nested.{Nested, child_columns, slot_values};
ghost use Rattle.ipc_column.specs.Slots.{is_null, nested_in, value_in_slot};
ghost use Rattle.ipc_column.specs.Values.{is_valid, row};
ghost use Rattle.ipc_column.specs.checks.Checks.{has_bitmap};
ghost use Rattle.ipc_column.specs.checks.Plain.{IsShownBy};
ghost use Rattle.ipc_conform.specs.Mismatches.{AreMismatches};
ghost use Rattle.ipc_conform.specs.PlainColumns.{layout_implies_type};

use ipc_column::{Batch, Slot, SlotView, valid_are_among};
use ipc_model::{
    DataType, DateUnit, Field, Layout, Schema, Value, WriteFault, conforms, layout_of,
};
use std::alloc::Global;

// Whether all values that the slots of a type's layout can hold are of the type.
fn layout_implies_type(kind: &DataType) -> bool
    ensures { result ≡ layout_implies_type kind.now }
{
    matches!(
        kind,
        DataType::Bool
            | DataType::Int { .. }
            | DataType::Binary
            | DataType::Utf8
            | DataType::FixedSizeBinary(_)
            | DataType::Date(DateUnit::Day)
            | DataType::Timestamp { .. }
            | DataType::Duration(_)
    )
}

// Whether two layouts are equal.
fn are_equal_layouts(one: Layout, other: Layout) -> bool
    ensures { IsTrue result → one ≡ other }
{
    one == other
}

// Whether no slot is null. Each is checked.
fn has_no_null(view: &SlotView<'_>) -> bool
    ensures { IsTrue result → (i : ℕ) → i < length (slot_values view.now)
        → is_null (slice_index_or (slot_values view.now) i Null) ≡ false }
{
    for slot in 0..view.len() {
        if view.is_null(slot) {
            return false;
        }
    }
    true
}

// Whether the null slots of a column fit a field: null fits the field, or each of them is null in
// the parent too, by the parent's bitmap.
fn nulls_fit(field: &Field, view: &SlotView<'_>, parent_validity: &[u8]) -> bool
    requires { has_bitmap (length (slot_values view.now)) (length parent_validity.now) ≡ true }
    ensures { IsTrue result → (i : ℕ) → i < length (slot_values view.now)
        → is_valid parent_validity.now i ≡ true
        → is_null (slice_index_or (slot_values view.now) i Null) ≡ true
        → IsTrue (out-Field field.now).nullable ⊎ ((out-Field field.now).kind ≡ kinds.Null) }
{
    if field.nullable || matches!(field.kind, DataType::Null) {
        return true;
    }
    match view.null_bitmap() {
        Some(marks) => valid_are_among(parent_validity, marks, view.len()),
        None => has_no_null(view),
    }
}

// Whether slots of this layout have indices.
fn is_indexed(layout: Layout) -> bool
    ensures { IsTrue result → (bits : IntBits) × ((signed : Bool) × ((id : ℤ)
        × (layout ≡ Indices bits signed id))) }
{
    matches!(layout, Layout::Indices { .. })
}

// Fast accept: the layout of the slots, or that of their dictionary's values, holds only values of
// the type.
fn shows_type(kind: &DataType, view: &SlotView<'_>) -> bool
    ensures plain { IsTrue result → layout_implies_type kind.now ≡ true }
    ensures shows { IsTrue result
        → AllByRecursion (IsShownBy (type_layout kind.now)) (slot_values view.now) }
{
    if !layout_implies_type(kind) {
        return false;
    }
    let layout = layout_of(kind, None);
    if are_equal_layouts(view.layout(), layout) {
        return true;
    }
    if !is_indexed(view.layout()) {
        return false;
    }
    match view.entries() {
        Some(entries) => are_equal_layouts(entries.layout(), layout),
        None => false,
    }
}

// Whether a slot is null or has a signed number of the field's type.
fn is_own_number(field: &Field, value: &Slot<'_>) -> bool
    ensures { IsTrue result → (under : ℕ → List Value) (slot : ℕ)
        → is_null (value_in_slot under slot value.now) ≡ false
        → FitsOwnType (out-Field field.now).kind (out-Field field.now).nullable
        (length (out-Field field.now).children) (out-Value (value_in_slot under slot value.now)) }
{
    match value {
        Slot::Null => true,
        Slot::Int(number) => field.fits_own_type(&Value::Int(*number)),
        _ => false,
    }
}

// Whether each slot is null or has a signed number of the field's type. Each is checked, except
// those of a column of nulls.
fn are_own_numbers(field: &Field, view: &SlotView<'_>) -> bool
    ensures { IsTrue result → (i : ℕ) → i < length (slot_values view.now)
        → is_null (slice_index_or (slot_values view.now) i Null) ≡ false
        → FitsOwnType (out-Field field.now).kind (out-Field field.now).nullable
        (length (out-Field field.now).children)
        (out-Value (slice_index_or (slot_values view.now) i Null)) }
{
    if are_equal_layouts(view.layout(), Layout::Null) {
        return true;
    }
    for slot in 0..view.len() {
        if !is_own_number(field, &view.at(slot)) {
            return false;
        }
    }
    true
}

// Whether the slots of a column fit a field without children, apart from null slots.
fn leaf_fits(field: &Field, view: &SlotView<'_>) -> bool
    requires { length (out-Field field.now).children ≡ 0 }
    ensures { IsTrue result → (i : ℕ) → i < length (slot_values view.now)
        → (is_null (slice_index_or (slot_values view.now) i Null) ≡ true
        → IsTrue (out-Field field.now).nullable ⊎ ((out-Field field.now).kind ≡ kinds.Null))
        → Fits field.now (slice_index_or (slot_values view.now) i Null) }
{
    if shows_type(&field.kind, view) {
        return true;
    }
    are_own_numbers(field, view)
}

// Fast accept: each slot of a column fits its field if the parent, by its bitmap, is not null. If
// it returns false, check the rows.
#[cycle(slots)]
fn slots_fit(field: &Field, view: &SlotView<'_>, parent_validity: &[u8]) -> bool
    requires { has_bitmap (length (slot_values view.now)) (length parent_validity.now) ≡ true }
    ensures { IsTrue result → (i : ℕ) → i < length (slot_values view.now)
        → is_valid parent_validity.now i ≡ true
        → Fits field.now (slice_index_or (slot_values view.now) i Null) }
{
    if !nulls_fit(field, view, parent_validity) {
        return false;
    }
    let fields = field.children.as_slice();
    match (&field.kind, view.buffers().layout) {
        (DataType::List, Layout::Lists) => items_fit(fields, view),
        (DataType::Struct, Layout::Structs) => parts_fit(fields, view),
        (DataType::FixedSizeList(size), Layout::FixedLists(items)) if *size == items => {
            items_fit(fields, view)
        }
        _ => fields.is_empty() && leaf_fits(field, view),
    }
}

// Fast accept: all slots of the one child of lists fit its field, also those that no list has.
#[cycle(slots)]
fn items_fit(fields: &[Field], view: &SlotView<'_>) -> bool
    ensures { IsTrue result → (child : Nested)
        × ((slice_get (nested_in view.now) 0 ≡ Some child)
        × InnerFit Fits kinds.List fields.now (values.List (slot_values child))) }
{
    if fields.len() != 1 || view.children() != 1 {
        return false;
    }
    slots_fit(&fields[0], &view.child(0), &[])
}

// Fast accept: the values of structs fit the fields of the children, where the struct is not null.
#[cycle(slots)]
fn parts_fit(fields: &[Field], view: &SlotView<'_>) -> bool
    ensures size { IsTrue result → length fields.now ≡ length view.now.children }
    ensures fits { IsTrue result → (i : ℕ) → i < length (slot_values view.now)
        → is_valid view.now.column.validity i ≡ true
        → EachFits Fits fields.now (row (child_columns view.now) i) }
{
    let count = view.children();
    if fields.len() != count {
        return false;
    }
    let marks = view.buffers().validity;
    for i in 0..count {
        let child = view.child(i);
        if child.len() != view.len() || !slots_fit(&fields[i], &child, marks) {
            return false;
        }
    }
    true
}

// Fast accept: all rows of a batch fit the fields. Each column is checked once. If it returns
// false, check the rows.
fn columns_fit(fields: &[Field], batch: &Batch) -> bool
    ensures { IsTrue result → AllByRecursion (RowFits fields.now) batch.now.rows }
{
    if batch.columns() != fields.len() {
        return false;
    }
    for i in 0..fields.len() {
        if !slots_fit(&fields[i], &batch.slots(i), &[]) {
            return false;
        }
    }
    true
}

// Checks one row of a batch, which has this number there.
fn check_row(schema: &Schema, row: &[Value], number: usize) -> Result<(), WriteFault>
    requires { HasShortPaths schema.now }
    ensures fit { OnOk result (RowFits schema.now.fields row.now) }
    ensures misfit { (rows : List (List Value)) → number < length rows
        → row.now ≡ slice_index_or rows number []
        → AllByRecursion (RowFits schema.now.fields) (take number rows)
        → IfErr result (AreMismatches schema.now.fields rows) }
{
    match conforms(schema, row) {
        Ok(()) => Ok(()),
        Err(fault) => Err(fault.at_row(number as u64)),
    }
}

/// Checks that all rows of a batch that was read fit a schema, as `conforms` checks one row. A
/// reader accepts null in a field that is not nullable, and a time outside of a day, but such rows
/// do not fit.
///
/// It makes no value of a column whose layout shows that all its values fit, nor of numbers. If
/// other columns need it, it reads the rows one by one.
///
/// Errors: W2 to W5 with the number of the first row that does not fit, and the path in the row;
/// W11 `OutOfMemory` if memory for the values of a row ran out.
pub fn check_rows(alloc: Global, schema: &Schema, batch: &Batch) -> Result<(), WriteFault>
    requires { HasShortPaths schema.now }
    ensures fit { OnOk result (AllByRecursion (RowFits schema.now.fields) batch.now.rows) }
    // A refusal is of the first row that does not fit, or memory ran out.
    ensures misfit { IfErr result (λ fault. (fault ≡ WriteFault.OutOfMemory)
        ⊎ AreMismatches schema.now.fields batch.now.rows fault) }
{
    if columns_fit(schema.fields.as_slice(), batch) {
        return Ok(());
    }
    let mut row = Vec::new(alloc);
    for number in 0..batch.rows() {
        let Ok(()) = batch.read_row(alloc, number, &mut row) else {
            return Err(WriteFault::OutOfMemory);
        };
        check_row(schema, row.as_slice(), number)?;
    }
    Ok(())
}
