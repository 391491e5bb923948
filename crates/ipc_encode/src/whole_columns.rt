//! Adds columns that were read with all their slots, where they have the layouts of a field and
//! of its descendants.
ghost use Rattle.std.specs.Prelude.{◌≡◌, ◌<◌, ℕ, Some, true, false, length, slice_get, slice_index};
ghost use Rattle.std.specs.Prelude.{slice_index_or, IsTrue, ◌≤◌, ◌+◌, ◌*◌, ◌^◌, IfErr, OnOk};
ghost use Rattle.ipc_model.specs.declared.layout.Layout.{Layout};
ghost use Rattle.ipc_model.specs.declared.layout.Layout.TheVariants.{Lists};
ghost use Rattle.ipc_model.specs.declared.limits.Limits.{Limits};
ghost use Rattle.ipc_model.specs.declared.value.Value.TheVariants.{Null};
ghost use Rattle.ipc_column.specs.Nested.{Nested, only_column, slot_values};
ghost use Rattle.ipc_column.specs.checks.Checks.{has_bitmap};
ghost use Rattle.ipc_column.specs.checks.Rules.{HasUtf8Texts};
ghost use Rattle.ipc_column.specs.Shapes as shapes;
ghost use Rattle.ipc_column.specs.Shapes.{bare, field, child_shape, field_layout, shape_of};
ghost use Rattle.ipc_column.specs.Slots.{nested_in};
ghost use Rattle.ipc_column.specs.Values.{is_valid};
ghost use Rattle.ipc_encode.specs.Buffers.{child_values, data_buffers, padded_bytes};
ghost use Rattle.ipc_encode.specs.Cells.{all_parts};
ghost use Rattle.ipc_encode.specs.Numbers.{Numbering};
ghost use Rattle.ipc_encode.specs.Segments.{AddsBuffers, AddsColumns, AreRefusedAfter};
ghost use Rattle.ipc_encode.specs.Segments.{IsBodyRefused, segment_bytes};
ghost use Rattle.ipc_encode.specs.WholeColumns.{AreFullColumns, IsCanonical, IsFullColumn};
ghost use Rattle.ipc_encode.specs.WholeColumns.{IsLaidOutAs, UseAllItems, last_offset};
ghost use Rattle.ipc_encode.specs.WholeColumns.{lent_offsets};

use crate::canonical::{first_bytes, is_canonical, lent_validity, offset_at};
use crate::fault::PushFault;
use crate::segments::{Draft, Segment, add_buffer, add_counts};
use ipc_column::{SlotView, is_valid, valid_are_among};
use ipc_model::{Field, Layout, Limits, layout_of};

// Whether each slot that is null in the column of a child is null in the child too.
fn nulls_are_shared(marks: &[u8], child: &SlotView<'_>) -> bool
    requires { has_bitmap (length (slot_values child.now)) (length marks.now) ≡ true }
    ensures { IsTrue result → (i : ℕ) → i < length (slot_values child.now)
        → is_valid marks.now i ≡ false → slice_index_or (slot_values child.now) i Null ≡ Null }
{
    match child.null_bitmap() {
        Some(own) => valid_are_among(own, marks, child.len()),
        None => marks.is_empty(),
    }
}

/// Returns true only if the structs of a column use all slots of a child: one each, which is null
/// if the struct is.
pub(crate) fn structs_use_all_slots(view: &SlotView<'_>, i: usize) -> bool
    requires { i < length view.now.children }
    ensures slots { IsTrue result → (child : Nested)
        → slice_get (nested_in view.now) i ≡ Some child
        → all_parts i (slot_values view.now) ≡ slot_values child }
    ensures texts { IsTrue result → (child : Nested)
        → slice_get (nested_in view.now) i ≡ Some child
        → ((j : ℕ) → j < length (slot_values view.now) → HasUtf8Texts (only_column view.now) j)
        → (j : ℕ) → j < length (slot_values child) → HasUtf8Texts (only_column child) j }
{
    let buffers = view.buffers();
    let Layout::Structs = buffers.layout else {
        return false;
    };
    let child = view.child(i);
    if view.len() != child.len() {
        return false;
    }
    nulls_are_shared(buffers.validity, &child)
}

// Whether the slots of a column from `from` up to `to` are null. Those of a column of nulls are not
// visited.
fn are_null(view: &SlotView<'_>, from: usize, to: usize) -> bool
    requires { to ≤ length (slot_values view.now) }
    ensures { IsTrue result → (j : ℕ) → from ≤ j → j < to
        → slice_index_or (slot_values view.now) j Null ≡ Null }
{
    if let Layout::Null = view.layout() {
        return true;
    }
    for slot in from..to {
        if !view.is_null(slot) {
            return false;
        }
    }
    true
}

// Whether the child of `count` lists of this size has only null slots for a list that is null.
fn null_lists_have_nulls(marks: &[u8], size: usize, count: usize, child: &SlotView<'_>) -> bool
    requires bits { has_bitmap count (length marks.now) ≡ true }
    requires slots { size * count ≡ length (slot_values child.now) }
    requires few { size * count < 2 ^ 64 }
    ensures { IsTrue result → (i : ℕ) → i < count → is_valid marks.now i ≡ false
        → (j : ℕ) → size * i ≤ j → j < size * (i + 1)
        → slice_index_or (slot_values child.now) j Null ≡ Null }
{
    if marks.is_empty() {
        return true;
    }
    for slot in 0..count {
        if !is_valid(marks, slot) && !are_null(child, size * slot, size * slot + size) {
            return false;
        }
    }
    true
}

// Returns true only if the fixed-size lists of a column use all slots of a child: those of one list
// after another, which are null if the list is.
fn fixed_lists_use_all_slots(view: &SlotView<'_>, i: usize) -> bool
    requires { i < length view.now.children }
    ensures slots { IsTrue result → (child : Nested)
        → slice_get (nested_in view.now) i ≡ Some child
        → child_values view.now.column.layout (slot_values view.now) i ≡ slot_values child }
    ensures texts { IsTrue result → (child : Nested)
        → slice_get (nested_in view.now) i ≡ Some child
        → ((j : ℕ) → j < length (slot_values view.now) → HasUtf8Texts (only_column view.now) j)
        → (j : ℕ) → j < length (slot_values child) → HasUtf8Texts (only_column child) j }
{
    let buffers = view.buffers();
    let Layout::FixedLists(size) = buffers.layout else {
        return false;
    };
    let count = view.len();
    let Some(slots) = (size as usize).checked_mul(count) else {
        return false;
    };
    let child = view.child(i);
    if i != 0 || child.len() != slots {
        return false;
    }
    null_lists_have_nulls(buffers.validity, size as usize, count, &child)
}

// Whether the slots of a column lead to all slots of a child, in their order.
fn uses_all_slots(view: &SlotView<'_>, i: usize) -> bool
    requires child { i < length view.now.children }
    requires lists { view.now.column.layout ≡ Lists → UseAllItems view.now }
    ensures slots { IsTrue result → (child : Nested)
        → slice_get (nested_in view.now) i ≡ Some child
        → child_values view.now.column.layout (slot_values view.now) i ≡ slot_values child }
    ensures texts { IsTrue result → (child : Nested)
        → slice_get (nested_in view.now) i ≡ Some child
        → ((j : ℕ) → j < length (slot_values view.now) → HasUtf8Texts (only_column view.now) j)
        → (j : ℕ) → j < length (slot_values child) → HasUtf8Texts (only_column child) j }
{
    match view.layout() {
        Layout::Lists => i == 0,
        Layout::Structs => structs_use_all_slots(view, i),
        Layout::FixedLists(_) => fixed_lists_use_all_slots(view, i),
        _ => false,
    }
}

// The layout of a field.
fn layout_at(field: &Field) -> Layout
    ensures { result ≡ field_layout field.now }
{
    layout_of(&field.kind, field.dictionary)
}

/// Returns true only if a column that was read and its descendants have the layouts of a field and
/// its descendants. They must have no slots but those that the column's slots refer to.
#[cycle(has_field_layout)]
pub(crate) fn has_field_layout(field: &Field, view: &SlotView<'_>) -> bool
    ensures { IsTrue result
        → ((i : ℕ) → i < length (slot_values view.now) → HasUtf8Texts (only_column view.now) i)
        → IsFullColumn (field_layout field.now) (child_shape field.now) view.now
        (slot_values view.now) }
{
    let fields = field.children.as_slice();
    if view.layout() != layout_at(field) || fields.len() != view.children() {
        return false;
    }
    is_canonical(view) && have_field_layouts(fields, view)
}

// Whether each child of a column that was read has the layouts of its field, as in
// `has_field_layout`.
#[cycle(has_field_layout)]
fn have_field_layouts(fields: &[Field], view: &SlotView<'_>) -> bool
    requires count { length fields.now ≡ length view.now.children }
    requires lists { view.now.column.layout ≡ Lists → UseAllItems view.now }
    ensures { IsTrue result
        → ((i : ℕ) → i < length (slot_values view.now) → HasUtf8Texts (only_column view.now) i)
        → AreFullColumns (shape_of fields.now) (nested_in view.now)
        (child_values view.now.column.layout (slot_values view.now)) }
{
    for i in 0..fields.len() {
        if !uses_all_slots(view, i) || !has_field_layout(&fields[i], &view.child(i)) {
            return false;
        }
    }
    true
}

// Returns the offsets of `count` slots as they are laid out: one zero if there is no slot.
fn lent_offsets(offsets: &[u8], count: usize) -> Segment<'_>
    requires { 0 < count → 4 * (count + 1) ≤ length offsets.now }
    ensures { segment_bytes result ≡ lent_offsets offsets.now count }
{
    if count == 0 {
        return Segment::Zeros(4);
    }
    first_bytes(offsets, 4 * (count + 1))
}

// Returns where the data of `count` slots ends.
fn last_offset(offsets: &[u8], count: usize) -> usize
    requires { 0 < count → 4 * (count + 1) ≤ length offsets.now }
    ensures last { result ≡ last_offset offsets.now count }
    ensures bytes { (i : ℕ) → slice_index offsets.now i < 256 }
{
    if count == 0 {
        return 0;
    }
    offset_at(offsets, count) as usize
}

// Adds the buffers of a column that follow its validity bitmap. The errors are those of
// `add_buffer`.
fn add_data<'a>(
    draft: &mut Draft<'a>,
    view: &SlotView<'a>,
    limits: &Limits,
) -> Result<(), PushFault>
    requires canonical { IsCanonical view.now }
    requires within { draft.old.len ≤ limits.now.body }
    ensures nodes { OnOk result (draft.new.nodes.items ≡ draft.old.nodes.items) }
    ensures adds { OnOk result (AddsBuffers draft.old draft.new
        (data_buffers view.now.column.layout (slot_values view.now))) }
    ensures within { OnOk result (draft.new.len ≤ limits.now.body) }
    ensures refused { IfErr result (IsBodyRefused limits.now (draft.old.len + length (padded_bytes
        (data_buffers view.now.column.layout (slot_values view.now))))) }
{
    let buffers = view.buffers();
    let count = view.len();
    match view.layout() {
        Layout::Bits => {
            let values = first_bytes(buffers.values, count.div_ceil(8));
            add_buffer(draft, values, limits)
        }
        Layout::Numbers { bits, .. } => {
            let values = first_bytes(buffers.values, bits.bytes() * count);
            add_buffer(draft, values, limits)
        }
        Layout::FixedBytes(width) => {
            let values = first_bytes(buffers.values, width as usize * count);
            add_buffer(draft, values, limits)
        }
        Layout::VariableBytes { .. } => {
            let values = first_bytes(buffers.values, last_offset(buffers.offsets, count));
            add_buffer(draft, lent_offsets(buffers.offsets, count), limits)?;
            add_buffer(draft, values, limits)
        }
        Layout::Lists => add_buffer(draft, lent_offsets(buffers.offsets, count), limits),
        Layout::Null | Layout::Structs | Layout::FixedLists(_) | Layout::Indices { .. } => Ok(()),
    }
}

/// Adds the node and the buffers of a column, without its descendants.
///
/// Errors: `TooMany` if there are more than `limits.slots` slots; `TooLong` if the body would have
/// more than `limits.body` bytes; `OutOfMemory` if memory for a buffer ran out.
pub(crate) fn add_own<'a>(
    draft: &mut Draft<'a>,
    layout: Layout,
    view: &SlotView<'a>,
    limits: &Limits,
) -> Result<(), PushFault>
    requires lies { IsLaidOutAs layout view.now (slot_values view.now) }
    requires within { draft.old.len ≤ limits.now.body }
    ensures adds { (known : Numbering) → OnOk result (AddsColumns limits.now known
        (field layout bare bare) (λ j. slot_values view.now) draft.old draft.new) }
    ensures refused { IfErr result (AreRefusedAfter limits.now draft.old.len
        (field layout bare bare) (λ j. slot_values view.now)) }
{
    let count = view.len();
    if count > limits.slots as usize {
        return Err(PushFault::TooMany);
    }
    if let Layout::Null = layout {
        add_counts(draft, count, count)?;
        return Ok(());
    }
    let null_count = view.null_count() as usize;
    let validity = lent_validity(view.buffers().validity, count, null_count);
    add_counts(draft, count, null_count)?;
    add_buffer(draft, validity, limits)?;
    add_data(draft, view, limits)?;
    Ok(())
}

/// Adds the columns of a field and of its descendants, each with all slots of a column that was
/// read. The errors are those of `add_own`, from any of these columns.
#[cycle(add_whole)]
pub(crate) fn add_whole<'a>(
    draft: &mut Draft<'a>,
    field: &Field,
    view: &SlotView<'a>,
    limits: &Limits,
) -> Result<(), PushFault>
    requires whole { IsFullColumn (field_layout field.now) (child_shape field.now) view.now
        (slot_values view.now) }
    requires within { draft.old.len ≤ limits.now.body }
    ensures adds { (known : Numbering) → OnOk result (AddsColumns limits.now known
        (shapes.field (field_layout field.now) (child_shape field.now) bare)
        (λ j. slot_values view.now) draft.old draft.new) }
    ensures refused { IfErr result (AreRefusedAfter limits.now draft.old.len
        (shapes.field (field_layout field.now) (child_shape field.now) bare)
        (λ j. slot_values view.now)) }
{
    add_own(draft, layout_at(field), view, limits)?;
    add_children(draft, field.children.as_slice(), view, limits)
}

// Adds the columns of the children of a column that was read, one for each field.
#[cycle(add_whole)]
fn add_children<'a>(
    draft: &mut Draft<'a>,
    fields: &[Field],
    view: &SlotView<'a>,
    limits: &Limits,
) -> Result<(), PushFault>
    requires whole { AreFullColumns (shape_of fields.now) (nested_in view.now)
        (child_values view.now.column.layout (slot_values view.now)) }
    requires within { draft.old.len ≤ limits.now.body }
    ensures adds { (known : Numbering) → OnOk result (AddsColumns limits.now known
        (shape_of fields.now) (child_values view.now.column.layout (slot_values view.now))
        draft.old draft.new) }
    ensures refused { IfErr result (AreRefusedAfter limits.now draft.old.len (shape_of fields.now)
        (child_values view.now.column.layout (slot_values view.now))) }
{
    for i in 0..fields.len() {
        let child = view.child(i);
        add_whole(draft, &fields[i], &child, limits)?;
    }
    Ok(())
}
